//! Laws of steps: functions that do nothing, whose contracts are the laws.
ghost use Rattle.rdx_reduce.specs.ClosureLaws.{MatchesInContext, ContextIsJoined, StepsInContext, KeepsOwnSteps, ClosureLists, FaultsInContext, KeepsOwnFaults, ClosureFaults};
ghost use Rattle.rdx_reduce.specs.ClosureExamples.{NameStays, NameIsTaken, ClosureOfClosure, StepsInside, NoStepAtTop, FreshAvoidsContext, StepsInEachPlace, FaultInside, FirstPlaceFails};
ghost use Rattle.rdx_reduce.specs.Examples.{OneStep, StepByEach, OnceForTwo, FaultAlone, RulesInOrder, MarksCount, FirstFault};
ghost use Rattle.rdx_reduce.specs.Examples.{ConditionHolds, ConditionFails, WhereFails, TermOutside, ReductOutside, BothInside};
ghost use Rattle.rdx_reduce.specs.FirstFaults.{AnswersFirst};
ghost use Rattle.rdx_reduce.specs.Laws.{OneStepping, SomeStepping};
ghost use Rattle.rdx_reduce.specs.TakenSteps.{ListsTaken, StaysInDomain};
ghost use Rattle.rdx_reduce.specs.ValidClosures.{ClosureIsValid, CompatibleIsValid, FewLeaveNames, ClosureBindsOneMore};

/// A relation has one listing of its steps from a term, or one fault, where the program's languages
/// are free of left recursion.
pub fn one_stepping()
    ensures one { OneStepping }
    ensures some { SomeStepping }
{}

/// Where there is no fault, the steps that are listed are exactly those that the rules take, one by
/// one, and the term and all that they lead to are in the relation's domain. A fault is that the term
/// is not there, or else the first that the rules meet, by rule, extra and binding.
pub fn taken_steps()
    ensures lists { ListsTaken }
    ensures stays { StaysInDomain }
    ensures fault { AnswersFirst }
{}

/// The rule of a closure matches where the closing pattern splits off a context and the rule
/// matches the part, and takes the steps of a valid rule there. So where there is no fault, the
/// steps of a closure are exactly those that the rules of the relation take inside of contexts; and
/// its fault is that the whole term is not in the domain, or else the first that they meet there. The
/// name of the context has to be none that a rule binds.
pub fn closures_step_inside()
    ensures matches { MatchesInContext }
    ensures joined { ContextIsJoined }
    ensures steps { StepsInContext }
    ensures own { KeepsOwnSteps }
    ensures lists { ClosureLists }
    ensures faults { FaultsInContext }
    ensures own_faults { KeepsOwnFaults }
    ensures first { ClosureFaults }
{}

/// A closure of a valid relation is valid over the relation's language, where the closing pattern is
/// well formed and each rule leaves the name of a context free. Rules that bind few names do; and those
/// of a closure bind one more, so closures of closures are valid too.
pub fn closures_stay_valid()
    ensures valid { ClosureIsValid }
    ensures compatible { CompatibleIsValid }
    ensures few { FewLeaveNames }
    ensures more { ClosureBindsOneMore }
{}

/// Worked examples: the steps of small rules from small terms.
pub fn worked_examples()
    ensures one_step { OneStep }
    ensures step_by_each { StepByEach }
    ensures once_for_two { OnceForTwo }
    ensures fault_alone { FaultAlone }
    ensures rules_in_order { RulesInOrder }
    ensures marks_count { MarksCount }
    ensures first_fault { FirstFault }
    ensures condition_holds { ConditionHolds }
    ensures condition_fails { ConditionFails }
    ensures where_fails { WhereFails }
    ensures term_outside { TermOutside }
    ensures reduct_outside { ReductOutside }
    ensures both_inside { BothInside }
{}

/// Worked examples: what closures make of relations of one rule.
pub fn worked_closures()
    ensures name_stays { NameStays }
    ensures name_is_taken { NameIsTaken }
    ensures closure_of_closure { ClosureOfClosure }
    ensures steps_inside { StepsInside }
    ensures no_step_at_top { NoStepAtTop }
    ensures fresh_avoids_context { FreshAvoidsContext }
    ensures steps_in_each_place { StepsInEachPlace }
    ensures fault_inside { FaultInside }
    ensures first_place_fails { FirstPlaceFails }
{}
