//! Laws of walks and runs: functions that do nothing, whose contracts are the laws.
ghost use Rattle.rdx_run.specs.Examples.{NoChoice, SecondThenFirst, ZeroIsNone, BeyondTheSteps, NoStepLeft, StopsAtOnce, StopsBehindOne, RestsInTheLast, OneTooFew, GoesOnForEver, TwoReducts, BranchesBehindOne, MarksCount, TwoToOne, FailsAtOnce, FailsBehindOne, NotLookedAt};
ghost use Rattle.rdx_run.specs.Laws.{OneRun, OneWalk, SomeRun, SomeWalk};

/// A relation has one walk at most from a term by given choices, and the run from a term one end.
pub fn one_walk()
    ensures walk { OneWalk }
    ensures run { OneRun }
{
    rdx_reduce::laws::one_stepping();
}

/// It has a walk, and the run has an end, where the program's languages are free of left recursion.
pub fn some_walk()
    ensures walk { SomeWalk }
    ensures run { SomeRun }
{
    rdx_reduce::laws::one_stepping();
}

/// Worked examples: walks and runs over a small table of steps.
pub fn worked_examples()
    ensures no_choice { NoChoice }
    ensures second_then_first { SecondThenFirst }
    ensures zero_is_none { ZeroIsNone }
    ensures beyond_the_steps { BeyondTheSteps }
    ensures no_step_left { NoStepLeft }
    ensures stops_at_once { StopsAtOnce }
    ensures stops_behind_one { StopsBehindOne }
    ensures rests_in_the_last { RestsInTheLast }
    ensures one_too_few { OneTooFew }
    ensures goes_on_for_ever { GoesOnForEver }
    ensures two_reducts { TwoReducts }
    ensures branches_behind_one { BranchesBehindOne }
    ensures marks_count { MarksCount }
    ensures two_to_one { TwoToOne }
    ensures fails_at_once { FailsAtOnce }
    ensures fails_behind_one { FailsBehindOne }
    ensures not_looked_at { NotLookedAt }
{}
