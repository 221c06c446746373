// Steps down from judgements: a rule, and a binding of which its outputs are made.
ghost use Rattle.std.specs.Prelude.{◌≡◌, ◌↔◌, ◌<◌, ◌∷◌, ◌++◌, [], IfNone, IfOk, IfSome, IsTrue, OnOk, Some, length, map};
ghost use Rattle.rdx_lang.specs.Bindings as model;
ghost use Rattle.rdx_lang.specs.Bindings.{HasAscendingNames, visible as seen_of};
ghost use Rattle.rdx_lang.specs.Checked.{language_in, pattern_in};
ghost use Rattle.rdx_lang.specs.Join.{IsJoin};
ghost use Rattle.rdx_lang.specs.Members.{In};
ghost use Rattle.rdx_lang.specs.Names.{names};
ghost use Rattle.rdx_lang.specs.Programs.{language_named, such_as, holds};
ghost use Rattle.rdx_lang.specs.ProgramView.{extra_of, extras_of, judgement_rule_of, premise_of, program_of};
ghost use Rattle.rdx_lang.specs.Rules.{Match};
ghost use Rattle.rdx_lang.specs.Shown.{binding_of, bindings_of};
ghost use Rattle.rdx_lang.specs.TemplateView.{template_of};
ghost use Rattle.rdx_term.specs.View.{tree_of};
ghost use Rattle.rdx_eval.specs.Answers.{value};
ghost use Rattle.rdx_eval.specs.Fresh.{avoiding, freshly};
ghost use Rattle.rdx_eval.specs.Instantiation.{MakeList};
ghost use Rattle.rdx_eval.specs.Views.{program_in, terms_in};
ghost use Rattle.rdx_deriv.specs.Derivations.{judged};
ghost use Rattle.rdx_deriv.specs.DerivationView.{goal_of};
ghost use Rattle.rdx_why.specs.Explaining.{HasKnownRules, HasOutputs, IsKnownExtra, IsKnownRule};
ghost use Rattle.rdx_deriv.specs.Avoiding.{avoided_of};
ghost use Rattle.rdx_deriv.specs.Inside.Faults.{IsNamed};
ghost use Rattle.rdx_opened.specs.Picking.{picked};
ghost use Rattle.rdx_why.specs.Inside.Keeping.{AreRulesOf};
ghost use Rattle.rdx_why.specs.Inside.Steps.{IsStepFrom};
ghost use Rattle.rdx_why.specs.Inside.Ways.{AreGoals, AreRuleGoals, HasSeen, HasSurvivors, IsPassed, IsSeenGoal, IsWithin, RuleAt, RuleHas, RuleMakes, RuleWay, WayOn, Ways};
ghost use Rattle.rdx_why.specs.Model.Ends.{AreEnds, HasOnly, IsRuleAt, IsSame, bound};
ghost use Rattle.rdx_why.specs.declared.kept.End.{End as CodeEnd};
ghost use Rattle.rdx_deriv.specs.Judged.{Judged, calls};

use crate::ends::{Ends, key_of};
use crate::kept::End;
use crate::step::Step;
use rdx_bind::join;
use rdx_bind::naming::has_differ;
use rdx_deriv::{Avoided, Goal, allows, avoiding_all, fresh_binding, made, made_list, pass};
use rdx_eval::{Engine, EvalFault};
use rdx_lang::{
    Binding, CheckedLang, CheckedPat, Extra, JRule, Matcher, Premise, Program, Template,
};
use rdx_opened::{Wanted, restricted, seek_match, whole};
use rdx_term::{Name, NoMemory, Term};
use std::alloc::Global;

/// A goal that a pattern matches, and what is seen of what it binds.
#[derive(Drop)]
struct Seen {
    goal: Goal,
    binding: Binding,
}

// The goal that the pattern matches the term and binds what c says of its names, where it does.
fn seen_goal<M: Matcher + Drop>(
    alloc: Global,
    language: &CheckedLang,
    finder: &mut M,
    l: &Name,
    pat: &CheckedPat,
    t: &Term,
    c: &Binding,
) -> Result<Option<Seen>, NoMemory>
    ensures some { IfOk result (λ r. IfSome r (λ s. IsSeenGoal (language_in language.now) l.now
        (pattern_in pat.now) (tree_of t.now) (binding_of c.now) (goal_of s.goal)
        (binding_of s.binding))) }
    ensures none { IfOk result (λ r. IfNone r ((d : model.Binding)
        → Match (language_in language.now) (pattern_in pat.now) (tree_of t.now) d
        → seen_of d ≡ picked (binding_of c.now) (names (pattern_in pat.now)) → ⊥)) }
{
    let pat = pat.pat();
    let binding = restricted(alloc, c, &pat.names(alloc)?)?;
    match seek_match(alloc, language, finder, pat, t, Wanted::Seen(&binding))? {
        Some(found) => {
            let b = whole(alloc, &found.opened.marks, &found.binding)?;
            let goal = Goal::Match(l.share()?, pat.share(alloc)?, t.share()?, b);
            Ok(Some(Seen { goal, binding }))
        }
        None => Ok(None),
    }
}

// The goal that the pattern matches the term and binds what c says of its names, which it does. It
// is sought for mismatch names alone.
fn known_goal<M: Matcher + Drop>(
    alloc: Global,
    language: &CheckedLang,
    finder: &mut M,
    l: &Name,
    pat: &CheckedPat,
    t: &Term,
    c: &Binding,
) -> Result<Seen, NoMemory>
    requires { HasSeen (language_in language.now) (pattern_in pat.now) (tree_of t.now)
        (binding_of c.now) }
    ensures { IfOk result (λ s. IsSeenGoal (language_in language.now) l.now
        (pattern_in pat.now) (tree_of t.now) (binding_of c.now) (goal_of s.goal)
        (binding_of s.binding)) }
{
    if has_differ(pat.pat()) {
        let Some(seen) = seen_goal(alloc, language, finder, l, pat, t, c)? else {
            unreachable!()
        };
        return Ok(seen);
    }
    let pat = pat.pat();
    let binding = restricted(alloc, c, &pat.names(alloc)?)?;
    let b = binding.share()?;
    let goal = Goal::Match(l.share()?, pat.share(alloc)?, t.share()?, b);
    Ok(Seen { goal, binding })
}

/// What is bound behind an extra, and its goals.
#[derive(Drop)]
struct Passed {
    binding: Binding,
    goals: Vec<Goal>,
}

// The same binding, behind no goal.
fn passed_none(alloc: Global, b: &Binding) -> Result<Passed, NoMemory>
    ensures { IfOk result (λ r. (map goal_of r.goals.items ≡ [])
        × (binding_of r.binding ≡ binding_of b.now)) }
{
    let binding = b.share()?;
    let goals = Vec::new(alloc);
    Ok(Passed { binding, goals })
}

// A binding behind one goal.
fn passed_one(alloc: Global, binding: Binding, goal: Goal) -> Result<Passed, NoMemory>
    ensures { IfOk result (λ r. (map goal_of r.goals.items ≡ goal_of goal ∷ [])
        × (binding_of r.binding ≡ binding_of binding)) }
{
    let mut goals = Vec::new(alloc);
    goals.push(goal)?;
    Ok(Passed { binding, goals })
}

// A binding behind two goals.
fn passed_two(
    alloc: Global,
    binding: Binding,
    first: Goal,
    second: Goal,
) -> Result<Passed, NoMemory>
    ensures { IfOk result (λ r. (map goal_of r.goals.items ≡ goal_of first ∷ goal_of second ∷ [])
        × (binding_of r.binding ≡ binding_of binding)) }
{
    let mut goals = Vec::new(alloc);
    goals.push(first)?;
    goals.push(second)?;
    Ok(Passed { binding, goals })
}

// What a `where` leads to on the way to c: its goal is that the pattern matches what the template
// makes.
fn by_where<M: Matcher + Drop>(
    alloc: Global,
    engine: &mut Engine<M>,
    finder: &mut M,
    program: &Program,
    language: &CheckedLang,
    l: &Name,
    avoids: &Avoided,
    pat: &CheckedPat,
    template: &Template,
    b: &Binding,
    c: &Binding,
) -> Result<Passed, NoMemory>
    requires program { (program_in engine.old).now ≡ program.now }
    requires spoken { language_named (program_of program.now) l.now
        ≡ Some (language_in language.now) }
    requires known { IsKnownExtra (language_in language.now)
        (such_as (pattern_in pat.now) (template_of template.now)) }
    requires map { HasAscendingNames (binding_of c.now) }
    requires way { WayOn (program_of program.now) (language_in language.now)
        (avoided_of avoids.now)
        (such_as (pattern_in pat.now) (template_of template.now)) (binding_of b.now)
        (IsWithin (binding_of c.now)) }
    ensures passed { IfOk result (λ r. IsPassed (program_of program.now) l.now
        (avoided_of avoids.now) (such_as (pattern_in pat.now) (template_of template.now))
        (binding_of c.now) (binding_of b.now) (map goal_of r.goals.items) (binding_of r.binding)) }
    ensures same { program_in engine.new ≡ program_in engine.old }
{
    let Some(t) = made(engine, program, template, b)? else {
        unreachable!()
    };
    let seen = known_goal(alloc, language, finder, l, pat, &t, c)?;
    let Some(binding) = join(alloc, b, &seen.binding)? else {
        unreachable!()
    };
    passed_one(alloc, binding, seen.goal)
}

/// Outputs, and a goal that a pattern matches them.
#[derive(Drop)]
struct Taken {
    outputs: Term,
    seen: Seen,
}

// The first of these outputs that the pattern matches and binds what c says of its names.
fn first_taken<M: Matcher + Drop>(
    alloc: Global,
    language: &CheckedLang,
    finder: &mut M,
    l: &Name,
    pat: &CheckedPat,
    outs: &[Term],
    c: &Binding,
) -> Result<Option<Taken>, NoMemory>
    ensures some { IfOk result (λ r. IfSome r (λ s. In (tree_of s.outputs) (map tree_of outs.now)
        × IsSeenGoal (language_in language.now) l.now (pattern_in pat.now) (tree_of s.outputs)
        (binding_of c.now) (goal_of s.seen.goal) (binding_of s.seen.binding))) }
    ensures none { IfOk result (λ r. IfNone r ((u : _) → In u (map tree_of outs.now)
        → (d : model.Binding) → Match (language_in language.now) (pattern_in pat.now) u d
        → seen_of d ≡ picked (binding_of c.now) (names (pattern_in pat.now)) → ⊥)) }
{
    for u in outs {
        if let Some(seen) = seen_goal(alloc, language, finder, l, pat, u, c)? {
            let outputs = u.share()?;
            return Ok(Some(Taken { outputs, seen }));
        }
    }
    Ok(None)
}

// Want of memory, where no other fault can be.
fn only_memory(fault: EvalFault) -> NoMemory
    requires { ¬ IsNamed fault }
{
    match fault {
        EvalFault::NoMemory => NoMemory,
        EvalFault::Named(_) => unreachable!(),
    }
}

// What the judgement is answered for these inputs, where it has no fault.
fn answered<M: Matcher + Drop>(
    engine: &mut Engine<M>,
    program: &Program,
    j: &Name,
    ins: &Term,
) -> Result<Vec<Term>, NoMemory>
    requires program { (program_in engine.old).now ≡ program.now }
    requires outputs { HasOutputs (program_of program.now) j.now (tree_of ins.now) }
    ensures answered { IfOk result (λ outs. (calls (program_of program.now)).outputs_of j.now
        (tree_of ins.now) (value (terms_in outs))) }
    ensures same { program_in engine.new ≡ program_in engine.old }
{
    match engine.judge(j, ins) {
        Ok(outs) => Ok(outs),
        Err(fault) => Err(only_memory(fault)),
    }
}

// What a premise leads to on the way to c: its goals are that its judgement has outputs for what
// its inputs make, and that its pattern matches these.
fn by_premise<M: Matcher + Drop>(
    alloc: Global,
    engine: &mut Engine<M>,
    finder: &mut M,
    program: &Program,
    language: &CheckedLang,
    l: &Name,
    avoids: &Avoided,
    premise: &Premise,
    b: &Binding,
    c: &Binding,
) -> Result<Passed, NoMemory>
    requires program { (program_in engine.old).now ≡ program.now }
    requires spoken { language_named (program_of program.now) l.now
        ≡ Some (language_in language.now) }
    requires rules { HasKnownRules (program_of program.now) }
    requires known { IsKnownExtra (language_in language.now) (holds (premise_of premise.now)) }
    requires map { HasAscendingNames (binding_of c.now) }
    requires way { WayOn (program_of program.now) (language_in language.now)
        (avoided_of avoids.now)
        (holds (premise_of premise.now)) (binding_of b.now) (IsWithin (binding_of c.now)) }
    ensures passed { IfOk result (λ r. IsPassed (program_of program.now) l.now
        (avoided_of avoids.now) (holds (premise_of premise.now)) (binding_of c.now)
        (binding_of b.now) (map goal_of r.goals.items) (binding_of r.binding)) }
    ensures same { program_in engine.new ≡ program_in engine.old }
{
    let Some(ins) = made_list(alloc, engine, program, &premise.ins, b)? else {
        unreachable!()
    };
    let outs = answered(engine, program, &premise.judgement, &ins)?;
    let Some(there) = first_taken(alloc, language, finder, l, &premise.outs, &outs, c)? else {
        unreachable!()
    };
    let outputs = there.outputs;
    let seen = there.seen;
    let Some(binding) = join(alloc, b, &seen.binding)? else {
        unreachable!()
    };
    let first = Goal::Judge(premise.judgement.share()?, ins, outputs);
    passed_two(alloc, binding, first, seen.goal)
}

// What a fresh name leads to, where what it binds can be joined: it has no goal.
fn by_fresh(alloc: Global, avoids: &Avoided, name: &Name, b: &Binding) -> Result<Passed, NoMemory>
    requires { ((d : model.Binding) → IsJoin (binding_of b.now)
        (freshly (avoided_of avoids.now) (binding_of b.now) name.now) d → ⊥) → ⊥ }
    ensures { IfOk result (λ r. (map goal_of r.goals.items ≡ []) × IsJoin (binding_of b.now)
        (freshly (avoided_of avoids.now) (binding_of b.now) name.now) (binding_of r.binding)) }
{
    let fresh = fresh_binding(alloc, avoids, b, name)?;
    let Some(binding) = join(alloc, b, &fresh)? else {
        unreachable!()
    };
    let goals = Vec::new(alloc);
    Ok(Passed { binding, goals })
}

// What an extra leads to on the way to c, with the goals that it asks for.
fn along<M: Matcher + Drop>(
    alloc: Global,
    engine: &mut Engine<M>,
    finder: &mut M,
    program: &Program,
    language: &CheckedLang,
    l: &Name,
    avoids: &Avoided,
    extra: &Extra,
    b: &Binding,
    c: &Binding,
) -> Result<Passed, NoMemory>
    requires program { (program_in engine.old).now ≡ program.now }
    requires spoken { language_named (program_of program.now) l.now
        ≡ Some (language_in language.now) }
    requires rules { HasKnownRules (program_of program.now) }
    requires known { IsKnownExtra (language_in language.now) (extra_of extra.now) }
    requires map { HasAscendingNames (binding_of c.now) }
    requires way { WayOn (program_of program.now) (language_in language.now)
        (avoided_of avoids.now) (extra_of extra.now) (binding_of b.now)
        (IsWithin (binding_of c.now)) }
    ensures passed { IfOk result (λ r. IsPassed (program_of program.now) l.now
        (avoided_of avoids.now) (extra_of extra.now) (binding_of c.now) (binding_of b.now)
        (map goal_of r.goals.items) (binding_of r.binding)) }
    ensures same { program_in engine.new ≡ program_in engine.old }
{
    match extra {
        Extra::Where(pat, template) => by_where(
            alloc, engine, finder, program, language, l, avoids, pat, template, b, c,
        ),
        Extra::Side(_) => passed_none(alloc, b),
        Extra::Holds(premise) => by_premise(
            alloc, engine, finder, program, language, l, avoids, premise, b, c,
        ),
        Extra::Fresh(name) => by_fresh(alloc, avoids, name, b),
    }
}

// Puts goals behind the others.
fn more_goals(under: &mut Vec<Goal>, goals: Vec<Goal>) -> Result<(), NoMemory>
    ensures { OnOk result (map goal_of under.new.items
        ≡ map goal_of under.old.items ++ map goal_of goals.items) }
{
    let mut goals = goals;
    under.append(&mut goals)?;
    Ok(())
}

// The goals of the extras, which lead from b to c. Fresh names avoid the symbols of the whole
// term.
fn extras_goals<'x, M: Matcher + Drop>(
    alloc: Global,
    engine: &mut Engine<M>,
    finder: &mut M,
    program: &Program,
    language: &CheckedLang,
    l: &Name,
    whole: &'x Term,
    extras: &'x [Extra],
    start: Binding,
    c: &Binding,
) -> Result<Vec<Goal>, NoMemory>
    requires program { (program_in engine.old).now ≡ program.now }
    requires spoken { language_named (program_of program.now) l.now
        ≡ Some (language_in language.now) }
    requires rules { HasKnownRules (program_of program.now) }
    requires known { (e : _) → In e (extras_of extras.now)
        → IsKnownExtra (language_in language.now) e }
    requires map { HasAscendingNames (binding_of c.now) }
    requires ways { Ways (program_of program.now) (language_in language.now)
        (avoiding (tree_of whole.now)) (extras_of extras.now) (binding_of c.now)
        (binding_of start) }
    ensures goals { IfOk result (λ r. AreGoals (program_of program.now) l.now
        (avoiding (tree_of whole.now)) (extras_of extras.now) (binding_of c.now) (binding_of start)
        (map goal_of r.items)) }
    ensures same { program_in engine.new ≡ program_in engine.old }
{
    let mut avoids = avoiding_all(alloc, whole);
    let mut under = Vec::new(alloc);
    let mut b = start;
    for extra in extras {
        let passed = along(
            alloc, engine, finder, program, language, l, &avoids, extra, &b, c,
        )?;
        more_goals(&mut under, passed.goals)?;
        b = passed.binding;
        pass(&mut avoids, extra)?;
    }
    Ok(under)
}

// The goals under a use of the rule that ends with the binding c.
fn rule_goals<'x, M: Matcher + Drop>(
    alloc: Global,
    engine: &mut Engine<M>,
    finder: &mut M,
    program: &Program,
    language: &CheckedLang,
    l: &Name,
    rule: &'x JRule,
    a: &'x Term,
    c: &Binding,
) -> Result<Vec<Goal>, NoMemory>
    requires program { (program_in engine.old).now ≡ program.now }
    requires spoken { language_named (program_of program.now) l.now
        ≡ Some (language_in language.now) }
    requires rules { HasKnownRules (program_of program.now) }
    requires known { IsKnownRule (language_in language.now) (judgement_rule_of rule.now) }
    requires way { RuleWay (program_of program.now) (language_in language.now)
        (judgement_rule_of rule.now) (tree_of a.now) (binding_of c.now) }
    ensures goals { IfOk result (λ r. AreRuleGoals (program_of program.now) l.now
        (judgement_rule_of rule.now) (tree_of a.now) (binding_of c.now) (map goal_of r.items)) }
    ensures same { program_in engine.new ≡ program_in engine.old }
{
    let first = known_goal(alloc, language, finder, l, &rule.ins, a, c)?;
    let left = extras_goals(
        alloc,
        engine,
        finder,
        program,
        language,
        l,
        a,
        &rule.extras,
        first.binding,
        c,
    )?;
    let mut under = Vec::new(alloc);
    under.push(first.goal)?;
    more_goals(&mut under, left)?;
    Ok(under)
}

// Whether the outputs are what these templates make of the binding.
fn is_made<M: Matcher + Drop>(
    alloc: Global,
    engine: &mut Engine<M>,
    program: &Program,
    outs: &[Template],
    c: &Binding,
    o: &Term,
) -> Result<bool, NoMemory>
    requires program { (program_in engine.old).now ≡ program.now }
    ensures made { IfOk result (λ r. IsTrue r ↔ MakeList (calls (program_of program.now))
        (binding_of c.now) (map template_of outs.now) (value (tree_of o.now))) }
    ensures same { program_in engine.new ≡ program_in engine.old }
{
    match made_list(alloc, engine, program, outs, c)? {
        Some(made) => Ok(made.same(o)),
        None => Ok(false),
    }
}

// Whether the outputs beside the end are these.
fn has_outputs(end: &End, o: &Term) -> bool
    ensures { IsSame end.now.outputs (tree_of o.now) → IsTrue result }
{
    match &end.outputs {
        Some(made) => made.same(o),
        None => false,
    }
}

// Whether the outputs are made of the end.
fn is_made_of<M: Matcher + Drop>(
    alloc: Global,
    engine: &mut Engine<M>,
    program: &Program,
    outs: &[Template],
    end: &End,
    o: &Term,
) -> Result<bool, NoMemory>
    requires program { (program_in engine.old).now ≡ program.now }
    requires only { HasOnly (program_of program.now) (map template_of outs.now) end.now }
    ensures made { IfOk result (λ r. IsTrue r ↔ MakeList (calls (program_of program.now))
        (bound end.now) (map template_of outs.now) (value (tree_of o.now))) }
    ensures same { program_in engine.new ≡ program_in engine.old }
{
    if !has_outputs(end, o) {
        return Ok(false);
    }
    is_made(alloc, engine, program, outs, &end.binding, o)
}

// The first binding of these ends of which the outputs are made.
fn making_binding<M: Matcher + Drop>(
    alloc: Global,
    engine: &mut Engine<M>,
    program: &Program,
    ends: &[End],
    outs: &[Template],
    o: &Term,
) -> Result<Option<Binding>, NoMemory>
    requires program { (program_in engine.old).now ≡ program.now }
    requires only { (e : CodeEnd) → In e ends.now
        → HasOnly (program_of program.now) (map template_of outs.now) e }
    ensures some { IfOk result (λ r. IfSome r (λ c. In (binding_of c) (map bound ends.now)
        × MakeList (calls (program_of program.now)) (binding_of c) (map template_of outs.now)
        (value (tree_of o.now)))) }
    ensures none { IfOk result (λ r. IfNone r ((c : model.Binding) → In c (map bound ends.now)
        → MakeList (calls (program_of program.now)) c (map template_of outs.now)
        (value (tree_of o.now)) → ⊥)) }
    ensures same { program_in engine.new ≡ program_in engine.old }
{
    for end in ends {
        if is_made_of(alloc, engine, program, outs, end, o)? {
            return Ok(Some(end.binding.share()?));
        }
    }
    Ok(None)
}

// The end of a use of a rule with these output templates that ends with the binding.
fn end_of<M: Matcher + Drop>(
    alloc: Global,
    engine: &mut Engine<M>,
    program: &Program,
    outs: &[Template],
    c: &Binding,
) -> Result<End, NoMemory>
    requires program { (program_in engine.old).now ≡ program.now }
    ensures bound { IfOk result (λ e. bound e ≡ binding_of c.now) }
    ensures only { IfOk result (HasOnly (program_of program.now) (map template_of outs.now)) }
    ensures same { program_in engine.new ≡ program_in engine.old }
{
    let outputs = made_list(alloc, engine, program, outs, c)?;
    let binding = c.share()?;
    Ok(End { binding, outputs })
}

// Those that end with these bindings.
fn ends_by<M: Matcher + Drop>(
    alloc: Global,
    engine: &mut Engine<M>,
    program: &Program,
    outs: &[Template],
    found: &[Binding],
) -> Result<Vec<End>, NoMemory>
    requires program { (program_in engine.old).now ≡ program.now }
    ensures bound { IfOk result (λ es. map bound es.items ≡ bindings_of found.now) }
    ensures only { IfOk result (λ es. (e : CodeEnd) → In e es.items
        → HasOnly (program_of program.now) (map template_of outs.now) e) }
    ensures same { program_in engine.new ≡ program_in engine.old }
{
    let mut ends = Vec::with_capacity(alloc, found.len())?;
    for c in found {
        let end = end_of(alloc, engine, program, outs, c)?;
        ends.push(end)?;
    }
    Ok(ends)
}

// The ends of the rule for these inputs.
fn ends_of<M: Matcher + Drop>(
    alloc: Global,
    engine: &mut Engine<M>,
    program: &Program,
    language: &CheckedLang,
    l: &Name,
    rule: &JRule,
    a: &Term,
) -> Result<Vec<End>, NoMemory>
    requires program { (program_in engine.old).now ≡ program.now }
    requires spoken { language_named (program_of program.now) l.now
        ≡ Some (language_in language.now) }
    requires left { HasSurvivors (program_of program.now) (language_in language.now)
        (judgement_rule_of rule.now) (tree_of a.now) }
    ensures ends { IfOk result (λ es. AreEnds (program_of program.now) (language_in language.now)
        (judgement_rule_of rule.now) (tree_of a.now) es.items) }
    ensures same { program_in engine.new ≡ program_in engine.old }
{
    let start = engine.matches(language, &rule.ins, a)?;
    let found = match engine.extend(l, start, &rule.extras, a) {
        Ok(found) => found,
        Err(fault) => return Err(only_memory(fault)),
    };
    ends_by(alloc, engine, program, &rule.outs, &found)
}

// A binding by which the rule has these outputs for these inputs.
fn final_binding<M: Matcher + Drop>(
    alloc: Global,
    engine: &mut Engine<M>,
    ends: &mut Ends,
    program: &Program,
    language: &CheckedLang,
    l: &Name,
    j: &Name,
    place: usize,
    rule: &JRule,
    a: &Term,
    o: &Term,
) -> Result<Option<Binding>, NoMemory>
    requires program { (program_in engine.old).now ≡ program.now }
    requires ends { ends.old.program.now ≡ program.now }
    requires spoken { language_named (program_of program.now) l.now
        ≡ Some (language_in language.now) }
    requires rule { IsRuleAt (program_of program.now) j.now (language_in language.now) place
        (judgement_rule_of rule.now) }
    requires left { HasSurvivors (program_of program.now) (language_in language.now)
        (judgement_rule_of rule.now) (tree_of a.now) }
    ensures some { IfOk result (λ r. IfSome r (λ c. RuleMakes (program_of program.now)
        (language_in language.now) (judgement_rule_of rule.now) (tree_of a.now) (tree_of o.now)
        (binding_of c))) }
    ensures none { IfOk result (λ r. IfNone r (¬ RuleHas (program_of program.now)
        (language_in language.now) (judgement_rule_of rule.now) (tree_of a.now) (tree_of o.now))) }
    ensures same { program_in engine.new ≡ program_in engine.old }
    ensures kept { ends.new.program ≡ ends.old.program }
{
    let key = key_of(alloc, j, place, a)?;
    if let Some(kept) = ends.get(&key, j, place, a) {
        return making_binding(alloc, engine, program, kept, &rule.outs, o);
    }
    let found = ends_of(alloc, engine, program, language, l, rule, a)?;
    let binding = making_binding(alloc, engine, program, &found, &rule.outs, o)?;
    ends.keep(key, j, place, a, found)?;
    Ok(binding)
}

/// The place of a rule, and the binding with which a use of it ends.
#[derive(Drop)]
struct Last {
    place: usize,
    binding: Binding,
}

// The first of the rules of the judgement that has these outputs for these inputs.
fn first_rule<M: Matcher + Drop>(
    alloc: Global,
    engine: &mut Engine<M>,
    ends: &mut Ends,
    program: &Program,
    language: &CheckedLang,
    l: &Name,
    j: &Name,
    rules: &[JRule],
    a: &Term,
    o: &Term,
) -> Result<Option<Last>, NoMemory>
    requires program { (program_in engine.old).now ≡ program.now }
    requires ends { ends.old.program.now ≡ program.now }
    requires spoken { language_named (program_of program.now) l.now
        ≡ Some (language_in language.now) }
    requires rules { AreRulesOf (program_of program.now) j.now (language_in language.now)
        (map judgement_rule_of rules.now) }
    requires left { (x : _) → In x (map judgement_rule_of rules.now)
        → HasSurvivors (program_of program.now) (language_in language.now) x (tree_of a.now) }
    ensures some { IfOk result (λ r. IfSome r (λ x. (x.place < length rules.now)
        × RuleAt (program_of program.now)
        (language_in language.now) (map judgement_rule_of rules.now) (tree_of a.now)
        (tree_of o.now) x.place (binding_of x.binding))) }
    ensures none { IfOk result (λ r. IfNone r ((x : _) → In x (map judgement_rule_of rules.now)
        → RuleHas (program_of program.now) (language_in language.now) x (tree_of a.now)
        (tree_of o.now) → ⊥)) }
    ensures same { program_in engine.new ≡ program_in engine.old }
    ensures kept { ends.new.program ≡ ends.old.program }
{
    for place in 0..rules.len() {
        if let Some(binding) = final_binding(
            alloc,
            engine,
            ends,
            program,
            language,
            l,
            j,
            place,
            &rules[place],
            a,
            o,
        )? {
            return Ok(Some(Last { place, binding }));
        }
    }
    Ok(None)
}

/// A step down from a judgement; `None` exactly where it does not have these outputs for these
/// inputs.
pub(crate) fn step_judgement<M: Matcher + Drop>(
    alloc: Global,
    engine: &mut Engine<'_, M>,
    finder: &mut M,
    ends: &mut Ends,
    j: &Name,
    a: &Term,
    o: &Term,
) -> Result<Option<Step>, NoMemory>
    requires ends { ends.old.program.now ≡ engine.old.program.now }
    requires known { HasKnownRules (program_of engine.old.program.now) }
    requires outputs { HasOutputs (program_of engine.old.program.now) j.now (tree_of a.now) }
    ensures some { IfOk result (λ r. IfSome r (IsStepFrom (program_of engine.old.program.now)
        (judged j.now (tree_of a.now) (tree_of o.now)))) }
    ensures none { IfOk result (λ r. IfNone r (¬ Judged (program_of engine.old.program.now) j.now
        (tree_of a.now) (tree_of o.now))) }
    ensures same { engine.new.program ≡ engine.old.program }
    ensures kept { ends.new.program ≡ ends.old.program }
{
    let program = engine.program();
    let Some(judgement) = engine.judgement(j)? else {
        return Ok(None);
    };
    let Some(language) = engine.language(&judgement.language)? else {
        return Ok(None);
    };
    if !allows(engine, program, language, judgement, a, o)? {
        return Ok(None);
    }
    let l = &judgement.language;
    let rules = judgement.rules.as_slice();
    let Some(last) = first_rule(alloc, engine, ends, program, language, l, j, rules, a, o)? else {
        return Ok(None);
    };
    let rule = &rules[last.place];
    let under = rule_goals(
        alloc,
        engine,
        finder,
        program,
        language,
        l,
        rule,
        a,
        &last.binding,
    )?;
    let mut choice = Vec::new(alloc);
    choice.push(last.place)?;
    Ok(Some(Step { choice, under }))
}
