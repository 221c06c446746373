// Extras of a rule, one after the other over the goals that are left under a node.
ghost use Rattle.std.specs.Prelude.{◌≡◌, ◌↔◌, ◌∷◌, IfNone, IfOk, IfSome, map};
ghost use Rattle.rdx_term.specs.Tree.{Tree};
ghost use Rattle.rdx_term.specs.View.{tree_of};
ghost use Rattle.rdx_lang.specs.Bindings.{visible as seen_of};
ghost use Rattle.rdx_lang.specs.Checked.{pattern_in};
ghost use Rattle.rdx_lang.specs.Join.{IsJoin};
ghost use Rattle.rdx_lang.specs.ProgramView.{extra_of, extras_of, premise_of, program_of};
ghost use Rattle.rdx_lang.specs.Shown.{binding_of};
ghost use Rattle.rdx_lang.specs.TemplateView.{template_of, host_of};
ghost use Rattle.rdx_eval.specs.Answers.{value};
ghost use Rattle.rdx_eval.specs.Fresh.{avoiding};
ghost use Rattle.rdx_eval.specs.Instantiation.{MakeList, Makes};
ghost use Rattle.rdx_eval.specs.Views.{program_in};
ghost use Rattle.rdx_deriv.specs.Derivations.{judged, matched};
ghost use Rattle.rdx_deriv.specs.DerivationView.{goal_of, goals_of};
ghost use Rattle.rdx_deriv.specs.Judged.{calls};
ghost use Rattle.rdx_deriv.specs.JudgementUses.{ConditionUse, ExtraUses, FreshUse, PremiseUse, WhereUse};
ghost use Rattle.rdx_deriv.specs.Avoiding.{avoided_of};
ghost use Rattle.rdx_deriv.specs.Inside.Extending.{stand_of, Ends, LeadsOn, LeadsTo};
ghost use Rattle.rdx_deriv.specs.Finding.{Finds};

use crate::fresh::{avoiding_all, fresh_binding, pass};
use crate::making::{is_met, made, made_list};
use crate::progress::{Avoided, FirstJudged, FirstMatch, Standing};
use crate::reading::match_goal;
use crate::{Deriv, Goal};
use rdx_bind::{join_into, visible};
use rdx_eval::Engine;
use rdx_lang::{Binding, CheckedPat, Extra, HostExpr, Matcher, Premise, Program, Template};
use rdx_term::{Name, NoMemory, Term};
use std::alloc::Global;

/// The first goal, where it says that the pattern matches the term.
pub(crate) fn first_match<'a>(
    under: &'a [Deriv],
    l: &Name,
    pat: &CheckedPat,
    t: &Term,
) -> Option<FirstMatch<'a>>
    ensures some { IfSome result (λ r. goals_of under.now
        ≡ matched l.now (pattern_in pat.now) (tree_of t.now) (binding_of r.binding.now)
        ∷ goals_of r.behind.now) }
    ensures none { IfNone result ((c : _) (gs : _) → goals_of under.now
        ≡ matched l.now (pattern_in pat.now) (tree_of t.now) c ∷ gs → ⊥) }
{
    let Some((first, behind)) = under.split_first() else {
        return None;
    };
    match match_goal(first.goal(), l, pat.pat(), t) {
        Some(binding) => Some(FirstMatch { binding, behind }),
        None => None,
    }
}

// The outputs that the goal says of the judgement for these inputs.
fn judge_goal<'a>(goal: &'a Goal, j: &Name, ins: &Term) -> Option<&'a Term>
    ensures some { IfSome result (λ o. goal_of goal.now
        ≡ judged j.now (tree_of ins.now) (tree_of o.now)) }
    ensures none { IfNone result ((o : _) →
        goal_of goal.now ≡ judged j.now (tree_of ins.now) o → ⊥) }
{
    match goal {
        Goal::Judge(name, inputs, outputs) => {
            if name.text() == j.text() && inputs.same(ins) {
                Some(outputs)
            } else {
                None
            }
        }
        Goal::Match(_, _, _, _) | Goal::Split(_, _, _, _, _, _) => None,
    }
}

// The first goal, where it says that the judgement has outputs for these inputs.
fn first_judged<'a>(under: &'a [Deriv], j: &Name, ins: &Term) -> Option<FirstJudged<'a>>
    ensures some { IfSome result (λ r. goals_of under.now
        ≡ judged j.now (tree_of ins.now) (tree_of r.outputs.now) ∷ goals_of r.behind.now) }
    ensures none { IfNone result ((o : _) (gs : _) → goals_of under.now
        ≡ judged j.now (tree_of ins.now) o ∷ gs → ⊥) }
{
    let Some((first, behind)) = under.split_first() else {
        return None;
    };
    match judge_goal(first.goal(), j, ins) {
        Some(outputs) => Some(FirstJudged { outputs, behind }),
        None => None,
    }
}

// The join of two bindings, where they have one.
fn joined(alloc: Global, b: Binding, other: &Binding) -> Result<Option<Binding>, NoMemory>
    ensures { IfOk result (λ r. Finds binding_of (λ c.
        IsJoin (binding_of b) (binding_of other.now) c) r) }
{
    join_into(alloc, b, other)
}

// The join of a binding with what is seen of another, where there is one.
fn joined_visibly(alloc: Global, b: Binding, found: &Binding) -> Result<Option<Binding>, NoMemory>
    ensures { IfOk result (λ r. Finds binding_of (λ c.
        IsJoin (binding_of b) (seen_of (binding_of found.now)) c) r) }
{
    let seen = visible(alloc, found)?;
    joined(alloc, b, &seen)
}

// Where a `where` leads to, where its template makes this term.
fn where_leads<'a>(
    alloc: Global,
    program: &Program,
    l: &Name,
    pat: &CheckedPat,
    template: &Template,
    t: &Term,
    at: Standing<'a>,
) -> Result<Option<Standing<'a>>, NoMemory>
    requires { (y : Tree) → (Makes (calls (program_of program.now)) (binding_of at.binding)
        (template_of template.now) (value y) ↔ (y ≡ tree_of t.now)) }
    ensures { IfOk result (λ r. Finds stand_of (λ y.
        WhereUse (program_of program.now) l.now (pattern_in pat.now)
        (template_of template.now) (binding_of at.entry.binding) (goals_of at.entry.under.now)
        (Ends y)) r) }
{
    let Some(first) = first_match(at.under, l, pat, t) else {
        return Ok(None);
    };
    let Some(binding) = joined_visibly(alloc, at.binding, first.binding)? else {
        return Ok(None);
    };
    Ok(Some(Standing {
        binding,
        under: first.behind,
    }))
}

// Where a `where` leads to: the first goal is that its pattern matches what its template makes.
fn by_where<'a, M: Matcher + Drop>(
    alloc: Global,
    engine: &mut Engine<M>,
    program: &Program,
    l: &Name,
    pat: &CheckedPat,
    template: &Template,
    at: Standing<'a>,
) -> Result<Option<Standing<'a>>, NoMemory>
    requires { (program_in engine.old).now ≡ program.now }
    ensures leads { IfOk result (λ r. Finds stand_of (λ y.
        WhereUse (program_of program.now) l.now (pattern_in pat.now)
        (template_of template.now) (binding_of at.entry.binding) (goals_of at.entry.under.now)
        (Ends y)) r) }
    ensures same { program_in engine.new ≡ program_in engine.old }
{
    let Some(t) = made(engine, program, template, &at.binding)? else {
        return Ok(None);
    };
    where_leads(alloc, program, l, pat, template, &t, at)
}

// Where a side condition leads to: nowhere, or it stays.
fn by_condition<'a, M: Matcher + Drop>(
    engine: &mut Engine<M>,
    program: &Program,
    h: &HostExpr,
    at: Standing<'a>,
) -> Result<Option<Standing<'a>>, NoMemory>
    requires { (program_in engine.old).now ≡ program.now }
    ensures leads { IfOk result (λ r. Finds stand_of (λ y.
        ConditionUse (program_of program.now) (host_of h.now)
        (binding_of at.entry.binding) (goals_of at.entry.under.now) (Ends y)) r) }
    ensures same { program_in engine.new ≡ program_in engine.old }
{
    if is_met(engine, program, h, &at.binding)? {
        Ok(Some(at))
    } else {
        Ok(None)
    }
}

// Where a premise leads to, where its inputs make this term.
fn premise_leads<'a>(
    alloc: Global,
    program: &Program,
    l: &Name,
    premise: &Premise,
    ins: &Term,
    at: Standing<'a>,
) -> Result<Option<Standing<'a>>, NoMemory>
    requires { (y : Tree) → (MakeList (calls (program_of program.now)) (binding_of at.binding)
        (premise_of premise.now).inputs (value y) ↔ (y ≡ tree_of ins.now)) }
    ensures { IfOk result (λ r. Finds stand_of (λ y.
        PremiseUse (program_of program.now) l.now (premise_of premise.now)
        (binding_of at.entry.binding) (goals_of at.entry.under.now) (Ends y)) r) }
{
    let Some(first) = first_judged(at.under, &premise.judgement, ins) else {
        return Ok(None);
    };
    let Some(second) = first_match(first.behind, l, &premise.outs, first.outputs) else {
        return Ok(None);
    };
    let Some(binding) = joined_visibly(alloc, at.binding, second.binding)? else {
        return Ok(None);
    };
    Ok(Some(Standing {
        binding,
        under: second.behind,
    }))
}

// Where a premise leads to: the first goal is that its judgement has outputs for what its inputs make,
// and the second that its pattern matches these.
fn by_premise<'a, M: Matcher + Drop>(
    alloc: Global,
    engine: &mut Engine<M>,
    program: &Program,
    l: &Name,
    premise: &Premise,
    at: Standing<'a>,
) -> Result<Option<Standing<'a>>, NoMemory>
    requires { (program_in engine.old).now ≡ program.now }
    ensures leads { IfOk result (λ r. Finds stand_of (λ y.
        PremiseUse (program_of program.now) l.now (premise_of premise.now)
        (binding_of at.entry.binding) (goals_of at.entry.under.now) (Ends y)) r) }
    ensures same { program_in engine.new ≡ program_in engine.old }
{
    let Some(ins) = made_list(alloc, engine, program, &premise.ins, &at.binding)? else {
        return Ok(None);
    };
    premise_leads(alloc, program, l, premise, &ins, at)
}

// Where a fresh name leads to.
fn by_fresh<'a>(
    alloc: Global,
    avoids: &Avoided,
    name: &Name,
    at: Standing<'a>,
) -> Result<Option<Standing<'a>>, NoMemory>
    ensures leads { IfOk result (λ r. Finds stand_of (λ y. FreshUse (avoided_of avoids.now) name.now
        (binding_of at.entry.binding) (goals_of at.entry.under.now) (Ends y)) r) }
{
    let fresh = fresh_binding(alloc, avoids, &at.binding, name)?;
    let Some(binding) = joined(alloc, at.binding, &fresh)? else {
        return Ok(None);
    };
    Ok(Some(Standing {
        binding,
        under: at.under,
    }))
}

// Where an extra leads to.
fn next<'a, M: Matcher + Drop>(
    alloc: Global,
    engine: &mut Engine<M>,
    program: &Program,
    l: &Name,
    avoids: &Avoided,
    extra: &Extra,
    at: Standing<'a>,
) -> Result<Option<Standing<'a>>, NoMemory>
    requires { (program_in engine.old).now ≡ program.now }
    ensures leads { IfOk result (λ r. Finds stand_of
        (LeadsOn (program_of program.now) l.now (avoided_of avoids.now)
        (extra_of extra.now) (stand_of at.entry)) r) }
    ensures same { program_in engine.new ≡ program_in engine.old }
{
    match extra {
        Extra::Where(pat, template) => by_where(alloc, engine, program, l, pat, template, at),
        Extra::Side(h) => by_condition(engine, program, h, at),
        Extra::Holds(premise) => by_premise(alloc, engine, program, l, premise, at),
        Extra::Fresh(name) => by_fresh(alloc, avoids, name, at),
    }
}

/// What is bound behind the extras, where each goes on from the one before it and no goal is left at
/// the end. Fresh names avoid the symbols of the whole term.
pub(crate) fn behind_extras<'a, 'x, M: Matcher + Drop>(
    alloc: Global,
    engine: &mut Engine<M>,
    program: &Program,
    l: &Name,
    whole: &'x Term,
    extras: &'x [Extra],
    start: Standing<'a>,
) -> Result<Option<Binding>, NoMemory>
    requires { (program_in engine.old).now ≡ program.now }
    ensures leads { IfOk result (λ r. Finds binding_of
        (LeadsTo (program_of program.now) l.now (avoiding (tree_of whole.now))
        (extras_of extras.now) (stand_of start.entry)) r) }
    ensures same { program_in engine.new ≡ program_in engine.old }
{
    let mut avoids = avoiding_all(alloc, whole);
    let mut at = start;
    for extra in extras {
        let Some(more) = next(alloc, engine, program, l, &avoids, extra, at)? else {
            return Ok(None);
        };
        at = more;
        pass(&mut avoids, extra)?;
    }
    if at.under.is_empty() {
        Ok(Some(at.binding))
    } else {
        Ok(None)
    }
}
