// A derivation of a goal: one step down at a time, with a stack of what is begun in place of a
// recursion.
ghost use Rattle.std.specs.Prelude.{◌≡◌, ◌↔◌, IfNone, IfOk, IfSome, IsTrue, map};
ghost use Rattle.rdx_term.specs.View.{tree_of};
ghost use Rattle.rdx_lang.specs.Members.{In};
ghost use Rattle.rdx_lang.specs.ProgramView.{program_of};
ghost use Rattle.rdx_deriv.specs.Derivations as goals;
ghost use Rattle.rdx_deriv.specs.Derivations.{Derivation};
ghost use Rattle.rdx_deriv.specs.DerivationView.{derivation_of, goal_of};
ghost use Rattle.rdx_why.specs.Explaining.{CanBeAsked, Explains, HasOutputs, seen};
ghost use Rattle.rdx_why.specs.Finders.{known_in};
ghost use Rattle.rdx_why.specs.Inside.Frames.{IsBegun};
ghost use Rattle.rdx_why.specs.Inside.Forms.{IsPlain};
ghost use Rattle.rdx_why.specs.Inside.Steps.{IsOnTheWay, IsStepFrom};
ghost use Rattle.rdx_deriv.specs.Judged.{Judged};
ghost use Rattle.rdx_deriv.specs.Laws.{Follows};

use crate::descending::{step_match, step_split};
use crate::finder::Finder;
use crate::inner::{match_goal, split_goal};
use crate::judging::step_judgement;
use crate::step::Step;
use rdx_bind::naming::has_differ;
use rdx_bind::visible;
use rdx_deriv::{Deriv, Goal};
use rdx_eval::Engine;
use rdx_lang::Matcher;
use rdx_opened::{Wanted, found_match, found_split};
use rdx_term::{Name, NoMemory, Term};
use std::alloc::Global;

/// A node that is begun: its goal and choice, the goals under it that are left, the last one first, and
/// the derivations of the others.
#[derive(Drop)]
struct Frame {
    goal: Goal,
    choice: Vec<usize>,
    left: Vec<Goal>,
    done: Vec<Deriv>,
}

// A step down from a goal on the way.
fn step_down<M: Matcher + Drop>(
    alloc: Global,
    engine: &mut Engine<'_, M>,
    finder: &mut Finder<'_, M>,
    goal: &Goal,
) -> Result<Step, NoMemory>
    requires way { IsOnTheWay (program_of engine.old.program.now) (goal_of goal.now) }
    requires finder { (known_in finder.old).now ≡ engine.old.program.now }
    ensures step { IfOk result (IsStepFrom (program_of engine.old.program.now) (goal_of goal.now)) }
    ensures same { engine.new.program ≡ engine.old.program }
    ensures kept { known_in finder.new ≡ known_in finder.old }
{
    match goal {
        Goal::Match(l, pat, t, b) => {
            let Some(language) = engine.language(l)? else {
                unreachable!()
            };
            step_match(alloc, language, &mut finder.matcher, l, pat, t, b)
        }
        Goal::Split(l, pat, t, context, part, b) => {
            let Some(language) = engine.language(l)? else {
                unreachable!()
            };
            step_split(
                alloc,
                language,
                &mut finder.matcher,
                l,
                pat,
                t,
                context,
                part,
                b,
            )
        }
        Goal::Judge(j, a, o) => {
            let found = step_judgement(
                alloc,
                engine,
                &mut finder.matcher,
                &mut finder.ends,
                j,
                a,
                o,
            )?;
            match found {
                Some(step) => Ok(step),
                None => unreachable!(),
            }
        }
    }
}

// A node that is begun.
fn begun<M: Matcher + Drop>(
    alloc: Global,
    engine: &mut Engine<'_, M>,
    finder: &mut Finder<'_, M>,
    goal: Goal,
) -> Result<Frame, NoMemory>
    requires way { IsOnTheWay (program_of engine.old.program.now) (goal_of goal) }
    requires finder { (known_in finder.old).now ≡ engine.old.program.now }
    ensures goal { IfOk result (λ f. goal_of f.goal ≡ goal_of goal) }
    ensures begun { IfOk result (IsBegun (program_of engine.old.program.now)) }
    ensures same { engine.new.program ≡ engine.old.program }
    ensures kept { known_in finder.new ≡ known_in finder.old }
{
    let step = step_down(alloc, engine, finder, &goal)?;
    let Step { choice, under } = step;
    let mut left = under;
    left.reverse();
    Ok(Frame {
        goal,
        choice,
        left,
        done: Vec::new(alloc),
    })
}

// Whether the term is one of these.
fn is_listed(terms: &[Term], t: &Term) -> bool
    ensures { IsTrue result ↔ In (tree_of t.now) (map tree_of terms.now) }
{
    for u in terms {
        if u.same(t) {
            return true;
        }
    }
    false
}

// Whether the judgement has these outputs for these inputs, which is what it is answered.
fn has_output<M: Matcher + Drop>(
    engine: &mut Engine<'_, M>,
    j: &Name,
    a: &Term,
    o: &Term,
) -> Result<bool, NoMemory>
    requires asked { HasOutputs (program_of engine.old.program.now) j.now (tree_of a.now) }
    ensures judged { IfOk result (λ r. IsTrue r ↔ Judged (program_of engine.old.program.now) j.now
        (tree_of a.now) (tree_of o.now)) }
    ensures same { engine.new.program ≡ engine.old.program }
{
    match engine.judge(j, a) {
        Ok(outs) => Ok(is_listed(&outs, o)),
        Err(_) => Err(NoMemory),
    }
}

// The goal with its mismatch sets, where it follows; `None` exactly where none that looks so does.
fn whole_goal<M: Matcher + Drop>(
    alloc: Global,
    engine: &mut Engine<'_, M>,
    finder: &mut M,
    goal: &Goal,
) -> Result<Option<Goal>, NoMemory>
    requires asked { CanBeAsked (program_of engine.old.program.now) (goal_of goal.now) }
    ensures some { IfOk result (λ r. IfSome r (λ g. (seen (goal_of g) ≡ seen (goal_of goal.now))
        × IsOnTheWay (program_of engine.old.program.now) (goal_of g))) }
    ensures none { IfOk result (λ r. IfNone r ((g : goals.Goal) → seen g ≡ seen (goal_of goal.now)
        → Follows (program_of engine.old.program.now) g → ⊥)) }
    ensures same { engine.new.program ≡ engine.old.program }
{
    match goal {
        Goal::Match(l, pat, t, b) => {
            let Some(language) = engine.language(l)? else {
                unreachable!()
            };
            let asked = visible(alloc, b)?;
            match found_match(alloc, language, finder, pat, t, Wanted::Seen(&asked))? {
                Some(b) => Ok(Some(match_goal(alloc, l, pat, t, b)?)),
                None => Ok(None),
            }
        }
        Goal::Split(l, pat, t, context, part, b) => {
            let Some(language) = engine.language(l)? else {
                unreachable!()
            };
            let asked = visible(alloc, b)?;
            let wanted = Wanted::Seen(&asked);
            match found_split(alloc, language, finder, pat, t, context, part, wanted)? {
                Some(b) => Ok(Some(split_goal(alloc, l, pat, t, context, part, b)?)),
                None => Ok(None),
            }
        }
        Goal::Judge(j, a, o) => {
            if has_output(engine, j, a, o)? {
                Ok(Some(Goal::Judge(j.share()?, a.share()?, o.share()?)))
            } else {
                Ok(None)
            }
        }
    }
}

// A derivation of a goal on the way to one.
fn derived<M: Matcher + Drop>(
    alloc: Global,
    engine: &mut Engine<'_, M>,
    finder: &mut Finder<'_, M>,
    goal: Goal,
) -> Result<Deriv, NoMemory>
    requires way { IsOnTheWay (program_of engine.old.program.now) (goal_of goal) }
    requires finder { (known_in finder.old).now ≡ engine.old.program.now }
    ensures derived { IfOk result (λ d. Explains (program_of engine.old.program.now)
        (goal_of goal) (derivation_of d)) }
    ensures same { engine.new.program ≡ engine.old.program }
    ensures kept { known_in finder.new ≡ known_in finder.old }
{
    let mut stack: Vec<Frame> = Vec::new(alloc);
    let mut top = begun(alloc, engine, finder, goal)?;
    // Each turn takes memory, so that no more of them come to pass.
    for _ in 0..u64::MAX {
        match top.left.pop() {
            Some(next) => {
                let frame = begun(alloc, engine, finder, next)?;
                stack.push(top)?;
                top = frame;
            }
            None => {
                let Frame {
                    goal,
                    choice,
                    left: _,
                    done,
                } = top;
                let d = Deriv {
                    goal,
                    choice,
                    under: done,
                };
                match stack.pop() {
                    Some(mut parent) => {
                        parent.done.push(d)?;
                        top = parent;
                    }
                    None => return Ok(d),
                }
            }
        }
    }
    Err(NoMemory)
}

/// A derivation of the goal, up to its mismatch names; `None` exactly where there is none.
pub fn explain<M: Matcher + Drop>(
    alloc: Global,
    engine: &mut Engine<'_, M>,
    finder: &mut Finder<'_, M>,
    goal: &Goal,
) -> Result<Option<Deriv>, NoMemory>
    requires asked { CanBeAsked (program_of engine.old.program.now) (goal_of goal.now) }
    requires finder { (known_in finder.old).now ≡ engine.old.program.now }
    ensures some { IfOk result (λ r. IfSome r (λ d. Explains (program_of engine.old.program.now)
        (goal_of goal.now) (derivation_of d))) }
    ensures none { IfOk result (λ r. IfNone r ((d : Derivation)
        → ¬ Explains (program_of engine.old.program.now) (goal_of goal.now) d)) }
    ensures same { engine.new.program ≡ engine.old.program }
    ensures kept { known_in finder.new ≡ known_in finder.old }
{
    let Some(goal) = whole_goal(alloc, engine, &mut finder.matcher, goal)? else {
        return Ok(None);
    };
    Ok(Some(derived(alloc, engine, finder, goal)?))
}

// Whether what is seen of the goal is all of it: no mismatch name stands in its pattern.
fn is_plain(goal: &Goal) -> bool
    ensures { IsTrue result → IsPlain (goal_of goal.now) }
{
    match goal {
        Goal::Match(_, pat, _, _) | Goal::Split(_, pat, _, _, _, _) => !has_differ(pat),
        Goal::Judge(_, _, _) => true,
    }
}

// What is seen of the goal.
fn seen_of(alloc: Global, goal: &Goal) -> Result<Goal, NoMemory>
    ensures { IfOk result (λ g. goal_of g ≡ seen (goal_of goal.now)) }
{
    match goal {
        Goal::Match(l, pat, t, b) => match_goal(alloc, l, pat, t, visible(alloc, b)?),
        Goal::Split(l, pat, t, context, part, b) => {
            split_goal(alloc, l, pat, t, context, part, visible(alloc, b)?)
        }
        Goal::Judge(j, a, o) => Ok(Goal::Judge(j.share()?, a.share()?, o.share()?)),
    }
}

/// A derivation of a goal that has one, up to its mismatch names.
pub fn explain_known<M: Matcher + Drop>(
    alloc: Global,
    engine: &mut Engine<'_, M>,
    finder: &mut Finder<'_, M>,
    goal: &Goal,
) -> Result<Deriv, NoMemory>
    requires asked { CanBeAsked (program_of engine.old.program.now) (goal_of goal.now) }
    requires known { (d : Derivation) × Explains (program_of engine.old.program.now)
        (goal_of goal.now) d }
    requires finder { (known_in finder.old).now ≡ engine.old.program.now }
    ensures explained { IfOk result (λ d. Explains (program_of engine.old.program.now)
        (goal_of goal.now) (derivation_of d)) }
    ensures same { engine.new.program ≡ engine.old.program }
    ensures kept { known_in finder.new ≡ known_in finder.old }
{
    if is_plain(goal) {
        let goal = seen_of(alloc, goal)?;
        return derived(alloc, engine, finder, goal);
    }
    match explain(alloc, engine, finder, goal)? {
        Some(d) => Ok(d),
        None => unreachable!(),
    }
}
