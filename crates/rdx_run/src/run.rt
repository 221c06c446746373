// Runs without choices.
ghost use Rattle.std.specs.Prelude.{◌≡◌, IfOk, IsSome, map};
ghost use Rattle.rdx_term.specs.View.{tree_of};
ghost use Rattle.rdx_lang.specs.ProgramView.{program_of, relation_of};
ghost use Rattle.rdx_lang.specs.Programs.{language_named as named};
ghost use Rattle.rdx_eval.specs.Views.{program_in};
ghost use Rattle.rdx_reduce.specs.Relations.{AreSteps};
ghost use Rattle.rdx_reduce.specs.StepView.{step_of};
ghost use Rattle.rdx_run.specs.Inside.Turns.{LeadTo, SaysLead};
ghost use Rattle.rdx_run.specs.Runs as model;
ghost use Rattle.rdx_run.specs.Views.{SaysEnd};

use crate::turn::turn;
use rdx_eval::{Engine, Fault};
use rdx_lang::{Matcher, Relation};
use rdx_reduce::Step;
use rdx_term::{NoMemory, Term};
use std::alloc::Global;

/// How many steps a run may take.
const MOST_STEPS: u32 = 10_000;

/// Why a run ends in no term.
#[derive(Drop)]
pub enum RunFault {
    /// The steps from a term that was reached have this fault.
    Named(Fault),
    /// This term was reached, which has two different reducts.
    Branches(Term),
    /// 10,000 steps were taken, and there is a reduct still.
    RunBound,
    /// Memory ran out.
    NoMemory,
}

/// What steps lead to.
#[derive(Drop)]
pub(crate) enum Lead {
    /// Nothing: there is none.
    Rests,
    /// Different terms.
    Parts,
    /// This term.
    GoesTo(Term),
}

impl From<NoMemory> for RunFault {
    ghost use Rattle.std.specs.Prelude.{◌≡◌};
    ghost use Rattle.rdx_run.specs.declared.run.RunFault.TheVariants.{NoMemory as nothing};

    ghost from_gives = { λ _ error. error ≡ nothing };

    fn from(_error: NoMemory) -> RunFault {
        RunFault::NoMemory
    }
}

// What steps lead to.
fn lead_of(steps: &[Step]) -> Result<Lead, NoMemory>
    ensures { IfOk result (λ lead. LeadTo (map step_of steps.now) lead) }
{
    let [first, ..] = steps else {
        return Ok(Lead::Rests);
    };
    for step in steps {
        if !step.reduct.same(&first.reduct) {
            return Ok(Lead::Parts);
        }
    }
    Ok(Lead::GoesTo(first.reduct.share()?))
}

// What the steps from a term lead to.
fn lead_from<M: Matcher + Drop>(
    alloc: Global,
    engine: &mut Engine<M>,
    relation: &Relation,
    t: &Term,
) -> Result<Lead, RunFault>
    requires { IsSome (named (program_of (program_in engine.old).now)
        (relation_of relation.now).language) }
    ensures lead { SaysLead (AreSteps (program_of (program_in engine.old).now)
        (relation_of relation.now) (tree_of t.now)) result }
    ensures same { program_in engine.new ≡ program_in engine.old }
{
    match turn(alloc, engine, relation, t)? {
        Ok(found) => Ok(lead_of(&found)?),
        Err(fault) => Err(RunFault::Named(fault)),
    }
}

/// The term in which the run from this one ends, which takes the one reduct that there is again and
/// again until there is none. The relation's language has to be one of the program's. It keeps no
/// more than the term at hand.
pub fn run_down<M: Matcher + Drop>(
    alloc: Global,
    engine: &mut Engine<M>,
    relation: &Relation,
    t: &Term,
) -> Result<Term, RunFault>
    requires { IsSome (named (program_of (program_in engine.old).now)
        (relation_of relation.now).language) }
    ensures end { SaysEnd (model.Runs (AreSteps (program_of (program_in engine.old).now)
        (relation_of relation.now)) model.most_steps (tree_of t.now)) result }
    ensures same { program_in engine.new ≡ program_in engine.old }
{
    let mut term = t.share()?;
    for _ in 0..MOST_STEPS {
        match lead_from(alloc, engine, relation, &term)? {
            Lead::Rests => return Ok(term),
            Lead::Parts => return Err(RunFault::Branches(term)),
            Lead::GoesTo(next) => term = next,
        }
    }
    match lead_from(alloc, engine, relation, &term)? {
        Lead::Rests => Ok(term),
        Lead::Parts => Err(RunFault::Branches(term)),
        Lead::GoesTo(_) => Err(RunFault::RunBound),
    }
}
