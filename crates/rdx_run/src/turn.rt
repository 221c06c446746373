// The steps of one term.
ghost use Rattle.std.specs.Prelude.{◌≡◌, IfOk, IsSome};
ghost use Rattle.rdx_term.specs.View.{tree_of};
ghost use Rattle.rdx_lang.specs.ProgramView.{program_of, relation_of};
ghost use Rattle.rdx_lang.specs.Programs.{language_named as named};
ghost use Rattle.rdx_eval.specs.Views.{program_in};
ghost use Rattle.rdx_reduce.specs.Relations.{AreSteps};
ghost use Rattle.rdx_run.specs.Inside.Turns.{IsTurn};

use rdx_eval::{Engine, EvalFault, Fault};
use rdx_lang::{Matcher, Relation};
use rdx_reduce::{Step, steps};
use rdx_term::{NoMemory, Term};
use std::alloc::Global;

/// The steps from a term, or the fault on the way.
pub(crate) fn turn<M: Matcher + Drop>(
    alloc: Global,
    engine: &mut Engine<M>,
    relation: &Relation,
    t: &Term,
) -> Result<Result<Vec<Step>, Fault>, NoMemory>
    requires { IsSome (named (program_of (program_in engine.old).now)
        (relation_of relation.now).language) }
    ensures turn { IfOk result (λ turn. IsTurn (AreSteps (program_of (program_in engine.old).now)
        (relation_of relation.now) (tree_of t.now)) turn) }
    ensures same { program_in engine.new ≡ program_in engine.old }
{
    match steps(alloc, engine, relation, t) {
        Ok(found) => Ok(Ok(found)),
        Err(EvalFault::Named(fault)) => Ok(Err(fault)),
        Err(EvalFault::NoMemory) => Err(NoMemory),
    }
}
