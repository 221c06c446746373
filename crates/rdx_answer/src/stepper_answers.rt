// The answer to a query that steps through the reductions of a term.
ghost use Rattle.std.specs.Prelude.{◌≡◌, IfOk};
ghost use Rattle.rdx_eval.specs.Views as engines;
ghost use Rattle.rdx_lang.specs.ProgramView.{program_of};
ghost use Rattle.rdx_answer.specs.Inside.Appending.{Appends};
ghost use Rattle.rdx_answer.specs.Queries.{KnowsRelation};
ghost use Rattle.rdx_answer.specs.StepperAnswers.{IsStepperAnswer};
ghost use Rattle.rdx_term.specs.View.{tree_of};

use crate::step_answers::relation;
use crate::walk_texts::write_walk;
use rdx_eval::Engine;
use rdx_run::follow;
use rdx_table::Table;
use rdx_term::{Name, NoMemory, Term};
use std::alloc::Global;

/// Appends the walk of the relation of this name from this term by these choices, and says whether
/// all of them were taken.
pub(crate) fn answer_stepper(
    alloc: Global,
    engine: &mut Engine<Table>,
    name: &Name,
    choices: &[u64],
    t: &Term,
    out: &mut Vec<u8>,
) -> Result<bool, NoMemory>
    requires { KnowsRelation (program_of (engines.program_in engine.old).now) name.now }
    ensures answer { IfOk result (λ met. Appends
        (IsStepperAnswer (program_of (engines.program_in engine.old).now) name.now choices.now
        (tree_of t.now)) out.old.items out.new.items met) }
    ensures same { engines.program_in engine.new ≡ engines.program_in engine.old }
{
    let relation = relation(engine, name)?;
    let walk = follow(alloc, engine, relation, t, choices)?;
    write_walk(&relation.rules, &walk, out)
}
