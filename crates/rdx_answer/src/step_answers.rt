// The answers to queries that ask for the steps of a relation.
ghost use Rattle.std.specs.Prelude.{◌≡◌, Some, IfOk, IsSome, map};
ghost use Rattle.rdx_eval.specs.Views as engines;
ghost use Rattle.rdx_eval.specs.Views.{terms_in};
ghost use Rattle.rdx_lang.specs.ProgramView.{program_of, relation_of};
ghost use Rattle.rdx_lang.specs.Programs.{relation_named as named};
ghost use Rattle.rdx_answer.specs.Inside.Appending.{Tries};
ghost use Rattle.rdx_answer.specs.Queries.{KnowsRelation};
ghost use Rattle.rdx_answer.specs.StepAnswers.{AreReducts, IsReductsAnswer, IsTaggedAnswer};
ghost use Rattle.rdx_reduce.specs.StepView.{steps_in};
ghost use Rattle.rdx_term.specs.View.{tree_of};

use crate::texts::{write_reducts, write_steps};
use rdx_eval::{Engine, EvalFault};
use rdx_lang::Relation;
use rdx_reduce::{Step, steps};
use rdx_table::Table;
use rdx_term::{Name, NoMemory, Term};
use std::alloc::Global;
use std::collections::BTreeSet;

/// The relation of this name.
pub(crate) fn relation<'a>(
    engine: &mut Engine<'a, Table>,
    name: &Name,
) -> Result<&'a Relation, NoMemory>
    requires { IsSome (named (program_of (engines.program_in engine.old).now) name.now) }
    ensures found { IfOk result (λ r. named (program_of (engines.program_in engine.old).now) name.now
        ≡ Some (relation_of r.now)) }
    ensures same { engines.program_in engine.new ≡ engines.program_in engine.old }
{
    match engine.relation(name)? {
        Some(relation) => Ok(relation),
        None => unreachable!(),
    }
}

/// The members of a set, ascending.
pub(crate) fn terms_of(alloc: Global, set: BTreeSet<Term>) -> Result<Vec<Term>, NoMemory>
    ensures { IfOk result (λ keys. keys.items ≡ set.keys) }
{
    let keys = set.into_iter().collect(alloc)?;
    Ok(keys)
}

// The terms to which the steps lead, ascending and each once.
fn reducts_of(alloc: Global, found: Vec<Step>) -> Result<Vec<Term>, NoMemory>
    ensures { IfOk result (λ terms. AreReducts (steps_in found) (terms_in terms)) }
{
    let mut rest = found;
    let mut set = BTreeSet::new(alloc);
    while let Some(step) = rest.pop() {
        set.insert(step.reduct)?;
    }
    terms_of(alloc, set)
}

/// Appends the terms to which the relation of this name leads from this term, or gives the fault on
/// the way.
pub(crate) fn answer_reducts(
    alloc: Global,
    engine: &mut Engine<Table>,
    name: &Name,
    t: &Term,
    out: &mut Vec<u8>,
) -> Result<bool, EvalFault>
    requires { KnowsRelation (program_of (engines.program_in engine.old).now) name.now }
    ensures answer { Tries
        (IsReductsAnswer (program_of (engines.program_in engine.old).now) name.now (tree_of t.now))
        out.old.items out.new.items result }
    ensures same { engines.program_in engine.new ≡ engines.program_in engine.old }
{
    let relation = relation(engine, name)?;
    let found = steps(alloc, engine, relation, t)?;
    let reducts = reducts_of(alloc, found)?;
    write_reducts(&reducts, out)?;
    Ok(true)
}

/// Appends the steps of the relation of this name from this term, each with the name of its rule, or
/// gives the fault on the way.
pub(crate) fn answer_steps(
    alloc: Global,
    engine: &mut Engine<Table>,
    name: &Name,
    t: &Term,
    out: &mut Vec<u8>,
) -> Result<bool, EvalFault>
    requires { KnowsRelation (program_of (engines.program_in engine.old).now) name.now }
    ensures answer { Tries
        (IsTaggedAnswer (program_of (engines.program_in engine.old).now) name.now (tree_of t.now))
        out.old.items out.new.items result }
    ensures same { engines.program_in engine.new ≡ engines.program_in engine.old }
{
    let relation = relation(engine, name)?;
    let found = steps(alloc, engine, relation, t)?;
    write_steps(&relation.rules, &found, out)?;
    Ok(true)
}
