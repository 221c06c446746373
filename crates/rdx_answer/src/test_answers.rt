// The answers to tests of relations.
ghost use Rattle.std.specs.Prelude.{◌≡◌, ◌∷◌, [], IfOk, map};
ghost use Rattle.rdx_eval.specs.Views as engines;
ghost use Rattle.rdx_eval.specs.Views.{Says, terms_in};
ghost use Rattle.rdx_lang.specs.ProgramView.{program_of};
ghost use Rattle.rdx_lang.specs.TemplateView.{host_of};
ghost use Rattle.rdx_answer.specs.Answering.{HostValues, OverEach};
ghost use Rattle.rdx_answer.specs.Inside.Appending.{Appends, Tries};
ghost use Rattle.rdx_answer.specs.Queries.{KnowsRelation};
ghost use Rattle.rdx_answer.specs.StepAnswers.{reducts_in};
ghost use Rattle.rdx_answer.specs.TestAnswers.{IsRunTestAnswer, IsStepTestAnswer};
ghost use Rattle.rdx_answer.specs.Tests.{Compares};
ghost use Rattle.rdx_reduce.specs.StepView.{step_of};
ghost use Rattle.rdx_term.specs.View.{tree_of};

use crate::comparing::write_comparison;
use crate::step_answers::relation;
use crate::walk_texts::{write_bound, write_branches};
use rdx_eval::{Engine, EvalFault};
use rdx_lang::{Binding, HostExpr};
use rdx_reduce::{Step, steps};
use rdx_run::{RunFault, run_down};
use rdx_table::Table;
use rdx_term::{Name, NoMemory, Term};
use std::alloc::Global;

// What these host expressions make, in their order, or the first fault. They are those of a test of
// the relation of this name.
fn wanted_terms(
    alloc: Global,
    engine: &mut Engine<Table>,
    name: &Name,
    hosts: &[HostExpr],
) -> Result<Vec<Term>, EvalFault>
    requires { KnowsRelation (program_of (engines.program_in engine.old).now) name.now }
    ensures answer { Says terms_in
        (HostValues (program_of (engines.program_in engine.old).now) (map host_of hosts.now))
        result }
    ensures same { engines.program_in engine.new ≡ engines.program_in engine.old }
{
    let mut terms = Vec::new(alloc);
    for host in hosts {
        let term = engine.host(host, &Binding::new(Vec::new(alloc)))?;
        terms.push(term)?;
    }
    Ok(terms)
}

// The terms to which steps lead, step by step.
fn reducts(alloc: Global, found: &[Step]) -> Result<Vec<Term>, NoMemory>
    ensures { IfOk result (λ terms. terms_in terms ≡ reducts_in (map step_of found.now)) }
{
    let mut terms = Vec::new(alloc);
    for step in found {
        terms.push(step.reduct.share()?)?;
    }
    Ok(terms)
}

// Appends whether the relation of this name leads from this term to these in one step, or gives the
// fault on the way.
fn compare_steps(
    alloc: Global,
    engine: &mut Engine<Table>,
    name: &Name,
    t: &Term,
    wanted: &[Term],
    out: &mut Vec<u8>,
) -> Result<bool, EvalFault>
    requires { KnowsRelation (program_of (engines.program_in engine.old).now) name.now }
    ensures answer { Tries
        (IsStepTestAnswer (program_of (engines.program_in engine.old).now) name.now
        (tree_of t.now) (map tree_of wanted.now)) out.old.items out.new.items result }
    ensures same { engines.program_in engine.new ≡ engines.program_in engine.old }
{
    let relation = relation(engine, name)?;
    let found = steps(alloc, engine, relation, t)?;
    let reducts = reducts(alloc, &found)?;
    Ok(write_comparison(alloc, &reducts, wanted, out)?)
}

// Appends whether the term at which a run rests is what is wanted.
fn compare_rest(
    alloc: Global,
    rest: Term,
    wanted: &[Term],
    out: &mut Vec<u8>,
) -> Result<bool, NoMemory>
    ensures { IfOk result (λ met. Appends
        (Compares (tree_of rest ∷ []) (map tree_of wanted.now)) out.old.items out.new.items
        met) }
{
    let found = Vec::from_array(alloc, [rest])?;
    write_comparison(alloc, &found, wanted, out)
}

// Appends whether the run from this term by the relation of this name rests in these, or why it
// rests in none; or gives the fault of a term on the way.
fn compare_end(
    alloc: Global,
    engine: &mut Engine<Table>,
    name: &Name,
    t: &Term,
    wanted: &[Term],
    out: &mut Vec<u8>,
) -> Result<bool, EvalFault>
    requires { KnowsRelation (program_of (engines.program_in engine.old).now) name.now }
    ensures answer { Tries
        (IsRunTestAnswer (program_of (engines.program_in engine.old).now) name.now
        (tree_of t.now) (map tree_of wanted.now)) out.old.items out.new.items result }
    ensures same { engines.program_in engine.new ≡ engines.program_in engine.old }
{
    let relation = relation(engine, name)?;
    match run_down(alloc, engine, relation, t) {
        Ok(rest) => Ok(compare_rest(alloc, rest, wanted, out)?),
        Err(fault) => match fault {
            RunFault::Named(fault) => Err(EvalFault::Named(fault)),
            RunFault::Branches(term) => {
                write_branches(&term, out)?;
                Ok(false)
            }
            RunFault::RunBound => {
                write_bound(out)?;
                Ok(false)
            }
            RunFault::NoMemory => Err(EvalFault::NoMemory),
        },
    }
}

/// Appends the answer to `test-->` over this term and what these host expressions make, or gives the
/// fault on the way.
pub(crate) fn answer_step_test(
    alloc: Global,
    engine: &mut Engine<Table>,
    name: &Name,
    t: &Term,
    wanted: &[HostExpr],
    out: &mut Vec<u8>,
) -> Result<bool, EvalFault>
    requires { KnowsRelation (program_of (engines.program_in engine.old).now) name.now }
    ensures answer { Tries
        (OverEach (program_of (engines.program_in engine.old).now) (map host_of wanted.now)
        (IsStepTestAnswer (program_of (engines.program_in engine.old).now) name.now
        (tree_of t.now))) out.old.items out.new.items result }
    ensures same { engines.program_in engine.new ≡ engines.program_in engine.old }
{
    let wanted = wanted_terms(alloc, engine, name, wanted)?;
    compare_steps(alloc, engine, name, t, &wanted, out)
}

/// Appends the answer to `test-->>` over this term and what these host expressions make, or gives
/// the fault on the way.
pub(crate) fn answer_run_test(
    alloc: Global,
    engine: &mut Engine<Table>,
    name: &Name,
    t: &Term,
    wanted: &[HostExpr],
    out: &mut Vec<u8>,
) -> Result<bool, EvalFault>
    requires { KnowsRelation (program_of (engines.program_in engine.old).now) name.now }
    ensures answer { Tries
        (OverEach (program_of (engines.program_in engine.old).now) (map host_of wanted.now)
        (IsRunTestAnswer (program_of (engines.program_in engine.old).now) name.now
        (tree_of t.now))) out.old.items out.new.items result }
    ensures same { engines.program_in engine.new ≡ engines.program_in engine.old }
{
    let wanted = wanted_terms(alloc, engine, name, wanted)?;
    compare_end(alloc, engine, name, t, &wanted, out)
}
