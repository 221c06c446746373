// The answers to the queries of a file.
ghost use Rattle.std.specs.Prelude.{◌≡◌, ◌+◌, ◌^◌, ◌<◌, Some, IfOk, IsSome};
ghost use Rattle.rdx_eval.specs.Views as engines;
ghost use Rattle.rdx_lang.specs.ProgramView.{program_of};
ghost use Rattle.rdx_lang.specs.TemplateView.{host_of};
ghost use Rattle.rdx_answer.specs.Answering.{AreAnswers, IsAnswer};
ghost use Rattle.rdx_answer.specs.Tests.{no_tests};
ghost use Rattle.rdx_answer.specs.Inside.Appending.{AppendsAnswer, IsAnswerOver, Tries, host_in};
ghost use Rattle.rdx_answer.specs.Inside.Counting.{counts_of};
ghost use Rattle.rdx_answer.specs.Queries.{NamesKnown};
ghost use Rattle.rdx_answer.specs.Explained.{IsExplainable};
ghost use Rattle.rdx_answer.specs.Inside.Tabled.{forms_in};
ghost use Rattle.rdx_answer.specs.Modes.{AreAnswersIn, IsWhy};
ghost use Rattle.rdx_answer.specs.Views.{AllNamesKnown, program_in, queries_of, query_of};
ghost use Rattle.rdx_term.specs.View.{tree_of};

use crate::alpha_answers::{write_alike, write_substituted};
use crate::bound::FormTable;
use crate::comparing::write_equality;
use crate::counting::{Counts, counts_behind, no_counts, write_results};
use crate::explained_answers::answer_explained;
use crate::generate_answers::{answer_check, answer_generate};
use crate::holds_answers::{answer_holds, answer_holds_test};
use crate::match_answers::{answer_match_test, answer_matches, answer_splits, answer_whether};
use crate::step_answers::{answer_reducts, answer_steps};
use crate::stepper_answers::answer_stepper;
use crate::test_answers::{answer_run_test, answer_step_test};
use crate::texts::{write_fault, write_value_line};
use crate::{CheckedFile, Query};
use rdx_delta::HostTable;
use rdx_eval::{Engine, EvalFault};
use rdx_lang::{Binding, HostExpr};
use rdx_table::Table;
use rdx_term::{NoMemory, Term};
use std::alloc::Global;

/// How a file is run.
#[derive(Drop)]
pub enum Mode {
    /// Walks take no step.
    Run,
    /// Walks take these steps, each by its number among those of the term at hand, counted from 1.
    Step(Vec<u64>),
    /// Walks take no step, and what is found is explained by derivations.
    Why,
}

/// What a file writes.
#[derive(Drop)]
pub struct Answered {
    /// The text of all answers.
    pub transcript: Vec<u8>,
    /// Whether all that the file states is met.
    pub met: bool,
}

/// The answers to the queries of a file, in their order, and whether all is met that it states; where
/// the mode is to explain, with derivations. Host expressions ask the table.
pub fn answer(
    alloc: Global,
    file: &CheckedFile,
    host: &HostTable,
    mode: &Mode,
) -> Result<Answered, NoMemory>
    requires known { AllNamesKnown (program_in file.now) (queries_of file.now) }
    requires asked { IsWhy mode.now → IsExplainable (program_in file.now) (queries_of file.now) }
    ensures { IfOk result (λ a. AreAnswersIn mode.now (program_in file.now) no_tests
        (queries_of file.now) a.transcript.items a.met) }
{
    match mode {
        Mode::Run => answer_by(alloc, file, host, &[]),
        Mode::Step(choices) => answer_by(alloc, file, host, choices),
        Mode::Why => answer_explained(alloc, file, host),
    }
}

// The answers to the queries of a file, where walks go by these choices.
fn answer_by(
    alloc: Global,
    file: &CheckedFile,
    host: &HostTable,
    choices: &[u64],
) -> Result<Answered, NoMemory>
    requires { AllNamesKnown (program_in file.now) (queries_of file.now) }
    ensures { IfOk result (λ a. AreAnswers (program_in file.now) choices.now no_tests
        (queries_of file.now) a.transcript.items a.met) }
{
    let mut engine = Engine::new(alloc, &file.program, host, Table::new(alloc)?);
    let table = FormTable::new(alloc, &file.forms)?;
    let mut transcript = Vec::new(alloc);
    let mut counts = no_counts();
    let mut met = true;
    for query in &file.queries {
        let is_met = write_answer(
            alloc,
            &mut engine,
            &table,
            choices,
            counts,
            query,
            &mut transcript,
        )?;
        counts = counts_behind(query, is_met, counts);
        met = met && is_met;
    }
    Ok(Answered { transcript, met })
}

/// Appends the answer to a query, and says whether what it states is met. A fault is answered by its
/// line.
pub(crate) fn write_answer(
    alloc: Global,
    engine: &mut Engine<Table>,
    table: &FormTable<'_>,
    choices: &[u64],
    counts: Counts,
    query: &Query,
    out: &mut Vec<u8>,
) -> Result<bool, NoMemory>
    requires known { NamesKnown (program_of (engines.program_in engine.old).now)
        (query_of (forms_in table.now) query.now) }
    requires few { counts.passed + counts.failed < 2 ^ 63 }
    ensures answer { IfOk result (λ met. AppendsAnswer
        (program_of (engines.program_in engine.old).now) choices.now (counts_of counts)
        (query_of (forms_in table.now) query.now) out.old.items out.new.items met) }
    ensures same { engines.program_in engine.new ≡ engines.program_in engine.old }
{
    match try_answer(alloc, engine, table, choices, counts, query, out) {
        Ok(met) => Ok(met),
        Err(EvalFault::Named(fault)) => {
            write_fault(&fault, out)?;
            Ok(false)
        }
        Err(EvalFault::NoMemory) => Err(NoMemory),
    }
}

// Appends the answer to a query, and says whether what it states is met; or gives the fault of it.
fn try_answer(
    alloc: Global,
    engine: &mut Engine<Table>,
    table: &FormTable<'_>,
    choices: &[u64],
    counts: Counts,
    query: &Query,
    out: &mut Vec<u8>,
) -> Result<bool, EvalFault>
    requires known { NamesKnown (program_of (engines.program_in engine.old).now)
        (query_of (forms_in table.now) query.now) }
    requires few { counts.passed + counts.failed < 2 ^ 63 }
    ensures answer { Tries
        (IsAnswer (program_of (engines.program_in engine.old).now) choices.now (counts_of counts)
        (query_of (forms_in table.now) query.now)) out.old.items out.new.items result }
    ensures same { engines.program_in engine.new ≡ engines.program_in engine.old }
{
    match query {
        Query::Holds(premise, template) => answer_holds(alloc, engine, premise, template, out),
        Query::TestHolds(premise) => answer_holds_test(engine, premise, out),
        Query::TestResults => {
            write_results(counts, out)?;
            Ok(true)
        }
        Query::Generate(name, pat, size, seed) => {
            Ok(answer_generate(alloc, engine, name, pat, *size, *seed, out)?)
        }
        Query::Check(name, pat, host, attempts, seed) => {
            answer_check(alloc, engine, name, pat, host, *attempts, *seed, out)
        }
        Query::Match(_, _, host)
        | Query::Whether(_, _, host)
        | Query::Decompose(_, _, host)
        | Query::Value(host)
        | Query::Reducts(_, host)
        | Query::Tagged(_, host)
        | Query::Stepper(_, host)
        | Query::Alpha(_, host, _)
        | Query::Substitute(_, host, _, _)
        | Query::TestEqual(host, _)
        | Query::TestStep(_, host, _)
        | Query::TestRun(_, host, _)
        | Query::TestMatch(_, _, host, _) => {
            try_answer_with(alloc, engine, table, choices, counts, query, host, out)
        }
    }
}

// Appends the answer to a query with this first host expression, or gives the fault of it.
fn try_answer_with(
    alloc: Global,
    engine: &mut Engine<Table>,
    table: &FormTable<'_>,
    choices: &[u64],
    counts: Counts,
    query: &Query,
    host: &HostExpr,
    out: &mut Vec<u8>,
) -> Result<bool, EvalFault>
    requires known { NamesKnown (program_of (engines.program_in engine.old).now)
        (query_of (forms_in table.now) query.now) }
    requires host { host_in (query_of (forms_in table.now) query.now) ≡ Some (host_of host.now) }
    ensures answer { Tries
        (IsAnswer (program_of (engines.program_in engine.old).now) choices.now (counts_of counts)
        (query_of (forms_in table.now) query.now)) out.old.items out.new.items result }
    ensures same { engines.program_in engine.new ≡ engines.program_in engine.old }
{
    let t = engine.host(host, &Binding::new(Vec::new(alloc)))?;
    try_answer_over(alloc, engine, table, choices, query, &t, out)
}

// Appends the answer to a query whose first host expression makes this term, or gives the fault of
// it.
fn try_answer_over(
    alloc: Global,
    engine: &mut Engine<Table>,
    table: &FormTable<'_>,
    choices: &[u64],
    query: &Query,
    t: &Term,
    out: &mut Vec<u8>,
) -> Result<bool, EvalFault>
    requires known { NamesKnown (program_of (engines.program_in engine.old).now)
        (query_of (forms_in table.now) query.now) }
    requires host { IsSome (host_in (query_of (forms_in table.now) query.now)) }
    ensures answer { Tries
        (IsAnswerOver (program_of (engines.program_in engine.old).now) choices.now
        (query_of (forms_in table.now) query.now) (tree_of t.now)) out.old.items out.new.items result }
    ensures same { engines.program_in engine.new ≡ engines.program_in engine.old }
{
    match query {
        Query::Match(name, pat, _) => Ok(answer_matches(alloc, engine, name, pat, t, out)?),
        Query::Whether(name, pat, _) => Ok(answer_whether(alloc, engine, name, pat, t, out)?),
        Query::Decompose(name, pat, _) => Ok(answer_splits(alloc, engine, name, pat, t, out)?),
        Query::Value(_) => {
            write_value_line(t, out)?;
            Ok(true)
        }
        Query::Reducts(name, _) => answer_reducts(alloc, engine, name, t, out),
        Query::Tagged(name, _) => answer_steps(alloc, engine, name, t, out),
        Query::Stepper(name, _) => Ok(answer_stepper(alloc, engine, name, choices, t, out)?),
        Query::Alpha(name, _, other) => {
            let u = engine.host(other, &Binding::new(Vec::new(alloc)))?;
            Ok(write_alike(alloc, table.named(name), t, &u, out)?)
        }
        Query::Substitute(name, _, other, last) => {
            let x = engine.host(other, &Binding::new(Vec::new(alloc)))?;
            let v = engine.host(last, &Binding::new(Vec::new(alloc)))?;
            Ok(write_substituted(alloc, table.named(name), t, &x, &v, out)?)
        }
        Query::TestEqual(_, other) => {
            let u = engine.host(other, &Binding::new(Vec::new(alloc)))?;
            Ok(write_equality(t, &u, out)?)
        }
        Query::TestStep(name, _, wanted) => answer_step_test(alloc, engine, name, t, wanted, out),
        Query::TestRun(name, _, wanted) => answer_run_test(alloc, engine, name, t, wanted, out),
        Query::TestMatch(name, pat, _, wanted) => {
            Ok(answer_match_test(alloc, engine, name, pat, *wanted, t, out)?)
        }
        Query::Holds(_, _)
        | Query::Generate(_, _, _, _)
        | Query::Check(_, _, _, _, _)
        | Query::TestHolds(_)
        | Query::TestResults => unreachable!(),
    }
}
