// The answers to the queries of a file with derivations: under each binding, each split, each judgement
// that holds and each value of a template stands one of it.
ghost use Rattle.std.specs.Prelude.{◌≡◌, ◌+◌, ◌^◌, ◌<◌, List, IfOk, IsTrue, OnOk};
ghost use Rattle.rdx_lang.specs.Checked.{pattern_in};
ghost use Rattle.rdx_lang.specs.ProgramView.{program_of};
ghost use Rattle.rdx_lang.specs.Shown.{binding_of, decomposition_of};
ghost use Rattle.rdx_lang.specs.TemplateView.{host_of};
ghost use Rattle.rdx_eval.specs.Views as engines;
ghost use Rattle.rdx_deriv.specs.Derivations as goals;
ghost use Rattle.rdx_deriv.specs.DerivationView.{goal_of};
ghost use Rattle.rdx_why.specs.Explaining.{Explains};
ghost use Rattle.rdx_why.specs.Finders.{known_in};
ghost use Rattle.rdx_answer.specs.AnswerText as text;
ghost use Rattle.rdx_answer.specs.Bound.{Bound};
ghost use Rattle.rdx_answer.specs.Explained.{IsExplainable, ShowMatches, ShowSplits, WritesExplained};
ghost use Rattle.rdx_answer.specs.Inside.Counting.{counts_of};
ghost use Rattle.rdx_answer.specs.Inside.Explaining as explaining;
ghost use Rattle.rdx_answer.specs.Inside.Explaining.{Gains, GainsAnswer, GainsBehind, GainsDerivation, HasExplanation, IsShowable, IsShowableQuery, TriesParts};
ghost use Rattle.rdx_answer.specs.Inside.Tabled.{forms_in};
ghost use Rattle.rdx_answer.specs.Queries as model;
ghost use Rattle.rdx_answer.specs.Tests.{no_tests};
ghost use Rattle.rdx_answer.specs.Views.{AllNamesKnown, program_in, queries_of, query_of};
ghost use Rattle.rdx_term.specs.Context.{is_context};
ghost use Rattle.rdx_term.specs.View.{tree_of};

use crate::answers::{Answered, write_answer};
use crate::bound::FormTable;
use crate::counting::{Counts, counts_behind, no_counts};
use crate::explained_premises::{explain_holds, explain_values};
use crate::match_answers::language;
use crate::texts::{write_binding_line, write_fault, write_head, write_split_line};
use crate::{CheckedFile, Query};
use rdx_delta::HostTable;
use rdx_deriv::{Goal, write_lines};
use rdx_eval::{Engine, EvalFault};
use rdx_lang::{Binding, CheckedPat, HostExpr, Split};
use rdx_table::Table;
use rdx_term::{Name, NoMemory, Term};
use rdx_why::{Finder, explain_known};
use std::alloc::Global;

/// The answers to the queries of a file, with derivations, and whether all is met that it states.
pub(crate) fn answer_explained(
    alloc: Global,
    file: &CheckedFile,
    host: &HostTable,
) -> Result<Answered, NoMemory>
    requires known { AllNamesKnown (program_in file.now) (queries_of file.now) }
    requires asked { IsExplainable (program_in file.now) (queries_of file.now) }
    ensures { IfOk result (λ a. WritesExplained (program_in file.now) no_tests
        (queries_of file.now) a.transcript.items a.met) }
{
    let mut engine = Engine::new(alloc, &file.program, host, Table::new(alloc)?);
    let mut finder = Finder::new(alloc, &file.program, Table::new(alloc)?);
    let table = FormTable::new(alloc, &file.forms)?;
    let mut transcript = Vec::new(alloc);
    let mut counts = no_counts();
    let mut met = true;
    for query in &file.queries {
        let is_met = write_explained(
            alloc,
            &mut engine,
            &mut finder,
            &table,
            counts,
            query,
            &mut transcript,
        )?;
        counts = counts_behind(query, is_met, counts);
        met = met && is_met;
    }
    Ok(Answered { transcript, met })
}

// Whether derivations stand in the answer to a query.
fn is_shown(query: &Query) -> bool
    ensures { (bs : List Bound) → result ≡ explaining.is_shown (query_of bs query.now) }
{
    match query {
        Query::Match(_, _, _) | Query::Decompose(_, _, _) | Query::Holds(_, _) => true,
        Query::Whether(_, _, _)
        | Query::Value(_)
        | Query::Reducts(_, _)
        | Query::Tagged(_, _)
        | Query::Stepper(_, _)
        | Query::Generate(_, _, _, _)
        | Query::Check(_, _, _, _, _)
        | Query::Alpha(_, _, _)
        | Query::Substitute(_, _, _, _)
        | Query::TestEqual(_, _)
        | Query::TestStep(_, _, _)
        | Query::TestRun(_, _, _)
        | Query::TestMatch(_, _, _, _)
        | Query::TestHolds(_)
        | Query::TestResults => false,
    }
}

// Appends the answer to a query with its derivations, and says whether what it states is met.
fn write_explained(
    alloc: Global,
    engine: &mut Engine<Table>,
    finder: &mut Finder<Table>,
    table: &FormTable<'_>,
    counts: Counts,
    query: &Query,
    out: &mut Vec<u8>,
) -> Result<bool, NoMemory>
    requires shown { IsShowableQuery (program_of (engines.program_in engine.old).now)
        (query_of (forms_in table.now) query.now) }
    requires few { counts.passed + counts.failed < 2 ^ 63 }
    requires finder { (known_in finder.old).now ≡ (engines.program_in engine.old).now }
    ensures answer { IfOk result (λ met. GainsAnswer
        (program_of (engines.program_in engine.old).now) (counts_of counts)
        (query_of (forms_in table.now) query.now) out.old.items out.new.items met) }
    ensures same { engines.program_in engine.new ≡ engines.program_in engine.old }
    ensures kept { known_in finder.new ≡ known_in finder.old }
{
    if !is_shown(query) {
        return write_answer(alloc, engine, table, &[], counts, query, out);
    }
    match show(alloc, engine, finder, table, query, out) {
        Ok(()) => Ok(true),
        Err(EvalFault::Named(fault)) => {
            write_fault(&fault, out)?;
            Ok(false)
        }
        Err(EvalFault::NoMemory) => Err(NoMemory),
    }
}

// Appends the answer to a query that has derivations in it, with these; or gives the fault on the way.
fn show(
    alloc: Global,
    engine: &mut Engine<Table>,
    finder: &mut Finder<Table>,
    table: &FormTable<'_>,
    query: &Query,
    out: &mut Vec<u8>,
) -> Result<(), EvalFault>
    requires shown { IsShowableQuery (program_of (engines.program_in engine.old).now)
        (query_of (forms_in table.now) query.now) }
    requires kind { IsTrue (explaining.is_shown (query_of (forms_in table.now) query.now)) }
    requires finder { (known_in finder.old).now ≡ (engines.program_in engine.old).now }
    ensures answer { TriesParts (program_of (engines.program_in engine.old).now)
        (query_of (forms_in table.now) query.now) out.old.items out.new.items result }
    ensures same { engines.program_in engine.new ≡ engines.program_in engine.old }
    ensures kept { known_in finder.new ≡ known_in finder.old }
{
    match query {
        Query::Match(name, pat, host) => {
            explain_matches(alloc, engine, finder, name, pat, host, out)
        }
        Query::Decompose(name, pat, host) => {
            explain_splits(alloc, engine, finder, name, pat, host, out)
        }
        Query::Holds(premise, template) => match template {
            Some(t) => explain_values(alloc, engine, finder, premise, t, out),
            None => explain_holds(alloc, engine, finder, premise, out),
        },
        Query::Whether(_, _, _)
        | Query::Value(_)
        | Query::Reducts(_, _)
        | Query::Tagged(_, _)
        | Query::Stepper(_, _)
        | Query::Generate(_, _, _, _)
        | Query::Check(_, _, _, _, _)
        | Query::Alpha(_, _, _)
        | Query::Substitute(_, _, _, _)
        | Query::TestEqual(_, _)
        | Query::TestStep(_, _, _)
        | Query::TestRun(_, _, _)
        | Query::TestMatch(_, _, _, _)
        | Query::TestHolds(_)
        | Query::TestResults => unreachable!(),
    }
}

/// Appends the lines of a derivation of the goal, which has one.
pub(crate) fn write_derivation(
    alloc: Global,
    engine: &mut Engine<Table>,
    finder: &mut Finder<Table>,
    goal: &Goal,
    out: &mut Vec<u8>,
) -> Result<(), NoMemory>
    requires there { HasExplanation (program_of (engines.program_in engine.old).now)
        (goal_of goal.now) }
    requires finder { (known_in finder.old).now ≡ (engines.program_in engine.old).now }
    ensures gained { OnOk result (GainsDerivation
        (program_of (engines.program_in engine.old).now) (goal_of goal.now) out.old.items
        out.new.items) }
    ensures same { engines.program_in engine.new ≡ engines.program_in engine.old }
    ensures kept { known_in finder.new ≡ known_in finder.old }
{
    let derivation = explain_known(alloc, engine, finder, goal)?;
    write_lines(alloc, engine.program(), &derivation, out)
}

// Appends each binding by which the pattern matches what the host expression makes, with a derivation;
// or gives the fault on the way.
fn explain_matches(
    alloc: Global,
    engine: &mut Engine<Table>,
    finder: &mut Finder<Table>,
    name: &Name,
    pat: &CheckedPat,
    host: &HostExpr,
    out: &mut Vec<u8>,
) -> Result<(), EvalFault>
    requires showable { IsShowable (program_of (engines.program_in engine.old).now) name.now
        (pattern_in pat.now) }
    requires finder { (known_in finder.old).now ≡ (engines.program_in engine.old).now }
    ensures answer { TriesParts (program_of (engines.program_in engine.old).now)
        (model.matches name.now (pattern_in pat.now) (host_of host.now)) out.old.items
        out.new.items result }
    ensures same { engines.program_in engine.new ≡ engines.program_in engine.old }
    ensures kept { known_in finder.new ≡ known_in finder.old }
{
    let t = engine.host(host, &Binding::new(Vec::new(alloc)))?;
    Ok(show_matches(alloc, engine, finder, name, pat, &t, out)?)
}

// Appends each binding by which the pattern matches the term, with a derivation.
fn show_matches(
    alloc: Global,
    engine: &mut Engine<Table>,
    finder: &mut Finder<Table>,
    name: &Name,
    pat: &CheckedPat,
    t: &Term,
    out: &mut Vec<u8>,
) -> Result<(), NoMemory>
    requires showable { IsShowable (program_of (engines.program_in engine.old).now) name.now
        (pattern_in pat.now) }
    requires finder { (known_in finder.old).now ≡ (engines.program_in engine.old).now }
    ensures gained { OnOk result (Gains (program_of (engines.program_in engine.old).now)
        (ShowMatches (program_of (engines.program_in engine.old).now) name.now
        (pattern_in pat.now) (tree_of t.now)) out.old.items out.new.items) }
    ensures same { engines.program_in engine.new ≡ engines.program_in engine.old }
    ensures kept { known_in finder.new ≡ known_in finder.old }
{
    let language = language(engine, name)?;
    let found = engine.matches(language, pat, t)?;
    write_head(b"match", found.len(), out)?;
    for binding in &found {
        show_match(alloc, engine, finder, name, pat, t, binding, out)?;
    }
    Ok(())
}

// Appends the line of a binding, with a derivation.
fn show_match(
    alloc: Global,
    engine: &mut Engine<Table>,
    finder: &mut Finder<Table>,
    name: &Name,
    pat: &CheckedPat,
    t: &Term,
    binding: &Binding,
    out: &mut Vec<u8>,
) -> Result<(), NoMemory>
    requires there { HasExplanation (program_of (engines.program_in engine.old).now)
        (goals.matched name.now (pattern_in pat.now) (tree_of t.now) (binding_of binding.now)) }
    requires finder { (known_in finder.old).now ≡ (engines.program_in engine.old).now }
    ensures gained { OnOk result (GainsBehind (program_of (engines.program_in engine.old).now)
        (Explains (program_of (engines.program_in engine.old).now)
        (goals.matched name.now (pattern_in pat.now) (tree_of t.now) (binding_of binding.now)))
        (text.line_text (text.binding_text (binding_of binding.now))) out.old.items
        out.new.items) }
    ensures same { engines.program_in engine.new ≡ engines.program_in engine.old }
    ensures kept { known_in finder.new ≡ known_in finder.old }
{
    let goal = Goal::Match(
        name.share()?,
        pat.pat().share(alloc)?,
        t.share()?,
        binding.share()?,
    );
    write_binding_line(alloc, binding, out)?;
    write_derivation(alloc, engine, finder, &goal, out)
}

// Appends each split of what the host expression makes, with a derivation; or gives the fault on the
// way.
fn explain_splits(
    alloc: Global,
    engine: &mut Engine<Table>,
    finder: &mut Finder<Table>,
    name: &Name,
    pat: &CheckedPat,
    host: &HostExpr,
    out: &mut Vec<u8>,
) -> Result<(), EvalFault>
    requires showable { IsShowable (program_of (engines.program_in engine.old).now) name.now
        (pattern_in pat.now) }
    requires finder { (known_in finder.old).now ≡ (engines.program_in engine.old).now }
    ensures answer { TriesParts (program_of (engines.program_in engine.old).now)
        (model.splits name.now (pattern_in pat.now) (host_of host.now)) out.old.items
        out.new.items result }
    ensures same { engines.program_in engine.new ≡ engines.program_in engine.old }
    ensures kept { known_in finder.new ≡ known_in finder.old }
{
    let t = engine.host(host, &Binding::new(Vec::new(alloc)))?;
    Ok(show_splits(alloc, engine, finder, name, pat, &t, out)?)
}

// Appends each split of the term by the pattern, with a derivation.
fn show_splits(
    alloc: Global,
    engine: &mut Engine<Table>,
    finder: &mut Finder<Table>,
    name: &Name,
    pat: &CheckedPat,
    t: &Term,
    out: &mut Vec<u8>,
) -> Result<(), NoMemory>
    requires showable { IsShowable (program_of (engines.program_in engine.old).now) name.now
        (pattern_in pat.now) }
    requires finder { (known_in finder.old).now ≡ (engines.program_in engine.old).now }
    ensures gained { OnOk result (Gains (program_of (engines.program_in engine.old).now)
        (ShowSplits (program_of (engines.program_in engine.old).now) name.now
        (pattern_in pat.now) (tree_of t.now)) out.old.items out.new.items) }
    ensures same { engines.program_in engine.new ≡ engines.program_in engine.old }
    ensures kept { known_in finder.new ≡ known_in finder.old }
{
    let language = language(engine, name)?;
    let found = engine.splits(language, pat, t)?;
    write_head(b"splits", found.len(), out)?;
    for split in &found {
        show_split(alloc, engine, finder, name, pat, t, split, out)?;
    }
    Ok(())
}

// Appends the line of a split, with a derivation.
fn show_split(
    alloc: Global,
    engine: &mut Engine<Table>,
    finder: &mut Finder<Table>,
    name: &Name,
    pat: &CheckedPat,
    t: &Term,
    split: &Split,
    out: &mut Vec<u8>,
) -> Result<(), NoMemory>
    requires context { IsTrue (is_context (decomposition_of split.now).context) }
    requires there { HasExplanation (program_of (engines.program_in engine.old).now)
        (goals.split name.now (pattern_in pat.now) (tree_of t.now)
        (decomposition_of split.now).context (decomposition_of split.now).part
        (decomposition_of split.now).binding) }
    requires finder { (known_in finder.old).now ≡ (engines.program_in engine.old).now }
    ensures gained { OnOk result (GainsBehind (program_of (engines.program_in engine.old).now)
        (Explains (program_of (engines.program_in engine.old).now)
        (goals.split name.now (pattern_in pat.now) (tree_of t.now)
        (decomposition_of split.now).context (decomposition_of split.now).part
        (decomposition_of split.now).binding))
        (text.line_text (text.split_text (decomposition_of split.now))) out.old.items
        out.new.items) }
    ensures same { engines.program_in engine.new ≡ engines.program_in engine.old }
    ensures kept { known_in finder.new ≡ known_in finder.old }
{
    let goal = Goal::Split(
        name.share()?,
        pat.pat().share(alloc)?,
        t.share()?,
        split.context.share()?,
        split.part.share()?,
        split.binding.share()?,
    );
    write_split_line(alloc, split, out)?;
    write_derivation(alloc, engine, finder, &goal, out)
}
