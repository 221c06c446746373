// The answers to queries that match a pattern against a term or split the term by it.
ghost use Rattle.std.specs.Prelude.{◌≡◌, Some, IfOk, IsSome};
ghost use Rattle.rdx_eval.specs.Views as engines;
ghost use Rattle.rdx_lang.specs.Checked.{language_in, pattern_in};
ghost use Rattle.rdx_answer.specs.Inside.Appending.{Appends};
ghost use Rattle.rdx_answer.specs.Inside.Whether.{TellsFound};
ghost use Rattle.rdx_lang.specs.ProgramView.{program_of};
ghost use Rattle.rdx_lang.specs.Programs.{language_named};
ghost use Rattle.rdx_answer.specs.MatchAnswers.{IsMatchesAnswer, IsWhetherAnswer, IsSplitsAnswer};
ghost use Rattle.rdx_answer.specs.TestAnswers.{IsMatchTestAnswer};
ghost use Rattle.rdx_term.specs.View.{tree_of};

use crate::holds_answers::are_some;
use crate::texts::{write_matches, write_splits, write_verdict, write_whether};
use rdx_eval::Engine;
use rdx_lang::{CheckedLang, CheckedPat};
use rdx_table::Table;
use rdx_term::{Name, NoMemory, Term};
use std::alloc::Global;

/// The language of this name.
pub(crate) fn language<'a>(
    engine: &mut Engine<'a, Table>,
    name: &Name,
) -> Result<&'a CheckedLang, NoMemory>
    requires { IsSome (language_named (program_of (engines.program_in engine.old).now) name.now) }
    ensures found { IfOk result (λ l.
        language_named (program_of (engines.program_in engine.old).now) name.now
        ≡ Some (language_in l.now)) }
    ensures same { engines.program_in engine.new ≡ engines.program_in engine.old }
{
    match engine.language(name)? {
        Some(language) => Ok(language),
        None => unreachable!(),
    }
}

// Whether the pattern matches this term, in the language of this name. It is asked for as a closed
// one, of which a match is a yes or a no, so that no binding is listed.
fn is_match(
    alloc: Global,
    engine: &mut Engine<Table>,
    name: &Name,
    pat: &CheckedPat,
    t: &Term,
) -> Result<bool, NoMemory>
    requires { IsSome (language_named (program_of (engines.program_in engine.old).now) name.now) }
    ensures told { IfOk result (λ b. TellsFound
        (program_of (engines.program_in engine.old).now) name.now (pattern_in pat.now)
        (tree_of t.now) b) }
    ensures same { engines.program_in engine.new ≡ engines.program_in engine.old }
{
    rdx_lang::laws::some_listing();
    rdx_lang::laws::ranks_fall();
    let language = language(engine, name)?;
    let closed = pat.close(alloc)?;
    let found = engine.matches(language, &closed, t)?;
    Ok(are_some(&found))
}

/// Appends the answer to `redex-match` over this term.
pub(crate) fn answer_matches(
    alloc: Global,
    engine: &mut Engine<Table>,
    name: &Name,
    pat: &CheckedPat,
    t: &Term,
    out: &mut Vec<u8>,
) -> Result<bool, NoMemory>
    requires { IsSome (language_named (program_of (engines.program_in engine.old).now) name.now) }
    ensures answer { IfOk result (λ met. Appends
        (IsMatchesAnswer (program_of (engines.program_in engine.old).now) name.now
        (pattern_in pat.now) (tree_of t.now)) out.old.items out.new.items met) }
    ensures same { engines.program_in engine.new ≡ engines.program_in engine.old }
{
    let language = language(engine, name)?;
    let found = engine.matches(language, pat, t)?;
    write_matches(alloc, &found, out)?;
    Ok(true)
}

/// Appends the answer to `redex-match?` over this term.
pub(crate) fn answer_whether(
    alloc: Global,
    engine: &mut Engine<Table>,
    name: &Name,
    pat: &CheckedPat,
    t: &Term,
    out: &mut Vec<u8>,
) -> Result<bool, NoMemory>
    requires { IsSome (language_named (program_of (engines.program_in engine.old).now) name.now) }
    ensures answer { IfOk result (λ met. Appends
        (IsWhetherAnswer (program_of (engines.program_in engine.old).now) name.now
        (pattern_in pat.now) (tree_of t.now)) out.old.items out.new.items met) }
    ensures same { engines.program_in engine.new ≡ engines.program_in engine.old }
{
    let is_match = is_match(alloc, engine, name, pat, t)?;
    write_whether(is_match, out)?;
    Ok(true)
}

/// Appends the answer to `test-match`, where a match is wanted, and else to `test-no-match`, over
/// this term.
pub(crate) fn answer_match_test(
    alloc: Global,
    engine: &mut Engine<Table>,
    name: &Name,
    pat: &CheckedPat,
    wanted: bool,
    t: &Term,
    out: &mut Vec<u8>,
) -> Result<bool, NoMemory>
    requires { IsSome (language_named (program_of (engines.program_in engine.old).now) name.now) }
    ensures answer { IfOk result (λ met. Appends
        (IsMatchTestAnswer (program_of (engines.program_in engine.old).now) name.now
        (pattern_in pat.now) wanted (tree_of t.now)) out.old.items out.new.items met) }
    ensures same { engines.program_in engine.new ≡ engines.program_in engine.old }
{
    let passes = is_match(alloc, engine, name, pat, t)? == wanted;
    write_verdict(passes, out)?;
    Ok(passes)
}

/// Appends the answer to `redex-decompose` over this term.
pub(crate) fn answer_splits(
    alloc: Global,
    engine: &mut Engine<Table>,
    name: &Name,
    pat: &CheckedPat,
    t: &Term,
    out: &mut Vec<u8>,
) -> Result<bool, NoMemory>
    requires { IsSome (language_named (program_of (engines.program_in engine.old).now) name.now) }
    ensures answer { IfOk result (λ met. Appends
        (IsSplitsAnswer (program_of (engines.program_in engine.old).now) name.now
        (pattern_in pat.now) (tree_of t.now)) out.old.items out.new.items met) }
    ensures same { engines.program_in engine.new ≡ engines.program_in engine.old }
{
    let language = language(engine, name)?;
    let found = engine.splits(language, pat, t)?;
    write_splits(alloc, &found, out)?;
    Ok(true)
}
