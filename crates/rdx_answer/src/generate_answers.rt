// The answers to queries that generate terms of a pattern.
ghost use Rattle.std.specs.Prelude.{◌≡◌, ◌+◌, ◌%◌, Some, IfOk, IsSome, option_map};
ghost use Rattle.rdx_eval.specs.Heights.{calls_at, height};
ghost use Rattle.rdx_eval.specs.Instantiation as evaluation;
ghost use Rattle.rdx_eval.specs.Views as engines;
ghost use Rattle.rdx_eval.specs.Views.{Says};
ghost use Rattle.rdx_gen.specs.Answered.{Answers};
ghost use Rattle.rdx_gen.specs.Generated.{Generates};
ghost use Rattle.rdx_gen.specs.Generators.{Begins, IsFor};
ghost use Rattle.rdx_lang.specs.Checked.{language_in, pattern_in};
ghost use Rattle.rdx_lang.specs.ProgramView.{program_of};
ghost use Rattle.rdx_lang.specs.Programs.{language_named};
ghost use Rattle.rdx_lang.specs.Shown.{binding_of, bindings_of};
ghost use Rattle.rdx_lang.specs.TemplateView.{host_of};
ghost use Rattle.rdx_answer.specs.GenerateAnswers.{FirstFalseOf, IsCheckAnswer, IsGenerateAnswer};
ghost use Rattle.rdx_answer.specs.Inside.Appending.{Appends, Tries};
ghost use Rattle.rdx_answer.specs.Inside.Attempting.{TriesOnce, TriesTerm};
ghost use Rattle.rdx_term.specs.View.{tree_of};

use crate::match_answers::language;
use crate::texts::{write_counterexample, write_generated, write_generation_fault, write_passed};
use rdx_eval::{Engine, EvalFault};
use rdx_gen::{GenFault, Generator, Words, generate};
use rdx_lang::{Binding, CheckedLang, CheckedPat, HostExpr};
use rdx_table::Table;
use rdx_term::{Name, NoMemory, Term};
use std::alloc::Global;

/// Appends the answer to `generate-term`.
pub(crate) fn answer_generate(
    alloc: Global,
    engine: &mut Engine<Table>,
    name: &Name,
    pat: &CheckedPat,
    size: u32,
    seed: u64,
    out: &mut Vec<u8>,
) -> Result<bool, NoMemory>
    requires { IsSome (language_named (program_of (engines.program_in engine.old).now) name.now) }
    ensures answer { IfOk result (λ met. Appends
        (IsGenerateAnswer (program_of (engines.program_in engine.old).now) name.now
        (pattern_in pat.now) size seed) out.old.items out.new.items met) }
    ensures same { engines.program_in engine.new ≡ engines.program_in engine.old }
{
    let language = language(engine, name)?;
    let mut words = Words::new(seed);
    match generate(alloc, language, pat, size, &mut words) {
        Ok(t) => {
            write_generated(&t, out)?;
            Ok(true)
        }
        Err(fault) => {
            write_generation_fault(&fault, out)?;
            Ok(false)
        }
    }
}

// What attempts are made with: a pattern in the language of a name, of which terms are generated,
// and what is to make no `#f`.
#[derive(Clone, Copy)]
struct Check<'a> {
    name: &'a Name,
    language: &'a CheckedLang,
    pat: &'a CheckedPat,
    host: &'a HostExpr,
}

// Whether the term is `#f`.
fn is_false(t: &Term) -> bool
    ensures { result ≡ evaluation.is_false (tree_of t.now) }
{
    matches!(t, Term::Bool(false))
}

// The first of these bindings for which the host expression makes `#f`, or the fault on the way.
fn first_false<'a>(
    engine: &mut Engine<Table>,
    check: &Check,
    found: &'a [Binding],
) -> Result<Option<&'a Binding>, EvalFault>
    requires { IsSome (language_named (program_of (engines.program_in engine.old).now)
        check.now.name.now) }
    ensures answer { Says (option_map (λ b. binding_of b.now)) (FirstFalseOf
        (calls_at (program_of (engines.program_in engine.old).now) height)
        (host_of check.now.host.now) (bindings_of found.now)) result }
    ensures same { engines.program_in engine.new ≡ engines.program_in engine.old }
{
    for b in found {
        let value = engine.host(check.host, b)?;
        if is_false(&value) {
            return Ok(Some(b));
        }
    }
    Ok(None)
}

// Whether an attempt passes with this term. Where it fails, that is appended; or there is a fault
// on the way.
fn try_term(
    alloc: Global,
    engine: &mut Engine<Table>,
    check: &Check,
    number: usize,
    t: &Term,
    out: &mut Vec<u8>,
) -> Result<bool, EvalFault>
    requires { IsSome (language_named (program_of (engines.program_in engine.old).now)
        check.now.name.now) }
    ensures answer { TriesTerm (calls_at (program_of (engines.program_in engine.old).now) height)
        (language_in check.now.language.now) (pattern_in check.now.pat.now)
        (host_of check.now.host.now) number (tree_of t.now) out.old.items out.new.items result }
    ensures same { engines.program_in engine.new ≡ engines.program_in engine.old }
{
    let found = engine.matches(check.language, check.pat, t)?;
    match first_false(engine, check, &found)? {
        Some(b) => {
            write_counterexample(alloc, number, t, b, out)?;
            Ok(false)
        }
        None => Ok(true),
    }
}

// The term of an attempt, by a size from 0 to 5 in turn, or why there is none.
fn next_term(
    check: &Check,
    generator: &Generator,
    attempt: u32,
    words: &mut Words,
) -> Result<Term, GenFault>
    requires { IsFor (language_in check.now.language.now) (pattern_in check.now.pat.now)
        generator.now }
    ensures { Answers (λ a. Generates (language_in check.now.language.now)
        (pattern_in check.now.pat.now) (attempt % 6) words.old.generator a words.new.generator)
        result }
{
    generator.generate(attempt % 6, words)
}

// Whether the attempt behind so many others passes, with this generator of terms, or why there is
// none. Where it does not, why is appended; or there is a fault on the way.
fn try_once(
    alloc: Global,
    engine: &mut Engine<Table>,
    check: &Check,
    generator: &Result<Generator, GenFault>,
    attempt: u32,
    words: &mut Words,
    out: &mut Vec<u8>,
) -> Result<bool, EvalFault>
    requires known { IsSome (language_named (program_of (engines.program_in engine.old).now)
        check.now.name.now) }
    requires begins { Begins (language_in check.now.language.now) (pattern_in check.now.pat.now)
        generator.now }
    ensures answer { TriesOnce (calls_at (program_of (engines.program_in engine.old).now) height)
        (language_in check.now.language.now) (pattern_in check.now.pat.now)
        (host_of check.now.host.now) attempt words.old.generator words.new.generator
        out.old.items out.new.items result }
    ensures same { engines.program_in engine.new ≡ engines.program_in engine.old }
{
    let generator = match generator {
        Ok(generator) => generator,
        Err(fault) => {
            write_generation_fault(fault, out)?;
            return Ok(false);
        }
    };
    match next_term(check, generator, attempt, words) {
        Ok(t) => try_term(alloc, engine, check, attempt as usize + 1, &t, out),
        Err(fault) => {
            write_generation_fault(&fault, out)?;
            Ok(false)
        }
    }
}

/// Appends the answer to `redex-check`, or gives the fault of an attempt.
pub(crate) fn answer_check(
    alloc: Global,
    engine: &mut Engine<Table>,
    name: &Name,
    pat: &CheckedPat,
    host: &HostExpr,
    attempts: u32,
    seed: u64,
    out: &mut Vec<u8>,
) -> Result<bool, EvalFault>
    requires { IsSome (language_named (program_of (engines.program_in engine.old).now) name.now) }
    ensures answer { Tries
        (IsCheckAnswer (program_of (engines.program_in engine.old).now) name.now
        (pattern_in pat.now) (host_of host.now) attempts seed) out.old.items out.new.items result }
    ensures same { engines.program_in engine.new ≡ engines.program_in engine.old }
{
    let language = language(engine, name)?;
    let check = Check {
        name,
        language,
        pat,
        host,
    };
    let generator = Generator::new(alloc, language, pat);
    let mut words = Words::new(seed);
    for attempt in 0..attempts {
        if !try_once(alloc, engine, &check, &generator, attempt, &mut words, out)? {
            return Ok(false);
        }
    }
    write_passed(attempts as usize, out)?;
    Ok(true)
}
