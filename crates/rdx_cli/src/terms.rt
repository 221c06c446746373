// All terms of a nonterminal up to a size, as a transcript.
ghost use Rattle.std.specs.Prelude.{◌≡◌, ◌≤◌, ◌++◌, IfOk, IfNone, IfSome, IsTrue, None, OnOk, Some, map};
ghost use Rattle.rdx_answer.specs.AnswerText.{lines_text};
ghost use Rattle.rdx_lang.specs.Checked.{language_in};
ghost use Rattle.rdx_lang.specs.PatternView.{definition_of};
ghost use Rattle.rdx_lang.specs.ProgramView.{program_of};
ghost use Rattle.rdx_lang.specs.References as references;
ghost use Rattle.rdx_lang.specs.WellFormed.{defined};
ghost use Rattle.rdx_term.specs.Spelling.{is_name};
ghost use Rattle.rdx_term.specs.Text.{tree_text};
ghost use Rattle.rdx_term.specs.View.{tree_of};
ghost use Rattle.rdx_cli.specs.Inside.Terms.{Lists};
ghost use Rattle.rdx_cli.specs.Transcript as model;

use crate::contents::{Contents, contents_of};
use crate::refusals::{form_line, nonterminal_line};
use crate::transcript::{Transcript, refused, written};
use itoa::Buffer;
use rdx_enum::terms_up_to;
use rdx_lang::{CheckedLang, Pat, Program, Ref};
use rdx_patterns::DefFault;
use rdx_query::check_file;
use rdx_table::Table;
use rdx_term::{Name, NoMemory, Term, text_of};
use std::alloc::Global;
use std::rc::RcStr;

// The last language of a program, if it has one.
fn last_language(program: &Program) -> Option<&CheckedLang>
    ensures some { IfSome result (λ l.
        model.last_language (program_of program.now) ≡ Some (language_in l.now)) }
    ensures none { IfNone result (model.last_language (program_of program.now) ≡ None) }
{
    program.languages.last()
}

// Whether one of these definitions is of the nonterminal.
fn is_among(name: &Ref, definitions: &[(Ref, Vec<Pat>)]) -> bool
    ensures { result ≡ references.is_among name.now
        (map (λ d. d.0) (map definition_of definitions.now)) }
{
    for (defined, _) in definitions {
        if name.same(defined) {
            return true;
        }
    }
    false
}

// Whether the language has the nonterminal.
fn has_nonterminal(language: &CheckedLang, name: &Ref) -> bool
    ensures { result ≡ references.is_among name.now (defined (language_in language.now)) }
{
    is_among(name, &language.language().nts)
}

// The name with this spelling.
fn name_of(alloc: Global, nt: &str) -> Result<Name, NoMemory>
    requires { IsTrue (is_name nt.now) }
    ensures { IfOk result (λ name. name ≡ nt.now) }
{
    match Name::new(RcStr::from_str(alloc, nt)?) {
        Some(name) => Ok(name),
        None => unreachable!(),
    }
}

// A line for each term.
fn write_lines(terms: &[Term], text: &mut Vec<u8>) -> Result<(), NoMemory>
    ensures { OnOk result (text.new.items ≡ text.old.items
        ++ lines_text (map tree_text (map tree_of terms.now))) }
{
    for term in terms {
        text.extend_from_slice(b"  ")?;
        text_of(term, text)?;
        text.push(b'\n')?;
    }
    Ok(())
}

// How many terms there are, and a line for each.
fn terms_text(alloc: Global, terms: &[Term]) -> Result<Vec<u8>, NoMemory>
    ensures { IfOk result (λ text. text.items ≡ model.terms_text (map tree_of terms.now)) }
{
    let mut text = Vec::new(alloc);
    let mut buffer = Buffer::new();
    text.extend_from_slice(b"terms ")?;
    text.extend_from_slice(buffer.format(terms.len()).as_bytes())?;
    text.push(b'\n')?;
    write_lines(terms, &mut text)?;
    Ok(text)
}

// The listing of the terms of the last language of a program, or the line that says that it has not
// the nonterminal.
fn listing(alloc: Global, nt: &str, k: u32, program: &Program) -> Result<Transcript, NoMemory>
    requires name { IsTrue (is_name nt.now) }
    requires few { k ≤ 40 }
    ensures { IfOk result (λ t.
        Lists nt.now k (program_of program.now) t.text.items t.verdict) }
{
    let Some(language) = last_language(program) else {
        return Ok(refused(nonterminal_line(alloc, nt)?));
    };
    let name = name_of(alloc, nt)?;
    let reference = Ref::Nt(name.share()?);
    if !has_nonterminal(language, &reference) {
        return Ok(refused(nonterminal_line(alloc, nt)?));
    }
    let mut table = Table::new(alloc)?;
    let found = terms_up_to(&mut table, language, &name, k)?;
    Ok(written(terms_text(alloc, &found)?))
}

/// All terms of a nonterminal up to a size, of the last language of a file whose forms are all
/// accepted, or the line that says why there are none.
pub fn terms_transcript(
    alloc: Global,
    nt: &str,
    k: u32,
    bytes: &[u8],
) -> Result<Transcript, NoMemory>
    requires name { IsTrue (is_name nt.now) }
    requires few { k ≤ 40 }
    ensures { IfOk result (λ t. model.TermsWrites nt.now k bytes.now t.text.items t.verdict) }
{
    let data = match contents_of(alloc, bytes)? {
        Contents::Data(data) => data,
        Contents::Unread(line) => return Ok(refused(line)),
    };
    match check_file(alloc, &data) {
        Ok(file) => listing(alloc, nt, k, &file.program),
        Err(DefFault::Refused(refusal)) => Ok(refused(form_line(alloc, &refusal)?)),
        Err(DefFault::NoMemory) => Err(NoMemory),
    }
}
