// Forms that define languages.
ghost use Rattle.std.specs.Prelude.{◌≡◌, [], Ok, Option, Some, IfOk};
ghost use Rattle.rdx_lang.specs.Checked.{language_in};
ghost use Rattle.rdx_patterns.specs.Nonterminals.{names_of};
ghost use Rattle.rdx_patterns.specs.Refusal.{Refusal};
ghost use Rattle.rdx_patterns.specs.Readable.{IsReadable};
ghost use Rattle.rdx_forms.specs.FormKinds as forms;
ghost use Rattle.rdx_forms.specs.Answers.{DefinesBy};
ghost use Rattle.rdx_forms.specs.BindingParts.{binding_refusal, grammar_part};
ghost use Rattle.rdx_forms.specs.Faults.{IsRefusedBy};
ghost use Rattle.rdx_forms.specs.KnownView.{known_of};
ghost use Rattle.rdx_forms.specs.Reported.{earlier};
ghost use Rattle.rdx_forms.specs.LanguageForms.{base_name};

use crate::binding_parts::{grammar_part, has_binding_forms};
use crate::earlier::{both, first_fault, unless};
use crate::known::Known;
use crate::lookup::place_named;
use crate::parts::{base_name, second_item};
use crate::refusals::{misshaped, refuse_taken};
use rdx_alpha::read_forms;
use rdx_grammar::{extend, read_language};
use rdx_lang::{CheckedLang, Language, Ranks};
use rdx_patterns::refusal::named;
use rdx_patterns::shape::text;
use rdx_patterns::{DefFault, DefKind};
use rdx_sexp::Datum;
use rdx_term::{Name, NoMemory};
use std::alloc::Global;
use std::rc::RcStr;

/// Some name, for what needs one that nobody reads.
pub(crate) fn some_name(alloc: Global) -> Result<Name, NoMemory> {
    match Name::new(RcStr::from_str(alloc, "none")?) {
        Some(name) => Ok(name),
        None => unreachable!(),
    }
}

/// A language without nonterminals.
pub(crate) fn empty_language(alloc: Global) -> Result<CheckedLang, NoMemory>
    ensures { IfOk result (λ l. names_of (language_in l) ≡ []) }
{
    let language = Language {
        name: some_name(alloc)?,
        nts: Vec::new(alloc),
    };
    Ok(CheckedLang::new(
        language,
        Ranks {
            of: Vec::new(alloc),
        },
    ))
}

// What an extension is over the language that it names.
fn extension(
    alloc: Global,
    known: &Known,
    form: &Datum,
    name: &Datum,
) -> Result<CheckedLang, DefFault>
    requires readable { IsReadable form.now }
    requires base { base_name form.now ≡ Some name.now }
    requires extension { forms.form_kind form.now ≡ forms.defines forms.extension }
    requires part { grammar_part form.now ≡ form.now }
    ensures { DefinesBy (known_of known.now) form.now result }
{
    match place_named(known, text(name)) {
        Some(place) => {
            let taken = refuse_taken(alloc, known, second_item(form))?;
            unless(taken, extend(alloc, &known.program.languages[place], form))
        }
        None => {
            let unknown = named(alloc, DefKind::UnknownLanguage, name)?;
            let read = extend(alloc, &empty_language(alloc)?, form);
            Err(first_fault(unknown, read))
        }
    }
}

// The language of a `define-extended-language` form without binding forms, where this is known.
fn extension_part(alloc: Global, known: &Known, form: &Datum) -> Result<CheckedLang, DefFault>
    requires readable { IsReadable form.now }
    requires extension { forms.form_kind form.now ≡ forms.defines forms.extension }
    requires part { grammar_part form.now ≡ form.now }
    ensures { DefinesBy (known_of known.now) form.now result }
{
    match base_name(form) {
        Some(name) => extension(alloc, known, form, name),
        None => Err(DefFault::Refused(misshaped(form))),
    }
}

// The language of a `define-language` form without binding forms, where this is known.
fn language_part(alloc: Global, known: &Known, form: &Datum) -> Result<CheckedLang, DefFault>
    requires readable { IsReadable form.now }
    requires language { forms.form_kind form.now ≡ forms.defines forms.language }
    requires part { grammar_part form.now ≡ form.now }
    ensures { DefinesBy (known_of known.now) form.now result }
{
    let taken = refuse_taken(alloc, known, second_item(form))?;
    unless(taken, read_language(alloc, form))
}

// What the form defines without its binding forms, where these are not refused.
fn with_binding_forms(
    alloc: Global,
    form: &Datum,
    read: Result<CheckedLang, DefFault>,
) -> Result<CheckedLang, DefFault>
    requires readable { IsReadable form.now }
    ensures refused { (o : Option Refusal) → IsRefusedBy o read
        → IsRefusedBy (earlier o (binding_refusal form.now)) result }
    ensures read { IfOk result (λ l. read ≡ Ok l) }
{
    let (language, _) = both(read, read_forms(alloc, form))?;
    Ok(language)
}

/// The language of a `define-extended-language` form, where this is known.
pub fn define_extension(alloc: Global, known: &Known, form: &Datum) -> Result<CheckedLang, DefFault>
    requires readable { IsReadable form.now }
    requires extension { forms.form_kind form.now ≡ forms.defines forms.extension }
    ensures { DefinesBy (known_of known.now) form.now result }
{
    if !has_binding_forms(form) {
        return extension_part(alloc, known, form);
    }
    let part = grammar_part(alloc, form)?;
    let read = extension_part(alloc, known, &part);
    with_binding_forms(alloc, form, read)
}

/// The language of a `define-language` form, where this is known.
pub fn define_language(alloc: Global, known: &Known, form: &Datum) -> Result<CheckedLang, DefFault>
    requires readable { IsReadable form.now }
    requires language { forms.form_kind form.now ≡ forms.defines forms.language }
    ensures { DefinesBy (known_of known.now) form.now result }
{
    if !has_binding_forms(form) {
        return language_part(alloc, known, form);
    }
    let part = grammar_part(alloc, form)?;
    let read = language_part(alloc, known, &part);
    with_binding_forms(alloc, form, read)
}
