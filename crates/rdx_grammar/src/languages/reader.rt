// Languages.
ghost use Rattle.std.specs.Prelude.{◌≡◌, IfOk, option_map};
ghost use Rattle.rdx_lang.specs.Checked.{language_in};
ghost use Rattle.rdx_lang.specs.PatternView.{language_of};
ghost use Rattle.rdx_grammar.specs.Answers.{ReadsForm};
ghost use Rattle.rdx_grammar.specs.Forms as forms;
ghost use Rattle.rdx_grammar.specs.Inside.BaseView.{base_in};
ghost use Rattle.rdx_grammar.specs.Inside.CheckedForms.{AreNamed, AreShallowIn, AreSpelledIn};
ghost use Rattle.rdx_grammar.specs.Inside.PartViews.{parts_of};
ghost use Rattle.rdx_grammar.specs.Languages as model;
ghost use Rattle.rdx_patterns.specs.Readable.{IsReadable};

use crate::languages::bases::Base;
use crate::languages::definitions::read_definitions;
use crate::languages::extension::extended;
use crate::languages::form_parts::{FormParts, extension_form, language_form};
use crate::languages::nonterminals::form_names;
use crate::languages::recursion::checked;
use crate::languages::refusals::{refuse_escape, refuse_form};
use crate::languages::stands::form_stands;
use rdx_lang::{CheckedLang, Language};
use rdx_patterns::{DefFault, Names, complete, symbol_name};
use rdx_sexp::Datum;
use rdx_term::NoMemory;
use std::alloc::Global;

// The language of these parts over a base.
fn read_parts(
    alloc: Global,
    base: Option<&Base>,
    parts: FormParts<'_>,
) -> Result<Language, NoMemory>
    requires { AreNamed (parts_of parts) }
    ensures { IfOk result (λ language.
        language_of language
        ≡ model.language_over (base_in (option_map (λ c. c.now) base.entry))
        (parts_of parts.entry)) }
{
    let name = symbol_name(parts.name)?;
    let all = form_names(alloc, base, parts.definitions)?;
    let names = Names::new(alloc, all)?;
    let new = read_definitions(alloc, base, &names, parts.definitions)?;
    let nts = extended(alloc, base, new)?;
    let mut language = Language { name, nts };
    complete(alloc, &mut language)?;
    Ok(language)
}

// The language of a form with these parts over a base.
fn read_form(
    alloc: Global,
    base: Option<&Base>,
    form: &Datum,
    parts: Option<FormParts<'_>>,
) -> Result<CheckedLang, DefFault>
    requires spelled { AreSpelledIn (option_map parts_of parts) }
    requires shallow { AreShallowIn (option_map parts_of parts) }
    ensures { ReadsForm (base_in (option_map (λ c. c.now) base.entry)) form.now
        (option_map parts_of parts.entry) result }
{
    let found = form_stands(alloc, form, parts)?;
    if let Some(refusal) = refuse_form(alloc, base, form, parts, &found)? {
        return Err(DefFault::Refused(refusal));
    }
    let Some(parts) = parts else { unreachable!() };
    let language = checked(alloc, form, read_parts(alloc, base, parts)?)?;
    match refuse_escape(&found) {
        Some(refusal) => Err(DefFault::Refused(refusal)),
        None => Ok(language),
    }
}

/// The language of a `define-language` form.
pub fn read_language(alloc: Global, form: &Datum) -> Result<CheckedLang, DefFault>
    requires { IsReadable form.now }
    ensures { ReadsForm model.empty_language form.now (forms.language_form form.now) result }
{
    read_form(alloc, None, form, language_form(form))
}

/// The language of a `define-extended-language` form over the language that it names, whatever the name of that is.
pub fn extend(alloc: Global, base: &CheckedLang, form: &Datum) -> Result<CheckedLang, DefFault>
    requires { IsReadable form.now }
    ensures { ReadsForm (language_in base.now) form.now (forms.extension_form form.now) result }
{
    let base = Base::new(alloc, base)?;
    read_form(alloc, Some(&base), form, extension_form(form))
}
