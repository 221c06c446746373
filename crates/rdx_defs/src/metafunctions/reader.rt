// Metafunctions over languages.
ghost use Rattle.std.specs.Prelude.{◌≡◌, Some, IfOk, IsTrue};
ghost use Rattle.rdx_lang.specs.Checked.{language_in};
ghost use Rattle.rdx_lang.specs.ProgramView.{metafunction_of};
ghost use Rattle.rdx_lang.specs.Valid.{is_valid_metafunction};
ghost use Rattle.rdx_patterns.specs.Ends.{Gained, ends_in};
ghost use Rattle.rdx_patterns.specs.Nonterminals.{names_of};
ghost use Rattle.rdx_patterns.specs.Readable.{IsReadable};
ghost use Rattle.rdx_defs.specs.Answers.{ReadsMetafunction};
ghost use Rattle.rdx_templates.specs.Scope.{callable, scope_of};

use crate::crosses::add_asked;
use crate::metafunctions::forms::{function_in, metafunction_form};
use crate::metafunctions::readings::read_parts;
use crate::metafunctions::stands::{function_stands, metafunction_outline};
use rdx_lang::{CheckedLang, Metafunction};
use rdx_parts::stands::refusals::refuse_parts;
use rdx_patterns::refusal::unnamed;
use rdx_patterns::{DefFault, DefKind, Names};
use rdx_relations::refuse_over;
use rdx_sexp::Datum;
use rdx_templates::Scope;
use std::alloc::Global;

/// As [`read_metafunction`], over a language with nonterminals of these names.
pub fn read_metafunction_over(
    alloc: Global,
    scope: &Scope,
    language: &mut CheckedLang,
    names: &Names,
    form: &Datum,
) -> Result<Metafunction, DefFault>
    requires readable { IsReadable form.now }
    requires names { names.now ≡ names_of (language_in language.old) }
    ensures reads { ReadsMetafunction (scope_of scope.now) (names_of (language_in language.old))
        form.now result }
    ensures gains { Gained (language_in language.old) (ends_in form.now) result
        (language_in language.new) }
    ensures valid { IfOk result (λ f.
        IsTrue (is_valid_metafunction (callable (scope_of scope.now))
        (Some (language_in language.new)) (metafunction_of f))) }
{
    let Some(parts) = metafunction_form(form) else {
        return Err(DefFault::Refused(unnamed(DefKind::Shape, form)));
    };
    let function = function_in(parts);
    let outline = metafunction_outline(alloc, parts, function)?;
    let found = function_stands(alloc, scope, parts, function, &outline)?;
    let refusal = refuse_parts(alloc, scope, names, &found, &outline)?;
    if let Some(refusal) = refuse_over(alloc, parts.language, refusal)? {
        return Err(DefFault::Refused(refusal));
    }
    let Some(name) = function else { unreachable!() };
    add_asked(alloc, language, form)?;
    Ok(read_parts(alloc, scope, language, names, parts, name, &outline)?)
}

/// The metafunction that a `define-metafunction` form stands for over a language, whatever the name
/// of that is.
pub fn read_metafunction(
    alloc: Global,
    scope: &Scope,
    language: &mut CheckedLang,
    form: &Datum,
) -> Result<Metafunction, DefFault>
    requires { IsReadable form.now }
    ensures reads { ReadsMetafunction (scope_of scope.now) (names_of (language_in language.old))
        form.now result }
    ensures gains { Gained (language_in language.old) (ends_in form.now) result
        (language_in language.new) }
    ensures valid { IfOk result (λ f.
        IsTrue (is_valid_metafunction (callable (scope_of scope.now))
        (Some (language_in language.new)) (metafunction_of f))) }
{
    let names = Names::of_language(alloc, language)?;
    read_metafunction_over(alloc, scope, language, &names, form)
}
