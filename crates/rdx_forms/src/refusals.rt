// Refusals of a form that has not its shape, and of the names in forms.
ghost use Rattle.std.specs.Prelude.{◌≡◌, ◌∷◌, [], Some, IfOk, option_map};
ghost use Rattle.rdx_patterns.specs.Refusal.{first_refusal, refusal_of};
ghost use Rattle.rdx_patterns.specs.Refusal as places;
ghost use Rattle.rdx_patterns.specs.declared.shape.fault.DefKind.TheVariants.{Shape};
ghost use Rattle.rdx_forms.specs.LanguageForms.{unknown_at};
ghost use Rattle.rdx_forms.specs.Inside.Defining.{taken_at_item};
ghost use Rattle.rdx_forms.specs.KnownView.{known_of};

use crate::known::Known;
use crate::lookup::{is_taken, place_named};
use rdx_patterns::refusal::{named, unnamed};
use rdx_patterns::shape::text;
use rdx_patterns::{DefKind, DefRefusal};
use rdx_sexp::Datum;
use rdx_term::NoMemory;
use std::alloc::Global;

/// The refusal of a form that has not its shape, S1.
pub(crate) fn misshaped(form: &Datum) -> DefRefusal
    ensures { refusal_of result ≡ places.unnamed Shape form.now }
{
    unnamed(DefKind::Shape, form)
}

/// The refusal of a name that is that of no language, S2.
pub(crate) fn refuse_language(
    alloc: Global,
    known: &Known,
    name: Option<&Datum>,
) -> Result<Option<DefRefusal>, NoMemory>
    ensures { IfOk result (λ r. option_map refusal_of r
        ≡ unknown_at (known_of known.now) (option_map (λ d. d.now) name.entry)) }
{
    let Some(name) = name else {
        return Ok(None);
    };
    if place_named(known, text(name)).is_some() {
        return Ok(None);
    }
    Ok(Some(named(alloc, DefKind::UnknownLanguage, name)?))
}

/// The refusal of a name that an earlier form has, S3.
pub(crate) fn refuse_taken(
    alloc: Global,
    known: &Known,
    name: Option<&Datum>,
) -> Result<Option<DefRefusal>, NoMemory>
    ensures { IfOk result (λ r. option_map refusal_of r
        ≡ taken_at_item (known_of known.now) (option_map (λ d. d.now) name.entry)) }
{
    let Some(name) = name else {
        return Ok(None);
    };
    if is_taken(known, text(name)) {
        Ok(Some(named(alloc, DefKind::Duplicate, name)?))
    } else {
        Ok(None)
    }
}

/// The refusal of the names in a form that defines a metafunction or a judgement, of the language's
/// first.
pub(crate) fn refuse_names(
    alloc: Global,
    known: &Known,
    language: Option<&Datum>,
    name: Option<&Datum>,
) -> Result<Option<DefRefusal>, NoMemory>
    ensures { IfOk result (λ r. option_map refusal_of r ≡ first_refusal
        (unknown_at (known_of known.now) (option_map (λ d. d.now) language.entry)
        ∷ taken_at_item (known_of known.now) (option_map (λ d. d.now) name.entry) ∷ [])) }
{
    match refuse_language(alloc, known, language)? {
        Some(refusal) => Ok(Some(refusal)),
        None => refuse_taken(alloc, known, name),
    }
}
