// Why a form that defines a language is refused.
ghost use Rattle.std.specs.Prelude.{◌≡◌, [], ◌∷◌, IfOk, option_map};
ghost use Rattle.rdx_grammar.specs.Inside.BaseView.{base_in};
ghost use Rattle.rdx_grammar.specs.Inside.BoundView.{BindNames};
ghost use Rattle.rdx_grammar.specs.Inside.CheckedForms.{AreNamedIn, AreShallowIn, AreSpelledIn};
ghost use Rattle.rdx_grammar.specs.Inside.PartViews.{parts_of};
ghost use Rattle.rdx_grammar.specs.Inside.StandView.{stands_of};
ghost use Rattle.rdx_patterns.specs.Refusal.{refusal_of, first_refusal};
ghost use Rattle.rdx_grammar.specs.Refused as model;
ghost use Rattle.rdx_grammar.specs.Stands as stands;

use crate::languages::bases::Base;
use crate::languages::checks::{
    first_bad_name, first_bad_pattern, first_depth_clash_in_form, first_escape_in_form,
    first_repeated, first_shape_fault,
};
use crate::languages::form_parts::FormParts;
use crate::languages::nonterminals::form_names;
use crate::languages::stands::Stand;
use rdx_patterns::refusal::{named, unnamed};
use rdx_patterns::{DefKind, DefRefusal, Names};
use rdx_sexp::Datum;
use rdx_term::{Name, NoMemory};
use std::alloc::Global;

// The refusal by the shape of what stands in a form, or by names there, if one refuses it.
fn refuse_early(alloc: Global, found: &[Stand]) -> Result<Option<DefRefusal>, NoMemory>
    ensures { IfOk result (λ r.
        option_map refusal_of r
        ≡ first_refusal (model.shape_at (stands_of found.now) ∷ model.duplicate_at (stands_of found.now)
        ∷ model.bad_name_at (stands_of found.now) ∷ [])) }
{
    if let Some(d) = first_shape_fault(found) {
        return Ok(Some(unnamed(DefKind::Shape, d)));
    }
    if let Some(d) = first_repeated(alloc, found)? {
        return Ok(Some(named(alloc, DefKind::Duplicate, d)?));
    }
    if let Some(d) = first_bad_name(found) {
        return Ok(Some(named(alloc, DefKind::BadName, d)?));
    }
    Ok(None)
}

// The refusal by what the patterns in a form mean over these nonterminals, if one refuses it.
fn refuse_late(
    alloc: Global,
    base: Option<&Base>,
    names: &Names,
    found: &[Stand],
) -> Result<Option<DefRefusal>, NoMemory>
    requires { BindNames names.now (stands_of found.now) }
    ensures { IfOk result (λ r.
        option_map refusal_of r
        ≡ first_refusal (model.bad_pattern_at (base_in (option_map (λ c. c.now) base.entry))
        names.now (stands_of found.now)
        ∷ model.depth_clash_at names.now (stands_of found.now) ∷ [])) }
{
    if let Some(d) = first_bad_pattern(base, names, found) {
        return Ok(Some(unnamed(DefKind::BadPattern, d)));
    }
    if let Some(d) = first_depth_clash_in_form(alloc, names, found)? {
        return Ok(Some(named(alloc, DefKind::EllipsisDepth, d)?));
    }
    Ok(None)
}

// The nonterminals of a form with these parts.
fn names_over(
    alloc: Global,
    base: Option<&Base>,
    parts: Option<FormParts<'_>>,
) -> Result<Vec<Name>, NoMemory>
    requires { AreNamedIn (option_map parts_of parts) }
    ensures { IfOk result (λ names.
        names.items
        ≡ model.names_over (base_in (option_map (λ c. c.now) base.entry))
        (option_map parts_of parts.entry)) }
{
    match parts {
        None => Ok(Vec::new(alloc)),
        Some(parts) => form_names(alloc, base, parts.definitions),
    }
}

/// The refusal by the check with the least number that refuses a form with these parts over a base, in which these stand, but for left
/// recursion and for what comes behind it.
pub(crate) fn refuse_form(
    alloc: Global,
    base: Option<&Base>,
    form: &Datum,
    parts: Option<FormParts<'_>>,
    found: &[Stand],
) -> Result<Option<DefRefusal>, NoMemory>
    requires spelled { AreSpelledIn (option_map parts_of parts) }
    requires shallow { AreShallowIn (option_map parts_of parts) }
    requires stands { stands_of found.now ≡ stands.form_stands form.now (option_map parts_of parts) }
    ensures { IfOk result (λ r.
        option_map refusal_of r
        ≡ model.refusal_over (base_in (option_map (λ c. c.now) base.entry)) form.now
        (option_map parts_of parts.entry)) }
{
    if let Some(refusal) = refuse_early(alloc, found)? {
        return Ok(Some(refusal));
    }
    let all = names_over(alloc, base, parts)?;
    let names = Names::new(alloc, all)?;
    refuse_late(alloc, base, &names, found)
}

/// The refusal by the first list that would ask Racket, which is looked for behind left recursion.
pub(crate) fn refuse_escape(found: &[Stand]) -> Option<DefRefusal>
    ensures { option_map refusal_of result ≡ model.escape_at (stands_of found.now) }
{
    match first_escape_in_form(found) {
        Some(d) => Some(unnamed(DefKind::RacketEscape, d)),
        None => None,
    }
}
