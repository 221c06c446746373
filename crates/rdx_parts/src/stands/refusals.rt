// Why a form of a relation, a metafunction or a judgement is refused.
ghost use Rattle.std.specs.Prelude.{◌≡◌, None, IfOk, option_map};
ghost use Rattle.rdx_patterns.specs.Refusal.{refusal_of};
ghost use Rattle.rdx_templates.specs.Scope.{scope_of};
ghost use Rattle.rdx_parts.specs.FormRefusals as forms;
ghost use Rattle.rdx_parts.specs.PartViews.{misfit_of, outline_of, stands_of};
ghost use Rattle.rdx_parts.specs.PartsHave.{OutlineHas, can_bind};
ghost use Rattle.rdx_parts.specs.StandChecks as model;

use crate::branches::Outline;
use crate::stands::checks::{
    Misfit, earliest_bad_name, earliest_misfit, earliest_repeated, earliest_shape_fault,
    earliest_unknown_name, label,
};
use crate::stands::collecting::Stand;
use crate::stands::faults::{Check, earliest_fault};
use rdx_patterns::refusal::{named, named_at, unnamed};
use rdx_patterns::shape::text;
use rdx_patterns::{DefKind, DefRefusal, Names};
use rdx_sexp::Datum;
use rdx_templates::Scope;
use rdx_term::NoMemory;
use rdx_term::printing::print_string;
use rdx_term::spelling::is_symbol;
use std::alloc::Global;

// The refusal of a second case or rule with one name, or of a name to be made, which is printed as
// a symbol or a string.
fn repeated_at(alloc: Global, d: &Datum) -> Result<DefRefusal, NoMemory>
    ensures { IfOk result (λ r. refusal_of r ≡ model.repeated_at d.now) }
{
    let name = label(d);
    if is_symbol(name) {
        return named_at(alloc, DefKind::Duplicate, d, name);
    }
    let mut printed = Vec::new(alloc);
    print_string(name.as_bytes(), &mut printed)?;
    match std::str::from_utf8(&printed) {
        Ok(name) => named_at(alloc, DefKind::Duplicate, d, name),
        Err(_) => unreachable!(),
    }
}

// The refusal by the checks of shape and of names, if one refuses what stands in a form.
fn refuse_early(
    alloc: Global,
    names: &Names,
    found: &[Stand],
) -> Result<Option<DefRefusal>, NoMemory>
    ensures { IfOk result (λ r.
        option_map refusal_of r ≡ forms.early_refusal names.now (stands_of found.now)) }
{
    if let Some(d) = earliest_shape_fault(found) {
        return Ok(Some(unnamed(DefKind::Shape, d)));
    }
    if let Some(d) = earliest_repeated(alloc, names, found)? {
        return Ok(Some(repeated_at(alloc, d)?));
    }
    if let Some(d) = earliest_bad_name(found) {
        return Ok(Some(named(alloc, DefKind::BadName, d)?));
    }
    Ok(None)
}

// The refusal of what does not fit a mode, by the name of the judgement, where there is one.
fn misfit_at(alloc: Global, misfit: Misfit<'_>) -> Result<DefRefusal, NoMemory>
    ensures { IfOk result (λ r. refusal_of r ≡ model.misfit_at (misfit_of misfit.entry)) }
{
    match misfit.judgement {
        Some(judgement) => named_at(alloc, DefKind::Mode, misfit.datum, text(judgement)),
        None => Ok(unnamed(DefKind::Mode, misfit.datum)),
    }
}

// The refusal by the check of modes, if it refuses what stands in a form.
fn refuse_modes(alloc: Global, found: &[Stand]) -> Result<Option<DefRefusal>, NoMemory>
    ensures { IfOk result (λ r.
        option_map refusal_of r ≡ model.mode_fault_at (stands_of found.now)) }
{
    match earliest_misfit(found) {
        Some(misfit) => Ok(Some(misfit_at(alloc, misfit)?)),
        None => Ok(None),
    }
}

// The refusal by the checks of patterns, depths, names, ellipses, escapes and modes, if one refuses
// a form of this outline, in which these stand.
fn refuse_late(
    alloc: Global,
    scope: &Scope,
    names: &Names,
    found: &[Stand],
    outline: &Outline,
) -> Result<Option<DefRefusal>, NoMemory>
    requires { OutlineHas (scope_of scope.now) (can_bind names.now) (outline_of outline.now) }
    ensures { IfOk result (λ r.
        option_map refusal_of r
        ≡ forms.late_refusal (scope_of scope.now) names.now (stands_of found.now)
        (outline_of outline.now)) }
{
    if let Some(d) = earliest_fault(alloc, Check::Places, scope, names, outline)? {
        return Ok(Some(unnamed(DefKind::BadPattern, d)));
    }
    if let Some(d) = earliest_fault(alloc, Check::Depths, scope, names, outline)? {
        return Ok(Some(named(alloc, DefKind::EllipsisDepth, d)?));
    }
    if let Some(d) = earliest_unknown_name(scope, found) {
        return Ok(Some(named(alloc, DefKind::UnknownName, d)?));
    }
    if let Some(d) = earliest_fault(alloc, Check::Driving, scope, names, outline)? {
        return Ok(Some(unnamed(DefKind::EllipsisVariable, d)));
    }
    if let Some(d) = earliest_fault(alloc, Check::Escapes, scope, names, outline)? {
        return Ok(Some(unnamed(DefKind::RacketEscape, d)));
    }
    refuse_modes(alloc, found)
}

/// The refusal by the check with the least number that refuses a form of this outline, in which
/// these stand, in a file of this scope, over these nonterminals.
pub fn refuse_parts(
    alloc: Global,
    scope: &Scope,
    names: &Names,
    found: &[Stand],
    outline: &Outline,
) -> Result<Option<DefRefusal>, NoMemory>
    requires { forms.early_refusal names.now (stands_of found.now) ≡ None
        → OutlineHas (scope_of scope.now) (can_bind names.now) (outline_of outline.now) }
    ensures { IfOk result (λ r.
        option_map refusal_of r
        ≡ forms.form_refusal (scope_of scope.now) names.now (stands_of found.now)
        (outline_of outline.now)) }
{
    if let Some(refusal) = refuse_early(alloc, names, found)? {
        return Ok(Some(refusal));
    }
    refuse_late(alloc, scope, names, found, outline)
}
