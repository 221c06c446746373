// Why a template or a host expression is refused.
ghost use Rattle.std.specs.Prelude.{◌≡◌, IfOk, option_map};
ghost use Rattle.rdx_patterns.specs.Readable.{IsReadable};
ghost use Rattle.rdx_patterns.specs.Refusal.{refusal_of};
ghost use Rattle.rdx_templates.specs.Inside.PartRefusal as inside;
ghost use Rattle.rdx_templates.specs.Inside.PartView.{parts_of};
ghost use Rattle.rdx_templates.specs.Scope.{scope_of};
ghost use Rattle.rdx_templates.specs.TemplateRefusal as model;

use crate::Scope;
use crate::templates::bound::Bound;
use crate::templates::checks::{earliest_bad_part, earliest_escape, earliest_shallow_part};
use crate::templates::driving::{driving_of, driving_of_host};
use crate::templates::parts::TemplatePart;
use crate::templates::places::{in_host, in_template};
use crate::templates::shapes::{shape_in_host, shape_in_template};
use rdx_patterns::refusal::{named, unnamed};
use rdx_patterns::{DefKind, DefRefusal};
use rdx_sexp::Datum;
use rdx_term::NoMemory;
use std::alloc::Global;

// The refusal by the check behind the first with the least number, of what stands in a template and
// of the earliest item whose ellipsis nothing drives.
fn refuse_late(
    alloc: Global,
    bound: &Bound<'_>,
    undriven: Option<&Datum>,
    found: &[TemplatePart],
) -> Result<Option<DefRefusal>, NoMemory>
    ensures { IfOk result (λ r.
        option_map refusal_of r
        ≡ inside.late_refusal bound.now (option_map (λ d. d.now) undriven.entry)
        (parts_of found.now)) }
{
    if let Some(d) = earliest_bad_part(found) {
        return Ok(Some(unnamed(DefKind::BadPattern, d)));
    }
    if let Some(d) = earliest_shallow_part(bound, found) {
        return Ok(Some(named(alloc, DefKind::EllipsisDepth, d)?));
    }
    if let Some(d) = undriven {
        return Ok(Some(unnamed(DefKind::EllipsisVariable, d)));
    }
    if let Some(d) = earliest_escape(found) {
        return Ok(Some(unnamed(DefKind::RacketEscape, d)));
    }
    Ok(None)
}

/// The refusal by the check with the least number that refuses a template in this scope, where
/// these names are bound.
pub(crate) fn refuse_template(
    alloc: Global,
    scope: &Scope,
    bound: &Bound<'_>,
    d: &Datum,
) -> Result<Option<DefRefusal>, NoMemory>
    requires { IsReadable d.now }
    ensures { IfOk result (λ r. option_map refusal_of r
        ≡ model.template_refusal (scope_of scope.now) bound.now d.now) }
{
    if let Some(d) = shape_in_template(d) {
        return Ok(Some(unnamed(DefKind::Shape, d)));
    }
    let found = in_template(alloc, scope, bound, d)?;
    refuse_late(alloc, bound, driving_of(scope, bound, d).undriven, &found)
}

/// The refusal by the check with the least number that refuses a host expression in this scope,
/// where these names are bound.
pub(crate) fn refuse_host(
    alloc: Global,
    scope: &Scope,
    bound: &Bound<'_>,
    d: &Datum,
) -> Result<Option<DefRefusal>, NoMemory>
    requires { IsReadable d.now }
    ensures { IfOk result (λ r. option_map refusal_of r
        ≡ model.host_refusal (scope_of scope.now) bound.now d.now) }
{
    if let Some(d) = shape_in_host(d) {
        return Ok(Some(unnamed(DefKind::Shape, d)));
    }
    let found = in_host(alloc, scope, bound, d)?;
    refuse_late(
        alloc,
        bound,
        driving_of_host(scope, bound, d).undriven,
        &found,
    )
}
