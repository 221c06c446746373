// The earliest place in a template or a host expression at which a check behind the first refuses it.
ghost use Rattle.std.specs.Prelude.{◌≡◌, IfOk, option_map};
ghost use Rattle.rdx_patterns.specs.Readable.{IsReadable};
ghost use Rattle.rdx_templates.specs.Earliest.{earliest, start};
ghost use Rattle.rdx_templates.specs.Inside.PartView.{parts_of, unrepeated};
ghost use Rattle.rdx_templates.specs.Scope.{scope_of};
ghost use Rattle.rdx_templates.specs.TemplateChecks as model;
ghost use Rattle.rdx_templates.specs.TemplateOccurrences.{template_parts, host_parts};

use crate::Scope;
use crate::templates::bound::Bound;
use crate::templates::checks::{earliest_bad_part, earliest_escape, earliest_shallow_part};
use crate::templates::parts::{TemplatePart, add_host, add_template};
use rdx_sexp::Datum;
use rdx_term::NoMemory;
use std::alloc::Global;

/// What stands in a template, without the items that an ellipsis repeats.
pub(crate) fn in_template<'a>(
    alloc: Global,
    scope: &Scope,
    bound: &Bound<'_>,
    d: &'a Datum,
) -> Result<Vec<TemplatePart<'a>>, NoMemory>
    requires { IsReadable d.now }
    ensures { IfOk result (λ found. parts_of found.items
        ≡ unrepeated (template_parts (scope_of scope.now) bound.now 0 d.now)) }
{
    let mut found = Vec::new(alloc);
    add_template(scope, bound, 0, d, &mut found)?;
    Ok(found)
}

/// What stands in a host expression, without the items that an ellipsis repeats.
pub(crate) fn in_host<'a>(
    alloc: Global,
    scope: &Scope,
    bound: &Bound<'_>,
    d: &'a Datum,
) -> Result<Vec<TemplatePart<'a>>, NoMemory>
    requires { IsReadable d.now }
    ensures { IfOk result (λ found. parts_of found.items
        ≡ unrepeated (host_parts (scope_of scope.now) bound.now 0 d.now)) }
{
    let mut found = Vec::new(alloc);
    add_host(scope, bound, 0, d, &mut found)?;
    Ok(found)
}

/// The earliest part of a template that means nothing.
pub fn bad_in_template<'a>(
    alloc: Global,
    scope: &Scope,
    bound: &Bound<'_>,
    d: &'a Datum,
) -> Result<Option<&'a Datum>, NoMemory>
    requires { IsReadable d.now }
    ensures { IfOk result (λ r. option_map (λ d. d.now) r
        ≡ earliest start (model.bad_parts (template_parts (scope_of scope.now) bound.now 0 d.now))) }
{
    let found = in_template(alloc, scope, bound, d)?;
    Ok(earliest_bad_part(&found))
}

/// The earliest part of a host expression that means nothing.
pub fn bad_in_host<'a>(
    alloc: Global,
    scope: &Scope,
    bound: &Bound<'_>,
    d: &'a Datum,
) -> Result<Option<&'a Datum>, NoMemory>
    requires { IsReadable d.now }
    ensures { IfOk result (λ r. option_map (λ d. d.now) r
        ≡ earliest start (model.bad_parts (host_parts (scope_of scope.now) bound.now 0 d.now))) }
{
    let found = in_host(alloc, scope, bound, d)?;
    Ok(earliest_bad_part(&found))
}

/// The earliest name in a template that stands under fewer ellipses than its depth.
pub fn shallow_in_template<'a>(
    alloc: Global,
    scope: &Scope,
    bound: &Bound<'_>,
    d: &'a Datum,
) -> Result<Option<&'a Datum>, NoMemory>
    requires { IsReadable d.now }
    ensures { IfOk result (λ r. option_map (λ d. d.now) r
        ≡ earliest start (model.shallow_parts bound.now
        (template_parts (scope_of scope.now) bound.now 0 d.now))) }
{
    let found = in_template(alloc, scope, bound, d)?;
    Ok(earliest_shallow_part(bound, &found))
}

/// The earliest name in a host expression that stands under fewer ellipses than its depth.
pub fn shallow_in_host<'a>(
    alloc: Global,
    scope: &Scope,
    bound: &Bound<'_>,
    d: &'a Datum,
) -> Result<Option<&'a Datum>, NoMemory>
    requires { IsReadable d.now }
    ensures { IfOk result (λ r. option_map (λ d. d.now) r
        ≡ earliest start (model.shallow_parts bound.now
        (host_parts (scope_of scope.now) bound.now 0 d.now))) }
{
    let found = in_host(alloc, scope, bound, d)?;
    Ok(earliest_shallow_part(bound, &found))
}

/// The earliest part of a template that would ask Racket.
pub fn escape_in_template<'a>(
    alloc: Global,
    scope: &Scope,
    bound: &Bound<'_>,
    d: &'a Datum,
) -> Result<Option<&'a Datum>, NoMemory>
    requires { IsReadable d.now }
    ensures { IfOk result (λ r. option_map (λ d. d.now) r
        ≡ earliest start (model.escapes (template_parts (scope_of scope.now) bound.now 0 d.now))) }
{
    let found = in_template(alloc, scope, bound, d)?;
    Ok(earliest_escape(&found))
}

/// The earliest part of a host expression that would ask Racket.
pub fn escape_in_host<'a>(
    alloc: Global,
    scope: &Scope,
    bound: &Bound<'_>,
    d: &'a Datum,
) -> Result<Option<&'a Datum>, NoMemory>
    requires { IsReadable d.now }
    ensures { IfOk result (λ r. option_map (λ d. d.now) r
        ≡ earliest start (model.escapes (host_parts (scope_of scope.now) bound.now 0 d.now))) }
{
    let found = in_host(alloc, scope, bound, d)?;
    Ok(earliest_escape(&found))
}
