// Templates and host expressions where names are bound.
ghost use Rattle.std.specs.Prelude.{IfOk, IsTrue};
ghost use Rattle.rdx_patterns.specs.Readable.{IsReadable};
ghost use Rattle.rdx_lang.specs.Fitting.{fits, fits_in};
ghost use Rattle.rdx_lang.specs.TemplateView.{template_of, host_of};
ghost use Rattle.rdx_templates.specs.Answers.{ReadsTemplate, ReadsHost};
ghost use Rattle.rdx_templates.specs.Bound.{is_bound};
ghost use Rattle.rdx_templates.specs.Scope.{has_metafunction, scope_of};

use crate::Scope;
use crate::templates::bound::Bound;
use crate::templates::readings::{read_datum, read_host_datum};
use crate::templates::refusals::{refuse_host, refuse_template};
use rdx_lang::{HostExpr, Template};
use rdx_patterns::DefFault;
use rdx_sexp::Datum;
use rdx_term::Name;
use std::alloc::Global;

// The template of a datum where these names are bound.
fn template_over(
    alloc: Global,
    scope: &Scope,
    bound: &Bound<'_>,
    d: &Datum,
) -> Result<Template, DefFault>
    requires { IsReadable d.now }
    ensures reads { ReadsTemplate (scope_of scope.now) bound.now d.now result }
    ensures fits { IfOk result (λ t. IsTrue (fits (has_metafunction (scope_of scope.now))
        (is_bound bound.now) 0 (template_of t))) }
{
    if let Some(refusal) = refuse_template(alloc, scope, bound, d)? {
        return Err(DefFault::Refused(refusal));
    }
    Ok(read_datum(alloc, scope, bound, d)?)
}

// The host expression of a datum where these names are bound.
fn host_over(
    alloc: Global,
    scope: &Scope,
    bound: &Bound<'_>,
    d: &Datum,
) -> Result<HostExpr, DefFault>
    requires { IsReadable d.now }
    ensures reads { ReadsHost (scope_of scope.now) bound.now d.now result }
    ensures fits { IfOk result (λ h. IsTrue (fits_in (has_metafunction (scope_of scope.now))
        (is_bound bound.now) 0 (host_of h))) }
{
    if let Some(refusal) = refuse_host(alloc, scope, bound, d)? {
        return Err(DefFault::Refused(refusal));
    }
    Ok(read_host_datum(alloc, scope, bound, d)?)
}

/// The template of a datum in a file of this scope, where these names are bound, each with its
/// depth. Where a name is bound more than once, its first depth counts.
pub fn read_template(
    alloc: Global,
    scope: &Scope,
    bound: &[(Name, u32)],
    d: &Datum,
) -> Result<Template, DefFault>
    requires { IsReadable d.now }
    ensures reads { ReadsTemplate (scope_of scope.now) bound.now d.now result }
    ensures fits { IfOk result (λ t. IsTrue (fits (has_metafunction (scope_of scope.now))
        (is_bound bound.now) 0 (template_of t))) }
{
    let bound = Bound::of(alloc, bound)?;
    template_over(alloc, scope, &bound, d)
}

/// The host expression of a datum in a file of this scope, where these names are bound, each with
/// its depth. Where a name is bound more than once, its first depth counts.
pub fn read_host(
    alloc: Global,
    scope: &Scope,
    bound: &[(Name, u32)],
    d: &Datum,
) -> Result<HostExpr, DefFault>
    requires { IsReadable d.now }
    ensures reads { ReadsHost (scope_of scope.now) bound.now d.now result }
    ensures fits { IfOk result (λ h. IsTrue (fits_in (has_metafunction (scope_of scope.now))
        (is_bound bound.now) 0 (host_of h))) }
{
    let bound = Bound::of(alloc, bound)?;
    host_over(alloc, scope, &bound, d)
}
