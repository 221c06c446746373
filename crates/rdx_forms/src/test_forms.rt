// Forms of tests over host expressions, and the form that counts tests: their shape, their refusal and what they ask.
ghost use Rattle.std.specs.Prelude.{◌≡◌, Some, option_map};
ghost use Rattle.rdx_patterns.specs.Refusal.{refusal_of};
ghost use Rattle.rdx_patterns.specs.Readable.{IsReadable};
ghost use Rattle.rdx_templates.specs.Scope.{scope_of};
ghost use Rattle.rdx_forms.specs.Fitting.{AreReadable};
ghost use Rattle.rdx_forms.specs.Inside.Asking.{EqualFitsBy, LeadingFitsBy, ReadsHosts};
ghost use Rattle.rdx_forms.specs.Answers.{EqualAskedBy, LeadingAskedBy};
ghost use Rattle.rdx_forms.specs.Reported as refusals;
ghost use Rattle.rdx_forms.specs.Faults.{IsRefusedBy};
ghost use Rattle.rdx_forms.specs.KnownView.{known_of};
ghost use Rattle.rdx_forms.specs.TestForms.{results_refusal};

use crate::earlier::{both, earlier, first_fault};
use crate::host_forms::read_unbound;
use crate::known::Known;
use crate::lookup::relation_named;
use crate::parts::{EqualParts, LeadingParts, equal_parts, leading_parts};
use crate::refusals::misshaped;
use rdx_lang::HostExpr;
use rdx_patterns::refusal::named;
use rdx_patterns::shape::{items, text};
use rdx_patterns::{DefFault, DefKind, DefRefusal};
use rdx_sexp::Datum;
use rdx_templates::Scope;
use rdx_term::Name;
use std::alloc::Global;

/// What a test of two host expressions asks: whether they make the same.
#[derive(Drop)]
pub struct Same {
    pub found: HostExpr,
    pub wanted: HostExpr,
}

/// What a test of a relation asks: whether the one of this name leads from what a host expression
/// makes to what the others make.
#[derive(Drop)]
pub struct Leading {
    pub relation: Name,
    pub from: HostExpr,
    pub wanted: Vec<HostExpr>,
}

// The parts of a test of two host expressions, where it has them.
fn check_equal(form: &Datum) -> Result<EqualParts<'_>, DefFault>
    ensures { EqualFitsBy form.now result }
{
    let Some(parts) = equal_parts(form) else {
        return Err(DefFault::Refused(misshaped(form)));
    };
    Ok(parts)
}

/// What a test of two host expressions asks.
pub fn read_equal(alloc: Global, known: &Known, form: &Datum) -> Result<Same, DefFault>
    requires { IsReadable form.now }
    ensures { EqualAskedBy (known_of known.now) form.now result }
{
    let parts = check_equal(form)?;
    let found = read_unbound(alloc, &known.scope, parts.found);
    let wanted = read_unbound(alloc, &known.scope, parts.wanted);
    let (found, wanted) = both(found, wanted)?;
    Ok(Same { found, wanted })
}

// The parts of a test of a relation, where it has them.
fn check_leading(form: &Datum) -> Result<LeadingParts<'_>, DefFault>
    ensures { LeadingFitsBy form.now result }
{
    let Some(parts) = leading_parts(form) else {
        return Err(DefFault::Refused(misshaped(form)));
    };
    Ok(parts)
}

// Of two refusals, the first of which there may be, the one that is reported.
fn reported(one: Option<DefRefusal>, other: DefRefusal) -> DefRefusal
    ensures { Some (refusal_of result)
        ≡ refusals.earlier (option_map refusal_of one) (Some (refusal_of other)) }
{
    match one {
        Some(one) => earlier(one, other),
        None => other,
    }
}

// The host expressions of these data, where no name is bound.
fn read_hosts(alloc: Global, scope: &Scope, hosts: &[Datum]) -> Result<Vec<HostExpr>, DefFault>
    requires { AreReadable hosts.now }
    ensures { ReadsHosts (scope_of scope.now) hosts.now result }
{
    let mut read = Vec::new(alloc);
    let mut refusal = None;
    for host in hosts {
        match read_unbound(alloc, scope, host) {
            Ok(host) => read.push(host)?,
            Err(DefFault::Refused(other)) => refusal = Some(reported(refusal, other)),
            Err(DefFault::NoMemory) => return Err(DefFault::NoMemory),
        }
    }
    match refusal {
        Some(refusal) => Err(DefFault::Refused(refusal)),
        None => Ok(read),
    }
}

/// What a test of a relation asks, where this is known.
pub fn read_leading(alloc: Global, known: &Known, form: &Datum) -> Result<Leading, DefFault>
    requires { IsReadable form.now }
    ensures { LeadingAskedBy (known_of known.now) form.now result }
{
    let parts = check_leading(form)?;
    let from = read_unbound(alloc, &known.scope, parts.from);
    let hosts = both(from, read_hosts(alloc, &known.scope, parts.wanted));
    match relation_named(known, text(parts.relation)) {
        Some(relation) => {
            let (from, wanted) = hosts?;
            let relation = relation.name.share()?;
            Ok(Leading {
                relation,
                from,
                wanted,
            })
        }
        None => {
            let unknown = named(alloc, DefKind::UnknownName, parts.relation)?;
            Err(first_fault(unknown, hosts))
        }
    }
}

/// Lets a form pass that counts tests.
pub fn check_results(form: &Datum) -> Result<(), DefFault>
    ensures { IsRefusedBy (results_refusal form.now) result }
{
    match items(form) {
        Some([_]) => Ok(()),
        Some(_) | None => Err(DefFault::Refused(misshaped(form))),
    }
}
