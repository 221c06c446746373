// Forms that ask for the steps of a relation: their shape, their refusal and what they ask.
ghost use Rattle.rdx_patterns.specs.Readable.{IsReadable};
ghost use Rattle.rdx_forms.specs.Inside.Asking.{StepFitsBy};
ghost use Rattle.rdx_forms.specs.Answers.{StepsAskedBy};
ghost use Rattle.rdx_forms.specs.KnownView.{known_of};

use crate::earlier::first_fault;
use crate::host_forms::read_unbound;
use crate::known::Known;
use crate::lookup::relation_named;
use crate::parts::{StepParts, step_parts};
use crate::refusals::misshaped;
use rdx_lang::HostExpr;
use rdx_patterns::refusal::{named, unnamed};
use rdx_patterns::shape::{is_symbol, text};
use rdx_patterns::{DefFault, DefKind};
use rdx_sexp::Datum;
use rdx_term::Name;
use std::alloc::Global;

/// What such a form asks: for steps of the relation of this name from what a host expression makes.
#[derive(Drop)]
pub struct Stepping {
    pub relation: Name,
    pub host: HostExpr,
}

// The parts of such a form, where it has them.
fn check_shape(form: &Datum) -> Result<StepParts<'_>, DefFault>
    ensures { StepFitsBy form.now result }
{
    let Some(parts) = step_parts(form) else {
        return Err(DefFault::Refused(misshaped(form)));
    };
    if !is_symbol(parts.relation) {
        return Err(DefFault::Refused(unnamed(DefKind::Shape, form)));
    }
    Ok(parts)
}

/// What such a form asks, where this is known.
pub fn read_steps(alloc: Global, known: &Known, form: &Datum) -> Result<Stepping, DefFault>
    requires { IsReadable form.now }
    ensures { StepsAskedBy (known_of known.now) form.now result }
{
    let parts = check_shape(form)?;
    let host = read_unbound(alloc, &known.scope, parts.host);
    match relation_named(known, text(parts.relation)) {
        Some(relation) => {
            let host = host?;
            let relation = relation.name.share()?;
            Ok(Stepping { relation, host })
        }
        None => {
            let unknown = named(alloc, DefKind::UnknownName, parts.relation)?;
            Err(first_fault(unknown, host))
        }
    }
}
