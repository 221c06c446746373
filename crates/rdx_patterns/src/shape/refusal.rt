//! What a refusal at a datum says.
ghost use Rattle.std.specs.Prelude.{◌≡◌, IfOk};
ghost use Rattle.rdx_patterns.specs.Refusal as model;

use crate::shape::{DefKind, DefRefusal, text};
use rdx_sexp::Datum;
use rdx_term::NoMemory;
use std::alloc::Global;
use std::rc::RcStr;

/// A refusal at a datum, without a name.
pub fn unnamed(kind: DefKind, d: &Datum) -> DefRefusal
    ensures { model.refusal_of result ≡ model.unnamed kind d.now }
{
    DefRefusal {
        kind,
        place: d.span.start,
        name: None,
    }
}

/// A refusal at a datum, with a name.
pub fn named_at(alloc: Global, kind: DefKind, d: &Datum, name: &str) -> Result<DefRefusal, NoMemory>
    ensures { IfOk result (λ r. model.refusal_of r ≡ model.named_at kind d.now name.now) }
{
    let name = RcStr::from_str(alloc, name)?;
    Ok(DefRefusal {
        kind,
        place: d.span.start,
        name: Some(name),
    })
}

/// A refusal at a symbol, by its name.
pub fn named(alloc: Global, kind: DefKind, d: &Datum) -> Result<DefRefusal, NoMemory>
    ensures { IfOk result (λ r. model.refusal_of r ≡ model.named kind d.now) }
{
    named_at(alloc, kind, d, text(d))
}
