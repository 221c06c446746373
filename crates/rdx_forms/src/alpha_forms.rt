// Forms that ask under the binding forms of a language: their shape, their refusal and what they ask.
ghost use Rattle.std.specs.Prelude.{◌≡◌, Some, IfOk};
ghost use Rattle.rdx_patterns.specs.Parts.{text_of};
ghost use Rattle.rdx_patterns.specs.Readable.{IsReadable};
ghost use Rattle.rdx_forms.specs.Answers.{AlikeAskedBy, PutAskedBy};
ghost use Rattle.rdx_forms.specs.Faults.{IsRefusedBy};
ghost use Rattle.rdx_forms.specs.Inside.Asking.{AlikeFitsBy, PutFitsBy};
ghost use Rattle.rdx_forms.specs.KnownView.{known_of};
ghost use Rattle.rdx_forms.specs.LanguageForms.{unknown_at};

use crate::earlier::both;
use crate::host_forms::read_unbound;
use crate::known::Known;
use crate::lookup::place_named;
use crate::parts::{AlikeParts, PutParts, alike_parts, put_parts};
use crate::refusals::misshaped;
use rdx_lang::HostExpr;
use rdx_patterns::refusal::named;
use rdx_patterns::shape::text;
use rdx_patterns::{DefFault, DefKind};
use rdx_sexp::Datum;
use rdx_term::Name;
use std::alloc::Global;

/// Whether two terms are alpha equivalent is asked in the language of this name.
#[derive(Drop)]
pub struct Alike {
    pub name: Name,
    pub one: HostExpr,
    pub other: HostExpr,
}

/// What is asked where a value is put for a symbol in a term, in the language of this name.
#[derive(Drop)]
pub struct Putting {
    pub name: Name,
    pub whole: HostExpr,
    pub symbol: HostExpr,
    pub value: HostExpr,
}

// The name of a language, where it is known.
fn known_name(alloc: Global, known: &Known, language: &Datum) -> Result<Name, DefFault>
    ensures refused { IsRefusedBy (unknown_at (known_of known.now) (Some language.now)) result }
    ensures named { IfOk result (λ name. name ≡ text_of language.now) }
{
    match place_named(known, text(language)) {
        Some(place) => {
            let name = known.program.languages[place].language().name.share()?;
            Ok(name)
        }
        None => {
            let unknown = named(alloc, DefKind::UnknownLanguage, language)?;
            Err(DefFault::Refused(unknown))
        }
    }
}

// The parts of a form that asks whether terms are alpha equivalent, where it has them.
fn check_alike(form: &Datum) -> Result<AlikeParts<'_>, DefFault>
    ensures { AlikeFitsBy form.now result }
{
    let Some(parts) = alike_parts(form) else {
        return Err(DefFault::Refused(misshaped(form)));
    };
    Ok(parts)
}

/// What such a form asks, where this is known.
pub fn read_alike(alloc: Global, known: &Known, form: &Datum) -> Result<Alike, DefFault>
    requires { IsReadable form.now }
    ensures { AlikeAskedBy (known_of known.now) form.now result }
{
    let parts = check_alike(form)?;
    let name = known_name(alloc, known, parts.language);
    let one = read_unbound(alloc, &known.scope, parts.one);
    let other = read_unbound(alloc, &known.scope, parts.other);
    let hosts = both(one, other);
    let (name, hosts) = both(name, hosts)?;
    let (one, other) = hosts;
    Ok(Alike { name, one, other })
}

// The parts of a form that puts a term for a symbol, where it has them.
fn check_put(form: &Datum) -> Result<PutParts<'_>, DefFault>
    ensures { PutFitsBy form.now result }
{
    let Some(parts) = put_parts(form) else {
        return Err(DefFault::Refused(misshaped(form)));
    };
    Ok(parts)
}

/// What such a form asks, where this is known.
pub fn read_put(alloc: Global, known: &Known, form: &Datum) -> Result<Putting, DefFault>
    requires { IsReadable form.now }
    ensures { PutAskedBy (known_of known.now) form.now result }
{
    let parts = check_put(form)?;
    let name = known_name(alloc, known, parts.language);
    let whole = read_unbound(alloc, &known.scope, parts.whole);
    let symbol = read_unbound(alloc, &known.scope, parts.symbol);
    let value = read_unbound(alloc, &known.scope, parts.value);
    let inner = both(symbol, value);
    let hosts = both(whole, inner);
    let (name, hosts) = both(name, hosts)?;
    let (whole, inner) = hosts;
    let (symbol, value) = inner;
    Ok(Putting {
        name,
        whole,
        symbol,
        value,
    })
}
