// Forms that match a pattern against a term or split the term by it: their shape, their refusal and what they ask.
ghost use Rattle.std.specs.Prelude.{◌≡◌, ◌<◌, length, get_or};
ghost use Rattle.rdx_lang.specs.Checked.{language_in};
ghost use Rattle.rdx_lang.specs.declared.checked.CheckedLang.{CheckedLang};
ghost use Rattle.rdx_patterns.specs.Answers.{ReadsPattern};
ghost use Rattle.rdx_patterns.specs.Nonterminals.{names_of};
ghost use Rattle.rdx_patterns.specs.Readable.{IsReadable};
ghost use Rattle.rdx_patterns.specs.Ends.{ends_in};
ghost use Rattle.rdx_patterns.specs.Among.{AreAmong};
ghost use Rattle.rdx_forms.specs.Fitting.{AreCrossed};
ghost use Rattle.rdx_forms.specs.Inside.Asking.{FitsBy};
ghost use Rattle.rdx_forms.specs.Answers.{AsksBy};
ghost use Rattle.rdx_forms.specs.KnownView.{known_of};

use crate::earlier::{both, first_fault};
use crate::host_forms::read_unbound;
use crate::known::Known;
use crate::language_forms::empty_language;
use crate::lookup::place_named;
use crate::parts::{QueryParts, query_parts};
use crate::refusals::misshaped;
use rdx_lang::{CheckedPat, HostExpr};
use rdx_patterns::refusal::{named, unnamed};
use rdx_patterns::shape::{is_symbol, text};
use rdx_patterns::{DefFault, DefKind, read_pattern, read_pattern_over};
use rdx_sexp::Datum;
use rdx_term::Name;
use std::alloc::Global;

/// What a query asks: for a pattern and what a host expression makes, in the language of this name.
#[derive(Drop)]
pub struct Asked {
    pub name: Name,
    pub pat: CheckedPat,
    pub host: HostExpr,
}

// The parts of the query, where it has them.
fn check_shape(form: &Datum) -> Result<QueryParts<'_>, DefFault>
    ensures { FitsBy form.now result }
{
    let Some(parts) = query_parts(form) else {
        return Err(DefFault::Refused(misshaped(form)));
    };
    if !is_symbol(parts.language) {
        return Err(DefFault::Refused(unnamed(DefKind::Shape, form)));
    }
    Ok(parts)
}

/// The pattern of a datum over the language at this place.
pub(crate) fn read_over(
    alloc: Global,
    known: &mut Known,
    place: usize,
    d: &Datum,
) -> Result<CheckedPat, DefFault>
    requires within { place < length known.old.program.languages.items }
    requires readable { IsReadable d.now }
    requires crossed { AreCrossed (known_of known.old).program.languages
        (known_of known.old).ends }
    requires ends { AreAmong (ends_in d.now) (known_of known.old).ends }
    ensures reads { (l : CheckedLang) → l ≡ get_or known.old.program.languages.items place l
        → ReadsPattern (names_of (language_in l)) d.now result }
    ensures same { known_of known.new ≡ known_of known.old }
{
    let language = &mut known.program.languages[place];
    read_pattern_over(alloc, language, &known.tables.nonterminals[place], d)
}

/// What a query asks, where this is known.
pub fn read_query(alloc: Global, known: &mut Known, form: &Datum) -> Result<Asked, DefFault>
    requires readable { IsReadable form.now }
    requires crossed { AreCrossed (known_of known.old).program.languages
        (known_of known.old).ends }
    requires ends { AreAmong (ends_in form.now) (known_of known.old).ends }
    ensures asks { AsksBy (known_of known.old) form.now result }
    ensures same { known_of known.new ≡ known_of known.old }
{
    let parts = check_shape(form)?;
    match place_named(known, text(parts.language)) {
        Some(place) => {
            let name = known.program.languages[place].language().name.share()?;
            let host = read_unbound(alloc, &known.scope, parts.host);
            let (pat, host) = both(read_over(alloc, known, place, parts.pattern), host)?;
            Ok(Asked { name, pat, host })
        }
        None => {
            let mut empty = empty_language(alloc)?;
            let unknown = named(alloc, DefKind::UnknownLanguage, parts.language)?;
            let pat = read_pattern(alloc, &mut empty, parts.pattern);
            let host = read_unbound(alloc, &known.scope, parts.host);
            Err(first_fault(unknown, both(pat, host)))
        }
    }
}
