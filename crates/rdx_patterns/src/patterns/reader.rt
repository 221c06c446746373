// Patterns outside grammars.
ghost use Rattle.std.specs.Prelude.{◌≡◌, IfOk, OnOk, OnErr};
ghost use Rattle.rdx_lang.specs.Checked.{language_in};
ghost use Rattle.rdx_patterns.specs.Answers.{IsWellFormedIn, ReadsPattern};
ghost use Rattle.rdx_patterns.specs.Ends.{crossed_for, ends_in};
ghost use Rattle.rdx_patterns.specs.Nonterminals.{names_of};
ghost use Rattle.rdx_patterns.specs.Readable.{IsReadable};

use crate::crosses::known_with_crosses;
use crate::patterns::ends::{ends_in, known_ends};
use crate::patterns::names::Names;
use crate::patterns::position::Position;
use crate::patterns::readings::read_datum;
use crate::patterns::refusals::refuse_pattern;
use crate::shape::DefFault;
use rdx_lang::{CheckedLang, CheckedPat};
use rdx_sexp::Datum;
use std::alloc::Global;

/// As [`read_pattern`], over a language with nonterminals of these names.
pub fn read_pattern_over(
    alloc: Global,
    language: &mut CheckedLang,
    names: &Names,
    d: &Datum,
) -> Result<CheckedPat, DefFault>
    requires readable { IsReadable d.now }
    requires names { names.now ≡ names_of (language_in language.old) }
    ensures reads { ReadsPattern (names_of (language_in language.old)) d.now result }
    ensures gains { OnOk result
        (language_in language.new ≡ crossed_for (ends_in d.now) (language_in language.old)) }
    ensures same { OnErr result (language_in language.new ≡ language_in language.old) }
    ensures well_formed { IfOk result (λ c. IsWellFormedIn (language_in language.new) c) }
{
    if let Some(refusal) = refuse_pattern(alloc, names, d)? {
        return Err(DefFault::Refused(refusal));
    }
    let pattern = read_datum(alloc, names, Position::Query, d)?;
    let asked = ends_in(alloc, d)?;
    let ends = known_ends(alloc, names, &asked)?;
    Ok(known_with_crosses(alloc, language, &ends, pattern)?)
}

/// The pattern of a datum outside grammars, over a language. Where the pattern speaks of cross
/// nonterminals, the language gains all to the same ends.
pub fn read_pattern(
    alloc: Global,
    language: &mut CheckedLang,
    d: &Datum,
) -> Result<CheckedPat, DefFault>
    requires { IsReadable d.now }
    ensures reads { ReadsPattern (names_of (language_in language.old)) d.now result }
    ensures gains { OnOk result
        (language_in language.new ≡ crossed_for (ends_in d.now) (language_in language.old)) }
    ensures same { OnErr result (language_in language.new ≡ language_in language.old) }
    ensures well_formed { IfOk result (λ c. IsWellFormedIn (language_in language.new) c) }
{
    let names = Names::of_language(alloc, language)?;
    read_pattern_over(alloc, language, &names, d)
}
