// The cross nonterminals that forms ask for.
ghost use Rattle.std.specs.Prelude.{◌≡◌, OnErr, OnOk};
ghost use Rattle.rdx_lang.specs.Checked.{language_in};
ghost use Rattle.rdx_patterns.specs.Ends as asked;

use rdx_lang::CheckedLang;
use rdx_patterns::{add_crosses_for, ends_in};
use rdx_sexp::Datum;
use rdx_term::NoMemory;
use std::alloc::Global;

/// Gives the language the cross nonterminals that a datum asks for. Where there is no memory, it
/// stays.
pub(crate) fn add_asked(
    alloc: Global,
    language: &mut CheckedLang,
    d: &Datum,
) -> Result<(), NoMemory>
    ensures added { OnOk result (language_in language.new
        ≡ asked.crossed_for (asked.ends_in d.now) (language_in language.old)) }
    ensures same { OnErr result (language_in language.new ≡ language_in language.old) }
{
    let ends = ends_in(alloc, d)?;
    add_crosses_for(alloc, language, &ends)
}
