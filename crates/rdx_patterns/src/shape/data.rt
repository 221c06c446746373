// The outer shape of data.
ghost use Rattle.std.specs.Prelude.{◌≡◌, option_map};
ghost use Rattle.std.specs.Rc.{rc_str_bytes};
ghost use Rattle.rdx_patterns.specs.Parts as parts;

use rdx_sexp::{Datum, Form};
use std::rc::RcStr;

/// The parts of a list.
pub fn items(d: &Datum) -> Option<&[Datum]>
    ensures { option_map (λ items. items.now) result ≡ parts.parts d.now }
{
    match &d.form {
        Form::List(items) => Some(items.as_slice()),
        _ => None,
    }
}

/// The text of a symbol.
pub fn symbol(d: &Datum) -> Option<&RcStr>
    ensures { option_map (λ text. rc_str_bytes text.now) result ≡ parts.symbol_text d.now }
{
    match &d.form {
        Form::Sym(text) => Some(text),
        _ => None,
    }
}

/// The text of a datum that is a symbol, and none of another.
pub fn text(d: &Datum) -> &str
    ensures { result.now ≡ parts.text_of d.now }
{
    match &d.form {
        Form::Sym(text) => text.as_str(),
        _ => "",
    }
}

/// Whether the datum is a symbol.
pub fn is_symbol(d: &Datum) -> bool
    ensures { result ≡ parts.is_symbol d.now }
{
    matches!(&d.form, Form::Sym(_))
}

/// Whether the datum is the symbol of this text.
pub fn is_word(d: &Datum, word: &str) -> bool
    ensures { result ≡ parts.is_word word.now d.now }
{
    match &d.form {
        Form::Sym(text) => text.as_str() == word,
        _ => false,
    }
}

/// Whether all of these are symbols.
pub fn are_symbols(items: &[Datum]) -> bool
    ensures { result ≡ parts.are_symbols items.now }
{
    for d in items {
        if !is_symbol(d) {
            return false;
        }
    }
    true
}
