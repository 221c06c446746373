// The parts of forms that define languages.
ghost use Rattle.std.specs.Prelude.{◌≡◌, option_map};
ghost use Rattle.rdx_grammar.specs.Forms as model;
ghost use Rattle.rdx_grammar.specs.Inside.PartViews.{parts_of};

use rdx_patterns::shape::{is_symbol, is_word, items};
use rdx_sexp::Datum;

/// The name of a language, and the definitions of its nonterminals.
#[derive(Clone, Copy)]
pub(crate) struct FormParts<'a> {
    pub(crate) name: &'a Datum,
    pub(crate) definitions: &'a [Datum],
}

/// The parts of a `define-language` form.
pub(crate) fn language_form(d: &Datum) -> Option<FormParts<'_>>
    ensures { option_map parts_of result ≡ model.language_form d.now }
{
    let [head, name, definitions @ ..] = items(d)? else {
        return None;
    };
    if is_word(head, "define-language") && is_symbol(name) {
        Some(FormParts { name, definitions })
    } else {
        None
    }
}

/// The parts of a `define-extended-language` form.
pub(crate) fn extension_form(d: &Datum) -> Option<FormParts<'_>>
    ensures { option_map parts_of result ≡ model.extension_form d.now }
{
    let [head, name, base, definitions @ ..] = items(d)? else {
        return None;
    };
    if is_word(head, "define-extended-language") && is_symbol(name) && is_symbol(base) {
        Some(FormParts { name, definitions })
    } else {
        None
    }
}
