// The parts of a binding form.
ghost use Rattle.std.specs.Prelude.{◌≡◌, map, false};
ghost use Rattle.std.specs.List.{list_any};
ghost use Rattle.rdx_sexp.specs.Sexp.{sexps};
ghost use Rattle.rdx_alpha.specs.Written as model;

use rdx_patterns::shape::{is_symbol, is_word, text};
use rdx_sexp::{Datum, Form};

// Whether the datum is this keyword.
pub(crate) fn is_key(d: &Datum, word: &str) -> bool
    ensures { result ≡ model.is_key word.now d.now }
{
    match &d.form {
        Form::Key(text) => text.as_str() == word,
        _ => false,
    }
}

// Whether a keyword stands in the datum.
#[cycle(keyword)]
pub(crate) fn has_keyword(d: &Datum) -> bool
    ensures { result ≡ model.has_keyword d.now }
{
    match &d.form {
        Form::Key(_) => true,
        Form::List(items) => has_keywords(items.as_slice()),
        Form::Int(_) | Form::Bool(_) | Form::Str(_) | Form::Sym(_) => false,
    }
}

// Whether one stands in some of these.
#[cycle(keyword)]
fn has_keywords(items: &[Datum]) -> bool
    ensures { result ≡ model.has_keywords (sexps items.now) }
{
    for item in items {
        if has_keyword(item) {
            return true;
        }
    }
    false
}

// Whether the datum is `...`.
fn is_ellipsis(d: &Datum) -> bool
    ensures { result ≡ model.is_ellipsis d.now }
{
    is_word(d, "...")
}

// Whether the datum is a symbol other than `...`.
pub(crate) fn is_name(d: &Datum) -> bool
    ensures { result ≡ model.is_name d.now }
{
    is_symbol(d) && !is_ellipsis(d)
}

// Whether these are symbols, each of which one `...` may follow.
fn are_names(items: &[Datum]) -> bool
    ensures { result ≡ model.are_names false items.now }
{
    let mut dots = false;
    for item in items {
        if is_ellipsis(item) {
            if !dots {
                return false;
            }
            dots = false;
        } else {
            if !is_symbol(item) {
                return false;
            }
            dots = true;
        }
    }
    true
}

// Whether these are `shadow` and such symbols.
fn is_shadow(items: &[Datum]) -> bool
    ensures { result ≡ model.is_shadow items.now }
{
    match items.split_first() {
        Some((first, names)) => is_word(first, "shadow") && are_names(names),
        None => false,
    }
}

// Whether a body may refer so: by a symbol, or by `(shadow s ...)`.
pub(crate) fn is_reference(d: &Datum) -> bool
    ensures { result ≡ model.is_reference d.now }
{
    match &d.form {
        Form::List(items) => is_shadow(items.as_slice()),
        _ => is_name(d),
    }
}

// Whether the datum is a symbol with the text of one of these.
pub(crate) fn is_one_of(names: &[&Datum], d: &Datum) -> bool
    ensures { result ≡ model.is_one_of (map (λ n. n.now) names.now) d.now }
{
    if !is_symbol(d) {
        return false;
    }
    for name in names {
        if text(d) == text(name) {
            return true;
        }
    }
    false
}
