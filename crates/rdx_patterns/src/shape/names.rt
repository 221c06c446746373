//! The names that patterns and languages are built from.
ghost use Rattle.std.specs.List.{starts_with};
ghost use Rattle.std.specs.Prelude.{◌≡◌, nat_eq, codes};
ghost use Rattle.rdx_patterns.specs.Names as words;

/// Whether a suffix begins somewhere.
pub fn has_suffix(text: &str) -> bool
    ensures { result ≡ words.has_suffix text.now }
{
    text.as_bytes().iter().any(|byte| *byte == b'_')
}

/// The text before the first `_`, which is all of it where there is none.
pub(crate) fn front(text: &str) -> &str
    ensures { result.now ≡ words.front text.now }
{
    match text.split_once('_') {
        Some((front, _)) => front,
        None => text,
    }
}

// Whether this stands first in the text.
fn begins_with(text: &str, word: &str) -> bool
    ensures { result ≡ starts_with nat_eq text.now word.now }
{
    text.starts_with(word)
}

/// Whether the first `_` begins `_!_`: behind what patterns are built from, the symbol is a mismatch name.
pub(crate) fn is_mismatch(text: &str) -> bool
    ensures { result ≡ words.is_mismatch text.now }
{
    match text.split_once('_') {
        Some((_, behind)) => begins_with(behind, "!_"),
        None => false,
    }
}

/// Whether an ellipsis stands first.
pub fn begins_with_dots(text: &str) -> bool
    ensures { result ≡ words.begins_with_dots text.now }
{
    begins_with(text, "...")
}

/// Whether it is an ellipsis: `...` alone, or with a name for the number of turns behind `..._`.
pub(crate) fn is_ellipsis(text: &str) -> bool
    ensures { result ≡ words.is_ellipsis text.now }
{
    text == "..." || (begins_with(text, "..._") && !begins_with(text, "..._!_"))
}

/// Whether the word means something else in patterns or definitions.
pub fn is_kept(text: &str) -> bool
    ensures { result ≡ words.is_one_of words.kept_words text.now }
{
    matches!(
        text,
        "hole"
            | "name"
            | "in-hole"
            | "hide-hole"
            | "cross"
            | "variable-except"
            | "variable-prefix"
            | "side-condition"
            | "::="
    )
}

/// Whether neither what a form defines nor what is bound may have this name.
pub fn is_bad_name(text: &str) -> bool
    ensures { result ≡ words.is_bad_name text.now }
{
    text == "hole" || text == "_" || begins_with_dots(text)
}

// Whether `_!_` stands in the text.
fn has_mismatch_mark(text: &str) -> bool
    ensures { result ≡ words.occurs_in (codes "_!_") text.now }
{
    text.contains("_!_")
}

/// Whether nothing that is bound by `(name x p)` or `fresh` may have this name.
pub fn is_bad_bound(text: &str) -> bool
    ensures { result ≡ words.is_bad_bound text.now }
{
    is_bad_name(text) || has_mismatch_mark(text)
}
