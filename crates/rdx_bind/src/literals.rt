//! The symbols that a language has as literals.
ghost use Rattle.std.specs.Prelude.{◌≡◌, map};
ghost use Rattle.rdx_lang.specs.Literals as literals;
ghost use Rattle.rdx_lang.specs.PatternView.{pattern_of, patterns_of, language_of, slot_of, items_of};
ghost use Rattle.rdx_term.specs.View.{tree_of};

use rdx_lang::{Item, Language, Pat};
use rdx_term::{Name, Term};

// Whether the term is this symbol.
fn is_symbol(name: &Name, t: &Term) -> bool
    ensures { result ≡ literals.is_symbol name.now (tree_of t.now) }
{
    match t {
        Term::Sym(symbol) => symbol.text() == name.text(),
        Term::Hole | Term::Int(_) | Term::Bool(_) | Term::Str(_) | Term::List(_) => false,
    }
}

// Whether the symbol is a literal in the pattern, however deep.
#[cycle(mentions)]
fn mentions(name: &Name, pat: &Pat) -> bool
    ensures { result ≡ literals.mentions name.now (pattern_of pat.now) }
{
    match pat {
        Pat::Wild | Pat::Kind(_) | Pat::Except(_) | Pat::Prefix(_) | Pat::Hole | Pat::Nt(_) =>
            false,
        Pat::Lit(literal) => is_symbol(name, literal),
        Pat::Named(_, inner) | Pat::Differ(_, inner) | Pat::HideHole(inner) | Pat::Closed(inner) =>
            mentions(name, inner),
        Pat::InHole(left, right) => mentions(name, left) || mentions(name, right),
        Pat::Seq(items) => items_mention(name, items),
    }
}

#[cycle(mentions)]
fn items_mention(name: &Name, items: &[Item]) -> bool
    ensures { result ≡ literals.items_mention name.now (items_of (map slot_of items.now)) }
{
    for item in items {
        let (Item::One(pat) | Item::Many(pat, _)) = item;
        if mentions(name, pat) {
            return true;
        }
    }
    false
}

// Whether one of the patterns has it.
fn any_mentions(name: &Name, pats: &[Pat]) -> bool
    ensures { result ≡ literals.any_mentions name.now (patterns_of pats.now) }
{
    for pat in pats {
        if mentions(name, pat) {
            return true;
        }
    }
    false
}

/// Whether an alternative of the language has the symbol as a literal.
pub fn is_mentioned(language: &Language, name: &Name) -> bool
    ensures { result ≡ literals.is_mentioned (language_of language.now) name.now }
{
    for (_, alternatives) in &language.nts {
        if any_mentions(name, alternatives) {
            return true;
        }
    }
    false
}
