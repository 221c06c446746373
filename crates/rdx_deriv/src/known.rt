// Whether the nonterminals that stand in a pattern are the language's.
ghost use Rattle.std.specs.Prelude.{◌≡◌, map};
ghost use Rattle.rdx_lang.specs.PatternView.{pattern_of, slot_of, items_of, definition_of, language_of};
ghost use Rattle.rdx_lang.specs.References as references;
ghost use Rattle.rdx_lang.specs.WellFormed as wanted;

use rdx_lang::{Item, Language, Pat, Ref};

// Whether the nonterminal is the language's.
fn is_defined(language: &Language, name: &Ref) -> bool
    ensures { result ≡ references.is_among name.now (wanted.defined (language_of language.now)) }
{
    for (defined, _) in &language.nts {
        if name.same(defined) {
            return true;
        }
    }
    false
}

// Whether each nonterminal that stands in the pattern is.
#[cycle(known)]
pub(crate) fn has_known_nonterminals(language: &Language, pat: &Pat) -> bool
    ensures { result ≡ wanted.has_known_nonterminals (wanted.defined (language_of language.now))
        (pattern_of pat.now) }
{
    match pat {
        Pat::Wild | Pat::Kind(_) | Pat::Except(_) | Pat::Prefix(_) | Pat::Hole | Pat::Lit(_) =>
            true,
        Pat::Nt(name) => is_defined(language, name),
        Pat::Named(_, inner) | Pat::Differ(_, inner) | Pat::HideHole(inner) | Pat::Closed(inner) =>
            has_known_nonterminals(language, inner),
        Pat::InHole(left, right) => {
            has_known_nonterminals(language, left) && has_known_nonterminals(language, right)
        }
        Pat::Seq(items) => have_known_nonterminals(language, items),
    }
}

// Whether each that stands in the items is.
#[cycle(known)]
fn have_known_nonterminals(language: &Language, items: &[Item]) -> bool
    ensures { result ≡ wanted.have_known_nonterminals (wanted.defined (language_of language.now))
        (items_of (map slot_of items.now)) }
{
    for item in items {
        let (Item::One(pat) | Item::Many(pat, _)) = item;
        if !has_known_nonterminals(language, pat) {
            return false;
        }
    }
    true
}
