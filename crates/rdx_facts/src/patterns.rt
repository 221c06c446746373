// What the patterns of a language may do, where marks tell it of its nonterminals.
ghost use Rattle.std.specs.Prelude.{◌≡◌, map, slice_index_or};
ghost use Rattle.rdx_lang.specs.PatternView.{pattern_of, slot_of, items_of, language_of};
ghost use Rattle.rdx_facts.specs.Inside.Flags as model;

use crate::flags;
use rdx_lang::{Item, Language, May, Pat, Ref};

// The mark at this place; nothing where there is none.
fn mark_at(marks: &[May], place: usize) -> May
    ensures { result ≡ slice_index_or marks.now place model.nothing }
{
    match marks.get(place) {
        Some(may) => *may,
        None => flags::nothing(),
    }
}

// What the marks say of the nonterminal: those of its first definition.
pub(crate) fn nonterminal_may(language: &Language, marks: &[May], name: &Ref) -> May
    ensures { result ≡ model.may_by (language_of language.now) marks.now name.now }
{
    for (place, (other, _)) in language.nts.iter().enumerate() {
        if name.same(other) {
            return mark_at(marks, place);
        }
    }
    flags::nothing()
}

// What the pattern may do.
#[cycle(may)]
pub(crate) fn pattern_may(language: &Language, marks: &[May], pat: &Pat) -> May
    ensures { result ≡ model.may_of (model.may_by (language_of language.now) marks.now)
        (pattern_of pat.now) }
{
    match pat {
        Pat::Wild => flags::anything(),
        Pat::Kind(kind) => flags::kind(*kind),
        Pat::Except(_) | Pat::Prefix(_) => flags::atoms(),
        Pat::Hole => flags::hole(),
        Pat::Lit(term) => flags::literal(term),
        Pat::Nt(name) => nonterminal_may(language, marks, name),
        Pat::Named(_, inner) => flags::named(pattern_may(language, marks, inner)),
        Pat::Differ(_, inner) => flags::named(pattern_may(language, marks, inner)),
        Pat::InHole(left, right) => {
            let left = pattern_may(language, marks, left);
            let right = pattern_may(language, marks, right);
            flags::filled(left, right)
        }
        Pat::HideHole(inner) => flags::hidden(pattern_may(language, marks, inner)),
        Pat::Closed(inner) => flags::closed(pattern_may(language, marks, inner)),
        Pat::Seq(items) => items_may(language, marks, items),
    }
}

// What a list pattern of these items may do.
#[cycle(may)]
fn items_may(language: &Language, marks: &[May], items: &[Item]) -> May
    ensures { result ≡ model.items_may (model.may_by (language_of language.now) marks.now)
        model.empty (items_of (map slot_of items.now)) }
{
    let mut may = flags::empty();
    for item in items {
        match item {
            Item::One(pat) => {
                may = flags::with_one(may, pattern_may(language, marks, pat));
            }
            Item::Many(pat, length) => {
                may = flags::with_many(may, pattern_may(language, marks, pat), length.is_some());
            }
        }
    }
    may
}
