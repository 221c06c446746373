//! A list pattern at a list, in three parts: the items before the first repetition, those from the
//! first repetition to the last, and those behind the last, each with the terms that are theirs.
ghost use Rattle.std.specs.Prelude.{◌≡◌, ◌≤◌, ◌+◌, true, IfSome, IsNone, length, map, take, drop};
ghost use Rattle.rdx_term.specs.View.{tree_of};
ghost use Rattle.rdx_lang.specs.Singles as singles;
ghost use Rattle.rdx_lang.specs.Singles.{are_single};
ghost use Rattle.rdx_lang.specs.PatternView.{pattern_of, slot_of, items_of};
ghost use Rattle.rdx_bind.specs.Parts as model;
ghost use Rattle.rdx_bind.specs.Parts.{IsCut, part_of};
ghost use Rattle.rdx_bind.specs.Searching.{item_pattern};

use rdx_lang::{Item, Pat};
use rdx_term::Term;

/// Some items of a list pattern, with the terms that they have to match.
#[derive(Clone, Copy)]
pub struct Part<'a> {
    /// The items.
    pub items: &'a [Item],
    /// The terms, in their order.
    pub terms: &'a [Term],
    /// The place of the first of the terms in the list.
    pub place: usize,
}

/// A list pattern at a list.
#[derive(Clone, Copy)]
pub struct Parts<'a> {
    /// The items before the first repetition, each with one term.
    pub before: Part<'a>,
    /// From the first repetition to the last; neither items nor terms where there is none.
    pub middle: Part<'a>,
    /// The items behind the last repetition, each with one term.
    pub behind: Part<'a>,
}

/// The pattern of an item.
pub fn pattern_in(item: &Item) -> &Pat
    ensures { pattern_of result.now ≡ item_pattern (slot_of item.now) }
{
    match item {
        Item::One(pat) | Item::Many(pat, _) => pat,
    }
}

// Whether the item is one term's.
fn is_single(item: &Item) -> bool
    ensures { result ≡ singles.is_single (slot_of item.now) }
{
    match item {
        Item::One(_) => true,
        Item::Many(_, _) => false,
    }
}

// How many items there are before the first repetition.
fn before_first(items: &[Item]) -> usize
    ensures within { result ≤ length items.now }
    ensures single { are_single (map slot_of (take result items.now)) ≡ true }
{
    let mut count = 0;
    while count < items.len() && is_single(&items[count]) {
        count += 1;
    }
    count
}

// The place behind the last repetition.
fn behind_last(items: &[Item]) -> usize
    ensures within { result ≤ length items.now }
    ensures single { are_single (map slot_of (drop result items.now)) ≡ true }
{
    let mut start = items.len();
    while start > 0 && is_single(&items[start - 1]) {
        start -= 1;
    }
    start
}

/// The parts of the items of a list pattern with those of the list; `None` where the term is no list,
/// or has too few terms for the items, or too many where none is repeated.
#[inline(never)]
pub fn parts_of<'a>(items: &'a [Item], t: &'a Term) -> Option<Parts<'a>>
    ensures some { IfSome result (λ parts. IsCut (map slot_of items.now) (tree_of t.now)
        (part_of parts.before) (part_of parts.middle) (part_of parts.behind)) }
    ensures first { IfSome result (λ parts. parts.before.place + length parts.before.terms.now ≤ usize.MAX) }
    ensures middle { IfSome result (λ parts. parts.middle.place + length parts.middle.terms.now ≤ usize.MAX) }
    ensures last { IfSome result (λ parts. parts.behind.place + length parts.behind.terms.now ≤ usize.MAX) }
    ensures none { IsNone result → model.CannotFit (map slot_of items.now) (tree_of t.now) }
{
    let terms = match t {
        Term::Hole | Term::Int(_) | Term::Bool(_) | Term::Str(_) | Term::Sym(_) => return None,
        Term::List(node) => node.items(),
    };
    let (before, others) = items.split_at(before_first(items));
    let (middle, behind) = others.split_at(behind_last(others));
    let singles = before.len() + behind.len();
    if terms.len() < singles {
        return None;
    }
    if middle.is_empty() && terms.len() > singles {
        return None;
    }
    let (firsts, rest) = terms.split_at(before.len());
    let (inner, lasts) = rest.split_at(rest.len() - behind.len());
    Some(Parts {
        before: Part {
            items: before,
            terms: firsts,
            place: 0,
        },
        middle: Part {
            items: middle,
            terms: inner,
            place: firsts.len(),
        },
        behind: Part {
            items: behind,
            terms: lasts,
            place: firsts.len() + inner.len(),
        },
    })
}
