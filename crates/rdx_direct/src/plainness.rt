// Whether a pattern binds nothing: neither names nor mismatch names.
ghost use Rattle.std.specs.Prelude.{IsTrue, map};
ghost use Rattle.rdx_lang.specs.PatternView.{pattern_of, slot_of, items_of};
ghost use Rattle.rdx_direct.specs.Inside.Going.{BindsNone};
ghost use Rattle.rdx_direct.specs.Inside.Plain as model;

use rdx_lang::{Item, Pat};

/// Whether the pattern binds nothing.
#[cycle(plain)]
pub(crate) fn is_plain(pat: &Pat) -> bool
    ensures { IsTrue result → IsTrue (model.is_plain (pattern_of pat.now)) }
{
    match pat {
        Pat::Wild
        | Pat::Kind(_)
        | Pat::Except(_)
        | Pat::Prefix(_)
        | Pat::Hole
        | Pat::Lit(_)
        | Pat::Nt(_)
        | Pat::Closed(_) => true,
        Pat::Named(_, _) | Pat::Differ(_, _) => false,
        Pat::InHole(left, right) => is_plain(left) && is_plain(right),
        Pat::HideHole(inner) => is_plain(inner),
        Pat::Seq(items) => are_plain(items),
    }
}

// Whether the item binds nothing.
#[cycle(plain)]
fn is_plain_item(item: &Item) -> bool
    ensures { IsTrue result → BindsNone (slot_of item.now) }
{
    match item {
        Item::One(pat) => is_plain(pat),
        Item::Many(pat, length) => length.is_none() && is_plain(pat),
    }
}

/// Whether the items bind nothing.
#[cycle(plain)]
pub(crate) fn are_plain(items: &[Item]) -> bool
    ensures { IsTrue result → IsTrue (model.are_plain (items_of (map slot_of items.now))) }
{
    for item in items {
        if !is_plain_item(item) {
            return false;
        }
    }
    true
}
