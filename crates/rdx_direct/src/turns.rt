// What a repetition binds, given to bindings that are there.
ghost use Rattle.std.specs.Prelude.{◌≡◌, IfOk, IsTrue, map, true};
ghost use Rattle.rdx_lang.specs.Ascending.{IsAscending};
ghost use Rattle.rdx_lang.specs.Bindings.{bound_names, name_cmp};
ghost use Rattle.rdx_lang.specs.Collections.{IsRepetition};
ghost use Rattle.rdx_lang.specs.Collecting.{HasExactly};
ghost use Rattle.rdx_lang.specs.Singles as singles;
ghost use Rattle.rdx_lang.specs.Members.{In};
ghost use Rattle.rdx_lang.specs.PatternView.{slot_of};
ghost use Rattle.rdx_lang.specs.Shown.{bindings_of};
ghost use Rattle.rdx_direct.specs.Inside.Going.{Goes};

use crate::joined::with_binding;
use crate::named::with_value;
use rdx_bind::collect;
use rdx_lang::{Binding, Item, Pat, Value};
use rdx_term::{Name, NoMemory};
use std::alloc::Global;

// Whether the item is one term's.
fn is_single(item: &Item) -> bool
    ensures { result ≡ singles.is_single (slot_of item.now) }
{
    match item {
        Item::One(_) => true,
        Item::Many(_, _) => false,
    }
}

/// Whether each of the items is one term's.
pub(crate) fn are_single(items: &[Item]) -> bool
    ensures { IsTrue result → singles.are_single (map slot_of items.now) ≡ true }
{
    for item in items {
        if !is_single(item) {
            return false;
        }
    }
    true
}

// Whether more than one of the items is a repetition.
fn have_repetitions(items: &[Item]) -> bool {
    let mut one = false;
    for item in items {
        if !is_single(item) {
            if one {
                return true;
            }
            one = true;
        }
    }
    false
}

/// Whether the pattern may match in many ways by its own form, so that it is walked after others.
pub(crate) fn is_hard(pat: &Pat) -> bool {
    match pat {
        Pat::InHole(_, _) => true,
        Pat::Seq(items) => have_repetitions(items),
        Pat::Named(_, part) | Pat::Differ(_, part) => is_hard(part),
        Pat::Wild
        | Pat::Kind(_)
        | Pat::Except(_)
        | Pat::Prefix(_)
        | Pat::Hole
        | Pat::Lit(_)
        | Pat::Nt(_)
        | Pat::HideHole(_)
        | Pat::Closed(_) => false,
    }
}

/// The joins of each of the bindings with what a repetition binds whose turns bind these; none where
/// a mismatch name has a term in two of the turns.
pub(crate) fn with_turns(
    alloc: Global,
    given: Vec<Binding>,
    names: &[Name],
    length: &Option<Name>,
    turns: &[Binding],
) -> Result<Vec<Binding>, NoMemory>
    requires ascending { IsAscending name_cmp names.now }
    requires bound { (b : _) → In b (bindings_of turns.now) → bound_names b ≡ names.now }
    ensures { IfOk result (λ found. HasExactly (bindings_of found.items)
        (Goes (IsRepetition names.now (bindings_of turns.now) length.now) (bindings_of
        given.items))) }
{
    let Some(collected) = collect(alloc, names, turns)? else {
        return Ok(Vec::new(alloc));
    };
    let found = with_binding(alloc, given, &collected)?;
    match length {
        None => Ok(found),
        Some(name) => with_value(alloc, found, name, &Value::Len(turns.len())),
    }
}
