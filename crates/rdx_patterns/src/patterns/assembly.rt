// Patterns put together from the names and the patterns among the items of a list.
ghost use Rattle.std.specs.Prelude.{◌≡◌, IfOk, map, option_map};
ghost use Rattle.rdx_lang.specs.PatternView.{pattern_of, slot_of, items_of};
ghost use Rattle.rdx_lang.specs.Patterns.{named, differ};
ghost use Rattle.rdx_patterns.specs.HeadView.{head_view};
ghost use Rattle.rdx_patterns.specs.Reading as model;
ghost use Rattle.rdx_patterns.specs.Inside.Slots.{just_in};

use crate::patterns::heads::Head;
use rdx_lang::{Item, Pat, Ref};
use rdx_term::{Name, NoMemory};
use std::alloc::Global;

/// The pattern, bound to a name.
pub(crate) fn named(alloc: Global, name: Name, inner: Pat) -> Result<Pat, NoMemory>
    ensures { IfOk result (λ pat. pattern_of pat ≡ named name (pattern_of inner)) }
{
    Ok(Pat::Named(name, Box::new(alloc, inner)?))
}

/// The pattern under a mismatch name.
pub(crate) fn differ(alloc: Global, name: Name, inner: Pat) -> Result<Pat, NoMemory>
    ensures { IfOk result (λ pat. pattern_of pat ≡ differ name (pattern_of inner)) }
{
    Ok(Pat::Differ(name, Box::new(alloc, inner)?))
}

// The name of a list of one.
fn only_name(mut names: Vec<Name>) -> Option<Name>
    ensures { result ≡ model.only names.items }
{
    if names.len() == 1 { names.pop() } else { None }
}

// The pattern of an item that is there and is no repetition.
fn unrepeated(item: Option<Item>) -> Option<Pat>
    ensures { option_map pattern_of result ≡ just_in (option_map slot_of item) }
{
    match item {
        Some(Item::One(pat)) => Some(pat),
        Some(Item::Many(_, _)) | None => None,
    }
}

// The pattern of a list of one item.
fn only_item(mut items: Vec<Item>) -> Option<Pat>
    ensures { option_map pattern_of result ≡ model.only_item (items_of (map slot_of items.items)) }
{
    if items.len() != 1 {
        return None;
    }
    unrepeated(items.pop())
}

// The pattern bound to the name, where there are both.
fn bound_to(alloc: Global, name: Option<Name>, inner: Option<Pat>) -> Result<Pat, NoMemory>
    ensures { IfOk result (λ pat.
        pattern_of pat ≡ model.bound_to name (option_map pattern_of inner)) }
{
    let Some(name) = name else {
        return Ok(Pat::Wild);
    };
    match inner {
        Some(inner) => named(alloc, name, inner),
        None => Ok(Pat::Wild),
    }
}

// The patterns of a list of two items.
fn only_items(mut items: Vec<Item>) -> Option<(Pat, Pat)>
    ensures { option_map (λ ps. (pattern_of ps.0, pattern_of ps.1)) result
        ≡ model.only_items (items_of (map slot_of items.items)) }
{
    let right = unrepeated(items.pop())?;
    let left = only_item(items)?;
    Some((left, right))
}

// The pattern for contexts with the one for what stands in their hole, where there are both.
fn split_by(alloc: Global, parts: Option<(Pat, Pat)>) -> Result<Pat, NoMemory>
    ensures { IfOk result (λ pat.
        pattern_of pat
        ≡ model.split_by (option_map (λ ps. (pattern_of ps.0, pattern_of ps.1)) parts)) }
{
    match parts {
        Some((left, right)) => Ok(Pat::InHole(Box::new(alloc, left)?, Box::new(alloc, right)?)),
        None => Ok(Pat::Wild),
    }
}

// The pattern with its contexts hidden, where there is one.
fn hidden(alloc: Global, inner: Option<Pat>) -> Result<Pat, NoMemory>
    ensures { IfOk result (λ pat.
        pattern_of pat ≡ model.hidden (option_map pattern_of inner)) }
{
    match inner {
        Some(inner) => Ok(Pat::HideHole(Box::new(alloc, inner)?)),
        None => Ok(Pat::Wild),
    }
}

// The contexts from the nonterminal of this name to itself, where there is one.
fn across_itself(name: Option<Name>) -> Result<Pat, NoMemory>
    ensures { IfOk result (λ pat. pattern_of pat ≡ model.across_itself name) }
{
    match name {
        Some(name) => Ok(Pat::Nt(Ref::Cross(name.share()?, name))),
        None => Ok(Pat::Wild),
    }
}

/// A list with such a head, of these names and items.
pub(crate) fn assembled(
    alloc: Global,
    head: Head,
    names: Vec<Name>,
    items: Vec<Item>,
) -> Result<Pat, NoMemory>
    ensures { IfOk result (λ pat.
        pattern_of pat
        ≡ model.assembled (head_view head) names.items (items_of (map slot_of items.items))) }
{
    match head {
        Head::Naming => bound_to(alloc, only_name(names), only_item(items)),
        Head::Avoiding => Ok(Pat::Except(names)),
        Head::Prefixing => match only_name(names) {
            Some(name) => Ok(Pat::Prefix(name)),
            None => Ok(Pat::Wild),
        },
        Head::Splitting => split_by(alloc, only_items(items)),
        Head::Hiding => hidden(alloc, only_item(items)),
        Head::Crossing => across_itself(only_name(names)),
        Head::Escaping => Ok(Pat::Wild),
        Head::Plain => Ok(Pat::Seq(items)),
    }
}
