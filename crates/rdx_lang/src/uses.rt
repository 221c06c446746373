// The uses of names in a pattern, and whether they fit together.
ghost use Rattle.std.specs.Prelude.{◌≡◌, ◌+◌, ◌≤◌, ◌&&◌, ◌++◌, min, IfOk, OnOk, map};
ghost use Rattle.std.specs.List.{list_all};
ghost use Rattle.rdx_lang.specs.Depths as model;
ghost use Rattle.rdx_lang.specs.PatternView.{pattern_of, slot_of, items_of};
ghost use Rattle.rdx_lang.specs.Inside.Capped.{capped_uses, uses_in};

use crate::depths::Depths;
use crate::{Item, Pat};
use rdx_term::{Name, NoMemory};
use std::alloc::Global;

// The depths that a name may have are below this.
const DEPTH_LIMIT: usize = 4_294_967_296;

/// One place at which a name is bound. Depths are counted up to the limit.
#[derive(Clone, Copy)]
pub(crate) struct Use<'a> {
    pub(crate) name: &'a Name,
    pub(crate) depth: usize,
    pub(crate) is_length: bool,
}

// One repetition more, counted up to the limit.
fn deeper(depth: usize) -> usize
    ensures { result ≡ min (depth + 1) model.depth_limit }
{
    if depth < DEPTH_LIMIT {
        depth + 1
    } else {
        DEPTH_LIMIT
    }
}

// Adds the use of the length name of a repetition, where it has one.
fn add_length_use<'a>(
    length: &'a Option<Name>,
    depth: usize,
    out: &mut Vec<Use<'a>>,
) -> Result<(), NoMemory>
    requires { depth ≤ model.depth_limit }
    ensures { OnOk result (uses_in out.new.items
        ≡ uses_in out.old.items ++ capped_uses (model.length_use depth length.now)) }
{
    if let Some(name) = length {
        out.push(Use {
            name,
            depth,
            is_length: true,
        })?;
    }
    Ok(())
}

/// Adds the uses in a pattern around which so many repetitions stand.
#[cycle(uses)]
pub(crate) fn add_uses<'a>(
    pat: &'a Pat,
    depth: usize,
    out: &mut Vec<Use<'a>>,
) -> Result<(), NoMemory>
    requires { depth ≤ model.depth_limit }
    ensures { OnOk result (uses_in out.new.items
        ≡ uses_in out.old.items ++ capped_uses (model.uses depth (pattern_of pat.now))) }
{
    match pat {
        Pat::Wild
        | Pat::Kind(_)
        | Pat::Except(_)
        | Pat::Prefix(_)
        | Pat::Hole
        | Pat::Lit(_)
        | Pat::Nt(_)
        | Pat::Closed(_) => Ok(()),
        Pat::Named(name, inner) => {
            out.push(Use {
                name,
                depth,
                is_length: false,
            })?;
            add_uses(inner, depth, out)
        }
        Pat::InHole(left, right) => {
            add_uses(left, depth, out)?;
            add_uses(right, depth, out)
        }
        Pat::Differ(_, inner) | Pat::HideHole(inner) => add_uses(inner, depth, out),
        Pat::Seq(items) => add_item_uses(items, depth, out),
    }
}

// Adds the uses in the items.
#[cycle(uses)]
fn add_item_uses<'a>(
    items: &'a [Item],
    depth: usize,
    out: &mut Vec<Use<'a>>,
) -> Result<(), NoMemory>
    requires { depth ≤ model.depth_limit }
    ensures { OnOk result (uses_in out.new.items
        ≡ uses_in out.old.items ++ capped_uses (model.item_uses depth (items_of (map slot_of items.now)))) }
{
    for item in items {
        match item {
            Item::One(pat) => add_uses(pat, depth, out)?,
            Item::Many(pat, length) => {
                add_uses(pat, deeper(depth), out)?;
                add_length_use(length, depth, out)?;
            }
        }
    }
    Ok(())
}

// Whether all depths are below the limit, each name has one, and none is a length name as well.
fn do_agree(alloc: Global, uses: &[Use<'_>]) -> Result<bool, NoMemory>
    ensures { IfOk result (λ fit. fit ≡ (model.all_agree (uses_in uses.now)
        && list_all model.is_shallow (uses_in uses.now))) }
{
    let mut depths = Depths::new(alloc);
    for one in uses {
        if one.depth >= DEPTH_LIMIT || !depths.meet(one.name, one.depth, one.is_length)? {
            return Ok(false);
        }
    }
    Ok(true)
}

/// Whether each name that the pattern binds has one depth, below the limit, and none is a length
/// name as well.
pub(crate) fn has_one_depth_each(alloc: Global, pat: &Pat) -> Result<bool, NoMemory>
    ensures { IfOk result (λ fits. fits ≡ model.has_one_depth_each (pattern_of pat.now)) }
{
    let mut uses = Vec::new(alloc);
    add_uses(pat, 0, &mut uses)?;
    do_agree(alloc, &uses)
}

// Whether the names of each closed pattern in the pattern fit together.
#[cycle(closed_parts)]
fn closed_parts_fit(alloc: Global, pat: &Pat) -> Result<bool, NoMemory>
    ensures { IfOk result (λ fit. fit ≡ model.closed_parts_fit (pattern_of pat.now)) }
{
    match pat {
        Pat::Wild
        | Pat::Kind(_)
        | Pat::Except(_)
        | Pat::Prefix(_)
        | Pat::Hole
        | Pat::Lit(_)
        | Pat::Nt(_) => Ok(true),
        Pat::Named(_, inner) | Pat::Differ(_, inner) | Pat::HideHole(inner) => {
            closed_parts_fit(alloc, inner)
        }
        Pat::InHole(left, right) => {
            Ok(closed_parts_fit(alloc, left)? && closed_parts_fit(alloc, right)?)
        }
        Pat::Closed(inner) => {
            Ok(has_one_depth_each(alloc, inner)? && closed_parts_fit(alloc, inner)?)
        }
        Pat::Seq(items) => closed_items_fit(alloc, items),
    }
}

// Whether those of each in the items do.
#[cycle(closed_parts)]
fn closed_items_fit(alloc: Global, items: &[Item]) -> Result<bool, NoMemory>
    ensures { IfOk result (λ fit. fit ≡ model.closed_items_fit (items_of (map slot_of items.now))) }
{
    for item in items {
        let (Item::One(pat) | Item::Many(pat, _)) = item;
        if !closed_parts_fit(alloc, pat)? {
            return Ok(false);
        }
    }
    Ok(true)
}

/// Whether the names of the pattern fit together, and those of each closed pattern in it.
pub(crate) fn has_fitting_names(alloc: Global, pat: &Pat) -> Result<bool, NoMemory>
    ensures { IfOk result (λ fit. fit ≡ model.has_fitting_names (pattern_of pat.now)) }
{
    Ok(has_one_depth_each(alloc, pat)? && closed_parts_fit(alloc, pat)?)
}
