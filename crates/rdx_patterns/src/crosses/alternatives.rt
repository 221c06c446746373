// The alternatives of cross nonterminals.
ghost use Rattle.std.specs.Prelude.{◌≡◌, ◌++◌, ◌∷◌, [], ◌<◌, length, None, IfOk, OnOk, map};
ghost use Rattle.rdx_lang.specs.Crosses as model;
ghost use Rattle.rdx_lang.specs.PatternView.{pattern_of, patterns_of, slot_of, items_of, repeated};
ghost use Rattle.rdx_lang.specs.Patterns as patterns;
ghost use Rattle.rdx_patterns.specs.Inside.Slots.{put_at, changed_slot};

use crate::crosses::nameless::{add_unnamed, unnamed};
use rdx_lang::{Item, Pat, Ref};
use rdx_term::{Name, NoMemory};
use std::alloc::Global;

// Adds the repetition of the pattern without its names.
fn add_repeated(alloc: Global, pat: &Pat, out: &mut Vec<Item>) -> Result<(), NoMemory>
    ensures { OnOk result (map slot_of out.new.items ≡ map slot_of out.old.items
        ++ repeated (model.unnamed (pattern_of pat.now)) None ∷ []) }
{
    Ok(out.push(Item::Many(unnamed(alloc, pat)?, None))?)
}

// Adds what stands in place of an item with a changed pattern.
fn add_in_place(
    alloc: Global,
    item: &Item,
    changed: Pat,
    out: &mut Vec<Item>,
) -> Result<(), NoMemory>
    ensures { OnOk result (map slot_of out.new.items
        ≡ map slot_of out.old.items ++ changed_slot (pattern_of changed) (slot_of item.now)) }
{
    match item {
        Item::One(_) => Ok(out.push(Item::One(changed))?),
        Item::Many(pat, _) => {
            add_repeated(alloc, pat, out)?;
            out.push(Item::One(changed))?;
            add_repeated(alloc, pat, out)
        }
    }
}

// The items without their names, with a changed pattern at one place.
fn changed_at(
    alloc: Global,
    items: &[Item],
    place: usize,
    changed: Pat,
) -> Result<Vec<Item>, NoMemory>
    requires { place < length items.now }
    ensures { IfOk result (λ v. items_of (map slot_of v.items)
        ≡ put_at place (pattern_of changed)
        (model.unnamed_items (items_of (map slot_of items.now)))) }
{
    let mut all = Vec::new(alloc);
    add_unnamed(alloc, &items[..place], &mut all)?;
    add_in_place(alloc, &items[place], changed, &mut all)?;
    add_unnamed(alloc, &items[place + 1..], &mut all)?;
    Ok(all)
}

// Adds the list patterns with each of the changed patterns at one place.
fn add_changed(
    alloc: Global,
    items: &[Item],
    place: usize,
    changed: Vec<Pat>,
    found: &mut Vec<Pat>,
) -> Result<(), NoMemory>
    requires { place < length items.now }
    ensures { OnOk result (patterns_of found.new.items ≡ patterns_of found.old.items
        ++ map (λ q.
        patterns.seq (put_at place q (model.unnamed_items (items_of (map slot_of items.now)))))
        (patterns_of changed.items)) }
{
    for pat in changed {
        found.push(Pat::Seq(changed_at(alloc, items, place, pat)?))?;
    }
    Ok(())
}

// Each of the patterns, closed.
fn closed(alloc: Global, pats: Vec<Pat>) -> Result<Vec<Pat>, NoMemory>
    ensures { IfOk result
        (λ v. patterns_of v.items ≡ map patterns.closed (patterns_of pats.items)) }
{
    let mut all = Vec::new(alloc);
    for pat in pats {
        all.push(Pat::Closed(Box::new(alloc, pat)?))?;
    }
    Ok(all)
}

// The one pattern.
fn alone(alloc: Global, pat: Pat) -> Result<Vec<Pat>, NoMemory>
    ensures { IfOk result (λ v. patterns_of v.items ≡ pattern_of pat ∷ []) }
{
    let mut all = Vec::new(alloc);
    all.push(pat)?;
    Ok(all)
}

/// The pattern without its names, with one nonterminal replaced by the cross nonterminal from it to
/// `to`, for each place in turn.
#[cycle(crossing)]
pub(crate) fn crossed(alloc: Global, pat: &Pat, to: &Name) -> Result<Vec<Pat>, NoMemory>
    ensures { IfOk result (λ v.
        patterns_of v.items ≡ model.crossed to.now (model.unnamed (pattern_of pat.now))) }
{
    match pat {
        Pat::Nt(Ref::Nt(from)) => alone(alloc, Pat::Nt(Ref::Cross(from.share()?, to.share()?))),
        Pat::Named(_, inner) => crossed(alloc, inner, to),
        Pat::Differ(_, inner) => crossed(alloc, inner, to),
        Pat::Closed(inner) => closed(alloc, crossed(alloc, inner, to)?),
        Pat::Seq(items) => crossed_items(alloc, items, to),
        Pat::Wild
        | Pat::Kind(_)
        | Pat::Except(_)
        | Pat::Prefix(_)
        | Pat::Hole
        | Pat::Lit(_)
        | Pat::Nt(Ref::Cross(_, _))
        | Pat::InHole(_, _)
        | Pat::HideHole(_) => Ok(Vec::new(alloc)),
    }
}

// The list patterns of the items without their names, with one place in one of them changed, in
// turn.
#[cycle(crossing)]
fn crossed_items(alloc: Global, items: &[Item], to: &Name) -> Result<Vec<Pat>, NoMemory>
    ensures { IfOk result (λ v. patterns_of v.items
        ≡ map patterns.seq
        (model.crossed_items to.now (model.unnamed_items (items_of (map slot_of items.now))))) }
{
    let mut found = Vec::new(alloc);
    for (place, item) in items.iter().enumerate() {
        let changed = match item {
            Item::One(pat) => crossed(alloc, pat, to)?,
            Item::Many(pat, _) => crossed(alloc, pat, to)?,
        };
        add_changed(alloc, items, place, changed, &mut found)?;
    }
    Ok(found)
}
