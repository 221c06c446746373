// Patterns without their names.
ghost use Rattle.std.specs.Prelude.{◌≡◌, ◌++◌, IfOk, OnOk, map};
ghost use Rattle.rdx_lang.specs.Crosses as model;
ghost use Rattle.rdx_lang.specs.PatternView.{pattern_of, slot_of};
ghost use Rattle.rdx_patterns.specs.Inside.Slots.{unnamed_slot};

use rdx_lang::{Item, Pat};
use rdx_term::NoMemory;
use std::alloc::Global;

/// The pattern without its names, mismatch names and length names; literals and the names of
/// nonterminals are shared.
#[cycle(unnaming)]
pub(crate) fn unnamed(alloc: Global, pat: &Pat) -> Result<Pat, NoMemory>
    ensures { IfOk result (λ p. pattern_of p ≡ model.unnamed (pattern_of pat.now)) }
{
    match pat {
        Pat::Wild | Pat::Kind(_) | Pat::Except(_) | Pat::Prefix(_) | Pat::Hole | Pat::Lit(_) => {
            pat.share(alloc)
        }
        Pat::Nt(name) => Ok(Pat::Nt(name.share()?)),
        Pat::Named(_, inner) => unnamed(alloc, inner),
        Pat::Differ(_, inner) => unnamed(alloc, inner),
        Pat::InHole(left, right) => {
            let left = unnamed_boxed(alloc, left)?;
            Ok(Pat::InHole(left, unnamed_boxed(alloc, right)?))
        }
        Pat::HideHole(inner) => Ok(Pat::HideHole(unnamed_boxed(alloc, inner)?)),
        Pat::Closed(inner) => Ok(Pat::Closed(unnamed_boxed(alloc, inner)?)),
        Pat::Seq(items) => Ok(Pat::Seq(unnamed_items(alloc, items)?)),
    }
}

// The pattern without its names, in a box of its own.
#[cycle(unnaming)]
fn unnamed_boxed(alloc: Global, pat: &Pat) -> Result<Box<Pat>, NoMemory>
    ensures { IfOk result (λ p. pattern_of p.value ≡ model.unnamed (pattern_of pat.now)) }
{
    let pat = unnamed(alloc, pat)?;
    Ok(Box::new(alloc, pat)?)
}

// The items without their names.
#[cycle(unnaming)]
fn unnamed_items(alloc: Global, items: &[Item]) -> Result<Vec<Item>, NoMemory>
    ensures { IfOk result
        (λ v. map slot_of v.items ≡ map unnamed_slot (map slot_of items.now)) }
{
    let mut copies = Vec::new(alloc);
    add_unnamed(alloc, items, &mut copies)?;
    Ok(copies)
}

/// Puts the items without their names behind those that are there.
#[cycle(unnaming)]
pub(crate) fn add_unnamed(
    alloc: Global,
    items: &[Item],
    out: &mut Vec<Item>,
) -> Result<(), NoMemory>
    ensures { OnOk result (map slot_of out.new.items
        ≡ map slot_of out.old.items ++ map unnamed_slot (map slot_of items.now)) }
{
    for item in items {
        match item {
            Item::One(pat) => out.push(Item::One(unnamed(alloc, pat)?))?,
            Item::Many(pat, _) => out.push(Item::Many(unnamed(alloc, pat)?, None))?,
        }
    }
    Ok(())
}
