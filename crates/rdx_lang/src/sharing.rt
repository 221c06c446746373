// The same patterns once more, which share their names and terms.
ghost use Rattle.std.specs.Prelude.{◌≡◌, IfOk, map};
ghost use Rattle.rdx_lang.specs.PatternView.{pattern_of, slot_of};

use crate::{Item, Pat};
use rdx_term::{Name, NoMemory};
use std::alloc::Global;

mod programs;
mod templates;

// The same names.
fn share_names(alloc: Global, names: &[Name]) -> Result<Vec<Name>, NoMemory>
    ensures { IfOk result (λ shared. shared.items ≡ names.now) }
{
    let mut shared = Vec::new(alloc);
    for name in names {
        shared.push(name.share()?)?;
    }
    Ok(shared)
}

// The same length name, where there is one.
fn share_length(length: &Option<Name>) -> Result<Option<Name>, NoMemory>
    ensures { IfOk result (λ shared. shared ≡ length.now) }
{
    match length {
        Some(name) => Ok(Some(name.share()?)),
        None => Ok(None),
    }
}

impl Pat {
    /// The same pattern once more; its names and terms are shared.
    #[cycle(share)]
    pub fn share(&self, alloc: Global) -> Result<Pat, NoMemory>
        ensures { IfOk result (λ p. pattern_of p ≡ pattern_of self.now) }
    {
        match self {
            Pat::Wild => Ok(Pat::Wild),
            Pat::Kind(kind) => Ok(Pat::Kind(*kind)),
            Pat::Except(names) => Ok(Pat::Except(share_names(alloc, names)?)),
            Pat::Prefix(start) => Ok(Pat::Prefix(start.share()?)),
            Pat::Hole => Ok(Pat::Hole),
            Pat::Lit(term) => Ok(Pat::Lit(term.share()?)),
            Pat::Nt(name) => Ok(Pat::Nt(name.share()?)),
            Pat::Named(name, inner) => {
                let inner = share_boxed(alloc, inner)?;
                Ok(Pat::Named(name.share()?, inner))
            }
            Pat::Differ(name, inner) => {
                let inner = share_boxed(alloc, inner)?;
                Ok(Pat::Differ(name.share()?, inner))
            }
            Pat::InHole(left, right) => {
                let left = share_boxed(alloc, left)?;
                Ok(Pat::InHole(left, share_boxed(alloc, right)?))
            }
            Pat::HideHole(inner) => Ok(Pat::HideHole(share_boxed(alloc, inner)?)),
            Pat::Closed(inner) => Ok(Pat::Closed(share_boxed(alloc, inner)?)),
            Pat::Seq(items) => Ok(Pat::Seq(share_items(alloc, items)?)),
        }
    }
}

// The same pattern once more, in a box of its own.
#[cycle(share)]
fn share_boxed(alloc: Global, pat: &Pat) -> Result<Box<Pat>, NoMemory>
    ensures { IfOk result (λ p. pattern_of p.value ≡ pattern_of pat.now) }
{
    let pat = pat.share(alloc)?;
    Ok(Box::new(alloc, pat)?)
}

impl Item {
    // The same item once more.
    #[cycle(share)]
    fn share(&self, alloc: Global) -> Result<Item, NoMemory>
        ensures { IfOk result (λ s. slot_of s ≡ slot_of self.now) }
    {
        match self {
            Item::One(pat) => Ok(Item::One(pat.share(alloc)?)),
            Item::Many(pat, length) => {
                let length = share_length(length)?;
                Ok(Item::Many(pat.share(alloc)?, length))
            }
        }
    }
}

// The same items.
#[cycle(share)]
fn share_items(alloc: Global, items: &[Item]) -> Result<Vec<Item>, NoMemory>
    ensures { IfOk result (λ shared. map slot_of shared.items ≡ map slot_of items.now) }
{
    let mut shared = Vec::new(alloc);
    for item in items {
        shared.push(item.share(alloc)?)?;
    }
    Ok(shared)
}
