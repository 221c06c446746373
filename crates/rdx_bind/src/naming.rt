//! Names that patterns give their terms.
ghost use Rattle.std.specs.Prelude.{◌≡◌, IfOk, map};
ghost use Rattle.rdx_lang.specs.Mismatches as model;
ghost use Rattle.rdx_lang.specs.PatternView.{pattern_of, slot_of, items_of};
ghost use Rattle.rdx_lang.specs.Shown.{binding_of};
ghost use Rattle.rdx_term.specs.View.{tree_of};
ghost use Rattle.rdx_bind.specs.Namings.{naming_of, alone};

use crate::combining::one_pair;
use crate::single::differ;
use rdx_lang::{Binding, Item, Pat};
use rdx_term::{Name, NoMemory, Term};
use std::alloc::Global;

/// A name that a pattern gives its terms.
#[derive(Clone, Copy)]
pub enum Naming<'a> {
    /// A name that is bound to them.
    Binds(&'a Name),
    /// A mismatch name, under which they all differ.
    Differs(&'a Name),
}

impl<'a> Naming<'a> {
    /// The binding of this name alone, for the term.
    pub fn alone(self, alloc: Global, t: &Term) -> Result<Binding, NoMemory>
        ensures { IfOk result (λ b. binding_of b ≡ alone (naming_of self.entry) (tree_of t.now)) }
    {
        match self {
            Naming::Binds(name) => one_pair(alloc, name, t),
            Naming::Differs(name) => differ(alloc, name, t),
        }
    }
}

/// Whether a mismatch name stands in the pattern.
#[cycle(mismatches)]
pub fn has_differ(pat: &Pat) -> bool
    ensures { result ≡ model.has_differ (pattern_of pat.now) }
{
    match pat {
        Pat::Wild
        | Pat::Kind(_)
        | Pat::Except(_)
        | Pat::Prefix(_)
        | Pat::Hole
        | Pat::Lit(_)
        | Pat::Nt(_) => false,
        Pat::Differ(_, _) => true,
        Pat::Named(_, inner) | Pat::HideHole(inner) | Pat::Closed(inner) => has_differ(inner),
        Pat::InHole(left, right) => has_differ(left) || has_differ(right),
        Pat::Seq(items) => have_differ(items),
    }
}

// Whether one stands in the items.
#[cycle(mismatches)]
fn have_differ(items: &[Item]) -> bool
    ensures { result ≡ model.have_differ (items_of (map slot_of items.now)) }
{
    for item in items {
        let (Item::One(pat) | Item::Many(pat, _)) = item;
        if has_differ(pat) {
            return true;
        }
    }
    false
}
