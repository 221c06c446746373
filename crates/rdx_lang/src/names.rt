// The names that a pattern binds.
ghost use Rattle.std.specs.Prelude.{◌≡◌, [], IfOk, OnOk, map};
ghost use Rattle.rdx_lang.specs.Names as model;
ghost use Rattle.rdx_lang.specs.PatternView.{pattern_of, slot_of, items_of};
ghost use Rattle.rdx_lang.specs.Inside.Keys.{names_in};

use crate::key::Key;
use crate::{Item, Pat};
use rdx_term::{Name, NoMemory};
use std::alloc::Global;
use std::collections::BTreeSet;

// Puts the name among the others.
fn add_name(name: &Name, out: &mut BTreeSet<Key>) -> Result<(), NoMemory>
    ensures { OnOk result (names_in out.new ≡ model.with_name name.now (names_in out.old)) }
{
    out.insert(Key::new(name.share()?))?;
    Ok(())
}

// Puts the length name of a repetition among the others, where it has one.
fn add_length_name(length: &Option<Name>, out: &mut BTreeSet<Key>) -> Result<(), NoMemory>
    ensures { OnOk result (names_in out.new
        ≡ model.add_names (model.with_length_name length.now []) (names_in out.old)) }
{
    match length {
        Some(name) => add_name(name, out),
        None => Ok(()),
    }
}

// Puts the names of the pattern among the others.
#[cycle(names)]
fn add_names(pat: &Pat, out: &mut BTreeSet<Key>) -> Result<(), NoMemory>
    ensures { OnOk result (names_in out.new
        ≡ model.add_names (model.names (pattern_of pat.now)) (names_in out.old)) }
{
    match pat {
        Pat::Wild
        | Pat::Kind(_)
        | Pat::Except(_)
        | Pat::Prefix(_)
        | Pat::Hole
        | Pat::Lit(_)
        | Pat::Nt(_)
        | Pat::Closed(_) => Ok(()),
        Pat::Named(name, inner) => {
            add_names(inner, out)?;
            add_name(name, out)
        }
        Pat::InHole(left, right) => {
            add_names(left, out)?;
            add_names(right, out)
        }
        Pat::Differ(_, inner) | Pat::HideHole(inner) => add_names(inner, out),
        Pat::Seq(items) => add_item_names(items, out),
    }
}

// Puts those of the items among the others.
#[cycle(names)]
fn add_item_names(items: &[Item], out: &mut BTreeSet<Key>) -> Result<(), NoMemory>
    ensures { OnOk result (names_in out.new
        ≡ model.add_names (model.item_names (items_of (map slot_of items.now))) (names_in out.old)) }
{
    for item in items {
        match item {
            Item::One(pat) => add_names(pat, out)?,
            Item::Many(pat, length) => {
                add_names(pat, out)?;
                add_length_name(length, out)?;
            }
        }
    }
    Ok(())
}

// The names in the set, in the order of their bytes.
fn names_of(alloc: Global, set: BTreeSet<Key>) -> Result<Vec<Name>, NoMemory>
    ensures { IfOk result (λ names. names.items ≡ names_in set) }
{
    let names = set.into_iter().map(|key| key.name).collect(alloc)?;
    Ok(names)
}

impl Pat {
    /// The names that the pattern binds, in the order of their bytes, each once.
    pub fn names(&self, alloc: Global) -> Result<Vec<Name>, NoMemory>
        ensures { IfOk result (λ names. names.items ≡ model.names (pattern_of self.now)) }
    {
        let mut set = BTreeSet::new(alloc);
        add_names(self, &mut set)?;
        names_of(alloc, set)
    }
}
