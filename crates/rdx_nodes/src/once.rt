// The names that stand once in a pattern. What such a name stands for is compared with nothing.
ghost use Rattle.std.specs.Prelude.{◌≡◌, ◌++◌, [], List, ℕ, true, map, option_copied};
ghost use Rattle.std.specs.Prelude.{IfOk, OnOk, IsTrue};
ghost use Rattle.rdx_lang.specs.Members.{In};
ghost use Rattle.rdx_lang.specs.Names as model;
ghost use Rattle.rdx_lang.specs.PatternView.{pattern_of, slot_of, items_of};
ghost use Rattle.rdx_nodes.specs.Inside.Forgetting.{binders, item_binders, length_names};
ghost use Rattle.rdx_nodes.specs.Inside.Forgetting.{ForgetsLength};
ghost use Rattle.rdx_nodes.specs.Inside.Once.{bytes_of, is_once, others};
ghost use Rattle.rdx_nodes.specs.Inside.Once.{AreSomeTold, AreTold, Tells};

use rdx_lang::{Item, Pat};
use rdx_term::{Name, NoMemory};
use std::alloc::Global;
use std::collections::HashMap;

// Adds the length name of a repetition, where it has one.
fn add_length_place<'a>(length: &'a Option<Name>, out: &mut Vec<&'a str>) -> Result<(), NoMemory>
    ensures { OnOk result (bytes_of out.new.items
        ≡ bytes_of out.old.items ++ length_names length.now) }
{
    if let Some(name) = length {
        out.push(name.text())?;
    }
    Ok(())
}

// Adds the names at the places where the pattern binds one.
#[cycle(places)]
fn add_places<'a>(pat: &'a Pat, out: &mut Vec<&'a str>) -> Result<(), NoMemory>
    ensures { OnOk result (bytes_of out.new.items
        ≡ bytes_of out.old.items ++ binders (pattern_of pat.now)) }
{
    match pat {
        Pat::Wild
        | Pat::Kind(_)
        | Pat::Except(_)
        | Pat::Prefix(_)
        | Pat::Hole
        | Pat::Lit(_)
        | Pat::Nt(_)
        | Pat::Closed(_) => Ok(()),
        Pat::Named(name, inner) => {
            out.push(name.text())?;
            add_places(inner, out)
        }
        Pat::InHole(left, right) => {
            add_places(left, out)?;
            add_places(right, out)
        }
        Pat::Differ(_, inner) | Pat::HideHole(inner) => add_places(inner, out),
        Pat::Seq(items) => add_item_places(items, out),
    }
}

// Adds those of the items.
#[cycle(places)]
fn add_item_places<'a>(items: &'a [Item], out: &mut Vec<&'a str>) -> Result<(), NoMemory>
    ensures { OnOk result (bytes_of out.new.items
        ≡ bytes_of out.old.items ++ item_binders (items_of (map slot_of items.now))) }
{
    for item in items {
        match item {
            Item::One(pat) => add_places(pat, out)?,
            Item::Many(pat, length) => {
                add_places(pat, out)?;
                add_length_place(length, out)?;
            }
        }
    }
    Ok(())
}

/// The names at the places where the pattern binds one, in the order of the places.
pub(crate) fn places_of<'a>(alloc: Global, pat: &'a Pat) -> Result<Vec<&'a str>, NoMemory>
    ensures { IfOk result (λ places. bytes_of places.items ≡ binders (pattern_of pat.now)) }
{
    let mut places = Vec::new(alloc);
    add_places(pat, &mut places)?;
    Ok(places)
}

/// Names that stand once.
#[derive(Drop)]
pub(crate) struct Once<'a> {
    /// The names of a pattern, each with whether it stands once.
    pub(crate) told: HashMap<&'a str, bool>,
}

impl<'a> Once<'a> {
    /// No names.
    pub(crate) fn none(alloc: Global) -> Once<'a>
        ensures told { Tells result.told [] }
        ensures some { AreSomeTold result.told }
    {
        Once {
            told: HashMap::new(alloc),
        }
    }

    /// The names that stand once among those at these places.
    pub(crate) fn among(alloc: Global, places: &[&'a str]) -> Result<Once<'a>, NoMemory>
        ensures told { IfOk result (λ once. Tells once.told (bytes_of places.now)) }
        ensures some { IfOk result (λ once. AreSomeTold once.told) }
    {
        let mut told = HashMap::new(alloc);
        for place in places {
            let first = !told.contains_key(*place);
            told.insert(*place, first)?;
        }
        Ok(Once { told })
    }

    /// Whether the name is one of them.
    pub(crate) fn has(&self, name: &str) -> bool
        ensures { result ≡ is_once self.now.told name.now }
    {
        match self.told.get(name) {
            Some(once) => *once,
            None => false,
        }
    }

    /// Whether all names at these places are.
    pub(crate) fn has_all(&self, places: &[&str]) -> bool
        ensures { IsTrue result → (x : List ℕ) → In x (bytes_of places.now)
            → is_once self.now.told x ≡ true }
    {
        for place in places {
            if !self.has(*place) {
                return false;
            }
        }
        true
    }

    /// The names that the pattern binds, in the order of their bytes, but for these.
    pub(crate) fn others(&self, alloc: Global, pat: &Pat) -> Result<Vec<Name>, NoMemory>
        ensures { IfOk result (λ names. names.items
            ≡ others self.now.told (model.names (pattern_of pat.now))) }
    {
        let mut others = Vec::new(alloc);
        let names = pat.names(alloc)?;
        for name in &names {
            if !self.has(name.text()) {
                others.push(name.share()?)?;
            }
        }
        Ok(others)
    }

    /// The length name of a repetition, unless it is one of them.
    pub(crate) fn other_length(&self, length: &'a Option<Name>) -> Option<&'a Name>
        ensures { (xs : List (List ℕ)) → AreTold xs self.now.told
            → ForgetsLength xs length.now (option_copied result) }
    {
        match length {
            Some(name) => {
                if self.has(name.text()) {
                    None
                } else {
                    Some(name)
                }
            }
            None => None,
        }
    }
}
