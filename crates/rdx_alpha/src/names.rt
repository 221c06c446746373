// The names that the items of an instance bind.
ghost use Rattle.std.specs.Prelude.{◌≡◌, ◌++◌, ◌≤◌, [], ◌∷◌, ℕ, List, suc, IfOk, OnOk, length, map};
ghost use Rattle.std.specs.Prelude.{bytes_eq, nat_eq, if◌then◌else◌};
ghost use Rattle.std.specs.List.{list_any};
ghost use Rattle.rdx_term.specs.View.{tree_of, trees_of};
ghost use Rattle.rdx_lang.specs.Inside.Texts.{texts_in, HaveSame};
ghost use Rattle.rdx_alpha.specs.Instances as model;
ghost use Rattle.rdx_alpha.specs.View.{place_of, places_of};

use crate::form::BPlace;
use rdx_term::{Name, NoMemory, Term};
use std::alloc::Global;
use std::collections::BTreeSet;

// Whether the name is one of these.
pub(crate) fn is_among(name: &Name, names: &[Name]) -> bool
    ensures { result ≡ list_any (bytes_eq name.now) names.now }
{
    for other in names {
        if name.text() == other.text() {
            return true;
        }
    }
    false
}

// The texts of these names, for looking names up.
pub(crate) fn texts_of<'a>(alloc: Global, names: &'a [Name]) -> Result<BTreeSet<&'a str>, NoMemory>
    ensures { IfOk result (λ set. HaveSame (texts_in set) names.now) }
{
    let mut set = BTreeSet::new(alloc);
    for name in names {
        set.insert(name.text())?;
    }
    Ok(set)
}

// Whether the name is one of those that have these texts.
pub(crate) fn is_in(name: &Name, texts: &BTreeSet<&str>) -> bool
    ensures { (names : List (List ℕ)) → HaveSame (texts_in texts.now) names
        → list_any (bytes_eq name.now) names ≡ result }
{
    texts.contains(name.text())
}

// Adds a name.
pub(crate) fn add_name(name: &Name, names: &mut Vec<Name>) -> Result<(), NoMemory>
    ensures { OnOk result (names.new.items ≡ names.old.items ++ name.now ∷ []) }
{
    let same = name.share()?;
    names.push(same)?;
    Ok(())
}

// Adds the names of the symbols among some items.
fn add_symbol_names(items: &[Term], names: &mut Vec<Name>) -> Result<(), NoMemory>
    ensures { OnOk result (names.new.items
        ≡ names.old.items ++ model.symbol_names (trees_of items.now)) }
{
    for item in items {
        match item {
            Term::Sym(name) => add_name(name, names)?,
            Term::Hole | Term::Int(_) | Term::Bool(_) | Term::Str(_) | Term::List(_) => {}
        }
    }
    Ok(())
}

// Adds the names in a binder place.
pub(crate) fn add_binder_names(item: &Term, names: &mut Vec<Name>) -> Result<(), NoMemory>
    ensures { OnOk result (names.new.items
        ≡ names.old.items ++ model.binder_names (tree_of item.now)) }
{
    match item {
        Term::Sym(name) => add_name(name, names),
        Term::List(node) => add_symbol_names(node.items(), names),
        Term::Hole | Term::Int(_) | Term::Bool(_) | Term::Str(_) => Ok(()),
    }
}

// Adds the names that the item at such a place binds.
fn add_names_at(place: &BPlace, item: &Term, names: &mut Vec<Name>) -> Result<(), NoMemory>
    ensures { OnOk result (names.new.items
        ≡ names.old.items ++ model.names_at (place_of place.now) (tree_of item.now)) }
{
    match place {
        BPlace::Binder | BPlace::Binders => add_binder_names(item, names),
        BPlace::Plain | BPlace::Body(_) => Ok(()),
    }
}

// All names that items at such places bind.
pub(crate) fn all_names(
    alloc: Global,
    places: &[BPlace],
    items: &[Term],
) -> Result<Vec<Name>, NoMemory>
    requires { length places.now ≡ length items.now }
    ensures { IfOk result (λ names.
        names.items ≡ model.all_names (places_of places.now) (trees_of items.now)) }
{
    let mut names = Vec::new(alloc);
    for (k, item) in items.iter().enumerate() {
        add_names_at(&places[k], item, &mut names)?;
    }
    Ok(names)
}

// Whether the number is one of these.
fn has_number(numbers: &[usize], number: usize) -> bool
    ensures { result ≡ list_any (nat_eq number) numbers.now }
{
    for other in numbers {
        if number == *other {
            return true;
        }
    }
    false
}

// Adds the names that the item at such a place binds, if they are wanted.
fn add_names_if(
    wanted: bool,
    place: &BPlace,
    item: &Term,
    names: &mut Vec<Name>,
) -> Result<(), NoMemory>
    ensures { OnOk result (names.new.items ≡ names.old.items
        ++ (if wanted then model.names_at (place_of place.now) (tree_of item.now) else [])) }
{
    if wanted {
        add_names_at(place, item, names)?;
    }
    Ok(())
}

// The names that a body binds which refers to the places with these numbers.
pub(crate) fn bound_names(
    alloc: Global,
    numbers: &[usize],
    places: &[BPlace],
    items: &[Term],
) -> Result<Vec<Name>, NoMemory>
    requires { length places.now ≡ length items.now }
    ensures { IfOk result (λ names.
        names.items ≡ model.bound_names numbers.now (places_of places.now) (trees_of items.now)) }
{
    let mut names = Vec::new(alloc);
    for (k, item) in items.iter().enumerate() {
        add_names_if(has_number(numbers, k), &places[k], item, &mut names)?;
    }
    Ok(names)
}
