// Instances of binding forms.
ghost use Rattle.std.specs.Prelude.{◌≡◌, ◌++◌, [], ◌∷◌, IfOk, OnOk, IsTrue, length, map};
ghost use Rattle.rdx_term.specs.View.{tree_of, trees_of};
ghost use Rattle.rdx_alpha.specs.Instances as model;
ghost use Rattle.rdx_alpha.specs.View.{place_of, places_of, forms_of};
ghost use Rattle.rdx_alpha.specs.Inside.PartView.{role_of, roles_of, part_tree, part_trees};

use crate::form::{BPlace, BindingForm};
use crate::forms::headed_by;
use crate::names::{all_names, bound_names};
use crate::part::Part;
use rdx_term::{Name, NoMemory, Term};
use std::alloc::Global;
use std::collections::BTreeSet;

// Whether the term is a symbol.
fn is_symbol(term: &Term) -> bool
    ensures { result ≡ model.is_symbol (tree_of term.now) }
{
    match term {
        Term::Sym(_) => true,
        Term::Hole | Term::Int(_) | Term::Bool(_) | Term::Str(_) | Term::List(_) => false,
    }
}

// Whether all items are symbols.
fn are_symbols(items: &[Term]) -> bool
    ensures { result ≡ model.are_symbols (trees_of items.now) }
{
    for item in items {
        if !is_symbol(item) {
            return false;
        }
    }
    true
}

// Whether the item may stand in such a place.
fn fits_place(place: &BPlace, item: &Term) -> bool
    ensures { result ≡ model.fits_place (place_of place.now) (tree_of item.now) }
{
    match place {
        BPlace::Binder => is_symbol(item),
        BPlace::Binders => match item {
            Term::List(node) => are_symbols(node.items()),
            Term::Hole | Term::Int(_) | Term::Bool(_) | Term::Str(_) | Term::Sym(_) => false,
        },
        BPlace::Plain | BPlace::Body(_) => true,
    }
}

// Whether there is one item for each place, which may stand there.
fn fits(places: &[BPlace], items: &[Term]) -> bool
    ensures value { result ≡ model.fits (places_of places.now) (trees_of items.now) }
    ensures lengths { IsTrue result → length places.now ≡ length items.now }
{
    if places.len() != items.len() {
        return false;
    }
    for (k, item) in items.iter().enumerate() {
        if !fits_place(&places[k], item) {
            return false;
        }
    }
    true
}

// Whether no name comes twice.
fn are_distinct(alloc: Global, names: &[Name]) -> Result<bool, NoMemory>
    ensures { IfOk result (λ answer. answer ≡ model.are_distinct names.now) }
{
    let mut seen = BTreeSet::new(alloc);
    let mut rest = names.len();
    while rest > 0 {
        let k = rest - 1;
        let name = names[k].text();
        if seen.contains(name) {
            return Ok(false);
        }
        seen.insert(name)?;
        rest = k;
    }
    Ok(true)
}

// Whether with these items behind a head the list is an instance of the form with these places.
pub(crate) fn is_instance(
    alloc: Global,
    places: &[BPlace],
    items: &[Term],
) -> Result<bool, NoMemory>
    ensures value { IfOk result (λ answer.
        answer ≡ model.is_instance (places_of places.now) (trees_of items.now)) }
    ensures lengths { IfOk result (λ answer.
        IsTrue answer → length places.now ≡ length items.now) }
{
    if !fits(places, items) {
        return Ok(false);
    }
    let names = all_names(alloc, places, items)?;
    are_distinct(alloc, &names)
}

// What stands in such a place of an instance that has all those places with those items.
fn place_part(
    alloc: Global,
    place: &BPlace,
    places: &[BPlace],
    items: &[Term],
    item: Term,
) -> Result<Part, NoMemory>
    requires { length places.now ≡ length items.now }
    ensures role { IfOk result (λ part. role_of part
        ≡ model.place_role (places_of places.now) (trees_of items.now) (place_of place.now)) }
    ensures item { IfOk result (λ part. part_tree part ≡ tree_of item) }
{
    match place {
        BPlace::Binder | BPlace::Binders => Ok(Part::Binder(item)),
        BPlace::Plain => Ok(Part::Plain(item)),
        BPlace::Body(numbers) => {
            let names = bound_names(alloc, numbers.as_slice(), places, items)?;
            Ok(Part::Body(names, item))
        }
    }
}

// Adds the parts of an instance behind its head.
fn add_places(
    alloc: Global,
    places: &[BPlace],
    items: &[Term],
    parts: &mut Vec<Part>,
) -> Result<(), NoMemory>
    requires { length places.now ≡ length items.now }
    ensures roles { OnOk result (roles_of parts.new.items ≡ roles_of parts.old.items
        ++ model.place_roles (places_of places.now) (trees_of items.now) (places_of places.now)) }
    ensures items { OnOk result (map part_tree parts.new.items
        ≡ map part_tree parts.old.items ++ map tree_of items.now) }
{
    for (k, item) in items.iter().enumerate() {
        let part = place_part(alloc, &places[k], places, items, item.share()?)?;
        parts.push(part)?;
    }
    Ok(())
}

// Adds plain items.
fn add_plain(items: &[Term], parts: &mut Vec<Part>) -> Result<(), NoMemory>
    ensures roles { OnOk result (roles_of parts.new.items
        ≡ roles_of parts.old.items ++ model.plain_roles (trees_of items.now)) }
    ensures items { OnOk result (map part_tree parts.new.items
        ≡ map part_tree parts.old.items ++ map tree_of items.now) }
{
    for item in items {
        let part = Part::Plain(item.share()?);
        parts.push(part)?;
    }
    Ok(())
}

// The parts of an instance with this head.
fn instance_parts(
    alloc: Global,
    places: &[BPlace],
    head: &Term,
    items: &[Term],
) -> Result<Vec<Part>, NoMemory>
    requires { length places.now ≡ length items.now }
    ensures roles { IfOk result (λ parts. roles_of parts.items ≡ model.of_head
        ∷ model.place_roles (places_of places.now) (trees_of items.now) (places_of places.now)) }
    ensures items { IfOk result (λ parts. map part_tree parts.items
        ≡ tree_of head.now ∷ map tree_of items.now) }
{
    let mut parts = Vec::new(alloc);
    let first = Part::Head(head.share()?);
    parts.push(first)?;
    add_places(alloc, places, items, &mut parts)?;
    Ok(parts)
}

// The parts of a list that is no instance.
fn plain_parts(alloc: Global, items: &[Term]) -> Result<Vec<Part>, NoMemory>
    ensures roles { IfOk result (λ parts. roles_of parts.items
        ≡ model.plain_roles (trees_of items.now)) }
    ensures items { IfOk result (λ parts. map part_tree parts.items ≡ map tree_of items.now) }
{
    let mut parts = Vec::new(alloc);
    add_plain(items, &mut parts)?;
    Ok(parts)
}

// The items of a list with what they are in it.
pub(crate) fn parts_of(
    alloc: Global,
    forms: &[BindingForm],
    items: &[Term],
) -> Result<Vec<Part>, NoMemory>
    ensures roles { IfOk result (λ parts. roles_of parts.items
        ≡ model.roles (forms_of forms.now) (trees_of items.now)) }
    ensures items { IfOk result (λ parts. map part_tree parts.items ≡ map tree_of items.now) }
{
    let [first, others @ ..] = items else {
        return Ok(Vec::new(alloc));
    };
    match headed_by(forms, first) {
        None => plain_parts(alloc, items),
        Some(places) => {
            if is_instance(alloc, places, others)? {
                instance_parts(alloc, places, first, others)
            } else {
                plain_parts(alloc, items)
            }
        }
    }
}

// Whether the items of a list headed by a form's head make an instance of it, or it is headed by
// none.
pub(crate) fn is_well_headed(
    alloc: Global,
    forms: &[BindingForm],
    items: &[Term],
) -> Result<bool, NoMemory>
    ensures { IfOk result (λ answer.
        answer ≡ model.is_well_headed (forms_of forms.now) (trees_of items.now)) }
{
    let [first, others @ ..] = items else {
        return Ok(true);
    };
    match headed_by(forms, first) {
        None => Ok(true),
        Some(places) => is_instance(alloc, places, others),
    }
}
