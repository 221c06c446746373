// What stands in the places of a binding form as binders.
ghost use Rattle.std.specs.Prelude.{◌≡◌, ◌++◌, ◌∷◌, [], IfOk, OnOk, map, option_map};
ghost use Rattle.std.specs.List.{list_any};
ghost use Rattle.rdx_sexp.specs.Sexp.{Sexp};
ghost use Rattle.rdx_alpha.specs.Written as model;
ghost use Rattle.rdx_alpha.specs.Inside.WrittenView.{written_place_of, written_places_of};
ghost use Rattle.rdx_alpha.specs.Inside.WrittenView.{written_form_of};

use crate::places::{is_name, is_one_of};
use crate::written::{Form, Place};
use rdx_patterns::shape::are_symbols;
use rdx_sexp::{Datum, Form as Shape};
use rdx_term::NoMemory;
use std::alloc::Global;

// Adds one datum.
pub(crate) fn add_one<'a>(d: &'a Datum, out: &mut Vec<&'a Datum>) -> Result<(), NoMemory>
    ensures { OnOk result (map (λ n. n.now) out.new.items
        ≡ map (λ n. n.now) out.old.items ++ d.entry.now ∷ []) }
{
    out.push(d)?;
    Ok(())
}

// Adds data.
fn add_all<'a>(items: &'a [Datum], out: &mut Vec<&'a Datum>) -> Result<(), NoMemory>
    ensures { OnOk result (map (λ n. n.now) out.new.items
        ≡ map (λ n. n.now) out.old.items ++ items.entry.now) }
{
    for d in items {
        out.push(d)?;
    }
    Ok(())
}

// Adds the symbols among these, without `...`.
fn add_names<'a>(items: &'a [Datum], out: &mut Vec<&'a Datum>) -> Result<(), NoMemory>
    ensures { OnOk result (map (λ n. n.now) out.new.items
        ≡ map (λ n. n.now) out.old.items ++ model.names_among items.entry.now) }
{
    for d in items {
        if is_name(d) {
            out.push(d)?;
        }
    }
    Ok(())
}

// Adds the symbols behind the first of these, without `...`.
fn add_behind_first<'a>(items: &'a [Datum], out: &mut Vec<&'a Datum>) -> Result<(), NoMemory>
    ensures { OnOk result (map (λ n. n.now) out.new.items
        ≡ map (λ n. n.now) out.old.items ++ model.behind_first items.entry.now) }
{
    match items.split_first() {
        Some((_, names)) => add_names(names, out),
        None => Ok(()),
    }
}

// Adds the symbols to which a place refers by this datum.
fn add_referred<'a>(d: &'a Datum, out: &mut Vec<&'a Datum>) -> Result<(), NoMemory>
    ensures { OnOk result (map (λ n. n.now) out.new.items
        ≡ map (λ n. n.now) out.old.items ++ model.reference_names d.entry.now) }
{
    match &d.form {
        Shape::List(items) => add_behind_first(items.as_slice(), out),
        Shape::Int(_) | Shape::Bool(_) | Shape::Str(_) | Shape::Sym(_) | Shape::Key(_) => {
            add_one(d, out)
        }
    }
}

// The symbols to which a place refers by this datum.
pub(crate) fn reference_names<'a>(alloc: Global, d: &'a Datum) -> Result<Vec<&'a Datum>, NoMemory>
    ensures { IfOk result (λ names.
        map (λ n. n.now) names.items ≡ model.reference_names d.entry.now) }
{
    let mut names = Vec::new(alloc);
    add_referred(d, &mut names)?;
    Ok(names)
}

// Adds the symbols to which a place refers, if it does.
fn add_names_of<'a>(refers: Option<&'a Datum>, out: &mut Vec<&'a Datum>) -> Result<(), NoMemory>
    ensures { OnOk result (map (λ n. n.now) out.new.items ≡ map (λ n. n.now) out.old.items
        ++ model.names_of (option_map (λ d. d.now) refers.entry)) }
{
    match refers {
        Some(d) => add_referred(d, out),
        None => Ok(()),
    }
}

// The symbols to which some place refers.
pub(crate) fn all_references<'a>(
    alloc: Global,
    places: &[Place<'a>],
) -> Result<Vec<&'a Datum>, NoMemory>
    ensures { IfOk result (λ names. map (λ n. n.now) names.items
        ≡ model.all_references (written_places_of places.now)) }
{
    let mut names = Vec::new(alloc);
    for place in places {
        add_names_of(place.refers, &mut names)?;
    }
    Ok(names)
}

// Whether one of the data is one of these symbols.
fn has_one_of(names: &[&Datum], items: &[Datum]) -> bool
    ensures { result
        ≡ list_any (model.is_one_of (map (λ n. n.now) names.now)) items.now }
{
    for item in items {
        if is_one_of(names, item) {
            return true;
        }
    }
    false
}

// Whether these are symbols, and one of them is one of those.
fn are_binders(names: &[&Datum], items: &[Datum]) -> bool
    ensures { result ≡ model.are_binders (map (λ n. n.now) names.now) items.now }
{
    are_symbols(items) && has_one_of(names, items)
}

// Adds these, if they are binders where some refer to those.
fn add_if_binders<'a>(
    names: &[&Datum],
    items: &'a [Datum],
    out: &mut Vec<&'a Datum>,
) -> Result<(), NoMemory>
    ensures { OnOk result (map (λ n. n.now) out.new.items ≡ map (λ n. n.now) out.old.items
        ++ model.binders_among (map (λ n. n.now) names.now) items.entry.now) }
{
    if are_binders(names, items) {
        add_all(items, out)
    } else {
        Ok(())
    }
}

// Adds the symbols that stand in a place as binders, where some refer to these.
fn add_binders<'a>(names: &[&Datum], d: &'a Datum, out: &mut Vec<&'a Datum>) -> Result<(), NoMemory>
    ensures { OnOk result (map (λ n. n.now) out.new.items ≡ map (λ n. n.now) out.old.items
        ++ model.binders_in (map (λ n. n.now) names.now) d.entry.now) }
{
    match &d.form {
        Shape::List(items) => add_if_binders(names, items.as_slice(), out),
        Shape::Int(_) | Shape::Bool(_) | Shape::Str(_) | Shape::Sym(_) | Shape::Key(_) => {
            if is_one_of(names, d) {
                add_one(d, out)
            } else {
                Ok(())
            }
        }
    }
}

// The symbols that stand in a place as binders, where some refer to these.
pub(crate) fn binders_in<'a>(
    alloc: Global,
    names: &[&Datum],
    d: &'a Datum,
) -> Result<Vec<&'a Datum>, NoMemory>
    ensures { IfOk result (λ binders. map (λ n. n.now) binders.items
        ≡ model.binders_in (map (λ n. n.now) names.now) d.entry.now) }
{
    let mut binders = Vec::new(alloc);
    add_binders(names, d, &mut binders)?;
    Ok(binders)
}

// Whether these are some binders, where some refer to those.
fn are_some_binders(names: &[&Datum], items: &[Datum]) -> bool
    ensures { result
        ≡ model.is_some (model.binders_among (map (λ n. n.now) names.now) items.now) }
{
    are_binders(names, items)
}

// Whether something stands in a place as a binder, where some refer to these.
pub(crate) fn is_binder_place(names: &[&Datum], d: &Datum) -> bool
    ensures { result
        ≡ model.is_some (model.binders_in (map (λ n. n.now) names.now) d.now) }
{
    match &d.form {
        Shape::List(items) => are_some_binders(names, items.as_slice()),
        Shape::Int(_) | Shape::Bool(_) | Shape::Str(_) | Shape::Sym(_) | Shape::Key(_) => {
            is_one_of(names, d)
        }
    }
}

// The binders of all places, where some refer to these.
fn all_binders<'a>(
    alloc: Global,
    names: &[&Datum],
    places: &[Place<'a>],
) -> Result<Vec<&'a Datum>, NoMemory>
    ensures { IfOk result (λ binders. map (λ n. n.now) binders.items
        ≡ model.all_binders (map (λ n. n.now) names.now) (written_places_of places.now)) }
{
    let mut binders = Vec::new(alloc);
    for place in places {
        add_binders(names, place.datum, &mut binders)?;
    }
    Ok(binders)
}

// Whether each name stands in a binder place.
fn all_stand(binders: &[&Datum], names: &[&Datum]) -> bool
    ensures { result
        ≡ model.all_stand (map (λ n. n.now) binders.now) (map (λ n. n.now) names.now) }
{
    for name in names {
        if !is_one_of(binders, name) {
            return false;
        }
    }
    true
}

// Whether a body is itself a binder place.
fn is_bound_body(names: &[&Datum], place: &Place<'_>) -> bool
    ensures { result
        ≡ model.is_bound_body (map (λ n. n.now) names.now) (written_place_of place.now) }
{
    is_binder_place(names, place.datum) && place.refers.is_some()
}

// Whether one of the bodies is.
fn has_bound_body(names: &[&Datum], places: &[Place<'_>]) -> bool
    ensures { result ≡ list_any (model.is_bound_body (map (λ n. n.now) names.now))
        (written_places_of places.now) }
{
    for place in places {
        if is_bound_body(names, place) {
            return true;
        }
    }
    false
}

// Whether each name to which a place refers stands in a binder place, and no body is one.
pub(crate) fn is_bound_right(alloc: Global, form: &Form<'_>) -> Result<bool, NoMemory>
    ensures { IfOk result (λ answer. answer ≡ model.is_bound_right (written_form_of form.now)) }
{
    let names = all_references(alloc, &form.places)?;
    let binders = all_binders(alloc, &names, &form.places)?;
    Ok(all_stand(&binders, &names) && !has_bound_body(&names, &form.places))
}
