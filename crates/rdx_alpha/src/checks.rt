// The checks of binding forms.
ghost use Rattle.std.specs.Prelude.{◌≡◌, ◌++◌, ◌∷◌, [], Some, IfOk, OnOk, map, option_map};
ghost use Rattle.rdx_alpha.specs.Written as written;
ghost use Rattle.rdx_alpha.specs.Checks as model;
ghost use Rattle.rdx_alpha.specs.Inside.WrittenView.{written_places_of, written_form_of};

use crate::binders::{add_one, all_references, binders_in, is_bound_right};
use crate::places::is_one_of;
use crate::written::{Form, Place, written_form};
use rdx_sexp::Datum;
use rdx_term::NoMemory;
use std::alloc::Global;

// Whether the datum is a binding form.
fn has_shape(alloc: Global, d: &Datum) -> Result<bool, NoMemory>
    ensures { IfOk result (λ answer. answer ≡ model.has_shape (written.written_form d.now)) }
{
    match written_form(alloc, d)? {
        Some(form) => is_bound_right(alloc, &form),
        None => Ok(false),
    }
}

// The first of these that is none.
pub(crate) fn misshapen<'a>(
    alloc: Global,
    forms: &'a [Datum],
) -> Result<Option<&'a Datum>, NoMemory>
    ensures { IfOk result (λ found.
        option_map (λ d. d.now) found ≡ model.misshapen forms.now) }
{
    for d in forms {
        if !has_shape(alloc, d)? {
            return Ok(Some(d));
        }
    }
    Ok(None)
}

// Adds a symbol to which some refer, unless it is there.
fn add_once<'a>(names: &[&Datum], d: &'a Datum, out: &mut Vec<&'a Datum>) -> Result<(), NoMemory>
    ensures { OnOk result (map (λ n. n.now) out.new.items
        ≡ model.once (map (λ n. n.now) names.now) (map (λ n. n.now) out.old.items)
        (d.entry.now ∷ [])) }
{
    if is_one_of(names, d) && !is_one_of(out.as_slice(), d) {
        add_one(d, out)
    } else {
        Ok(())
    }
}

// Adds the symbols among these to which some refer, each once.
fn add_each_once<'a>(
    names: &[&Datum],
    items: &[&'a Datum],
    out: &mut Vec<&'a Datum>,
) -> Result<(), NoMemory>
    ensures { OnOk result (map (λ n. n.now) out.new.items
        ≡ model.once (map (λ n. n.now) names.now) (map (λ n. n.now) out.old.items)
        (map (λ n. n.now) items.now)) }
{
    for item in items {
        add_once(names, *item, out)?;
    }
    Ok(())
}

// The binders of a place to which some refer, each once.
fn names_bound<'a>(
    alloc: Global,
    names: &[&Datum],
    d: &'a Datum,
) -> Result<Vec<&'a Datum>, NoMemory>
    ensures { IfOk result (λ bound. map (λ n. n.now) bound.items
        ≡ model.names_bound (map (λ n. n.now) names.now) d.entry.now) }
{
    let binders = binders_in(alloc, names, d)?;
    let mut bound = Vec::new(alloc);
    add_each_once(names, &binders, &mut bound)?;
    Ok(bound)
}

// The first of these that comes among those before.
fn again<'a>(before: &[&Datum], items: &[&'a Datum]) -> Option<&'a Datum>
    ensures { option_map (λ d. d.now) result
        ≡ model.again (map (λ n. n.now) before.now) (map (λ n. n.now) items.now) }
{
    for item in items {
        if is_one_of(before, *item) {
            return Some(*item);
        }
    }
    None
}

// Adds what others have.
fn add_others<'a>(others: &[&'a Datum], out: &mut Vec<&'a Datum>) -> Result<(), NoMemory>
    ensures { OnOk result (map (λ n. n.now) out.new.items
        ≡ map (λ n. n.now) out.old.items ++ map (λ n. n.now) others.now) }
{
    for d in others {
        add_one(*d, out)?;
    }
    Ok(())
}

// The first name that two places bind, where it comes for the second time.
fn repeat_in<'a>(
    alloc: Global,
    names: &[&Datum],
    places: &[Place<'a>],
) -> Result<Option<&'a Datum>, NoMemory>
    ensures { IfOk result (λ found. option_map (λ d. d.now) found
        ≡ model.repeat_in (map (λ n. n.now) names.now) [] (written_places_of places.now)) }
{
    let mut before = Vec::new(alloc);
    for place in places {
        let bound = names_bound(alloc, names, place.datum)?;
        if let Some(d) = again(&before, &bound) {
            return Ok(Some(d));
        }
        add_others(&bound, &mut before)?;
    }
    Ok(None)
}

// So in a form, where forms before have these heads: its head, or a name.
fn form_repeat<'a>(
    alloc: Global,
    heads: &[&Datum],
    form: &Form<'a>,
) -> Result<Option<&'a Datum>, NoMemory>
    ensures { IfOk result (λ found. option_map (λ d. d.now) found
        ≡ model.form_repeat (map (λ n. n.now) heads.now) (Some (written_form_of form.now))) }
{
    if is_one_of(heads, form.head) {
        return Ok(Some(form.head));
    }
    let names = all_references(alloc, &form.places)?;
    repeat_in(alloc, &names, &form.places)
}

// The first head or name of these forms that comes for the second time.
pub(crate) fn duplicate<'a>(
    alloc: Global,
    forms: &'a [Datum],
) -> Result<Option<&'a Datum>, NoMemory>
    ensures { IfOk result (λ found.
        option_map (λ d. d.now) found ≡ model.duplicate [] forms.now) }
{
    let mut heads = Vec::new(alloc);
    for d in forms {
        if let Some(form) = written_form(alloc, d)? {
            if let Some(found) = form_repeat(alloc, &heads, &form)? {
                return Ok(Some(found));
            }
            add_one(form.head, &mut heads)?;
        }
    }
    Ok(None)
}
