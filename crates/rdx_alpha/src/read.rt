// Reading binding forms.
ghost use Rattle.std.specs.Prelude.{◌≡◌, ◌++◌, [], List, IsTrue, None, IfOk, IfErr, OnOk};
ghost use Rattle.std.specs.Prelude.{map, option_map};
ghost use Rattle.std.specs.List.{list_any};
ghost use Rattle.rdx_sexp.specs.Sexp.{sexps};
ghost use Rattle.rdx_sexp.specs.Size.{AreSpelled, IsSpelledSexp};
ghost use Rattle.rdx_term.specs.Spelling.{is_name};
ghost use Rattle.rdx_patterns.specs.Parts.{text_of};
ghost use Rattle.rdx_patterns.specs.Readable.{IsReadable};
ghost use Rattle.rdx_alpha.specs.Inside.WrittenView as view;
ghost use Rattle.rdx_alpha.specs.Written as written;
ghost use Rattle.rdx_alpha.specs.Written.{WrittenPlace};
ghost use Rattle.rdx_alpha.specs.Checks.{refusal_at, IsRefusedBy};
ghost use Rattle.rdx_alpha.specs.Reading as model;
ghost use Rattle.rdx_alpha.specs.View.{place_of, places_of, form_of, forms_of};
ghost use Rattle.rdx_alpha.specs.Inside.WrittenView.{written_place_of, written_places_of};
ghost use Rattle.rdx_alpha.specs.Inside.WrittenView.{written_form_of};

use crate::binders::{all_references, binders_in, is_binder_place, reference_names};
use crate::checks::{duplicate, misshapen};
use crate::form::{BPlace, BindingForm};
use crate::places::is_one_of;
use crate::written::{Form, Place, written_form, written_forms};
use rdx_patterns::refusal::{named, unnamed};
use rdx_patterns::shape::is_symbol;
use rdx_patterns::{DefFault, DefKind, symbol_name};
use rdx_sexp::Datum;
use rdx_term::NoMemory;
use std::alloc::Global;

// Whether one of the data is one of these symbols.
fn has_one_among(names: &[&Datum], items: &[&Datum]) -> bool
    ensures { result ≡ list_any (written.is_one_of (map (λ n. n.now) names.now))
        (map (λ n. n.now) items.now) }
{
    for item in items {
        if is_one_of(names, item) {
            return true;
        }
    }
    false
}

// The binders of each place, where some refer to these.
fn binder_rows<'a>(
    alloc: Global,
    all: &[&Datum],
    places: &[Place<'a>],
) -> Result<Vec<Vec<&'a Datum>>, NoMemory>
    ensures { IfOk result (λ rows. view.rows_of rows.items
        ≡ view.binder_rows (map (λ n. n.now) all.now) (written_places_of places.now)) }
{
    let mut rows = Vec::new(alloc);
    for place in places {
        let row = binders_in(alloc, all, place.datum)?;
        rows.push(row)?;
    }
    Ok(rows)
}

// The numbers of the places in which one of these names stands, by their binders.
fn numbers(alloc: Global, names: &[&Datum], rows: &[Vec<&Datum>]) -> Result<Vec<usize>, NoMemory>
    ensures { IfOk result (λ found. found.items
        ≡ view.numbers_among 0 (map (λ n. n.now) names.now) (view.rows_of rows.now)) }
{
    let mut found = Vec::new(alloc);
    for (k, row) in rows.iter().enumerate() {
        if has_one_among(names, row.as_slice()) {
            found.push(k)?;
        }
    }
    Ok(found)
}

// A place to which `#:refers-to` does not belong, by its kind.
fn place_by(all: &[&Datum], d: &Datum) -> BPlace
    ensures { place_of result ≡ model.place_by (map (λ n. n.now) all.now) d.now }
{
    if !is_binder_place(all, d) {
        BPlace::Plain
    } else if is_symbol(d) {
        BPlace::Binder
    } else {
        BPlace::Binders
    }
}

// A place by its kind, where these are the binders of all places.
fn place_meant(
    alloc: Global,
    rows: &[Vec<&Datum>],
    all: &[&Datum],
    place: &Place<'_>,
) -> Result<BPlace, NoMemory>
    ensures { (ps : List WrittenPlace)
        → view.rows_of rows.now ≡ view.binder_rows (map (λ n. n.now) all.now) ps
        → IfOk result (λ p. place_of p ≡ model.place_meant ps (map (λ n. n.now) all.now)
        (option_map (λ d. d.now) place.now.refers) place.now.datum.now) }
{
    match place.refers {
        Some(reference) => {
            let names = reference_names(alloc, reference)?;
            let found = numbers(alloc, &names, rows)?;
            Ok(BPlace::Body(found))
        }
        None => Ok(place_by(all, place.datum)),
    }
}

// The places of a form by their kinds, where these are their binders.
fn places_meant(
    alloc: Global,
    places: &[Place<'_>],
    rows: &[Vec<&Datum>],
    all: &[&Datum],
) -> Result<Vec<BPlace>, NoMemory>
    requires { view.rows_of rows.now
        ≡ view.binder_rows (map (λ n. n.now) all.now) (written_places_of places.now) }
    ensures { IfOk result (λ found. places_of found.items
        ≡ map (λ p. model.place_meant (written_places_of places.now) (map (λ n. n.now) all.now)
        p.refers p.datum) (written_places_of places.now)) }
{
    let mut found = Vec::new(alloc);
    for place in places {
        let one = place_meant(alloc, rows, all, place)?;
        found.push(one)?;
    }
    Ok(found)
}

// The binding form that is written so.
fn form_meant(alloc: Global, form: &Form<'_>) -> Result<BindingForm, NoMemory>
    requires { IsTrue (is_name (text_of form.now.head.now)) }
    ensures { IfOk result (λ f. form_of f ≡ model.form_meant (written_form_of form.now)) }
{
    let head = symbol_name(form.head)?;
    let all = all_references(alloc, &form.places)?;
    let rows = binder_rows(alloc, &all, &form.places)?;
    let places = places_meant(alloc, &form.places, &rows, &all)?;
    Ok(BindingForm { head, places })
}

// Adds the binding form that a datum writes, if it has the shape.
fn add_meant(alloc: Global, d: &Datum, forms: &mut Vec<BindingForm>) -> Result<(), NoMemory>
    requires { IsSpelledSexp d.now }
    ensures { OnOk result (forms_of forms.new.items
        ≡ forms_of forms.old.items ++ model.meant (written.written_form d.now) []) }
{
    if let Some(form) = written_form(alloc, d)? {
        let one = form_meant(alloc, &form)?;
        forms.push(one)?;
    }
    Ok(())
}

// The binding forms that these data write, in order.
fn forms_among(alloc: Global, written: &[Datum]) -> Result<Vec<BindingForm>, NoMemory>
    requires { AreSpelled (sexps written.now) }
    ensures { IfOk result (λ forms. forms_of forms.items ≡ model.forms_among written.now) }
{
    let mut forms = Vec::new(alloc);
    for d in written {
        add_meant(alloc, d, &mut forms)?;
    }
    Ok(forms)
}

/// The binding forms that a form of a language writes behind `#:binding-forms`, in order; none
/// where it is not there. They are refused at the first that has not its shape, and else at the
/// first head or name that comes for the second time.
pub fn read_forms(alloc: Global, form: &Datum) -> Result<Vec<BindingForm>, DefFault>
    requires { IsReadable form.now }
    ensures passed { OnOk result (refusal_at form.now ≡ None) }
    ensures ok { IfOk result (λ forms. forms_of forms.items ≡ model.forms_meant form.now) }
    ensures err { IfErr result (λ fault. IsRefusedBy fault (refusal_at form.now)) }
{
    let written = written_forms(form);
    if let Some(d) = misshapen(alloc, written)? {
        return Err(DefFault::Refused(unnamed(DefKind::Shape, d)));
    }
    if let Some(d) = duplicate(alloc, written)? {
        return Err(DefFault::Refused(named(alloc, DefKind::Duplicate, d)?));
    }
    Ok(forms_among(alloc, written)?)
}
