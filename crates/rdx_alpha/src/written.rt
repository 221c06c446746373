// Binding forms as data write them.
ghost use Rattle.std.specs.Prelude.{◌≡◌, ◌≤◌, Some, None, IfOk, IfSome, length, option_map};
ghost use Rattle.rdx_alpha.specs.Written as model;
ghost use Rattle.rdx_alpha.specs.Inside.WrittenView as view;

use crate::places::{has_keyword, is_key, is_reference};
use rdx_patterns::shape::{is_symbol, is_word, items};
use rdx_sexp::Datum;
use rdx_term::NoMemory;
use std::alloc::Global;

// A place, and what it refers to where `#:refers-to` stands behind it.
#[derive(Clone, Copy)]
pub struct Place<'a> {
    pub datum: &'a Datum,
    pub refers: Option<&'a Datum>,
}

// A head, and the places behind it.
#[derive(Drop)]
pub struct Form<'a> {
    pub head: &'a Datum,
    pub places: Vec<Place<'a>>,
}

// What stands behind the first `#:binding-forms` among these.
fn behind_key(items: &[Datum]) -> &[Datum]
    ensures { result.now ≡ model.behind_key items.now }
{
    let mut left = items;
    while let Some((item, others)) = left.split_first() {
        if is_key(item, "binding-forms") {
            return others;
        }
        left = others;
    }
    &[]
}

// The data behind the first `#:binding-forms` of a form.
pub(crate) fn written_forms(form: &Datum) -> &[Datum]
    ensures { result.now ≡ model.written_forms form.now }
{
    match items(form) {
        Some(items) => behind_key(items),
        None => &[],
    }
}

// The place of this datum that refers so, unless a keyword stands in it, and what stands behind.
fn place_with<'a>(
    datum: &'a Datum,
    refers: Option<&'a Datum>,
    others: &'a [Datum],
) -> Option<(Place<'a>, &'a [Datum])>
    ensures place { option_map (λ c. (view.written_place_of c.0, c.1.now)) result
        ≡ view.place_with datum.entry.now (option_map (λ d. d.now) refers.entry) others.entry.now }
    ensures shorter { IfSome result (λ c. length c.1.now ≤ length others.entry.now) }
{
    if has_keyword(datum) {
        None
    } else {
        Some((Place { datum, refers }, others))
    }
}

// The place that begins with this datum, and what stands behind the place.
fn place_before<'a>(datum: &'a Datum, behind: &'a [Datum]) -> Option<(Place<'a>, &'a [Datum])>
    ensures place { option_map (λ c. (view.written_place_of c.0, c.1.now)) result
        ≡ view.place_before datum.entry.now behind.entry.now }
    ensures shorter { IfSome result (λ c. length c.1.now ≤ length behind.entry.now) }
{
    match behind {
        [key, reference, others @ ..] => {
            if !is_key(key, "refers-to") {
                place_with(datum, None, behind)
            } else if is_reference(reference) {
                place_with(datum, Some(reference), others)
            } else {
                None
            }
        }
        [_] | [] => place_with(datum, None, behind),
    }
}

// The places that these data write, if they have the shape.
fn written_places<'a>(alloc: Global, items: &'a [Datum]) -> Result<Option<Vec<Place<'a>>>, NoMemory>
    ensures { IfOk result (λ found.
        option_map (λ ps. view.written_places_of ps.items) found
        ≡ model.written_places items.now) }
{
    let mut places = Vec::new(alloc);
    let mut left = items;
    while let Some((datum, behind)) = left.split_first() {
        let Some((place, others)) = place_before(datum, behind) else {
            return Ok(None);
        };
        places.push(place)?;
        left = others;
    }
    Ok(Some(places))
}

// The binding form of a list of these items, if it has the shape.
fn form_among<'a>(alloc: Global, items: &'a [Datum]) -> Result<Option<Form<'a>>, NoMemory>
    ensures { IfOk result (λ found.
        option_map view.written_form_of found ≡ model.form_among items.now) }
{
    let Some((head, others)) = items.split_first() else {
        return Ok(None);
    };
    if !is_symbol(head) || is_word(head, "hole") {
        return Ok(None);
    }
    match written_places(alloc, others)? {
        Some(places) => Ok(Some(Form { head, places })),
        None => Ok(None),
    }
}

// The binding form that a datum writes, if it has the shape.
pub(crate) fn written_form<'a>(alloc: Global, d: &'a Datum) -> Result<Option<Form<'a>>, NoMemory>
    ensures { IfOk result (λ found.
        option_map view.written_form_of found ≡ model.written_form d.now) }
{
    match items(d) {
        Some(items) => form_among(alloc, items),
        None => Ok(None),
    }
}
