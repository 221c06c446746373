// The checks of a template by what stands in it, one by one.
ghost use Rattle.std.specs.Prelude.{◌≡◌, option_map};
ghost use Rattle.rdx_templates.specs.Earliest.{earliest, start};
ghost use Rattle.rdx_templates.specs.Inside.PartView.{part_of, parts_of};
ghost use Rattle.rdx_templates.specs.TemplateChecks as model;

use crate::earliest::earlier;
use crate::templates::bound::Bound;
use crate::templates::parts::TemplatePart;
use rdx_patterns::checks::when;
use rdx_patterns::names::begins_with_dots;
use rdx_patterns::shape::text;
use rdx_sexp::Datum;

fn bad_part<'a>(part: &TemplatePart<'a>) -> Option<&'a Datum>
    ensures { option_map (λ d. d.now) result ≡ earliest start (model.bad_part (part_of part.now)) }
{
    match part {
        TemplatePart::Single(_, d) => when(begins_with_dots(text(d)), d),
        TemplatePart::Malformed(d) => Some(*d),
        TemplatePart::Escape(_) => None,
    }
}

/// The earliest part that means nothing.
#[tactic(auto, using(crate::proofs::EarliestPlaces::lesser_assoc, crate::proofs::EarliestPlaces::lesser_none, crate::proofs::EarliestPlaces::earliest_append))]
pub(crate) fn earliest_bad_part<'a>(found: &[TemplatePart<'a>]) -> Option<&'a Datum>
    ensures { option_map (λ d. d.now) result ≡ earliest start (model.bad_parts (parts_of found.now)) }
{
    let mut place = None;
    for part in found {
        place = earlier(place, bad_part(part));
    }
    place
}

// Whether so many ellipses are fewer than this depth.
fn are_fewer(ellipses: u32, depth: Option<u32>) -> bool
    ensures { result ≡ model.are_fewer ellipses depth }
{
    match depth {
        Some(depth) => ellipses < depth,
        None => false,
    }
}

fn shallow_part<'a>(bound: &Bound<'_>, part: &TemplatePart<'a>) -> Option<&'a Datum>
    ensures { option_map (λ d. d.now) result
        ≡ earliest start (model.shallow_part bound.now (part_of part.now)) }
{
    match part {
        TemplatePart::Single(depth, d) => when(are_fewer(*depth, bound.depth_of(text(d))), d),
        TemplatePart::Malformed(_) | TemplatePart::Escape(_) => None,
    }
}

/// The earliest name under fewer ellipses than its depth.
#[tactic(auto, using(crate::proofs::EarliestPlaces::lesser_assoc, crate::proofs::EarliestPlaces::lesser_none, crate::proofs::EarliestPlaces::earliest_append))]
pub(crate) fn earliest_shallow_part<'a>(
    bound: &Bound<'_>,
    found: &[TemplatePart<'a>],
) -> Option<&'a Datum>
    ensures { option_map (λ d. d.now) result
        ≡ earliest start (model.shallow_parts bound.now (parts_of found.now)) }
{
    let mut place = None;
    for part in found {
        place = earlier(place, shallow_part(bound, part));
    }
    place
}

fn escape_in<'a>(part: &TemplatePart<'a>) -> Option<&'a Datum>
    ensures { option_map (λ d. d.now) result ≡ earliest start (model.escape_in (part_of part.now)) }
{
    match part {
        TemplatePart::Escape(d) => Some(*d),
        TemplatePart::Single(_, _) | TemplatePart::Malformed(_) => None,
    }
}

/// The earliest part that would ask Racket.
#[tactic(auto, using(crate::proofs::EarliestPlaces::lesser_assoc, crate::proofs::EarliestPlaces::lesser_none, crate::proofs::EarliestPlaces::earliest_append))]
pub(crate) fn earliest_escape<'a>(found: &[TemplatePart<'a>]) -> Option<&'a Datum>
    ensures { option_map (λ d. d.now) result ≡ earliest start (model.escapes (parts_of found.now)) }
{
    let mut place = None;
    for part in found {
        place = earlier(place, escape_in(part));
    }
    place
}
