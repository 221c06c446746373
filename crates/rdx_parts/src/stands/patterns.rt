// The checks of what stands in a pattern, one by one.
ghost use Rattle.std.specs.Prelude.{◌≡◌, option_map};
ghost use Rattle.rdx_patterns.specs.OccurrenceView.{occurrences_of};
ghost use Rattle.rdx_patterns.specs.PatternChecks as model;
ghost use Rattle.rdx_templates.specs.Earliest.{earliest, start};

use rdx_patterns::Names;
use rdx_patterns::checks::{bad_binder, bad_occurrence, escape_in, keyword_fault};
use rdx_patterns::occurrences::Occurrence;
use rdx_sexp::Datum;
use rdx_templates::earliest::earlier;

/// The earliest keyword.
#[tactic(auto, using(rdx_templates::proofs::EarliestPlaces::lesser_assoc, rdx_templates::proofs::EarliestPlaces::lesser_none, rdx_templates::proofs::EarliestPlaces::earliest_append))]
pub(crate) fn earliest_keyword<'a>(found: &[Occurrence<'a>]) -> Option<&'a Datum>
    ensures { option_map (λ d. d.now) result
        ≡ earliest start (model.keyword_faults (occurrences_of found.now)) }
{
    let mut place = None;
    for o in found {
        place = earlier(place, keyword_fault(o));
    }
    place
}

/// The earliest name that is bound and may not be.
#[tactic(auto, using(std::proofs::lemmas::Grind::common_steps, rdx_templates::proofs::EarliestPlaces::lesser_assoc, rdx_templates::proofs::EarliestPlaces::lesser_none, rdx_templates::proofs::EarliestPlaces::earliest_append, crate::proofs::LonePlaces::bad_binder_alone))]
pub(crate) fn earliest_bad_binder<'a>(found: &[Occurrence<'a>]) -> Option<&'a Datum>
    ensures { option_map (λ d. d.now) result
        ≡ earliest start (model.bad_binders (occurrences_of found.now)) }
{
    let mut place = None;
    for o in found {
        place = earlier(place, bad_binder(o));
    }
    place
}

/// The earliest part that means nothing, over these nonterminals.
#[tactic(auto, using(std::proofs::lemmas::Grind::common_steps, rdx_templates::proofs::EarliestPlaces::lesser_assoc, rdx_templates::proofs::EarliestPlaces::lesser_none, rdx_templates::proofs::EarliestPlaces::earliest_append, crate::proofs::LonePlaces::bad_occurrence_alone))]
pub(crate) fn earliest_bad_occurrence<'a>(
    names: &Names,
    found: &[Occurrence<'a>],
) -> Option<&'a Datum>
    ensures { option_map (λ d. d.now) result
        ≡ earliest start (model.bad_occurrences names.now (occurrences_of found.now)) }
{
    let mut place = None;
    for o in found {
        place = earlier(place, bad_occurrence(names, o));
    }
    place
}

/// The earliest list that would ask Racket.
#[tactic(auto, using(rdx_templates::proofs::EarliestPlaces::lesser_assoc, rdx_templates::proofs::EarliestPlaces::lesser_none, rdx_templates::proofs::EarliestPlaces::earliest_append))]
pub(crate) fn earliest_escape<'a>(found: &[Occurrence<'a>]) -> Option<&'a Datum>
    ensures { option_map (λ d. d.now) result
        ≡ earliest start (model.escapes (occurrences_of found.now)) }
{
    let mut place = None;
    for o in found {
        place = earlier(place, escape_in(o));
    }
    place
}
