// Names that are bound at two depths.
ghost use Rattle.std.specs.Prelude.{◌≡◌, ◌++◌, IfOk, option_map};
ghost use Rattle.rdx_patterns.specs.OccurrenceView.{occurrences_of};
ghost use Rattle.rdx_templates.specs.Bound as model;
ghost use Rattle.rdx_templates.specs.Earliest.{earliest, start};
ghost use Rattle.rdx_parts.specs.PartsHave.{BindNames};
ghost use Rattle.rdx_parts.specs.StandChecks.{is_other, other_depths};
ghost use Rattle.rdx_parts.specs.Stands.{bound_among};

use crate::stands::names::bound_name;
use rdx_patterns::checks::{bound_by, when};
use rdx_patterns::occurrences::Occurrence;
use rdx_patterns::shape::text;
use rdx_patterns::{Names, Position};
use rdx_sexp::Datum;
use rdx_templates::earliest::earlier;
use rdx_templates::templates::bound::Bound;
use rdx_term::NoMemory;
use std::alloc::Global;

// The depth with which a text is bound among these, or else among those.
#[tactic(auto, using(rdx_templates::proofs::Depths::depth_before, rdx_templates::proofs::Depths::depth_behind))]
fn depth_among(bound: &Bound<'_>, behind: &Bound<'_>, text: &str) -> Option<u32>
    ensures { result ≡ model.depth_of (bound.now ++ behind.now) text.now }
{
    match bound.depth_of(text) {
        Some(depth) => Some(depth),
        None => behind.depth_of(text),
    }
}

// The same, or else at last among these here.
#[tactic(auto, using(rdx_templates::proofs::Depths::depth_before, rdx_templates::proofs::Depths::depth_behind))]
fn depth_here(bound: &Bound<'_>, behind: &Bound<'_>, here: &Bound<'_>, text: &str) -> Option<u32>
    ensures { result ≡ model.depth_of ((bound.now ++ behind.now) ++ here.now) text.now }
{
    match depth_among(bound, behind, text) {
        Some(depth) => Some(depth),
        None => here.depth_of(text),
    }
}

// Whether this is another depth.
fn is_another(depth: u32, first: Option<u32>) -> bool
    ensures { result ≡ is_other depth first }
{
    match first {
        Some(first) => depth != first,
        None => false,
    }
}

/// The earliest symbol that binds a name at another depth than it has first, be that among these
/// names, among those behind them or at a symbol before it.
#[tactic(auto, using(rdx_templates::proofs::EarliestPlaces::lesser_none))]
pub(crate) fn earliest_clash<'a>(
    alloc: Global,
    names: &Names,
    bound: &Bound<'_>,
    behind: &Bound<'_>,
    found: &[Occurrence<'a>],
) -> Result<Option<&'a Datum>, NoMemory>
    requires { BindNames (bound_among names.now (occurrences_of found.now)) }
    ensures { IfOk result (λ r.
        option_map (λ d. d.now) r
        ≡ earliest start (other_depths (bound.now ++ behind.now)
        (bound_among names.now (occurrences_of found.now)))) }
{
    let mut here = Bound::new(alloc);
    let mut clash = None;
    for o in found {
        if let Some((depth, d)) = bound_by(names, Position::Query, o) {
            let name = text(d);
            let entry = bound_name(depth, d)?;
            let first = depth_here(bound, behind, &here, name);
            clash = earlier(clash, when(is_another(entry.1, first), d));
            here.push(name, entry)?;
        }
    }
    Ok(clash)
}
