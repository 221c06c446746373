// The checks of a form for which it need not be known what is bound, one by one.
ghost use Rattle.std.specs.Prelude.{◌≡◌, ◌++◌, [], IfOk, option_map};
ghost use Rattle.rdx_patterns.specs.Inside.Repeats.{texts_in, HaveSame};
ghost use Rattle.rdx_patterns.specs.OccurrenceView.{occurrences_of};
ghost use Rattle.rdx_templates.specs.Earliest.{earliest, lesser, start};
ghost use Rattle.rdx_templates.specs.Scope.{scope_of};
ghost use Rattle.rdx_parts.specs.PartViews.{misfit_of, stand_of, stands_of};
ghost use Rattle.rdx_parts.specs.NamesAgain as repeats;
ghost use Rattle.rdx_parts.specs.StandChecks as model;
ghost use Rattle.rdx_parts.specs.Stands.{bound_among};

use crate::arguments::mode_of;
use crate::stands::collecting::Stand;
use crate::stands::patterns::{earliest_bad_binder, earliest_keyword};
use rdx_patterns::checks::{bound_by, when};
use rdx_patterns::names::{begins_with_dots, is_bad_bound, is_bad_name};
use rdx_patterns::occurrences::Occurrence;
use rdx_patterns::shape::{is_word, text};
use rdx_patterns::{Names, Position};
use rdx_sexp::{Datum, Form};
use rdx_templates::Scope;
use rdx_templates::earliest::{earlier, is_before};
use rdx_templates::templates::shapes::{shape_in_host, shape_in_template};
use rdx_term::NoMemory;
use std::alloc::Global;
use std::collections::BTreeSet;

fn shape_fault<'a>(s: &Stand<'a>) -> Option<&'a Datum>
    ensures { option_map (λ d. d.now) result ≡ earliest start (model.shape_fault (stand_of s.now)) }
{
    match s {
        Stand::Misshaped(d) => Some(*d),
        Stand::Function(_)
        | Stand::Judgement(_)
        | Stand::Asked(_)
        | Stand::Arrow(_)
        | Stand::Misfit(_, _)
        | Stand::Fresh(_)
        | Stand::Repeated(_) => None,
        Stand::Pattern(found) | Stand::Plain(found) => earliest_keyword(found),
        Stand::Template(t) => shape_in_template(t),
        Stand::Condition(h) => shape_in_host(h),
        Stand::Named(again, d) => when(*again, d),
    }
}

/// The earliest thing that has not its shape, keyword in a pattern or a template, operation with a
/// wrong number of arguments, or name where none may come.
#[tactic(auto, using(std::proofs::lemmas::Grind::common_steps, rdx_templates::proofs::EarliestPlaces::lesser_assoc, rdx_templates::proofs::EarliestPlaces::lesser_none, rdx_templates::proofs::EarliestPlaces::earliest_append))]
pub(crate) fn earliest_shape_fault<'a>(found: &[Stand<'a>]) -> Option<&'a Datum>
    ensures { option_map (λ d. d.now) result
        ≡ earliest start (model.shape_faults (stands_of found.now)) }
{
    let mut place = None;
    for s in found {
        place = earlier(place, shape_fault(s));
    }
    place
}

/// The text of the name of a case or a rule.
pub fn label(d: &Datum) -> &str
    ensures { result.now ≡ model.label d.now }
{
    match &d.form {
        Form::Str(text) | Form::Sym(text) => text.as_str(),
        Form::Int(_) | Form::Bool(_) | Form::Key(_) | Form::List(_) => "",
    }
}

// Adds the texts of the names that these bind, over these nonterminals.
fn add_texts<'a>(
    names: &Names,
    found: &[Occurrence<'a>],
    bound: &mut BTreeSet<&'a str>,
) -> Result<(), NoMemory>
    ensures { IfOk result (λ _.
        HaveSame (texts_in bound.new)
        (texts_in bound.old
        ++ repeats.texts_bound (bound_among names.now (occurrences_of found.now)))) }
{
    for o in found {
        if let Some((_, d)) = bound_by(names, Position::Query, o) {
            bound.insert(text(d))?;
        }
    }
    Ok(())
}

// The name of a case or a rule, where it is one of those before it, or the name that is made, where
// it is bound in its case. From now on it comes before, and what binds names here has bound them.
fn name_again<'a>(
    names: &Names,
    s: &Stand<'a>,
    seen: &mut BTreeSet<&'a str>,
    bound: &mut BTreeSet<&'a str>,
) -> Result<Option<&'a Datum>, NoMemory>
    ensures again { IfOk result (λ r.
        option_map (λ d. d.now) r
        ≡ earliest start
        (repeats.name_again (texts_in seen.old) (texts_in bound.old) (stand_of s.now))) }
    ensures seen { IfOk result (λ _.
        HaveSame (texts_in seen.new) (model.names_with (texts_in seen.old) (stand_of s.now))) }
    ensures bound { IfOk result (λ _.
        HaveSame (texts_in bound.new)
        (repeats.bound_with names.now (texts_in bound.old) (stand_of s.now))) }
{
    match s {
        Stand::Arrow(_) => {
            bound.clear();
            Ok(None)
        }
        Stand::Pattern(found) => {
            add_texts(names, found, bound)?;
            Ok(None)
        }
        Stand::Fresh(d) => {
            let is_new = bound.insert(text(d))?;
            Ok(when(!is_new, d))
        }
        Stand::Named(_, d) => {
            let is_new = seen.insert(label(d))?;
            Ok(when(!is_new, d))
        }
        Stand::Misshaped(_)
        | Stand::Function(_)
        | Stand::Judgement(_)
        | Stand::Asked(_)
        | Stand::Template(_)
        | Stand::Condition(_)
        | Stand::Plain(_)
        | Stand::Misfit(_, _) => Ok(None),
        Stand::Repeated(d) => Ok(Some(*d)),
    }
}

/// The earliest name of a case or a rule that an earlier one has, or name that is made and is bound
/// before.
#[tactic(auto, using(rdx_templates::proofs::EarliestPlaces::lesser_none))]
pub(crate) fn earliest_repeated<'a>(
    alloc: Global,
    names: &Names,
    found: &[Stand<'a>],
) -> Result<Option<&'a Datum>, NoMemory>
    ensures { IfOk result (λ r.
        option_map (λ d. d.now) r
        ≡ earliest start (repeats.names_again names.now [] [] (stands_of found.now))) }
{
    let mut seen = BTreeSet::new(alloc);
    let mut bound = BTreeSet::new(alloc);
    let mut place = None;
    for s in found {
        place = earlier(place, name_again(names, s, &mut seen, &mut bound)?);
    }
    Ok(place)
}

// Whether no metafunction may have this name.
fn is_bad_function(name: &str) -> bool
    ensures { result ≡ model.is_bad_function name.now }
{
    matches!(name, "in-hole" | "hole" | "unquote" | "unquote-splicing") || begins_with_dots(name)
}

fn bad_name<'a>(s: &Stand<'a>) -> Option<&'a Datum>
    ensures { option_map (λ d. d.now) result ≡ earliest start (model.bad_name (stand_of s.now)) }
{
    match s {
        Stand::Function(d) => when(is_bad_function(text(d)), d),
        Stand::Judgement(d) => when(is_bad_name(text(d)), d),
        Stand::Fresh(d) => when(is_bad_bound(text(d)), d),
        Stand::Pattern(found) => earliest_bad_binder(found),
        Stand::Misshaped(_)
        | Stand::Asked(_)
        | Stand::Arrow(_)
        | Stand::Template(_)
        | Stand::Condition(_)
        | Stand::Plain(_)
        | Stand::Misfit(_, _)
        | Stand::Named(_, _)
        | Stand::Repeated(_) => None,
    }
}

/// The earliest name that a metafunction or a judgement has, or that is bound, and that may not be.
#[tactic(auto, using(std::proofs::lemmas::Grind::common_steps, rdx_templates::proofs::EarliestPlaces::lesser_assoc, rdx_templates::proofs::EarliestPlaces::lesser_none, rdx_templates::proofs::EarliestPlaces::earliest_append))]
pub(crate) fn earliest_bad_name<'a>(found: &[Stand<'a>]) -> Option<&'a Datum>
    ensures { option_map (λ d. d.now) result
        ≡ earliest start (model.bad_names (stands_of found.now)) }
{
    let mut place = None;
    for s in found {
        place = earlier(place, bad_name(s));
    }
    place
}

fn unknown_name<'a>(scope: &Scope, s: &Stand<'a>) -> Option<&'a Datum>
    ensures { option_map (λ d. d.now) result
        ≡ earliest start (model.unknown_name (scope_of scope.now) (stand_of s.now)) }
{
    match s {
        Stand::Asked(d) => when(mode_of(scope, text(d)).is_none(), d),
        Stand::Arrow(d) => when(!is_word(d, "-->"), d),
        Stand::Misshaped(_)
        | Stand::Function(_)
        | Stand::Judgement(_)
        | Stand::Pattern(_)
        | Stand::Template(_)
        | Stand::Condition(_)
        | Stand::Plain(_)
        | Stand::Misfit(_, _)
        | Stand::Fresh(_)
        | Stand::Named(_, _)
        | Stand::Repeated(_) => None,
    }
}

/// The earliest symbol that is no arrow where one has to stand, or no judgement of the file.
#[tactic(auto, using(std::proofs::lemmas::Grind::common_steps, rdx_templates::proofs::EarliestPlaces::lesser_assoc, rdx_templates::proofs::EarliestPlaces::lesser_none, rdx_templates::proofs::EarliestPlaces::earliest_append))]
pub(crate) fn earliest_unknown_name<'a>(scope: &Scope, found: &[Stand<'a>]) -> Option<&'a Datum>
    ensures { option_map (λ d. d.now) result
        ≡ earliest start (model.unknown_names (scope_of scope.now) (stands_of found.now)) }
{
    let mut place = None;
    for s in found {
        place = earlier(place, unknown_name(scope, s));
    }
    place
}

/// What does not fit a mode, and the name of the judgement, where there is one.
#[derive(Clone, Copy)]
pub(crate) struct Misfit<'a> {
    pub(crate) datum: &'a Datum,
    pub(crate) judgement: Option<&'a Datum>,
}

// What does not fit a mode, where the thing is such.
fn misfit_in<'a>(s: &Stand<'a>) -> Option<Misfit<'a>>
    ensures { option_map misfit_of result
        ≡ earliest model.misfit_start (model.mode_fault (stand_of s.now)) }
{
    match s {
        Stand::Misfit(datum, judgement) => Some(Misfit {
            datum,
            judgement: *judgement,
        }),
        Stand::Misshaped(_)
        | Stand::Function(_)
        | Stand::Judgement(_)
        | Stand::Asked(_)
        | Stand::Arrow(_)
        | Stand::Pattern(_)
        | Stand::Template(_)
        | Stand::Condition(_)
        | Stand::Plain(_)
        | Stand::Fresh(_)
        | Stand::Named(_, _)
        | Stand::Repeated(_) => None,
    }
}

// The one of two that begins earlier; the first, where both begin at one place.
fn earlier_misfit<'a>(one: Option<Misfit<'a>>, other: Option<Misfit<'a>>) -> Option<Misfit<'a>>
    ensures { option_map misfit_of result
        ≡ lesser model.misfit_start (option_map misfit_of one.entry)
        (option_map misfit_of other.entry) }
{
    let Some(first) = one else {
        return other;
    };
    let Some(second) = other else {
        return one;
    };
    let (sooner, later) = (first.datum, second.datum);
    if is_before(later.span.start, sooner.span.start) {
        other
    } else {
        one
    }
}

/// The earliest thing that does not fit the mode of a judgement, or lacks one.
#[tactic(auto, using(rdx_templates::proofs::EarliestPlaces::lesser_assoc, rdx_templates::proofs::EarliestPlaces::lesser_none, rdx_templates::proofs::EarliestPlaces::earliest_append))]
pub(crate) fn earliest_misfit<'a>(found: &[Stand<'a>]) -> Option<Misfit<'a>>
    ensures { option_map misfit_of result
        ≡ earliest model.misfit_start (model.mode_faults (stands_of found.now)) }
{
    let mut earliest = None;
    for s in found {
        earliest = earlier_misfit(earliest, misfit_in(s));
    }
    earliest
}
