// The places of patterns to choose among.
ghost use Rattle.std.specs.Prelude.{◌≡◌, ◌<◌, IfOk, map, length};
ghost use Rattle.rdx_lang.specs.Checked.{language_in};
ghost use Rattle.rdx_lang.specs.PatternView.{definition_of};
ghost use Rattle.rdx_gen.specs.Inside.Picks as inside;
ghost use Rattle.rdx_gen.specs.Inside.Picks.{choices_in, picks_at, picks_in, picks_over};
ghost use Rattle.rdx_gen.specs.KnownView.{known_of};
ghost use Rattle.rdx_gen.specs.Generation as model;
ghost use Rattle.rdx_gen.specs.Outcomes.{one_of};
ghost use Rattle.rdx_gen.specs.Views.{Says, state_of};

use crate::heights::least;
use crate::known::Known;
use crate::state::State;
use crate::stop::Stop;
use rdx_lang::{Pat, Ref};
use rdx_term::NoMemory;
use std::alloc::Global;

// Whether a pattern of this height is one to choose.
fn is_choice(size: u32, lowest: Option<usize>, height: Option<usize>) -> bool
    ensures { result ≡ model.is_choice size lowest height }
{
    match (lowest, height) {
        (Some(m), Some(h)) => size != 0 || h == m,
        _ => false,
    }
}

// The places of those to choose among patterns of these heights.
fn places_to_choose(
    alloc: Global,
    size: u32,
    heights: &[Option<usize>],
) -> Result<Vec<usize>, NoMemory>
    ensures { IfOk result (λ v. v.items ≡ model.choices size heights.now) }
{
    let lowest = least(heights);
    let mut places = Vec::new(alloc);
    for i in 0..heights.len() {
        if is_choice(size, lowest, heights[i]) {
            places.push(i)?;
        }
    }
    Ok(places)
}

/// One of these.
pub(crate) fn one_of(state: &mut State, places: &[usize]) -> Result<usize, Stop>
    ensures { Says (λ k. k) (one_of places.now (state_of state.old)) result (state_of state.new) }
{
    if places.is_empty() {
        return Err(Stop::NoMemory);
    }
    let k = state.words.pick(places.len());
    Ok(places[k])
}

/// The place of one of those to choose among patterns of these heights.
pub(crate) fn chosen(
    alloc: Global,
    state: &mut State,
    size: u32,
    heights: &[Option<usize>],
) -> Result<usize, Stop>
    ensures { Says (λ k. k) (one_of (model.choices size heights.now) (state_of state.old)) result
        (state_of state.new) }
{
    let places = places_to_choose(alloc, size, heights)?;
    one_of(state, &places)
}

/// The places of those to choose among some patterns, made once.
#[derive(Drop)]
pub(crate) struct Picks {
    /// At size 0: those of the least height.
    pub(crate) at_zero: Vec<usize>,
    /// At a size above 0: all that have a height.
    pub(crate) above: Vec<usize>,
}

impl Picks {
    // Those among patterns of these heights.
    fn new(alloc: Global, heights: &[Option<usize>]) -> Result<Picks, NoMemory>
        ensures { IfOk result (λ p. picks_in p ≡ picks_over heights.now) }
    {
        let at_zero = places_to_choose(alloc, 0, heights)?;
        let above = places_to_choose(alloc, 1, heights)?;
        Ok(Picks { at_zero, above })
    }

    /// Those for this size.
    pub(crate) fn at(&self, size: u32) -> &[usize]
        ensures { result.now ≡ picks_at (picks_in self.now) size }
    {
        if size == 0 {
            &self.at_zero
        } else {
            &self.above
        }
    }
}

/// The places of the alternatives of a nonterminal to choose among.
#[derive(Drop)]
pub(crate) struct Choices {
    pub(crate) as_term: Picks,
    pub(crate) as_context: Picks,
}

// Those of a nonterminal that is defined so.
fn choices_over(
    alloc: Global,
    known: &Known,
    definition: &(Ref, Vec<Pat>),
) -> Result<Choices, NoMemory>
    ensures { IfOk result (λ c. choices_in c ≡ inside.choices_over (known_of known.now)
        (definition_of definition.now)) }
{
    let terms = known.term_heights(alloc, &definition.1)?;
    let contexts = known.context_heights(alloc, &definition.1)?;
    let as_term = Picks::new(alloc, &terms)?;
    let as_context = Picks::new(alloc, &contexts)?;
    Ok(Choices {
        as_term,
        as_context,
    })
}

/// Those of each nonterminal, in the language's order.
#[tactic(auto, using(rdx_lang::proofs::Rest::rest_at, rdx_lang::proofs::Rest::rest_none))]
pub(crate) fn all_choices(alloc: Global, known: &Known) -> Result<Vec<Choices>, NoMemory>
    ensures { IfOk result (λ v. map choices_in v.items
        ≡ map (inside.choices_over (known_of known.now))
        (language_in known.now.nonterminals.now.language.now).nonterminals) }
{
    let mut all = Vec::new(alloc);
    let nts = &known.nonterminals.language.language().nts;
    for i in 0..nts.len() {
        all.push(choices_over(alloc, known, &nts[i])?)?;
    }
    Ok(all)
}
