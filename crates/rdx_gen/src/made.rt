// Terms that are made of terms, within the limits.
ghost use Rattle.rdx_term.specs.View.{tree_of};
ghost use Rattle.rdx_gen.specs.Outcomes as model;
ghost use Rattle.rdx_gen.specs.Views.{Says, state_of, terms_in};

use crate::state::State;
use crate::stop::Stop;
use rdx_fill::{FillFault, fill};
use rdx_term::{Build, Term, list, marked_list};
use std::alloc::Global;

/// The list of these terms.
#[inline(never)]
pub(crate) fn listed(alloc: Global, state: &State, items: Vec<Term>) -> Result<Term, Stop>
    ensures { Says tree_of (model.listed (terms_in items) (state_of state.now)) result
        (state_of state.now) }
{
    match list(alloc, items) {
        Ok(t) => Ok(t),
        Err(Build::TooDeep) => Err(Stop::TooDeep),
        Err(Build::TooLarge) => Err(Stop::TooLarge),
        Err(Build::NoMemory) => Err(Stop::NoMemory),
    }
}

/// The list of these terms, marked at place `k`.
#[inline(never)]
pub(crate) fn marked(alloc: Global, state: &State, items: Vec<Term>, k: usize) -> Result<Term, Stop>
    ensures { Says tree_of (model.marked k (terms_in items) (state_of state.now)) result
        (state_of state.now) }
{
    if k >= items.len() {
        return Err(Stop::NoMemory);
    }
    let there = items[k].is_context();
    if !there {
        return Err(Stop::NoMemory);
    }
    match marked_list(alloc, items, k) {
        Ok(t) => Ok(t),
        Err(Build::TooDeep) => Err(Stop::TooDeep),
        Err(Build::TooLarge) => Err(Stop::TooLarge),
        Err(Build::NoMemory) => Err(Stop::NoMemory),
    }
}

/// The context filled with the part.
#[inline(never)]
pub(crate) fn filled(
    alloc: Global,
    state: &State,
    context: &Term,
    part: &Term,
) -> Result<Term, Stop>
    ensures { Says tree_of (model.filled (tree_of context.now) (tree_of part.now)
        (state_of state.now)) result (state_of state.now) }
{
    if !context.is_context() {
        return Err(Stop::NoMemory);
    }
    match fill(alloc, context, part) {
        Ok(t) => Ok(t),
        Err(FillFault::NotContext(_)) => Err(Stop::NoMemory),
        Err(FillFault::TooDeep) => Err(Stop::TooDeep),
        Err(FillFault::TooLarge) => Err(Stop::TooLarge),
        Err(FillFault::NoMemory) => Err(Stop::NoMemory),
    }
}
