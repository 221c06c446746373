// The numbers of the components of places, and the first place that reaches itself.
ghost use Rattle.std.specs.Prelude.{◌≡◌, ℕ, ◌<◌, true, false, map, slice_index, IfOk, MatchOption, length};
ghost use Rattle.rdx_lang.specs.Members.{In};
ghost use Rattle.rdx_leftrec.specs.Inside.Components.{AreComponents, AreFalling, IsFirst};
ghost use Rattle.rdx_leftrec.specs.Inside.Leads.{lists_of};
ghost use Rattle.rdx_leftrec.specs.Inside.Reach.{AreTargets};
ghost use Rattle.rdx_leftrec.specs.Inside.Walks.{number_of};

use crate::walk::{State, Walk};
use rdx_term::NoMemory;
use std::alloc::Global;

/// What there is to know of recursion.
#[derive(Drop)]
pub(crate) enum Found {
    /// No place reaches itself, and these numbers of all places fall along every step.
    Numbers(Vec<usize>),
    /// The first place that reaches itself.
    Recursive(usize),
}

// The number of the component of a place that is done.
fn number(state: State) -> usize
    ensures { result ≡ number_of state }
{
    match state {
        State::New | State::Open(_) => 0,
        State::Done(number) => number,
    }
}

// The numbers of the components of places that are done.
fn numbers(alloc: Global, states: &[State]) -> Result<Vec<usize>, NoMemory>
    ensures { IfOk result (λ v. v.items ≡ map number_of states.now) }
{
    let mut numbers = Vec::new(alloc);
    for state in states {
        numbers.push(number(*state))?;
    }
    Ok(numbers)
}

// The number of each place's component: no step leads to a greater one.
fn components(alloc: Global, targets: &[Vec<usize>]) -> Result<Vec<usize>, NoMemory>
    requires { AreTargets (lists_of targets.now) }
    ensures { IfOk result (λ v. AreComponents (lists_of targets.now) v.items) }
{
    let mut walk = Walk::new(alloc, targets.len())?;
    for place in 0..targets.len() {
        walk.explore(targets, place)?;
    }
    numbers(alloc, &walk.states)
}

// Whether one of these places has the number.
fn has_number(numbers: &[usize], places: &[usize], number: usize) -> bool
    requires { (j : ℕ) → In j places.now → j < length numbers.now }
    ensures yes { result ≡ true →
        (j : ℕ) × In j places.now × (slice_index numbers.now j ≡ number) }
    ensures no { result ≡ false →
        (j : ℕ) → In j places.now → ¬ (slice_index numbers.now j ≡ number) }
{
    for place in places {
        if numbers[*place] == number {
            return true;
        }
    }
    false
}

// The first place with a step to a place of its own component.
fn first_recursive(targets: &[Vec<usize>], numbers: &[usize]) -> Option<usize>
    requires targets { AreTargets (lists_of targets.now) }
    requires components { AreComponents (lists_of targets.now) numbers.now }
    ensures { MatchOption result (AreFalling (lists_of targets.now) numbers.now)
        (IsFirst (lists_of targets.now)) }
{
    for place in 0..targets.len() {
        if has_number(numbers, &targets[place], numbers[place]) {
            return Some(place);
        }
    }
    None
}

impl Found {
    ghost use Rattle.std.specs.Prelude.{IfOk};
    ghost use Rattle.rdx_leftrec.specs.Inside.Found.{IsFound};

    /// Numbers of places that fall along every step, or the first place that reaches itself.
    pub(crate) fn of(alloc: Global, targets: &[Vec<usize>]) -> Result<Found, NoMemory>
        requires { AreTargets (lists_of targets.now) }
        ensures { IfOk result (IsFound (lists_of targets.now)) }
    {
        let numbers = components(alloc, targets)?;
        match first_recursive(targets, &numbers) {
            Some(place) => Ok(Found::Recursive(place)),
            None => Ok(Found::Numbers(numbers)),
        }
    }
}
