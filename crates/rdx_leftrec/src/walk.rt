// A walk over places along their steps, which finds the components: greatest sets of places that
// reach one another.
ghost use Rattle.std.specs.Prelude.{◌≡◌, ◌<◌, ◌≤◌, ◌↔◌, ◌++◌, ◌∷◌, [], ℕ, length, map, drop, IfOk, OnOk, MatchOption};
ghost use Rattle.rdx_lang.specs.Members.{In};
ghost use Rattle.rdx_leftrec.specs.Inside.Lists.{EndsWith, IsSorted, with_all, Nothing};
ghost use Rattle.rdx_leftrec.specs.declared.walk.State.TheVariants.{Done};

use rdx_term::NoMemory;
use std::alloc::Global;

/// What is known of a place.
#[derive(Clone, Copy)]
pub(crate) enum State {
    /// The walk has not met it.
    New,
    /// It was met, and stands at this position among the open places.
    Open(usize),
    /// The component with this number has it, and all that it reaches is known.
    Done(usize),
}

/// A step that is still to be taken.
#[derive(Clone, Copy)]
pub(crate) struct Step {
    /// The position of the open place that it leads from.
    pub from: usize,
    /// The place to which it leads.
    pub to: usize,
}

/// What the walk knows. The open places stand in components that may still grow, each in one piece;
/// each component leads to the one behind it.
#[derive(Drop)]
pub(crate) struct Walk {
    /// What is known of each place.
    pub states: Vec<State>,
    /// The open places, in the order in which they were met.
    pub opened: Vec<usize>,
    /// The position at which each component begins.
    pub bounds: Vec<usize>,
    /// The steps from open places that are still to be taken: those of one component in one piece,
    /// and the components in their order.
    pub pending: Vec<Step>,
    /// How many components are complete.
    pub complete: usize,
}

// Keeps the steps from the open place at this position for later.
fn add_steps(pending: &mut Vec<Step>, from: usize, targets: &[usize]) -> Result<(), NoMemory>
    ensures { OnOk result (pending.new.items ≡ pending.old.items ++
        map (λ j. record { from = from; to = j }) targets.now) }
{
    for to in targets {
        pending.push(Step { from, to: *to })?;
    }
    Ok(())
}

// The last of these, if there is one.
fn last(bounds: &[usize]) -> Option<usize>
    ensures { MatchOption result (bounds.now ≡ []) (λ b. EndsWith b bounds.now) }
{
    bounds.last().copied()
}

// The last step, where it leads from a place that is at this position or behind it.
fn next_step(pending: &mut Vec<Step>, bound: usize) -> Option<Step>
    requires { IsSorted (λ s t. s.from ≤ t.from) pending.old.items }
    ensures { MatchOption result ((pending.new.items ≡ pending.old.items)
        × ((s : Step) → In s pending.old.items → s.from < bound))
        (λ s. (pending.old.items ≡ pending.new.items ++ s ∷ []) × (bound ≤ s.from)) }
{
    if pending.last()?.from < bound {
        return None;
    }
    pending.pop()
}

// Drops the bounds that are greater than the position.
fn drop_above(bounds: &mut Vec<usize>, position: usize)
    requires { IsSorted (λ a b. a < b) bounds.old.items }
    ensures sorted { IsSorted (λ a b. a < b) bounds.new.items }
    ensures members { (b : ℕ) → (In b bounds.new.items ↔
        (In b bounds.old.items × (b ≤ position))) }
    ensures fewer { length bounds.new.items ≤ length bounds.old.items }
{
    let mut kept = bounds.len();
    while 0 < kept && position < bounds[kept - 1] {
        kept -= 1;
    }
    bounds.truncate(kept);
}

// Gives all these places to the component with this number.
fn give_all(states: &mut Vec<State>, places: &[usize], number: usize)
    requires { (j : ℕ) → In j places.now → j < length states.old.items }
    ensures { states.new.items ≡ with_all states.old.items places.now (Done number) }
{
    for place in places {
        states[*place] = State::Done(number);
    }
}

impl Walk {
    ghost use Rattle.std.specs.Prelude.{◌<◌, ◌≤◌, slice_index_or};
    ghost use Rattle.rdx_leftrec.specs.Inside.Leads.{lists_of};
    ghost use Rattle.rdx_leftrec.specs.Inside.Lists.{At};
    ghost use Rattle.rdx_leftrec.specs.Inside.Reach.{AreTargets, Path};
    ghost use Rattle.rdx_leftrec.specs.Inside.Walks.{walk_of, untouched, left, IsWalk, IsNew, KeepsMet};

    /// One that has met nothing.
    pub(crate) fn new(alloc: Global, size: usize) -> Result<Walk, NoMemory>
        ensures { IfOk result (λ w. walk_of w ≡ untouched size) }
    {
        Ok(Walk {
            states: vec![in alloc; State::New; size]?,
            opened: Vec::new(alloc),
            bounds: Vec::new(alloc),
            pending: Vec::new(alloc),
            complete: 0,
        })
    }

    // Opens a place, which is a component of its own until steps lead back from it.
    fn enter(&mut self, targets: &[Vec<usize>], place: usize) -> Result<(), NoMemory>
        requires targets { AreTargets (lists_of targets.now) }
        requires walk { IsWalk (lists_of targets.now) (λ j. j ≡ place) (walk_of self.old) }
        requires new { IsNew (walk_of self.old) place }
        requires from { (v t : ℕ) → At self.old.opened.items t v →
            Path (lists_of targets.now) v place }
        ensures walk { OnOk result (IsWalk (lists_of targets.now) Nothing (walk_of self.new)) }
        ensures kept { OnOk result (KeepsMet (walk_of self.old) (walk_of self.new)) }
        ensures met { OnOk result (IsNew (walk_of self.new) place → ⊥) }
        ensures left { OnOk result (left (lists_of targets.now) (walk_of self.new)
            ≤ left (lists_of targets.now) (walk_of self.old)) }
    {
        let from = self.opened.len();
        self.states[place] = State::Open(from);
        self.opened.push(place)?;
        self.bounds.push(from)?;
        add_steps(&mut self.pending, from, &targets[place])?;
        Ok(())
    }

    // Takes a step to this place, which all open places reach: a new place is opened, and the
    // component of an open one and all those behind it are one.
    fn follow(&mut self, targets: &[Vec<usize>], place: usize) -> Result<(), NoMemory>
        requires targets { AreTargets (lists_of targets.now) }
        requires walk { IsWalk (lists_of targets.now) (λ j. j ≡ place) (walk_of self.old) }
        requires inside { place < length targets.now }
        requires from { (v t : ℕ) → At self.old.opened.items t v →
            Path (lists_of targets.now) v place }
        ensures walk { OnOk result (IsWalk (lists_of targets.now) Nothing (walk_of self.new)) }
        ensures kept { OnOk result (KeepsMet (walk_of self.old) (walk_of self.new)) }
        ensures left { OnOk result (left (lists_of targets.now) (walk_of self.new)
            ≤ left (lists_of targets.now) (walk_of self.old)) }
    {
        match self.states[place] {
            State::New => self.enter(targets, place),
            State::Open(position) => {
                drop_above(&mut self.bounds, position);
                Ok(())
            }
            State::Done(_) => Ok(()),
        }
    }

    // Completes the last component, which begins at this bound and from which no step is pending.
    fn close(&mut self, targets: &[Vec<usize>], bound: usize) -> Result<(), NoMemory>
        requires walk { IsWalk (lists_of targets.now) Nothing (walk_of self.old) }
        requires last { EndsWith bound self.old.bounds.items }
        requires none { (s : Step) → In s self.old.pending.items → s.from < bound }
        ensures walk { OnOk result (IsWalk (lists_of targets.now) Nothing (walk_of self.new)) }
        ensures kept { OnOk result (KeepsMet (walk_of self.old) (walk_of self.new)) }
        ensures left { OnOk result (left (lists_of targets.now) (walk_of self.new)
            < left (lists_of targets.now) (walk_of self.old)) }
    {
        let number = self.complete;
        self.complete = number.checked_add(1).ok_or(NoMemory)?;
        give_all(&mut self.states, &self.opened[bound..], number);
        self.opened.truncate(bound);
        self.bounds.pop();
        Ok(())
    }

    // Takes all steps from open places and completes their components, until none is open.
    fn finish(&mut self, targets: &[Vec<usize>]) -> Result<(), NoMemory>
        requires targets { AreTargets (lists_of targets.now) }
        requires walk { IsWalk (lists_of targets.now) Nothing (walk_of self.old) }
        ensures walk { OnOk result (IsWalk (lists_of targets.now) Nothing (walk_of self.new)) }
        ensures kept { OnOk result (KeepsMet (walk_of self.old) (walk_of self.new)) }
        ensures ended { OnOk result (self.new.bounds.items ≡ []) }
    {
        while let Some(bound) = last(&self.bounds) {
            match next_step(&mut self.pending, bound) {
                Some(step) => self.follow(targets, step.to)?,
                None => self.close(targets, bound)?,
            }
        }
        Ok(())
    }

    /// Meets a place and all that it reaches.
    pub(crate) fn explore(&mut self, targets: &[Vec<usize>], place: usize) -> Result<(), NoMemory>
        requires targets { AreTargets (lists_of targets.now) }
        requires walk { IsWalk (lists_of targets.now) Nothing (walk_of self.old) }
        requires ended { self.old.bounds.items ≡ [] }
        requires inside { place < length targets.now }
        ensures walk { OnOk result (IsWalk (lists_of targets.now) Nothing (walk_of self.new)) }
        ensures kept { OnOk result (KeepsMet (walk_of self.old) (walk_of self.new)) }
        ensures ended { OnOk result (self.new.bounds.items ≡ []) }
        ensures met { OnOk result (IsNew (walk_of self.new) place → ⊥) }
    {
        match self.states[place] {
            State::New => {
                self.enter(targets, place)?;
                self.finish(targets)?;
                Ok(())
            }
            State::Open(_) | State::Done(_) => Ok(()),
        }
    }
}
