//! Paths from the root of a term to a part of it.
ghost use Rattle.std.specs.Prelude.{◌≡◌, ◌∷◌, ◌++◌, IfOk};
ghost use Rattle.rdx_bind.specs.Trails.{trail_of};

use rdx_term::NoMemory;
use std::alloc::Global;
use std::rc::Rc;

// By it the number that is kept of a path is multiplied where the path becomes longer.
const FACTOR: usize = 0x100_0000_01b3;

/// A path from the root of a term to a part of it. What is behind its first place may be shared
/// with other paths, so that one list more around the term takes no time, however long the path is.
#[cycle(trail)]
#[derive(PartialEq, Eq, PartialOrd, Ord, Drop)]
pub enum Trail {
    /// To the root.
    Here,
    /// Into a list.
    Within(Rc<Step>),
}

/// The first place of a path, and what is behind it.
#[cycle(trail)]
#[derive(PartialEq, Eq, PartialOrd, Ord, Drop)]
pub struct Step {
    // A number made of all places, for the order alone: where two paths are compared it is looked
    // at first, and those that differ mostly differ in it.
    digest: usize,
    /// The place of the item in the list, from 0.
    pub place: usize,
    /// The path from the item to the part.
    pub rest: Trail,
}

impl Trail {
    // The number that is kept of its places.
    fn digest(&self) -> usize {
        match self {
            Trail::Here => 0,
            Trail::Within(step) => step.digest,
        }
    }

    /// The path in a list that has the term at this place.
    pub fn within(alloc: Global, place: usize, rest: Trail) -> Result<Trail, NoMemory>
        ensures { IfOk result (λ trail. trail_of trail ≡ place ∷ trail_of rest) }
    {
        let mixed = rest.digest().wrapping_mul(FACTOR).wrapping_add(place);
        let step = Step {
            digest: mixed.wrapping_add(1),
            place,
            rest,
        };
        Ok(Trail::Within(Rc::new(alloc, step)?))
    }

    /// The same path.
    pub fn share(&self) -> Result<Trail, NoMemory>
        ensures { IfOk result (λ trail. trail_of trail ≡ trail_of self.now) }
    {
        match self {
            Trail::Here => Ok(Trail::Here),
            Trail::Within(step) => Ok(Trail::Within(step.clone()?)),
        }
    }

    /// This path, and from its end the other one, which is shared.
    pub fn then(&self, alloc: Global, other: Trail) -> Result<Trail, NoMemory>
        ensures { IfOk result (λ trail. trail_of trail ≡ trail_of self.now ++ trail_of other) }
    {
        match self {
            Trail::Here => Ok(other),
            Trail::Within(step) => {
                let rest = step.rest.then(alloc, other)?;
                Trail::within(alloc, step.place, rest)
            }
        }
    }

    /// The places, from the root on.
    pub fn places(&self, alloc: Global) -> Result<Vec<usize>, NoMemory>
        ensures { IfOk result (λ places. places.items ≡ trail_of self.now) }
    {
        let mut places = Vec::new(alloc);
        let mut trail = self;
        while let Trail::Within(step) = trail {
            places.push(step.place)?;
            trail = &step.rest;
        }
        Ok(places)
    }
}
