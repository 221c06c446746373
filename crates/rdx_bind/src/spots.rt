//! Where patterns split terms.
ghost use Rattle.std.specs.Prelude.{◌≡◌, ◌∷◌, [], IfOk, IsTrue, OnOk};
ghost use Rattle.rdx_lang.specs.Bindings.{no_names};
ghost use Rattle.rdx_lang.specs.Collecting.{Adds, Arises};
ghost use Rattle.rdx_lang.specs.Members.{In};
ghost use Rattle.rdx_bind.specs.Spots.{spots_of};
ghost use Rattle.rdx_bind.specs.Splitting.{Finds, IsNameless};

use crate::trail::Trail;
use rdx_lang::Binding;
use rdx_term::NoMemory;
use std::alloc::Global;
use std::collections::BTreeSet;

/// A way in which a pattern splits a term: the path from the root to the part, and what the names
/// stand for.
#[derive(PartialEq, Eq, PartialOrd, Ord, Drop)]
pub struct Spot {
    /// The path from the root to the part.
    pub trail: Trail,
    /// What the names of the pattern stand for.
    pub binding: Binding,
}

/// The spot at which the context is the hole alone.
#[inline(never)]
pub fn whole(alloc: Global) -> Result<Vec<Spot>, NoMemory>
    ensures { IfOk result (λ found. spots_of found.items ≡ record { path = []; binding = no_names } ∷ []) }
{
    let mut found = Vec::with_capacity(alloc, 1)?;
    found.push(Spot {
        trail: Trail::Here,
        binding: Binding::new(Vec::new(alloc)),
    })?;
    Ok(found)
}

// Whether no name of any of them stands for something.
fn bind_nothing(spots: &[Spot]) -> bool
    ensures { IsTrue result → (s : _) → In s (spots_of spots.now) → s.binding ≡ no_names }
{
    for spot in spots {
        if !spot.binding.pairs().is_empty() || !spot.binding.differs().is_empty() {
            return false;
        }
    }
    true
}

// The same with no names.
fn without_names(alloc: Global, spots: Vec<Spot>) -> Result<Vec<Spot>, NoMemory>
    ensures { Finds result (Arises IsNameless (spots_of spots.items)) }
{
    let mut rest = spots;
    let mut found = Vec::new(alloc);
    while let Some(spot) = rest.pop() {
        found.push(Spot {
            trail: spot.trail,
            binding: Binding::new(Vec::new(alloc)),
        })?;
    }
    Ok(found)
}

// The spots of a set of them.
fn spots_in(alloc: Global, set: BTreeSet<Spot>) -> Result<Vec<Spot>, NoMemory>
    ensures { IfOk result (λ spots. spots.items ≡ set.keys) }
{
    let spots = set.into_iter().collect(alloc)?;
    Ok(spots)
}

// The same, each once.
fn distinct(alloc: Global, spots: Vec<Spot>) -> Result<Vec<Spot>, NoMemory>
    ensures { Finds result (λ s. In s (spots_of spots.items)) }
{
    if spots.len() < 2 {
        return Ok(spots);
    }
    let mut rest = spots;
    let mut set = BTreeSet::new(alloc);
    while let Some(spot) = rest.pop() {
        set.insert(spot)?;
    }
    spots_in(alloc, set)
}

/// The spots of several lists together.
#[derive(Drop)]
pub struct Gathered {
    spots: Vec<Spot>,
    // Whether more than one list had any. None has the same spot twice.
    mixed: bool,
}

impl Gathered {
    /// Those of no list.
    pub fn new(alloc: Global) -> Gathered
        ensures { spots_of result.spots.items ≡ [] }
    {
        Gathered {
            spots: Vec::new(alloc),
            mixed: false,
        }
    }

    /// Puts those of another list to them.
    #[inline(never)]
    pub fn add(&mut self, more: Vec<Spot>) -> Result<(), NoMemory>
        ensures { OnOk result (Adds (λ s. In s (spots_of more.items))
            (spots_of self.old.spots.items) (spots_of self.new.spots.items)) }
    {
        if self.spots.is_empty() {
            self.spots = more;
        } else if !more.is_empty() {
            let mut added = more;
            self.spots.append(&mut added)?;
            self.mixed = true;
        }
        Ok(())
    }

    /// All of them, each once.
    #[inline(never)]
    pub fn distinct(self, alloc: Global) -> Result<Vec<Spot>, NoMemory>
        ensures { Finds result (λ s. In s (spots_of self.spots.items)) }
    {
        if self.mixed {
            distinct(alloc, self.spots)
        } else {
            Ok(self.spots)
        }
    }

    /// All of them with no names, each once.
    #[inline(never)]
    pub fn nameless(self, alloc: Global) -> Result<Vec<Spot>, NoMemory>
        ensures { Finds result (Arises IsNameless (spots_of self.spots.items)) }
    {
        if bind_nothing(&self.spots) {
            return self.distinct(alloc);
        }
        let found = without_names(alloc, self.spots)?;
        distinct(alloc, found)
    }
}
