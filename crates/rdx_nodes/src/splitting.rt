// Spots and contexts of interned terms.
ghost use Rattle.std.specs.Prelude.{◌≡◌, ◌<◌, IfOk, OnOk, length};
ghost use Rattle.rdx_lang.specs.Collecting.{Adds, Arises};
ghost use Rattle.rdx_lang.specs.Listing.{IsListing};
ghost use Rattle.rdx_lang.specs.Members.{In};
ghost use Rattle.rdx_lang.specs.Order.{decomposition_cmp};
ghost use Rattle.rdx_lang.specs.Shown.{decomposition_of, decompositions_of};
ghost use Rattle.rdx_term.specs.AtPaths.{IsPlace, tree_at};
ghost use Rattle.rdx_term.specs.View.{tree_of};
ghost use Rattle.rdx_bind.specs.Namings.{naming_of};
ghost use Rattle.rdx_bind.specs.Spots.{spot_of, spots_of};
ghost use Rattle.rdx_bind.specs.Splitting.{split_of, Finds, IsSplitAt, NamesContext};
ghost use Rattle.rdx_bind.specs.Trails.{trail_of};
ghost use Rattle.rdx_store.specs.Stored.{tree_by_id};

use rdx_bind::extending::add_with_context;
use rdx_bind::listing_splits;
use rdx_bind::naming::Naming;
use rdx_bind::spots::Spot;
use rdx_bind::trail::Trail;
use rdx_fill::{context_around, part_at};
use rdx_lang::Split;
use rdx_store::{Store, TermId};
use rdx_term::{NoMemory, Term};
use std::alloc::Global;

/// The id of what stands in the term where the path leads.
pub fn part_id(store: &Store, id: TermId, trail: &Trail) -> TermId
    requires id { id < length store.now }
    requires place { IsPlace (tree_by_id store.now id) (trail_of trail.now) }
    ensures id { result < length store.now }
    ensures part { tree_by_id store.now result
        ≡ tree_at (tree_by_id store.now id) (trail_of trail.now) }
{
    let mut part = id;
    let mut rest = trail;
    while let Trail::Within(step) = rest {
        part = store.items(part)[step.place];
        rest = &step.rest;
    }
    part
}

// Adds the spot with the name for its context too, where it may have it.
fn add_named(
    alloc: Global,
    spot: Spot,
    name: Naming<'_>,
    t: &Term,
    found: &mut Vec<Spot>,
) -> Result<(), NoMemory>
    requires { IsPlace (tree_of t.now) (spot_of spot).path }
    ensures { OnOk result (Adds (NamesContext (naming_of name.entry) (tree_of t.now) (spot_of spot))
        (spots_of found.old.items) (spots_of found.new.items)) }
{
    let path = spot.trail.places(alloc)?;
    let context = context_around(alloc, t, &path)?;
    add_with_context(alloc, spot, name, &context, found)
}

/// The spots with the name for the context of each.
pub fn with_contexts(
    alloc: Global,
    spots: Vec<Spot>,
    name: Naming<'_>,
    t: &Term,
) -> Result<Vec<Spot>, NoMemory>
    requires { (s : _) → In s (spots_of spots.items) → IsPlace (tree_of t.now) s.path }
    ensures { Finds result
        (Arises (NamesContext (naming_of name.entry) (tree_of t.now)) (spots_of spots.items)) }
{
    let mut rest = spots;
    let mut found = Vec::new(alloc);
    while let Some(spot) = rest.pop() {
        add_named(alloc, spot, name, t, &mut found)?;
    }
    Ok(found)
}

// What the term is split into at the spot.
fn split_at(alloc: Global, t: &Term, spot: Spot) -> Result<Split, NoMemory>
    requires { IsPlace (tree_of t.now) (spot_of spot).path }
    ensures { IfOk result (λ d. decomposition_of d ≡ split_of (tree_of t.now) (spot_of spot)) }
{
    let path = spot.trail.places(alloc)?;
    let context = context_around(alloc, t, &path)?;
    let part = part_at(t, &path).share()?;
    Ok(Split {
        context,
        part,
        binding: spot.binding,
    })
}

/// What the term is split into at these spots, strictly ascending.
pub fn sorted_splits(alloc: Global, t: &Term, spots: Vec<Spot>) -> Result<Vec<Split>, NoMemory>
    requires { (s : _) → In s (spots_of spots.items) → IsPlace (tree_of t.now) s.path }
    ensures { IfOk result (λ found. IsListing decomposition_cmp (decompositions_of found.items)
        (Arises (IsSplitAt (tree_of t.now)) (spots_of spots.items))) }
{
    let mut rest = spots;
    let mut found = Vec::new(alloc);
    while let Some(spot) = rest.pop() {
        found.push(split_at(alloc, t, spot)?)?;
    }
    listing_splits(alloc, found)
}
