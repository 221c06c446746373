// What terms are split into, in order.
ghost use Rattle.std.specs.Prelude.{◌≡◌, IfOk};
ghost use Rattle.rdx_lang.specs.Collecting.{Arises};
ghost use Rattle.rdx_lang.specs.Listing.{IsListing};
ghost use Rattle.rdx_lang.specs.Members.{In};
ghost use Rattle.rdx_lang.specs.Order.{decomposition_cmp};
ghost use Rattle.rdx_lang.specs.Shown.{decomposition_of, decompositions_of};
ghost use Rattle.rdx_term.specs.AtPaths.{IsPlace};
ghost use Rattle.rdx_term.specs.View.{tree_of};
ghost use Rattle.rdx_bind.specs.Spots.{spot_of, spots_of};
ghost use Rattle.rdx_bind.specs.Splitting.{IsSplitAt, split_of};

use rdx_bind::listing_splits;
use rdx_bind::spots::Spot;
use rdx_fill::{context_around, part_at};
use rdx_lang::Split;
use rdx_term::{NoMemory, Term};
use std::alloc::Global;

// What the term is split into at the spot.
fn split_at(alloc: Global, t: &Term, spot: Spot) -> Result<Split, NoMemory>
    requires { IsPlace (tree_of t.now) (spot_of spot).path }
    ensures { IfOk result (λ d. decomposition_of d ≡ split_of (tree_of t.now) (spot_of spot)) }
{
    let path = spot.trail.places(alloc)?;
    let context = context_around(alloc, t, &path)?;
    let part = part_at(t, &path).share()?;
    Ok(Split {
        context,
        part,
        binding: spot.binding,
    })
}

/// What the term is split into at these spots, strictly ascending.
pub(crate) fn sorted_splits(
    alloc: Global,
    t: &Term,
    spots: Vec<Spot>,
) -> Result<Vec<Split>, NoMemory>
    requires { (s : _) → In s (spots_of spots.items) → IsPlace (tree_of t.now) s.path }
    ensures { IfOk result (λ found. IsListing decomposition_cmp (decompositions_of found.items)
        (Arises (IsSplitAt (tree_of t.now)) (spots_of spots.items))) }
{
    let mut rest = spots;
    let mut found = Vec::new(alloc);
    while let Some(spot) = rest.pop() {
        found.push(split_at(alloc, t, spot)?)?;
    }
    listing_splits(alloc, found)
}
