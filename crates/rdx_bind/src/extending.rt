//! Spots extended: by a name for the context, and by what the part is split into in turn.
ghost use Rattle.std.specs.Prelude.{◌≡◌, ◌++◌, OnOk};
ghost use Rattle.rdx_lang.specs.Collecting.{Adds, Arises};
ghost use Rattle.rdx_term.specs.AtPaths.{context_at};
ghost use Rattle.rdx_term.specs.Tree.{Tree};
ghost use Rattle.rdx_term.specs.View.{tree_of};
ghost use Rattle.rdx_bind.specs.Namings.{naming_of};
ghost use Rattle.rdx_bind.specs.Spots.{spot_of, spots_of};
ghost use Rattle.rdx_bind.specs.Splitting.{Finds, NamesContext, GoesOn, gathered_spots};

use crate::joining::join;
use crate::naming::Naming;
use crate::spots::{Gathered, Spot};
use rdx_term::{NoMemory, Term};
use std::alloc::Global;

/// Adds the spot with the name for its context too, where it may have it.
pub fn add_with_context(
    alloc: Global,
    spot: Spot,
    name: Naming<'_>,
    context: &Term,
    found: &mut Vec<Spot>,
) -> Result<(), NoMemory>
    ensures { (t : Tree) → tree_of context.now ≡ context_at t (spot_of spot).path
        → OnOk result (Adds (NamesContext (naming_of name.entry) t (spot_of spot))
        (spots_of found.old.items) (spots_of found.new.items)) }
{
    let named = name.alone(alloc, context)?;
    if let Some(binding) = join(alloc, &spot.binding, &named)? {
        found.push(Spot {
            trail: spot.trail,
            binding,
        })?;
    }
    Ok(())
}

// Adds the spot that goes on from the part of the first as the second says, if they agree.
fn add_inner(
    alloc: Global,
    outer: &Spot,
    inner: Spot,
    found: &mut Vec<Spot>,
) -> Result<(), NoMemory>
    ensures { OnOk result (Adds (GoesOn (spot_of outer.now) (spot_of inner))
        (spots_of found.old.items) (spots_of found.new.items)) }
{
    if let Some(binding) = join(alloc, &outer.binding, &inner.binding)? {
        let trail = outer.trail.then(alloc, inner.trail)?;
        found.push(Spot { trail, binding })?;
    }
    Ok(())
}

// The spots that go on from the part of the first as each of the others says.
fn going_on(alloc: Global, outer: &Spot, inners: Vec<Spot>) -> Result<Vec<Spot>, NoMemory>
    ensures { Finds result (Arises (GoesOn (spot_of outer.now)) (spots_of inners.items)) }
{
    let mut rest = inners;
    let mut found = Vec::new(alloc);
    while let Some(inner) = rest.pop() {
        add_inner(alloc, outer, inner, &mut found)?;
    }
    Ok(found)
}

/// Puts the spots that go on from the part of the first as each of the others says to those that
/// are gathered.
#[inline(never)]
pub fn add_going_on(
    alloc: Global,
    outer: &Spot,
    inners: Vec<Spot>,
    gathered: &mut Gathered,
) -> Result<(), NoMemory>
    ensures { OnOk result (Adds (Arises (GoesOn (spot_of outer.now)) (spots_of inners.items))
        (gathered_spots gathered.old) (gathered_spots gathered.new)) }
{
    let more = going_on(alloc, outer, inners)?;
    gathered.add(more)
}
