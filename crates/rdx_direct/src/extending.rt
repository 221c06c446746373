// Spots extended by a name for the context, be it a mismatch name.
ghost use Rattle.std.specs.Prelude.{OnOk};
ghost use Rattle.rdx_lang.specs.Collecting.{Adds, Arises};
ghost use Rattle.rdx_lang.specs.Members.{In};
ghost use Rattle.rdx_term.specs.AtPaths.{IsPlace};
ghost use Rattle.rdx_term.specs.View.{tree_of};
ghost use Rattle.rdx_bind.specs.Namings.{naming_of};
ghost use Rattle.rdx_bind.specs.Spots.{spot_of, spots_of};
ghost use Rattle.rdx_bind.specs.Splitting.{Finds, NamesContext};

use rdx_bind::extending::add_with_context;
use rdx_bind::naming::Naming;
use rdx_bind::spots::Spot;
use rdx_fill::context_around;
use rdx_term::{NoMemory, Term};
use std::alloc::Global;

// Adds the spot with the name for its context too, where it may have it.
fn add_named(
    alloc: Global,
    spot: Spot,
    name: Naming<'_>,
    t: &Term,
    found: &mut Vec<Spot>,
) -> Result<(), NoMemory>
    requires { IsPlace (tree_of t.now) (spot_of spot).path }
    ensures { OnOk result (Adds (NamesContext (naming_of name.entry) (tree_of t.now)
        (spot_of spot)) (spots_of found.old.items) (spots_of found.new.items)) }
{
    let path = spot.trail.places(alloc)?;
    let context = context_around(alloc, t, &path)?;
    add_with_context(alloc, spot, name, &context, found)
}

/// The spots with the name for the context of each.
#[inline(never)]
pub(crate) fn with_contexts(
    alloc: Global,
    spots: Vec<Spot>,
    name: Naming<'_>,
    t: &Term,
) -> Result<Vec<Spot>, NoMemory>
    requires { (s : _) → In s (spots_of spots.items) → IsPlace (tree_of t.now) s.path }
    ensures { Finds result (Arises (NamesContext (naming_of name.entry) (tree_of t.now))
        (spots_of spots.items)) }
{
    let mut rest = spots;
    let mut found = Vec::new(alloc);
    while let Some(spot) = rest.pop() {
        add_named(alloc, spot, name, t, &mut found)?;
    }
    Ok(found)
}
