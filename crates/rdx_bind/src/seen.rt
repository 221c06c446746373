//! What is seen of what was found: the names, without mismatch names.
ghost use Rattle.std.specs.Prelude.{◌≡◌, IfOk, IsTrue, map};
ghost use Rattle.rdx_lang.specs.Bindings as model;
ghost use Rattle.rdx_lang.specs.Shown.{bindings_of};
ghost use Rattle.rdx_bind.specs.Choices.{ArePlain};
ghost use Rattle.rdx_bind.specs.Seen.{visible_spot, SpotsArePlain};
ghost use Rattle.rdx_bind.specs.Spots.{spots_of};

use crate::single::visible;
use crate::spots::Spot;
use rdx_lang::Binding;
use rdx_term::NoMemory;
use std::alloc::Global;

// Whether none of the bindings has a mismatch name.
pub(crate) fn are_plain(bindings: &[Binding]) -> bool
    ensures { IsTrue result → ArePlain (bindings_of bindings.now) }
{
    for binding in bindings {
        if !binding.differs().is_empty() {
            return false;
        }
    }
    true
}

// What is seen of each of the bindings.
fn visible_each(alloc: Global, found: &[Binding]) -> Result<Vec<Binding>, NoMemory>
    ensures { IfOk result (λ seen.
        bindings_of seen.items ≡ map model.visible (bindings_of found.now)) }
{
    let mut seen = Vec::with_capacity(alloc, found.len())?;
    for binding in found {
        seen.push(visible(alloc, binding)?)?;
    }
    Ok(seen)
}

/// What is seen of each of the bindings.
pub fn all_visible(alloc: Global, found: Vec<Binding>) -> Result<Vec<Binding>, NoMemory>
    ensures { IfOk result (λ seen.
        bindings_of seen.items ≡ map model.visible (bindings_of found.items)) }
{
    if are_plain(&found) {
        return Ok(found);
    }
    visible_each(alloc, &found)
}

// Whether none of the spots has a mismatch name.
fn spots_are_plain(spots: &[Spot]) -> bool
    ensures { IsTrue result → SpotsArePlain (spots_of spots.now) }
{
    for spot in spots {
        if !spot.binding.differs().is_empty() {
            return false;
        }
    }
    true
}

// What is seen of each of the spots.
fn visible_each_spot(alloc: Global, spots: &[Spot]) -> Result<Vec<Spot>, NoMemory>
    ensures { IfOk result (λ seen. spots_of seen.items ≡ map visible_spot (spots_of spots.now)) }
{
    let mut seen = Vec::with_capacity(alloc, spots.len())?;
    for spot in spots {
        let trail = spot.trail.share()?;
        let binding = visible(alloc, &spot.binding)?;
        seen.push(Spot { trail, binding })?;
    }
    Ok(seen)
}

/// What is seen of each of the spots.
pub fn visible_spots(alloc: Global, spots: Vec<Spot>) -> Result<Vec<Spot>, NoMemory>
    ensures { IfOk result (λ seen. spots_of seen.items ≡ map visible_spot (spots_of spots.items)) }
{
    if spots_are_plain(&spots) {
        return Ok(spots);
    }
    visible_each_spot(alloc, &spots)
}
