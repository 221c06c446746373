// Strictly ascending lists of steps.
ghost use Rattle.std.specs.Prelude.{◌≡◌, IfOk};
ghost use Rattle.rdx_lang.specs.Listing.{IsListing};
ghost use Rattle.rdx_lang.specs.Members.{In};
ghost use Rattle.rdx_reduce.specs.Steps.{step_cmp};
ghost use Rattle.rdx_reduce.specs.StepView.{steps_in};

use crate::Step;
use rdx_term::NoMemory;
use std::alloc::Global;
use std::collections::BTreeSet;

// The members of a set, ascending.
fn members(alloc: Global, set: BTreeSet<Step>) -> Result<Vec<Step>, NoMemory>
    ensures { IfOk result (λ keys. keys.items ≡ set.keys) }
{
    let keys = set.into_iter().collect(alloc)?;
    Ok(keys)
}

/// The strictly ascending list of the same steps.
pub(crate) fn listing(alloc: Global, found: Vec<Step>) -> Result<Vec<Step>, NoMemory>
    ensures { IfOk result (λ listed. IsListing step_cmp (steps_in listed)
        (λ s. In s (steps_in found))) }
{
    let is_listed = found.len() < 2;
    if is_listed {
        return Ok(found);
    }
    let mut rest = found;
    let mut set = BTreeSet::new(alloc);
    while let Some(step) = rest.pop() {
        set.insert(step)?;
    }
    members(alloc, set)
}
