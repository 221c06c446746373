// Strictly ascending lists of splits.
ghost use Rattle.std.specs.Prelude.{◌≡◌, IfOk};
ghost use Rattle.rdx_lang.specs.Listing.{IsListing};
ghost use Rattle.rdx_lang.specs.Members.{In};
ghost use Rattle.rdx_lang.specs.Order.{decomposition_cmp};
ghost use Rattle.rdx_lang.specs.Shown.{decompositions_of};

use rdx_lang::Split;
use rdx_term::NoMemory;
use std::alloc::Global;
use std::collections::BTreeSet;

// The members of a set, ascending.
fn splits_in(alloc: Global, set: BTreeSet<Split>) -> Result<Vec<Split>, NoMemory>
    ensures { IfOk result (λ keys. keys.items ≡ set.keys) }
{
    let keys = set.into_iter().collect(alloc)?;
    Ok(keys)
}

/// The strictly ascending list of the same splits.
pub fn listing_splits(alloc: Global, found: Vec<Split>) -> Result<Vec<Split>, NoMemory>
    ensures { IfOk result (λ listed. IsListing decomposition_cmp (decompositions_of listed.items)
        (λ d. In d (decompositions_of found.items))) }
{
    let is_listed = found.len() < 2;
    if is_listed {
        return Ok(found);
    }
    let mut rest = found;
    let mut set = BTreeSet::new(alloc);
    while let Some(split) = rest.pop() {
        set.insert(split)?;
    }
    splits_in(alloc, set)
}
