// Spots of a list, one item after the other.
ghost use Rattle.std.specs.Prelude.{◌≡◌, ◌⊎◌, [], IfOk, IsTrue, if◌then◌else◌};
ghost use Rattle.rdx_lang.specs.Collecting.{HasExactly};
ghost use Rattle.rdx_lang.specs.Members.{In};
ghost use Rattle.rdx_bind.specs.Spots.{spots_of};

use rdx_bind::spots::Spot;
use rdx_term::NoMemory;
use std::alloc::Global;

/// Those of one list where this is so, and those of another.
pub(crate) fn kept_and_more(
    spots: Vec<Spot>,
    so: bool,
    more: Vec<Spot>,
) -> Result<Vec<Spot>, NoMemory>
    ensures { IfOk result (λ found. HasExactly (spots_of found.items)
        (λ r. (IsTrue so × In r (spots_of spots.items)) ⊎ In r (spots_of more.items))) }
{
    if !so {
        return Ok(more);
    }
    let mut found = spots;
    let mut added = more;
    found.append(&mut added)?;
    Ok(found)
}

/// Those given, where this is so.
pub(crate) fn spots_where(alloc: Global, spots: Vec<Spot>, so: bool) -> Vec<Spot>
    ensures { spots_of result.items ≡ (if so then spots_of spots.items else []) }
{
    if so { spots } else { Vec::new(alloc) }
}
