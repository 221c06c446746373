//! Joins of one binding of each of several lists, and the spots of lists: both by halves, so that a
//! list of n items of which one splits costs in proportion to n, but for the number of halvings.
ghost use Rattle.std.specs.Prelude.{◌≡◌, ◌++◌, IfOk, OnOk};
ghost use Rattle.rdx_lang.specs.Collecting.{Adds, Arises, Combined};
ghost use Rattle.rdx_lang.specs.Shown.{binding_of, bindings_of};
ghost use Rattle.rdx_bind.specs.Combining.{JoinsAcross, Lists, rows_of};
ghost use Rattle.rdx_bind.specs.Rows.{JoinedSpot, JoinedSpots, SpotsAcross};
ghost use Rattle.rdx_bind.specs.Rows.{all_matches, split_rows_of};
ghost use Rattle.rdx_bind.specs.Spots.{IsPlaced, spot_of, spots_of};
ghost use Rattle.rdx_bind.specs.Splitting.{Finds};

use crate::combining::{empty_where, is_no_names_alone, joins_of};
use crate::joining::join;
use crate::sorting::listing;
use crate::spots::Spot;
use crate::trail::Trail;
use rdx_lang::Binding;
use rdx_term::NoMemory;
use std::alloc::Global;

/// What an item of a list pattern binds where it matches its term, and where it splits it.
#[derive(Drop)]
pub struct Row {
    /// The bindings by which it matches the term.
    pub matches: Vec<Binding>,
    /// The spots where it splits the term.
    pub spots: Vec<Spot>,
}

/// The same bindings.
pub fn shared_bindings(alloc: Global, bindings: &[Binding]) -> Result<Vec<Binding>, NoMemory>
    ensures { IfOk result (λ found. bindings_of found.items ≡ bindings_of bindings.now) }
{
    let mut found = Vec::with_capacity(alloc, bindings.len())?;
    for binding in bindings {
        found.push(binding.share()?)?;
    }
    Ok(found)
}

// The joins of one binding of each row. The rows are joined by halves, so that no binding is copied
// more often than the rows can be halved.
#[inline(never)]
fn joins_across(alloc: Global, rows: &[Vec<Binding>]) -> Result<Vec<Binding>, NoMemory>
    ensures { Lists result (JoinsAcross (rows_of rows.now)) }
{
    match rows {
        [] => empty_where(alloc, true),
        [row] => listing(alloc, shared_bindings(alloc, row)?),
        _ => {
            let (firsts, others) = rows.split_at(rows.len() / 2);
            let before = joins_across(alloc, firsts)?;
            let behind = joins_across(alloc, others)?;
            joins_of(alloc, before, behind)
        }
    }
}

/// The joins of what each row binds where it matches.
pub fn matches_across(alloc: Global, rows: &[Row]) -> Result<Vec<Binding>, NoMemory>
    ensures { Lists result (JoinsAcross (all_matches (split_rows_of rows.now))) }
{
    let mut matches = Vec::with_capacity(alloc, rows.len())?;
    for row in rows {
        matches.push(shared_bindings(alloc, &row.matches)?)?;
    }
    joins_across(alloc, &matches)
}

/// The same spots.
pub fn shared_spots(alloc: Global, spots: &[Spot]) -> Result<Vec<Spot>, NoMemory>
    ensures { IfOk result (λ found. spots_of found.items ≡ spots_of spots.now) }
{
    let mut found = Vec::with_capacity(alloc, spots.len())?;
    for spot in spots {
        let trail = spot.trail.share()?;
        let binding = spot.binding.share()?;
        found.push(Spot { trail, binding })?;
    }
    Ok(found)
}

/// The spots of an item as spots of the list that has it at this place.
pub fn placed(alloc: Global, spots: Vec<Spot>, place: usize) -> Result<Vec<Spot>, NoMemory>
    ensures { Finds result (Arises (IsPlaced place) (spots_of spots.items)) }
{
    let mut rest = spots;
    let mut found = Vec::with_capacity(alloc, rest.len())?;
    while let Some(spot) = rest.pop() {
        let trail = Trail::within(alloc, place, spot.trail)?;
        found.push(Spot {
            trail,
            binding: spot.binding,
        })?;
    }
    Ok(found)
}

// Adds the spot, joined with the binding, where they have a join.
fn add_joined(
    alloc: Global,
    spot: &Spot,
    other: &Binding,
    found: &mut Vec<Spot>,
) -> Result<(), NoMemory>
    ensures { OnOk result (Adds (JoinedSpot (spot_of spot.now) (binding_of other.now))
        (spots_of found.old.items) (spots_of found.new.items)) }
{
    if let Some(binding) = join(alloc, &spot.binding, other)? {
        let trail = spot.trail.share()?;
        found.push(Spot { trail, binding })?;
    }
    Ok(())
}

/// Adds the spot, joined with each of the bindings.
pub fn add_all_joined(
    alloc: Global,
    spot: &Spot,
    others: &[Binding],
    found: &mut Vec<Spot>,
) -> Result<(), NoMemory>
    ensures { OnOk result (Adds (Arises (JoinedSpot (spot_of spot.now)) (bindings_of others.now))
        (spots_of found.old.items) (spots_of found.new.items)) }
{
    for other in others {
        add_joined(alloc, spot, other, found)?;
    }
    Ok(())
}

// Each of the spots, joined with each of the bindings.
fn spots_with(alloc: Global, spots: Vec<Spot>, others: &[Binding]) -> Result<Vec<Spot>, NoMemory>
    ensures { Finds result (Combined JoinedSpot (spots_of spots.items) (bindings_of others.now)) }
{
    if is_no_names_alone(others) {
        return Ok(spots);
    }
    let mut found = Vec::new(alloc);
    for spot in &spots {
        add_all_joined(alloc, spot, others, &mut found)?;
    }
    Ok(found)
}

// Each of the spots, joined with what these rows bind where all of them match.
fn spots_beside(alloc: Global, spots: Vec<Spot>, rows: &[Row]) -> Result<Vec<Spot>, NoMemory>
    ensures { Finds result (JoinedSpots (spots_of spots.items) (split_rows_of rows.now)) }
{
    if spots.is_empty() {
        return Ok(spots);
    }
    let others = matches_across(alloc, rows)?;
    spots_with(alloc, spots, &others)
}

/// The spots of a list: one row is split, all others match, and what they bind is joined. The rows are
/// taken by halves: the spots of each half, joined with what the other half binds.
#[inline(never)]
pub fn spots_across(alloc: Global, rows: &[Row]) -> Result<Vec<Spot>, NoMemory>
    ensures { Finds result (SpotsAcross (split_rows_of rows.now)) }
{
    match rows {
        [] => Ok(Vec::new(alloc)),
        [row] => shared_spots(alloc, &row.spots),
        _ => {
            let (firsts, others) = rows.split_at(rows.len() / 2);
            let before = spots_across(alloc, firsts)?;
            let behind = spots_across(alloc, others)?;
            let mut found = spots_beside(alloc, before, others)?;
            let mut more = spots_beside(alloc, behind, firsts)?;
            found.append(&mut more)?;
            Ok(found)
        }
    }
}

/// The joins across the rows of a list that come in three parts.
#[inline(never)]
pub fn joins_of_parts(
    alloc: Global,
    before: Vec<Vec<Binding>>,
    middle: Vec<Vec<Binding>>,
    behind: Vec<Vec<Binding>>,
) -> Result<Vec<Binding>, NoMemory>
    ensures { Lists result (JoinsAcross
        (rows_of before.items ++ (rows_of middle.items ++ rows_of behind.items))) }
{
    let mut rows = before;
    let mut more = middle;
    let mut last = behind;
    rows.append(&mut more)?;
    rows.append(&mut last)?;
    joins_across(alloc, &rows)
}

/// The spots of a list whose rows come in three parts.
#[inline(never)]
pub fn spots_of_parts(
    alloc: Global,
    before: Vec<Row>,
    middle: Vec<Row>,
    behind: Vec<Row>,
) -> Result<Vec<Spot>, NoMemory>
    ensures { Finds result (SpotsAcross
        (split_rows_of before.items ++ (split_rows_of middle.items ++ split_rows_of behind.items))) }
{
    let mut rows = before;
    let mut more = middle;
    let mut last = behind;
    rows.append(&mut more)?;
    rows.append(&mut last)?;
    spots_across(alloc, &rows)
}
