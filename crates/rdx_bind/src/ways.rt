//! The places to which the runs of a repetition lead from a place on.
ghost use Rattle.std.specs.Prelude.{◌≡◌, ◌↔◌, ◌+◌, ◌++◌, ◌∷◌, ℕ, List, [], IfOk, IsTrue, OnOk};
ghost use Rattle.std.specs.Prelude.{if◌then◌else◌, length, map};
ghost use Rattle.rdx_bind.specs.Ends.{AreWays, HasMatches, HasSpots};
ghost use Rattle.rdx_bind.specs.Rows.{SplitRow, split_row_of};

use crate::rows::Row;
use rdx_term::NoMemory;
use std::alloc::Global;

/// The places to which the runs from a place on lead. A place is told by how many cells there are
/// from it on.
#[derive(Drop)]
pub struct Ways {
    /// Where what comes from there on matches.
    pub ends: Vec<usize>,
    /// Where a cell is split, each with an end behind it.
    pub split_ends: Vec<(usize, usize)>,
    /// Where what comes from there on is split.
    pub split_nexts: Vec<usize>,
}

// Whether something matches there.
fn has_matches(row: &Row) -> bool
    ensures { IsTrue result ↔ HasMatches (split_row_of row.now) }
{
    !row.matches.is_empty()
}

// Whether something is split there.
fn has_spots(row: &Row) -> bool
    ensures { IsTrue result ↔ HasSpots (split_row_of row.now) }
{
    !row.spots.is_empty()
}

// Forgets the places where the cell before them doesn't pass, and puts its own where there is
// something.
fn pass(places: &mut Vec<usize>, passes: bool, here: bool, place: usize) -> Result<(), NoMemory>
    ensures { OnOk result (places.new.items
        ≡ (if passes then places.old.items else []) ++ (if here then place ∷ [] else [])) }
{
    if !passes {
        places.clear();
    }
    if here {
        places.push(place)?;
    }
    Ok(())
}

// The same for cells that are split, each with an end behind it.
fn pass_splits(
    pairs: &mut Vec<(usize, usize)>,
    passes: bool,
    splits: bool,
    ends: &[usize],
    place: usize,
) -> Result<(), NoMemory>
    ensures { OnOk result (pairs.new.items
        ≡ (if passes then pairs.old.items else [])
        ++ (if splits then map (λ e. (place, e)) ends.now else [])) }
{
    if !passes {
        pairs.clear();
    }
    if splits {
        for end in ends {
            pairs.push((place, *end))?;
        }
    }
    Ok(())
}

impl Ways {
    /// Those from the place behind the last cell.
    pub fn last(alloc: Global, next: &Row) -> Result<Ways, NoMemory>
        ensures { IfOk result (λ ways. AreWays [] (split_row_of next.now ∷ [])
            ways.ends.items ways.split_ends.items ways.split_nexts.items) }
    {
        let mut ends = Vec::new(alloc);
        pass(&mut ends, true, has_matches(next), 0)?;
        let mut split_nexts = Vec::new(alloc);
        pass(&mut split_nexts, true, has_spots(next), 0)?;
        Ok(Ways {
            ends,
            split_ends: Vec::new(alloc),
            split_nexts,
        })
    }

    /// Goes one cell to the front.
    pub fn step(&mut self, cell: &Row, next: &Row, place: usize) -> Result<(), NoMemory>
        ensures { OnOk result ((cells nexts : List SplitRow) → length cells + 1 ≡ place
            → AreWays cells nexts self.old.ends.items self.old.split_ends.items
            self.old.split_nexts.items
            → AreWays (split_row_of cell.now ∷ cells) (split_row_of next.now ∷ nexts)
            self.new.ends.items self.new.split_ends.items self.new.split_nexts.items) }
    {
        let passes = has_matches(cell);
        let splits = has_spots(cell);
        pass_splits(&mut self.split_ends, passes, splits, &self.ends, place)?;
        pass(&mut self.ends, passes, has_matches(next), place)?;
        pass(&mut self.split_nexts, passes, has_spots(next), place)
    }
}
