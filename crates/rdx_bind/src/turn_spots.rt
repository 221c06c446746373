//! Where a repetition, together with what comes behind it, is split from a place on.
ghost use Rattle.std.specs.Prelude.{◌≡◌, ◌+◌, ◌<◌, ◌≤◌, ℕ, [], IfOk, OnOk, length};
ghost use Rattle.rdx_lang.specs.Ascending.{IsAscending};
ghost use Rattle.rdx_lang.specs.Bindings.{bound_names, name_cmp};
ghost use Rattle.rdx_lang.specs.Collecting.{Adds, Arises, Combined, HasExactly};
ghost use Rattle.rdx_lang.specs.Members.{In};
ghost use Rattle.rdx_lang.specs.Shown.{binding_of, bindings_of};
ghost use Rattle.rdx_bind.specs.Choices.{NoneEmpty, RowsBind, length_name};
ghost use Rattle.rdx_bind.specs.Ends.{AreWays, HasSpots, IsReached, IsSplitEnd, IsSpotWith};
ghost use Rattle.rdx_bind.specs.Ends.{SplitsCell, SplitsCellAt, SplitsCellTo, SplitsNext};
ghost use Rattle.rdx_bind.specs.Ends.{SplitsNextTo, rows_around, rows_around_at};
ghost use Rattle.rdx_bind.specs.Rows.{all_matches, split_rows_of};
ghost use Rattle.rdx_bind.specs.Spots.{spot_of, spots_of};
ghost use Rattle.rdx_bind.specs.Splitting.{Finds, gathered_spots};
ghost use Rattle.rdx_bind.specs.Turns.{BindExactly, PlainWhere, SplitsTurn};

use crate::joining::join;
use crate::repetition::{Repetition, bound_around, bound_over};
use crate::rows::Row;
use crate::spots::{Gathered, Spot};
use crate::ways::Ways;
use rdx_lang::Binding;
use rdx_term::NoMemory;
use std::alloc::Global;

// Adds the spot with the join of the two, where they have one.
fn add_spot(
    alloc: Global,
    spot: &Spot,
    first: &Binding,
    other: &Binding,
    found: &mut Vec<Spot>,
) -> Result<(), NoMemory>
    ensures { OnOk result (Adds (IsSpotWith (spot_of spot.now) (binding_of first.now)
        (binding_of other.now))
        (spots_of found.old.items) (spots_of found.new.items)) }
{
    if let Some(binding) = join(alloc, first, other)? {
        let trail = spot.trail.share()?;
        found.push(Spot { trail, binding })?;
    }
    Ok(())
}

// Adds the spot with each join of `first` with one of the others.
fn add_spots_with(
    alloc: Global,
    spot: &Spot,
    first: &Binding,
    others: &[Binding],
    found: &mut Vec<Spot>,
) -> Result<(), NoMemory>
    ensures { OnOk result (Adds (Arises (IsSpotWith (spot_of spot.now) (binding_of first.now))
        (bindings_of others.now))
        (spots_of found.old.items) (spots_of found.new.items)) }
{
    for other in others {
        add_spot(alloc, spot, first, other, found)?;
    }
    Ok(())
}

// Adds the spot with each join of one of `firsts` with one of the others.
fn add_spots(
    alloc: Global,
    spot: &Spot,
    firsts: &[Binding],
    others: &[Binding],
    found: &mut Vec<Spot>,
) -> Result<(), NoMemory>
    ensures { OnOk result (Adds (Combined (IsSpotWith (spot_of spot.now))
        (bindings_of firsts.now) (bindings_of others.now))
        (spots_of found.old.items) (spots_of found.new.items)) }
{
    for first in firsts {
        add_spots_with(alloc, spot, first, others, found)?;
    }
    Ok(())
}

// Adds those where one turn is split at the spot, the cells before and between match, and so does
// what comes behind. The turns are so many.
fn add_cell_spots(
    alloc: Global,
    repetition: Repetition<'_>,
    before: &[Row],
    spot: &Spot,
    between: &[Row],
    turns: usize,
    plain: bool,
    others: &[Binding],
    found: &mut Vec<Spot>,
) -> Result<(), NoMemory>
    requires ascending { IsAscending name_cmp repetition.names.now }
    requires before { PlainWhere plain (split_rows_of before.now) }
    requires between { PlainWhere plain (split_rows_of between.now) }
    requires turns { turns ≡ length before.now + length between.now + 1 }
    requires bound { RowsBind repetition.names.now
        (rows_around (split_rows_of before.now) (binding_of spot.now.binding)
        (split_rows_of between.now)) }
    requires full { NoneEmpty
        (rows_around (split_rows_of before.now) (binding_of spot.now.binding)
        (split_rows_of between.now)) }
    ensures { OnOk result (Adds
        (SplitsCell repetition.entry.names.now (length_name repetition.entry.length)
        (split_rows_of before.now)
        (split_rows_of between.now) (bindings_of others.now) (spot_of spot.now))
        (spots_of found.old.items) (spots_of found.new.items)) }
{
    let firsts = bound_around(
        alloc,
        repetition,
        before,
        &spot.binding,
        between,
        turns,
        plain,
    )?;
    add_spots(alloc, spot, &firsts, others, found)
}

// The spots of one cell with all ways in which the cells before and between match, and what comes
// behind.
fn cell_spots(
    alloc: Global,
    repetition: Repetition<'_>,
    before: &[Row],
    spots: &[Spot],
    between: &[Row],
    turns: usize,
    plain: bool,
    others: &[Binding],
) -> Result<Vec<Spot>, NoMemory>
    requires ascending { IsAscending name_cmp repetition.names.now }
    requires before { PlainWhere plain (split_rows_of before.now) }
    requires between { PlainWhere plain (split_rows_of between.now) }
    requires turns { turns ≡ length before.now + length between.now + 1 }
    requires bound { (s : _) → In s (spots_of spots.now) →
        RowsBind repetition.names.now (rows_around (split_rows_of before.now) s.binding
        (split_rows_of between.now)) }
    requires full { (s : _) → In s (spots_of spots.now) →
        NoneEmpty (rows_around (split_rows_of before.now) s.binding (split_rows_of between.now)) }
    ensures { Finds result (Arises
        (SplitsCell repetition.entry.names.now (length_name repetition.entry.length)
        (split_rows_of before.now)
        (split_rows_of between.now) (bindings_of others.now))
        (spots_of spots.now)) }
{
    let mut found = Vec::new(alloc);
    for spot in spots {
        add_cell_spots(
            alloc, repetition, before, spot, between, turns, plain, others, &mut found,
        )?;
    }
    Ok(found)
}

// The spots of what comes behind the cells with all ways in which the cells match.
fn next_spots(
    alloc: Global,
    repetition: Repetition<'_>,
    cells: &[Row],
    plain: bool,
    spots: &[Spot],
) -> Result<Vec<Spot>, NoMemory>
    requires ascending { IsAscending name_cmp repetition.names.now }
    requires plain { PlainWhere plain (split_rows_of cells.now) }
    requires bound { RowsBind repetition.names.now (all_matches (split_rows_of cells.now)) }
    requires full { NoneEmpty (all_matches (split_rows_of cells.now)) }
    ensures { Finds result (Arises
        (SplitsNext repetition.entry.names.now (length_name repetition.entry.length)
        (split_rows_of cells.now))
        (spots_of spots.now)) }
{
    let firsts = bound_over(alloc, repetition, cells, plain)?;
    let mut found = Vec::new(alloc);
    for spot in spots {
        add_spots(
            alloc,
            spot,
            &firsts,
            std::slice::from_ref(&spot.binding),
            &mut found,
        )?;
    }
    Ok(found)
}

// The spots of the cell at the place, where the first `turns` cells are the turns.
fn cell_spots_at(
    alloc: Global,
    repetition: Repetition<'_>,
    cells: &[Row],
    plain: bool,
    nexts: &[Row],
    place: usize,
    turns: usize,
) -> Result<Vec<Spot>, NoMemory>
    requires ascending { IsAscending name_cmp repetition.names.now }
    requires plain { PlainWhere plain (split_rows_of cells.now) }
    requires bound { BindExactly repetition.names.now (split_rows_of cells.now) }
    requires behind { length nexts.now ≡ length cells.now + 1 }
    requires order { place < turns }
    requires within { turns ≤ length cells.now }
    requires full { (c : _) → NoneEmpty (rows_around_at (split_rows_of cells.now) place turns c) }
    ensures { Finds result (SplitsCellAt repetition.entry.names.now
        (length_name repetition.entry.length)
        (split_rows_of cells.now) (split_rows_of nexts.now) place turns) }
{
    let before = &cells[..place];
    let between = &cells[place + 1..turns];
    let spots = &cells[place].spots;
    cell_spots(
        alloc,
        repetition,
        before,
        spots,
        between,
        turns,
        plain,
        &nexts[turns].matches,
    )
}

// Adds the spots of each cell that is split, with an end behind it.
fn gather_cells(
    alloc: Global,
    repetition: Repetition<'_>,
    cells: &[Row],
    plain: bool,
    nexts: &[Row],
    split_ends: &[(usize, usize)],
    found: &mut Gathered,
) -> Result<(), NoMemory>
    requires ascending { IsAscending name_cmp repetition.names.now }
    requires plain { PlainWhere plain (split_rows_of cells.now) }
    requires bound { BindExactly repetition.names.now (split_rows_of cells.now) }
    requires behind { length nexts.now ≡ length cells.now + 1 }
    requires ways { HasExactly split_ends.now
        (IsSplitEnd (split_rows_of cells.now) (split_rows_of nexts.now)) }
    ensures { OnOk result (Adds (Arises
        (SplitsCellTo repetition.entry.names.now (length_name repetition.entry.length)
        (split_rows_of cells.now) (split_rows_of nexts.now)) split_ends.now)
        (gathered_spots found.old) (gathered_spots found.new)) }
{
    for (from, end) in split_ends {
        let place = cells.len() - *from;
        let turns = cells.len() - *end;
        let more = cell_spots_at(alloc, repetition, cells, plain, nexts, place, turns)?;
        found.add(more)?;
    }
    Ok(())
}

// Adds the spots of what comes behind the cells up to each of the places.
fn gather_nexts(
    alloc: Global,
    repetition: Repetition<'_>,
    cells: &[Row],
    plain: bool,
    nexts: &[Row],
    split_nexts: &[usize],
    found: &mut Gathered,
) -> Result<(), NoMemory>
    requires ascending { IsAscending name_cmp repetition.names.now }
    requires plain { PlainWhere plain (split_rows_of cells.now) }
    requires bound { BindExactly repetition.names.now (split_rows_of cells.now) }
    requires behind { length nexts.now ≡ length cells.now + 1 }
    requires ways { HasExactly split_nexts.now
        (IsReached HasSpots (split_rows_of cells.now) (split_rows_of nexts.now)) }
    ensures { OnOk result (Adds (Arises
        (SplitsNextTo repetition.entry.names.now (length_name repetition.entry.length)
        (split_rows_of cells.now) (split_rows_of nexts.now)) split_nexts.now)
        (gathered_spots found.old) (gathered_spots found.new)) }
{
    for place in split_nexts {
        let count = cells.len() - *place;
        let more = next_spots(
            alloc,
            repetition,
            &cells[..count],
            plain,
            &nexts[count].spots,
        )?;
        found.add(more)?;
    }
    Ok(())
}

/// Where the repetition from the first of the cells on, together with what comes behind it, is
/// split: in a cell, or behind the cells. It may be told that the cells have no mismatch names.
pub fn spots_from(
    alloc: Global,
    repetition: Repetition<'_>,
    cells: &[Row],
    plain: bool,
    nexts: &[Row],
    ways: &Ways,
) -> Result<Vec<Spot>, NoMemory>
    requires ascending { IsAscending name_cmp repetition.names.now }
    requires plain { PlainWhere plain (split_rows_of cells.now) }
    requires bound { BindExactly repetition.names.now (split_rows_of cells.now) }
    requires behind { length nexts.now ≡ length cells.now + 1 }
    requires ways { AreWays (split_rows_of cells.now) (split_rows_of nexts.now)
        ways.now.ends.items ways.now.split_ends.items ways.now.split_nexts.items }
    ensures { Finds result (SplitsTurn repetition.entry.names.now
        (length_name repetition.entry.length)
        (split_rows_of cells.now) (split_rows_of nexts.now)) }
{
    let mut found = Gathered::new(alloc);
    gather_cells(
        alloc,
        repetition,
        cells,
        plain,
        nexts,
        &ways.split_ends,
        &mut found,
    )?;
    gather_nexts(
        alloc,
        repetition,
        cells,
        plain,
        nexts,
        &ways.split_nexts,
        &mut found,
    )?;
    found.distinct(alloc)
}
