//! Columns of rows, one for each place of a list: what some items bind, and where they split, from
//! there on. Here is what needs no search.
ghost use Rattle.std.specs.Prelude.{◌≡◌, ◌+◌, ◌∷◌, IfOk, OnOk, length};
ghost use Rattle.std.specs.List.{list_all};
ghost use Rattle.rdx_lang.specs.Collecting.{Adds, Combined};
ghost use Rattle.rdx_lang.specs.Shown.{bindings_of};
ghost use Rattle.rdx_bind.specs.Columns as model;
ghost use Rattle.rdx_bind.specs.Columns.{HasAsked};
ghost use Rattle.rdx_bind.specs.Combining.{Joined};
ghost use Rattle.rdx_bind.specs.Ones as rows;
ghost use Rattle.rdx_bind.specs.Ones.{AreOnes, HasEnd, IsEnd, SplitsEither, nothings};
ghost use Rattle.rdx_bind.specs.Rows.{JoinedSpot, split_row_of, split_rows_of};
ghost use Rattle.rdx_bind.specs.Spots.{spots_of};
ghost use Rattle.rdx_bind.specs.Splitting.{Finds};

use crate::asks::Ask;
use crate::combining::{empty_where, joins};
use crate::rows::{Row, add_all_joined};
use crate::spots::Spot;
use rdx_lang::Binding;
use rdx_term::NoMemory;
use std::alloc::Global;

/// A row that has nothing.
pub fn empty_row(alloc: Global) -> Row
    ensures { split_row_of result ≡ rows.empty_row }
{
    Row {
        matches: Vec::new(alloc),
        spots: Vec::new(alloc),
    }
}

/// So many rows that have nothing.
pub fn empty_rows(alloc: Global, count: usize) -> Result<Vec<Row>, NoMemory>
    ensures { IfOk result (λ found. split_rows_of found.items ≡ rows.empty_rows count) }
{
    let mut found = Vec::with_capacity(alloc, count)?;
    for _ in 0..count {
        found.push(empty_row(alloc))?;
    }
    Ok(found)
}

/// What is asked of the first place, and nothing of so many others.
pub fn asked_first(alloc: Global, ask: Ask, others: usize) -> Result<Vec<Ask>, NoMemory>
    ensures { IfOk result (λ asks. asks.items ≡ ask ∷ nothings others) }
{
    let mut asks = Vec::new(alloc);
    asks.push(ask)?;
    for _ in 0..others {
        asks.push(Ask::Nothing)?;
    }
    Ok(asks)
}

/// Whether nothing is asked of any place.
pub fn nothing_asked(asks: &[Ask]) -> bool
    ensures { result ≡ list_all rows.is_nothing asks.now }
{
    asks.iter().all(|ask| ask.is_nothing())
}

/// What is asked of the items behind one that has these cells.
pub fn asks_behind(alloc: Global, asks: &[Ask], cells: &[Row]) -> Result<Vec<Ask>, NoMemory>
    requires places { length asks.now ≡ length cells.now + 1 }
    ensures { IfOk result (λ asked.
        asked.items ≡ Ask.Nothing ∷ model.asks_behind asks.now (split_rows_of cells.now)) }
{
    let mut asked = Vec::with_capacity(alloc, asks.len())?;
    asked.push(Ask::Nothing)?;
    for i in 0..cells.len() {
        asked.push(asks[i].behind(&cells[i]))?;
    }
    Ok(asked)
}

// Adds each of the spots, joined with each of the bindings.
fn add_spots(
    alloc: Global,
    spots: &[Spot],
    others: &[Binding],
    found: &mut Vec<Spot>,
) -> Result<(), NoMemory>
    ensures { OnOk result (Adds (Combined JoinedSpot (spots_of spots.now) (bindings_of others.now))
        (spots_of found.old.items) (spots_of found.new.items)) }
{
    for spot in spots {
        add_all_joined(alloc, spot, others, found)?;
    }
    Ok(())
}

// The spots of one of two rows, joined with what the other binds where it matches.
fn either_split(alloc: Global, a: &Row, b: &Row) -> Result<Vec<Spot>, NoMemory>
    ensures { Finds result (SplitsEither (split_row_of a.now) (split_row_of b.now)) }
{
    let mut found = Vec::new(alloc);
    add_spots(alloc, &a.spots, &b.matches, &mut found)?;
    add_spots(alloc, &b.spots, &a.matches, &mut found)?;
    Ok(found)
}

// What is asked of two rows together.
fn both_rows(alloc: Global, ask: Ask, a: &Row, b: &Row) -> Result<Row, NoMemory>
    ensures { IfOk result (λ row. HasAsked
        (Joined (bindings_of a.now.matches.items) (bindings_of b.now.matches.items))
        (SplitsEither (split_row_of a.now) (split_row_of b.now)) ask (split_row_of row)) }
{
    match ask {
        Ask::Nothing => Ok(empty_row(alloc)),
        Ask::Matches => {
            let matches = joins(alloc, &a.matches, &b.matches)?;
            let spots = Vec::new(alloc);
            Ok(Row { matches, spots })
        }
        Ask::Splits => {
            let matches = joins(alloc, &a.matches, &b.matches)?;
            let spots = either_split(alloc, a, b)?;
            Ok(Row { matches, spots })
        }
    }
}

/// What is asked of an item that has these cells, together with the rows of the items behind it.
#[inline(never)]
pub fn one_column(
    alloc: Global,
    asks: &[Ask],
    cells: &[Row],
    nexts: &[Row],
) -> Result<Vec<Row>, NoMemory>
    requires places { length asks.now ≡ length cells.now + 1 }
    requires behind { length nexts.now ≡ length cells.now + 1 }
    ensures { IfOk result (λ found. AreOnes asks.now (split_rows_of cells.now)
        (split_rows_of nexts.now) (split_rows_of found.items)) }
{
    let mut found = Vec::with_capacity(alloc, asks.len())?;
    for i in 0..cells.len() {
        found.push(both_rows(alloc, asks[i], &cells[i], &nexts[i + 1])?)?;
    }
    found.push(empty_row(alloc))?;
    Ok(found)
}

// What is asked of no items, where no term is left.
fn end_row(alloc: Global, ask: Ask) -> Result<Row, NoMemory>
    ensures { IfOk result (λ row. HasEnd ask (split_row_of row)) }
{
    let matches = empty_where(alloc, !ask.is_nothing())?;
    let spots = Vec::new(alloc);
    Ok(Row { matches, spots })
}

/// What is asked of no items: they match behind the last of so many terms, and bind nothing.
#[inline(never)]
pub fn end_column(alloc: Global, terms: usize, ask: Ask) -> Result<Vec<Row>, NoMemory>
    ensures { IfOk result (λ found. IsEnd terms ask (split_rows_of found.items)) }
{
    let mut found = empty_rows(alloc, terms)?;
    found.push(end_row(alloc, ask)?)?;
    Ok(found)
}
