//! Repetitions over rows alone: what a repetition binds, together with what comes behind it, and
//! where both are split, from each place of the list on. One pass from the last place to the first
//! keeps the places to which the runs from there on lead.
ghost use Rattle.std.specs.Prelude.{◌≡◌, ◌+◌, IfOk, length};
ghost use Rattle.rdx_lang.specs.Ascending.{IsAscending};
ghost use Rattle.rdx_lang.specs.Bindings.{name_cmp};
ghost use Rattle.rdx_bind.specs.Choices.{length_name};
ghost use Rattle.rdx_bind.specs.Columns.{HasAsked};
ghost use Rattle.rdx_bind.specs.Ends.{AreWays};
ghost use Rattle.rdx_bind.specs.Rows.{split_row_of, split_rows_of};
ghost use Rattle.rdx_bind.specs.Turns.{AreTurns, BindExactly, PlainWhere, SplitsTurn, TurnsTo};

use crate::asks::Ask;
use crate::repetition::{Repetition, rows_are_plain};
use crate::rows::Row;
use crate::turn_matches::matches_from;
use crate::turn_spots::spots_from;
use crate::ways::Ways;
use rdx_term::NoMemory;
use std::alloc::Global;

// What the repetition from the first of the cells on binds, together with what comes behind it, and
// where both are split, as is asked.
fn row_from(
    alloc: Global,
    repetition: Repetition<'_>,
    ask: Ask,
    cells: &[Row],
    plain: bool,
    nexts: &[Row],
    ways: &Ways,
) -> Result<Row, NoMemory>
    requires ascending { IsAscending name_cmp repetition.names.now }
    requires plain { PlainWhere plain (split_rows_of cells.now) }
    requires bound { BindExactly repetition.names.now (split_rows_of cells.now) }
    requires behind { length nexts.now ≡ length cells.now + 1 }
    requires ways { AreWays (split_rows_of cells.now) (split_rows_of nexts.now)
        ways.now.ends.items ways.now.split_ends.items ways.now.split_nexts.items }
    ensures { IfOk result (λ row. HasAsked
        (TurnsTo repetition.entry.names.now (length_name repetition.entry.length)
        (split_rows_of cells.now) (split_rows_of nexts.now))
        (SplitsTurn repetition.entry.names.now (length_name repetition.entry.length)
        (split_rows_of cells.now) (split_rows_of nexts.now))
        ask (split_row_of row)) }
{
    match ask {
        Ask::Nothing => Ok(Row {
            matches: Vec::new(alloc),
            spots: Vec::new(alloc),
        }),
        Ask::Matches => {
            let matches = matches_from(alloc, repetition, cells, plain, nexts, &ways.ends)?;
            Ok(Row {
                matches,
                spots: Vec::new(alloc),
            })
        }
        Ask::Splits => {
            let matches = matches_from(alloc, repetition, cells, plain, nexts, &ways.ends)?;
            let spots = spots_from(alloc, repetition, cells, plain, nexts, ways)?;
            Ok(Row { matches, spots })
        }
    }
}

/// At each place: what the repetition from there on binds, together with what comes behind it, and
/// where both are split, as is asked.
#[inline(never)]
pub fn turns_column(
    alloc: Global,
    repetition: Repetition<'_>,
    asks: &[Ask],
    cells: &[Row],
    nexts: &[Row],
) -> Result<Vec<Row>, NoMemory>
    requires ascending { IsAscending name_cmp repetition.names.now }
    requires places { length asks.now ≡ length cells.now + 1 }
    requires behind { length nexts.now ≡ length cells.now + 1 }
    requires bound { BindExactly repetition.names.now (split_rows_of cells.now) }
    ensures { IfOk result (λ rows. AreTurns repetition.entry.names.now
        (length_name repetition.entry.length) asks.now
        (split_rows_of cells.now) (split_rows_of nexts.now) (split_rows_of rows.items)) }
{
    let count = cells.len();
    let plain = rows_are_plain(cells);
    let mut ways = Ways::last(alloc, &nexts[count])?;
    let mut rows = Vec::with_capacity(alloc, nexts.len())?;
    let last = row_from(
        alloc,
        repetition,
        asks[count],
        &cells[count..],
        plain,
        &nexts[count..],
        &ways,
    )?;
    rows.push(last)?;
    for i in (0..count).rev() {
        ways.step(&cells[i], &nexts[i], count - i)?;
        let row = row_from(
            alloc,
            repetition,
            asks[i],
            &cells[i..],
            plain,
            &nexts[i..],
            &ways,
        )?;
        rows.push(row)?;
    }
    rows.reverse();
    Ok(rows)
}
