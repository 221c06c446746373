//! What a repetition binds from a place on, together with what comes behind it.
ghost use Rattle.std.specs.Prelude.{◌≡◌, ◌+◌, [], IfOk, OnOk, length};
ghost use Rattle.rdx_lang.specs.Ascending.{IsAscending};
ghost use Rattle.rdx_lang.specs.Bindings.{name_cmp};
ghost use Rattle.rdx_lang.specs.Collecting.{Adds, HasExactly};
ghost use Rattle.rdx_lang.specs.Shown.{bindings_of};
ghost use Rattle.rdx_bind.specs.Choices.{NoneEmpty, RepeatsWith, RowsBind, length_name};
ghost use Rattle.rdx_bind.specs.Combining.{Lists};
ghost use Rattle.rdx_bind.specs.Ends.{HasMatches, IsReached};
ghost use Rattle.rdx_bind.specs.Rows.{all_matches, split_rows_of};
ghost use Rattle.rdx_bind.specs.Turns.{BindExactly, PlainWhere, TurnsTo};

use crate::combining::add_all;
use crate::repetition::{Repetition, bound_over};
use crate::rows::Row;
use crate::sorting::listing;
use rdx_lang::Binding;
use rdx_term::NoMemory;
use std::alloc::Global;

// Adds what the repetition binds where its turns are these cells, joined with what comes behind.
fn add_turns(
    alloc: Global,
    repetition: Repetition<'_>,
    cells: &[Row],
    plain: bool,
    others: &[Binding],
    found: &mut Vec<Binding>,
) -> Result<(), NoMemory>
    requires ascending { IsAscending name_cmp repetition.names.now }
    requires plain { PlainWhere plain (split_rows_of cells.now) }
    requires bound { RowsBind repetition.names.now (all_matches (split_rows_of cells.now)) }
    requires full { NoneEmpty (all_matches (split_rows_of cells.now)) }
    ensures { OnOk result (Adds
        (RepeatsWith repetition.entry.names.now (length_name repetition.entry.length)
        (all_matches (split_rows_of cells.now)) (bindings_of others.now))
        (bindings_of found.old.items) (bindings_of found.new.items)) }
{
    let firsts = bound_over(alloc, repetition, cells, plain)?;
    add_all(alloc, firsts, others, found)
}

/// What the repetition binds from the first of the cells on, together with what comes behind it. A
/// run leads to each of the ends. It may be told that the cells have no mismatch names.
pub fn matches_from(
    alloc: Global,
    repetition: Repetition<'_>,
    cells: &[Row],
    plain: bool,
    nexts: &[Row],
    ends: &[usize],
) -> Result<Vec<Binding>, NoMemory>
    requires ascending { IsAscending name_cmp repetition.names.now }
    requires plain { PlainWhere plain (split_rows_of cells.now) }
    requires bound { BindExactly repetition.names.now (split_rows_of cells.now) }
    requires behind { length nexts.now ≡ length cells.now + 1 }
    requires ends { HasExactly ends.now
        (IsReached HasMatches (split_rows_of cells.now) (split_rows_of nexts.now)) }
    ensures { Lists result (TurnsTo repetition.entry.names.now (length_name repetition.entry.length)
        (split_rows_of cells.now) (split_rows_of nexts.now)) }
{
    let mut found = Vec::new(alloc);
    for end in ends {
        let count = cells.len() - *end;
        add_turns(
            alloc,
            repetition,
            &cells[..count],
            plain,
            &nexts[count].matches,
            &mut found,
        )?;
    }
    listing(alloc, found)
}
