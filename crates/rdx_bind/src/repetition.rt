//! What a repetition binds where it is known what its turns bind.
ghost use Rattle.std.specs.Prelude.{◌≡◌, ◌+◌, ◌++◌, ◌∷◌, [], IfNone, IfOk, IfSome, IsTrue, OnOk, length};
ghost use Rattle.rdx_lang.specs.Ascending.{IsAscending};
ghost use Rattle.rdx_lang.specs.Bindings.{bound_names, name_cmp, no_names};
ghost use Rattle.rdx_lang.specs.Collections.{IsRepetition};
ghost use Rattle.rdx_lang.specs.Collecting.{Adds, Arises, HasExactly};
ghost use Rattle.rdx_lang.specs.Members.{In};
ghost use Rattle.rdx_lang.specs.Shown.{binding_of, bindings_of};
ghost use Rattle.rdx_bind.specs.Choices.{IsCounted, NoneEmpty, Repeats, RowsArePlain, RowsBind};
ghost use Rattle.rdx_bind.specs.Choices.{length_name};
ghost use Rattle.rdx_bind.specs.Combining.{rows_of};
ghost use Rattle.rdx_bind.specs.Ends.{rows_around};
ghost use Rattle.rdx_bind.specs.Rows.{all_matches, split_rows_of};
ghost use Rattle.rdx_bind.specs.Turns.{PlainWhere};

use crate::choices::{no_choice, with_matches, with_one_of};
use crate::collecting::collect;
use crate::joining::join;
use crate::rows::Row;
use crate::seen::are_plain;
use crate::single::one;
use rdx_lang::{Binding, Value};
use rdx_term::{Name, NoMemory};
use std::alloc::Global;

/// What a repetition binds in its turns: its names, ascending, and the name for their number, where
/// it has one.
#[derive(Clone, Copy)]
pub struct Repetition<'a> {
    /// The names that the turns bind, ascending.
    pub names: &'a [Name],
    /// The name for the number of turns, where there is one.
    pub length: Option<&'a Name>,
}

// The binding with the number of the turns for the length name, where there is one; `None` exactly
// where the name stands for something else in it.
fn with_count(
    alloc: Global,
    collected: Binding,
    name: Option<&Name>,
    turns: usize,
) -> Result<Option<Binding>, NoMemory>
    ensures some { IfOk result (λ r. IfSome r (λ b.
        IsCounted (binding_of collected) turns (length_name name.entry) (binding_of b))) }
    ensures none { IfOk result (λ r. IfNone r (
        (b : _) → ¬ IsCounted (binding_of collected) turns (length_name name.entry) b)) }
{
    match name {
        None => Ok(Some(collected)),
        Some(name) => {
            let counted = one(alloc, name, Value::Len(turns))?;
            join(alloc, &collected, &counted)
        }
    }
}

// Adds the same, where there is such a binding.
fn add_counted(
    alloc: Global,
    collected: Binding,
    name: Option<&Name>,
    turns: usize,
    found: &mut Vec<Binding>,
) -> Result<(), NoMemory>
    ensures { OnOk result (Adds (IsCounted (binding_of collected) turns (length_name name.entry))
        (bindings_of found.old.items) (bindings_of found.new.items)) }
{
    if let Some(counted) = with_count(alloc, collected, name, turns)? {
        found.push(counted)?;
    }
    Ok(())
}

// Adds what the repetition binds in these turns, if it binds something.
fn add_bound(
    alloc: Global,
    repetition: Repetition<'_>,
    turns: &[Binding],
    found: &mut Vec<Binding>,
) -> Result<(), NoMemory>
    requires ascending { IsAscending name_cmp repetition.names.now }
    requires bound { (b : _) → In b (bindings_of turns.now) → bound_names b ≡ repetition.names.now }
    ensures { OnOk result (Adds (IsRepetition repetition.entry.names.now (bindings_of turns.now)
        (length_name repetition.entry.length))
        (bindings_of found.old.items) (bindings_of found.new.items)) }
{
    match collect(alloc, repetition.names, turns)? {
        None => Ok(()),
        Some(collected) => add_counted(alloc, collected, repetition.length, turns.len(), found),
    }
}

// What the repetition binds in each of these lists of turns.
fn bound_in(
    alloc: Global,
    repetition: Repetition<'_>,
    lists: &[Vec<Binding>],
) -> Result<Vec<Binding>, NoMemory>
    requires ascending { IsAscending name_cmp repetition.names.now }
    requires bound { RowsBind repetition.names.now (rows_of lists.now) }
    ensures { IfOk result (λ found. HasExactly (bindings_of found.items)
        (Arises (λ cs. IsRepetition repetition.entry.names.now cs
        (length_name repetition.entry.length)) (rows_of lists.now))) }
{
    let mut found = Vec::new(alloc);
    for turns in lists {
        add_bound(alloc, repetition, turns, &mut found)?;
    }
    Ok(found)
}

// What a repetition without names binds in so many turns.
fn bound_unnamed(
    alloc: Global,
    length: Option<&Name>,
    turns: usize,
) -> Result<Vec<Binding>, NoMemory>
    ensures { IfOk result (λ found. HasExactly (bindings_of found.items)
        (IsCounted no_names turns (length_name length.entry))) }
{
    let mut found = Vec::new(alloc);
    let collected = Binding::new(Vec::new(alloc));
    add_counted(alloc, collected, length, turns, &mut found)?;
    Ok(found)
}

/// Whether none of the matches of the cells has a mismatch name.
pub(crate) fn rows_are_plain(cells: &[Row]) -> bool
    ensures { IsTrue result → RowsArePlain (all_matches (split_rows_of cells.now)) }
{
    for cell in cells {
        if !are_plain(&cell.matches) {
            return false;
        }
    }
    true
}

/// What the repetition binds where its turns are these cells, each with one of its matches. Without
/// names their number alone counts, where it is told that there are no mismatch names.
pub fn bound_over(
    alloc: Global,
    repetition: Repetition<'_>,
    cells: &[Row],
    plain: bool,
) -> Result<Vec<Binding>, NoMemory>
    requires ascending { IsAscending name_cmp repetition.names.now }
    requires plain { PlainWhere plain (split_rows_of cells.now) }
    requires bound { RowsBind repetition.names.now (all_matches (split_rows_of cells.now)) }
    requires full { NoneEmpty (all_matches (split_rows_of cells.now)) }
    ensures { IfOk result (λ found. HasExactly (bindings_of found.items)
        (Repeats repetition.entry.names.now (length_name repetition.entry.length)
        (all_matches (split_rows_of cells.now)))) }
{
    if plain && repetition.names.is_empty() {
        return bound_unnamed(alloc, repetition.length, cells.len());
    }
    let first = no_choice(alloc)?;
    let lists = with_matches(alloc, first, cells)?;
    bound_in(alloc, repetition, &lists)
}

/// The same where one turn between the cells binds this. The turns are so many.
pub fn bound_around(
    alloc: Global,
    repetition: Repetition<'_>,
    before: &[Row],
    turn: &Binding,
    between: &[Row],
    turns: usize,
    plain: bool,
) -> Result<Vec<Binding>, NoMemory>
    requires ascending { IsAscending name_cmp repetition.names.now }
    requires before { PlainWhere plain (split_rows_of before.now) }
    requires between { PlainWhere plain (split_rows_of between.now) }
    requires turns { turns ≡ length before.now + length between.now + 1 }
    requires bound { RowsBind repetition.names.now
        (rows_around (split_rows_of before.now) (binding_of turn.now) (split_rows_of between.now)) }
    requires full { NoneEmpty (rows_around (split_rows_of before.now) (binding_of turn.now)
        (split_rows_of between.now)) }
    ensures { IfOk result (λ found. HasExactly (bindings_of found.items)
        (Repeats repetition.entry.names.now (length_name repetition.entry.length)
        (rows_around (split_rows_of before.now) (binding_of turn.now)
        (split_rows_of between.now)))) }
{
    if plain && repetition.names.is_empty() && turn.differs().is_empty() {
        return bound_unnamed(alloc, repetition.length, turns);
    }
    let first = no_choice(alloc)?;
    let firsts = with_matches(alloc, first, before)?;
    let more = with_one_of(alloc, firsts, std::slice::from_ref(turn))?;
    let lists = with_matches(alloc, more, between)?;
    bound_in(alloc, repetition, &lists)
}
