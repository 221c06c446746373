// A look at a goal whose pattern is a list.
ghost use Rattle.std.specs.Prelude.{◌≡◌, ◌<◌, ◌≤◌, ◌+◌, [], ◌∷◌, ◌++◌, length, get_or, false};
ghost use Rattle.std.specs.Prelude.{IfOk, IfSome, IsTrue, OnOk};
ghost use Rattle.rdx_lang.specs.Collecting.{Arises, HasExactly};
ghost use Rattle.rdx_lang.specs.Listing.{IsListing};
ghost use Rattle.rdx_lang.specs.Order.{binding_cmp};
ghost use Rattle.rdx_lang.specs.Patterns.{seq};
ghost use Rattle.rdx_lang.specs.PatternView.{items_of};
ghost use Rattle.rdx_lang.specs.Shown.{bindings_of};
ghost use Rattle.rdx_bind.specs.Combining.{JoinsAcross};
ghost use Rattle.rdx_bind.specs.PartRows.{IsSearched, HaveSpots, found_split_rows};
ghost use Rattle.rdx_bind.specs.Parts.{AreSingles};
ghost use Rattle.rdx_bind.specs.Rows.{SpotsAcross, all_matches, split_row_of, split_rows_of};
ghost use Rattle.rdx_bind.specs.Spots.{IsPlaced, spots_of};
ghost use Rattle.rdx_nodes.specs.Asked as tasks;
ghost use Rattle.rdx_nodes.specs.Nodes.{slots_at, AreEntries};
ghost use Rattle.rdx_table.specs.Inside.Cuts.{lacks_all, part_in, IsColumnAt, IsFoundBehind};
ghost use Rattle.rdx_table.specs.Inside.Cuts.{IsGoalAt, IsNumberAt, IsPartIn, IsWithin};
ghost use Rattle.rdx_table.specs.Inside.Looks.{language_of_look, patterns_of_look, trees_of_look};
ghost use Rattle.rdx_table.specs.Inside.Looks.{aim_pattern, IsAim, IsLook, IsStop, Meets, Stops};
ghost use Rattle.rdx_table.specs.Inside.Tasks.{AreTasks, IsColumnTask};

use crate::cut::{Part, parts_of};
use crate::look::Look;
use crate::task::{Column, Goal, Stop, Task};
use rdx_bind::asks::Ask;
use rdx_bind::columns::{asked_first, empty_row};
use rdx_bind::rows::{Row, matches_across, placed, shared_bindings, shared_spots, spots_across};
use rdx_nodes::node::Entry;
use rdx_term::NoMemory;
use std::alloc::Global;

// The number of the node of the pattern of the entry at this place.
fn number_at(entries: &[Entry<'_>], i: usize) -> usize
    requires { i < length entries.now }
    ensures { IsNumberAt entries.now i result }
{
    match &entries[i] {
        Entry::One(number) => *number,
        Entry::Many(turns) => turns.number,
    }
}

// Whether the row has nothing.
fn has_nothing(row: &Row) -> bool
    ensures { result ≡ lacks_all (split_row_of row.now) }
{
    row.matches.is_empty() && row.spots.is_empty()
}

// What is asked of the entries with repetitions.
fn asked_where(splits: bool) -> Ask
    ensures { result ≡ tasks.asked_where splits }
{
    if splits { Ask::Splits } else { Ask::Matches }
}

// The row of an item as a row of the list that has it at this place.
fn placed_row(alloc: Global, row: Row, place: usize) -> Result<Row, NoMemory>
    ensures matches { IfOk result (λ found.
        bindings_of found.matches.items ≡ bindings_of row.matches.items) }
    ensures spots { IfOk result (λ found. HasExactly (spots_of found.spots.items)
        (Arises (IsPlaced place) (spots_of row.spots.items))) }
{
    let spots = placed(alloc, row.spots, place)?;
    Ok(Row {
        matches: row.matches,
        spots,
    })
}

// The first of the rows, as the only one.
fn first_row(alloc: Global, rows: &[Row]) -> Result<Row, NoMemory>
    requires { 0 < length rows.now }
    ensures { IfOk result (λ row.
        split_row_of row ≡ get_or (split_rows_of rows.now) 0 (split_row_of row)) }
{
    let matches = shared_bindings(alloc, &rows[0].matches)?;
    let spots = shared_spots(alloc, &rows[0].spots)?;
    Ok(Row { matches, spots })
}

// Adds a row.
fn push_row(rows: &mut Vec<Row>, row: Row) -> Result<(), NoMemory>
    ensures { OnOk result (rows.new.items ≡ rows.old.items ++ row ∷ []) }
{
    rows.push(row)?;
    Ok(())
}

// This task alone.
fn alone(alloc: Global, task: Task) -> Result<Vec<Task>, NoMemory>
    ensures { IfOk result (λ tasks. tasks.items ≡ task ∷ []) }
{
    let mut tasks = Vec::new(alloc);
    tasks.push(task)?;
    Ok(tasks)
}

// What comes across the rows of a list that come in three parts, as is asked.
fn across(
    alloc: Global,
    before: Vec<Row>,
    middle: Vec<Row>,
    behind: Vec<Row>,
    splits: bool,
) -> Result<Row, NoMemory>
    ensures matches { IfOk result (λ row. IsListing binding_cmp (bindings_of row.matches.items)
        (JoinsAcross (all_matches (split_rows_of before.items
        ++ (split_rows_of middle.items ++ split_rows_of behind.items))))) }
    ensures spots { IfOk result (λ row. IsTrue splits → HasExactly (spots_of row.spots.items)
        (SpotsAcross (split_rows_of before.items
        ++ (split_rows_of middle.items ++ split_rows_of behind.items)))) }
    ensures none { IfOk result (λ row. splits ≡ false → spots_of row.spots.items ≡ []) }
{
    let mut rows = before;
    let mut more = middle;
    let mut last = behind;
    rows.append(&mut more)?;
    rows.append(&mut last)?;
    let matches = matches_across(alloc, &rows)?;
    if !splits {
        let spots = Vec::new(alloc);
        return Ok(Row { matches, spots });
    }
    let spots = spots_across(alloc, &rows)?;
    Ok(Row { matches, spots })
}

impl<'s, 'a> Look<'s, 'a> {
    // The goal of the entry at this place of a part, which is one term's.
    fn goal_at(&self, part: Part<'_, 'a>, i: usize, splits: bool) -> Goal
        requires part { IsPartIn self.now part }
        requires single { AreSingles (part_in self.now part).slots (part_in self.now part).terms }
        requires place { i < length part.ids.now }
        ensures goal { IsAim self.now result }
        ensures at { IsGoalAt self.now (part_in self.now part.entry) i result }
        ensures splits { result.splits ≡ splits }
    {
        Goal {
            number: number_at(part.entries, i),
            id: part.ids[i],
            splits,
        }
    }

    // The goals of so many entries of a part, from this place on, the last one first.
    fn goals(
        &self,
        part: Part<'_, 'a>,
        first: usize,
        count: usize,
        splits: bool,
    ) -> Result<Vec<Task>, NoMemory>
        requires part { IsPartIn self.now part }
        requires single { AreSingles (part_in self.now part).slots (part_in self.now part).terms }
        requires places { first + count ≤ length part.ids.now }
        ensures tasks { IfOk result (λ found. AreTasks (language_of_look self.now)
            (patterns_of_look self.now) (trees_of_look self.now) found.items) }
        ensures number { IfOk result (λ found. length found.items ≡ count) }
    {
        let mut tasks = Vec::with_capacity(self.setting.alloc, count)?;
        for i in (0..count).rev() {
            tasks.push(Task::Goal(self.goal_at(part, first + i, splits)))?;
        }
        Ok(tasks)
    }

    // Why there is no row of the entry at this place yet: it is to be found first, and with it as
    // many behind it as there are answers.
    fn stop_at(&self, part: Part<'_, 'a>, i: usize, splits: bool) -> Stop
        requires part { IsPartIn self.now part }
        requires single { AreSingles (part_in self.now part).slots (part_in self.now part).terms }
        requires place { i < length part.ids.now }
        ensures { IsStop self.now.setting.now result }
    {
        let count = self.answers.len().max(1).min(part.ids.len() - i);
        match self.goals(part, i, count, splits) {
            Ok(tasks) => Stop::Asks(tasks),
            Err(NoMemory) => Stop::NoMemory,
        }
    }

    // The rows of entries that are one term's each. Where one doesn't match, it has to be the one
    // that is split, and of those behind it only matches are asked. `None` where an entry neither
    // matches nor splits its term.
    fn rows_of(
        &self,
        part: Part<'_, 'a>,
        splitting: &mut bool,
        next: &mut usize,
    ) -> Result<Option<Vec<Row>>, Stop>
        requires look { IsLook self.now }
        requires part { IsPartIn self.now part }
        requires place { part.place + length part.ids.now ≤ usize.MAX }
        requires single { AreSingles (part_in self.now part).slots (part_in self.now part).terms }
        ensures searched { IfOk result (λ found. IsSearched (language_of_look self.now)
            (part_in self.now part.entry) splitting.old splitting.new (found_split_rows found)) }
        ensures spots { IfOk result (λ found. IfSome found (λ rows. IsTrue splitting.new →
            HaveSpots (language_of_look self.now) (part_in self.now part.entry)
            (split_rows_of rows.items))) }
        ensures stop { Stops self.now.setting.now result }
    {
        let alloc = self.setting.alloc;
        let mut rows = Vec::new(alloc);
        for i in 0..part.ids.len() {
            let goal = self.goal_at(part, i, *splitting);
            let Some(row) = self.row(goal, next)? else {
                return Err(self.stop_at(part, i, *splitting));
            };
            if has_nothing(&row) {
                return Ok(None);
            }
            *splitting &= !row.matches.is_empty();
            let row = placed_row(alloc, row, part.place + i)?;
            push_row(&mut rows, row)?;
        }
        Ok(Some(rows))
    }

    // The column of the entries from the first repetition to the last, of which the first place is
    // asked.
    fn column_of(&self, part: Part<'_, 'a>, goal: Goal, splits: bool) -> Result<Column, NoMemory>
        requires goal { IsAim self.now goal }
        requires within { IsWithin self.now goal (part_in self.now part) }
        requires last { part.place + length part.entries.now ≤ usize.MAX }
        ensures task { IfOk result (λ column. IsColumnTask (language_of_look self.now)
            (patterns_of_look self.now) (trees_of_look self.now) column) }
        ensures part { IfOk result (λ column. IsColumnAt self.now (part_in self.now part.entry)
            (tasks.asked_where splits) column) }
    {
        let asks = asked_first(self.setting.alloc, asked_where(splits), part.ids.len())?;
        Ok(Column {
            number: goal.number,
            id: goal.id,
            first: part.place,
            last: part.place + part.entries.len(),
            place: part.place,
            asks,
        })
    }

    // The row of the entries from the first repetition to the last, whose column is asked for
    // last; no row where there are none. `None` where they neither match nor, where this is asked,
    // split their terms.
    fn middle_row(
        &self,
        part: Part<'_, 'a>,
        goal: Goal,
        splitting: bool,
    ) -> Result<Option<Vec<Row>>, Stop>
        requires look { IsLook self.now }
        requires goal { IsAim self.now goal }
        requires within { IsWithin self.now goal (part_in self.now part) }
        requires last { part.place + length part.entries.now ≤ usize.MAX }
        requires none { (part_in self.now part).slots ≡ [] → (part_in self.now part).terms ≡ [] }
        ensures found { IfOk result (λ found. IsFoundBehind (language_of_look self.now)
            (part_in self.now part.entry) splitting (found_split_rows found)) }
        ensures stop { Stops self.now.setting.now result }
    {
        let alloc = self.setting.alloc;
        let mut rows = Vec::new(alloc);
        if part.entries.is_empty() {
            return Ok(Some(rows));
        }
        let column = self.column_of(part, goal, splitting)?;
        let Some(found) = self.rows(&column, self.answers.len().saturating_sub(1)) else {
            return Err(Stop::Asks(alone(alloc, Task::Column(column))?));
        };
        let row = first_row(alloc, found)?;
        if has_nothing(&row) {
            return Ok(None);
        }
        push_row(&mut rows, row)?;
        Ok(Some(rows))
    }

    /// The row of a goal whose pattern is the list pattern of these entries.
    pub(crate) fn list(&self, entries: &[Entry<'a>], goal: Goal) -> Result<Row, Stop>
        requires look { IsLook self.now }
        requires goal { IsAim self.now goal }
        requires entries { AreEntries (patterns_of_look self.now)
            (length (patterns_of_look self.now)) entries.now }
        requires pattern { aim_pattern self.now goal
            ≡ seq (items_of (slots_at (patterns_of_look self.now) entries.now)) }
        ensures found { IfOk result (λ row. Meets self.now goal row) }
        ensures stop { Stops self.now.setting.now result }
    {
        let alloc = self.setting.alloc;
        let Some(parts) = parts_of(self.setting, entries, goal.id) else {
            return Ok(empty_row(alloc));
        };
        let mut splitting = goal.splits;
        let mut next = 0;
        let Some(before) = self.rows_of(parts.before, &mut splitting, &mut next)? else {
            return Ok(empty_row(alloc));
        };
        let Some(behind) = self.rows_of(parts.behind, &mut splitting, &mut next)? else {
            return Ok(empty_row(alloc));
        };
        let Some(middle) = self.middle_row(parts.middle, goal, splitting)? else {
            return Ok(empty_row(alloc));
        };
        Ok(across(alloc, before, middle, behind, goal.splits)?)
    }
}
