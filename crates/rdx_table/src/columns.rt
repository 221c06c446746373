// A look at a column: an item of a list pattern at each place of a list, together with those
// behind it.
ghost use Rattle.std.specs.Prelude.{◌≡◌, ◌<◌, ◌≤◌, ◌+◌, IfOk, length, option_copied};
ghost use Rattle.rdx_lang.specs.Names.{names};
ghost use Rattle.rdx_lang.specs.PatternView.{just, repeated};
ghost use Rattle.rdx_bind.specs.Rows.{split_rows_of};
ghost use Rattle.rdx_store.specs.Stored.{trees_by_ids, AreIds};
ghost use Rattle.rdx_nodes.specs.Nodes.{pattern_at, slots_at, AreEntries};
ghost use Rattle.rdx_table.specs.Inside.Cells.{BeginsWith, IsBehind};
ghost use Rattle.rdx_table.specs.Inside.Looks.{language_of_look, patterns_of_look, trees_of_look};
ghost use Rattle.rdx_table.specs.Inside.Looks.{IsLook, MeetsColumn, Stops};
ghost use Rattle.rdx_table.specs.Inside.Tasks.{column_trees, slots_in, IsColumnTask};

use crate::cells::{Cells, ask_for};
use crate::look::Look;
use crate::task::{Column, Stop, Task};
use rdx_bind::asks::Ask;
use rdx_bind::columns::{asks_behind, empty_rows, end_column, nothing_asked, one_column};
use rdx_bind::repetition::Repetition;
use rdx_bind::rows::Row;
use rdx_bind::turns::turns_column;
use rdx_nodes::node::{Entry, Turns};
use rdx_store::TermId;

impl<'s, 'a> Look<'s, 'a> {
    // The terms of a column.
    fn terms(&self, column: &Column) -> &'s [TermId]
        requires { IsColumnTask (language_of_look self.now) (patterns_of_look self.now)
            (trees_of_look self.now) column.now }
        ensures ids { AreIds result.now (length (trees_of_look self.now)) }
        ensures terms { trees_by_ids (trees_of_look self.now) result.now
            ≡ column_trees (language_of_look self.now) (patterns_of_look self.now)
            (trees_of_look self.now) column.now }
        ensures places { length column.now.asks.items ≡ length result.now + 1 }
        ensures within { column.now.place + length result.now ≤ usize.MAX }
    {
        let items = self.setting.store.items(column.id);
        let end = column.place + (column.asks.len() - 1);
        &items[column.place..end]
    }

    // The rows of the items of a column behind the first, of which this is asked.
    fn behind(&self, column: &Column, asks: Vec<Ask>) -> Result<&'s [Row], Stop>
        requires look { IsLook self.now }
        requires column { IsColumnTask (language_of_look self.now) (patterns_of_look self.now)
            (trees_of_look self.now) column.now }
        requires some { column.now.first < column.now.last }
        requires next { column.now.first + 1 ≤ usize.MAX }
        requires places { length asks.items ≡ length column.now.asks.items }
        ensures found { IfOk result (λ rows.
            IsBehind self.now column.now asks.items (split_rows_of rows.now)) }
        ensures stop { Stops self.now.setting.now result }
    {
        let behind = Column {
            number: column.number,
            id: column.id,
            first: column.first + 1,
            last: column.last,
            place: column.place,
            asks,
        };
        match self.rows(&behind, self.answers.len().saturating_sub(1)) {
            Some(rows) => Ok(rows),
            None => Err(ask_for(self.setting.alloc, Task::Column(behind))),
        }
    }

    // The rows of a column that begins with one term's item, of the pattern with this number.
    fn column_of_one(&self, number: usize, column: &Column) -> Result<Vec<Row>, Stop>
        requires look { IsLook self.now }
        requires column { IsColumnTask (language_of_look self.now) (patterns_of_look self.now)
            (trees_of_look self.now) column.now }
        requires some { column.now.first < column.now.last }
        requires next { column.now.first + 1 ≤ usize.MAX }
        requires number { number < length (patterns_of_look self.now) }
        requires item { BeginsWith self.now column.now
            (just (pattern_at (patterns_of_look self.now) number)) }
        ensures found { IfOk result (λ rows. MeetsColumn self.now column.now rows.items) }
        ensures stop { Stops self.now.setting.now result }
    {
        let alloc = self.setting.alloc;
        let source = Cells::new(*self, number, self.terms(column), column.place)?;
        let cells = source.cells(&column.asks)?;
        let asked = asks_behind(alloc, &column.asks, &cells)?;
        let nexts = self.behind(column, asked)?;
        let rows = one_column(alloc, &column.asks, &cells, nexts)?;
        Ok(rows)
    }

    // The rows of a column that begins with this repetition.
    fn column_of_many(&self, turns: &Turns<'a>, column: &Column) -> Result<Vec<Row>, Stop>
        requires look { IsLook self.now }
        requires column { IsColumnTask (language_of_look self.now) (patterns_of_look self.now)
            (trees_of_look self.now) column.now }
        requires some { column.now.first < column.now.last }
        requires next { column.now.first + 1 ≤ usize.MAX }
        requires number { turns.now.number < length (patterns_of_look self.now) }
        requires names { turns.now.names.items
            ≡ names (pattern_at (patterns_of_look self.now) turns.now.number) }
        requires item { BeginsWith self.now column.now
            (repeated (pattern_at (patterns_of_look self.now) turns.now.number)
            (option_copied turns.now.length)) }
        ensures found { IfOk result (λ rows. MeetsColumn self.now column.now rows.items) }
        ensures stop { Stops self.now.setting.now result }
    {
        let alloc = self.setting.alloc;
        let source = Cells::new(*self, turns.number, self.terms(column), column.place)?;
        let (asked, cells) = source.turns(&column.asks)?;
        let nexts = self.behind(column, asked)?;
        let repetition = Repetition {
            names: &turns.names,
            length: turns.length,
        };
        let rows = turns_column(alloc, repetition, &column.asks, &cells, nexts)?;
        Ok(rows)
    }

    /// The rows of a column, of these entries of its list pattern.
    pub(crate) fn column(&self, entries: &[Entry<'a>], column: &Column) -> Result<Vec<Row>, Stop>
        requires look { IsLook self.now }
        requires column { IsColumnTask (language_of_look self.now) (patterns_of_look self.now)
            (trees_of_look self.now) column.now }
        requires entries { AreEntries (patterns_of_look self.now)
            (length (patterns_of_look self.now)) entries.now }
        requires slots { slots_in (pattern_at (patterns_of_look self.now) column.now.number)
            ≡ slots_at (patterns_of_look self.now) entries.now }
        ensures found { IfOk result (λ rows. MeetsColumn self.now column.now rows.items) }
        ensures stop { Stops self.now.setting.now result }
    {
        let alloc = self.setting.alloc;
        let asks = &column.asks;
        if nothing_asked(asks) {
            let rows = empty_rows(alloc, asks.len())?;
            return Ok(rows);
        }
        if column.first == column.last {
            let terms = asks.len() - 1;
            let rows = end_column(alloc, terms, asks[terms])?;
            return Ok(rows);
        }
        match &entries[column.first] {
            Entry::One(number) => self.column_of_one(*number, column),
            Entry::Many(turns) => self.column_of_many(turns, column),
        }
    }
}
