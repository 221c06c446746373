// The search: one recursion over the term and the pattern.
ghost use Rattle.std.specs.Prelude.{◌≡◌, ◌↔◌, ◌+◌, ◌≤◌, IfOk, IsTrue, length, map, option_copied, [], IfSome, OnOk};
ghost use Rattle.rdx_term.specs.View.{tree_of, trees_of};
ghost use Rattle.rdx_lang.specs.Checked.{language_in};
ghost use Rattle.rdx_lang.specs.Names.{names};
ghost use Rattle.rdx_lang.specs.Patterns.{in_hole, seq, one, many};
ghost use Rattle.rdx_lang.specs.PatternView.{pattern_of, patterns_of, slot_of, items_of};
ghost use Rattle.rdx_lang.specs.Rules.{AreAlternatives, Match, MatchItems};
ghost use Rattle.rdx_bind.specs.Columns.{AreCells, HasAsked, IsColumn, carried};
ghost use Rattle.rdx_bind.specs.Parts.{part_of, AreSingles, FoundRows, found_rows};
ghost use Rattle.rdx_bind.specs.PartRows.{AreRows, IsSearched, HaveSpots, HaveAll, found_split_rows};
ghost use Rattle.rdx_bind.specs.Rows.{split_row_of, split_rows_of};
ghost use Rattle.rdx_bind.specs.Combining.{Lists};
ghost use Rattle.rdx_bind.specs.Namings.{naming_of, under};
ghost use Rattle.rdx_bind.specs.Searching.{AnyMatches, AnySplits, IsRowOf, found_row};
ghost use Rattle.rdx_bind.specs.Spots.{ItemsSplitAt, PlacedAt, SplitsAt};
ghost use Rattle.rdx_bind.specs.Splitting.{Finds};

use crate::extending::with_contexts;
use crate::room::Room;
use rdx_bind::asks::Ask;
use rdx_bind::atoms::{has_prefix, is_hole, is_of_kind, is_other_symbol};
use rdx_bind::columns::{
    asked_first, asks_behind, empty_row, empty_rows, end_column, nothing_asked, one_column,
};
use rdx_bind::combining::{add_all_joins, empty_where, with_name};
use rdx_bind::extending::add_going_on;
use rdx_bind::listing;
use rdx_bind::naming::Naming;
use rdx_bind::parts::{Part, parts_of, pattern_in};
use rdx_bind::repetition::Repetition;
use rdx_bind::rows::{Row, joins_of_parts, placed, spots_of_parts};
use rdx_bind::spots::{Gathered, Spot, whole};
use rdx_bind::turns::turns_column;
use rdx_fill::part_at;
use rdx_lang::{Binding, CheckedLang, Item, Pat, Ref};
use rdx_term::{Name, NoMemory, Term};
use std::alloc::Global;
use std::slice::from_ref;

// The names that the pattern binds, in a call of its own, so that the search has small frames.
#[inline(never)]
fn names_of(alloc: Global, pat: &Pat) -> Result<Vec<Name>, NoMemory>
    ensures { IfOk result (λ found. found.items ≡ names (pattern_of pat.now)) }
{
    pat.names(alloc)
}

/// A search in a language.
#[derive(Clone, Copy)]
pub(crate) struct Search<'a> {
    alloc: Global,
    language: &'a CheckedLang,
}

impl<'a> Search<'a> {
    /// A search in this language, with memory from here.
    pub(crate) fn new(alloc: Global, language: &'a CheckedLang) -> Search<'a>
        ensures { language_in result.language.now ≡ language_in language.now }
    {
        Search { alloc, language }
    }

    // The alternatives of a nonterminal.
    #[inline(never)]
    fn alternatives(&self, name: &Ref) -> &'a [Pat]
        ensures { AreAlternatives (language_in self.now.language.now) name.now (patterns_of result.now) }
    {
        self.language.alternatives(name)
    }

    // Whether one of the patterns matches.
    #[cycle(search)]
    #[inline(never)]
    fn any_matches(&self, pats: &[Pat], t: &Term, room: Room) -> Result<bool, NoMemory>
        ensures { IfOk result (λ any. IsTrue any ↔ AnyMatches (language_in self.now.language.now)
            (patterns_of pats.now) (tree_of t.now)) }
    {
        for pat in pats {
            let found = self.matches(pat, t, room)?;
            if !found.is_empty() {
                return Ok(true);
            }
        }
        Ok(false)
    }

    // A pattern with a name: what its part binds, with what the name alone binds for the term.
    #[cycle(search)]
    #[inline(never)]
    fn match_named(
        &self,
        name: Naming<'_>,
        part: &Pat,
        t: &Term,
        room: Room,
    ) -> Result<Vec<Binding>, NoMemory>
        ensures { Lists result (Match (language_in self.now.language.now)
            (under (naming_of name.entry) (pattern_of part.now)) (tree_of t.now)) }
    {
        let firsts = self.matches(part, t, room)?;
        with_name(self.alloc, &firsts, name, t)
    }

    // A pattern in the hole of another: for each spot of the left one, what the right one binds at
    // the part, and what the spot binds.
    #[cycle(search)]
    #[inline(never)]
    fn match_in_hole(
        &self,
        left: &Pat,
        right: &Pat,
        t: &Term,
        room: Room,
    ) -> Result<Vec<Binding>, NoMemory>
        ensures { Lists result (Match (language_in self.now.language.now)
            (in_hole (pattern_of left.now) (pattern_of right.now)) (tree_of t.now)) }
    {
        let spots = self.splits(left, t, room)?;
        let mut found = Vec::new(self.alloc);
        for spot in &spots {
            let path = spot.trail.places(self.alloc)?;
            let inners = self.matches(right, part_at(t, &path), room)?;
            add_all_joins(self.alloc, &spot.binding, inners, &mut found)?;
        }
        listing(self.alloc, found)
    }

    // The bindings of each of the items, which are one term's each, from the first to the last. None
    // where an item has no bindings.
    #[cycle(search)]
    #[inline(never)]
    fn match_items(&self, part: Part, room: Room) -> Result<Option<Vec<Vec<Binding>>>, NoMemory>
        requires { AreSingles (part_of part).slots (part_of part).terms }
        ensures { IfOk result (λ found. FoundRows (language_in self.now.language.now)
            (part_of part.entry).slots (part_of part.entry).terms (found_rows found)) }
    {
        let mut rows = Vec::new(self.alloc);
        for i in 0..part.items.len() {
            let row = self.matches(pattern_in(&part.items[i]), &part.terms[i], room)?;
            if row.is_empty() {
                return Ok(None);
            }
            rows.push(row)?;
        }
        Ok(Some(rows))
    }

    // What the items from the first repetition to the last bind together, as a row; no row where
    // there are no items. None where they have no bindings.
    #[cycle(search)]
    #[inline(never)]
    fn match_middle(&self, part: Part, room: Room) -> Result<Option<Vec<Vec<Binding>>>, NoMemory>
        requires place { part.place + length part.terms.now ≤ usize.MAX }
        requires none { (part_of part).slots ≡ [] → (part_of part).terms ≡ [] }
        ensures { IfOk result (λ found. FoundRows (language_in self.now.language.now)
            (part_of part.entry).slots (part_of part.entry).terms (found_rows found)) }
    {
        let mut rows = Vec::new(self.alloc);
        if part.items.is_empty() {
            return Ok(Some(rows));
        }
        let row = self.row_of_items(part.items, part.terms, part.place, Ask::Matches, room)?;
        if row.matches.is_empty() {
            return Ok(None);
        }
        rows.push(row.matches)?;
        Ok(Some(rows))
    }

    // A list pattern: the bindings of each item that is one term's, then of those from the first
    // repetition to the last, and then their joins. Where some have none, the items have none.
    #[cycle(search)]
    #[inline(never)]
    fn match_list(&self, items: &[Item], t: &Term, room: Room) -> Result<Vec<Binding>, NoMemory>
        ensures { Lists result (Match (language_in self.now.language.now)
            (seq (items_of (map slot_of items.now))) (tree_of t.now)) }
    {
        let Some(parts) = parts_of(items, t) else {
            return Ok(Vec::new(self.alloc));
        };
        let Some(before) = self.match_items(parts.before, room)? else {
            return Ok(Vec::new(self.alloc));
        };
        let Some(behind) = self.match_items(parts.behind, room)? else {
            return Ok(Vec::new(self.alloc));
        };
        let Some(middle) = self.match_middle(parts.middle, room)? else {
            return Ok(Vec::new(self.alloc));
        };
        joins_of_parts(self.alloc, before, middle, behind)
    }

    /// The strictly ascending list of exactly the bindings by which the pattern matches the term.
    #[cycle(search)]
    #[inline(never)]
    pub(crate) fn matches(&self, pat: &Pat, t: &Term, room: Room) -> Result<Vec<Binding>, NoMemory>
        ensures { Lists result (Match (language_in self.now.language.now) (pattern_of pat.now) (tree_of t.now)) }
    {
        let inside = room.inside()?;
        match pat {
            Pat::Wild => empty_where(self.alloc, true),
            Pat::Kind(kind) => empty_where(self.alloc, is_of_kind(self.language, *kind, t)),
            Pat::Except(names) => empty_where(self.alloc, is_other_symbol(names, t)),
            Pat::Prefix(prefix) => empty_where(self.alloc, has_prefix(prefix, t)),
            Pat::Hole => empty_where(self.alloc, is_hole(t)),
            Pat::Lit(literal) => empty_where(self.alloc, t.same_bare(literal)),
            Pat::Nt(name) => {
                let any = self.any_matches(self.alternatives(name), t, inside)?;
                empty_where(self.alloc, any)
            }
            Pat::Named(name, part) => self.match_named(Naming::Binds(name), part, t, inside),
            Pat::Differ(name, part) => self.match_named(Naming::Differs(name), part, t, inside),
            Pat::InHole(left, right) => self.match_in_hole(left, right, t, inside),
            Pat::HideHole(part) => self.matches(part, t, inside),
            Pat::Closed(part) => {
                let any = self.any_matches(from_ref::<Pat>(part), t, inside)?;
                empty_where(self.alloc, any)
            }
            Pat::Seq(items) => self.match_list(items, t, inside),
        }
    }

    // The spots of all of the patterns, with no names.
    #[cycle(search)]
    #[inline(never)]
    fn any_splits(&self, pats: &[Pat], t: &Term, room: Room) -> Result<Vec<Spot>, NoMemory>
        ensures { Finds result (AnySplits (language_in self.now.language.now)
            (patterns_of pats.now) (tree_of t.now)) }
    {
        let mut gathered = Gathered::new(self.alloc);
        for pat in pats {
            let spots = self.splits(pat, t, room)?;
            gathered.add(spots)?;
        }
        gathered.nameless(self.alloc)
    }

    // A pattern with a name: the spots of its part, each with the name for its context.
    #[cycle(search)]
    #[inline(never)]
    fn split_named(
        &self,
        name: Naming<'_>,
        part: &Pat,
        t: &Term,
        room: Room,
    ) -> Result<Vec<Spot>, NoMemory>
        ensures { Finds result (SplitsAt (language_in self.now.language.now)
            (under (naming_of name.entry) (pattern_of part.now)) (tree_of t.now)) }
    {
        let spots = self.splits(part, t, room)?;
        with_contexts(self.alloc, spots, name, t)
    }

    // A pattern in the hole of another: for each spot of the left one, the spots of the right one
    // at the part, from there on.
    #[cycle(search)]
    #[inline(never)]
    fn split_in_hole(
        &self,
        left: &Pat,
        right: &Pat,
        t: &Term,
        room: Room,
    ) -> Result<Vec<Spot>, NoMemory>
        ensures { Finds result (SplitsAt (language_in self.now.language.now)
            (in_hole (pattern_of left.now) (pattern_of right.now)) (tree_of t.now)) }
    {
        let spots = self.splits(left, t, room)?;
        let mut gathered = Gathered::new(self.alloc);
        for outer in &spots {
            let path = outer.trail.places(self.alloc)?;
            let inners = self.splits(right, part_at(t, &path), room)?;
            add_going_on(self.alloc, outer, inners, &mut gathered)?;
        }
        gathered.distinct(self.alloc)
    }

    // The row of an item that has to match the term at this place of a list, or may be split: its
    // matches, and where it has none its spots. None where it can be neither.
    #[cycle(search)]
    #[inline(never)]
    fn row_of(
        &self,
        pat: &Pat,
        t: &Term,
        place: usize,
        may_split: bool,
        room: Room,
    ) -> Result<Option<Row>, NoMemory>
        ensures { IfOk result (λ row. IsRowOf (language_in self.now.language.now) place
            (pattern_of pat.now) (tree_of t.now) may_split (found_row row)) }
    {
        let matches = self.matches(pat, t, room)?;
        if !matches.is_empty() {
            let spots = Vec::new(self.alloc);
            return Ok(Some(Row { matches, spots }));
        }
        if !may_split {
            return Ok(None);
        }
        let spots = self.spots_of(pat, t, place, room)?;
        if spots.is_empty() {
            return Ok(None);
        }
        Ok(Some(Row { matches, spots }))
    }

    // The spots of a pattern at the term that stands at this place of a list, as spots of the list.
    #[cycle(search)]
    #[inline(never)]
    fn spots_of(&self, pat: &Pat, t: &Term, place: usize, room: Room) -> Result<Vec<Spot>, NoMemory>
        ensures { Finds result (PlacedAt (language_in self.now.language.now) place (pattern_of pat.now) (tree_of t.now)) }
    {
        let spots = self.splits(pat, t, room)?;
        placed(self.alloc, spots, place)
    }

    // What a pattern binds at the term at this place of a list, and where it splits it, as asked.
    #[cycle(search)]
    #[inline(never)]
    fn cell(&self, pat: &Pat, t: &Term, place: usize, ask: Ask, room: Room) -> Result<Row, NoMemory>
        ensures { IfOk result (λ row. HasAsked
            (Match (language_in self.now.language.now) (pattern_of pat.now) (tree_of t.now))
            (PlacedAt (language_in self.now.language.now) place
            (pattern_of pat.now) (tree_of t.now))
            ask (split_row_of row)) }
    {
        match ask {
            Ask::Nothing => Ok(empty_row(self.alloc)),
            Ask::Matches => {
                let matches = self.matches(pat, t, room)?;
                let spots = Vec::new(self.alloc);
                Ok(Row { matches, spots })
            }
            Ask::Splits => {
                let matches = self.matches(pat, t, room)?;
                let spots = self.splits(pat, t, room)?;
                let spots = placed(self.alloc, spots, place)?;
                Ok(Row { matches, spots })
            }
        }
    }

    // The cells of a pattern: one for each term, as is asked of its place.
    #[cycle(search)]
    #[inline(never)]
    fn cells(
        &self,
        pat: &Pat,
        ts: &[Term],
        place: usize,
        asks: &[Ask],
        room: Room,
    ) -> Result<Vec<Row>, NoMemory>
        requires places { length asks.now ≡ length ts.now + 1 }
        requires within { place + length ts.now ≤ usize.MAX }
        ensures { IfOk result (λ cells. AreCells (language_in self.now.language.now)
            (pattern_of pat.now) place (trees_of ts.now) asks.now (split_rows_of cells.items)) }
    {
        let mut cells = Vec::with_capacity(self.alloc, ts.len())?;
        for i in 0..ts.len() {
            let cell = self.cell(pat, &ts[i], place + i, asks[i], room)?;
            cells.push(cell)?;
        }
        Ok(cells)
    }

    // The same for a repetition: at each place, what is asked there and behind the cell before it
    // is asked of the cell, and of the items behind.
    #[cycle(search)]
    #[inline(never)]
    fn turns(
        &self,
        pat: &Pat,
        ts: &[Term],
        place: usize,
        asks: &[Ask],
        room: Room,
    ) -> Result<(Vec<Ask>, Vec<Row>), NoMemory>
        requires places { length asks.now ≡ length ts.now + 1 }
        requires within { place + length ts.now ≤ usize.MAX }
        ensures asked { IfOk result (λ found.
            found.0.items ≡ carried Ask.Nothing asks.now (split_rows_of found.1.items)) }
        ensures cells { IfOk result (λ found. AreCells (language_in self.now.language.now)
            (pattern_of pat.now) place (trees_of ts.now) found.0.items
            (split_rows_of found.1.items)) }
    {
        let mut asked = Vec::with_capacity(self.alloc, asks.len())?;
        let mut cells = Vec::with_capacity(self.alloc, ts.len())?;
        let mut before = Ask::Nothing;
        for i in 0..ts.len() {
            let ask = before.and(asks[i]);
            let cell = self.cell(pat, &ts[i], place + i, ask, room)?;
            before = ask.behind(&cell);
            asked.push(ask)?;
            cells.push(cell)?;
        }
        asked.push(before.and(asks[ts.len()]))?;
        Ok((asked, cells))
    }

    // The column of an item and those behind it.
    #[cycle(search)]
    #[inline(never)]
    fn column_of_one(
        &self,
        pat: &Pat,
        behind: &[Item],
        ts: &[Term],
        place: usize,
        asks: &[Ask],
        room: Room,
    ) -> Result<Vec<Row>, NoMemory>
        requires places { length asks.now ≡ length ts.now + 1 }
        requires within { place + length ts.now ≤ usize.MAX }
        ensures { IfOk result (λ rows. IsColumn (language_in self.now.language.now)
            (one (pattern_of pat.now) (items_of (map slot_of behind.now)))
            place (trees_of ts.now) asks.now (split_rows_of rows.items)) }
    {
        let cells = self.cells(pat, ts, place, asks, room)?;
        let asked = asks_behind(self.alloc, asks, &cells)?;
        let nexts = self.column(behind, ts, place, &asked, room)?;
        one_column(self.alloc, asks, &cells, &nexts)
    }

    // The column of a repetition and the items behind it.
    #[cycle(search)]
    #[inline(never)]
    fn column_of_many(
        &self,
        pat: &Pat,
        length_name: Option<&Name>,
        behind: &[Item],
        ts: &[Term],
        place: usize,
        asks: &[Ask],
        room: Room,
    ) -> Result<Vec<Row>, NoMemory>
        requires places { length asks.now ≡ length ts.now + 1 }
        requires within { place + length ts.now ≤ usize.MAX }
        ensures { IfOk result (λ rows. IsColumn (language_in self.now.language.now)
            (many (pattern_of pat.now) (option_copied length_name.entry)
            (items_of (map slot_of behind.now)))
            place (trees_of ts.now) asks.now (split_rows_of rows.items)) }
    {
        let (asked, cells) = self.turns(pat, ts, place, asks, room)?;
        let nexts = self.column(behind, ts, place, &asked, room)?;
        let names = names_of(self.alloc, pat)?;
        let repetition = Repetition {
            names: &names,
            length: length_name,
        };
        turns_column(self.alloc, repetition, asks, &cells, &nexts)
    }

    // The column of the items at these terms, the first of which is at this place of the list: for
    // each place, and for the one behind the last term, what they bind and where they split the
    // terms from there on, as is asked. Items with repetitions are few, and take a call each.
    #[cycle(search)]
    #[inline(never)]
    fn column(
        &self,
        items: &[Item],
        ts: &[Term],
        place: usize,
        asks: &[Ask],
        room: Room,
    ) -> Result<Vec<Row>, NoMemory>
        requires places { length asks.now ≡ length ts.now + 1 }
        requires within { place + length ts.now ≤ usize.MAX }
        ensures { IfOk result (λ rows. IsColumn (language_in self.now.language.now)
            (items_of (map slot_of items.now)) place (trees_of ts.now) asks.now
            (split_rows_of rows.items)) }
    {
        let inside = room.inside_item()?;
        if nothing_asked(asks) {
            return empty_rows(self.alloc, asks.len());
        }
        let Some((first, behind)) = items.split_first() else {
            return end_column(self.alloc, ts.len(), asks[ts.len()]);
        };
        match first {
            Item::One(pat) => self.column_of_one(pat, behind, ts, place, asks, inside),
            Item::Many(pat, length_name) => {
                self.column_of_many(pat, length_name.as_ref(), behind, ts, place, asks, inside)
            }
        }
    }

    // Items of a list pattern, repetitions among them, from this place of the list on: what they
    // bind where they match the terms, and the spots where they split them, as is asked.
    #[cycle(search)]
    #[inline(never)]
    fn row_of_items(
        &self,
        items: &[Item],
        ts: &[Term],
        place: usize,
        ask: Ask,
        room: Room,
    ) -> Result<Row, NoMemory>
        requires { place + length ts.now ≤ usize.MAX }
        ensures { IfOk result (λ row. HasAsked
            (MatchItems (language_in self.now.language.now)
            (items_of (map slot_of items.now)) (trees_of ts.now))
            (ItemsSplitAt (language_in self.now.language.now) place
            (items_of (map slot_of items.now)) (trees_of ts.now))
            ask (split_row_of row)) }
    {
        let asks = asked_first(self.alloc, ask, ts.len())?;
        let mut rows = self.column(items, ts, place, &asks, room)?;
        Ok(rows.swap_remove(0))
    }

    // The rows of items that are one term's each. The first item without a match has to be the one
    // that is split, unless one before it is, and with a second there is none. None where there is no
    // row of an item.
    #[cycle(search)]
    #[inline(never)]
    fn rows_of(
        &self,
        part: Part,
        all_match: &mut bool,
        room: Room,
    ) -> Result<Option<Vec<Row>>, NoMemory>
        requires place { part.place + length part.terms.now ≤ usize.MAX }
        requires single { AreSingles (part_of part).slots (part_of part).terms }
        ensures searched { IfOk result (λ found. IsSearched (language_in self.now.language.now)
            (part_of part.entry) all_match.old all_match.new (found_split_rows found)) }
        ensures rows { IfOk result (λ found. IfSome found (λ rows. AreRows (language_in self.now.language.now)
            part.entry.place (part_of part.entry).slots (part_of part.entry).terms (split_rows_of rows.items))) }
    {
        let mut rows = Vec::new(self.alloc);
        for i in 0..part.items.len() {
            let pat = pattern_in(&part.items[i]);
            let row = self.row_of(pat, &part.terms[i], part.place + i, *all_match, room)?;
            let Some(row) = row else {
                return Ok(None);
            };
            *all_match &= !row.matches.is_empty();
            rows.push(row)?;
        }
        Ok(Some(rows))
    }

    // The row of the items from the first repetition to the last, in the same way; no row where there
    // are no items.
    #[cycle(search)]
    #[inline(never)]
    fn middle_rows(
        &self,
        part: Part,
        all_match: &mut bool,
        room: Room,
    ) -> Result<Option<Vec<Row>>, NoMemory>
        requires place { part.place + length part.terms.now ≤ usize.MAX }
        requires none { (part_of part).slots ≡ [] → (part_of part).terms ≡ [] }
        ensures searched { IfOk result (λ found. IsSearched (language_in self.now.language.now)
            (part_of part.entry) all_match.old all_match.new (found_split_rows found)) }
        ensures spots { IfOk result (λ found. IfSome found (λ rows. IsTrue all_match.new →
            HaveSpots (language_in self.now.language.now) (part_of part.entry) (split_rows_of rows.items))) }
    {
        let mut rows = Vec::new(self.alloc);
        if part.items.is_empty() {
            return Ok(Some(rows));
        }
        let ask = if *all_match {
            Ask::Splits
        } else {
            Ask::Matches
        };
        let row = self.row_of_items(part.items, part.terms, part.place, ask, room)?;
        if row.matches.is_empty() && row.spots.is_empty() {
            return Ok(None);
        }
        *all_match &= !row.matches.is_empty();
        rows.push(row)?;
        Ok(Some(rows))
    }

    // Puts the spots of items that are one term's each to their rows.
    #[cycle(search)]
    #[inline(never)]
    fn add_spots(&self, part: Part, rows: &mut Vec<Row>, room: Room) -> Result<(), NoMemory>
        requires place { part.place + length part.terms.now ≤ usize.MAX }
        requires single { AreSingles (part_of part).slots (part_of part).terms }
        requires rows { AreRows (language_in self.now.language.now) part.place
            (part_of part).slots (part_of part).terms (split_rows_of rows.now.items) }
        ensures { OnOk result (HaveAll (language_in self.now.language.now)
            (part_of part.entry) (split_rows_of rows.new.items)) }
    {
        for i in 0..part.items.len() {
            let pat = pattern_in(&part.items[i]);
            let spots = self.spots_of(pat, &part.terms[i], part.place + i, room)?;
            rows[i].spots = spots;
        }
        Ok(())
    }

    // A list pattern, of which one part is split and all others match. The first part without a match
    // has to be the one, and with a second there is none. Where all match, each may be the one, so
    // only then the spots of all are searched.
    #[cycle(search)]
    #[inline(never)]
    fn split_list(&self, items: &[Item], t: &Term, room: Room) -> Result<Vec<Spot>, NoMemory>
        ensures { Finds result (SplitsAt (language_in self.now.language.now)
            (seq (items_of (map slot_of items.now))) (tree_of t.now)) }
    {
        let Some(parts) = parts_of(items, t) else {
            return Ok(Vec::new(self.alloc));
        };
        let mut all_match = true;
        let Some(mut before) = self.rows_of(parts.before, &mut all_match, room)? else {
            return Ok(Vec::new(self.alloc));
        };
        let Some(mut behind) = self.rows_of(parts.behind, &mut all_match, room)? else {
            return Ok(Vec::new(self.alloc));
        };
        let Some(middle) = self.middle_rows(parts.middle, &mut all_match, room)? else {
            return Ok(Vec::new(self.alloc));
        };
        if !all_match {
            return spots_of_parts(self.alloc, before, middle, behind);
        }
        self.add_spots(parts.before, &mut before, room)?;
        self.add_spots(parts.behind, &mut behind, room)?;
        spots_of_parts(self.alloc, before, middle, behind)
    }

    /// Exactly the spots at which the pattern splits the term.
    #[cycle(search)]
    #[inline(never)]
    pub(crate) fn splits(&self, pat: &Pat, t: &Term, room: Room) -> Result<Vec<Spot>, NoMemory>
        ensures { Finds result (SplitsAt (language_in self.now.language.now) (pattern_of pat.now) (tree_of t.now)) }
    {
        let inside = room.inside()?;
        match pat {
            Pat::Wild
            | Pat::Kind(_)
            | Pat::Except(_)
            | Pat::Prefix(_)
            | Pat::Lit(_)
            | Pat::HideHole(_) => Ok(Vec::new(self.alloc)),
            Pat::Hole => whole(self.alloc),
            Pat::Nt(name) => self.any_splits(self.alternatives(name), t, inside),
            Pat::Named(name, part) => self.split_named(Naming::Binds(name), part, t, inside),
            Pat::Differ(name, part) => self.split_named(Naming::Differs(name), part, t, inside),
            Pat::InHole(left, right) => self.split_in_hole(left, right, t, inside),
            Pat::Closed(part) => self.any_splits(from_ref::<Pat>(part), t, inside),
            Pat::Seq(items) => self.split_list(items, t, inside),
        }
    }
}
