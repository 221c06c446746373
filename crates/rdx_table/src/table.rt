// The matcher with a memo.
ghost use Rattle.std.specs.Prelude.{IfOk};
ghost use Rattle.rdx_term.specs.View.{tree_of};
ghost use Rattle.rdx_lang.specs.Checked.{language_in, pattern_in};
ghost use Rattle.rdx_lang.specs.Rules.{Match};
ghost use Rattle.rdx_bind.specs.Columns.{HasAsked};
ghost use Rattle.rdx_bind.specs.Rows.{split_row_of};
ghost use Rattle.rdx_bind.specs.Spots.{SplitsAt};
ghost use Rattle.rdx_nodes.specs.Asked.{asked_where};
ghost use Rattle.rdx_nodes.specs.Interned.{tree_in};

use crate::solve::solve;
use crate::task::Goal;
use rdx_bind::listing;
use rdx_bind::rows::Row;
use rdx_bind::seen::{all_visible, visible_spots};
use rdx_direct::{try_matches, try_splits};
use rdx_lang::{Binding, CheckedLang, CheckedPat, Matcher, Split};
use rdx_nodes::interned::Interned;
use rdx_nodes::places::Places;
use rdx_nodes::setting::Setting;
use rdx_nodes::splitting::sorted_splits;
use rdx_term::{NoMemory, Term};
use std::alloc::Global;

/// A matcher that walks over pattern and term where that answers, and else works out each pattern at
/// each term once, and keeps what is pending on a stack in memory. It holds the ids of the parts of
/// the last term that was worked out so, for a call with the same term, and where the nonterminals of
/// the languages stand that it was called with.
#[derive(Drop)]
pub struct Table {
    alloc: Global,
    // The last term that was worked out, if memory sufficed for its row.
    last: Option<Interned>,
    // Where the nonterminals of the languages stand that were seen so far.
    places: Places,
}

impl Table {
    /// A matcher that takes its memory from here.
    pub fn new(alloc: Global) -> Result<Table, NoMemory> {
        Ok(Table {
            alloc,
            last: None,
            places: Places::new(alloc),
        })
    }

    // What the pattern binds where it matches the term, and where it splits it if this is asked for
    // too. The term stays interned for the next call.
    fn row(
        &mut self,
        language: &CheckedLang,
        pat: &CheckedPat,
        t: &Term,
        splits: bool,
    ) -> Result<Row, NoMemory>
        ensures { IfOk result (λ row. HasAsked
            (Match (language_in language.now) (pattern_in pat.now) (tree_of t.now))
            (SplitsAt (language_in language.now) (pattern_in pat.now) (tree_of t.now))
            (asked_where splits) (split_row_of row)) }
    {
        let whole = Interned::of(self.alloc, self.last.take(), t)?;
        self.places.see(self.alloc, language.language())?;
        let places = self.places.of(language.language());
        let row = row_of(self.alloc, language, places, pat, &whole, splits)?;
        self.last = Some(whole);
        Ok(row)
    }
}

// What the pattern binds where it matches the term, and where it splits it if this is asked for
// too.
fn row_of(
    alloc: Global,
    language: &CheckedLang,
    places: &[usize],
    pat: &CheckedPat,
    whole: &Interned,
    splits: bool,
) -> Result<Row, NoMemory>
    ensures { IfOk result (λ row. HasAsked
        (Match (language_in language.now) (pattern_in pat.now) (tree_in whole.now))
        (SplitsAt (language_in language.now) (pattern_in pat.now) (tree_in whole.now))
        (asked_where splits) (split_row_of row)) }
{
    let mut setting = Setting::new(alloc, language, places, &whole.store);
    let number = setting.add(pat.pat())?;
    let id = whole.id;
    solve(setting, Goal { number, id, splits })
}

impl Matcher for Table {
    fn matches(
        &mut self,
        language: &CheckedLang,
        pat: &CheckedPat,
        t: &Term,
    ) -> Result<Vec<Binding>, NoMemory> {
        self.places.see(self.alloc, language.language())?;
        let places = self.places.of(language.language());
        if let Some(found) = try_matches(self.alloc, language, places, pat, t)? {
            return Ok(found);
        }
        let row = self.row(language, pat, t, false)?;
        listing(self.alloc, all_visible(self.alloc, row.matches)?)
    }

    fn splits(
        &mut self,
        language: &CheckedLang,
        pat: &CheckedPat,
        t: &Term,
    ) -> Result<Vec<Split>, NoMemory> {
        self.places.see(self.alloc, language.language())?;
        let places = self.places.of(language.language());
        if let Some(found) = try_splits(self.alloc, language, places, pat, t)? {
            return Ok(found);
        }
        let row = self.row(language, pat, t, true)?;
        sorted_splits(self.alloc, t, visible_spots(self.alloc, row.spots)?)
    }
}
