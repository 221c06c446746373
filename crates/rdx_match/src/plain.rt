// The matcher by plain recursion on the term and the pattern.
use crate::room::Room;
use crate::search::Search;
use crate::sorting::sorted_splits;
use rdx_bind::listing;
use rdx_bind::seen::{all_visible, visible_spots};
use rdx_lang::{Binding, CheckedLang, CheckedPat, Matcher, Split};
use rdx_term::{NoMemory, Term};
use std::alloc::Global;

/// A matcher that recurses and remembers nothing.
#[derive(Drop)]
pub struct Plain {
    alloc: Global,
}

impl Plain {
    /// A matcher that takes its memory from here.
    pub fn new(alloc: Global) -> Plain {
        Plain { alloc }
    }
}

impl Matcher for Plain {
    fn matches(
        &mut self,
        language: &CheckedLang,
        pat: &CheckedPat,
        t: &Term,
    ) -> Result<Vec<Binding>, NoMemory> {
        let found = Search::new(self.alloc, language).matches(pat.pat(), t, Room::whole())?;
        listing(self.alloc, all_visible(self.alloc, found)?)
    }

    fn splits(
        &mut self,
        language: &CheckedLang,
        pat: &CheckedPat,
        t: &Term,
    ) -> Result<Vec<Split>, NoMemory> {
        let spots = Search::new(self.alloc, language).splits(pat.pat(), t, Room::whole())?;
        sorted_splits(self.alloc, t, visible_spots(self.alloc, spots)?)
    }
}
