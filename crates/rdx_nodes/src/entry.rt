// An entry of the memo.
ghost use Rattle.std.specs.Prelude.{◌≡◌, ◌||◌, [], not, IfOk, if◌then◌else◌};
ghost use Rattle.rdx_lang.specs.Shown.{bindings_of};
ghost use Rattle.rdx_bind.specs.Spots.{spots_of};

use rdx_bind::rows::{Row, shared_bindings, shared_spots};
use rdx_term::NoMemory;
use std::alloc::Global;

/// What was found for a goal.
#[derive(Drop)]
pub struct Entry {
    /// Whether it asked for splits too.
    pub splits: bool,
    /// The row that was found.
    pub row: Row,
}

impl Entry {
    /// The entry of this row.
    pub fn new(alloc: Global, splits: bool, row: &Row) -> Result<Entry, NoMemory>
        ensures splits { IfOk result (λ e. e.splits ≡ splits) }
        ensures matches { IfOk result (λ e.
            bindings_of e.row.matches.items ≡ bindings_of row.now.matches.items) }
        ensures spots { IfOk result (λ e.
            spots_of e.row.spots.items ≡ spots_of row.now.spots.items) }
    {
        let matches = shared_bindings(alloc, &row.matches)?;
        let spots = shared_spots(alloc, &row.spots)?;
        let row = Row { matches, spots };
        Ok(Entry { splits, row })
    }

    /// Whether it has what is asked for.
    pub fn serves(&self, splits: bool) -> bool
        ensures { result ≡ (self.now.splits || not splits) }
    {
        self.splits || !splits
    }

    /// Its row, with no spots where splits aren't asked for.
    pub fn row(&self, alloc: Global, splits: bool) -> Result<Row, NoMemory>
        ensures matches { IfOk result (λ row.
            bindings_of row.matches.items ≡ bindings_of self.now.row.matches.items) }
        ensures spots { IfOk result (λ row. spots_of row.spots.items
            ≡ (if splits then spots_of self.now.row.spots.items else [])) }
    {
        let matches = shared_bindings(alloc, &self.row.matches)?;
        let spots = if splits {
            shared_spots(alloc, &self.row.spots)?
        } else {
            Vec::new(alloc)
        };
        Ok(Row { matches, spots })
    }
}
