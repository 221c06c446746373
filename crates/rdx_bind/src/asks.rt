//! What is asked of a place of a list.
ghost use Rattle.std.specs.Prelude.{◌≡◌};
ghost use Rattle.rdx_bind.specs.Columns as model;
ghost use Rattle.rdx_bind.specs.Ones as ones;
ghost use Rattle.rdx_bind.specs.Rows.{split_row_of};

use crate::rows::Row;

/// What is asked of some items from a place of the list on.
#[derive(Clone, Copy, PartialEq, Eq)]
pub enum Ask {
    /// Nothing: no way leads there.
    Nothing,
    /// What they bind where they match.
    Matches,
    /// This, and the spots where they split.
    Splits,
}

impl Ask {
    /// Whether nothing is asked.
    pub fn is_nothing(self) -> bool
        ensures { result ≡ ones.is_nothing self }
    {
        matches!(self, Ask::Nothing)
    }

    /// What is asked behind a term of which this was asked.
    pub fn behind(self, cell: &Row) -> Ask
        ensures { result ≡ model.ask_behind self (split_row_of cell.now) }
    {
        match self {
            Ask::Nothing => Ask::Nothing,
            Ask::Matches => {
                if cell.matches.is_empty() {
                    Ask::Nothing
                } else {
                    Ask::Matches
                }
            }
            Ask::Splits => {
                if !cell.matches.is_empty() {
                    Ask::Splits
                } else if !cell.spots.is_empty() {
                    Ask::Matches
                } else {
                    Ask::Nothing
                }
            }
        }
    }

    /// What is asked where both are.
    pub fn and(self, other: Ask) -> Ask
        ensures { result ≡ model.both_asked self other }
    {
        match (self, other) {
            (Ask::Splits, _) | (_, Ask::Splits) => Ask::Splits,
            (Ask::Matches, _) | (_, Ask::Matches) => Ask::Matches,
            (Ask::Nothing, Ask::Nothing) => Ask::Nothing,
        }
    }
}
