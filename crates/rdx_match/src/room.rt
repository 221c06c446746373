// How deep a search may go.
ghost use Rattle.std.specs.Prelude.{◌+◌, ◌≡◌, IfOk};

use rdx_term::NoMemory;

/// How many calls deep a search may go. Measured in the program of the tests, such a call takes 96
/// bytes of the stack at `hide-hole`, 224 at a nonterminal that is to match and 272 at one that is to
/// split, 256 at most at a name, and 480 or 496 at `in-hole`. At a list it takes 784, 1,250 where it
/// is to split, and 2,450 at most with repetitions; and a term has at most 500 lists inside one
/// another. A context that is made takes 480 for each list around its hole. So a search this deep
/// fills 4 MiB of a stack of 8 along a chain of nonterminals, and at most 7.5 where `in-hole`s stand
/// in one another between lists with repetitions. An item from the first repetition of a list pattern
/// to its last counts for two calls, so that 7,900 repetitions in one list pattern are answered.
const DEEPEST: usize = 16_000;

/// How many calls deeper a search may still go.
#[derive(Clone, Copy)]
pub(crate) struct Room {
    left: usize,
}

impl Room {
    /// The room of a search that begins.
    pub(crate) fn whole() -> Room {
        Room { left: DEEPEST }
    }

    /// The room inside the next call; want of memory where none is left.
    pub(crate) fn inside(self) -> Result<Room, NoMemory>
        ensures { IfOk result (λ room. room.left + 1 ≡ self.left) }
    {
        if self.left == 0 {
            return Err(NoMemory);
        }
        Ok(Room {
            left: self.left - 1,
        })
    }

    /// The room inside the next item that is worked out in a column; such an item takes as much of the
    /// stack as two calls.
    pub(crate) fn inside_item(self) -> Result<Room, NoMemory>
        ensures { IfOk result (λ room. room.left + 2 ≡ self.left) }
    {
        let half = self.inside()?;
        half.inside()
    }
}
