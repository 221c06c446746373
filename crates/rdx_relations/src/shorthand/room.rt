// How much an expansion may copy.
ghost use Rattle.std.specs.Prelude.{◌+◌, ◌≡◌, IfOk};
ghost use Rattle.rdx_relations.specs.Inside.Filling.{deepest};

use rdx_term::NoMemory;

/// How deep lists may nest in what is made. Data of a file nest at most 500 deep, but what is put
/// in may stand in what is put in itself, once for each shortcut of a chain. What reads such data,
/// and what matches and evaluates what is read, recurs along them, so a stack of 8 MiB has 3,300
/// bytes for each list.
const DEEPEST: usize = 2_500;

/// How many data may be made for a form, and shortcuts followed.
const MOST: usize = 4_000_000;

/// How many lists deeper a copy may still go.
#[derive(Clone, Copy)]
pub(crate) struct Room {
    left: usize,
}

impl Room {
    /// The room of a copy that begins.
    pub(crate) fn whole() -> Room
        ensures { result.left ≡ deepest }
    {
        Room { left: DEEPEST }
    }

    /// The room inside a list; want of memory where none is left.
    pub(crate) fn inside(self) -> Result<Room, NoMemory>
        ensures { IfOk result (λ room. room.left + 1 ≡ self.left) }
    {
        if self.left == 0 {
            return Err(NoMemory);
        }
        Ok(Room {
            left: self.left - 1,
        })
    }
}

/// How much more may be made for a form.
#[derive(Drop)]
pub(crate) struct Stock {
    left: usize,
}

impl Stock {
    /// The stock of a form.
    pub(crate) fn whole() -> Stock {
        Stock { left: MOST }
    }

    /// Takes one away; want of memory where none is left.
    pub(crate) fn take(&mut self) -> Result<(), NoMemory> {
        if self.left == 0 {
            return Err(NoMemory);
        }
        self.left -= 1;
        Ok(())
    }
}
