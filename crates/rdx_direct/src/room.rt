// How deep a walk may go, and how many steps it may take.
ghost use Rattle.std.specs.Prelude.{◌+◌, ◌≡◌, IfOk};

use crate::halt::Halt;
use rdx_term::Term;

/// How many calls deep a walk may go. Measured in the program as `./redex build` makes it, a walk 900 calls
/// deep takes 1.0 to 1.3 MB of the machine's stack, so one this deep 3.5 MB at most; the levels of calls round
/// it take less than 1.5 MB of 8 MiB. A term takes two such calls at each of its lists, where each list is an
/// alternative of a nonterminal, so a term 500 lists deep is walked over even where it takes four.
const DEEPEST: usize = 2_400;

// How many steps a walk may be given besides in all.
const MOST: usize = 4_000_000;

// How many steps more a walk has that lists splits, at most.
const MOST_FOR_SPLITS: usize = 500_000;

/// How many calls deeper a walk may still go.
#[derive(Clone, Copy)]
pub(crate) struct Room {
    left: usize,
}

impl Room {
    /// The room of a walk that begins.
    pub(crate) fn whole() -> Room {
        Room { left: DEEPEST }
    }

    /// The room inside the next call.
    pub(crate) fn inside(self) -> Result<Room, Halt>
        ensures { IfOk result (λ room. room.left + 1 ≡ self.left) }
    {
        if self.left == 0 {
            return Err(Halt::Spent);
        }
        Ok(Room {
            left: self.left - 1,
        })
    }
}

/// How many steps a walk may still take.
#[derive(Drop)]
pub(crate) struct Fuel {
    left: usize,
    // How many it may be given besides.
    more: usize,
}

impl Fuel {
    /// The steps for a walk over a term of so many nodes, so deep.
    pub(crate) fn new(nodes: u32, depth: u32) -> Fuel {
        let nodes = nodes as usize;
        let levels = depth as usize;
        Fuel {
            left: nodes.saturating_mul(16).saturating_add(1_000),
            more: nodes.saturating_mul(levels).saturating_mul(20).min(MOST),
        }
    }

    /// The same where the splits are listed, whose contexts have as many nodes as the term each.
    pub(crate) fn for_splits(nodes: u32, depth: u32) -> Fuel {
        let Fuel { left, more } = Fuel::new(nodes, depth);
        let levels = (nodes as usize).saturating_mul(depth as usize);
        Fuel {
            left: left.saturating_add(levels.min(MOST_FOR_SPLITS)),
            more,
        }
    }
}

/// Takes so many of the steps that are left.
pub(crate) fn spend(fuel: &mut Fuel, steps: usize) -> Result<(), Halt> {
    if fuel.left < steps {
        return Err(Halt::Spent);
    }
    fuel.left -= steps;
    Ok(())
}

/// Gives the steps for a walk over a part, as long as there are some to be given.
pub(crate) fn grant(fuel: &mut Fuel, part: &Term) {
    let steps = (part.nodes() as usize).saturating_mul(20).min(fuel.more);
    fuel.more -= steps;
    fuel.left = fuel.left.saturating_add(steps);
}

/// The place so many places on.
pub(crate) fn further(place: usize, count: usize) -> Result<usize, Halt>
    ensures { IfOk result (λ there. there ≡ place + count) }
{
    match place.checked_add(count) {
        Some(there) => Ok(there),
        None => Err(Halt::Spent),
    }
}
