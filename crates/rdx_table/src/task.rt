// What is to be found for a node and a term, and what is found.
use rdx_bind::asks::Ask;
use rdx_bind::rows::Row;
use rdx_store::TermId;
use rdx_term::NoMemory;

/// What the pattern of a node binds where it matches a term, and, where splits are asked for, the
/// spots at which it splits it.
#[derive(Clone, Copy, PartialEq, Eq)]
pub(crate) struct Goal {
    /// The number of the node.
    pub(crate) number: usize,
    /// The term.
    pub(crate) id: TermId,
    /// Whether splits are asked for too.
    pub(crate) splits: bool,
}

/// What some items of a list pattern bind, and where they split, from each place of a list on, as is
/// asked of each place.
#[derive(Drop)]
pub(crate) struct Column {
    /// The number of the list pattern's node.
    pub(crate) number: usize,
    /// The list.
    pub(crate) id: TermId,
    /// The place of the first of the items in the list pattern.
    pub(crate) first: usize,
    /// The place behind the last of them.
    pub(crate) last: usize,
    /// The place of the first of their terms in the list.
    pub(crate) place: usize,
    /// What is asked of this place, of each further one, and of the one behind their last term.
    pub(crate) asks: Vec<Ask>,
}

/// What is to be found.
#[derive(Drop)]
pub(crate) enum Task {
    Goal(Goal),
    Column(Column),
}

/// What was found: one row for a goal, and a row for each place of a column.
#[derive(Drop)]
pub(crate) struct Answer {
    pub(crate) task: Task,
    pub(crate) rows: Vec<Row>,
}

/// Why a look has no answer yet.
#[derive(Drop)]
pub(crate) enum Stop {
    /// These are to be found first, the last of them first.
    Asks(Vec<Task>),
    /// The alternatives of the nonterminal with this node are to be made first.
    Opens(usize),
    /// Want of memory.
    NoMemory,
}

impl From<NoMemory> for Stop {
    ghost use Rattle.std.specs.Prelude.{◌≡◌};
    ghost use Rattle.rdx_table.specs.declared.task.Stop.TheVariants.{NoMemory};

    ghost from_gives = { λ _ stop. stop ≡ NoMemory };

    fn from(_error: NoMemory) -> Stop {
        Stop::NoMemory
    }
}
