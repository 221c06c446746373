// Why a walk has no answer.
use rdx_term::NoMemory;
use std::alloc::{AllocError, AllocFailed};

/// Why a walk has no answer.
#[derive(Drop)]
pub(crate) enum Halt {
    /// It would go too deep, or take too many steps, or it leaves out what it met.
    Spent,
    /// Want of memory.
    NoMemory,
}

impl From<NoMemory> for Halt {
    fn from(_error: NoMemory) -> Halt {
        Halt::NoMemory
    }
}

impl From<AllocError> for Halt {
    fn from(_error: AllocError) -> Halt {
        Halt::NoMemory
    }
}

impl<T: Drop> From<AllocFailed<T>> for Halt {
    fn from(_error: AllocFailed<T>) -> Halt {
        Halt::NoMemory
    }
}
