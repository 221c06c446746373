// The errors: want of memory, and a list that is over a limit.
use std::alloc::{AllocError, AllocFailed};
use thiserror::Error;

/// Memory is wanting.
#[derive(Debug, Drop, Error)]
#[error("out of memory")]
pub struct NoMemory;

/// Why a list is not built.
#[derive(Debug, Drop, Error)]
pub enum Build {
    /// The list would be deeper than 500.
    #[error("the depth would be over 500")]
    TooDeep,
    /// The list would have more than 4,000,000 nodes, and would not be too deep.
    #[error("the nodes would be over 4,000,000")]
    TooLarge,
    /// Memory is wanting.
    #[error("out of memory")]
    NoMemory,
}

impl From<AllocError> for NoMemory {
    fn from(_error: AllocError) -> NoMemory {
        NoMemory
    }
}

impl<T: Drop> From<AllocFailed<T>> for NoMemory {
    fn from(_error: AllocFailed<T>) -> NoMemory {
        NoMemory
    }
}

impl From<NoMemory> for Build {
    ghost use Rattle.std.specs.Prelude.{◌≡◌};
    ghost use Rattle.rdx_term.specs.declared.error.Build.TheVariants.{NoMemory};

    ghost from_gives = { λ _ error. error ≡ NoMemory };

    fn from(_error: NoMemory) -> Build {
        Build::NoMemory
    }
}

impl From<AllocError> for Build {
    ghost use Rattle.std.specs.Prelude.{◌≡◌};
    ghost use Rattle.rdx_term.specs.declared.error.Build.TheVariants.{NoMemory};

    ghost from_gives = { λ _ error. error ≡ NoMemory };

    fn from(_error: AllocError) -> Build {
        Build::NoMemory
    }
}

impl<T: Drop> From<AllocFailed<T>> for Build {
    ghost use Rattle.std.specs.Prelude.{◌≡◌};
    ghost use Rattle.rdx_term.specs.declared.error.Build.TheVariants.{NoMemory};

    ghost from_gives = { λ _ error. error ≡ NoMemory };

    fn from(_error: AllocFailed<T>) -> Build {
        Build::NoMemory
    }
}
