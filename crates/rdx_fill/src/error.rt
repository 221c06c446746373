// Why a context is not filled.
use rdx_term::NoMemory;
use thiserror::Error;

/// Why a context is not filled.
#[derive(Debug, Drop, Error)]
pub enum FillFault {
    /// What was to be filled is no context, and has so many holes.
    #[error("no context")]
    NotContext(u32),
    /// The filled context would be deeper than 500.
    #[error("the depth would be over 500")]
    TooDeep,
    /// The filled context would have more than 4,000,000 nodes, and would not be too deep.
    #[error("the nodes would be over 4,000,000")]
    TooLarge,
    /// Memory is wanting.
    #[error("out of memory")]
    NoMemory,
}

impl From<NoMemory> for FillFault {
    ghost use Rattle.std.specs.Prelude.{◌≡◌};
    ghost use Rattle.rdx_fill.specs.declared.error.FillFault.TheVariants.{NoMemory};

    ghost from_gives = { λ _ error. error ≡ NoMemory };

    fn from(_error: NoMemory) -> FillFault {
        FillFault::NoMemory
    }
}
