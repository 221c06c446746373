// Why there is no answer.
use rdx_term::{Name, NoMemory, Term};

/// Why there is no answer to whether terms are alpha equivalent, or what substitution gives.
#[derive(Drop)]
pub enum AlphaFault {
    /// This list is headed by the head of a form and is no instance of it.
    NotBinding(Term),
    /// This head would be put for a symbol.
    HeadName(Name),
    /// The result would be deeper than 500.
    TooDeep,
    /// The result would have more than 4,000,000 nodes, and would not be too deep.
    TooLarge,
    /// Memory is wanting.
    NoMemory,
}

impl From<NoMemory> for AlphaFault {
    ghost use Rattle.std.specs.Prelude.{◌≡◌};
    ghost use Rattle.rdx_alpha.specs.declared.fault.AlphaFault.TheVariants.{NoMemory};

    ghost from_gives = { λ _ error. error ≡ NoMemory };

    fn from(_error: NoMemory) -> AlphaFault {
        AlphaFault::NoMemory
    }
}
