// Why bytes were not read.
ghost use Rattle.std.specs.Prelude.{◌≡◌};
ghost use Rattle.rdx_sexp.specs.Refusal.{refusal};

use rdx_base::Place;
use std::alloc::{AllocError, AllocFailed};

/// Why a text is refused.
#[derive(Clone, Copy, Debug, PartialEq, Eq)]
pub enum ReadKind {
    /// F1: the bytes aren't UTF-8. The place is behind the longest front that is.
    NotUtf8,
    /// F2: the text ends inside a list or a block comment, or before the datum of a quote mark or of `#;`. The place is that of the innermost
    /// of these.
    Unclosed,
    /// F3: a closing bracket closes nothing, or a list of another kind, or stands where a datum is wanted.
    WrongClose,
    /// F4: a token has `|` or `\` in it, is a single point, or begins with `#` and is neither a truth value nor a keyword.
    BadToken,
    /// F5: a token begins like a number and is no integer.
    NumberForm,
    /// F6: an integer is below -2^127 or above 2^127 - 1.
    NumberRange,
    /// F7: a string has an escape that isn't known, at its backslash, or no end, at its opening quotation mark.
    BadString,
    /// F8: a bracket, quote mark or `#;` would be the 501st that is open.
    TooDeep,
}

/// Why a text is refused, and where: at the first character of what is refused, if the kind doesn't say otherwise.
#[derive(Clone, Copy, Debug, PartialEq, Eq)]
pub struct ReadRefusal {
    pub kind: ReadKind,
    pub place: Place,
}

/// Why there are no data.
#[derive(Debug, Drop)]
pub enum ReadFault {
    /// The text is refused.
    Refused(ReadRefusal),
    /// Memory ran out.
    NoMemory,
}

// The text is refused for this, at this place.
pub(crate) fn refused(kind: ReadKind, place: Place) -> ReadFault
    ensures { result ≡ ReadFault.Refused (refusal kind place) }
{
    ReadFault::Refused(ReadRefusal { kind, place })
}

impl<T: Drop> From<AllocFailed<T>> for ReadFault {
    ghost use Rattle.std.specs.Prelude.{◌≡◌};
    ghost use Rattle.rdx_sexp.specs.declared.fault.ReadFault.TheVariants.{NoMemory};

    ghost from_gives = { λ _ e. e ≡ NoMemory };

    fn from(_e: AllocFailed<T>) -> ReadFault {
        ReadFault::NoMemory
    }
}

impl From<AllocError> for ReadFault {
    ghost use Rattle.std.specs.Prelude.{◌≡◌};
    ghost use Rattle.rdx_sexp.specs.declared.fault.ReadFault.TheVariants.{NoMemory};

    ghost from_gives = { λ _ e. e ≡ NoMemory };

    fn from(_e: AllocError) -> ReadFault {
        ReadFault::NoMemory
    }
}
