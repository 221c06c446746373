// Why a form is refused.
ghost use Rattle.std.specs.Prelude.{◌≡◌};
ghost use Rattle.rdx_patterns.specs.declared.shape.fault.DefFault.TheVariants as fault;

use rdx_base::Place;
use rdx_term::NoMemory;
use std::alloc::{AllocError, AllocFailed};
use std::rc::RcStr;

/// The checks of a form. The one with the least number that refuses it is reported.
#[derive(Clone, Copy, Debug, PartialEq, Eq)]
pub enum DefKind {
    /// A form or a definition has not its shape, or a keyword stands in a pattern or a template. The place is the innermost such datum's.
    Shape,
    /// No earlier form defines the language. The place and the name are those of the name.
    UnknownLanguage,
    /// A form defines a name that an earlier one has, or a nonterminal, a case or a rule has that of an earlier one in its form. The place and the
    /// name are the second's.
    Duplicate,
    /// A name may not be that of a nonterminal, or of what else it is to name. The place and the name are its own.
    BadName,
    /// What stands as a pattern or a template means nothing as one. The place is its own.
    BadPattern,
    /// A name is bound at two depths of ellipses, or stands in a template under fewer ellipses than where it is bound. The place and the
    /// name are those of the symbol that comes later.
    EllipsisDepth,
    /// The language is left-recursive. The place is the form's, and the name that of the first nonterminal that reaches itself.
    LeftRecursive,
    /// No earlier form defines the relation, no form of the file defines the judgement, or the arrow is none. The place and the name are those
    /// of the name.
    UnknownName,
    /// An ellipsis of a template repeats what no name stands in that is bound under one. The place is that of what it repeats.
    EllipsisVariable,
    /// A form, or what stands in it, is Racket that means nothing here. The place is its own.
    RacketEscape,
    /// A judgement has no mode, or one with an item that is neither `I` nor `O`, or a conclusion, a contract or a premise has another number of
    /// arguments than its judgement's mode. The place is that of the form, the item, or what has that number, and the name the judgement's,
    /// where there is a mode.
    Mode,
}

/// A form that is refused: why, where, and the name at which it is, where there is one.
#[derive(Debug, Drop)]
pub struct DefRefusal {
    pub kind: DefKind,
    pub place: Place,
    pub name: Option<RcStr>,
}

/// Why a form is not read.
#[derive(Debug, Drop)]
pub enum DefFault {
    /// It is refused.
    Refused(DefRefusal),
    /// Memory ran out.
    NoMemory,
}

impl From<NoMemory> for DefFault {
    ghost from_gives = { λ _ given. given ≡ fault.NoMemory };

    fn from(_: NoMemory) -> DefFault {
        DefFault::NoMemory
    }
}

impl From<AllocError> for DefFault {
    ghost from_gives = { λ _ given. given ≡ fault.NoMemory };

    fn from(_: AllocError) -> DefFault {
        DefFault::NoMemory
    }
}

impl<T: Drop> From<AllocFailed<T>> for DefFault {
    ghost from_gives = { λ _ given. given ≡ fault.NoMemory };

    fn from(_: AllocFailed<T>) -> DefFault {
        DefFault::NoMemory
    }
}
