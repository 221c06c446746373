// Which of two refusals is reported: the one by the check with the lesser number.
ghost use Rattle.std.specs.Prelude.{◌≡◌, Ok, Option, IfOk};
ghost use Rattle.rdx_patterns.specs.Refusal.{Refusal, refusal_of};
ghost use Rattle.rdx_forms.specs.Reported as model;
ghost use Rattle.rdx_forms.specs.Inside.Earlier.{IsFirstFault, IsUnless};
ghost use Rattle.rdx_forms.specs.Faults.{IsRefusedBy};

use rdx_patterns::{DefFault, DefKind, DefRefusal};

// The number of a check.
fn number(kind: DefKind) -> u32
    ensures { result ≡ model.number kind }
{
    match kind {
        DefKind::Shape => 1,
        DefKind::UnknownLanguage => 2,
        DefKind::Duplicate => 3,
        DefKind::BadName => 4,
        DefKind::BadPattern => 5,
        DefKind::EllipsisDepth => 6,
        DefKind::LeftRecursive => 7,
        DefKind::UnknownName => 8,
        DefKind::EllipsisVariable => 9,
        DefKind::RacketEscape => 10,
        DefKind::Mode => 11,
    }
}

/// Of two refusals the one by the check with the lesser number; the first, where both are by one.
pub(crate) fn earlier(one: DefRefusal, other: DefRefusal) -> DefRefusal
    ensures { refusal_of result ≡ model.earlier_of (refusal_of one) (refusal_of other) }
{
    if number(other.kind) < number(one.kind) {
        other
    } else {
        one
    }
}

/// The fault of two, the first of which is a refusal.
pub(crate) fn first_fault<T: Drop>(one: DefRefusal, other: Result<T, DefFault>) -> DefFault
    ensures { IsFirstFault one other result }
{
    match other {
        Ok(_) => DefFault::Refused(one),
        Err(DefFault::Refused(refusal)) => DefFault::Refused(earlier(one, refusal)),
        Err(DefFault::NoMemory) => DefFault::NoMemory,
    }
}

/// What was read, where there is no refusal before; else the fault that is reported.
pub(crate) fn unless<T: Drop>(
    own: Option<DefRefusal>,
    read: Result<T, DefFault>,
) -> Result<T, DefFault>
    ensures { IsUnless own read result }
{
    match own {
        Some(refusal) => Err(first_fault(refusal, read)),
        None => read,
    }
}

/// Both of what was read, or the refusal of the two that is reported.
pub(crate) fn both<T: Drop, U: Drop>(
    one: Result<T, DefFault>,
    other: Result<U, DefFault>,
) -> Result<(T, U), DefFault>
    ensures refused { (o p : Option Refusal) → IsRefusedBy o one → IsRefusedBy p other
        → IsRefusedBy (model.earlier o p) result }
    ensures read { IfOk result (λ r. (one ≡ Ok r.0) × (other ≡ Ok r.1)) }
{
    match one {
        Ok(one) => Ok((one, other?)),
        Err(DefFault::Refused(refusal)) => Err(first_fault(refusal, other)),
        Err(DefFault::NoMemory) => Err(DefFault::NoMemory),
    }
}
