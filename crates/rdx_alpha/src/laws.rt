//! What holds of substitution. The function does nothing, and its contract is the laws.
ghost use Rattle.rdx_alpha.specs.Examples.{SameWithoutNames, RenamedBinder, BoundStays};
ghost use Rattle.rdx_alpha.specs.Laws.{MeetsTheRule, CapturesNothing};

/// Substitution meets its rule with itself in smaller trees, and it captures nothing: without the
/// names that are bound, what it gives is the tree with the value put for each free symbol of the
/// name.
pub fn substitution()
    ensures rule { MeetsTheRule }
    ensures nothing_captured { CapturesNothing }
{}

/// Worked examples: two terms that are the same without names, a binder that is renamed, and a
/// bound symbol that stays.
pub fn worked_examples()
    ensures same_without_names { SameWithoutNames }
    ensures renamed_binder { RenamedBinder }
    ensures bound_stays { BoundStays }
{}
