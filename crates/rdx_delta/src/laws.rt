//! Laws and worked examples of the host operations: they are the contracts of functions that do
//! nothing.
ghost use Rattle.rdx_delta.specs.Examples.{LeastQuotient, LeastRemainder, LeastNegated, PartOverflows, OtherOrder, KindBeforeZero, KindBeforeOverflow, KindBehindFalse, NumberBeforeZero, ZeroDivides, NoSummand, NoFactor, NothingToSubtract, NothingToCompare, MarksForgotten, OtherWayRound, LacksOne, RepeatsOne, FirstIsTold};
ghost use Rattle.rdx_delta.specs.Laws.{WrongNumberIsDomain, TakenNumberHasValue, EachHasOneWord};

/// A list of another length than an operation takes is outside of its domain, whatever stands in it;
/// and for each number of arguments that it takes, some list has a value.
pub fn numbers_of_arguments()
    ensures wrong { WrongNumberIsDomain }
    ensures taken { TakenNumberHasValue }
{}

/// Each operation is found by the word that it is written as, and by no other.
pub fn words()
    ensures { EachHasOneWord }
{}

/// Worked examples: what operations reply at the borders of 128 bits, what is told first, what they
/// reply to no argument, that `equal?` forgets marks, and which entries make no table.
pub fn worked_examples()
    ensures least_quotient { LeastQuotient }
    ensures least_remainder { LeastRemainder }
    ensures least_negated { LeastNegated }
    ensures part_overflows { PartOverflows }
    ensures other_order { OtherOrder }
    ensures kind_before_zero { KindBeforeZero }
    ensures kind_before_overflow { KindBeforeOverflow }
    ensures kind_behind_false { KindBehindFalse }
    ensures number_before_zero { NumberBeforeZero }
    ensures zero_divides { ZeroDivides }
    ensures no_summand { NoSummand }
    ensures no_factor { NoFactor }
    ensures nothing_to_subtract { NothingToSubtract }
    ensures nothing_to_compare { NothingToCompare }
    ensures marks_forgotten { MarksForgotten }
    ensures other_way_round { OtherWayRound }
    ensures lacks_one { LacksOne }
    ensures repeats_one { RepeatsOne }
    ensures first_is_told { FirstIsTold }
{}
