//! Laws of the definitions: functions that do nothing, whose contracts are the laws.
ghost use Rattle.rdx_patterns.specs.Examples.{AsksInside, ReadsAcross, NoSuchEnd};
ghost use Rattle.rdx_patterns.specs.Examples.{ReadsMismatch, ReadsOtherMismatch, ReadsLaterMark, NoSuchMismatch, NoMismatchEllipsis, NoMismatchBound};
ghost use Rattle.rdx_patterns.specs.Laws.{OnePattern, OnePatternRefusal, NeverBothPattern, NeverNeitherPattern, InOrder, WildsAreWritten};

/// A datum is one pattern over given nonterminals at most, or has one refusal at most, and always one of both.
pub fn one_pattern()
    ensures pattern { OnePattern }
    ensures refusal { OnePatternRefusal }
    ensures never_both { NeverBothPattern }
    ensures never_neither { NeverNeitherPattern }
{}

/// What stands in a pattern stands in the order of its parts, and each part is at most one thing that stands there.
pub fn order_of_occurrences()
    ensures { InOrder }
{}

/// The reading of a datum that passes the checks has the pattern that matches everything for each `_`, and for nothing else.
pub fn wilds_are_written()
    ensures { WildsAreWritten }
{}

/// Worked examples: the refusal of a list that would ask Racket, and contexts from a nonterminal to itself.
pub fn worked_examples()
    ensures asks_inside { AsksInside }
    ensures reads_across { ReadsAcross }
    ensures no_such_end { NoSuchEnd }
{}

/// Worked examples: what is a mismatch name, what is none, and what means nothing.
pub fn mismatch_examples()
    ensures reads_mismatch { ReadsMismatch }
    ensures reads_other_mismatch { ReadsOtherMismatch }
    ensures reads_later_mark { ReadsLaterMark }
    ensures no_such_mismatch { NoSuchMismatch }
    ensures no_mismatch_ellipsis { NoMismatchEllipsis }
    ensures no_mismatch_bound { NoMismatchBound }
{}
