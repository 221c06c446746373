//! Laws of the definitions: functions that do nothing, whose contracts are the laws.
ghost use Rattle.rdx_grammar.specs.Examples.{InheritsInPlace, LeastCheckFirst, AsksInLanguage, RecursionFirst, CrossesLoop};
ghost use Rattle.rdx_grammar.specs.Laws.{OneLanguage, OneRefusal, NeverBothLanguage, RecursionIsPlain};

/// A form over a base is one language at most.
pub fn one_language()
    ensures { OneLanguage }
{}

/// A form over a base has one refusal at most.
pub fn one_refusal()
    ensures { OneRefusal }
{}

/// A form that is a language isn't refused.
pub fn never_both_language_and_refusal()
    ensures { NeverBothLanguage }
{}

/// The first left-recursive nonterminal of a language that a form stands for is no cross
/// nonterminal.
pub fn recursion_is_plain()
    ensures { RecursionIsPlain }
{}

/// Worked examples: the language that an extension is, the refusals of forms that two checks refuse, of a language that would ask Racket, and
/// of one that is left-recursive by contexts from a nonterminal to itself.
pub fn worked_examples()
    ensures extension { InheritsInPlace }
    ensures refusal { LeastCheckFirst }
    ensures asks_in_language { AsksInLanguage }
    ensures recursion_first { RecursionFirst }
    ensures crosses_loop { CrossesLoop }
{}
