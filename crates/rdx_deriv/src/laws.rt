//! What follows from the definitions. The functions do nothing, and their contracts are the laws.
ghost use Rattle.rdx_deriv.specs.Examples.{OneIsJudged, OneIsDerived, NothingElse, NoOtherRule, InputsAreMatched, WrappedIsJudged, WrappedIsDerived, WrappedIsSpent};
ghost use Rattle.rdx_deriv.specs.Laws.{WhatHoldsFollows, WhatFollowsHasDerivation, OutputsAreJudged};

/// What a derivation that holds derives follows by the rules.
pub fn what_holds_follows()
    ensures { WhatHoldsFollows }
{}

/// What follows by the rules has a derivation that holds.
pub fn what_follows_has_derivation()
    ensures { WhatFollowsHasDerivation }
{}

/// What a judgement is answered, where it has no fault, is the listing of the outputs that its rules have.
pub fn outputs_are_judged()
    ensures { OutputsAreJudged }
{}

/// Worked examples: what is judged by one rule and by a rule with a premise, and derivations of it.
pub fn worked_examples()
    ensures one_is_judged { OneIsJudged }
    ensures one_is_derived { OneIsDerived }
    ensures nothing_else { NothingElse }
    ensures no_other_rule { NoOtherRule }
    ensures inputs_are_matched { InputsAreMatched }
    ensures wrapped_is_judged { WrappedIsJudged }
    ensures wrapped_is_derived { WrappedIsDerived }
    ensures wrapped_is_spent { WrappedIsSpent }
{}
