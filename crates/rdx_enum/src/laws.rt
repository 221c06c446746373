//! Laws of the definitions: functions that do nothing, whose contracts are the laws.
ghost use Rattle.rdx_enum.specs.Laws.{OneTerms, SomeTerms};

/// In a language that is free of left recursion each nonterminal has a listing of its terms for each
/// size.
pub fn some_terms()
    ensures { SomeTerms }
{
    rdx_lang::laws::some_listing();
}

/// A nonterminal has one such listing at most.
pub fn one_terms()
    ensures { OneTerms }
{}
