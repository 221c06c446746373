//! What follows from the definitions.
ghost use Rattle.rdx_gen.specs.Examples as examples;
ghost use Rattle.rdx_gen.specs.Laws as law;
ghost use Rattle.rdx_gen.specs.Matching as matching;

/// The worked examples.
pub fn worked_examples()
    ensures pair { examples.PairOfNaturals }
    ensures successors { examples.TwoSuccessors }
    ensures no_height { examples.NoHeight }
    ensures two_patterns { examples.TwoPatterns }
    ensures mismatch_name { examples.MismatchName }
    ensures mismatch_name_behind { examples.MismatchNameBehind }
    ensures no_items { examples.NoItems }
{}

/// What is generated of a pattern that is well formed in the language matches it, with some binding.
/// So does what is made of a pattern in which no name stands twice and no mismatch name stands; and a
/// context that is made of one is a context, and the pattern splits whatever it is filled with into it
/// and this.
pub fn terms_match()
    ensures generated { matching.GeneratedMatches }
    ensures terms { matching.TermsMatch }
    ensures contexts { matching.ContextsSplit }
{}

/// What is generated of a pattern, with a size and from some words, is one answer.
pub fn one_answer()
    ensures one_answer { law.OneAnswer }
{}

/// There is one, and so many nonterminals in one another are enough for it.
pub fn some_answer()
    ensures some_answer { law.SomeAnswer }
    ensures enough_levels { law.EnoughLevels }
{}

/// The heights of a language's nonterminals are the one table in which each is one more than the least of
/// its alternatives', and none is greater than two for each nonterminal.
pub fn heights_solve()
    ensures solve { law.HeightsSolve }
    ensures one_solution { law.OneSolution }
    ensures bounded { law.HeightsBounded }
{}

/// No term matches a pattern that is barren.
pub fn barren_matches_none()
    ensures none { law.BarrenMatchesNone }
{}

/// What a pattern reaches is marked exactly, so in the alternatives that it reaches no name stands twice
/// and no mismatch name stands where none breaks a rule.
pub fn reached_exactly()
    ensures exactly { law.ReachedExactly }
    ensures none_breaks { law.NoneBreaks }
{}
