//! Laws of the definitions: functions that do nothing, whose contracts are the laws.
ghost use Rattle.std.specs.Cmp.{IsTotalOrder};
ghost use Rattle.rdx_lang.specs.Order.{value_cmp, binding_cmp, decomposition_cmp};
ghost use Rattle.rdx_lang.specs.Order.{TellsApart};
ghost use Rattle.rdx_lang.specs.Examples.{TwoEqual, TwoDifferent, TwoMarks, NameAround, NameAroundItself, Forgotten, OnceForTwo, Mentioned, ExceptMentionsNone, NonterminalsAreNotMentioned, PrefixFirst, ItemsDecide, FirstPairDecides, NameKeepsTheTerm, ListTakesOff};
ghost use Rattle.rdx_lang.specs.Examples.{InEachPlace, AtEitherHole, HiddenSplitsNothing, OneItemSplits, NeverAtBoth, ContextInContext, NameOfATerm, EqualContexts, ContextsWithMarks, EmptyThroughAnother, EmptyLeadsOn, ContextTakesOff};
ghost use Rattle.rdx_lang.specs.RepetitionExamples.{EachDivision, NoTurn, EqualLengths, EqualSequences, SequenceOfSequences, OneTurnSplits};
ghost use Rattle.rdx_lang.specs.TemplateExamples.{UnderEllipsis, UnderNone, OuterUndriven, BothDriven, NothingDrives, NotBound, CallDriven, NoMetafunction, HostDriven, HostUnderNone};
ghost use Rattle.rdx_lang.specs.VariantLaws.{FirstIsFree, SecondNumber, MarkBetween, NotTaken};
ghost use Rattle.rdx_lang.specs.CrossExamples.{CrossOfSums, OtherHasNoHole, RepetitionIsSplit, NestedAreSplit, NoPlaces, AddedInOrder, WithoutIsBefore, CrossesMatter};
ghost use Rattle.rdx_lang.specs.CrossLaws.{CrossesWellFormed, CrossesFree, PatternsStay, PlainNamesStay, CrossesOnce, CrossesThere, CrossesChangeNoMatch, CrossesChangeNoSplit, CrossesChangeNoListing, CrossesChangeNoSplitsListing, PatternsGetTheirs, CompletedWellFormed, CompletedHasIts, CompletedLeavesNoneOut, RecursiveIsPlain, FirstIsPlain, WithoutHasNone};
ghost use Rattle.rdx_lang.specs.Laws.{OneListing, OneSplitsListing, SomeListing, SomeSplitsListing, OneJoin, JoinAgrees, JoinExists, NamesAscend, BindsAMap, BindsItsNames, SplitBindsAMap, SplitBindsItsNames, SplitFills, SplitHasPath, WholeIsEmpty, EmptySplitsAll, EmptyIsDecided, FreeOrRecursive, RanksFall, EdgesFall, RankedIsFree};

/// The order of values is total, and values that it doesn't tell apart are equal.
pub fn values_are_ordered()
    ensures total { IsTotalOrder value_cmp }
    ensures equal { TellsApart value_cmp }
{}

/// The order of bindings is total, and bindings that it doesn't tell apart are equal.
pub fn bindings_are_ordered()
    ensures total { IsTotalOrder binding_cmp }
    ensures equal { TellsApart binding_cmp }
{}

/// The order of what terms are split into is total, and what it doesn't tell apart is equal.
pub fn splits_are_ordered()
    ensures total { IsTotalOrder decomposition_cmp }
    ensures equal { TellsApart decomposition_cmp }
{}

/// A pattern has one listing of the bindings by which it matches a term, and one of what it splits
/// a term into, since a strictly ascending list is fixed by its members.
pub fn one_listing()
    ensures matches { OneListing }
    ensures splits { OneSplitsListing }
{}

/// In a language that is free of left recursion each pattern has both listings for each term.
pub fn some_listing()
    ensures matches { SomeListing }
    ensures splits { SomeSplitsListing }
{}

/// A language is free of left recursion, or has a first nonterminal that reaches itself.
pub fn free_or_recursive()
    ensures { FreeOrRecursive }
{}

/// Two bindings have one join at most.
pub fn one_join()
    ensures { OneJoin }
{}

/// Two bindings have a join exactly where the names that both bind have equal values, marks
/// included.
pub fn join_exists()
    ensures only { JoinAgrees }
    ensures always { JoinExists }
{}

/// Whatever a pattern matches or splits, its binding is a finite map of the same names, those that
/// are written in the pattern itself.
pub fn names_of_matches()
    ensures ascending { NamesAscend }
    ensures map { BindsAMap }
    ensures names { BindsItsNames }
    ensures split_map { SplitBindsAMap }
    ensures split_names { SplitBindsItsNames }
{}

/// What a pattern splits a term into is the term: its context is a context, which is the term, but
/// for marks, where the part is put into it, and neither is deeper or larger than the term. A split
/// is fixed by the path of its context: the part stands where the path leads, and the context is
/// the term with the hole in its place.
pub fn splits_fill()
    ensures fill { SplitFills }
    ensures path { SplitHasPath }
{}

/// A pattern is Empty exactly where it splits some term with the hole itself as context, and then it
/// splits each term so. Which nonterminals are Empty can be told.
pub fn empty_patterns()
    ensures only { WholeIsEmpty }
    ensures always { EmptySplitsAll }
    ensures decided { EmptyIsDecided }
{}

/// Where ranks fall along every left edge, the number of an alternative is below that of its
/// nonterminal; so what a left edge leads to has a lesser number, and no nonterminal reaches
/// itself.
pub fn ranks_fall()
    ensures fall { RanksFall }
    ensures edges { EdgesFall }
    ensures free { RankedIsFree }
{}

/// Worked examples: what the definitions say of small languages, patterns and terms.
pub fn worked_examples()
    ensures two_equal { TwoEqual }
    ensures two_different { TwoDifferent }
    ensures two_marks { TwoMarks }
    ensures name_around { NameAround }
    ensures name_around_itself { NameAroundItself }
    ensures forgotten { Forgotten }
    ensures once_for_two { OnceForTwo }
    ensures mentioned { Mentioned }
    ensures except_mentions_none { ExceptMentionsNone }
    ensures nonterminals_are_not_mentioned { NonterminalsAreNotMentioned }
    ensures prefix_first { PrefixFirst }
    ensures items_decide { ItemsDecide }
    ensures first_pair_decides { FirstPairDecides }
    ensures name_keeps_the_term { NameKeepsTheTerm }
    ensures list_takes_off { ListTakesOff }
    ensures in_each_place { InEachPlace }
    ensures at_either_hole { AtEitherHole }
    ensures hidden_splits_nothing { HiddenSplitsNothing }
    ensures one_item_splits { OneItemSplits }
    ensures never_at_both { NeverAtBoth }
    ensures context_in_context { ContextInContext }
    ensures name_of_a_term { NameOfATerm }
    ensures equal_contexts { EqualContexts }
    ensures contexts_with_marks { ContextsWithMarks }
    ensures empty_through_another { EmptyThroughAnother }
    ensures empty_leads_on { EmptyLeadsOn }
    ensures context_takes_off { ContextTakesOff }
    ensures each_division { EachDivision }
    ensures no_turn { NoTurn }
    ensures equal_lengths { EqualLengths }
    ensures equal_sequences { EqualSequences }
    ensures sequence_of_sequences { SequenceOfSequences }
    ensures one_turn_splits { OneTurnSplits }
{}

/// The examples of which templates fit.
pub fn fitting_examples()
    ensures under_ellipsis { UnderEllipsis }
    ensures under_none { UnderNone }
    ensures outer_undriven { OuterUndriven }
    ensures both_driven { BothDriven }
    ensures nothing_drives { NothingDrives }
    ensures not_bound { NotBound }
    ensures call_driven { CallDriven }
    ensures no_metafunction { NoMetafunction }
    ensures host_driven { HostDriven }
    ensures host_under_none { HostUnderNone }
{}

/// The name that is made up is the first variant that is none of the names, and each variant before
/// it is one of them, since variants differ from one another. With worked examples.
pub fn made_names()
    ensures first { FirstIsFree }
    ensures second_number { SecondNumber }
    ensures mark_between { MarkBetween }
    ensures not_taken { NotTaken }
{}

/// A well-formed language without left recursion stays so with any cross nonterminals, and its
/// patterns stay well formed; those that are there are not added again.
pub fn crosses_stay()
    ensures well_formed { CrossesWellFormed }
    ensures free { CrossesFree }
    ensures patterns { PatternsStay }
    ensures names { PlainNamesStay }
    ensures once { CrossesOnce }
    ensures there { CrossesThere }
{}

/// Cross nonterminals of which nothing speaks change no match and no split: a pattern that is well
/// formed in a well-formed language matches and splits the same terms in the same ways, whichever
/// the language gets, and so it has the same listings.
pub fn crosses_change_nothing()
    ensures matches { CrossesChangeNoMatch }
    ensures splits { CrossesChangeNoSplit }
    ensures listing { CrossesChangeNoListing }
    ensures splits_listing { CrossesChangeNoSplitsListing }
{}

/// What speaks of cross nonterminals is well formed once the language has those that it needs. These
/// then have exactly the alternatives that they should have, and left recursion is seen in the
/// nonterminals that are no cross nonterminals.
pub fn crosses_complete()
    ensures patterns { PatternsGetTheirs }
    ensures well_formed { CompletedWellFormed }
    ensures its { CompletedHasIts }
    ensures all { CompletedLeavesNoneOut }
    ensures recursive { RecursiveIsPlain }
    ensures first { FirstIsPlain }
    ensures without { WithoutHasNone }
{}

/// Worked examples of cross nonterminals.
pub fn cross_examples()
    ensures cross_of_sums { CrossOfSums }
    ensures other_has_no_hole { OtherHasNoHole }
    ensures repetition_is_split { RepetitionIsSplit }
    ensures nested_are_split { NestedAreSplit }
    ensures no_places { NoPlaces }
    ensures added_in_order { AddedInOrder }
    ensures without_is_before { WithoutIsBefore }
    ensures crosses_matter { CrossesMatter }
{}
