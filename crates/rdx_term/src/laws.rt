//! What holds of all terms: the laws of their marks, of the same terms without marks, and of their order. The functions do nothing, and their contracts are the laws.
ghost use Rattle.std.specs.Prelude.{◌≡◌, ◌↔◌};
ghost use Rattle.std.specs.declared.cmp.Ordering.TheVariants.{Equal};
ghost use Rattle.std.specs.Cmp.{IsTotalOrder};
ghost use Rattle.rdx_term.specs.Tree.{Tree};
ghost use Rattle.rdx_term.specs.Order.{tree_cmp};
ghost use Rattle.rdx_term.specs.Laws.{ContextsHaveHoles, OneHoleIsContext, OneHoleIsMarked, ForgottenOnce, NoHoleNoMark, KeepsAllElse};
ghost use Rattle.rdx_term.specs.Examples.{PrintedList, PrintedContext, KindsDecide, StringsBeforeSymbols, PrefixFirst, ItemsDecide, UnmarkedFirst, OneHole, TwoHoles, MarkAtNoContext, BareForgets, Names, NumbersAreNoNames, OthersAreNoNames, HoleIsNoName, EmptyList, EqualItems, DepthLimit, NodeLimit};

/// A context has a hole, a term with exactly one hole is a context, and a list with exactly one hole is marked at the item that has it.
pub fn marks_of_terms()
    ensures context { ContextsHaveHoles }
    ensures one_hole { OneHoleIsContext }
    ensures mark { OneHoleIsMarked }
{}

/// Where marks are forgotten, nothing is left to forget, a term without a hole stays as it is, and the depth, the nodes, the holes and the
/// printed text stay.
pub fn forgotten_marks()
    ensures once { ForgottenOnce }
    ensures no_hole { NoHoleNoMark }
    ensures rest { (t : Tree) → KeepsAllElse t }
{}

/// The order of terms is total, and the terms that it does not tell apart are those that are equal, with their marks.
pub fn order_of_terms()
    ensures total { IsTotalOrder tree_cmp }
    ensures equal { (t u : Tree) → (tree_cmp t u ≡ Equal) ↔ (t ≡ u) }
{}

/// Worked examples: the printed text of two small lists, the order of a few terms, which marks a list may have, which texts are names,
/// and where the limits are.
pub fn worked_examples()
    ensures printed_list { PrintedList }
    ensures printed_context { PrintedContext }
    ensures kinds_decide { KindsDecide }
    ensures strings_before_symbols { StringsBeforeSymbols }
    ensures prefix_first { PrefixFirst }
    ensures items_decide { ItemsDecide }
    ensures unmarked_first { UnmarkedFirst }
    ensures one_hole { OneHole }
    ensures two_holes { TwoHoles }
    ensures mark_at_no_context { MarkAtNoContext }
    ensures bare_forgets { BareForgets }
    ensures names { Names }
    ensures numbers_are_no_names { NumbersAreNoNames }
    ensures others_are_no_names { OthersAreNoNames }
    ensures hole_is_no_name { HoleIsNoName }
    ensures empty_list { EmptyList }
    ensures equal_items { EqualItems }
    ensures depth_limit { DepthLimit }
    ensures node_limit { NodeLimit }
{}
