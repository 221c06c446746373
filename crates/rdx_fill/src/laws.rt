//! What holds of filling. The functions do nothing, and their contracts are the laws.
ghost use Rattle.rdx_fill.specs.Laws.{FillAssociates, FilledIsContext, FilledPath, FilledWithHole, MarkedIsContext, MarkedPath, MarkedFilled, MarkedBare, FilledDepth, FilledNodes, FilledHoles, FilledIsTerm, FilledBare};
ghost use Rattle.rdx_fill.specs.Examples.{FirstOfTwo, SecondOfTwo, MarkStays, MarkGoes, PathOfPair};

/// To fill a context with a context, and then that with a part, is to fill the first with the second filled.
pub fn fill_associates()
    ensures { FillAssociates }
{}

/// A context filled with a context is a context, whose path is the two paths one behind the other; filled with the hole it is as it was.
pub fn filled_contexts()
    ensures context { FilledIsContext }
    ensures path { FilledPath }
    ensures hole { FilledWithHole }
{}

/// A list with a context in place of an item and marked at it is a context, whose path goes on along that item's; it is filled by filling
/// the item; and where an item is a filled context but for marks, its list is one too.
pub fn marked_lists()
    ensures context { MarkedIsContext }
    ensures path { MarkedPath }
    ensures filled { MarkedFilled }
    ensures bare { MarkedBare }
{}

/// The depth of a filled context is its own, or the length of its path and the depth of the part; the nodes and the holes are those of
/// both but for the hole that was filled.
pub fn filled_measures()
    ensures depth { FilledDepth }
    ensures nodes { FilledNodes }
    ensures holes { FilledHoles }
{}

/// A term filled with a term is a term within the limits, and but for marks it does not depend on the marks of the part.
pub fn filled_terms()
    ensures term { FilledIsTerm }
    ensures bare { FilledBare }
{}

/// Worked examples: `(hole hole)` with either mark filled with 1 and with a context, a mark that goes, and a path.
pub fn worked_examples()
    ensures first_of_two { FirstOfTwo }
    ensures second_of_two { SecondOfTwo }
    ensures mark_stays { MarkStays }
    ensures mark_goes { MarkGoes }
    ensures path_of_pair { PathOfPair }
{}
