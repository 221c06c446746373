// How high the least term and the least context of a nonterminal are.
ghost use Rattle.std.specs.Prelude.{◌≡◌};

/// The heights of a nonterminal or a pattern, where it has any.
#[derive(Clone, Copy, PartialEq, Eq)]
pub(crate) struct Height {
    /// As a term.
    pub(crate) as_term: Option<usize>,
    /// As a context.
    pub(crate) as_context: Option<usize>,
}

impl Height {
    /// These heights.
    pub(crate) fn new(as_term: Option<usize>, as_context: Option<usize>) -> Height
        ensures term { result.as_term ≡ as_term }
        ensures context { result.as_context ≡ as_context }
    {
        Height {
            as_term,
            as_context,
        }
    }
}
