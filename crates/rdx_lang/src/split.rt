// What a pattern splits a term into.

use crate::Binding;
use rdx_term::Term;

/// A way in which a pattern splits a term.
#[derive(Drop)]
pub struct Split {
    /// The context: the term with the hole in place of the part, marked on the way to it.
    pub context: Term,
    /// What stands in the hole of the context.
    pub part: Term,
    /// What the names of the pattern stand for.
    pub binding: Binding,
}
