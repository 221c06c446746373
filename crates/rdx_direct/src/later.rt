// What is left for later.
use rdx_lang::Pat;
use rdx_term::Term;

/// A pattern, and the term that it has to match.
#[derive(Clone, Copy)]
pub(crate) struct Later<'t> {
    pub(crate) pat: &'t Pat,
    pub(crate) term: &'t Term,
}
