// The alternatives of a nonterminal, and what is known of them.
use rdx_lang::{Known, May, Pat};

/// The alternatives of a nonterminal, and what is known of it and of them, if anything is.
#[derive(Clone, Copy)]
pub(crate) struct Choices<'a> {
    pub(crate) pats: &'a [Pat],
    pub(crate) known: Option<&'a Known>,
}

/// What is known of an alternative.
#[derive(Clone, Copy)]
pub(crate) struct Hint {
    pub(crate) may: May,
    // Where it is a nonterminal, a place at which that one may stand.
    pub(crate) to: Option<usize>,
}
