// What is known of a nonterminal.
use rdx_lang::Ref;
use rdx_term::Term;

/// Rows of the terms that a nonterminal matches, and of contexts into which it may split terms. The row of each number has those of so
/// many nodes.
#[derive(Drop)]
pub(crate) struct Table {
    pub(crate) name: Ref,
    pub(crate) terms: Vec<Vec<Term>>,
    pub(crate) contexts: Vec<Vec<Term>>,
}

/// The rows of one size.
#[derive(Drop)]
pub(crate) struct Row {
    pub(crate) terms: Vec<Term>,
    pub(crate) contexts: Vec<Term>,
}
