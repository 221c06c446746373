// Languages, as the code has them.

use crate::{Pat, Ref};
use rdx_term::Name;

/// A language: its name, and its nonterminals in the order of their definition, each with its
/// alternatives as they are written.
#[derive(Drop)]
pub struct Language {
    /// What the language goes by.
    pub name: Name,
    /// The nonterminals, each with its alternatives.
    pub nts: Vec<(Ref, Vec<Pat>)>,
}

/// A number for each node of a language's alternatives: the nonterminals in their order, the
/// alternatives in theirs, the nodes of each in pre-order.
#[derive(Drop)]
pub struct Ranks {
    /// The numbers.
    pub of: Vec<usize>,
}
