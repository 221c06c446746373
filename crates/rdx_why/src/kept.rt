// Ends of rules that are kept, each with its rule and the inputs.

use rdx_lang::Binding;
use rdx_term::{Name, Term};
use std::collections::BTreeMap;

/// A binding with which a use of a rule ends, and the outputs that are made of it, if any are.
#[derive(Drop)]
pub(crate) struct End {
    pub(crate) binding: Binding,
    pub(crate) outputs: Option<Term>,
}

/// All ends of the rule at this place of the judgement, for these inputs.
#[derive(Drop)]
pub(crate) struct Kept {
    pub(crate) judgement: Name,
    pub(crate) place: usize,
    pub(crate) inputs: Term,
    pub(crate) ends: Vec<End>,
}

/// What is kept, and under keys the places at which it may stand.
#[derive(Drop)]
pub(crate) struct Store {
    pub(crate) kept: Vec<Kept>,
    pub(crate) places: BTreeMap<Term, usize>,
    /// How many nodes there are together, those that are shared counted for each.
    pub(crate) nodes: usize,
}
