// Answers that are kept, each with its call and a height at which the call has it.

use rdx_term::{Name, Term};
use std::alloc::Global;
use std::collections::HashMap;

/// An answer of a call.
#[derive(Drop)]
pub(crate) struct Kept<T> {
    pub(crate) name: Name,
    pub(crate) args: Term,
    pub(crate) height: usize,
    pub(crate) answer: T,
}

/// Answers, and for the numbers of calls the places at which theirs may stand.
#[derive(Drop)]
pub(crate) struct Answers<T> {
    pub(crate) kept: Vec<Kept<T>>,
    pub(crate) places: HashMap<u64, usize>,
    /// How many nodes they have together, those that they share counted for each.
    pub(crate) nodes: usize,
}

/// The answers of metafunctions, and those of judgements.
#[derive(Drop)]
pub(crate) struct Memo {
    pub(crate) values: Answers<Term>,
    pub(crate) outputs: Answers<Vec<Term>>,
}

/// What is found of a call: its answer, or the number to keep one under.
#[derive(Drop)]
pub(crate) enum Sought<T> {
    /// The answer.
    Kept(T),
    /// None is kept that holds at the height.
    Under(u64),
}
