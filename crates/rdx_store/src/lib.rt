//! Interned terms: a number for each term, one for all that are equal.
//!
//! A [`Store`] numbers terms from 0. Two ids are equal exactly where their terms are equal, marks
//! included, and an id never changes its term. [`laws`] has what holds of ids.
//!
//! An entry is found by its key: the kind of the term and what it holds, where each item of a list
//! is given by its id. So each node of a term costs one look-up, however much stands below it.
#![tactic(auto)]

mod key;
pub mod laws;
mod store;

pub use store::{Store, TermId};
