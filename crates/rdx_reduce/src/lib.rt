//! Reduction: the steps that a relation takes from a term.
//!
//! [`steps`] lists each step by each rule of a relation, ascending and each once, or gives the
//! first fault on the way. What the steps are is said by `specs/Steps.antt`, over the rules of
//! matching and the definitions of evaluation; each term has one such answer ([`laws`]).
//!
//! [`context_closure`] and [`compatible_closure`] make the relation that takes the steps of another
//! one inside of contexts.
#![tactic(auto)]

mod closures;
pub mod laws;
mod order;
mod sorting;
mod step;
mod stepping;

pub use closures::{compatible_closure, context_closure};
pub use step::Step;
pub use stepping::steps;
