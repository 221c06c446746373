//! Evaluation: what templates make of bindings, what host expressions, metafunctions and judgements
//! make of terms, and which bindings meet extras.
//!
//! An [`Engine`] evaluates over a program, with a table of host operations and a matcher of any
//! kind. What is answered is said by relations with the answer last (`specs/Answers.antt`): a value,
//! or the first [`Fault`] in the order in which things are written. Each allows one answer at most,
//! and [`laws`] has that there is one. Calls stand on calls 400 high at most; a call that is higher
//! is a fault.
#![tactic(auto)]

mod asking;
mod at_once;
mod digest;
mod engine;
mod evaluation;
mod extending;
mod fault;
mod frames;
mod fresh;
mod host;
mod kept;
pub mod laws;
mod lookup;
mod making;
mod memo;
mod scope;
mod steps;
mod stop;
mod stopping;
mod turns;
mod values;

pub use engine::Engine;
pub use fault::{EvalFault, Fault, Side};
