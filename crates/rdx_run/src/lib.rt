//! Walks and runs: the steps of a relation, taken one after the other.
//!
//! [`follow`] takes the steps that are chosen, and gives each term on the way with all its steps.
//! [`run_down`] takes the one reduct that each term has, and gives the term that has none. What a
//! walk and a run are is said by `specs/Walks.antt` and `specs/Runs.antt`, over the steps of
//! `rdx_reduce`; each is one at most ([`laws`]).
#![tactic(auto)]

pub mod laws;
mod run;
mod turn;
mod walk;

pub use run::{RunFault, run_down};
pub use walk::{State, Walk, WalkEnd, follow};
