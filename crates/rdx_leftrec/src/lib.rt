//! The check for left recursion.
//!
//! A left edge leads from a pattern to one that is matched against the same term
//! (`rdx_lang/specs/Edges.antt`). [`check`] numbers the nodes of a language's patterns so that the
//! numbers fall along every left edge, or names the first nonterminal that reaches itself.
#![tactic(auto)]

mod components;
mod deduction;
mod edges;
mod empty;
mod nonterminals;
mod ranks;
mod recursion;
mod walk;

pub use recursion::{LeftRec, check};
