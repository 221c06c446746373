//! All terms of a nonterminal up to a size.
//!
//! [`terms_up_to`] lists the terms that a nonterminal matches, of those whose atoms stand in the pool of the language: the hole, 0, 1,
//! `#f`, `#t`, the empty string, the symbols a and b, and the literals of the language.
//!
//! No tree is tried that the grammar doesn't suggest. Size by size, and in each size by the ranks of the nonterminals, a row of terms is
//! grown for each nonterminal from the rows that are there, and one of contexts: those that its alternatives may match, or into which
//! they may split a term, where names are not looked at. The matcher then says which of these terms it matches.
#![tactic(auto)]

mod atoms;
mod growing;
mod joining;
pub mod laws;
mod listing;
mod order;
mod over;
mod pool;
mod ranked;
mod rows;
mod tables;
mod terms;
mod trees;
mod way;

pub use terms::terms_up_to;
