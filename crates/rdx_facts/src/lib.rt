//! What the patterns of a language never do.
//!
//! [`facts_of`] finds for each nonterminal, and for each of its alternatives, what it never does, as
//! far as that follows from what its parts never do (`rdx_lang/specs/Facts.antt`), and [`with_facts`]
//! keeps it in the languages of a program. A search asks nothing of a pattern that never does it.
#![tactic(auto)]

mod closing;
mod flags;
mod knowing;
mod literals;
mod patterns;
mod programs;

pub use knowing::facts_of;
pub use programs::with_facts;
