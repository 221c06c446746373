//! The bindings by which a pattern matches a term, and what it splits it into, by plain recursion on both.
//!
//! [`try_matches`] takes the bindings that there are along the pattern, and gives each what the next part
//! binds, so that nothing is made that is not part of an answer, but for bindings that a later part
//! refuses. [`try_splits`] gathers the places at which the pattern splits the term in one pass. Both give
//! up where they go too deep or take too many steps, and then promise nothing.
#![tactic(auto)]

mod atoms;
mod choices;
mod extending;
mod halt;
mod joined;
mod known;
mod later;
mod may;
mod named;
mod paths;
mod plainness;
mod room;
mod splitting;
mod spots;
mod top;
mod turns;
mod walk;
mod wanted;
mod wanting;

pub use top::{try_matches, try_splits};
