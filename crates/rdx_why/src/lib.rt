//! Why a pattern matches a term or splits it so, and why a judgement holds: finds derivations by the rules, and tests and prints them.
#![tactic(auto)]

mod along;
mod around;
mod choosing;
mod descending;
mod ends;
mod explaining;
mod finder;
mod forms;
mod inner;
mod judging;
mod kept;
mod lists;
mod step;

pub use explaining::{explain, explain_known};
pub use finder::Finder;
pub use rdx_deriv::{Deriv, Goal, derivation_holds, write_lines, write_rule_name};
