// Languages with cross nonterminals.

mod adding;
mod alternatives;
mod checked;
mod completion;
mod nameless;
mod ways;

pub(crate) use checked::known_with_crosses;
pub use checked::{add_crosses_for, add_crosses_of, cross_of};
pub use completion::complete;
