//! Terms that are generated from patterns.
#![tactic(auto)]

mod alike;
mod atoms;
mod choices;
mod fault;
mod frames;
mod generation;
mod generator;
mod given;
mod group;
mod groups;
mod height;
mod heights;
mod known;
pub mod laws;
mod literals;
mod made;
mod marking;
mod mentioned;
mod name_set;
mod nonterminals;
mod place;
mod places;
mod reach;
mod rules;
mod setting;
mod spots;
mod state;
mod steps;
mod stop;
mod symbols;
mod table;
mod top;
mod users;
mod variables;
mod words;

pub use fault::GenFault;
pub use generator::Generator;
pub use symbols::{has_symbols, literal_count};
pub use top::generate;
pub use words::Words;
