// Forms that define languages.

mod bases;
mod checks;
mod definitions;
mod extension;
mod form_parts;
mod nonterminals;
mod parts;
mod reader;
mod recursion;
mod refusals;
mod stands;

pub use reader::{extend, read_language};
