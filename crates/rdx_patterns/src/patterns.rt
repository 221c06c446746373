// Patterns.

mod assembly;
pub mod checks;
mod ends;
pub mod heads;
pub(crate) mod kinds;
pub(crate) mod names;
pub(crate) mod nonterminals;
pub mod occurrences;
pub(crate) mod position;
mod reader;
pub mod readings;
mod refusals;

pub(crate) use ends::known_ends;
pub use ends::{add_ends, ends_in};
pub use kinds::kind;
pub use names::{Names, symbol_name};
pub use nonterminals::{called, language_names};
pub use position::Position;
pub use reader::{read_pattern, read_pattern_over};
