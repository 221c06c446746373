// The shorthand of relations.

mod arrows;
pub(crate) mod checks;
pub(crate) mod expanding;
mod filling;
pub(crate) mod forms;
mod reader;
mod room;
mod used;

pub use reader::expand_with;
