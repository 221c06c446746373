// Reduction relations.

mod ends;
pub(crate) mod forms;
mod language;
mod reader;
pub(crate) mod readings;
pub(crate) mod stands;

pub use ends::relation_ends;
pub use forms::is_keyword;
pub use language::refuse_over;
pub use reader::{read_relation, read_relation_over};
