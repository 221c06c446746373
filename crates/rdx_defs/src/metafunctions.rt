// Metafunctions.

pub(crate) mod forms;
mod names;
mod reader;
pub(crate) mod readings;
pub(crate) mod stands;

pub use names::metafunction_name;
pub use reader::{read_metafunction, read_metafunction_over};
