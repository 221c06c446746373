// Templates and host expressions.

pub mod bound;
pub(crate) mod checks;
pub mod driving;
pub(crate) mod heads;
pub(crate) mod host_heads;
pub(crate) mod parts;
pub mod places;
mod reader;
pub mod readings;
mod refusals;
pub mod shapes;

pub use reader::{read_host, read_template};
