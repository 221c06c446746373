//! Filling contexts.
//!
//! A context is a term with a path of marks to one of its holes. [`fill`] puts a part in place of that hole, and shares all that
//! stands beside the path. [`with_hole`] puts a context in place of an item and marks it, and [`path_of`] gives the places on the way
//! to a context's own hole. [`part_at`] is what stands in a term at the end of a path, and [`context_around`] the context around it.
//! [`laws`] has what holds of filling.
//!
//! What goes down a context recurs on its path, whose length is at most 500. Nothing goes down a part.
#![tactic(auto)]

mod error;
mod filling;
mod items;
pub mod laws;
mod paths;
mod places;

pub use error::FillFault;
pub use filling::fill;
pub use items::with_hole;
pub use paths::path_of;
pub use places::{context_around, part_at};
