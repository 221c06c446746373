//! Patterns whose mismatch names are opened, and what a matcher finds of them.
//!
//! A matcher lists what is seen of a binding, and that leaves mismatch names out. So each place of a mismatch name gets a name of its own, a
//! [`Mark`]: what the opened pattern binds says what stands at each place, and a whole binding can be read off it.
#![tactic(auto)]

mod opening;
mod parts;
mod seeking;
mod wholes;

pub use opening::{Mark, Opened};
pub use parts::{in_turn, restricted, turns_of};
pub use seeking::{Found, Wanted, asked, known_match, known_split, seek_match, seek_split};
pub use wholes::{found_match, found_split, part_of, whole};
