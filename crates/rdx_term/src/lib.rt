//! Terms of operational semantics: trees of atoms, holes and lists.
//!
//! A term is the hole, an integer of 128 bits, a truth value, a string, a symbol, or a list of terms. A list may have a mark, the
//! place of one of its items, which has to be a context; a context is the hole or a list with a mark. So a context has one path of
//! marks to one hole, and other holes beside the path are not confused with it. A list that contains exactly one hole is always
//! marked at the item that has it. These are the contexts with a path of Klein, McCarthy, Jaconette and Findler, "A semantics for
//! context-sensitive reduction semantics" (APLAS 2011).
//!
//! Lists are shared and never changed. Each keeps its depth, the number of its nodes and the number of its holes, so that to ask for
//! one takes no time. No term is deeper than 500 or has more than 4,000,000 nodes, where shared parts count each time. The methods
//! that go down a term recur on its depth.
//!
//! [`list`] and [`marked_list`] make the lists, [`Name::new`] the names of symbols, and the atoms are made as the variants of
//! [`Term`]. Terms have a total order, with which they are sorted and are the keys of ordered maps; [`laws`] has its laws. The tests
//! of [`spelling`] are those that a reader needs too.
#![tactic(auto)]

mod error;
pub mod laws;
mod name;
pub mod printing;
pub mod spelling;
mod term;

pub use error::{Build, NoMemory};
pub use name::Name;
pub use spelling::is_spelling;
pub use term::build::{list, marked_list};
pub use term::text::text_of;
pub use term::{Node, Term};
