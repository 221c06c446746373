//! The outer shape of data.

mod data;
mod fault;
pub mod names;
pub mod refusal;

pub use data::{are_symbols, is_symbol, is_word, items, symbol, text};
pub use fault::{DefFault, DefKind, DefRefusal};
