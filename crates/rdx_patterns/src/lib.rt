//! Patterns from data, and languages with cross nonterminals.
//!
//! A datum outside grammars gives a checked pattern, or is refused at the first place of the check with the least number that refuses it. What
//! patterns mean follows the Redex reference manual ("Patterns"). The crate also has what `rdx_grammar`, which reads the forms of languages, and
//! the crates above it want of data: their shape, names, and refusals.
//!
//! In a list of patterns an ellipsis, `...` or `..._x`, repeats the pattern right before it, and `..._x` names the number of turns. One that
//! is first, or right behind another one, is refused. So is a list headed by `unquote` or `side-condition`, which would ask Racket.
//!
//! The README names the definition of each check. The modules stand on each other in this order: [`shape`] (data by their shape, names,
//! refusals at data), lookup (a map of definitions), crosses (languages with cross nonterminals), patterns.
#![tactic(auto)]

mod crosses;
pub mod laws;
mod lookup;
mod patterns;
pub mod shape;

pub use crosses::{add_crosses_for, add_crosses_of, complete, cross_of};
pub use lookup::Definitions;
pub use patterns::{
    Names, Position, add_ends, called, checks, ends_in, heads, kind, language_names, occurrences,
    read_pattern, read_pattern_over, readings, symbol_name,
};
pub use shape::{DefFault, DefKind, DefRefusal, names, refusal};
