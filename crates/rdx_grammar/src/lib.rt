//! Languages from data.
//!
//! A form `(define-language L def ...)` gives a language, and `(define-extended-language L L0 def ...)` one that extends another. A
//! definition is `(e p ...)`, `((e f ...) p ...)` or `(e f ... ::= p ...)`, with at least one pattern, and where several names stand,
//! each has all the alternatives. What forms mean follows the Redex reference manual ("Languages"), and patterns are read by `rdx_patterns`.
//!
//! A reader gives what the form means, or refuses the form at the first place of the check with the least number that refuses it. The
//! README names the definition of each check.
//!
//! What a refusal is, the reader of patterns and [`cross_of`], which gives a language its cross nonterminals to one end, stand in `rdx_patterns`
//! and are offered here too.
#![tactic(auto)]

mod languages;
pub mod laws;

pub use languages::{extend, read_language};
pub use rdx_patterns::{DefFault, DefKind, DefRefusal, cross_of, read_pattern};
