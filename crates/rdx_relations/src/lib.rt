//! Relations from data.
//!
//! [`read_relation`] gives the relation that a `reduction-relation` form is, over a language; or it
//! refuses it by the check with the least number that refuses it, at its earliest place in the file.
//! Metafunctions and judgements are known in the whole file, so it is given a `Scope`.
//! [`expand_with`] gives the cases of a relation without the shorthand that shortcuts behind `with`
//! define. What forms mean follows the Redex reference manual ("Reduction Relations"); what they are
//! made of is in `rdx_parts` and `rdx_templates`.
#![tactic(auto)]

pub mod laws;
mod relations;
mod shorthand;

pub use relations::{is_keyword, read_relation, read_relation_over, refuse_over, relation_ends};
pub use shorthand::expand_with;
