//! Templates and host expressions from data.
//!
//! [`read_template`] and [`read_host`] give the template and the host expression that a datum is
//! where some names are bound, or refuse it by the check with the least number that refuses it, at its
//! earliest place in the file. Metafunctions and judgements are known in the whole file, so each of
//! them is given a [`Scope`]. The crates above check and read the templates of whole forms part by part
//! ([`templates`]), and report the earliest of several places ([`earliest`]). What templates mean
//! follows the Redex reference manual ("Terms"), and host expressions the Racket reference.
#![tactic(auto)]

pub mod earliest;
pub mod laws;
mod scope;
pub mod templates;

pub use scope::Scope;
pub use templates::{read_host, read_template};
