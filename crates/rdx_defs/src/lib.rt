//! Metafunctions and judgements from data.
//!
//! [`read_metafunction`] and [`read_judgement`] give the metafunction that a `define-metafunction`
//! form is, and the judgement that a `define-judgment-form` form is, over a language, and
//! [`read_premise`] a premise by itself; or they refuse it by the check with the least number that
//! refuses it, at its earliest place in the file. Metafunctions and judgements are known in the whole
//! file, so each of these is given a [`Scope`], which [`scope_of`] finds before any form is read. What
//! forms mean follows the Redex reference manual ("Other Relations"); what they are made of is in
//! `rdx_parts` and `rdx_templates`. Relations are read in `rdx_relations`, and templates and host
//! expressions by themselves in `rdx_templates`, whose calls are offered here too.
#![tactic(auto)]

mod crosses;
mod judgements;
pub mod laws;
mod metafunctions;
mod scopes;

pub use judgements::{
    ReadPremise, judgement_name, read_judgement, read_judgement_over, read_premise,
    read_premise_over,
};
pub use metafunctions::{metafunction_name, read_metafunction, read_metafunction_over};
pub use rdx_relations::{expand_with, read_relation, read_relation_over, relation_ends};
pub use rdx_templates::{Scope, read_host, read_template};
pub use scopes::{judgement_languages, scope_of};
