//! What definitions are made of, over templates and host expressions: extras and premises, and what
//! cases, clauses and rules have in common.
//!
//! The readers of whole forms, which stand above this crate, list what stands in a form
//! ([`stands::collecting`]), give its [`branches::Outline`], have both checked ([`stands::refusals`])
//! and read the parts ([`stands::readings`]). Metafunctions and judgements are known in the whole file,
//! so each of them is given a `Scope`. What parts mean follows the Redex reference manual ("Other
//! Relations", "Reduction Relations"); templates and host expressions are in `rdx_templates`.
#![tactic(auto)]

pub mod arguments;
pub mod branches;
pub mod extras;
pub mod stands;
