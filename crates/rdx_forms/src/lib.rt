//! What one form of a file means.
//!
//! A form defines something, asks something, or is passed over. What is known where it stands is a [`Known`]: what the whole file
//! defines, and what the forms before it define. Each kind of form has a reader, which gives what a form defines or asks, or refuses it
//! by the check with the least number that refuses it, and what a form defines is added to what is known. Which kind a form is, and what
//! a whole file means, is for the crate above. When a form is accepted and when it is refused is in `specs/OneForm.antt`, over
//! `specs/Forms.antt`, which has a case for each kind.
#![tactic(auto)]

mod adding;
mod alpha_forms;
mod binding_forms;
mod binding_parts;
mod closure_forms;
mod define_forms;
mod earlier;
mod ends;
mod generate_forms;
mod holds_forms;
mod host_forms;
mod judgement_forms;
mod known;
mod language_forms;
mod lookup;
mod match_forms;
mod metafunction_forms;
mod options;
mod parts;
mod passed_forms;
mod refusals;
mod relation_forms;
mod step_forms;
mod tables;
mod test_forms;

pub use adding::{add_judgement, add_language, add_metafunction, add_relation, nothing_known};
pub use alpha_forms::{Alike, Putting, read_alike, read_put};
pub use define_forms::define_relation;
pub use generate_forms::{Checking, Generating, read_check, read_generate};
pub use holds_forms::{read_holds, read_holds_test};
pub use host_forms::read_unbound;
pub use judgement_forms::define_judgement;
pub use known::Known;
pub use language_forms::{define_extension, define_language};
pub use match_forms::{Asked, read_query};
pub use metafunction_forms::define_metafunction;
pub use passed_forms::check_wants;
pub use step_forms::{Stepping, read_steps};
pub use test_forms::{Leading, Same, check_results, read_equal, read_leading};
