//! The answers to the queries of a file: what it writes, over a program and its queries, which
//! another crate reads.
//!
//! [`answer`] writes the answers, each behind the one before it, and says whether all is met that they
//! state. Which answer a query has is in `specs/Answering.antt`, from the rules of matching, splitting
//! and evaluation and the definition of steps alone, and how it is printed in `specs/AnswerText.antt`.
//! [`workload_text`] is a file with as many tests as one likes.
#![tactic(auto)]

mod alpha_answers;
mod answers;
mod bound;
mod comparing;
mod counting;
mod explained_answers;
mod explained_premises;
mod generate_answers;
mod holds_answers;
pub mod laws;
mod match_answers;
mod queries;
mod step_answers;
mod stepper_answers;
mod test_answers;
mod texts;
mod walk_texts;
mod workload;

pub use answers::{Answered, Mode, answer};
pub use queries::{CheckedFile, Query};
pub use workload::workload_text;
