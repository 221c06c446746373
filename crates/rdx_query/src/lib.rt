//! Files: what their forms mean, and what they write.
//!
//! A form defines something, asks something, or is passed over. [`check_file`] finds what is known in the whole file, reads its forms one
//! after the other, and refuses the file at the first form that is refused. What a file means, and why it is refused, is in
//! `specs/File.antt`; what it writes, over the answers of `rdx_answer`, in `specs/Writing.antt`. What one form
//! means is said in `rdx_forms`.
#![tactic(auto)]

mod file;
mod forms;
mod kind;
pub mod laws;

pub use file::check_file;
pub use rdx_answer::{Answered, CheckedFile, Mode, Query, answer, workload_text};
