//! The host operations: arithmetic, comparisons, equality and negation, and the table of them.
//!
//! An operation takes a list of terms and answers a value, or says what is wrong with the call: a
//! number or kind of arguments that it doesn't take, a divisor of 0, or a result outside 128 bits
//! ([`HostAnswer`]). What each one answers to each list is `delta` of `specs/Delta.antt`, after the
//! Racket Reference, "Generic Numerics".
//!
//! A [`HostEntry`] is an operation with a function that is proved to do it, and a [`HostTable`] has
//! one entry for each operation. So who asks a table knows what it answers, whatever functions it
//! was made of. The functions of this crate are [`host_add`] to [`host_not`]. How an operation is
//! written, and how many arguments it takes, is in `specs/Operations.antt` ([`operation_named`],
//! [`operation_text`], [`takes`]). Laws and worked examples are proved ([`laws`]).
#![tactic(auto)]

mod answer;
mod arithmetic;
mod comparison;
mod entry;
mod equality;
mod integers;
pub mod laws;
mod operations;
mod refusal;
mod table;

pub use answer::HostAnswer;
pub use arithmetic::{
    host_add, host_add1, host_mul, host_quotient, host_remainder, host_sub, host_sub1,
};
pub use comparison::{host_eq, host_ge, host_gt, host_is_zero, host_le, host_lt};
pub use entry::HostEntry;
pub use equality::{host_equal, host_not};
pub use operations::{operation_named, operation_text, takes};
pub use refusal::TableRefusal;
pub use table::HostTable;
