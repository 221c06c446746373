//! The outside of a program: where its bytes come from and where they go.
//!
//! A [`Source`] gives bytes in pieces and a [`Sink`] takes them in pieces. Each counts its faults,
//! so that a caller who sees a failure can show that the outside had one. The bytes that a source
//! has left and those that a sink holds are told where they are known: in memory they are, and
//! over std they are not.
//!
//! | Type | What it is |
//! |---|---|
//! | [`StdSource`], [`StdSink`] | a reader and a writer of std |
//! | [`MemSource`], [`MemSink`] | memory, with calls that fail by plan |
//! | [`SteadySource`], [`SteadySink`] | memory, and no call fails |
//!
//! [`Place`] and [`Span`] say where something stands in a text.
#![tactic(auto)]

mod mem_sink;
mod mem_source;
mod place;
mod sink;
mod source;
mod std_sink;
mod std_source;
mod steady_sink;
mod steady_source;

pub use mem_sink::MemSink;
pub use mem_source::MemSource;
pub use place::{Place, Span};
pub use sink::{Put, Sink};
pub use source::{Source, Taken};
pub use std_sink::StdSink;
pub use std_source::StdSource;
pub use steady_sink::SteadySink;
pub use steady_source::SteadySource;
