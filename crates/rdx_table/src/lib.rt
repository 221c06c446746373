//! The matcher with a memo. What it works on, the nodes of patterns and the ids of terms, is in `rdx_nodes`.
#![tactic(auto)]

mod cells;
mod columns;
mod cut;
mod forms;
mod frame;
mod items;
mod look;
mod memo;
mod solve;
mod table;
mod task;

pub use table::Table;
