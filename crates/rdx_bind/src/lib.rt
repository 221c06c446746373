//! Bindings put together, and all of matching that needs no search.
//!
//! A [`Binding`](rdx_lang::Binding) is a finite map from names to values, beside one from mismatch names to sets of terms. [`join`] puts
//! two of them together, and [`join_into`] where one is of no more use; [`one`] makes that of a name alone, [`differ`] that of a mismatch
//! name with one term, [`visible`] leaves mismatch names out, and [`collect`] gives each name the sequence of what it stands for in each
//! of several bindings, as a repetition does. [`compare`] is the order of bindings, [`is_same`] says whether two are equal, and [`listing`] and [`listing_splits`] put what a
//! search found into that order, each once.
//!
//! The modules are for those who write a matcher: given what the parts of a pattern bind, and where they split their terms, they find
//! what the whole does. Patterns that match by the term alone stand in [`atoms`]. A split is kept as a [`Spot`](spots::Spot), a path
//! ([`Trail`](trail::Trail)) and a binding; a name that a pattern gives its terms is a [`Naming`](naming::Naming); [`extending`] and [`spots`] put spots together, and [`combining`] lists of bindings. A list pattern is cut by
//! [`parts`]. What an item binds and where it splits is a [`Row`](rows::Row), and [`rows`] is what comes across rows. Items with
//! repetitions are columns of rows, one for each place of the list, which are made where something is asked ([`asks`]): that of one
//! item by [`columns`], that of a repetition by [`turns`].
#![tactic(auto)]

pub mod asks;
pub mod atoms;
pub mod choices;
mod collecting;
pub mod columns;
pub mod combining;
pub mod extending;
mod joining;
pub mod literals;
pub mod naming;
pub mod parts;
pub mod repetition;
pub mod rows;
pub mod seen;
mod sets;
mod single;
mod sorting;
mod splits;
pub mod spots;
pub mod trail;
pub mod turn_matches;
pub mod turn_spots;
pub mod turns;
pub mod ways;

pub use collecting::collect;
pub use joining::{join, join_into};
pub use single::{differ, one, visible};
pub use sorting::{compare, is_same, listing};
pub use splits::listing_splits;
