// What stands in a form of a relation, a metafunction or a judgement, the checks of it, and its reading.

pub mod checks;
pub(crate) mod clashes;
pub mod collecting;
pub mod faults;
pub mod names;
pub(crate) mod patterns;
pub mod readings;
pub mod refusals;
