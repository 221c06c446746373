//! Unit tests of the crates below, of what no file of the program reaches.
//!
//! There is nothing to call here. A crate with tests is proved a second time for them, so these stand by themselves, in a crate whose
//! own proof is empty. Each module is about one subject. What a file reaches is tested by files: in `cases/`, and by the tests of the
//! program's own crate where memory takes the place of standard input and output.
#![tactic(auto)]

#[cfg(test)]
mod bindings;
#[cfg(test)]
mod contexts;
#[cfg(test)]
mod data;
#[cfg(test)]
mod definitions;
#[cfg(test)]
mod derivations;
#[cfg(test)]
mod ends;
#[cfg(test)]
mod generated;
#[cfg(test)]
mod languages;
#[cfg(test)]
mod making;
#[cfg(test)]
mod matchers;
#[cfg(test)]
mod operations;
#[cfg(test)]
mod recursion;
#[cfg(test)]
mod store;
#[cfg(test)]
mod terms;
