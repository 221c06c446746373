//! The matcher.
//!
//! [`Plain`] finds the bindings by which a pattern matches a term, and the contexts and parts into which it splits one, by plain
//! recursion on both. Its clauses are those of the trait [`Matcher`](rdx_lang::Matcher), for every language that passed its checks and
//! every pattern: the list ascends strictly, and has exactly what the rules of matching or of splitting derive, without the mismatch
//! names, each once, however many derivations it has. A nonterminal that the language lacks has no alternatives, and neither matches nor splits anything.
//!
//! The search goes to a limited depth, since the machine's stack is limited, and answers want of memory where it would go deeper; so
//! it ends. The items of a list pattern are matched from the first on, and where one has no binding the others are left out, unless it
//! may be the one that is split. From the first repetition of a list pattern to its last, each item meets each term at most once, at
//! the places that can be reached, and what they bind is put together from the last item to the first, in all layouts. Each part of a
//! term is searched anew each time that it is met, so the time may grow fast with the term.
//!
//! What needs no search, rows of bindings and of splits and what comes across them, stands in [`rdx_bind`].
#![tactic(auto)]

mod extending;
mod plain;
mod room;
mod search;
mod sorting;

pub use plain::Plain;
