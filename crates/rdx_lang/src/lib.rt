//! Patterns, languages and bindings, and what a matcher is.
//!
//! A pattern says which terms it matches, and what its names stand for in each of them. A language
//! gives each of its nonterminals a list of patterns, its alternatives. Both follow the pattern
//! language of PLT Redex (the Redex reference manual, "Patterns"; Klein, McCarthy, Jaconette and
//! Findler, "A semantics for context-sensitive reduction semantics", APLAS 2011).
//!
//! What the names of a pattern stand for is a [`Binding`], a finite map. With which bindings a
//! pattern matches a term, and into which contexts and parts it splits one, are two relations, the
//! least with the rules of `specs/Rules.antt`; a [`Matcher`] lists these bindings, and these splits,
//! ascending and each once. It is given a language and a pattern that passed their checks, a
//! [`CheckedLang`] and a [`CheckedPat`].
//!
//! A checked language carries its [`Ranks`], a number for each node of its alternatives that is
//! greater than those of the nodes that are matched against the same term: the part of a named, a
//! hidden or a closed pattern, the left part of an `in-hole`, and the right one where the left one
//! takes nothing off, and the alternatives of a nonterminal. So none of its nonterminals leads to
//! itself with nothing of a term taken off between, which is what lets a search end.
//!
//! [`laws`] has what follows from the definitions: two bindings have a join exactly where they
//! agree, and one at most; a pattern has one listing of its bindings for a term, and one of its
//! splits; each of these binds exactly the pattern's names; a split is fixed by the path to its part
//! and fills to the term; and where ranks fall, no nonterminal leads to itself.
#![tactic(auto)]

mod binding;
mod bound_names;
mod checked;
mod depths;
mod facts;
mod key;
mod language;
pub mod laws;
mod lookup;
mod matcher;
mod names;
mod operation;
mod order;
mod pattern;
mod program;
mod reference;
mod sharing;
mod split;
mod template;
mod uses;
mod variants;
mod well_formed;

pub use binding::{Binding, Value};
pub use checked::{CheckedLang, CheckedPat};
pub use depths::Depths;
pub use facts::{Each, Facts, Known, May};
pub use language::{Language, Ranks};
pub use matcher::Matcher;
pub use operation::HostOp;
pub use pattern::{Item, Kind, Pat, Ref};
pub use program::{
    Clause, Extra, JRule, Judgement, Metafunction, Premise, Program, Relation, Rule,
};
pub use split::Split;
pub use template::{HostExpr, TItem, Template};
pub use variants::{first_variant, variant};
