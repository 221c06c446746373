//! What a search works on before anything is searched.
//!
//! A pattern is a list of numbered nodes, each made of nodes before it ([`node`]). A [`setting::Setting`] has a language, the nodes of
//! patterns over it, and terms by ids: [`setting::Setting::add`] makes the nodes of a pattern, and [`setting::Setting::open`] those of the
//! alternatives of a nonterminal, once a search comes to it. Where the nonterminals of languages stand is kept by [`places`], and the term
//! of the last call by [`interned`].
//!
//! The other modules have what a search wants that needs no search: rows where the term alone decides ([`by_term`]), what an entry
//! of a memo keeps of a row ([`entry`]), and what is made of spots of interned terms ([`splitting`]).
#![tactic(auto)]

pub mod by_term;
pub mod entry;
mod index;
pub mod interned;
pub mod node;
mod numbering;
mod once;
pub mod places;
pub mod setting;
pub mod splitting;
