// Patterns, as the code has them.

use rdx_term::{Name, Term};

/// The terms that a built-in pattern name stands for.
#[derive(Clone, Copy, Debug, PartialEq, Eq)]
pub enum Kind {
    /// `any`: each term.
    Any,
    /// `number`: each integer.
    Number,
    /// `natural`: each integer that isn't negative.
    Natural,
    /// `integer`: each integer.
    Integer,
    /// `real`: each integer.
    Real,
    /// `string`: each string.
    Text,
    /// `boolean`: each truth value.
    Boolean,
    /// `variable`: each symbol.
    Variable,
    /// `variable-not-otherwise-mentioned`: each symbol that no alternative of the language has as a
    /// literal.
    Unmentioned,
}

/// What a nonterminal goes by.
#[derive(Drop)]
pub enum Ref {
    /// A nonterminal of this name.
    Nt(Name),
    /// The contexts from the first nonterminal to the second.
    Cross(Name, Name),
}

/// A pattern.
#[cycle(pattern)]
#[derive(Drop)]
pub enum Pat {
    /// `_`: each term.
    Wild,
    /// The terms of a built-in name.
    Kind(Kind),
    /// The symbols other than these.
    Except(Vec<Name>),
    /// The symbols that begin so.
    Prefix(Name),
    /// `hole`: the hole; it splits each term into the hole and the term.
    Hole,
    /// This term alone, marks forgotten.
    Lit(Term),
    /// What an alternative of the nonterminal matches.
    Nt(Ref),
    /// What the inner pattern matches, or what it splits; the name stands for the term, or for the
    /// context.
    Named(Name, Box<Pat>),
    /// What the inner pattern matches, or what it splits; all terms, or contexts, under the mismatch
    /// name differ.
    Differ(Name, Box<Pat>),
    /// `in-hole`: what the first pattern splits into a context and a part that the second matches.
    InHole(Box<Pat>, Box<Pat>),
    /// `hide-hole`: what the inner pattern matches; it splits nothing.
    HideHole(Box<Pat>),
    /// What the inner pattern matches or splits; no name of it stands for anything.
    Closed(Box<Pat>),
    /// A list, each item by its pattern.
    Seq(Vec<Item>),
}

/// An item of a list pattern.
#[cycle(pattern)]
#[derive(Drop)]
pub enum Item {
    /// One term, by this pattern.
    One(Pat),
    /// Any number of terms, each by this pattern; the name, where there is one, stands for their
    /// number.
    Many(Pat, Option<Name>),
}
