// What is pending while a term is generated: what waits for terms, and what is done next.

use crate::setting::Scope;
use rdx_lang::{Item, Pat};
use rdx_term::{Name, Term};

/// Where the context in a list stands.
#[derive(Clone, Copy)]
pub(crate) enum Spot<'p> {
    /// There is none.
    Nowhere,
    /// It comes of the item at this place among those that are to come.
    Ahead(usize),
    /// It comes next, of the pattern of a repetition with this length name, and more terms of that
    /// behind it.
    Here(&'p Pat, &'p Option<Name>),
    /// It is the term at this place among those that are there.
    Behind(usize),
}

/// A list of which some terms are there.
#[derive(Drop)]
pub(crate) struct Row<'p> {
    pub(crate) scope: Scope<'p>,
    pub(crate) spot: Spot<'p>,
    /// What the items so far gave.
    pub(crate) found: Vec<Term>,
    /// The items that are to come.
    pub(crate) rest: &'p [Item],
}

/// What waits for a term.
#[derive(Drop)]
pub(crate) enum Frame<'p> {
    /// The name has it from there on.
    Keep(&'p Name),
    /// It is a context, to be filled with a term of this pattern.
    Term(Scope<'p>, &'p Pat),
    /// It is a context, to be filled with a context of this pattern.
    Context(Scope<'p>, &'p Pat),
    /// What this context is filled with.
    Part(Term),
    /// An item of a list.
    Item(Row<'p>),
    /// A term of a repetition of this pattern, before so many more, and before the rest of a list.
    Turn(&'p Pat, usize, Row<'p>),
    /// The context of a list, before more terms of the repetition of which it is one.
    Beside(&'p Pat, &'p Option<Name>, Row<'p>),
}

/// What is done next.
#[derive(Drop)]
pub(crate) enum Next<'p> {
    /// A term of the pattern is generated.
    Term(Scope<'p>, &'p Pat),
    /// A context of the pattern is.
    Context(Scope<'p>, &'p Pat),
    /// The rest of a list is.
    Row(Row<'p>),
    /// This was made: the frame on top takes it.
    Made(Term),
}

/// What a step leads to.
#[derive(Drop)]
pub(crate) enum Move<'p> {
    /// This is done next, and what comes of it takes the place of what was to be done.
    Goes(Next<'p>),
    /// This is done next, and the frame waits for what comes of it.
    Waits(Frame<'p>, Next<'p>),
}
