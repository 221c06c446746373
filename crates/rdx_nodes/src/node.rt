// The nodes of patterns: a pattern by the numbers of the nodes of its parts.
use rdx_bind::naming::Naming;
use rdx_lang::{Kind, Pat, Ref};
use rdx_term::{Name, Term};

/// A repetition.
#[derive(Drop)]
pub struct Turns<'a> {
    /// The number of the node of its pattern.
    pub number: usize,
    /// The names that this pattern binds, ascending.
    pub names: Vec<Name>,
    /// The name for the number of its turns, where it has one.
    pub length: Option<&'a Name>,
}

/// An item of a list pattern.
#[derive(Drop)]
pub enum Entry<'a> {
    /// One term, by the number of the node of its pattern.
    One(usize),
    /// Any number of terms.
    Many(Turns<'a>),
}

/// A nonterminal.
#[derive(Drop)]
pub struct Nonterminal<'a> {
    /// What it goes by.
    pub name: &'a Ref,
    /// Its alternatives.
    pub alternatives: &'a [Pat],
    /// The numbers of the nodes that stand for the alternatives, once they are made.
    pub opened: Option<Vec<usize>>,
}

/// A pattern, its parts by the numbers of their nodes.
#[derive(Drop)]
pub enum Form<'a> {
    /// Each term.
    Wild,
    /// The terms of a built-in name.
    Kind(Kind),
    /// The symbols other than these.
    Except(&'a [Name]),
    /// The symbols that begin so.
    Prefix(&'a Name),
    /// The hole.
    Hole,
    /// This term alone, marks forgotten.
    Lit(&'a Term),
    /// A nonterminal.
    Nt(Nonterminal<'a>),
    /// A pattern with a name, or with a mismatch name.
    Named(Naming<'a>, usize),
    /// A pattern in the hole of another, which comes first.
    InHole(usize, usize),
    /// A pattern that splits nothing.
    HideHole(usize),
    /// A pattern whose names stand for nothing outside.
    Closed(usize),
    /// A list pattern.
    Seq(Vec<Entry<'a>>),
}

/// A node.
#[derive(Drop)]
pub struct Node<'a> {
    /// What it stands for, over the nodes of its parts.
    pub form: Form<'a>,
    /// Whether what is found for it is remembered: several parts of patterns may ask for it.
    pub kept: bool,
}
