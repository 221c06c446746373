// Templates and host expressions, as the code has them.

use crate::HostOp;
use rdx_term::{Name, Term};

/// What makes a term of a binding.
#[cycle(template)]
#[derive(Drop)]
pub enum Template {
    /// This term.
    Lit(Term),
    /// What the name stands for, with its depth: how many of the ellipses around the template it
    /// takes turns with.
    Var(Name, u32),
    /// `in-hole`: the context that the first makes, filled with what the second makes.
    Fill(Box<Template>, Box<Template>),
    /// The value of the metafunction of this name, for the list of what the items make.
    Call(Name, Vec<TItem>),
    /// `unquote`: what the host expression makes.
    Host(Box<HostExpr>),
    /// A list, of what its items make.
    Seq(Vec<TItem>),
}

/// An item of a list template.
#[cycle(template)]
#[derive(Drop)]
pub enum TItem {
    /// One term, by this template.
    One(Template),
    /// As many terms as the sequences have that the names in the template stand for.
    Many(Template),
}

/// A host expression.
#[cycle(template)]
#[derive(Drop)]
pub enum HostExpr {
    /// `(term t)`: what the template makes.
    Term(Template),
    /// This integer.
    Int(i128),
    /// This truth value.
    Bool(bool),
    /// What the operation answers to what the expressions make.
    Call(HostOp, Vec<HostExpr>),
    /// `and`: the first false among what the expressions make, else the last; true where there are
    /// none.
    And(Vec<HostExpr>),
    /// `or`: the first among what the expressions make that is not false, else false.
    Or(Vec<HostExpr>),
}
