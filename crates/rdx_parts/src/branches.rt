// What cases, clauses and rules have in common.

use crate::arguments::Arguments;
use crate::extras::ExtraPlace;
use rdx_sexp::Datum;

/// What a case or a clause takes.
#[derive(Clone, Copy)]
pub enum Takes<'a> {
    /// One term, by this pattern.
    One(&'a Datum),
    /// A list of arguments, by these items of a list pattern.
    Several(&'a [Datum]),
}

/// A case or a clause without its arrow or its name.
#[derive(Clone, Copy)]
pub struct Branch<'a> {
    pub takes: Takes<'a>,
    /// Where its extras stand: in a case or in a clause.
    pub place: ExtraPlace,
    pub extras: &'a [Datum],
    pub result: &'a Datum,
}

/// A rule of a judgement, by the arguments of its conclusion.
#[derive(Clone, Copy)]
pub struct RuleBranch<'m, 'a> {
    pub arguments: Arguments<'m, 'a>,
    pub premises: &'a [Datum],
    /// Whether the conclusion is written behind the premises.
    pub is_last: bool,
}

/// A premise by itself, and the template behind it, where there is one.
#[derive(Clone, Copy)]
pub struct Question<'a> {
    pub premise: &'a Datum,
    pub result: Option<&'a Datum>,
}

/// What the checks that have to know what is bound, and the reading, want of a form.
#[derive(Drop)]
pub struct Outline<'m, 'a> {
    /// Patterns that stand by themselves.
    pub alone: Vec<&'a Datum>,
    /// Its cases or its clauses.
    pub branches: Vec<Branch<'a>>,
    /// Its rules of a judgement.
    pub rules: Vec<RuleBranch<'m, 'a>>,
    /// Premises by themselves.
    pub questions: Vec<Question<'a>>,
}
