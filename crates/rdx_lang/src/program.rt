// Programs, as the code has them.

use crate::{CheckedLang, CheckedPat, HostExpr, Template};
use rdx_term::Name;
use std::rc::RcStr;

/// What asks for a judgement.
#[derive(Drop)]
pub struct Premise {
    /// What the judgement goes by.
    pub judgement: Name,
    /// What makes its inputs, in their order.
    pub ins: Vec<Template>,
    /// What the list of its outputs has to match.
    pub outs: CheckedPat,
}

/// What a binding has to meet.
#[derive(Drop)]
pub enum Extra {
    /// `where`: what the template makes matches the pattern, whose names are bound from there on.
    Where(CheckedPat, Template),
    /// `side-condition`: the host expression does not make false.
    Side(HostExpr),
    /// The judgement has outputs for what the inputs make that match the pattern, whose names are
    /// bound from there on.
    Holds(Premise),
    /// `fresh`: the name is bound to a symbol that stands nowhere else.
    Fresh(Name),
}

/// A clause of a metafunction.
#[derive(Drop)]
pub struct Clause {
    /// Which lists of arguments it takes.
    pub args: CheckedPat,
    /// What makes the value.
    pub result: Template,
    /// What each binding has to meet, one after the other.
    pub extras: Vec<Extra>,
}

/// A metafunction.
#[derive(Drop)]
pub struct Metafunction {
    /// What the metafunction goes by.
    pub name: Name,
    /// The language of its patterns.
    pub language: Name,
    /// Its contract, where it has one: of the list of arguments, and of the value.
    pub contract: Option<(CheckedPat, CheckedPat)>,
    /// Its clauses, in their order.
    pub clauses: Vec<Clause>,
}

/// A rule of a judgement.
#[derive(Drop)]
pub struct JRule {
    /// What the rule goes by, where it has a name.
    pub name: Option<RcStr>,
    /// Which lists of inputs it is for.
    pub ins: CheckedPat,
    /// What each binding has to meet, one after the other: its premises.
    pub extras: Vec<Extra>,
    /// What makes the outputs, in their order.
    pub outs: Vec<Template>,
}

/// A judgement.
#[derive(Drop)]
pub struct Judgement {
    /// What the judgement goes by.
    pub name: Name,
    /// The language of its patterns.
    pub language: Name,
    /// Its mode: for each argument whether it is an input; else it is an output.
    pub inputs: Vec<bool>,
    /// Its contract, where it has one: of the list of inputs, and of the list of outputs.
    pub contract: Option<(CheckedPat, CheckedPat)>,
    /// Its rules, in their order.
    pub rules: Vec<JRule>,
}

/// A rule of a relation.
#[derive(Drop)]
pub struct Rule {
    /// What the rule goes by, where it has a name.
    pub name: Option<RcStr>,
    /// Which terms it takes a step from.
    pub pattern: CheckedPat,
    /// What each binding has to meet, one after the other.
    pub extras: Vec<Extra>,
    /// What the step leads to.
    pub result: Template,
}

/// A reduction relation.
#[derive(Drop)]
pub struct Relation {
    /// What the relation goes by.
    pub name: Name,
    /// The language of its patterns.
    pub language: Name,
    /// The terms that it is over, where it says so.
    pub domain: Option<CheckedPat>,
    /// Its rules, in their order.
    pub rules: Vec<Rule>,
}

/// What a file defines.
#[derive(Drop)]
pub struct Program {
    /// The languages, in the file's order.
    pub languages: Vec<CheckedLang>,
    /// The metafunctions, in the file's order.
    pub metafunctions: Vec<Metafunction>,
    /// The judgements, in the file's order.
    pub judgements: Vec<Judgement>,
    /// The relations, in the file's order.
    pub relations: Vec<Relation>,
}
