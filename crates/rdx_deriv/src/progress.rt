// Where a rule's extras stand, and what is read of the goals that are left.

use crate::Deriv;
use rdx_lang::{Binding, JRule};
use rdx_term::{Name, Term};

/// What is bound so far, and the derivations whose goals are left.
#[derive(Drop)]
pub(crate) struct Standing<'a> {
    /// What is bound.
    pub binding: Binding,
    /// What is left under the node.
    pub under: &'a [Deriv],
}

/// What fresh names avoid: the symbols of a whole term, and what the names stand for that were bound
/// freshly before.
#[derive(Drop)]
pub struct Avoided<'a> {
    /// The whole term.
    pub whole: &'a Term,
    /// The names.
    pub names: Vec<&'a Name>,
}

/// A rule of a judgement, with the name of the judgement's language.
#[derive(Clone, Copy)]
pub(crate) struct ChosenRule<'a> {
    /// The name of the language.
    pub language: &'a Name,
    /// The rule.
    pub rule: &'a JRule,
}

/// The first goal, read as a match, and what is left behind it.
#[derive(Clone, Copy)]
pub(crate) struct FirstMatch<'a> {
    /// What the match binds.
    pub binding: &'a Binding,
    /// What is left.
    pub behind: &'a [Deriv],
}

/// The first goal, read as one of a judgement, and what is left behind it.
#[derive(Clone, Copy)]
pub(crate) struct FirstJudged<'a> {
    /// The outputs.
    pub outputs: &'a Term,
    /// What is left.
    pub behind: &'a [Deriv],
}
