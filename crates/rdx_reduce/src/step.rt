// Steps, as the code has them.

use rdx_term::Term;

/// A step of a relation.
#[derive(Drop)]
pub struct Step {
    /// The place of the rule among those of the relation, from 0.
    pub rule: usize,
    /// The term that the step leads to.
    pub reduct: Term,
}
