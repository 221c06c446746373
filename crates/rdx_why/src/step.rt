// A use of a rule.

use rdx_deriv::Goal;

/// A use of a rule: the choice, and the goals right under it.
#[derive(Drop)]
pub(crate) struct Step {
    /// The choice.
    pub choice: Vec<usize>,
    /// The goals.
    pub under: Vec<Goal>,
}
