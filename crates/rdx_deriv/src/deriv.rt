// Derivations.

use crate::Goal;
use rdx_lang::{Binding, Pat};
use rdx_term::{Name, Term};

/// A derivation: what is derived, by which choice, and what it is derived from.
pub struct Deriv {
    /// What is derived.
    pub goal: Goal,
    /// The choice.
    pub choice: Vec<usize>,
    /// The derivations right under it.
    pub under: Vec<Deriv>,
}

// Drops what a match says.
fn drop_match(_name: Name, _pat: Pat, _t: Term, _b: Binding) {}

// Drops the context and the part of a split.
fn drop_parts(_context: Term, _part: Term) {}

// Drops a goal.
fn drop_goal(goal: Goal) {
    match goal {
        Goal::Match(name, pat, t, b) => drop_match(name, pat, t, b),
        Goal::Split(name, pat, t, context, part, b) => {
            drop_parts(context, part);
            drop_match(name, pat, t, b)
        }
        Goal::Judge(_, inputs, outputs) => drop_parts(inputs, outputs),
    }
}

// A loop, so that a deep derivation does not run out of stack; where memory is wanting for it, what is left is
// dropped level by level.
impl Drop for Deriv {
    fn drop(self) {
        let mut left = self.apart();
        while let Some(next) = left.pop() {
            let mut under = next.apart();
            let _ = left.append(&mut under);
        }
    }
}

impl Deriv {
    ghost use Rattle.std.specs.Prelude.{◌≡◌, ◌<◌, map};
    ghost use Rattle.rdx_deriv.specs.Derivations.{root, chosen, derivations, under};
    ghost use Rattle.rdx_deriv.specs.DerivationView.{goal_of, derivation_of};
    ghost use Rattle.rdx_deriv.specs.declared.deriv.Deriv.{size-Deriv};
    ghost use denote.Param.Weighed.{most};

    // What stands right under it; all else is dropped.
    fn apart(self) -> Vec<Deriv>
        ensures smaller { most size-Deriv result.items < size-Deriv self }
        ensures under { derivations (map derivation_of result.items) ≡ under (derivation_of self) }
    {
        let Deriv {
            goal,
            choice: _,
            under,
        } = self;
        drop_goal(goal);
        under
    }

    // What is derived in the end.
    pub(crate) fn goal(&self) -> &Goal
        ensures { goal_of result.now ≡ root (derivation_of self.now) }
    {
        &self.goal
    }

    // The choice.
    pub(crate) fn choice(&self) -> &[usize]
        ensures { result.now ≡ chosen (derivation_of self.now) }
    {
        &self.choice
    }

    // What stands right under it.
    pub(crate) fn under(&self) -> &[Deriv]
        ensures { derivations (map derivation_of result.now) ≡ under (derivation_of self.now) }
    {
        &self.under
    }
}
