// The order of steps.
ghost use Rattle.std.specs.Prelude.{◌≡◌};
ghost use Rattle.rdx_reduce.specs.Steps.{step_cmp};
ghost use Rattle.rdx_reduce.specs.StepView.{step_of};

use crate::Step;
use std::cmp::Ordering;

impl Step {
    /// Steps compare by the places of their rules, then by their reducts.
    pub fn compare(&self, other: &Step) -> Ordering
        ensures { result ≡ step_cmp (step_of self.now) (step_of other.now) }
    {
        self.rule
            .cmp(&other.rule)
            .then(self.reduct.compare(&other.reduct))
    }
}

impl PartialEq for Step {
    ghost use Rattle.std.specs.Ordering.{on, eq_by_cmp};
    ghost use Rattle.std.specs.Cmp.{partial_equiv_from_equiv, on_equiv, eq_by_cmp_equiv};
    ghost use Rattle.rdx_reduce.specs.Model.TotalOrder.{step_cmp-total};
    ghost use Rattle.rdx_reduce.specs.Steps.{step_cmp};
    ghost use Rattle.rdx_reduce.specs.StepView.{step_of};

    ghost eq = { on step_of (eq_by_cmp step_cmp) };

    ghost laws = { partial_equiv_from_equiv (on_equiv step_of (eq_by_cmp_equiv step_cmp-total)) };

    fn eq(&self, other: &Step) -> bool {
        self.compare(other) == Ordering::Equal
    }
}

impl Eq for Step {
    ghost use Rattle.std.specs.Cmp.{on_equiv, eq_by_cmp_equiv};
    ghost use Rattle.rdx_reduce.specs.Model.TotalOrder.{step_cmp-total};
    ghost use Rattle.rdx_reduce.specs.StepView.{step_of};

    ghost laws = { on_equiv step_of (eq_by_cmp_equiv step_cmp-total) };
}

impl PartialOrd for Step {
    ghost use Rattle.std.specs.Ordering.{on, as_partial_cmp};
    ghost use Rattle.std.specs.Cmp.{on_po, partial_order_from_total};
    ghost use Rattle.rdx_reduce.specs.Model.TotalOrder.{step_cmp-total};
    ghost use Rattle.rdx_reduce.specs.Steps.{step_cmp};
    ghost use Rattle.rdx_reduce.specs.StepView.{step_of};

    ghost partial_cmp = { on step_of (as_partial_cmp step_cmp) };

    ghost laws = { on_po step_of (partial_order_from_total step_cmp-total) };

    fn partial_cmp(&self, other: &Step) -> Option<Ordering> {
        Some(self.compare(other))
    }
}

impl Ord for Step {
    ghost use Rattle.std.proofs.Common.{refl};
    ghost use Rattle.std.specs.Ordering.{on};
    ghost use Rattle.std.specs.Cmp.{on_total};
    ghost use Rattle.rdx_reduce.specs.Model.TotalOrder.{step_cmp-total};
    ghost use Rattle.rdx_reduce.specs.Steps.{step_cmp};
    ghost use Rattle.rdx_reduce.specs.StepView.{step_of};

    ghost cmp = { on step_of step_cmp };

    ghost total = { on_total step_of step_cmp-total };

    ghost matches_partial_cmp = { λ _ _. refl };

    ghost matches_eq = { λ _ _. refl };

    fn cmp(&self, other: &Step) -> Ordering {
        self.compare(other)
    }
}
