// The order of values, of bindings and of splits.
ghost use Rattle.std.specs.Prelude.{◌≡◌, map};
ghost use Rattle.rdx_lang.specs.Bindings.{values};
ghost use Rattle.std.specs.Cmp.Lexicographic.{slice_cmp};
ghost use Rattle.rdx_term.specs.Order.{tree_cmp};
ghost use Rattle.rdx_term.specs.View.{tree_of};
ghost use Rattle.rdx_lang.specs.Order.{value_kind, value_cmp, values_cmp, pair_cmp, pairs_cmp, mismatch_cmp, mismatches_cmp, binding_cmp, decomposition_cmp};
ghost use Rattle.rdx_lang.specs.BindingView.{value_of, pair_of, pairs_of, mismatch_of, mismatches_of};
ghost use Rattle.rdx_lang.specs.Shown.{binding_of, decomposition_of};

use crate::{Binding, Split, Value};
use rdx_term::{Name, Term};
use std::cmp::Ordering;

// The place of a value's kind in the order.
fn kind(value: &Value) -> u8
    ensures { result ≡ value_kind (value_of value.now) }
{
    match value {
        Value::One(_) => 0,
        Value::Many(_) => 1,
        Value::Len(_) => 2,
    }
}

impl Value {
    /// Values compare by their kinds, one term before a sequence before a length; then terms as terms
    /// do, marks included, sequences value by value, a proper prefix first, and lengths by number.
    #[cycle(compare_value)]
    pub fn compare(&self, other: &Value) -> Ordering
        ensures { result ≡ value_cmp (value_of self.now) (value_of other.now) }
    {
        match (self, other) {
            (Value::One(a), Value::One(b)) => a.compare(b),
            (Value::Many(a), Value::Many(b)) => compare_values(a, b),
            (Value::Len(a), Value::Len(b)) => a.cmp(b),
            (Value::One(_), Value::Many(_) | Value::Len(_))
            | (Value::Many(_), Value::One(_) | Value::Len(_))
            | (Value::Len(_), Value::One(_) | Value::Many(_)) => kind(self).cmp(&kind(other)),
        }
    }
}

// Sequences compare value by value, a proper prefix first.
#[cycle(compare_value)]
fn compare_values(a: &[Value], b: &[Value]) -> Ordering
    ensures { result ≡ values_cmp (values (map value_of a.now)) (values (map value_of b.now)) }
{
    let shorter = a.len().min(b.len());
    for i in 0..shorter {
        let order = a[i].compare(&b[i]);
        if order != Ordering::Equal {
            return order;
        }
    }
    a.len().cmp(&b.len())
}

fn compare_pairs(a: &(Name, Value), b: &(Name, Value)) -> Ordering
    ensures { result ≡ pair_cmp (pair_of a.now) (pair_of b.now) }
{
    a.0.text().cmp(b.0.text()).then(a.1.compare(&b.1))
}

// Pairs compare one by one, a proper prefix first.
fn compare_all_pairs(a: &[(Name, Value)], b: &[(Name, Value)]) -> Ordering
    ensures { result ≡ pairs_cmp (pairs_of a.now) (pairs_of b.now) }
{
    let shorter = a.len().min(b.len());
    for i in 0..shorter {
        let order = compare_pairs(&a[i], &b[i]);
        if order != Ordering::Equal {
            return order;
        }
    }
    a.len().cmp(&b.len())
}

// Terms compare one by one, a proper prefix first.
fn compare_terms(a: &[Term], b: &[Term]) -> Ordering
    ensures { result ≡ slice_cmp tree_cmp (map tree_of a.now) (map tree_of b.now) }
{
    let shorter = a.len().min(b.len());
    for i in 0..shorter {
        let order = a[i].compare(&b[i]);
        if order != Ordering::Equal {
            return order;
        }
    }
    a.len().cmp(&b.len())
}

// Two mismatch names compare by the names, then by their sets, term by term.
fn compare_sets(a: &(Name, Vec<Term>), b: &(Name, Vec<Term>)) -> Ordering
    ensures { result ≡ mismatch_cmp (mismatch_of a.now) (mismatch_of b.now) }
{
    a.0.text().cmp(b.0.text()).then(compare_terms(&a.1, &b.1))
}

// Mismatch names with their sets compare one by one, a proper prefix first.
fn compare_all_sets(a: &[(Name, Vec<Term>)], b: &[(Name, Vec<Term>)]) -> Ordering
    ensures { result ≡ mismatches_cmp (mismatches_of a.now) (mismatches_of b.now) }
{
    let shorter = a.len().min(b.len());
    for i in 0..shorter {
        let order = compare_sets(&a[i], &b[i]);
        if order != Ordering::Equal {
            return order;
        }
    }
    a.len().cmp(&b.len())
}

impl Binding {
    /// Bindings compare pair by pair, by the bytes of the name and then by the value, a proper
    /// prefix first; then, in the same way, by their mismatch names with their sets.
    pub fn compare(&self, other: &Binding) -> Ordering
        ensures { result ≡ binding_cmp (binding_of self.now) (binding_of other.now) }
    {
        compare_all_pairs(self.pairs(), other.pairs()).then(compare_all_sets(
            self.differs(),
            other.differs(),
        ))
    }
}

impl PartialEq for Binding {
    ghost use Rattle.std.specs.Ordering.{on, eq_by_cmp};
    ghost use Rattle.std.specs.Cmp.{partial_equiv_from_equiv, on_equiv, eq_by_cmp_equiv};
    ghost use Rattle.rdx_lang.specs.Order.{binding_cmp};
    ghost use Rattle.rdx_lang.specs.Model.TotalOrders.{binding_cmp-total};
    ghost use Rattle.rdx_lang.specs.Shown.{binding_of};

    ghost eq = { on binding_of (eq_by_cmp binding_cmp) };

    ghost laws = { partial_equiv_from_equiv (on_equiv binding_of (eq_by_cmp_equiv binding_cmp-total)) };

    fn eq(&self, other: &Binding) -> bool {
        self.compare(other) == Ordering::Equal
    }
}

impl Eq for Binding {
    ghost use Rattle.std.specs.Cmp.{on_equiv, eq_by_cmp_equiv};
    ghost use Rattle.rdx_lang.specs.Model.TotalOrders.{binding_cmp-total};
    ghost use Rattle.rdx_lang.specs.Shown.{binding_of};

    ghost laws = { on_equiv binding_of (eq_by_cmp_equiv binding_cmp-total) };
}

impl PartialOrd for Binding {
    ghost use Rattle.std.specs.Ordering.{on, as_partial_cmp};
    ghost use Rattle.std.specs.Cmp.{on_po, partial_order_from_total};
    ghost use Rattle.rdx_lang.specs.Order.{binding_cmp};
    ghost use Rattle.rdx_lang.specs.Model.TotalOrders.{binding_cmp-total};
    ghost use Rattle.rdx_lang.specs.Shown.{binding_of};

    ghost partial_cmp = { on binding_of (as_partial_cmp binding_cmp) };

    ghost laws = { on_po binding_of (partial_order_from_total binding_cmp-total) };

    fn partial_cmp(&self, other: &Binding) -> Option<Ordering> {
        Some(self.compare(other))
    }
}

impl Ord for Binding {
    ghost use Rattle.std.proofs.Common.{refl};
    ghost use Rattle.std.specs.Ordering.{on};
    ghost use Rattle.std.specs.Cmp.{on_total};
    ghost use Rattle.rdx_lang.specs.Order.{binding_cmp};
    ghost use Rattle.rdx_lang.specs.Model.TotalOrders.{binding_cmp-total};
    ghost use Rattle.rdx_lang.specs.Shown.{binding_of};

    ghost cmp = { on binding_of binding_cmp };

    ghost total = { on_total binding_of binding_cmp-total };

    ghost matches_partial_cmp = { λ _ _. refl };

    ghost matches_eq = { λ _ _. refl };

    fn cmp(&self, other: &Binding) -> Ordering {
        self.compare(other)
    }
}

impl Split {
    /// Splits compare by the context, then by the part, then by the binding.
    pub fn compare(&self, other: &Split) -> Ordering
        ensures { result ≡ decomposition_cmp (decomposition_of self.now) (decomposition_of other.now) }
    {
        self.context
            .compare(&other.context)
            .then(self.part.compare(&other.part))
            .then(self.binding.compare(&other.binding))
    }
}

impl PartialEq for Split {
    ghost use Rattle.std.specs.Ordering.{on, eq_by_cmp};
    ghost use Rattle.std.specs.Cmp.{partial_equiv_from_equiv, on_equiv, eq_by_cmp_equiv};
    ghost use Rattle.rdx_lang.specs.Order.{decomposition_cmp};
    ghost use Rattle.rdx_lang.specs.Model.TotalOrders.{decomposition_cmp-total};
    ghost use Rattle.rdx_lang.specs.Shown.{decomposition_of};

    ghost eq = { on decomposition_of (eq_by_cmp decomposition_cmp) };

    ghost laws = { partial_equiv_from_equiv (on_equiv decomposition_of (eq_by_cmp_equiv decomposition_cmp-total)) };

    fn eq(&self, other: &Split) -> bool {
        self.compare(other) == Ordering::Equal
    }
}

impl Eq for Split {
    ghost use Rattle.std.specs.Cmp.{on_equiv, eq_by_cmp_equiv};
    ghost use Rattle.rdx_lang.specs.Model.TotalOrders.{decomposition_cmp-total};
    ghost use Rattle.rdx_lang.specs.Shown.{decomposition_of};

    ghost laws = { on_equiv decomposition_of (eq_by_cmp_equiv decomposition_cmp-total) };
}

impl PartialOrd for Split {
    ghost use Rattle.std.specs.Ordering.{on, as_partial_cmp};
    ghost use Rattle.std.specs.Cmp.{on_po, partial_order_from_total};
    ghost use Rattle.rdx_lang.specs.Order.{decomposition_cmp};
    ghost use Rattle.rdx_lang.specs.Model.TotalOrders.{decomposition_cmp-total};
    ghost use Rattle.rdx_lang.specs.Shown.{decomposition_of};

    ghost partial_cmp = { on decomposition_of (as_partial_cmp decomposition_cmp) };

    ghost laws = { on_po decomposition_of (partial_order_from_total decomposition_cmp-total) };

    fn partial_cmp(&self, other: &Split) -> Option<Ordering> {
        Some(self.compare(other))
    }
}

impl Ord for Split {
    ghost use Rattle.std.proofs.Common.{refl};
    ghost use Rattle.std.specs.Ordering.{on};
    ghost use Rattle.std.specs.Cmp.{on_total};
    ghost use Rattle.rdx_lang.specs.Order.{decomposition_cmp};
    ghost use Rattle.rdx_lang.specs.Model.TotalOrders.{decomposition_cmp-total};
    ghost use Rattle.rdx_lang.specs.Shown.{decomposition_of};

    ghost cmp = { on decomposition_of decomposition_cmp };

    ghost total = { on_total decomposition_of decomposition_cmp-total };

    ghost matches_partial_cmp = { λ _ _. refl };

    ghost matches_eq = { λ _ _. refl };

    fn cmp(&self, other: &Split) -> Ordering {
        self.compare(other)
    }
}
