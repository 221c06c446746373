// Names as keys of ordered maps and sets: by their bytes.
use rdx_term::Name;
use std::cmp::Ordering;

/// A name, in the order of its bytes.
#[derive(Drop)]
pub(crate) struct Key {
    pub(crate) name: Name,
}

impl Key {
    ghost use Rattle.std.specs.Prelude.{◌≡◌};
    ghost use Rattle.rdx_lang.specs.Bindings.{name_cmp};

    /// The key of this name.
    pub(crate) fn new(name: Name) -> Key
        ensures { result.name ≡ name }
    {
        Key { name }
    }

    // The order of the bytes.
    fn compare(&self, other: &Key) -> Ordering
        ensures { result ≡ name_cmp self.now.name other.now.name }
    {
        self.name.text().cmp(other.name.text())
    }
}

impl PartialEq for Key {
    ghost use Rattle.std.specs.Ordering.{on, eq_by_cmp};
    ghost use Rattle.std.specs.Cmp.{partial_equiv_from_equiv, on_equiv, eq_by_cmp_equiv};
    ghost use Rattle.rdx_lang.specs.Bindings.{name_cmp};
    ghost use Rattle.rdx_lang.specs.Model.TotalOrders.{name_cmp-total};

    ghost eq = { on (λ k. k.name) (eq_by_cmp name_cmp) };

    ghost laws = { partial_equiv_from_equiv (on_equiv (λ k. k.name) (eq_by_cmp_equiv name_cmp-total)) };

    fn eq(&self, other: &Key) -> bool {
        self.compare(other) == Ordering::Equal
    }
}

impl Eq for Key {
    ghost use Rattle.std.specs.Cmp.{on_equiv, eq_by_cmp_equiv};
    ghost use Rattle.rdx_lang.specs.Model.TotalOrders.{name_cmp-total};

    ghost laws = { on_equiv (λ k. k.name) (eq_by_cmp_equiv name_cmp-total) };
}

impl PartialOrd for Key {
    ghost use Rattle.std.specs.Ordering.{on, as_partial_cmp};
    ghost use Rattle.std.specs.Cmp.{on_po, partial_order_from_total};
    ghost use Rattle.rdx_lang.specs.Bindings.{name_cmp};
    ghost use Rattle.rdx_lang.specs.Model.TotalOrders.{name_cmp-total};

    ghost partial_cmp = { on (λ k. k.name) (as_partial_cmp name_cmp) };

    ghost laws = { on_po (λ k. k.name) (partial_order_from_total name_cmp-total) };

    fn partial_cmp(&self, other: &Key) -> Option<Ordering> {
        Some(self.compare(other))
    }
}

impl Ord for Key {
    ghost use Rattle.std.proofs.Common.{refl};
    ghost use Rattle.std.specs.Ordering.{on};
    ghost use Rattle.std.specs.Cmp.{on_total};
    ghost use Rattle.rdx_lang.specs.Bindings.{name_cmp};
    ghost use Rattle.rdx_lang.specs.Model.TotalOrders.{name_cmp-total};

    ghost cmp = { on (λ k. k.name) name_cmp };

    ghost total = { on_total (λ k. k.name) name_cmp-total };

    ghost matches_partial_cmp = { λ _ _. refl };

    ghost matches_eq = { λ _ _. refl };

    fn cmp(&self, other: &Key) -> Ordering {
        self.compare(other)
    }
}
