// The order of terms, and equality with marks.
ghost use Rattle.std.specs.Prelude.{◌≡◌, ◌↔◌, IsTrue};
ghost use Rattle.rdx_term.specs.Tree.{contents_tree};
ghost use Rattle.rdx_term.specs.Order.{kind, tree_cmp};
ghost use Rattle.rdx_term.specs.View.{tree_of};

use crate::term::{Node, Term};
use std::cmp::Ordering;

impl Term {
    // The place of its kind in the order.
    fn kind(&self) -> u8
        ensures { result ≡ kind (tree_of self.now) }
    {
        match self {
            Term::Hole => 0,
            Term::Int(_) => 1,
            Term::Bool(_) => 2,
            Term::Str(_) => 3,
            Term::Sym(_) => 4,
            Term::List(_) => 5,
        }
    }

    /// The order of terms. The kinds come in this turn: the hole, integers by value, false, true, strings by their bytes, symbols by
    /// their bytes, lists. Lists compare item by item, a proper prefix first; of two with equal items the unmarked one is first, and
    /// marks compare by their place.
    #[cycle(compare)]
    pub fn compare(&self, other: &Term) -> Ordering
        ensures { result ≡ tree_cmp (tree_of self.now) (tree_of other.now) }
    {
        match (self, other) {
            (Term::Int(a), Term::Int(b)) => a.cmp(b),
            (Term::Bool(a), Term::Bool(b)) => a.cmp(b),
            (Term::Str(a), Term::Str(b)) => a.cmp(b),
            (Term::Sym(a), Term::Sym(b)) => a.text().cmp(b.text()),
            (Term::List(a), Term::List(b)) => a.compare(b),
            _ => self.kind().cmp(&other.kind()),
        }
    }

    /// Whether the two are the same term, with the same marks.
    pub fn same(&self, other: &Term) -> bool
        ensures { IsTrue result ↔ (tree_of self.now ≡ tree_of other.now) }
    {
        self.compare(other) == Ordering::Equal
    }
}

impl Node {
    #[cycle(compare)]
    fn compare(&self, other: &Node) -> Ordering
        ensures { result ≡ tree_cmp (contents_tree self.now) (contents_tree other.now) }
    {
        let shorter = self.items.len().min(other.items.len());
        for i in 0..shorter {
            let order = self.items[i].compare(&other.items[i]);
            if order != Ordering::Equal {
                return order;
            }
        }
        self.items
            .len()
            .cmp(&other.items.len())
            .then(self.mark.cmp(&other.mark))
    }
}

impl PartialEq for Term {
    ghost use Rattle.std.specs.Ordering.{on, eq_by_cmp};
    ghost use Rattle.std.specs.Cmp.{partial_equiv_from_equiv, on_equiv, eq_by_cmp_equiv};
    ghost use Rattle.rdx_term.specs.Order.{tree_cmp};
    ghost use Rattle.rdx_term.specs.Model.TotalOrder.{tree_cmp-total};
    ghost use Rattle.rdx_term.specs.View.{tree_of};

    ghost eq = { on tree_of (eq_by_cmp tree_cmp) };

    ghost laws = { partial_equiv_from_equiv (on_equiv tree_of (eq_by_cmp_equiv tree_cmp-total)) };

    fn eq(&self, other: &Term) -> bool {
        self.compare(other) == Ordering::Equal
    }
}

impl Eq for Term {
    ghost use Rattle.std.specs.Cmp.{on_equiv, eq_by_cmp_equiv};
    ghost use Rattle.rdx_term.specs.Model.TotalOrder.{tree_cmp-total};
    ghost use Rattle.rdx_term.specs.View.{tree_of};

    ghost laws = { on_equiv tree_of (eq_by_cmp_equiv tree_cmp-total) };
}

impl PartialOrd for Term {
    ghost use Rattle.std.specs.Ordering.{on, as_partial_cmp};
    ghost use Rattle.std.specs.Cmp.{on_po, partial_order_from_total};
    ghost use Rattle.rdx_term.specs.Order.{tree_cmp};
    ghost use Rattle.rdx_term.specs.Model.TotalOrder.{tree_cmp-total};
    ghost use Rattle.rdx_term.specs.View.{tree_of};

    ghost partial_cmp = { on tree_of (as_partial_cmp tree_cmp) };

    ghost laws = { on_po tree_of (partial_order_from_total tree_cmp-total) };

    fn partial_cmp(&self, other: &Term) -> Option<Ordering> {
        Some(self.compare(other))
    }
}

impl Ord for Term {
    ghost use Rattle.std.proofs.Common.{refl};
    ghost use Rattle.std.specs.Ordering.{on};
    ghost use Rattle.std.specs.Cmp.{on_total};
    ghost use Rattle.rdx_term.specs.Order.{tree_cmp};
    ghost use Rattle.rdx_term.specs.Model.TotalOrder.{tree_cmp-total};
    ghost use Rattle.rdx_term.specs.View.{tree_of};

    ghost cmp = { on tree_of tree_cmp };

    ghost total = { on_total tree_of tree_cmp-total };

    ghost matches_partial_cmp = { λ _ _. refl };

    ghost matches_eq = { λ _ _. refl };

    fn cmp(&self, other: &Term) -> Ordering {
        self.compare(other)
    }
}
