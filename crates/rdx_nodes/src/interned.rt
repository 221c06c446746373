// A term whose parts have ids.
ghost use Rattle.std.specs.Prelude.{◌≡◌, ◌<◌, IfOk, length};
ghost use Rattle.rdx_term.specs.View.{tree_of};

use rdx_store::{Store, TermId};
use rdx_term::{NoMemory, Term};
use std::alloc::Global;

/// A term, in a store of all that stands in it.
#[derive(Drop)]
pub struct Interned {
    /// The store, with all that stands in it.
    pub store: Store,
    /// The id of the whole term.
    pub id: TermId,
    ghost known: { id < length store },
}

impl Interned {
    ghost use Rattle.std.specs.Prelude.{IsTrue};
    ghost use Rattle.rdx_nodes.specs.Interned.{tree_in};

    // The term, in a store of its own.
    fn new(alloc: Global, t: &Term) -> Result<Interned, NoMemory>
        ensures { IfOk result (λ whole. tree_in whole ≡ tree_of t.now) }
    {
        let mut store = Store::new(alloc)?;
        let id = store.id_of(t)?;
        Ok(Interned { store, id })
    }

    // Whether it is this term, marks included. Of as many nodes, the two are compared up to where
    // they differ first.
    fn is(&self, t: &Term) -> bool
        ensures { IsTrue result → tree_in self.now ≡ tree_of t.now }
    {
        let whole = self.store.term(self.id);
        whole.nodes() == t.nodes() && whole.same(t)
    }

    /// The term, interned: the last one where it is the same, and else anew.
    pub fn of(alloc: Global, last: Option<Interned>, t: &Term) -> Result<Interned, NoMemory>
        ensures { IfOk result (λ whole. tree_in whole ≡ tree_of t.now) }
    {
        if let Some(whole) = last {
            if whole.is(t) {
                return Ok(whole);
            }
        }
        Interned::new(alloc, t)
    }
}
