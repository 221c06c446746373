// The store of terms.
ghost use Rattle.std.specs.Prelude.{◌≡◌, ◌<◌, length, map, IfOk, OnOk};
ghost use Rattle.rdx_term.specs.Tree.{trees};
ghost use Rattle.rdx_term.specs.Items.{tree_items};
ghost use Rattle.rdx_term.specs.View.{tree_of};
ghost use Rattle.rdx_store.specs.Stored.{tree_by_id, trees_by_ids, AreIds, AreDistinct, Extends};
ghost use Rattle.rdx_store.specs.Model.KeyView.{shape_of};
ghost use Rattle.rdx_store.specs.Model.Entries.{IsShapeOf};

use crate::key::Key;
use indexmap::IndexMap;
use rdx_term::{NoMemory, Term};
use std::alloc::Global;
use std::marker::Model;

// For how many terms a new store has room.
const FIRST_ROOM: usize = 64;

/// The number of a term in its store, which is below the store's length.
pub type TermId = usize;

/// Terms by their ids. In contracts it is the list of their trees, in the order of the ids.
#[derive(Drop)]
pub struct Store {
    alloc: Global,
    entries: IndexMap<Key, Term>,
}

impl Model for Store {
    ghost use Rattle.std.specs.Prelude.{List};
    ghost use Rattle.rdx_term.specs.Tree.{Tree};
    ghost use Rattle.rdx_store.specs.Model.Codes.{coded_trees};

    ghost Value = { List Tree };

    ghost coded = { coded_trees };

    ghost use Rattle.rdx_store.specs.Model.Entries.{entry_trees, AreEntries};

    ghost view = { λ a. entry_trees a.entries.entries };

    ghost invariant = { λ a. AreEntries a.entries.entries };
}

impl Store {
    ghost use Rattle.std.specs.Prelude.{[]};

    /// A store with no terms.
    pub fn new(alloc: Global) -> Result<Store, NoMemory>
        ensures { IfOk result (λ s. s ≡ []) }
    {
        let entries = IndexMap::with_capacity(alloc, FIRST_ROOM)?;
        Ok(Store { alloc, entries })
    }

    /// How many terms there are.
    pub fn len(&self) -> usize
        ensures number { result ≡ length self.now }
        ensures distinct { AreDistinct self.now }
    {
        self.entries.len()
    }

    /// The term with this id.
    pub fn term(&self, id: TermId) -> &Term
        requires { id < length self.now }
        ensures { tree_of result.now ≡ tree_by_id self.now id }
    {
        &self.entries[id]
    }

    /// The ids of the items of the term with this id; none where it is no list.
    pub fn items(&self, id: TermId) -> &[TermId]
        requires { id < length self.now }
        ensures ids { AreIds result.now (length self.now) }
        ensures items { trees (trees_by_ids self.now result.now)
            ≡ tree_items (tree_by_id self.now id) }
    {
        self.entries.keys().as_slice()[id].ids()
    }

    /// The id of the term, which is added where it isn't there, with all that stands in it. No two
    /// ids have one term, so ids are equal exactly where terms are, marks included. Earlier ids
    /// keep their terms, also where memory is wanting.
    #[cycle(interning)]
    pub fn id_of(&mut self, t: &Term) -> Result<TermId, NoMemory>
        ensures kept { Extends self.old self.new }
        ensures id { IfOk result (λ id. id < length self.new) }
        ensures tree { IfOk result (λ id. tree_by_id self.new id ≡ tree_of t.now) }
        ensures distinct { OnOk result (AreDistinct self.new) }
    {
        let key = self.key_of(t)?;
        self.intern(key, t)
    }

    // The key of the term, whose items are added.
    #[cycle(interning)]
    fn key_of(&mut self, t: &Term) -> Result<Key, NoMemory>
        ensures kept { Extends self.old self.new }
        ensures key { IfOk result (λ key. IsShapeOf self.new (shape_of key) (tree_of t.now)) }
    {
        match t {
            Term::Hole => Ok(Key::Hole),
            Term::Int(n) => Ok(Key::Int(*n)),
            Term::Bool(b) => Ok(Key::Bool(*b)),
            Term::Str(text) => Ok(Key::Str(text.clone()?)),
            Term::Sym(name) => Ok(Key::Sym(name.share()?)),
            Term::List(node) => Ok(Key::List(node.mark(), self.ids_of(node.items())?)),
        }
    }

    // The ids of the terms, in their order.
    #[cycle(interning)]
    fn ids_of(&mut self, ts: &[Term]) -> Result<Vec<TermId>, NoMemory>
        ensures kept { Extends self.old self.new }
        ensures ids { IfOk result (λ ids. AreIds ids.items (length self.new)) }
        ensures trees { IfOk result (λ ids. trees_by_ids self.new ids.items ≡ map tree_of ts.now) }
    {
        let mut ids = Vec::with_capacity(self.alloc, ts.len())?;
        for t in ts {
            let id = self.id_of(t)?;
            ids.push(id)?;
        }
        Ok(ids)
    }

    // The id of the term with this key.
    fn intern(&mut self, key: Key, t: &Term) -> Result<TermId, NoMemory>
        requires { IsShapeOf self.old (shape_of key) (tree_of t.now) }
        ensures kept { Extends self.old self.new }
        ensures id { IfOk result (λ id. id < length self.new) }
        ensures tree { IfOk result (λ id. tree_by_id self.new id ≡ tree_of t.now) }
        ensures distinct { OnOk result (AreDistinct self.new) }
    {
        let (id, _) = self.entries.insert_full(key, t.share()?)?;
        Ok(id)
    }
}
