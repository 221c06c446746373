// The ends of rules, kept for the next answer of the same judgement. What is found is a fact of the
// program, and is compared with what is wanted before it is used.
ghost use Rattle.std.specs.Prelude.{◌≡◌, ◌↔◌, ◌⊎◌, [], IfOk, IfSome, IsTrue};
ghost use Rattle.rdx_lang.specs.Members.{In};
ghost use Rattle.rdx_lang.specs.ProgramView.{program_of};
ghost use Rattle.rdx_term.specs.View.{tree_of};
ghost use Rattle.rdx_why.specs.Inside.Keeping.{IsKept};
ghost use Rattle.rdx_why.specs.Model.Ends.{AreEndsAt, KeepsEnds, KeepsEnds-prop};
ghost use Rattle.rdx_why.specs.declared.kept.Kept.{Kept as KeptEnds};

use crate::kept::{End, Kept, Store};
use rdx_lang::{Binding, Program, Value};
use rdx_term::{Name, NoMemory, Term, list};
use std::alloc::Global;
use std::collections::BTreeMap;

// So many nodes may be kept together, but for what was kept last.
const FULL: usize = 1 << 20;

/// The ends of rules of a program, where these have several.
#[derive(Drop)]
pub struct Ends<'a> {
    alloc: Global,
    program: &'a Program,
    store: Store,
    ghost kept: { KeepsEnds (program_of program.now) store } by { KeepsEnds-prop _ _ },
}

impl<'a> Ends<'a> {
    /// Of this program; nothing is kept yet.
    pub(crate) fn new(alloc: Global, program: &'a Program) -> Ends<'a>
        ensures { result.program ≡ program.entry }
    {
        Ends {
            alloc,
            program,
            store: none(alloc),
        }
    }

    /// The ends of the rule at this place of the judgement, for these inputs, if they are kept
    /// under the key.
    pub(crate) fn get(&self, key: &Option<Term>, j: &Name, place: usize, a: &Term) -> Option<&[End]>
        ensures { IfSome result (λ es. AreEndsAt (program_of self.now.program.now) j.now place
            (tree_of a.now) es.now) }
    {
        let Some(key) = key else {
            return None;
        };
        find(&self.store, key, j, place, a)
    }

    /// Keeps them under the key, where they are several.
    pub(crate) fn keep(
        &mut self,
        key: Option<Term>,
        j: &Name,
        place: usize,
        a: &Term,
        ends: Vec<End>,
    ) -> Result<(), NoMemory>
        requires { AreEndsAt (program_of self.old.program.now) j.now place (tree_of a.now)
            ends.items }
        ensures { self.new.program ≡ self.old.program }
    {
        let Some(key) = key else {
            return Ok(());
        };
        if ends.len() < 2 {
            return Ok(());
        }
        let kept = Kept {
            judgement: j.share()?,
            place,
            inputs: a.share()?,
            ends,
        };
        put(self.alloc, &mut self.store, key, kept)
    }
}

/// What the ends of a rule are kept under: the list of the judgement, the place and the inputs. `None`
/// where that is no term.
pub(crate) fn key_of(
    alloc: Global,
    j: &Name,
    place: usize,
    a: &Term,
) -> Result<Option<Term>, NoMemory> {
    let Term::List(node) = a else {
        return Ok(None);
    };
    let mut items = Vec::new(alloc);
    items.push(Term::Sym(j.share()?))?;
    items.push(Term::Int(place as i128))?;
    for item in node.items() {
        items.push(item.share()?)?;
    }
    match list(alloc, items) {
        Ok(key) => Ok(Some(key)),
        Err(_) => Ok(None),
    }
}

// Nothing kept.
fn none(alloc: Global) -> Store
    ensures { result.kept.items ≡ [] }
{
    Store {
        kept: Vec::new(alloc),
        places: BTreeMap::new(alloc),
        nodes: 0,
    }
}

// The same name.
fn same_name(a: &Name, b: &Name) -> bool
    ensures { IsTrue result ↔ (a.now ≡ b.now) }
{
    a.text() == b.text()
}

// The ends of this rule for these inputs, if they are kept under the key.
fn find<'s>(store: &'s Store, key: &Term, j: &Name, place: usize, a: &Term) -> Option<&'s [End]>
    ensures { IfSome result (λ es. IsKept store.now.kept.items j.now place (tree_of a.now)
        es.now) }
{
    let Some(at) = store.places.get(key) else {
        return None;
    };
    let Some(kept) = store.kept.get(*at) else {
        return None;
    };
    if kept.place == place && same_name(&kept.judgement, j) && kept.inputs.same(a) {
        return Some(kept.ends.as_slice());
    }
    None
}

// Forgets all, where with so many nodes more they would be too many.
fn make_room(alloc: Global, store: &mut Store, more: usize)
    ensures { (k : KeptEnds) → In k store.new.kept.items → In k store.old.kept.items }
{
    let nodes = store.nodes.saturating_add(more);
    if nodes > FULL {
        *store = none(alloc);
        store.nodes = more;
    } else {
        store.nodes = nodes;
    }
}

// Keeps this under the key. Where that would be too much, all others are forgotten.
fn put(alloc: Global, store: &mut Store, key: Term, kept: Kept) -> Result<(), NoMemory>
    ensures { (k : KeptEnds) → In k store.new.kept.items
        → In k store.old.kept.items ⊎ (k ≡ kept) }
{
    make_room(alloc, store, nodes_of(&kept));
    store.places.insert(key, store.kept.len())?;
    store.kept.push(kept)?;
    Ok(())
}

// How many nodes this has, each end and each name counted for one besides.
fn nodes_of(kept: &Kept) -> usize {
    let mut nodes = kept.inputs.nodes() as usize;
    for end in &kept.ends {
        nodes = nodes.saturating_add(nodes_at(end));
    }
    nodes
}

// How many nodes the end has.
fn nodes_at(end: &End) -> usize {
    let made = match &end.outputs {
        Some(t) => t.nodes() as usize,
        None => 0,
    };
    nodes_bound(&end.binding).saturating_add(made)
}

// How many nodes the binding has.
fn nodes_bound(b: &Binding) -> usize {
    let mut nodes: usize = 1;
    for pair in b.pairs() {
        nodes = nodes.saturating_add(nodes_in(&pair.1));
    }
    nodes
}

// How many nodes the value has.
#[cycle(nodes)]
fn nodes_in(value: &Value) -> usize {
    match value {
        Value::One(t) => (t.nodes() as usize).saturating_add(1),
        Value::Many(values) => nodes_in_all(values),
        Value::Len(_) => 1,
    }
}

// How many nodes the values have.
#[cycle(nodes)]
fn nodes_in_all(values: &[Value]) -> usize {
    let mut nodes: usize = 1;
    for value in values {
        nodes = nodes.saturating_add(nodes_in(value));
    }
    nodes
}
