// Terms that are built twice have one id.
use crate::making::boxed;
use rdx_store::Store;
use rdx_term::{Build, NoMemory, Term, list};
use std::alloc::Global;
use std::process::Abort;

fn numbers(alloc: Global, first: i128, second: i128) -> Result<Vec<Term>, NoMemory> {
    Ok(Vec::from_array(alloc, [Term::Int(first), Term::Int(second)])?)
}

fn push(items: &mut Vec<Term>, made: Result<Term, Build>) -> Result<(), Build> {
    items.push(made?)?;
    Ok(())
}

// The list of both, twice in a list.
fn nested(alloc: Global, first: i128, second: i128) -> Result<Box<Term>, Build> {
    let mut lists = Vec::new(alloc);
    for _ in 0..2 {
        let items = numbers(alloc, first, second)?;
        push(&mut lists, list(alloc, items))?;
    }
    boxed(alloc, list(alloc, lists))
}

fn empty_store(alloc: Global) -> Result<Box<Store>, NoMemory> {
    Ok(Box::new(alloc, Store::new(alloc)?)?)
}

fn have_one_id(rt: &impl Abort, store: &mut Store, term: &Term, again: &Term) {
    let id = store.id_of(term).expect(rt, "an id");
    assert!(rt; store.len() == 4);
    assert!(rt; store.id_of(again).expect(rt, "an id") == id);
    assert!(rt; store.len() == 4);
}

fn have_an_id_each(
    rt: &impl Abort,
    store: &mut Store,
    term: &Term,
    (other, again): (&Term, &Term),
) {
    let first = store.id_of(term).expect(rt, "an id");
    let second = store.id_of(other).expect(rt, "an id");
    assert!(rt; second != first && store.len() == 6);
    assert!(rt; store.term(first).same(term));
    assert!(rt; store.term(second).same(again));
}

#[test]
fn built_twice(rt: HostRuntime) {
    let alloc = rt.alloc();
    let term = nested(alloc, 1, 2).expect(&rt, "a term");
    let again = nested(alloc, 1, 2).expect(&rt, "a term");
    let other = nested(alloc, 2, 1).expect(&rt, "a term");
    let other_again = nested(alloc, 2, 1).expect(&rt, "a term");
    let mut store = empty_store(alloc).expect(&rt, "a store");
    have_one_id(&rt, &mut store, &term, &again);
    have_an_id_each(&rt, &mut store, &again, (&other, &other_again));
}
