// The limits of depth and size.
use crate::making::boxed;
use rdx_term::{Build, NoMemory, Term, list, text_of};
use std::alloc::Global;

// From one node to 2,000,000: each step makes a list of so many shares of the term before.
const STEPS: [u8; 26] = [
    1, 2, 1, 2, 1, 2, 2, 1, 2, 2, 2, 2, 2, 1, 2, 2, 2, 1, 2, 2, 2, 2, 2, 2, 2, 1,
];

fn shares(alloc: Global, term: &Term, copies: u8) -> Result<Vec<Term>, NoMemory> {
    let mut items = Vec::new(alloc);
    for _ in 0..copies {
        items.push(term.share()?)?;
    }
    Ok(items)
}

// A list of so many shares of the term.
fn list_of_shares(alloc: Global, term: &Term, copies: u8) -> Result<Box<Term>, Build> {
    let items = shares(alloc, term, copies)?;
    boxed(alloc, list(alloc, items))
}

// The hole in lists, one for each step, of so many shares of the term before.
fn tower(alloc: Global, steps: &[u8]) -> Result<Box<Term>, Build> {
    let mut term = boxed(alloc, Ok(Term::Hole))?;
    for copies in steps {
        term = list_of_shares(alloc, &term, *copies)?;
    }
    Ok(term)
}

fn printed_length(alloc: Global, term: &Term) -> Result<usize, NoMemory> {
    let mut out = Vec::new(alloc);
    text_of(term, &mut out)?;
    Ok(out.len())
}

fn is_same(term: &Term, other: &Term) -> bool {
    term.same(other) && term.same_bare(other)
}

fn is_same_as_its_share(term: &Term) -> Result<bool, NoMemory> {
    Ok(is_same(term, &term.share()?))
}

#[test]
fn deepest(rt: HostRuntime) {
    let alloc = rt.alloc();
    let term = tower(alloc, &[1; 500]).expect(&rt, "a term");
    assert!(rt; term.depth() == 500);
    assert!(rt; is_same_as_its_share(&term).expect(&rt, "a share"));
    assert!(rt; printed_length(alloc, &term).expect(&rt, "a text") == 1004);
}

#[test]
fn too_deep(rt: HostRuntime) {
    assert!(rt; matches!(tower(rt.alloc(), &[1; 501]), Err(Build::TooDeep)));
}

#[test]
fn largest(rt: HostRuntime) {
    let alloc = rt.alloc();
    let term = tower(alloc, &STEPS).expect(&rt, "a term");
    assert!(rt; term.nodes() == 2_000_000);
    assert!(rt; matches!(list_of_shares(alloc, &term, 2), Err(Build::TooLarge)));
}
