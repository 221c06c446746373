// The path of a context's hole, by example.
ghost use Rattle.std.specs.Prelude.{◌≡◌, ◌∷◌, [], IfOk};
ghost use Rattle.rdx_term.specs.declared.term.Term.TheVariants.{Hole};

use rdx_fill::{FillFault, fill, path_of, with_hole};
use rdx_term::{NoMemory, Term};
use std::alloc::Global;

fn two_holes(alloc: Global) -> Result<Vec<Term>, NoMemory>
    ensures { IfOk result (λ v. v.items ≡ Hole ∷ Hole ∷ []) }
{
    Ok(Vec::from_array(alloc, [Term::Hole, Term::Hole])?)
}

fn boxed(alloc: Global, made: Result<Term, NoMemory>) -> Result<Box<Term>, NoMemory> {
    Ok(Box::new(alloc, made?)?)
}

// Two holes, with the mark at the second.
fn outer(alloc: Global) -> Result<Box<Term>, NoMemory> {
    let holes = two_holes(alloc)?;
    boxed(alloc, with_hole(alloc, &holes, 1, &Term::Hole))
}

// Two holes, with the mark at the first.
fn inner(alloc: Global) -> Result<Box<Term>, NoMemory> {
    let holes = two_holes(alloc)?;
    boxed(alloc, with_hole(alloc, &holes, 0, &Term::Hole))
}

fn filled(alloc: Global, context: &Term, part: &Term) -> Result<Box<Term>, FillFault> {
    let term = fill(alloc, context, part)?;
    Ok(boxed(alloc, Ok(term))?)
}

fn has_path(alloc: Global, term: &Term, path: &[usize]) -> Result<bool, NoMemory> {
    match path_of(alloc, term)? {
        Some(places) => Ok(places.as_slice() == path),
        None => Ok(false),
    }
}

#[test]
fn the_mark_is_the_path(rt: HostRuntime) {
    let alloc = rt.alloc();
    let context = outer(alloc).expect(&rt, "a context");
    assert!(rt; has_path(alloc, &context, &[1]).expect(&rt, "a path"));
}

#[test]
fn paths_are_put_together(rt: HostRuntime) {
    let alloc = rt.alloc();
    let outer = outer(alloc).expect(&rt, "a context");
    let inner = inner(alloc).expect(&rt, "a context");
    let context = filled(alloc, &outer, &inner).expect(&rt, "a context");
    assert!(rt; has_path(alloc, &context, &[1, 0]).expect(&rt, "a path"));
}

#[test]
fn an_atom_has_no_path(rt: HostRuntime) {
    let path = path_of(rt.alloc(), &Term::Int(1)).expect(&rt, "an answer");
    assert!(rt; path.is_none());
}
