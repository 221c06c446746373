// The path of a context.
ghost use Rattle.std.specs.Prelude.{◌≡◌, ◌↔◌, ◌≤◌, ◌++◌, length, IfOk, IfSome, IsNone, IsOkAnd, OnOk};
ghost use Rattle.std.specs.Bool.{IsFalse};
ghost use Rattle.rdx_term.specs.Context.{is_context};
ghost use Rattle.rdx_term.specs.View.{tree_of};
ghost use Rattle.rdx_term.specs.Path.{path};

use rdx_term::{NoMemory, Term};
use std::alloc::Global;

// How many marks there are on the path.
pub fn path_length(t: &Term) -> u32
    ensures value { result ≡ length (path (tree_of t.now)) }
    ensures small { result ≤ 500 }
{
    match t {
        Term::Hole | Term::Int(_) | Term::Bool(_) | Term::Str(_) | Term::Sym(_) => 0,
        Term::List(node) => match node.mark() {
            None => 0,
            Some(k) => path_length(&node.items()[k]) + 1,
        },
    }
}

// Appends the path.
fn push_path(t: &Term, out: &mut Vec<usize>) -> Result<(), NoMemory>
    ensures { OnOk result (out.new.items ≡ out.old.items ++ path (tree_of t.now)) }
{
    match t {
        Term::Hole | Term::Int(_) | Term::Bool(_) | Term::Str(_) | Term::Sym(_) => Ok(()),
        Term::List(node) => match node.mark() {
            None => Ok(()),
            Some(k) => {
                out.push(k)?;
                push_path(&node.items()[k], out)
            }
        },
    }
}

/// The places from the root to the context's own hole, each the place of an item, from 0; `None` where the term is no context.
pub fn path_of(alloc: Global, t: &Term) -> Result<Option<Vec<usize>>, NoMemory>
    ensures some { IfOk result (λ found.
        IfSome found (λ places. places.items ≡ path (tree_of t.now))) }
    ensures none { IsOkAnd result (λ found. IsNone found) ↔ IsFalse (is_context (tree_of t.now)) }
{
    if !t.is_context() {
        return Ok(None);
    }
    let mut places = Vec::new(alloc);
    push_path(t, &mut places)?;
    Ok(Some(places))
}
