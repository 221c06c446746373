// What stands at a place in a term, and the context around it.
ghost use Rattle.std.specs.Prelude.{◌≡◌, ◌<◌, IfOk};
ghost use Rattle.rdx_term.specs.AtPaths.{IsPlace, tree_at, context_at};
ghost use Rattle.rdx_term.specs.Items.{tree_items, trees_count, item_at};
ghost use Rattle.rdx_term.specs.Terms.{IsTerm};
ghost use Rattle.rdx_term.specs.View.{tree_of, trees_of};

use crate::items::with_hole;
use rdx_term::{NoMemory, Term};
use std::alloc::Global;

// The items of a list; what is no list has none.
fn items_in(t: &Term) -> &[Term]
    ensures same { trees_of result.now ≡ tree_items (tree_of t.now) }
    ensures valid { 0 < trees_count (tree_items (tree_of t.now)) → IsTerm (tree_of t.now) }
{
    match t {
        Term::Hole | Term::Int(_) | Term::Bool(_) | Term::Str(_) | Term::Sym(_) => &[],
        Term::List(node) => node.items(),
    }
}

/// What stands in the term where the path leads.
#[inline(never)]
pub fn part_at<'a>(t: &'a Term, path: &[usize]) -> &'a Term
    requires { IsPlace (tree_of t.now) path.now }
    ensures { tree_of result.now ≡ tree_at (tree_of t.now) path.now }
{
    let mut part = t;
    for k in path {
        part = &items_in(part)[*k];
    }
    part
}

/// The context around what stands in the term where the path leads: the term with the hole there.
#[inline(never)]
pub fn context_around(alloc: Global, t: &Term, path: &[usize]) -> Result<Term, NoMemory>
    requires { IsPlace (tree_of t.now) path.now }
    ensures { IfOk result (λ c. tree_of c ≡ context_at (tree_of t.now) path.now) }
{
    let Some((k, rest)) = path.split_first() else {
        return Ok(Term::Hole);
    };
    let items = items_in(t);
    let inner = context_around(alloc, &items[*k], rest)?;
    with_hole(alloc, items, *k, &inner)
}
