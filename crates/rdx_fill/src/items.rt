// Lists in which one item is replaced.
ghost use Rattle.std.specs.Prelude.{◌≡◌, ◌<◌, ◌↔◌, IsTrue, IfOk, IsErrOf, map, length, slice_set as set};
ghost use Rattle.rdx_term.specs.Context.{is_context};
ghost use Rattle.rdx_term.specs.Terms.{IsTooDeep, IsTooLarge};
ghost use Rattle.rdx_term.specs.View.{tree_of, trees_of, marked_list};
ghost use Rattle.rdx_term.specs.Fill.{marked_at};
ghost use Rattle.rdx_term.specs.Limits.{KeepsLimits};

use rdx_term::{Build, NoMemory, Term, list, marked_list};
use std::alloc::Global;

// The same terms once more.
fn shared(alloc: Global, items: &[Term]) -> Result<Vec<Term>, NoMemory>
    ensures { IfOk result (λ copies. map tree_of copies.items ≡ map tree_of items.now) }
{
    let mut copies = Vec::with_capacity(alloc, items.len())?;
    for item in items {
        copies.push(item.share()?)?;
    }
    Ok(copies)
}

// The list of these items, marked at `k` if the item there is a context.
#[tactic(auto, using(crate::proofs::FilledItems::marked_places))]
fn list_marked_at(alloc: Global, items: Vec<Term>, k: usize) -> Result<Term, Build>
    requires { k < length items.items }
    ensures ok { IfOk result (λ t. tree_of t ≡ marked_at k (trees_of items.items)) }
    ensures too_deep { IsErrOf result Build.TooDeep
        ↔ IsTooDeep (marked_at k (trees_of items.items)) }
    ensures too_large { IsErrOf result Build.TooLarge
        ↔ IsTooLarge (marked_at k (trees_of items.items)) }
{
    if items[k].is_context() {
        marked_list(alloc, items, k)
    } else {
        list(alloc, items)
    }
}

// The same within the limits.
fn built(alloc: Global, items: Vec<Term>, k: usize) -> Result<Term, NoMemory>
    requires place { k < length items.items }
    requires limits { KeepsLimits (marked_at k (trees_of items.items)) }
    ensures { IfOk result (λ t. tree_of t ≡ marked_at k (trees_of items.items)) }
{
    match list_marked_at(alloc, items, k) {
        Ok(list) => Ok(list),
        Err(Build::NoMemory) => Err(NoMemory),
        Err(Build::TooDeep | Build::TooLarge) => unreachable!(),
    }
}

// The list of the items with `item` at place `k`, marked there if it is a context.
pub fn replaced(alloc: Global, items: &[Term], k: usize, item: Term) -> Result<Term, NoMemory>
    requires place { k < length items.now }
    requires limits { KeepsLimits (marked_at k (trees_of (set items.now k item))) }
    ensures { IfOk result (λ t. tree_of t ≡ marked_at k (trees_of (set items.now k item))) }
{
    let mut copies = shared(alloc, items)?;
    copies[k] = item;
    built(alloc, copies, k)
}

/// The list of the items with the context `inner` in place of item `k`, from 0, with its mark there.
pub fn with_hole(alloc: Global, items: &[Term], k: usize, inner: &Term) -> Result<Term, NoMemory>
    requires place { k < length items.now }
    requires context { IsTrue (is_context (tree_of inner.now)) }
    requires limits { KeepsLimits (marked_list k (set items.now k inner.now)) }
    ensures { IfOk result (λ t. tree_of t ≡ marked_list k (set items.now k inner.now)) }
{
    replaced(alloc, items, k, inner.share()?)
}
