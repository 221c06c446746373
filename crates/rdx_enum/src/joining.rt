// Two terms put together.
ghost use Rattle.std.specs.Prelude.{◌≡◌, ◌+◌, ◌≤◌, [], ◌∷◌, IfOk, IsTrue, map};
ghost use Rattle.rdx_term.specs.Context.{is_context_at};
ghost use Rattle.rdx_term.specs.Building.{list_of};
ghost use Rattle.rdx_term.specs.Tree.{tree_nodes};
ghost use Rattle.rdx_term.specs.Tree.{nil as no_trees};
ghost use Rattle.rdx_term.specs.View.{tree_of, trees_of, built_list, marked_list as list_marked};
ghost use Rattle.rdx_enum.specs.Inside.Ways.{relisted as tree_relisted, with_item as tree_with_item, with_context as tree_with_context, with_behind as tree_with_behind, joined as trees_joined, found_tree};
ghost use Rattle.rdx_enum.specs.declared.way.Way.TheVariants as way;

use crate::way::Way;
use rdx_fill::{FillFault, fill};
use rdx_term::{Build, NoMemory, Term, list, marked_list};
use std::alloc::Global;

// The list of these items, which passes no limit.
fn listed(alloc: Global, items: Vec<Term>) -> Result<Term, NoMemory>
    requires { tree_nodes (built_list items.items) ≤ 500 }
    ensures { IfOk result (λ t. tree_of t ≡ built_list items.items) }
{
    match list(alloc, items) {
        Ok(t) => Ok(t),
        Err(Build::NoMemory) => Err(NoMemory),
        Err(Build::TooDeep) => unreachable!(),
        Err(Build::TooLarge) => unreachable!(),
    }
}

/// The empty list alone.
pub(crate) fn empty_list(alloc: Global) -> Result<Vec<Term>, NoMemory>
    ensures { IfOk result (λ row. map tree_of row.items ≡ list_of no_trees ∷ []) }
{
    let empty = listed(alloc, Vec::new(alloc))?;
    let mut row = Vec::new(alloc);
    row.push(empty)?;
    Ok(row)
}

// The list of these items, marked at place `k`.
fn marked(alloc: Global, items: Vec<Term>, k: usize) -> Result<Term, NoMemory>
    requires context { IsTrue (is_context_at (trees_of items.items) k) }
    requires small { tree_nodes (list_marked k items.items) ≤ 500 }
    ensures { IfOk result (λ t. tree_of t ≡ list_marked k items.items) }
{
    match marked_list(alloc, items, k) {
        Ok(t) => Ok(t),
        Err(Build::NoMemory) => Err(NoMemory),
        Err(Build::TooDeep) => unreachable!(),
        Err(Build::TooLarge) => unreachable!(),
    }
}

// The items with one more in front.
fn with_first(alloc: Global, first: &Term, items: &[Term]) -> Result<Vec<Term>, NoMemory>
    ensures { IfOk result (λ all. map tree_of all.items ≡ tree_of first.now ∷ map tree_of items.now) }
{
    let mut all = Vec::new(alloc);
    all.push(first.share()?)?;
    for item in items {
        all.push(item.share()?)?;
    }
    Ok(all)
}

// The term with each list in it built anew.
fn relisted(alloc: Global, t: &Term) -> Result<Term, NoMemory>
    requires { tree_nodes (tree_of t.now) ≤ 500 }
    ensures { IfOk result (λ u. tree_of u ≡ tree_relisted (tree_of t.now)) }
{
    match t {
        Term::Hole | Term::Int(_) | Term::Bool(_) | Term::Str(_) | Term::Sym(_) => t.share(),
        Term::List(node) => {
            let mut items = Vec::new(alloc);
            for item in node.items() {
                items.push(relisted(alloc, item)?)?;
            }
            listed(alloc, items)
        }
    }
}

// The list with the item in front of the others.
fn with_item(alloc: Global, t: &Term, u: &Term) -> Result<Option<Term>, NoMemory>
    requires { tree_nodes (tree_of t.now) + tree_nodes (tree_of u.now) ≤ 500 }
    ensures { IfOk result (λ found. found_tree found ≡ tree_with_item (tree_of t.now) (tree_of u.now)) }
{
    match u {
        Term::List(node) => {
            let items = with_first(alloc, t, node.items())?;
            let made = listed(alloc, items)?;
            Ok(Some(made))
        }
        Term::Hole | Term::Int(_) | Term::Bool(_) | Term::Str(_) | Term::Sym(_) => Ok(None),
    }
}

// The list with the context in front of the others, marked there.
fn with_context(alloc: Global, t: &Term, u: &Term) -> Result<Option<Term>, NoMemory>
    requires { tree_nodes (tree_of t.now) + tree_nodes (tree_of u.now) ≤ 500 }
    ensures { IfOk result (λ found. found_tree found ≡ tree_with_context (tree_of t.now) (tree_of u.now)) }
{
    match u {
        Term::List(node) => {
            if !t.is_context() {
                return Ok(None);
            }
            let items = with_first(alloc, t, node.items())?;
            let made = marked(alloc, items, 0)?;
            Ok(Some(made))
        }
        Term::Hole | Term::Int(_) | Term::Bool(_) | Term::Str(_) | Term::Sym(_) => Ok(None),
    }
}

// The marked list with the item in front of the others.
fn with_behind(alloc: Global, t: &Term, u: &Term) -> Result<Option<Term>, NoMemory>
    requires { tree_nodes (tree_of t.now) + tree_nodes (tree_of u.now) ≤ 500 }
    ensures { IfOk result (λ found. found_tree found ≡ tree_with_behind (tree_of t.now) (tree_of u.now)) }
{
    match u {
        Term::List(node) => {
            let Some(k) = node.mark() else {
                return Ok(None);
            };
            let items = with_first(alloc, t, node.items())?;
            let made = marked(alloc, items, k + 1)?;
            Ok(Some(made))
        }
        Term::Hole | Term::Int(_) | Term::Bool(_) | Term::Str(_) | Term::Sym(_) => Ok(None),
    }
}

// The context filled, or put into another.
fn filled(alloc: Global, t: &Term, u: &Term) -> Result<Option<Term>, NoMemory>
    requires { tree_nodes (tree_of t.now) + tree_nodes (tree_of u.now) ≤ 500 }
    ensures { IfOk result (λ found. found_tree found ≡ trees_joined way.Put (tree_of t.now) (tree_of u.now)) }
{
    if !t.is_context() {
        return Ok(None);
    }
    match fill(alloc, t, u) {
        Ok(made) => Ok(Some(made)),
        Err(fault) => match fault {
            FillFault::NoMemory => Err(NoMemory),
            FillFault::NotContext(_) => unreachable!(),
            FillFault::TooDeep => unreachable!(),
            FillFault::TooLarge => unreachable!(),
        },
    }
}

// The context filled, with each list built anew.
fn filled_anew(alloc: Global, t: &Term, u: &Term) -> Result<Option<Term>, NoMemory>
    requires { tree_nodes (tree_of t.now) + tree_nodes (tree_of u.now) ≤ 500 }
    ensures { IfOk result (λ found. found_tree found ≡ trees_joined way.Filled (tree_of t.now) (tree_of u.now)) }
{
    match filled(alloc, t, u)? {
        Some(made) => {
            let anew = relisted(alloc, &made)?;
            Ok(Some(anew))
        }
        None => Ok(None),
    }
}

/// What comes of the two in this way, if anything.
pub(crate) fn joined(alloc: Global, way: Way, t: &Term, u: &Term) -> Result<Option<Term>, NoMemory>
    requires { tree_nodes (tree_of t.now) + tree_nodes (tree_of u.now) ≤ 500 }
    ensures { IfOk result (λ found. found_tree found ≡ trees_joined way (tree_of t.now) (tree_of u.now)) }
{
    match way {
        Way::Item => with_item(alloc, t, u),
        Way::Context => with_context(alloc, t, u),
        Way::Behind => with_behind(alloc, t, u),
        Way::Filled => filled_anew(alloc, t, u),
        Way::Put => filled(alloc, t, u),
    }
}
