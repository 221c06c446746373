// Lists from their items.
ghost use Rattle.std.specs.Prelude.{◌≡◌, ◌↔◌, Some, IsTrue, IfOk, IsErrOf, OnErr};
ghost use Rattle.rdx_term.specs.Tree.{tree_depth, tree_nodes, tree_holes, trees_holes, list as list_tree};
ghost use Rattle.rdx_term.specs.Building.{list_of, mark_for, hole_place};
ghost use Rattle.rdx_term.specs.Context.{is_context_at};
ghost use Rattle.rdx_term.specs.Terms.{IsTerm, IsTooDeep, IsTooLarge};
ghost use Rattle.rdx_term.specs.View.{tree_of, trees_of, built_list, marked_list};

use crate::error::Build;
use crate::term::measures::{Measures, measures_of};
use crate::term::{Node, Term};
use std::alloc::Global;
use std::rc::Rc;

// The place of the first item with a hole.
fn first_with_hole(items: &[Term]) -> usize
    ensures { result ≡ hole_place (trees_of items.now) }
{
    let mut place = 0;
    for item in items {
        if item.holes() != 0 {
            break;
        }
        place += 1;
    }
    place
}

// The mark of a list of these items: at the one hole, if there is exactly one.
fn mark_at_one_hole(items: &[Term], holes: u32) -> Option<usize>
    requires { holes ≡ trees_holes (trees_of items.now) }
    ensures { result ≡ mark_for (trees_of items.now) }
{
    if holes == 1 {
        Some(first_with_hole(items))
    } else {
        None
    }
}

// The list with these items, this mark and these measures.
fn node(
    alloc: Global,
    items: Vec<Term>,
    mark: Option<usize>,
    measures: Measures,
) -> Result<Term, Build>
    requires term { IsTerm (list_tree mark (trees_of items.items)) }
    requires depth { measures.depth ≡ tree_depth (list_tree mark (trees_of items.items)) }
    requires nodes { measures.nodes ≡ tree_nodes (list_tree mark (trees_of items.items)) }
    requires holes { measures.holes ≡ tree_holes (list_tree mark (trees_of items.items)) }
    ensures ok { IfOk result (λ t. tree_of t ≡ list_tree mark (trees_of items.items)) }
    ensures err { OnErr result (IsErrOf result Build.NoMemory) }
{
    let Measures {
        depth,
        nodes,
        holes,
    } = measures;
    let node = Node {
        items,
        mark,
        depth,
        nodes,
        holes,
    };
    Ok(Term::List(Rc::new(alloc, node)?))
}

/// The list of these items. It is marked exactly where it contains exactly one hole, at the item that has it.
pub fn list(alloc: Global, items: Vec<Term>) -> Result<Term, Build>
    ensures ok { IfOk result (λ t. tree_of t ≡ built_list items.items) }
    ensures too_deep { IsErrOf result Build.TooDeep ↔ IsTooDeep (built_list items.items) }
    ensures too_large { IsErrOf result Build.TooLarge ↔ IsTooLarge (built_list items.items) }
{
    let measures = measures_of(&items)?;
    let mark = mark_at_one_hole(&items, measures.holes);
    node(alloc, items, mark, measures)
}

/// The list of these items with its mark at item `k`, from 0, which has to be a context.
pub fn marked_list(alloc: Global, items: Vec<Term>, k: usize) -> Result<Term, Build>
    requires { IsTrue (is_context_at (trees_of items.items) k) }
    ensures ok { IfOk result (λ t. tree_of t ≡ marked_list k items.items) }
    ensures too_deep { IsErrOf result Build.TooDeep ↔ IsTooDeep (marked_list k items.items) }
    ensures too_large { IsErrOf result Build.TooLarge ↔ IsTooLarge (marked_list k items.items) }
{
    let measures = measures_of(&items)?;
    node(alloc, items, Some(k), measures)
}
