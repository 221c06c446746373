// All trees over the pool.
ghost use Rattle.std.specs.Prelude.{◌≡◌, ◌≤◌, ℕ, IfOk, map};
ghost use Rattle.rdx_lang.specs.Members.{In};
ghost use Rattle.rdx_term.specs.Tree.{Tree, tree_nodes};
ghost use Rattle.rdx_term.specs.View.{tree_of};
ghost use Rattle.rdx_enum.specs.Inside.Rows.{row_at, row_of, HaveNodes, AreSized, Keeps, Combines, HasAtoms, HasEmpty};
ghost use Rattle.rdx_enum.specs.declared.way.Way.TheVariants.{Item};
ghost use Rattle.rdx_enum.specs.Pool.{IsOver};

use crate::joining::empty_list;
use crate::rows::{add_all, add_combined, shared};
use crate::way::Way;
use rdx_term::{NoMemory, Term};
use std::alloc::Global;

// The empty list alone, and nothing for all numbers but 1.
fn no_items(alloc: Global, m: usize) -> Result<Vec<Term>, NoMemory>
    ensures empty { IfOk result (λ row. HasEmpty m (row_of row)) }
    ensures sized { IfOk result (λ row. HaveNodes m (row_of row)) }
{
    if m == 1 {
        let row = empty_list(alloc)?;
        return Ok(row);
    }
    Ok(Vec::new(alloc))
}

// The lists of one more node: the empty one, and those of a tree and the items of a list.
fn lists(
    alloc: Global,
    all: &[Vec<Term>],
    lists: &[Vec<Term>],
    m: usize,
) -> Result<Vec<Term>, NoMemory>
    requires small { m ≤ 40 }
    requires all { AreSized all.now }
    requires lists { AreSized lists.now }
    ensures empty { IfOk result (λ row. HasEmpty m (row_of row)) }
    ensures sized { IfOk result (λ row. HaveNodes m (row_of row)) }
    ensures made { IfOk result (λ row. Combines Item all.now lists.now 0 m (row_of row)) }
{
    let mut row = no_items(alloc, m)?;
    add_combined(alloc, Way::Item, all, lists, 0, m, &mut row)?;
    Ok(row)
}

// The atoms, where m is 1, and the lists.
fn with_atoms(alloc: Global, pool: &[Term], lists: &[Term], m: usize) -> Result<Vec<Term>, NoMemory>
    requires pool { HaveNodes 1 (map tree_of pool.now) }
    requires lists { HaveNodes m (map tree_of lists.now) }
    ensures sized { IfOk result (λ row. HaveNodes m (row_of row)) }
    ensures atoms { IfOk result (λ row. HasAtoms (map tree_of pool.now) m (row_of row)) }
    ensures kept { IfOk result (λ row. Keeps (map tree_of lists.now) (row_of row)) }
{
    let mut row = shared(alloc, lists)?;
    if m != 1 {
        return Ok(row);
    }
    add_all(pool, &mut row)?;
    Ok(row)
}

/// The rows of all trees over the pool, up to `n` nodes.
pub(crate) fn trees(alloc: Global, pool: &[Term], n: usize) -> Result<Vec<Vec<Term>>, NoMemory>
    requires small { n ≤ 40 }
    requires pool { HaveNodes 1 (map tree_of pool.now) }
    ensures sized { IfOk result (λ rows. AreSized rows.items) }
    ensures all { IfOk result (λ rows. (t : Tree) → IsOver (map tree_of pool.now) t → tree_nodes t ≤ n
        → In t (row_at rows.items (tree_nodes t))) }
{
    let mut all = Vec::new(alloc);
    let mut of_lists = Vec::new(alloc);
    for m in 0..n + 1 {
        let row_lists = lists(alloc, &all, &of_lists, m)?;
        let row_all = with_atoms(alloc, pool, &row_lists, m)?;
        all.push(row_all)?;
        of_lists.push(row_lists)?;
    }
    Ok(all)
}
