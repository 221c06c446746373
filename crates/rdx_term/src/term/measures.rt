// The depth, the nodes and the holes of a list, from its items.
ghost use Rattle.std.specs.Prelude.{◌≡◌, ◌↔◌, ◌<◌, ◌≤◌, ◌+◌, IfOk, IfSome, IsNone, IsErrOf};
ghost use Rattle.rdx_term.specs.Tree.{tree_depth, trees_depth, tree_nodes, trees_nodes, tree_holes, trees_holes};
ghost use Rattle.rdx_term.specs.Context.{AreMarked};
ghost use Rattle.rdx_term.specs.Terms.{AreSpelled, IsTooDeep, IsTooLarge};
ghost use Rattle.rdx_term.specs.View.{trees_of, built_list};

use crate::error::Build;
use crate::term::Term;

const MAX_DEPTH: u32 = 500;

const MAX_NODES: u32 = 4_000_000;

// The depth, the nodes and the holes of a list.
#[derive(Drop)]
pub struct Measures {
    pub depth: u32,
    pub nodes: u32,
    pub holes: u32,
}

// The depth of the deepest item.
fn items_depth(items: &[Term]) -> u32
    ensures value { result ≡ trees_depth (trees_of items.now) }
    ensures marked { AreMarked (trees_of items.now) }
    ensures spelled { AreSpelled (trees_of items.now) }
    ensures shallow { result ≤ 500 }
{
    let mut depth = 0;
    for item in items {
        depth = depth.max(item.depth());
    }
    depth
}

// The nodes of the items together, if a list of them is within the limit.
fn items_nodes(items: &[Term]) -> Option<u32>
    ensures within { IfSome result (λ n. n ≡ trees_nodes (trees_of items.now)) }
    ensures small { IfSome result (λ n. n < 4_000_000) }
    ensures over { IsNone result ↔ (4_000_000 ≤ trees_nodes (trees_of items.now)) }
{
    let mut nodes = 0;
    for item in items {
        nodes += item.nodes();
        if nodes >= MAX_NODES {
            return None;
        }
    }
    Some(nodes)
}

// The holes of the items together.
fn items_holes(items: &[Term]) -> u32
    requires { trees_nodes (trees_of items.now) < 4_000_000 }
    ensures { result ≡ trees_holes (trees_of items.now) }
{
    let mut holes = 0;
    for item in items {
        holes += item.holes();
    }
    holes
}

// The measures of the list of these items, if it is within the limits; its mark does not count.
pub fn measures_of(items: &[Term]) -> Result<Measures, Build>
    ensures depth { IfOk result (λ m. m.depth ≡ tree_depth (built_list items.now)) }
    ensures nodes { IfOk result (λ m. m.nodes ≡ tree_nodes (built_list items.now)) }
    ensures holes { IfOk result (λ m. m.holes ≡ tree_holes (built_list items.now)) }
    ensures within { IfOk result (λ m. (m.depth ≤ 500) × (m.nodes ≤ 4_000_000)) }
    ensures marked { AreMarked (trees_of items.now) }
    ensures spelled { AreSpelled (trees_of items.now) }
    ensures too_deep { IsErrOf result Build.TooDeep ↔ IsTooDeep (built_list items.now) }
    ensures too_large { IsErrOf result Build.TooLarge ↔ IsTooLarge (built_list items.now) }
{
    let depth = items_depth(items) + 1;
    if depth > MAX_DEPTH {
        return Err(Build::TooDeep);
    }
    let Some(nodes) = items_nodes(items) else {
        return Err(Build::TooLarge);
    };
    let holes = items_holes(items);
    Ok(Measures {
        depth,
        nodes: nodes + 1,
        holes,
    })
}
