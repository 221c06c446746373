// Terms whose lists are all marked as lists that are built.
ghost use Rattle.std.specs.Prelude.{◌≡◌, IfOk};
ghost use Rattle.rdx_term.specs.View.{tree_of, trees_of};
ghost use Rattle.rdx_alpha.specs.Marks as model;

use crate::making::{add_term, built};
use rdx_term::{NoMemory, Term};
use std::alloc::Global;

// The term with each list in it marked as the list that is built of its items. With fewer than two
// holes each list is marked so.
#[cycle(marking)]
pub(crate) fn marked_anew(alloc: Global, term: &Term) -> Result<Term, NoMemory>
    ensures { IfOk result (λ t. tree_of t ≡ model.marked_anew (tree_of term.now)) }
{
    if term.holes() < 2 {
        return term.share();
    }
    match term {
        Term::Hole | Term::Int(_) | Term::Bool(_) | Term::Str(_) | Term::Sym(_) => term.share(),
        Term::List(node) => {
            let items = all_marked_anew(alloc, node.items())?;
            built(alloc, items)
        }
    }
}

// Each of these terms so.
#[cycle(marking)]
fn all_marked_anew(alloc: Global, items: &[Term]) -> Result<Vec<Term>, NoMemory>
    ensures { IfOk result (λ made.
        trees_of made.items ≡ model.all_marked_anew (trees_of items.now)) }
{
    let mut made = Vec::with_capacity(alloc, items.len())?;
    for item in items {
        let term = marked_anew(alloc, item)?;
        add_term(term, &mut made)?;
    }
    Ok(made)
}
