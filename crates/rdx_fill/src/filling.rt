// Filling a context.
ghost use Rattle.std.specs.Prelude.{◌≡◌, ◌↔◌, ℕ, IsTrue, IfOk, OnOk, IsErrOf};
ghost use Rattle.rdx_term.specs.Tree.{tree_depth, tree_nodes};
ghost use Rattle.rdx_term.specs.Context.{is_context};
ghost use Rattle.rdx_term.specs.Terms.{IsTooDeep, IsTooLarge};
ghost use Rattle.rdx_term.specs.View.{tree_of};
ghost use Rattle.rdx_term.specs.Fill.{fill_of};
ghost use Rattle.rdx_term.specs.Limits.{KeepsLimits};
ghost use Rattle.rdx_fill.specs.Faults.{IsNoContext, FillsTooDeep, FillsTooLarge};

use crate::error::FillFault;
use crate::items::replaced;
use crate::paths::path_length;
use rdx_term::{NoMemory, Term};
use std::alloc::Global;

const MAX_DEPTH: u32 = 500;

const MAX_NODES: u32 = 4_000_000;

// The depth of the filled context.
fn filled_depth(context: &Term, part: &Term) -> u32
    requires { IsTrue (is_context (tree_of context.now)) }
    ensures { result ≡ tree_depth (fill_of (tree_of context.now) (tree_of part.now)) }
{
    context.depth().max(path_length(context) + part.depth())
}

// The nodes of the filled context.
fn filled_nodes(context: &Term, part: &Term) -> u32
    requires { IsTrue (is_context (tree_of context.now)) }
    ensures { result ≡ tree_nodes (fill_of (tree_of context.now) (tree_of part.now)) }
{
    context.nodes() + part.nodes() - 1
}

// That the context is within the limits once it is filled, or which of them it passes.
fn check_limits(context: &Term, part: &Term) -> Result<(), FillFault>
    requires { IsTrue (is_context (tree_of context.now)) }
    ensures ok { OnOk result (KeepsLimits (fill_of (tree_of context.now) (tree_of part.now))) }
    ensures not_context { (h : ℕ) → IsErrOf result (FillFault.NotContext h) → ⊥ }
    ensures too_deep { IsErrOf result FillFault.TooDeep
        ↔ IsTooDeep (fill_of (tree_of context.now) (tree_of part.now)) }
    ensures too_large { IsErrOf result FillFault.TooLarge
        ↔ IsTooLarge (fill_of (tree_of context.now) (tree_of part.now)) }
{
    if filled_depth(context, part) > MAX_DEPTH {
        Err(FillFault::TooDeep)
    } else if filled_nodes(context, part) > MAX_NODES {
        Err(FillFault::TooLarge)
    } else {
        Ok(())
    }
}

// The context filled with the part; what is no context stays as it is.
fn filled(alloc: Global, context: &Term, part: &Term) -> Result<Term, NoMemory>
    requires { KeepsLimits (fill_of (tree_of context.now) (tree_of part.now)) }
    ensures { IfOk result (λ t. tree_of t ≡ fill_of (tree_of context.now) (tree_of part.now)) }
{
    match context {
        Term::Hole => part.share(),
        Term::Int(_) | Term::Bool(_) | Term::Str(_) | Term::Sym(_) => context.share(),
        Term::List(node) => match node.mark() {
            None => context.share(),
            Some(k) => {
                let items = node.items();
                let item = filled(alloc, &items[k], part)?;
                replaced(alloc, items, k, item)
            }
        },
    }
}

/// The context with the part in place of the hole to which its marks lead. A list on the way stays marked where the filled item is a
/// context; otherwise it is marked exactly where one hole is left in it. What stands beside the path is shared.
pub fn fill(alloc: Global, context: &Term, part: &Term) -> Result<Term, FillFault>
    ensures ok { IfOk result (λ t. tree_of t ≡ fill_of (tree_of context.now) (tree_of part.now)) }
    ensures not_context { (h : ℕ) →
        IsErrOf result (FillFault.NotContext h) ↔ IsNoContext (tree_of context.now) h }
    ensures too_deep { IsErrOf result FillFault.TooDeep
        ↔ FillsTooDeep (tree_of context.now) (tree_of part.now) }
    ensures too_large { IsErrOf result FillFault.TooLarge
        ↔ FillsTooLarge (tree_of context.now) (tree_of part.now) }
{
    if !context.is_context() {
        return Err(FillFault::NotContext(context.holes()));
    }
    check_limits(context, part)?;
    Ok(filled(alloc, context, part)?)
}
