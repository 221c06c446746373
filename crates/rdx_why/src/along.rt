// The context that a binding has, and what stands where its marks lead.
ghost use Rattle.std.specs.Prelude.{IfOk, IfSome};
ghost use Rattle.rdx_lang.specs.Laws.{IsAlongPath};
ghost use Rattle.rdx_lang.specs.PatternView.{pattern_of};
ghost use Rattle.rdx_lang.specs.Shown.{binding_of};
ghost use Rattle.rdx_term.specs.Tree.{Tree};
ghost use Rattle.rdx_term.specs.View.{tree_of};
ghost use Rattle.rdx_why.specs.Inside.Contexts.{HasContext};

use rdx_fill::{part_at, path_of};
use rdx_lang::{Binding, Pat, Value};
use rdx_term::{NoMemory, Term};
use std::alloc::Global;

/// The context that the binding has under the name of the pattern, where it has one.
pub(crate) fn named_context<'a>(pat: &Pat, b: &'a Binding) -> Option<&'a Term>
    ensures { IfSome result (λ C.
        HasContext (pattern_of pat.now) (binding_of b.now) (tree_of C.now)) }
{
    match pat {
        Pat::Named(x, _) => match b.get(x)? {
            Value::One(context) => Some(context),
            Value::Many(_) | Value::Len(_) => None,
        },
        Pat::Wild
        | Pat::Kind(_)
        | Pat::Except(_)
        | Pat::Prefix(_)
        | Pat::Hole
        | Pat::Lit(_)
        | Pat::Nt(_)
        | Pat::Differ(_, _)
        | Pat::InHole(_, _)
        | Pat::HideHole(_)
        | Pat::Closed(_)
        | Pat::Seq(_) => None,
    }
}

/// What stands in the term where the marks of the context lead.
pub(crate) fn part_along<'a>(
    alloc: Global,
    context: &Term,
    t: &'a Term,
) -> Result<&'a Term, NoMemory>
    requires { (s : Tree) × IsAlongPath (tree_of t.now) (tree_of context.now) s }
    ensures { IfOk result (λ s.
        IsAlongPath (tree_of t.now) (tree_of context.now) (tree_of s.now)) }
{
    let Some(path) = path_of(alloc, context)? else {
        unreachable!()
    };
    Ok(part_at(t, &path))
}
