// Whether a context is another one, filled.
ghost use Rattle.std.specs.Prelude.{◌≡◌, ◌↔◌, ◌<◌, IfOk, IsTrue, false};
ghost use Rattle.rdx_term.specs.Context.{is_context};
ghost use Rattle.rdx_term.specs.Fill.{fill_of};
ghost use Rattle.rdx_term.specs.View.{tree_of};

use rdx_fill::{FillFault, fill};
use rdx_term::{NoMemory, Term};
use std::alloc::Global;

/// Whether the one context, filled with the second, is the third; what is no context stays as it is.
#[tactic(auto, using(crate::proofs::Filling::stays, crate::proofs::Filling::not_deep, crate::proofs::Filling::not_large))]
pub fn is_filled(
    alloc: Global,
    first: &Term,
    second: &Term,
    context: &Term,
) -> Result<bool, NoMemory>
    ensures { IfOk result (λ r. IsTrue r
        ↔ (tree_of context.now ≡ fill_of (tree_of first.now) (tree_of second.now))) }
{
    let _depth = context.depth();
    if !first.is_context() {
        return Ok(context.same(first));
    }
    match fill(alloc, first, second) {
        Ok(filled) => Ok(context.same(&filled)),
        Err(fault) => match fault {
            FillFault::NoMemory => Err(NoMemory),
            FillFault::NotContext(_) => unreachable!(),
            FillFault::TooDeep => Ok(false),
            FillFault::TooLarge => Ok(false),
        },
    }
}
