// Lists that are made of items that may be too large.
ghost use Rattle.std.specs.Prelude.{◌≡◌, ◌<◌, ◌+◌, IfOk, IfErr, OnOk, OnErr, ℕ, false, true};
ghost use Rattle.std.specs.Prelude.{map, ◌++◌, [], ◌∷◌};
ghost use Rattle.rdx_term.specs.Tree.{Tree, Trees, cons, nil, tree_depth, trees_depth};
ghost use Rattle.rdx_term.specs.Limits.{KeepsLimits};
ghost use Rattle.rdx_term.specs.Building.{list_of};
ghost use Rattle.rdx_term.specs.View.{tree_of, trees_of};
ghost use Rattle.rdx_alpha.specs.Inside.Stops.{IsStopOf, IsOutcomeOf, Completes};

use crate::stop::{Made, Stop};
use rdx_term::{Build, NoMemory, Term, list};
use std::alloc::Global;

const MAX_DEPTH: u32 = 500;

// Adds a term.
pub(crate) fn add_term(term: Term, terms: &mut Vec<Term>) -> Result<(), NoMemory>
    ensures { OnOk result (map tree_of terms.new.items
        ≡ map tree_of terms.old.items ++ tree_of term ∷ []) }
{
    terms.push(term)?;
    Ok(())
}

// The list of these items, within the limits.
pub(crate) fn built(alloc: Global, items: Vec<Term>) -> Result<Term, NoMemory>
    requires { KeepsLimits (list_of (trees_of items.items)) }
    ensures { IfOk result (λ t. tree_of t ≡ list_of (trees_of items.items)) }
{
    match list(alloc, items) {
        Ok(term) => Ok(term),
        Err(Build::NoMemory) => Err(NoMemory),
        Err(Build::TooDeep | Build::TooLarge) => unreachable!(),
    }
}

// Adds an item that was built, or notes why it was not.
pub(crate) fn add_made(item: Result<Term, Stop>, made: &mut Made) -> Result<(), Stop>
    ensures ok { OnOk result ((u : Tree) (rest whole : Trees) → IsOutcomeOf item u
        → Completes made.old (cons u rest) whole → Completes made.new rest whole) }
    ensures err { IfErr result (λ stop. (u : Tree) → IsOutcomeOf item u → IsStopOf stop u) }
    ensures never_large { IfErr result (λ stop. (d : ℕ) → stop ≡ Stop.TooLarge d → ⊥) }
{
    match item {
        Ok(term) => {
            let depth = term.depth();
            add_term(term, &mut made.items)?;
            made.depth = made.depth.max(depth);
            Ok(())
        }
        Err(Stop::TooLarge(depth)) => {
            made.large = true;
            made.depth = made.depth.max(depth);
            Ok(())
        }
        Err(Stop::TooDeep) => Err(Stop::TooDeep),
        Err(Stop::NoMemory) => Err(Stop::NoMemory),
    }
}

// The list of the items that were made.
pub(crate) fn made_list(alloc: Global, made: Made) -> Result<Term, Stop>
    ensures ok { IfOk result (λ t. (whole : Trees) → Completes made nil whole
        → tree_of t ≡ list_of whole) }
    ensures err { IfErr result (λ stop. (whole : Trees) → Completes made nil whole
        → IsStopOf stop (list_of whole)) }
{
    if made.depth >= MAX_DEPTH {
        return Err(Stop::TooDeep);
    }
    let depth = made.depth + 1;
    if made.large {
        return Err(Stop::TooLarge(depth));
    }
    match list(alloc, made.items) {
        Ok(term) => Ok(term),
        Err(Build::TooDeep) => Err(Stop::TooDeep),
        Err(Build::TooLarge) => Err(Stop::TooLarge(depth)),
        Err(Build::NoMemory) => Err(Stop::NoMemory),
    }
}
