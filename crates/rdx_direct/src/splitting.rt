// What a term is split into at the ends of paths.
ghost use Rattle.std.specs.Prelude.{◌≡◌, IfOk, IsTrue, List, ℕ};
ghost use Rattle.rdx_lang.specs.Ascending.{IsAscending};
ghost use Rattle.rdx_lang.specs.Collecting.{Arises, HasExactly};
ghost use Rattle.rdx_lang.specs.Listing.{IsListing};
ghost use Rattle.rdx_lang.specs.Members.{In};
ghost use Rattle.rdx_lang.specs.Order.{decomposition_cmp};
ghost use Rattle.rdx_lang.specs.Shown.{decomposition_of, decompositions_of};
ghost use Rattle.rdx_term.specs.AtPaths.{IsPlace};
ghost use Rattle.rdx_term.specs.View.{tree_of};
ghost use Rattle.rdx_direct.specs.Inside.Paths.{paths_in};
ghost use Rattle.rdx_direct.specs.Inside.Splits.{IsNamedSplit, IsPlainSplit};
ghost use Rattle.rdx_direct.specs.Inside.Splits.{named_split, plain_split};

use rdx_bind::{listing_splits, one};
use rdx_fill::{context_around, part_at};
use rdx_lang::{Binding, Split, Value};
use rdx_term::{Name, NoMemory, Term};
use std::alloc::Global;
use std::cmp::Ordering;

// What the term is split into at the end of the path, with no names.
fn plain_split(alloc: Global, t: &Term, path: &[usize]) -> Result<Split, NoMemory>
    requires { IsPlace (tree_of t.now) path.now }
    ensures { IfOk result (λ d. decomposition_of d ≡ plain_split (tree_of t.now) path.now) }
{
    let context = context_around(alloc, t, path)?;
    let part = part_at(t, path).share()?;
    Ok(Split {
        context,
        part,
        binding: Binding::new(Vec::new(alloc)),
    })
}

/// What the term is split into at the ends of the paths, with no names.
pub(crate) fn plain_splits(
    alloc: Global,
    t: &Term,
    paths: &[Vec<usize>],
) -> Result<Vec<Split>, NoMemory>
    requires { (w : List ℕ) → In w (paths_in paths.now) → IsPlace (tree_of t.now) w }
    ensures { IfOk result (λ found. HasExactly (decompositions_of found.items)
        (Arises (IsPlainSplit (tree_of t.now)) (paths_in paths.now))) }
{
    let mut found = Vec::with_capacity(alloc, paths.len())?;
    for path in paths {
        let split = plain_split(alloc, t, path)?;
        found.push(split)?;
    }
    Ok(found)
}

// The same with a name for the context.
fn named_split(alloc: Global, t: &Term, path: &[usize], name: &Name) -> Result<Split, NoMemory>
    requires { IsPlace (tree_of t.now) path.now }
    ensures { IfOk result (λ d. decomposition_of d
        ≡ named_split name.now (tree_of t.now) path.now) }
{
    let Split {
        context,
        part,
        binding: _,
    } = plain_split(alloc, t, path)?;
    let binding = one(alloc, name, Value::One(context.share()?))?;
    Ok(Split {
        context,
        part,
        binding,
    })
}

/// What the term is split into at the ends of the paths, with a name for the context.
pub(crate) fn named_splits(
    alloc: Global,
    t: &Term,
    paths: &[Vec<usize>],
    name: &Name,
) -> Result<Vec<Split>, NoMemory>
    requires { (w : List ℕ) → In w (paths_in paths.now) → IsPlace (tree_of t.now) w }
    ensures { IfOk result (λ found. HasExactly (decompositions_of found.items)
        (Arises (IsNamedSplit name.now (tree_of t.now)) (paths_in paths.now))) }
{
    let mut found = Vec::with_capacity(alloc, paths.len())?;
    for path in paths {
        let split = named_split(alloc, t, path, name)?;
        found.push(split)?;
    }
    Ok(found)
}

// Whether each of the splits is before the next one.
fn ascend(found: &[Split]) -> bool
    ensures { IsTrue result → IsAscending decomposition_cmp (decompositions_of found.now) }
{
    for i in 1..found.len() {
        if found[i - 1].compare(&found[i]) != Ordering::Less {
            return false;
        }
    }
    true
}

/// The strictly ascending list of the same splits. Paths mostly come in the order of the contexts
/// around their ends.
pub(crate) fn listed(alloc: Global, found: Vec<Split>) -> Result<Vec<Split>, NoMemory>
    ensures { IfOk result (λ listed. IsListing decomposition_cmp (decompositions_of listed.items)
        (λ d. In d (decompositions_of found.items))) }
{
    if ascend(&found) {
        return Ok(found);
    }
    listing_splits(alloc, found)
}
