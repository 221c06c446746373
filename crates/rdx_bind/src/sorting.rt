// The order of bindings, and strictly ascending lists of them.
ghost use Rattle.std.specs.Prelude.{◌≡◌, ◌↔◌, IfOk, IsTrue};
ghost use Rattle.rdx_lang.specs.Listing.{IsListing};
ghost use Rattle.rdx_lang.specs.Members.{In};
ghost use Rattle.rdx_lang.specs.Order.{binding_cmp};
ghost use Rattle.rdx_lang.specs.Shown.{binding_of, bindings_of};
ghost use Rattle.rdx_bind.specs.Inside.Alike.{is_equal};

use rdx_lang::Binding;
use rdx_term::NoMemory;
use std::alloc::Global;
use std::cmp::Ordering;
use std::collections::BTreeSet;

/// The order of bindings: pair by pair, by the bytes of the name and then by the value, a proper
/// prefix first.
pub fn compare(a: &Binding, b: &Binding) -> Ordering
    ensures { result ≡ binding_cmp (binding_of a.now) (binding_of b.now) }
{
    a.compare(b)
}

// The same as a comparison.
fn compares_equal(a: &Binding, b: &Binding) -> bool
    ensures { result ≡ is_equal (binding_cmp (binding_of a.now) (binding_of b.now)) }
{
    match a.compare(b) {
        Ordering::Equal => true,
        Ordering::Less | Ordering::Greater => false,
    }
}

/// Whether the two bindings are equal, mismatch names included.
#[tactic(auto, using(crate::proofs::SameBindings::bindings_alike))]
pub fn is_same(a: &Binding, b: &Binding) -> bool
    ensures { IsTrue result ↔ (binding_of a.now ≡ binding_of b.now) }
{
    compares_equal(a, b)
}

// The members of a set, ascending.
fn bindings_in(alloc: Global, set: BTreeSet<Binding>) -> Result<Vec<Binding>, NoMemory>
    ensures { IfOk result (λ keys. keys.items ≡ set.keys) }
{
    let keys = set.into_iter().collect(alloc)?;
    Ok(keys)
}

/// The strictly ascending list of the same bindings.
pub fn listing(alloc: Global, found: Vec<Binding>) -> Result<Vec<Binding>, NoMemory>
    ensures { IfOk result (λ listed. IsListing binding_cmp (bindings_of listed.items)
        (λ b. In b (bindings_of found.items))) }
{
    let is_listed = found.len() < 2;
    if is_listed {
        return Ok(found);
    }
    let mut rest = found;
    let mut set = BTreeSet::new(alloc);
    while let Some(binding) = rest.pop() {
        set.insert(binding)?;
    }
    bindings_in(alloc, set)
}
