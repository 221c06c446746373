// Bindings joined with one.
ghost use Rattle.std.specs.Prelude.{OnOk, IfOk};
ghost use Rattle.rdx_lang.specs.Collecting.{Adds, HasExactly};
ghost use Rattle.rdx_lang.specs.Join.{IsJoin};
ghost use Rattle.rdx_lang.specs.Members.{In};
ghost use Rattle.rdx_lang.specs.Shown.{binding_of, bindings_of};
ghost use Rattle.rdx_bind.specs.Combining.{AddsBindings};
ghost use Rattle.rdx_direct.specs.Inside.Going.{Joins};

use rdx_bind::join_into;
use rdx_lang::Binding;
use rdx_term::NoMemory;
use std::alloc::Global;

// Adds the join of both, where there is one.
fn add_join(
    alloc: Global,
    binding: Binding,
    other: &Binding,
    found: &mut Vec<Binding>,
) -> Result<(), NoMemory>
    ensures { OnOk result (AddsBindings (IsJoin (binding_of binding) (binding_of other.now))
        found.old found.new) }
{
    if let Some(joined) = join_into(alloc, binding, other)? {
        found.push(joined)?;
    }
    Ok(())
}

/// The joins of each of the bindings with this one.
pub(crate) fn with_binding(
    alloc: Global,
    given: Vec<Binding>,
    other: &Binding,
) -> Result<Vec<Binding>, NoMemory>
    ensures { IfOk result (λ found. HasExactly (bindings_of found.items)
        (Joins (binding_of other.now) (bindings_of given.items))) }
{
    if other.pairs().is_empty() && other.differs().is_empty() {
        return Ok(given);
    }
    let mut rest = given;
    let mut found = Vec::with_capacity(alloc, rest.len())?;
    while let Some(binding) = rest.pop() {
        add_join(alloc, binding, other, &mut found)?;
    }
    Ok(found)
}

/// Puts those of one list to those of another.
pub(crate) fn add_all(found: &mut Vec<Binding>, more: Vec<Binding>) -> Result<(), NoMemory>
    ensures { OnOk result (Adds (λ b. In b (bindings_of more.items))
        (bindings_of found.old.items) (bindings_of found.new.items)) }
{
    if found.is_empty() {
        *found = more;
    } else if !more.is_empty() {
        let mut added = more;
        found.append(&mut added)?;
    }
    Ok(())
}
