//! Joins of whole lists of bindings.
ghost use Rattle.std.specs.Prelude.{◌≡◌, ◌↔◌, ◌∷◌, [], IfOk, IsTrue, OnOk, if◌then◌else◌};
ghost use Rattle.rdx_lang.specs.Ascending.{IsAscending};
ghost use Rattle.rdx_lang.specs.Bindings as model;
ghost use Rattle.rdx_lang.specs.Bindings.{no_names, one_name};
ghost use Rattle.rdx_lang.specs.Join.{IsJoin};
ghost use Rattle.rdx_lang.specs.Order.{binding_cmp};
ghost use Rattle.rdx_lang.specs.Shown.{binding_of, bindings_of};
ghost use Rattle.rdx_term.specs.View.{tree_of};
ghost use Rattle.rdx_bind.specs.Combining.{AddsBindings, JoinsWith, Joined, Lists, Named};
ghost use Rattle.rdx_bind.specs.Namings.{naming_of};

use crate::joining::join;
use crate::naming::Naming;
use crate::single::one;
use crate::sorting::listing;
use rdx_lang::{Binding, Value};
use rdx_term::{Name, NoMemory, Term};
use std::alloc::Global;

/// The binding without pairs alone, or none.
#[inline(never)]
pub fn empty_where(alloc: Global, holds: bool) -> Result<Vec<Binding>, NoMemory>
    ensures { IfOk result (λ found. bindings_of found.items ≡ (if holds then no_names ∷ [] else [])) }
{
    let mut found = Vec::new(alloc);
    if holds {
        found.push(Binding::new(Vec::new(alloc)))?;
    }
    Ok(found)
}

// Adds the join of the two, where they have one.
fn add_join(
    alloc: Global,
    a: &Binding,
    b: &Binding,
    found: &mut Vec<Binding>,
) -> Result<(), NoMemory>
    ensures { OnOk result (AddsBindings (IsJoin (binding_of a.now) (binding_of b.now)) found.old found.new) }
{
    if let Some(joined) = join(alloc, a, b)? {
        found.push(joined)?;
    }
    Ok(())
}

// Adds each join of `first` with one of `others`.
fn add_joins(
    alloc: Global,
    first: &Binding,
    others: &[Binding],
    found: &mut Vec<Binding>,
) -> Result<(), NoMemory>
    ensures { OnOk result (AddsBindings (JoinsWith (bindings_of others.now) (binding_of first.now)) found.old found.new) }
{
    for other in others {
        add_join(alloc, first, other, found)?;
    }
    Ok(())
}

/// The same, where `others` is of no more use.
#[inline(never)]
pub fn add_all_joins(
    alloc: Global,
    first: &Binding,
    others: Vec<Binding>,
    found: &mut Vec<Binding>,
) -> Result<(), NoMemory>
    ensures { OnOk result (AddsBindings (JoinsWith (bindings_of others.items) (binding_of first.now)) found.old found.new) }
{
    add_joins(alloc, first, &others, found)
}

/// The joins of each of `firsts` with each of `others`.
pub fn joins(
    alloc: Global,
    firsts: &[Binding],
    others: &[Binding],
) -> Result<Vec<Binding>, NoMemory>
    ensures { Lists result (Joined (bindings_of firsts.now) (bindings_of others.now)) }
{
    let mut found = Vec::new(alloc);
    for first in firsts {
        add_joins(alloc, first, others, &mut found)?;
    }
    listing(alloc, found)
}

/// Adds the joins of each of `firsts` with each of `others`. They aren't copied where the binding of
/// no name alone is among `others`.
pub fn add_all(
    alloc: Global,
    firsts: Vec<Binding>,
    others: &[Binding],
    found: &mut Vec<Binding>,
) -> Result<(), NoMemory>
    ensures { OnOk result (AddsBindings (Joined (bindings_of firsts.items) (bindings_of others.now)) found.old found.new) }
{
    if is_no_names_alone(others) {
        let mut added = firsts;
        found.append(&mut added)?;
        return Ok(());
    }
    for first in &firsts {
        add_joins(alloc, first, others, found)?;
    }
    Ok(())
}

/// Whether the binding of no name is there, and no other.
pub fn is_no_names_alone(bindings: &[Binding]) -> bool
    ensures { IsTrue result ↔ (bindings_of bindings.now ≡ no_names ∷ []) }
{
    bindings.len() == 1 && bindings[0].pairs().is_empty() && bindings[0].differs().is_empty()
}

/// The joins of each of `firsts` with each of `others`, where both are listings.
pub fn joins_of(
    alloc: Global,
    firsts: Vec<Binding>,
    others: Vec<Binding>,
) -> Result<Vec<Binding>, NoMemory>
    requires firsts { IsAscending binding_cmp (bindings_of firsts.items) }
    requires others { IsAscending binding_cmp (bindings_of others.items) }
    ensures { Lists result (Joined (bindings_of firsts.items) (bindings_of others.items)) }
{
    if is_no_names_alone(&firsts) {
        return Ok(others);
    }
    if is_no_names_alone(&others) {
        return Ok(firsts);
    }
    joins(alloc, &firsts, &others)
}

/// The binding of the name to the term.
pub fn one_pair(alloc: Global, name: &Name, t: &Term) -> Result<Binding, NoMemory>
    ensures { IfOk result (λ b. binding_of b ≡ one_name name.now (model.one (tree_of t.now))) }
{
    one(alloc, name, Value::One(t.share()?))
}

/// Each of `firsts` joined with what the name alone binds for the term.
#[inline(never)]
pub fn with_name(
    alloc: Global,
    firsts: &[Binding],
    name: Naming<'_>,
    t: &Term,
) -> Result<Vec<Binding>, NoMemory>
    ensures { Lists result (Named (bindings_of firsts.now) (naming_of name.entry) (tree_of t.now)) }
{
    let named = name.alone(alloc, t)?;
    let mut found = Vec::new(alloc);
    for first in firsts {
        add_join(alloc, first, &named, &mut found)?;
    }
    listing(alloc, found)
}
