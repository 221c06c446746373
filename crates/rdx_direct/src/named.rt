// Bindings with one name more.
ghost use Rattle.std.specs.Prelude.{◌≡◌, ℕ, List, OnOk, IfOk, IfSome};
ghost use Rattle.rdx_lang.specs.BindingView.{value_of};
ghost use Rattle.rdx_lang.specs.Bindings.{one, one_name};
ghost use Rattle.rdx_lang.specs.Collecting.{HasExactly, Arises};
ghost use Rattle.rdx_lang.specs.Join.{IsJoin};
ghost use Rattle.rdx_lang.specs.Shown.{binding_of, bindings_of};
ghost use Rattle.rdx_term.specs.AtPaths.{context_at, tree_at, IsPlace};
ghost use Rattle.rdx_term.specs.Tree.{tree_nodes};
ghost use Rattle.rdx_lang.specs.Members.{In};
ghost use Rattle.rdx_term.specs.View.{tree_of};
ghost use Rattle.rdx_bind.specs.Combining.{AddsBindings};
ghost use Rattle.rdx_bind.specs.Namings.{alone, naming_of};
ghost use Rattle.rdx_direct.specs.Inside.Going.{Joins, OnlyOf};

use crate::halt::Halt;
use crate::joined::with_binding;
use rdx_bind::naming::Naming;
use rdx_fill::context_around;
use rdx_lang::{Binding, Item, Pat, Value};
use rdx_term::{Name, NoMemory, Term};
use std::alloc::Global;

// Adds the binding with the name too, where it may have it.
fn add_with(
    binding: Binding,
    name: &Name,
    value: &Value,
    found: &mut Vec<Binding>,
) -> Result<(), NoMemory>
    ensures { OnOk result (AddsBindings
        (IsJoin (binding_of binding) (one_name name.now (value_of value.now)))
        found.old found.new) }
{
    if let Some(joined) = binding.joined_with(name, value)? {
        found.push(joined)?;
    }
    Ok(())
}

/// Those of the bindings that may have the name for the value, with it.
pub(crate) fn with_value(
    alloc: Global,
    given: Vec<Binding>,
    name: &Name,
    value: &Value,
) -> Result<Vec<Binding>, NoMemory>
    ensures { IfOk result (λ found. HasExactly (bindings_of found.items)
        (Joins (one_name name.now (value_of value.now)) (bindings_of given.items))) }
{
    let mut rest = given;
    if rest.len() == 1 {
        let Some(binding) = rest.pop() else {
            return Ok(rest);
        };
        add_with(binding, name, value, &mut rest)?;
        return Ok(rest);
    }
    let mut found = Vec::with_capacity(alloc, rest.len())?;
    while let Some(binding) = rest.pop() {
        add_with(binding, name, value, &mut found)?;
    }
    Ok(found)
}

/// Those of the bindings that may have the name for the term, with it.
pub(crate) fn with(
    alloc: Global,
    given: Vec<Binding>,
    name: Naming<'_>,
    t: &Term,
) -> Result<Vec<Binding>, Halt>
    ensures { IfOk result (λ found. HasExactly (bindings_of found.items)
        (Joins (alone (naming_of name.entry) (tree_of t.now)) (bindings_of given.items))) }
{
    match name {
        Naming::Binds(bound) => {
            let value = Value::One(t.share()?);
            Ok(with_value(alloc, given, bound, &value)?)
        }
        Naming::Differs(_) => {
            let other = name.alone(alloc, t)?;
            Ok(with_binding(alloc, given, &other)?)
        }
    }
}

/// Those of the bindings that may have the name for the context around the part at this path, with it.
pub(crate) fn with_context(
    alloc: Global,
    given: Vec<Binding>,
    name: &Name,
    t: &Term,
    path: &[usize],
) -> Result<Vec<Binding>, Halt>
    requires { IsPlace (tree_of t.now) path.now }
    ensures { IfOk result (λ found. HasExactly (bindings_of found.items)
        (Joins (one_name name.now (one (context_at (tree_of t.now) path.now)))
        (bindings_of given.items))) }
{
    if given.is_empty() {
        return Ok(given);
    }
    let context = context_around(alloc, t, path)?;
    with(alloc, given, Naming::Binds(name), &context)
}

/// How many nodes the part has around which a context stands that the name is bound to, where one
/// binding is given and has it.
pub(crate) fn part_nodes(given: &[Binding], name: &Name, t: &Term) -> Option<u32>
    ensures { IfSome result (λ k. (w : List ℕ) (g : _) → IsPlace (tree_of t.now) w
        → In g (bindings_of given.now) → OnlyOf name.now (one (context_at (tree_of t.now) w)) g
        → tree_nodes (tree_at (tree_of t.now) w) ≡ k) }
{
    if given.len() != 1 {
        return None;
    }
    match given[0].get(name)? {
        Value::One(context) => Some((t.nodes() + 1).saturating_sub(context.nodes())),
        Value::Len(_) | Value::Many(_) => None,
    }
}

/// Whether the pattern has the name.
#[cycle(has)]
pub(crate) fn has_name(pat: &Pat, name: &Name) -> bool {
    match pat {
        Pat::Wild
        | Pat::Kind(_)
        | Pat::Except(_)
        | Pat::Prefix(_)
        | Pat::Hole
        | Pat::Lit(_)
        | Pat::Nt(_)
        | Pat::Closed(_) => false,
        Pat::Named(other, inner) => other.text() == name.text() || has_name(inner, name),
        Pat::InHole(left, right) => has_name(left, name) || has_name(right, name),
        Pat::Differ(_, inner) | Pat::HideHole(inner) => has_name(inner, name),
        Pat::Seq(items) => have_name(items, name),
    }
}

// Whether the items have it.
#[cycle(has)]
fn have_name(items: &[Item], name: &Name) -> bool {
    for item in items {
        let (Item::One(pat) | Item::Many(pat, _)) = item;
        if has_name(pat, name) {
            return true;
        }
    }
    false
}
