// Bindings of one name, and what is seen of a binding.
ghost use Rattle.std.specs.Prelude.{◌≡◌, IfOk};
ghost use Rattle.rdx_term.specs.View.{tree_of};
ghost use Rattle.rdx_lang.specs.Bindings as model;
ghost use Rattle.rdx_lang.specs.BindingView.{value_of};
ghost use Rattle.rdx_lang.specs.Shown.{binding_of};

use crate::joining::push_rest;
use rdx_lang::{Binding, Value};
use rdx_term::{Name, NoMemory, Term};
use std::alloc::Global;

/// The binding of this name alone.
pub fn one(alloc: Global, name: &Name, value: Value) -> Result<Binding, NoMemory>
    ensures { IfOk result (λ b. binding_of b ≡ model.one_name name.now (value_of value)) }
{
    let mut pairs = Vec::with_capacity(alloc, 1)?;
    pairs.push((name.share()?, value))?;
    Ok(Binding::new(pairs))
}

/// The binding of no name, and of this mismatch name alone, whose set is of this term alone.
pub fn differ(alloc: Global, name: &Name, t: &Term) -> Result<Binding, NoMemory>
    ensures { IfOk result (λ b. binding_of b ≡ model.one_differs name.now (tree_of t.now)) }
{
    let mut terms = Vec::with_capacity(alloc, 1)?;
    terms.push(t.share()?)?;
    let mut differs = Vec::with_capacity(alloc, 1)?;
    differs.push((name.share()?, terms))?;
    Ok(Binding::with_differs(Vec::new(alloc), differs))
}

/// What is seen of the binding: its names, without its mismatch names.
pub fn visible(alloc: Global, b: &Binding) -> Result<Binding, NoMemory>
    ensures { IfOk result (λ seen. binding_of seen ≡ model.visible (binding_of b.now)) }
{
    let mut pairs = Vec::new(alloc);
    push_rest(&mut pairs, b.pairs(), 0)?;
    Ok(Binding::new(pairs))
}
