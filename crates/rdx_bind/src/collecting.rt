// What a repetition binds.
ghost use Rattle.std.specs.Prelude.{◌≡◌, ◌<◌, length, map, IfNone, IfOk, IfSome};
ghost use Rattle.rdx_lang.specs.Ascending.{IsAscending};
ghost use Rattle.rdx_lang.specs.Bindings.{bound_names, name_cmp};
ghost use Rattle.rdx_lang.specs.BindingView.{pairs_of, value_of};
ghost use Rattle.rdx_lang.specs.Collections.{IsCollection};
ghost use Rattle.rdx_lang.specs.Members.{In};
ghost use Rattle.rdx_lang.specs.Shown.{binding_of, bindings_of};
ghost use Rattle.rdx_bind.specs.Inside.ValueColumns.{column, columns_from, pair_at};

use crate::sets::all_sets;
use rdx_lang::{Binding, Value};
use rdx_term::{Name, NoMemory};
use std::alloc::Global;

// What the binding has at this place.
fn value_at(binding: &Binding, place: usize) -> &Value
    requires { place < length (binding_of binding.now).pairs }
    ensures { value_of result.now ≡ (pair_at place (binding_of binding.now).pairs).1 }
{
    let pairs = binding.pairs();
    &pairs[place].1
}

// What each of the bindings has at this place, in their order.
fn values_at(alloc: Global, list: &[Binding], place: usize) -> Result<Vec<Value>, NoMemory>
    requires { (b : _) → In b (bindings_of list.now) → place < length b.pairs }
    ensures { IfOk result (λ vs. map value_of vs.items ≡ column place (bindings_of list.now)) }
{
    let mut values = Vec::with_capacity(alloc, list.len())?;
    for binding in list {
        let value = value_at(binding, place).share()?;
        values.push(value)?;
    }
    Ok(values)
}

// Each name with what the bindings have at its place.
fn value_columns(
    alloc: Global,
    names: &[Name],
    list: &[Binding],
) -> Result<Vec<(Name, Value)>, NoMemory>
    requires { (b : _) → In b (bindings_of list.now) → bound_names b ≡ names.now }
    ensures { IfOk result (λ pairs.
        pairs_of pairs.items ≡ columns_from 0 names.now (bindings_of list.now)) }
{
    let mut pairs = Vec::with_capacity(alloc, names.len())?;
    for (place, name) in names.iter().enumerate() {
        let values = values_at(alloc, list, place)?;
        pairs.push((name.share()?, Value::Many(values)))?;
    }
    Ok(pairs)
}

/// The binding of each of the names to the sequence of what it stands for in each of the bindings,
/// in their order, and of each mismatch name to the terms of its sets in all of them; `None` exactly
/// where a mismatch name has a term in two of these, marks included. The names ascend, and each of the
/// bindings binds exactly these.
pub fn collect(alloc: Global, names: &[Name], list: &[Binding]) -> Result<Option<Binding>, NoMemory>
    requires ascending { IsAscending name_cmp names.now }
    requires bound { (b : _) → In b (bindings_of list.now) → bound_names b ≡ names.now }
    ensures some { IfOk result (λ r. IfSome r (λ c.
        IsCollection names.now (bindings_of list.now) (binding_of c))) }
    ensures none { IfOk result (λ r. IfNone r (
        (c : _) → ¬ IsCollection names.now (bindings_of list.now) c)) }
{
    match all_sets(alloc, list)? {
        None => Ok(None),
        Some(differs) => {
            let pairs = value_columns(alloc, names, list)?;
            Ok(Some(Binding::with_differs(pairs, differs)))
        }
    }
}
