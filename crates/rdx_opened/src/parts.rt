// What the binding of a whole says of its parts.
ghost use Rattle.std.specs.Prelude.{◌≡◌, ◌++◌, IfOk, OnOk, Some, option_map};
ghost use Rattle.rdx_lang.specs.Ascending.{IsAscending};
ghost use Rattle.rdx_lang.specs.Bindings.{name_cmp, value_at};
ghost use Rattle.rdx_lang.specs.BindingView.{found_value, pairs_of, value_of};
ghost use Rattle.rdx_lang.specs.Shown.{binding_of};
ghost use Rattle.rdx_opened.specs.Picking as picking;

use rdx_lang::{Binding, Value};
use rdx_term::{Name, NoMemory};
use std::alloc::Global;

// Puts the name with the value behind the others, where there is a value.
fn push_where(
    pairs: &mut Vec<(Name, Value)>,
    name: &Name,
    value: Option<&Value>,
) -> Result<(), NoMemory>
    ensures { OnOk result (pairs_of pairs.new.items
        ≡ pairs_of pairs.old.items ++ picking.pair_where name.now (found_value value.entry)) }
{
    if let Some(value) = value {
        pairs.push((name.share()?, value.share()?))?;
    }
    Ok(())
}

/// What the binding says of these names.
pub fn restricted(alloc: Global, b: &Binding, names: &[Name]) -> Result<Binding, NoMemory>
    requires { IsAscending name_cmp names.now }
    ensures { IfOk result (λ c. binding_of c ≡ picking.picked (binding_of b.now) names.now) }
{
    let mut pairs = Vec::new(alloc);
    for name in names {
        push_where(&mut pairs, name, b.get(name))?;
    }
    Ok(Binding::new(pairs))
}

// What the value is in a turn of a repetition.
fn value_in_turn(value: &Value, turn: usize) -> Option<&Value>
    ensures { found_value result ≡ picking.turn_value (Some (value_of value.now)) turn }
{
    match value {
        Value::One(_) => None,
        Value::Many(values) => values.get(turn),
        Value::Len(_) => None,
    }
}

// What the name stands for in a turn of a repetition.
fn get_in_turn<'a>(b: &'a Binding, name: &Name, turn: usize) -> Option<&'a Value>
    ensures { found_value result
        ≡ picking.turn_value (value_at (binding_of b.now) name.now) turn }
{
    match b.get(name) {
        Some(value) => value_in_turn(value, turn),
        None => None,
    }
}

/// What it says of them in a turn of a repetition.
pub fn in_turn(alloc: Global, b: &Binding, names: &[Name], turn: usize) -> Result<Binding, NoMemory>
    requires { IsAscending name_cmp names.now }
    ensures { IfOk result (λ c. binding_of c ≡ picking.in_turn (binding_of b.now) turn names.now) }
{
    let mut pairs = Vec::new(alloc);
    for name in names {
        push_where(&mut pairs, name, get_in_turn(b, name, turn))?;
    }
    Ok(Binding::new(pairs))
}

// How many turns of a repetition the value says there are.
fn turns_in(value: &Value) -> Option<usize>
    ensures { result ≡ picking.turns_in (Some (value_of value.now)) }
{
    match value {
        Value::One(_) => None,
        Value::Many(values) => Some(values.len()),
        Value::Len(n) => Some(*n),
    }
}

// The same of what the name stands for.
fn turns_at(b: &Binding, name: &Name) -> Option<usize>
    ensures { result ≡ picking.turns_in (value_at (binding_of b.now) name.now) }
{
    match b.get(name) {
        Some(value) => turns_in(value),
        None => None,
    }
}

/// How many turns a repetition has, where a name of it, or else its length name, says so.
pub fn turns_of(b: &Binding, names: &[Name], length: Option<&Name>) -> Option<usize>
    ensures { result ≡ picking.turns_of (binding_of b.now) names.now
        (option_map (λ n. n.now) length.entry) }
{
    match names.first() {
        Some(name) => turns_at(b, name),
        None => match length {
            Some(name) => turns_at(b, name),
            None => None,
        },
    }
}
