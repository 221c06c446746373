// Two values of one name are no binding.
use crate::making::name;
use rdx_bind::{join, join_into, one};
use rdx_lang::{Binding, Value};
use rdx_term::{NoMemory, Term};
use std::alloc::Global;

// The name `x` for this number.
fn number(alloc: Global, n: i128) -> Result<Binding, NoMemory> {
    let x = name(alloc, "x")?;
    one(alloc, &x, Value::One(Term::Int(n)))
}

#[test]
fn different_values(rt: HostRuntime) {
    let alloc = rt.alloc();
    let first = number(alloc, 1).expect(&rt, "a binding");
    let second = number(alloc, 2).expect(&rt, "a binding");
    let joined = join(alloc, &first, &second).expect(&rt, "an answer");
    assert!(rt; joined.is_none());
    let joined = join_into(alloc, first, &second).expect(&rt, "an answer");
    assert!(rt; joined.is_none());
}
