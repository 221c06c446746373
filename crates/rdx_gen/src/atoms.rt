// Atoms that are generated.
ghost use Rattle.std.specs.Prelude.{◌≡◌, ◌<◌, [], IfOk, map, codes, length};
ghost use Rattle.rdx_term.specs.View.{tree_of};
ghost use Rattle.rdx_gen.specs.Generation as model;
ghost use Rattle.rdx_gen.specs.Outcomes.{picked};
ghost use Rattle.rdx_gen.specs.Variables.{first_five};
ghost use Rattle.rdx_gen.specs.Views.{Says, state_of};

use crate::state::State;
use crate::stop::Stop;
use crate::variables::first_five;
use rdx_lang::Kind;
use rdx_term::{Name, Term};
use std::alloc::Global;
use std::rc::RcStr;

// One of `n` choices.
fn picked(state: &mut State, n: usize) -> usize
    requires { 0 < n }
    ensures { Says (λ k. k) (picked n (state_of state.old)) (Ok result) (state_of state.new) }
{
    state.words.pick(n)
}

// An integer from -10 to 10.
fn any_integer(state: &mut State) -> Result<Term, Stop>
    ensures { Says tree_of (model.any_integer (state_of state.old)) result (state_of state.new) }
{
    let k = picked(state, 21);
    Ok(Term::Int(k as i128 - 10))
}

// An integer from 0 to 10.
fn any_natural(state: &mut State) -> Result<Term, Stop>
    ensures { Says tree_of (model.any_natural (state_of state.old)) result (state_of state.new) }
{
    let k = picked(state, 11);
    Ok(Term::Int(k as i128))
}

// A truth value.
fn any_truth(state: &mut State) -> Result<Term, Stop>
    ensures { Says tree_of (model.any_truth (state_of state.old)) result (state_of state.new) }
{
    let k = picked(state, 2);
    Ok(Term::Bool(k == 1))
}

// A short string.
fn any_string(alloc: Global, state: &mut State) -> Result<Term, Stop>
    ensures { Says tree_of (model.any_string (state_of state.old)) result (state_of state.new) }
{
    let k = picked(state, 3);
    let text = match k {
        0 => "",
        1 => "a",
        2 => "ab",
        _ => return Err(Stop::NoMemory),
    };
    Ok(Term::Str(RcStr::from_str(alloc, text)?))
}

// One of the symbols.
pub(crate) fn any_symbol(state: &mut State, names: &[Name]) -> Result<Term, Stop>
    ensures { Says tree_of (model.any_symbol names.now (state_of state.old)) result
        (state_of state.new) }
{
    let k = picked(state, 5);
    if k >= names.len() {
        return Err(Stop::NoMemory);
    }
    Ok(Term::Sym(names[k].share()?))
}

// One of the first five symbols behind a prefix that are none of these.
pub(crate) fn free_symbol(
    alloc: Global,
    state: &mut State,
    prefix: &str,
    avoided: &[Name],
) -> Result<Term, Stop>
    ensures { Says tree_of (model.any_symbol (first_five prefix.now avoided.now)
        (state_of state.old)) result (state_of state.new) }
{
    let names = first_five(alloc, prefix, avoided)?;
    any_symbol(state, &names)
}

// An atom of one of four kinds.
pub(crate) fn any_atom(alloc: Global, state: &mut State, variables: &[Name]) -> Result<Term, Stop>
    requires { variables.now ≡ first_five [] [] }
    ensures { Says tree_of (model.any_atom (state_of state.old)) result (state_of state.new) }
{
    let k = picked(state, 4);
    if k == 0 {
        any_integer(state)
    } else if k == 1 {
        any_symbol(state, variables)
    } else if k == 2 {
        any_truth(state)
    } else {
        any_string(alloc, state)
    }
}

/// A term of the kind.
pub(crate) fn any_of_kind(
    alloc: Global,
    state: &mut State,
    variables: &[Name],
    unmentioned: &[Name],
    kind: Kind,
) -> Result<Term, Stop>
    requires { variables.now ≡ first_five [] [] }
    ensures { Says tree_of (model.any_of_kind unmentioned.now kind (state_of state.old)) result
        (state_of state.new) }
{
    match kind {
        Kind::Any => any_atom(alloc, state, variables),
        Kind::Number | Kind::Integer | Kind::Real => any_integer(state),
        Kind::Natural => any_natural(state),
        Kind::Text => any_string(alloc, state),
        Kind::Boolean => any_truth(state),
        Kind::Variable => any_symbol(state, variables),
        Kind::Unmentioned => any_symbol(state, unmentioned),
    }
}
