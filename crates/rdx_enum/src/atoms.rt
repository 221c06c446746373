// The atoms of the pool that a pattern may match.
ghost use Rattle.std.specs.Prelude.{◌≡◌, IfOk, IsTrue, map};
ghost use Rattle.rdx_lang.specs.Members.{In};
ghost use Rattle.rdx_lang.specs.Patterns.{Language};
ghost use Rattle.rdx_lang.specs.Rules as rules;
ghost use Rattle.rdx_term.specs.Tree.{Tree};
ghost use Rattle.rdx_term.specs.View.{tree_of};
ghost use Rattle.rdx_enum.specs.Inside.Rows.{row_at, AreSized, HaveNodes};
ghost use Rattle.rdx_enum.specs.Inside.Tests as tests;

use crate::rows::add_if;
use rdx_lang::Kind;
use rdx_term::{NoMemory, Term};
use std::alloc::Global;

/// Whether the built-in name stands for each term.
pub(crate) fn is_any(kind: Kind) -> bool
    ensures { result ≡ tests.is_any kind }
{
    match kind {
        Kind::Any => true,
        Kind::Number
        | Kind::Natural
        | Kind::Integer
        | Kind::Real
        | Kind::Text
        | Kind::Boolean
        | Kind::Variable
        | Kind::Unmentioned => false,
    }
}

/// Whether the term is a list.
pub(crate) fn is_list(t: &Term) -> bool
    ensures { result ≡ tests.is_list (tree_of t.now) }
{
    match t {
        Term::List(_) => true,
        Term::Hole | Term::Int(_) | Term::Bool(_) | Term::Str(_) | Term::Sym(_) => false,
    }
}

// Whether a built-in name may stand for the term: whatever the language, it stands for no other.
fn may_be(kind: Kind, t: &Term) -> bool
    ensures { (L : Language) → IsTrue (rules.is_of_kind L kind (tree_of t.now)) → IsTrue result }
{
    match kind {
        Kind::Any => true,
        Kind::Number | Kind::Integer | Kind::Real | Kind::Natural => matches!(t, Term::Int(_)),
        Kind::Text => matches!(t, Term::Str(_)),
        Kind::Boolean => matches!(t, Term::Bool(_)),
        Kind::Variable | Kind::Unmentioned => matches!(t, Term::Sym(_)),
    }
}

// Those of the pool for which it may stand.
fn of_kind(alloc: Global, kind: Kind, pool: &[Term]) -> Result<Vec<Term>, NoMemory>
    ensures complete { IfOk result (λ found. (L : Language) (t : Tree) → In t (map tree_of pool.now)
        → IsTrue (rules.is_of_kind L kind t) → In t (map tree_of found.items)) }
    ensures among { IfOk result (λ found. (t : Tree) → In t (map tree_of found.items)
        → In t (map tree_of pool.now)) }
{
    let mut found = Vec::new(alloc);
    for t in pool {
        add_if(may_be(kind, t), t, &mut found)?;
    }
    Ok(found)
}

/// Rows of which the row of number 1 is this one, and the others are empty.
pub(crate) fn at_one(alloc: Global, row: Vec<Term>) -> Result<Vec<Vec<Term>>, NoMemory>
    requires { HaveNodes 1 (map tree_of row.items) }
    ensures one { IfOk result (λ rows. row_at rows.items 1 ≡ map tree_of row.items) }
    ensures sized { IfOk result (λ rows. AreSized rows.items) }
{
    let mut rows = Vec::new(alloc);
    rows.push(Vec::new(alloc))?;
    rows.push(row)?;
    Ok(rows)
}

/// The rows of the terms of the pool for which a built-in name may stand.
pub(crate) fn atoms(alloc: Global, kind: Kind, pool: &[Term]) -> Result<Vec<Vec<Term>>, NoMemory>
    requires { HaveNodes 1 (map tree_of pool.now) }
    ensures all { IfOk result (λ rows. (L : Language) (t : Tree) → In t (map tree_of pool.now)
        → IsTrue (rules.is_of_kind L kind t) → In t (row_at rows.items 1)) }
    ensures sized { IfOk result (λ rows. AreSized rows.items) }
{
    let found = of_kind(alloc, kind, pool)?;
    at_one(alloc, found)
}
