// What patterns may do by what their parts may do.
ghost use Rattle.std.specs.Prelude.{◌≡◌};
ghost use Rattle.rdx_facts.specs.Inside.Flags as model;
ghost use Rattle.rdx_term.specs.View.{tree_of};

use rdx_lang::{Kind, May};
use rdx_term::Term;

// Nothing.
pub(crate) fn nothing() -> May
    ensures { result ≡ model.nothing }
{
    May {
        split: false,
        atoms: false,
        least: u32::MAX,
        most: 0,
        solid: false,
        bind: false,
    }
}

// What matches each term may do.
pub(crate) fn anything() -> May
    ensures { result ≡ model.anything }
{
    May {
        split: false,
        atoms: true,
        least: 0,
        most: u32::MAX,
        solid: true,
        bind: false,
    }
}

// What matches atoms alone may do.
pub(crate) fn atoms() -> May
    ensures { result ≡ model.atoms }
{
    May {
        split: false,
        atoms: true,
        least: u32::MAX,
        most: 0,
        solid: true,
        bind: false,
    }
}

// What the hole does, which splits each term.
pub(crate) fn hole() -> May
    ensures { result ≡ model.at_hole }
{
    May {
        split: true,
        atoms: true,
        least: 0,
        most: u32::MAX,
        solid: false,
        bind: false,
    }
}

// What a built-in name does.
pub(crate) fn kind(kind: Kind) -> May
    ensures { result ≡ model.kind_may kind }
{
    match kind {
        Kind::Any => anything(),
        Kind::Number
        | Kind::Natural
        | Kind::Integer
        | Kind::Real
        | Kind::Text
        | Kind::Boolean
        | Kind::Variable
        | Kind::Unmentioned => atoms(),
    }
}

// Whether the term is a list.
fn is_list(t: &Term) -> bool
    ensures { result ≡ model.is_list (tree_of t.now) }
{
    match t {
        Term::List(_) => true,
        Term::Hole | Term::Int(_) | Term::Bool(_) | Term::Str(_) | Term::Sym(_) => false,
    }
}

// How many items the term has; what is no list has none.
fn count_of(t: &Term) -> u32
    ensures { result ≡ model.count_of (tree_of t.now) }
{
    match t {
        Term::List(node) => node.items().len() as u32,
        Term::Hole | Term::Int(_) | Term::Bool(_) | Term::Str(_) | Term::Sym(_) => 0,
    }
}

// What a literal term does.
pub(crate) fn literal(t: &Term) -> May
    ensures { result ≡ model.literal (tree_of t.now) }
{
    let list = is_list(t);
    let count = count_of(t);
    let solid = t.holes() == 0;
    May {
        split: false,
        atoms: !list,
        least: if list { count } else { u32::MAX },
        most: count,
        solid,
        bind: false,
    }
}

// What a pattern with a name or a mismatch name may do, by its part.
pub(crate) fn named(inner: May) -> May
    ensures { result ≡ model.with_name inner }
{
    May {
        split: inner.split,
        atoms: inner.atoms,
        least: inner.least,
        most: inner.most,
        solid: inner.solid,
        bind: true,
    }
}

// What a closed pattern may do, by its part.
pub(crate) fn closed(inner: May) -> May
    ensures { result ≡ model.with_none inner }
{
    May {
        split: inner.split,
        atoms: inner.atoms,
        least: inner.least,
        most: inner.most,
        solid: inner.solid,
        bind: false,
    }
}

// What a hidden pattern may do, by its part.
pub(crate) fn hidden(inner: May) -> May
    ensures { result ≡ model.hidden inner }
{
    May {
        split: false,
        atoms: inner.atoms,
        least: inner.least,
        most: inner.most,
        solid: inner.solid,
        bind: inner.bind,
    }
}

// What `in-hole` may do, by its parts.
pub(crate) fn filled(left: May, right: May) -> May
    ensures { result ≡ model.filled left right }
{
    May {
        split: left.split && right.split,
        atoms: left.split && right.atoms,
        least: if left.split { left.least } else { u32::MAX },
        most: if left.split { left.most } else { 0 },
        solid: left.split && right.solid,
        bind: left.bind || right.bind,
    }
}

// What a list of no items does.
pub(crate) fn empty() -> May
    ensures { result ≡ model.empty }
{
    May {
        split: false,
        atoms: false,
        least: 0,
        most: 0,
        solid: true,
        bind: false,
    }
}

// What a list pattern may do with one item more.
pub(crate) fn with_one(before: May, item: May) -> May
    ensures { result ≡ model.with_one before item }
{
    May {
        split: before.split || item.split,
        atoms: false,
        least: before.least.saturating_add(1),
        most: before.most.saturating_add(1),
        solid: before.solid && item.solid,
        bind: before.bind || item.bind,
    }
}

// What a list pattern may do with one repetition more, which may have a length name.
pub(crate) fn with_many(before: May, item: May, counted: bool) -> May
    ensures { result ≡ model.with_many before item counted }
{
    May {
        split: before.split || item.split,
        atoms: false,
        least: before.least,
        most: u32::MAX,
        solid: before.solid,
        bind: before.bind || (item.bind || counted),
    }
}

// What either may do. What one of them binds stays inside of it.
pub(crate) fn either(a: May, b: May) -> May {
    May {
        split: a.split || b.split,
        atoms: a.atoms || b.atoms,
        least: a.least.min(b.least),
        most: a.most.max(b.most),
        solid: a.solid || b.solid,
        bind: false,
    }
}

// Whether the second may do what the first may; names are not looked at.
pub(crate) fn is_within(a: May, b: May) -> bool
    ensures { result ≡ model.is_within a b }
{
    (!a.split || b.split)
        && (!a.atoms || b.atoms)
        && a.least >= b.least
        && a.most <= b.most
        && (!a.solid || b.solid)
}
