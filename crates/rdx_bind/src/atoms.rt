//! The patterns that match by the term alone: built-in names, and sets of symbols.
ghost use Rattle.std.specs.Prelude.{◌≡◌, ◌↔◌, eqb, map, IsTrue};
ghost use Rattle.std.specs.List.{starts_with};
ghost use Rattle.rdx_lang.specs.Checked.{language_in};
ghost use Rattle.rdx_lang.specs.Rules as rules;
ghost use Rattle.rdx_term.specs.Tree.{hole};
ghost use Rattle.rdx_term.specs.View.{tree_of};
ghost use Rattle.rdx_bind.specs.Atoms as atoms;

use crate::literals::is_mentioned;
use rdx_lang::{CheckedLang, Kind};
use rdx_term::{Name, Term};

/// Whether the built-in name stands for the term.
#[inline(never)]
pub fn is_of_kind(language: &CheckedLang, kind: Kind, t: &Term) -> bool
    ensures { result ≡ rules.is_of_kind (language_in language.now) kind (tree_of t.now) }
{
    match kind {
        Kind::Any => true,
        Kind::Number | Kind::Integer | Kind::Real => matches!(t, Term::Int(_)),
        Kind::Natural => matches!(t, Term::Int(n) if *n >= 0),
        Kind::Text => matches!(t, Term::Str(_)),
        Kind::Boolean => matches!(t, Term::Bool(_)),
        Kind::Variable => matches!(t, Term::Sym(_)),
        Kind::Unmentioned => match t {
            Term::Sym(name) => !is_mentioned(language.language(), name),
            Term::Hole | Term::Int(_) | Term::Bool(_) | Term::Str(_) | Term::List(_) => false,
        },
    }
}

// Whether the name is one of these.
fn is_one_of(names: &[Name], name: &Name) -> bool
    ensures { result ≡ rules.is_one_of names.now name.now }
{
    for other in names {
        if other.text() == name.text() {
            return true;
        }
    }
    false
}

/// Whether the term is a symbol other than these.
#[inline(never)]
pub fn is_other_symbol(names: &[Name], t: &Term) -> bool
    ensures { result ≡ atoms.is_other_symbol names.now (tree_of t.now) }
{
    match t {
        Term::Sym(name) => !is_one_of(names, name),
        Term::Hole | Term::Int(_) | Term::Bool(_) | Term::Str(_) | Term::List(_) => false,
    }
}

/// Whether the term is a symbol that begins so.
#[inline(never)]
pub fn has_prefix(prefix: &Name, t: &Term) -> bool
    ensures { result ≡ atoms.has_prefix prefix.now (tree_of t.now) }
{
    match t {
        Term::Sym(name) => name.text().starts_with(prefix.text()),
        Term::Hole | Term::Int(_) | Term::Bool(_) | Term::Str(_) | Term::List(_) => false,
    }
}

/// Whether the term is the hole.
pub fn is_hole(t: &Term) -> bool
    ensures { IsTrue result ↔ (tree_of t.now ≡ hole) }
{
    match t {
        Term::Hole => true,
        Term::Int(_) | Term::Bool(_) | Term::Str(_) | Term::Sym(_) | Term::List(_) => false,
    }
}
