// The patterns that match by the term alone.
ghost use Rattle.std.specs.Prelude.{◌≡◌, [], IfSome, if◌then◌else◌};
ghost use Rattle.rdx_lang.specs.Checked.{language_in};
ghost use Rattle.rdx_lang.specs.PatternView.{pattern_of};
ghost use Rattle.rdx_lang.specs.Literals.{is_mentioned};
ghost use Rattle.rdx_lang.specs.Rules as rules;
ghost use Rattle.rdx_lang.specs.Rules.{Match};
ghost use Rattle.rdx_lang.specs.Shown.{bindings_of};
ghost use Rattle.rdx_term.specs.View.{tree_of};
ghost use Rattle.rdx_direct.specs.Inside.Going.{Alone};

use rdx_bind::atoms::{has_prefix, is_hole, is_of_kind, is_other_symbol};
use rdx_bind::literals;
use rdx_lang::{Binding, CheckedLang, Kind, Pat};
use rdx_term::{Name, Term};
use std::alloc::Global;

// Whether the name is one of these.
fn is_one_of(names: &[Name], name: &Name) -> bool
    ensures { result ≡ rules.is_one_of names.now name.now }
{
    for other in names {
        if other.text() == name.text() {
            return true;
        }
    }
    false
}

// Whether the symbol is among those that the language has as literals, found without the language
// where these are known.
fn is_literal(language: &CheckedLang, name: &Name) -> bool
    ensures { result ≡ is_mentioned (language_in language.now) name.now }
{
    if let Some(facts) = language.facts() {
        if let Some(mentioned) = &facts.mentioned {
            return is_one_of(mentioned, name);
        }
    }
    literals::is_mentioned(language.language(), name)
}

// Whether the built-in name stands for the term.
fn is_kind(language: &CheckedLang, kind: Kind, t: &Term) -> bool
    ensures { result ≡ rules.is_of_kind (language_in language.now) kind (tree_of t.now) }
{
    match kind {
        Kind::Unmentioned => match t {
            Term::Sym(name) => !is_literal(language, name),
            Term::Hole | Term::Int(_) | Term::Bool(_) | Term::Str(_) | Term::List(_) => false,
        },
        Kind::Any
        | Kind::Number
        | Kind::Natural
        | Kind::Integer
        | Kind::Real
        | Kind::Text
        | Kind::Boolean
        | Kind::Variable => is_of_kind(language, kind, t),
    }
}

/// Whether the pattern matches the term, where that can be seen at once.
pub(crate) fn decided(language: &CheckedLang, pat: &Pat, t: &Term) -> Option<bool>
    ensures { IfSome result (λ so. Alone
        (Match (language_in language.now) (pattern_of pat.now) (tree_of t.now)) so) }
{
    match pat {
        Pat::Wild => Some(true),
        Pat::Kind(kind) => Some(is_kind(language, *kind, t)),
        Pat::Except(names) => Some(is_other_symbol(names, t)),
        Pat::Prefix(prefix) => Some(has_prefix(prefix, t)),
        Pat::Hole => Some(is_hole(t)),
        Pat::Lit(literal) => Some(t.same_bare(literal)),
        Pat::Nt(_)
        | Pat::Named(_, _)
        | Pat::Differ(_, _)
        | Pat::InHole(_, _)
        | Pat::HideHole(_)
        | Pat::Closed(_)
        | Pat::Seq(_) => None,
    }
}

/// Those given, where this is so.
pub(crate) fn where_so(alloc: Global, given: Vec<Binding>, so: bool) -> Vec<Binding>
    ensures { bindings_of result.items ≡ (if so then bindings_of given.items else []) }
{
    if so { given } else { Vec::new(alloc) }
}
