// Whether a pattern may match, as far as its own form tells.
ghost use Rattle.std.specs.Prelude.{IsTrue, IsFalse, map};
ghost use Rattle.rdx_term.specs.View.{tree_of, trees_of};
ghost use Rattle.rdx_lang.specs.Checked.{language_in};
ghost use Rattle.rdx_lang.specs.Patterns.{Language};
ghost use Rattle.rdx_term.specs.Tree.{Tree};
ghost use Rattle.rdx_lang.specs.PatternView.{pattern_of, slot_of, items_of};
ghost use Rattle.rdx_lang.specs.Rules as rules;
ghost use Rattle.rdx_bind.specs.Searching.{MatchesNone, SplitsNone};
ghost use Rattle.rdx_direct.specs.Inside.Reaching.{AreApart, IsApart, ItemsMatchNone};

use rdx_bind::atoms::{has_prefix, is_hole, is_of_kind, is_other_symbol};
use rdx_lang::{CheckedLang, Item, Kind, Pat};
use rdx_term::Term;

// Whether the term may be of the kind. The symbols that the language mentions are not looked through.
fn may_be(language: &CheckedLang, kind: Kind, t: &Term) -> bool
    ensures { IsFalse result → IsFalse (rules.is_of_kind (language_in language.now) kind
        (tree_of t.now)) }
{
    match kind {
        Kind::Any
        | Kind::Number
        | Kind::Natural
        | Kind::Integer
        | Kind::Real
        | Kind::Text
        | Kind::Boolean
        | Kind::Variable => is_of_kind(language, kind, t),
        Kind::Unmentioned => is_of_kind(language, Kind::Variable, t),
    }
}

/// Whether the pattern may match the term: where it is not so, it does not.
#[cycle(may)]
pub(crate) fn may(language: &CheckedLang, pat: &Pat, t: &Term) -> bool
    ensures { IsFalse result → MatchesNone (language_in language.now) (pattern_of pat.now)
        (tree_of t.now) }
{
    match pat {
        Pat::Wild | Pat::Nt(_) | Pat::InHole(_, _) => true,
        Pat::Kind(kind) => may_be(language, *kind, t),
        Pat::Except(names) => is_other_symbol(names, t),
        Pat::Prefix(prefix) => has_prefix(prefix, t),
        Pat::Hole => is_hole(t),
        Pat::Lit(literal) => t.same_bare(literal),
        Pat::Named(_, part) | Pat::Differ(_, part) | Pat::HideHole(part) | Pat::Closed(part) => may(
            language, part, t,
        ),
        Pat::Seq(items) => match t {
            Term::Hole | Term::Int(_) | Term::Bool(_) | Term::Str(_) | Term::Sym(_) => false,
            Term::List(node) => may_all(language, items, node.items()),
        },
    }
}

// Whether the items may match the terms.
#[cycle(may)]
fn may_all(language: &CheckedLang, items: &[Item], ts: &[Term]) -> bool
    ensures { IsFalse result → ItemsMatchNone (language_in language.now)
        (items_of (map slot_of items.now)) (trees_of ts.now) }
{
    for i in 0..items.len() {
        match &items[i] {
            Item::One(pat) => {
                if i >= ts.len() {
                    return false;
                }
                if !may(language, pat, &ts[i]) {
                    return false;
                }
            }
            Item::Many(_, _) => return true,
        }
    }
    items.len() >= ts.len()
}

// Whether the pattern is a literal that the term is not.
fn is_other_literal(pat: &Pat, t: &Term) -> bool
    ensures { IsTrue result → (L : Language) → IsApart L (pattern_of pat.now) (tree_of t.now) }
{
    match pat {
        Pat::Lit(literal) => !t.same_bare(literal),
        Pat::Wild
        | Pat::Kind(_)
        | Pat::Except(_)
        | Pat::Prefix(_)
        | Pat::Hole
        | Pat::Nt(_)
        | Pat::Named(_, _)
        | Pat::Differ(_, _)
        | Pat::InHole(_, _)
        | Pat::HideHole(_)
        | Pat::Closed(_)
        | Pat::Seq(_) => false,
    }
}

// Whether the items neither match nor split the terms, as the first ones tell: the item is another
// literal, or has no term.
fn begin_apart(items: &[Item], ts: &[Term]) -> bool
    ensures { IsTrue result → (L : Language) → AreApart L (items_of (map slot_of items.now))
        (trees_of ts.now) }
{
    if items.is_empty() {
        return false;
    }
    match &items[0] {
        Item::One(pat) => ts.is_empty() || is_other_literal(pat, &ts[0]),
        Item::Many(_, _) => false,
    }
}

/// Whether the pattern neither matches nor splits the term, as its form tells at its head.
#[inline(never)]
pub(crate) fn is_apart(pat: &Pat, t: &Term) -> bool
    ensures { IsTrue result → (L : Language) → IsApart L (pattern_of pat.now) (tree_of t.now) }
{
    match pat {
        Pat::Seq(items) => match t {
            Term::Hole | Term::Int(_) | Term::Bool(_) | Term::Str(_) | Term::Sym(_) => true,
            Term::List(node) => begin_apart(items, node.items()),
        },
        Pat::Wild
        | Pat::Kind(_)
        | Pat::Except(_)
        | Pat::Prefix(_)
        | Pat::Hole
        | Pat::Lit(_)
        | Pat::Nt(_)
        | Pat::Named(_, _)
        | Pat::Differ(_, _)
        | Pat::InHole(_, _)
        | Pat::HideHole(_)
        | Pat::Closed(_) => false,
    }
}

/// Whether the pattern splits no term, by its form.
pub(crate) fn splits_nothing(pat: &Pat) -> bool
    ensures { IsTrue result → (L : Language) (t : Tree) → SplitsNone L (pattern_of pat.now) t }
{
    match pat {
        Pat::Wild
        | Pat::Kind(_)
        | Pat::Except(_)
        | Pat::Prefix(_)
        | Pat::Lit(_)
        | Pat::HideHole(_) => true,
        Pat::Hole
        | Pat::Nt(_)
        | Pat::Named(_, _)
        | Pat::Differ(_, _)
        | Pat::InHole(_, _)
        | Pat::Closed(_)
        | Pat::Seq(_) => false,
    }
}
