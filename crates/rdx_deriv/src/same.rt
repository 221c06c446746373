// The test whether two patterns are equal.
ghost use Rattle.std.specs.Prelude.{◌≡◌, ◌↔◌, IsTrue, bytes_eq, map};
ghost use Rattle.rdx_lang.specs.PatternView.{pattern_of, slot_of, items_of};
ghost use Rattle.rdx_term.specs.View.{tree_of};
ghost use Rattle.rdx_deriv.specs.Inside.Same as model;

use rdx_lang::{Item, Kind, Pat};
use rdx_term::{Name, Term};
use std::cmp::Ordering;

// The place of a built-in name among all.
fn kind_place(kind: Kind) -> u8
    ensures { result ≡ model.kind_place kind }
{
    match kind {
        Kind::Any => 0,
        Kind::Number => 1,
        Kind::Natural => 2,
        Kind::Integer => 3,
        Kind::Real => 4,
        Kind::Text => 5,
        Kind::Boolean => 6,
        Kind::Variable => 7,
        Kind::Unmentioned => 8,
    }
}

// Whether the two terms are equal, marks included.
pub(crate) fn is_same_term(a: &Term, b: &Term) -> bool
    ensures { result ≡ model.same_tree (tree_of a.now) (tree_of b.now) }
{
    match a.compare(b) {
        Ordering::Equal => true,
        Ordering::Less | Ordering::Greater => false,
    }
}

// Whether the two names are equal.
pub(crate) fn is_same_name(a: &Name, b: &Name) -> bool
    ensures { result ≡ bytes_eq a.now b.now }
{
    a.text() == b.text()
}

// Whether these are the same names.
#[tactic(auto, using(crate::proofs::SameLists::names_at))]
fn are_same_names(a: &[Name], b: &[Name]) -> bool
    ensures { result ≡ model.same_names a.now b.now }
{
    if a.len() != b.len() {
        return false;
    }
    for i in 0..a.len() {
        if !is_same_name(&a[i], &b[i]) {
            return false;
        }
    }
    true
}

// Whether both have the same length name, or none.
fn is_same_length(a: &Option<Name>, b: &Option<Name>) -> bool
    ensures { result ≡ model.same_length_name a.now b.now }
{
    match (a, b) {
        (None, None) => true,
        (Some(a), Some(b)) => a.text() == b.text(),
        (None, Some(_)) | (Some(_), None) => false,
    }
}

// Whether the two patterns are equal.
#[cycle(same)]
fn is_alike(a: &Pat, b: &Pat) -> bool
    ensures { result ≡ model.same_pattern (pattern_of a.now) (pattern_of b.now) }
{
    match (a, b) {
        (Pat::Wild, Pat::Wild) | (Pat::Hole, Pat::Hole) => true,
        (Pat::Kind(a), Pat::Kind(b)) => kind_place(*a) == kind_place(*b),
        (Pat::Except(a), Pat::Except(b)) => are_same_names(a, b),
        (Pat::Prefix(a), Pat::Prefix(b)) => a.text() == b.text(),
        (Pat::Lit(a), Pat::Lit(b)) => is_same_term(a, b),
        (Pat::Nt(a), Pat::Nt(b)) => a.same(b),
        (Pat::Named(x, a), Pat::Named(y, b)) | (Pat::Differ(x, a), Pat::Differ(y, b)) => {
            x.text() == y.text() && is_alike(a, b)
        }
        (Pat::InHole(a, c), Pat::InHole(b, d)) => is_alike(a, b) && is_alike(c, d),
        (Pat::HideHole(a), Pat::HideHole(b)) | (Pat::Closed(a), Pat::Closed(b)) => is_alike(a, b),
        (Pat::Seq(a), Pat::Seq(b)) => are_alike(a, b),
        _ => false,
    }
}

// Whether the two items are equal.
#[cycle(same)]
fn is_alike_item(a: &Item, b: &Item) -> bool
    ensures { result ≡ model.same_slot (slot_of a.now) (slot_of b.now) }
{
    match (a, b) {
        (Item::One(a), Item::One(b)) => is_alike(a, b),
        (Item::Many(a, n), Item::Many(b, m)) => is_alike(a, b) && is_same_length(n, m),
        _ => false,
    }
}

// Whether these are equal items.
#[cycle(same)]
#[tactic(auto, using(crate::proofs::SameLists::items_at))]
fn are_alike(a: &[Item], b: &[Item]) -> bool
    ensures { result ≡ model.same_items (items_of (map slot_of a.now)) (items_of (map slot_of b.now)) }
{
    if a.len() != b.len() {
        return false;
    }
    for i in 0..a.len() {
        if !is_alike_item(&a[i], &b[i]) {
            return false;
        }
    }
    true
}

// Whether the two patterns are equal.
#[tactic(auto, using(crate::proofs::SamePatterns::patterns_alike))]
pub(crate) fn is_same_pattern(a: &Pat, b: &Pat) -> bool
    ensures { IsTrue result ↔ (pattern_of a.now ≡ pattern_of b.now) }
{
    is_alike(a, b)
}
