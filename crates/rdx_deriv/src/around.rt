// Contexts around an item of a list.
ghost use Rattle.std.specs.Prelude.{◌≡◌, ◌↔◌, ℕ, IfNone, IfSome, IsTrue, Option, Some};
ghost use Rattle.rdx_term.specs.Tree.{Tree, Trees};
ghost use Rattle.rdx_term.specs.Tree.{list as a_list};
ghost use Rattle.rdx_term.specs.View.{tree_of, trees_of};
ghost use Rattle.rdx_deriv.specs.Around.{IsAround};
ghost use Rattle.rdx_deriv.specs.Inside.Around.{IsPut, same_at};

use crate::same::is_same_term;
use rdx_term::Term;

/// What a list has.
#[derive(Clone, Copy)]
pub struct Listed<'a> {
    /// The place of the marked item.
    pub mark: Option<usize>,
    /// The items.
    pub items: &'a [Term],
}

/// What the term has, where it is a list.
pub fn list_parts(t: &Term) -> Option<Listed<'_>>
    ensures some { IfSome result (λ l. tree_of t.now ≡ a_list l.mark (trees_of l.items.now)) }
    ensures none { IfNone result ((m : Option ℕ) (ts : Trees) → tree_of t.now ≡ a_list m ts → ⊥) }
{
    match t {
        Term::List(node) => Some(Listed {
            mark: node.mark(),
            items: node.items(),
        }),
        Term::Hole | Term::Int(_) | Term::Bool(_) | Term::Str(_) | Term::Sym(_) => None,
    }
}

// Whether the terms are as many as the others, and the same but for those at the place.

fn are_same_but(terms: &[Term], others: &[Term], place: usize) -> bool
    ensures { result ≡ same_at 0 place (trees_of terms.now) (trees_of others.now) }
{
    if terms.len() != others.len() {
        return false;
    }
    for i in 0..terms.len() {
        if i != place && !is_same_term(&terms[i], &others[i]) {
            return false;
        }
    }
    true
}

// The other term at the place, where but for it the others are the terms.
fn inner_at<'a>(terms: &[Term], others: &'a [Term], place: usize) -> Option<&'a Term>
    ensures some { IfSome result (λ d. IsPut (trees_of terms.now) (trees_of others.now) place
        (tree_of d.now)) }
    ensures none { IfNone result ((D : Tree) → IsPut (trees_of terms.now) (trees_of others.now) place
        D → ⊥) }
{
    if place < others.len() && are_same_but(terms, others, place) {
        Some(&others[place])
    } else {
        None
    }
}

// Whether the mark is at the place.
fn is_marked_at(mark: Option<usize>, place: usize) -> bool
    ensures { IsTrue result ↔ (mark ≡ Some place) }
{
    match mark {
        Some(k) => k == place,
        None => false,
    }
}

/// The items of a list, and the context that stands in place of one of them.
#[derive(Clone, Copy)]
pub struct Around<'a> {
    /// The items of the list.
    pub terms: &'a [Term],
    /// The context.
    pub inner: &'a Term,
}

/// The parts of a list and of a context that is marked at the place and is, but for the item there,
/// the list.
pub fn parts_around<'a>(t: &'a Term, context: &'a Term, place: usize) -> Option<Around<'a>>
    ensures some { IfSome result (λ a. IsAround (tree_of t.now) (tree_of context.now) place
        (trees_of a.terms.now) (tree_of a.inner.now)) }
    ensures none { IfNone result ((ts : Trees) (D : Tree) → IsAround (tree_of t.now)
        (tree_of context.now) place ts D → ⊥) }
{
    let Some(list) = list_parts(t) else {
        return None;
    };
    let Some(other) = list_parts(context) else {
        return None;
    };
    if !is_marked_at(other.mark, place) {
        return None;
    }
    match inner_at(list.items, other.items, place) {
        Some(inner) => Some(Around {
            terms: list.items,
            inner,
        }),
        None => None,
    }
}
