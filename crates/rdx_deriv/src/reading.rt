// What stands right under a node, read as what a rule asks of it, and the tests that rules share.
ghost use Rattle.std.specs.Prelude.{◌≡◌, ◌↔◌, ◌∷◌, [], IfNone, IfOk, IfSome, IsTrue, Some, option_map};
ghost use Rattle.rdx_lang.specs.Join.{IsJoin};
ghost use Rattle.rdx_lang.specs.PatternView.{pattern_of};
ghost use Rattle.rdx_lang.specs.Shown.{binding_of};
ghost use Rattle.rdx_term.specs.View.{tree_of};
ghost use Rattle.rdx_bind.specs.Namings.{alone, naming_of};
ghost use Rattle.rdx_deriv.specs.Derivations.{matched, split};
ghost use Rattle.rdx_deriv.specs.DerivationView.{goal_of, goals_of};

use crate::same::is_same_pattern;
use crate::{Deriv, Goal};
use rdx_bind::naming::Naming;
use rdx_bind::{is_same, join};
use rdx_lang::{Binding, Pat};
use rdx_term::{Name, NoMemory, Term};
use std::alloc::Global;

/// Into what a term is split, and what is bound.
#[derive(Clone, Copy)]
pub(crate) struct Parts<'a> {
    /// The context.
    pub context: &'a Term,
    /// The part.
    pub part: &'a Term,
    /// What is bound.
    pub binding: &'a Binding,
}

// Whether the name, the pattern and the term of a goal are these.
fn is_about(l: &Name, pat: &Pat, t: &Term, name: &Name, other: &Pat, term: &Term) -> bool
    ensures { IsTrue result ↔ ((l.now ≡ name.now) × (pattern_of pat.now ≡ pattern_of other.now)
        × (tree_of t.now ≡ tree_of term.now)) }
{
    l.text() == name.text() && is_same_pattern(pat, other) && t.same(term)
}

/// What the goal binds, where it says that the pattern matches the term.
pub(crate) fn match_goal<'a>(goal: &'a Goal, l: &Name, pat: &Pat, t: &Term) -> Option<&'a Binding>
    ensures some { IfSome result (λ c. goal_of goal.now
        ≡ matched l.now (pattern_of pat.now) (tree_of t.now) (binding_of c.now)) }
    ensures none { IfNone result ((c : _) → goal_of goal.now
        ≡ matched l.now (pattern_of pat.now) (tree_of t.now) c → ⊥) }
{
    match goal {
        Goal::Match(name, other, term, binding) => {
            if is_about(l, pat, t, name, other, term) {
                Some(binding)
            } else {
                None
            }
        }
        Goal::Split(_, _, _, _, _, _) | Goal::Judge(_, _, _) => None,
    }
}

/// Into what the term is split and what the goal binds, where it says that the pattern splits the
/// term.
pub(crate) fn split_goal<'a>(goal: &'a Goal, l: &Name, pat: &Pat, t: &Term) -> Option<Parts<'a>>
    ensures some { IfSome result (λ c. goal_of goal.now
        ≡ split l.now (pattern_of pat.now) (tree_of t.now) (tree_of c.context.now)
        (tree_of c.part.now) (binding_of c.binding.now)) }
    ensures none { IfNone result ((C s : _) (c : _) → goal_of goal.now
        ≡ split l.now (pattern_of pat.now) (tree_of t.now) C s c → ⊥) }
{
    match goal {
        Goal::Split(name, other, term, context, part, binding) => {
            if is_about(l, pat, t, name, other, term) {
                Some(Parts {
                    context,
                    part,
                    binding,
                })
            } else {
                None
            }
        }
        Goal::Match(_, _, _, _) | Goal::Judge(_, _, _) => None,
    }
}

/// The same, where the context and the part are these.
pub(crate) fn split_goal_into<'a>(
    goal: &'a Goal,
    l: &Name,
    pat: &Pat,
    t: &Term,
    context: &Term,
    part: &Term,
) -> Option<&'a Binding>
    ensures some { IfSome result (λ c. goal_of goal.now
        ≡ split l.now (pattern_of pat.now) (tree_of t.now) (tree_of context.now)
        (tree_of part.now) (binding_of c.now)) }
    ensures none { IfNone result ((c : _) → goal_of goal.now
        ≡ split l.now (pattern_of pat.now) (tree_of t.now) (tree_of context.now)
        (tree_of part.now) c → ⊥) }
{
    match split_goal(goal, l, pat, t) {
        Some(parts) => {
            if parts.context.same(context) && parts.part.same(part) {
                Some(parts.binding)
            } else {
                None
            }
        }
        None => None,
    }
}

/// The goal under a node, where there is one alone, and no choice.
pub(crate) fn only_goal<'a>(choice: &[usize], under: &'a [Deriv]) -> Option<&'a Goal>
    ensures some { IfSome result (λ g. (choice.now ≡ []) × (goals_of under.now ≡ goal_of g.now ∷ [])) }
    ensures none { IfNone result ((g : _) → choice.now ≡ [] → goals_of under.now ≡ g ∷ [] → ⊥) }
{
    if choice.is_empty() && under.len() == 1 {
        Some(under[0].goal())
    } else {
        None
    }
}

/// What the one goal under a node without a choice binds, where it says that the pattern matches the
/// term.
pub(crate) fn only_match<'a>(
    choice: &[usize],
    under: &'a [Deriv],
    l: &Name,
    pat: &Pat,
    t: &Term,
) -> Option<&'a Binding>
    ensures some { IfSome result (λ c. (choice.now ≡ []) × (goals_of under.now
        ≡ matched l.now (pattern_of pat.now) (tree_of t.now) (binding_of c.now) ∷ [])) }
    ensures none { IfNone result ((c : _) → choice.now ≡ [] → goals_of under.now
        ≡ matched l.now (pattern_of pat.now) (tree_of t.now) c ∷ [] → ⊥) }
{
    match only_goal(choice, under) {
        Some(goal) => match_goal(goal, l, pat, t),
        None => None,
    }
}

/// What it binds, where it says that the pattern splits the term so.
pub(crate) fn only_split<'a>(
    choice: &[usize],
    under: &'a [Deriv],
    l: &Name,
    pat: &Pat,
    t: &Term,
    context: &Term,
    part: &Term,
) -> Option<&'a Binding>
    ensures some { IfSome result (λ c. (choice.now ≡ []) × (goals_of under.now
        ≡ split l.now (pattern_of pat.now) (tree_of t.now) (tree_of context.now)
        (tree_of part.now) (binding_of c.now) ∷ [])) }
    ensures none { IfNone result ((c : _) → choice.now ≡ [] → goals_of under.now
        ≡ split l.now (pattern_of pat.now) (tree_of t.now) (tree_of context.now)
        (tree_of part.now) c ∷ [] → ⊥) }
{
    match only_goal(choice, under) {
        Some(goal) => split_goal_into(goal, l, pat, t, context, part),
        None => None,
    }
}

/// Whether this is what was found.
pub(crate) fn is_found(found: &Option<Binding>, b: &Binding) -> bool
    ensures { IsTrue result ↔ (option_map binding_of found.now ≡ Some (binding_of b.now)) }
{
    match found {
        Some(binding) => is_same(binding, b),
        None => false,
    }
}

/// Whether the two bindings, joined, are the third.
pub(crate) fn is_joined(
    alloc: Global,
    c: &Binding,
    d: &Binding,
    b: &Binding,
) -> Result<bool, NoMemory>
    ensures { IfOk result (λ r. IsTrue r
        ↔ IsJoin (binding_of c.now) (binding_of d.now) (binding_of b.now)) }
{
    let joined = join(alloc, c, d)?;
    Ok(is_found(&joined, b))
}

/// Whether the one binding, joined with that of the name alone for the term, is the other.
pub(crate) fn is_named(
    alloc: Global,
    inside: &Binding,
    name: Naming<'_>,
    t: &Term,
    b: &Binding,
) -> Result<bool, NoMemory>
    ensures { IfOk result (λ r. IsTrue r
        ↔ IsJoin (binding_of inside.now) (alone (naming_of name.entry) (tree_of t.now))
        (binding_of b.now)) }
{
    let other = name.alone(alloc, t)?;
    is_joined(alloc, inside, &other, b)
}

/// The two goals under a node.
#[derive(Clone, Copy)]
pub(crate) struct TwoGoals<'a> {
    /// The first.
    pub first: &'a Goal,
    /// The second.
    pub second: &'a Goal,
}

/// The goals under a node, where there are two, and no choice.
pub(crate) fn two_goals<'a>(choice: &[usize], under: &'a [Deriv]) -> Option<TwoGoals<'a>>
    ensures some { IfSome result (λ gs. (choice.now ≡ [])
        × (goals_of under.now ≡ goal_of gs.first.now ∷ goal_of gs.second.now ∷ [])) }
    ensures none { IfNone result ((g h : _) → choice.now ≡ [] → goals_of under.now ≡ g ∷ h ∷ [] → ⊥) }
{
    if choice.is_empty() && under.len() == 2 {
        Some(TwoGoals {
            first: under[0].goal(),
            second: under[1].goal(),
        })
    } else {
        None
    }
}

/// A context, and what is bound.
#[derive(Clone, Copy)]
pub(crate) struct Outer<'a> {
    /// The context.
    pub context: &'a Term,
    /// What is bound.
    pub binding: &'a Binding,
}

/// The context and what the goal binds, where it says that the pattern splits the term with this part.
pub(crate) fn split_goal_to<'a>(
    goal: &'a Goal,
    l: &Name,
    pat: &Pat,
    t: &Term,
    part: &Term,
) -> Option<Outer<'a>>
    ensures some { IfSome result (λ c. goal_of goal.now
        ≡ split l.now (pattern_of pat.now) (tree_of t.now) (tree_of c.context.now)
        (tree_of part.now) (binding_of c.binding.now)) }
    ensures none { IfNone result ((C : _) (c : _) → goal_of goal.now
        ≡ split l.now (pattern_of pat.now) (tree_of t.now) C (tree_of part.now) c → ⊥) }
{
    match split_goal(goal, l, pat, t) {
        Some(parts) => {
            if parts.part.same(part) {
                Some(Outer {
                    context: parts.context,
                    binding: parts.binding,
                })
            } else {
                None
            }
        }
        None => None,
    }
}
