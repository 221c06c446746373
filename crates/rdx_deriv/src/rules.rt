// Each rule by itself: whether a node is a use of it.
ghost use Rattle.std.specs.Prelude.{◌≡◌, ◌↔◌, ◌∷◌, [], ℕ, IfNone, IfOk, IfSome, IsTrue, slice_get};
ghost use Rattle.rdx_lang.specs.Bindings.{no_names};
ghost use Rattle.rdx_lang.specs.Checked.{language_in};
ghost use Rattle.rdx_lang.specs.PatternView.{pattern_of};
ghost use Rattle.rdx_lang.specs.Patterns.{Pattern};
ghost use Rattle.rdx_lang.specs.References.{are_distinct};
ghost use Rattle.rdx_lang.specs.WellFormed.{defined};
ghost use Rattle.rdx_lang.specs.Shown.{binding_of};
ghost use Rattle.rdx_term.specs.View.{tree_of};
ghost use Rattle.std.specs.Prelude.{map};
ghost use Rattle.rdx_lang.specs.PatternView.{slot_of, items_of};
ghost use Rattle.rdx_deriv.specs.Inside.NamingUses.{NamingMatch, NamingSplit};
ghost use Rattle.rdx_bind.specs.Namings.{naming_of};
ghost use Rattle.rdx_deriv.specs.Uses.{IsAlone, IsMatchUse, ListMatch, ClosedMatch, ClosedSplit, HiddenMatch, InHoleMatch, InHoleSplit, IsAlternativeAt, NonterminalMatch, NonterminalSplit};
ghost use Rattle.rdx_deriv.specs.Inside.Decides.{Decides};
ghost use Rattle.rdx_deriv.specs.DerivationView.{goals_of};
ghost use Rattle.rdx_deriv.specs.Inside.Chosen.{IsChosen};

use crate::Deriv;
use crate::around::list_parts;
use crate::filled::is_filled;
use crate::layout::is_list_use;
use crate::reading::{
    is_joined, is_named, match_goal, only_match, only_split, split_goal, split_goal_to, two_goals,
};
use crate::rest::{Focus, Rest};
use rdx_bind::atoms::{has_prefix, is_hole, is_of_kind, is_other_symbol};
use rdx_bind::is_same;
use rdx_bind::naming::Naming;
use rdx_lang::{Binding, CheckedLang, Item, Pat, Ref};
use rdx_term::{Name, NoMemory, Term};
use std::alloc::Global;

// Whether nothing is bound.
fn is_nameless(b: &Binding) -> bool
    ensures { IsTrue result ↔ (binding_of b.now ≡ no_names) }
{
    b.pairs().is_empty() && b.differs().is_empty()
}

/// A pattern with a name or a mismatch name matches.
pub(crate) fn is_naming_match(
    alloc: Global,
    l: &Name,
    name: Naming<'_>,
    q: &Pat,
    t: &Term,
    b: &Binding,
    choice: &[usize],
    under: &[Deriv],
) -> Result<bool, NoMemory>
    ensures { IfOk result (λ r. IsTrue r ↔ NamingMatch l.now (naming_of name.entry)
        (pattern_of q.now) (tree_of t.now) (binding_of b.now) choice.now (goals_of under.now)) }
{
    match only_match(choice, under, l, q, t) {
        Some(inside) => is_named(alloc, inside, name, t, b),
        None => Ok(false),
    }
}

/// It splits.
pub(crate) fn is_naming_split(
    alloc: Global,
    l: &Name,
    name: Naming<'_>,
    q: &Pat,
    t: &Term,
    context: &Term,
    part: &Term,
    b: &Binding,
    choice: &[usize],
    under: &[Deriv],
) -> Result<bool, NoMemory>
    ensures { IfOk result (λ r. IsTrue r ↔ NamingSplit l.now (naming_of name.entry)
        (pattern_of q.now) (tree_of t.now) (tree_of context.now) (tree_of part.now)
        (binding_of b.now) choice.now (goals_of under.now)) }
{
    match only_split(choice, under, l, q, t, context, part) {
        Some(inside) => is_named(alloc, inside, name, context, b),
        None => Ok(false),
    }
}

/// A hidden pattern matches.
pub(crate) fn is_hidden_match(
    l: &Name,
    q: &Pat,
    t: &Term,
    b: &Binding,
    choice: &[usize],
    under: &[Deriv],
) -> bool
    ensures { IsTrue result ↔ HiddenMatch l.now (pattern_of q.now) (tree_of t.now)
        (binding_of b.now) choice.now (goals_of under.now) }
{
    match only_match(choice, under, l, q, t) {
        Some(inside) => is_same(inside, b),
        None => false,
    }
}

/// A closed pattern matches.
pub(crate) fn is_closed_match(
    l: &Name,
    q: &Pat,
    t: &Term,
    b: &Binding,
    choice: &[usize],
    under: &[Deriv],
) -> bool
    ensures { IsTrue result ↔ ClosedMatch l.now (pattern_of q.now) (tree_of t.now)
        (binding_of b.now) choice.now (goals_of under.now) }
{
    match only_match(choice, under, l, q, t) {
        Some(_) => is_nameless(b),
        None => false,
    }
}

/// It splits.
pub(crate) fn is_closed_split(
    l: &Name,
    q: &Pat,
    t: &Term,
    context: &Term,
    part: &Term,
    b: &Binding,
    choice: &[usize],
    under: &[Deriv],
) -> bool
    ensures { IsTrue result ↔ ClosedSplit l.now (pattern_of q.now) (tree_of t.now)
        (tree_of context.now) (tree_of part.now) (binding_of b.now) choice.now (goals_of under.now) }
{
    match only_split(choice, under, l, q, t, context, part) {
        Some(_) => is_nameless(b),
        None => false,
    }
}

// The alternative of the nonterminal at the place that is chosen, where that alone is.
fn chosen<'a>(language: &'a CheckedLang, x: &Ref, choice: &[usize]) -> Option<&'a Pat>
    ensures some { IfSome result (λ p. IsChosen (language_in language.now) x.now choice.now
        (pattern_of p.now)) }
    ensures none { IfNone result ((p : Pattern) → IsChosen (language_in language.now) x.now
        choice.now p → ⊥) }
    ensures distinct { IsTrue (are_distinct (defined (language_in language.now))) }
{
    let alternatives = language.alternatives(x);
    if choice.len() != 1 {
        return None;
    }
    let place = choice[0];
    if place >= alternatives.len() {
        return None;
    }
    Some(&alternatives[place])
}

/// A nonterminal matches.
pub(crate) fn is_nt_match(
    language: &CheckedLang,
    l: &Name,
    x: &Ref,
    t: &Term,
    b: &Binding,
    choice: &[usize],
    under: &[Deriv],
) -> bool
    ensures { IsTrue result ↔ NonterminalMatch (language_in language.now) l.now x.now (tree_of t.now)
        (binding_of b.now) choice.now (goals_of under.now) }
{
    match chosen(language, x, choice) {
        Some(q) => is_closed_match(l, q, t, b, &[], under),
        None => false,
    }
}

/// It splits.
pub(crate) fn is_nt_split(
    language: &CheckedLang,
    l: &Name,
    x: &Ref,
    t: &Term,
    context: &Term,
    part: &Term,
    b: &Binding,
    choice: &[usize],
    under: &[Deriv],
) -> bool
    ensures { IsTrue result ↔ NonterminalSplit (language_in language.now) l.now x.now
        (tree_of t.now) (tree_of context.now) (tree_of part.now) (binding_of b.now) choice.now
        (goals_of under.now) }
{
    match chosen(language, x, choice) {
        Some(q) => is_closed_split(l, q, t, context, part, b, &[], under),
        None => false,
    }
}

/// A pattern in the hole of another matches.
pub(crate) fn is_in_hole_match(
    alloc: Global,
    l: &Name,
    q: &Pat,
    r: &Pat,
    t: &Term,
    b: &Binding,
    choice: &[usize],
    under: &[Deriv],
) -> Result<bool, NoMemory>
    ensures { IfOk result (λ ok. IsTrue ok ↔ InHoleMatch l.now (pattern_of q.now) (pattern_of r.now)
        (tree_of t.now) (binding_of b.now) choice.now (goals_of under.now)) }
{
    let Some(goals) = two_goals(choice, under) else {
        return Ok(false);
    };
    let Some(outer) = split_goal(goals.first, l, q, t) else {
        return Ok(false);
    };
    let Some(inner) = match_goal(goals.second, l, r, outer.part) else {
        return Ok(false);
    };
    is_joined(alloc, outer.binding, inner, b)
}

/// A list pattern matches.
pub(crate) fn is_list_match<'a>(
    alloc: Global,
    l: &Name,
    items: &[Item],
    t: &'a Term,
    b: &Binding,
    choice: &[usize],
    under: &'a [Deriv],
) -> Result<bool, NoMemory>
    ensures { IfOk result (λ r. Decides r (goals_of under.now) (ListMatch l.now
        (items_of (map slot_of items.now)) (tree_of t.now) (binding_of b.now) choice.now
        (goals_of under.now))) }
{
    let Some(list) = list_parts(t) else {
        return Ok(false);
    };
    let rest = Rest {
        terms: list.items,
        under,
        focus: Focus::Nowhere,
    };
    is_list_use(alloc, l, items, rest, choice, b)
}

/// Whether the test says so, nothing is bound, and nothing is chosen or under the node.
pub(crate) fn is_alone(fits: bool, b: &Binding, choice: &[usize], under: &[Deriv]) -> bool
    ensures { IsTrue result ↔ IsAlone (IsTrue fits) (binding_of b.now) choice.now (goals_of under.now) }
{
    fits && is_nameless(b) && choice.is_empty() && under.is_empty()
}

/// Whether the node is a use of a rule of matching. Where it says so, it is so; it need not be seen
/// where a goal under the node does not bind the names of its pattern.
pub(crate) fn is_match_use<'a>(
    alloc: Global,
    language: &CheckedLang,
    l: &Name,
    pat: &Pat,
    t: &'a Term,
    b: &Binding,
    choice: &[usize],
    under: &'a [Deriv],
) -> Result<bool, NoMemory>
    ensures { IfOk result (λ r. Decides r (goals_of under.now) (IsMatchUse (language_in language.now)
        l.now (pattern_of pat.now) (tree_of t.now) (binding_of b.now) choice.now
        (goals_of under.now))) }
{
    match pat {
        Pat::Wild => Ok(is_alone(true, b, choice, under)),
        Pat::Kind(kind) => Ok(is_alone(is_of_kind(language, *kind, t), b, choice, under)),
        Pat::Except(names) => Ok(is_alone(is_other_symbol(names, t), b, choice, under)),
        Pat::Prefix(start) => Ok(is_alone(has_prefix(start, t), b, choice, under)),
        Pat::Hole => Ok(is_alone(is_hole(t), b, choice, under)),
        Pat::Lit(literal) => Ok(is_alone(t.same_bare(literal), b, choice, under)),
        Pat::Nt(name) => Ok(is_nt_match(language, l, name, t, b, choice, under)),
        Pat::Named(name, inner) => {
            is_naming_match(alloc, l, Naming::Binds(name), inner, t, b, choice, under)
        }
        Pat::Differ(name, inner) => {
            is_naming_match(alloc, l, Naming::Differs(name), inner, t, b, choice, under)
        }
        Pat::InHole(left, right) => { is_in_hole_match(alloc, l, left, right, t, b, choice, under) }
        Pat::HideHole(inner) => Ok(is_hidden_match(l, inner, t, b, choice, under)),
        Pat::Closed(inner) => Ok(is_closed_match(l, inner, t, b, choice, under)),
        Pat::Seq(items) => is_list_match(alloc, l, items, t, b, choice, under),
    }
}

/// A pattern in the hole of another splits.
pub(crate) fn is_in_hole_split(
    alloc: Global,
    l: &Name,
    q: &Pat,
    r: &Pat,
    t: &Term,
    context: &Term,
    part: &Term,
    b: &Binding,
    choice: &[usize],
    under: &[Deriv],
) -> Result<bool, NoMemory>
    ensures { IfOk result (λ ok. IsTrue ok ↔ InHoleSplit l.now (pattern_of q.now) (pattern_of r.now)
        (tree_of t.now) (tree_of context.now) (tree_of part.now) (binding_of b.now) choice.now
        (goals_of under.now)) }
{
    let Some(goals) = two_goals(choice, under) else {
        return Ok(false);
    };
    let Some(outer) = split_goal(goals.first, l, q, t) else {
        return Ok(false);
    };
    let Some(inner) = split_goal_to(goals.second, l, r, outer.part, part) else {
        return Ok(false);
    };
    let filled = is_filled(alloc, outer.context, inner.context, context)?;
    if filled {
        is_joined(alloc, outer.binding, inner.binding, b)
    } else {
        Ok(false)
    }
}
