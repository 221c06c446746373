// Lists, laid out over their terms by the lengths of their repetitions.
ghost use Rattle.std.specs.Prelude.{◌≡◌, ◌↔◌, ◌∷◌, [], ℕ, List, map, IfNone, IfOk, IfSome, IsTrue};
ghost use Rattle.rdx_lang.specs.Ascending.{IsAscending};
ghost use Rattle.rdx_lang.specs.Bindings as bindings;
ghost use Rattle.rdx_lang.specs.Bindings.{bound_names, len, name_cmp, no_names, one_name};
ghost use Rattle.rdx_lang.specs.Collections.{IsRepetition};
ghost use Rattle.rdx_lang.specs.Join.{IsJoin};
ghost use Rattle.rdx_lang.specs.Members.{In};
ghost use Rattle.rdx_lang.specs.PatternView as slots;
ghost use Rattle.rdx_lang.specs.PatternView.{pattern_of, slot_of, items_of};
ghost use Rattle.rdx_lang.proofs.CollectionLaws.{BindNames};
ghost use Rattle.rdx_deriv.specs.Inside.Same.{same_names};
ghost use Rattle.rdx_lang.specs.Shown.{binding_of, bindings_of};
ghost use Rattle.rdx_term.specs.Tree.{nil as no_trees};
ghost use Rattle.rdx_term.specs.View.{tree_of, trees_of};
ghost use Rattle.rdx_bind.specs.Rows.{all_matches, split_rows_of};
ghost use Rattle.rdx_deriv.specs.Uses as uses;
ghost use Rattle.rdx_deriv.specs.Uses.{item_goal};
ghost use Rattle.rdx_deriv.specs.DerivationView.{goal_of, goals_of};
ghost use Rattle.rdx_deriv.specs.Inside.Layouts as model;
ghost use Rattle.rdx_deriv.specs.Inside.Layouts.{BindTheirNames, BindsSo, IsTheOne, IsUsedUp, JoinedBefore, Takes, TakesItem, TakesTurns, Uses, alone, focus_of, names_of_pairs, state_of};

use crate::reading::{match_goal, split_goal_into};
use crate::rest::{Focus, Rest};
use crate::same::is_same_name;
use crate::{Deriv, Goal};
use rdx_bind::rows::{Row, matches_across};
use rdx_bind::{collect, is_same, join_into, one};
use rdx_lang::{Binding, Item, Pat, Value};
use rdx_term::{Name, NoMemory, Term};
use std::alloc::Global;

// The same behind the first item.
fn behind_first(focus: Focus<'_>) -> Focus<'_>
    ensures { focus_of result ≡ uses.next (focus_of focus.entry) }
{
    match focus {
        Focus::Nowhere => Focus::Nowhere,
        Focus::At(place, context, part) => {
            if place == 0 {
                Focus::Nowhere
            } else {
                Focus::At(place - 1, context, part)
            }
        }
    }
}

// What the goal binds, where it is that of the first item, of this pattern, at this term.
fn item_binding<'a>(
    goal: &'a Goal,
    l: &Name,
    pat: &Pat,
    t: &Term,
    focus: Focus<'_>,
) -> Option<&'a Binding>
    ensures some { IfSome result (λ c. goal_of goal.now ≡ item_goal (focus_of focus.entry) l.now
        (pattern_of pat.now) (tree_of t.now) (binding_of c.now)) }
    ensures none { IfNone result ((c : _) → goal_of goal.now ≡ item_goal (focus_of focus.entry) l.now
        (pattern_of pat.now) (tree_of t.now) c → ⊥) }
{
    match focus {
        Focus::Nowhere => match_goal(goal, l, pat, t),
        Focus::At(place, context, part) => {
            if place == 0 {
                split_goal_into(goal, l, pat, t, context, part)
            } else {
                match_goal(goal, l, pat, t)
            }
        }
    }
}

/// What an item binds, and what is left behind it.
#[derive(Clone, Copy)]
struct Taken<'a> {
    binding: &'a Binding,
    rest: Rest<'a>,
}

// The first term that is left, where its goal is one of the pattern.
fn take_one<'a>(l: &Name, pat: &Pat, rest: Rest<'a>) -> Option<Taken<'a>>
    ensures some { IfSome result (λ r. Takes l.now (pattern_of pat.now) (state_of rest.entry)
        (binding_of r.binding.now) (state_of r.rest)) }
    ensures none { IfNone result ((c : bindings.Binding) (y : model.State)
        → Takes l.now (pattern_of pat.now) (state_of rest.entry) c y → ⊥) }
{
    let Some((term, terms)) = rest.terms.split_first() else {
        return None;
    };
    let Some((first, under)) = rest.under.split_first() else {
        return None;
    };
    match item_binding(first.goal(), l, pat, term, rest.focus) {
        Some(binding) => Some(Taken {
            binding,
            rest: Rest {
                terms,
                under,
                focus: behind_first(rest.focus),
            },
        }),
        None => None,
    }
}

// So many turns, and what is left behind them.
#[derive(Drop)]
struct Turns<'a> {
    bindings: Vec<Binding>,
    rest: Rest<'a>,
}

// The first so many terms that are left, where the goals of all are such of the pattern.
fn take_turns<'a>(
    alloc: Global,
    l: &Name,
    pat: &Pat,
    count: usize,
    rest: Rest<'a>,
) -> Result<Option<Turns<'a>>, NoMemory>
    ensures some { IfOk result (λ r. IfSome r (λ turns. TakesTurns l.now (pattern_of pat.now) count
        (state_of rest.entry) (bindings_of turns.bindings.items) (state_of turns.rest))) }
    ensures none { IfOk result (λ r. IfNone r ((cs : List bindings.Binding) (y : model.State)
        → TakesTurns l.now (pattern_of pat.now) count (state_of rest.entry) cs y → ⊥)) }
{
    let mut bindings = Vec::new(alloc);
    let mut left = rest;
    let mut more = count;
    while more > 0 {
        let Some(taken) = take_one(l, pat, left) else {
            return Ok(None);
        };
        bindings.push(taken.binding.share()?)?;
        left = taken.rest;
        more -= 1;
    }
    Ok(Some(Turns {
        bindings,
        rest: left,
    }))
}

// Whether the names that the binding binds are these.
#[tactic(auto, using(crate::proofs::Turning::pair_names_at, crate::proofs::Turning::pair_names_lengths))]
fn has_names(names: &[Name], pairs: &[(Name, Value)]) -> bool
    ensures { result ≡ same_names names.now (names_of_pairs pairs.now) }
{
    if names.len() != pairs.len() {
        return false;
    }
    for i in 0..names.len() {
        let (name, _) = &pairs[i];
        if !is_same_name(&names[i], name) {
            return false;
        }
    }
    true
}

// Whether the binding binds exactly these names.
#[tactic(auto, using(crate::proofs::Turning::binds_alike))]
fn binds(names: &[Name], binding: &Binding) -> bool
    ensures { IsTrue result ↔ (bound_names (binding_of binding.now) ≡ names.now) }
{
    has_names(names, binding.pairs())
}

// Whether each of the bindings does.
fn all_bind(names: &[Name], turns: &[Binding]) -> bool
    ensures { IsTrue result ↔ BindNames names.now (bindings_of turns.now) }
{
    for turn in turns {
        if !binds(names, turn) {
            return false;
        }
    }
    true
}

// The join of the binding with that of the length name alone, for the number.
fn counted(
    alloc: Global,
    collected: Binding,
    name: &Name,
    number: usize,
) -> Result<Option<Binding>, NoMemory>
    ensures some { IfOk result (λ r. IfSome r (λ c. IsJoin (binding_of collected)
        (one_name name.now (len number)) (binding_of c))) }
    ensures none { IfOk result (λ r. IfNone r ((c : bindings.Binding) → IsJoin (binding_of collected)
        (one_name name.now (len number)) c → ⊥)) }
{
    let other = one(alloc, name, Value::Len(number))?;
    join_into(alloc, collected, &other)
}

// What a repetition binds in these turns; `None` where it binds nothing, or where a turn does not
// bind exactly the names.
fn repeated(
    alloc: Global,
    names: &[Name],
    length: &Option<Name>,
    turns: &[Binding],
) -> Result<Option<Binding>, NoMemory>
    requires { IsAscending name_cmp names.now }
    ensures some { IfOk result (λ r. IfSome r (λ c. IsRepetition names.now (bindings_of turns.now)
        length.now (binding_of c))) }
    ensures none { IfOk result (λ r. IfNone r (BindNames names.now (bindings_of turns.now)
        → (c : bindings.Binding)
        → IsRepetition names.now (bindings_of turns.now) length.now c → ⊥)) }
{
    if !all_bind(names, turns) {
        return Ok(None);
    }
    let Some(collected) = collect(alloc, names, turns)? else {
        return Ok(None);
    };
    match length {
        None => Ok(Some(collected)),
        Some(name) => counted(alloc, collected, name, turns.len()),
    }
}

/// What an item of the pattern binds, and what is left behind it, of the lengths too.
#[derive(Drop)]
struct Step<'a> {
    binding: Binding,
    rest: Rest<'a>,
    choice: &'a [usize],
}

// A repetition of so many turns.
fn take_many<'a>(
    alloc: Global,
    l: &Name,
    pat: &Pat,
    length: &Option<Name>,
    rest: Rest<'a>,
    choice: &'a [usize],
) -> Result<Option<Step<'a>>, NoMemory>
    ensures some { IfOk result (λ r. IfSome r (λ step. IsTheOne l.now
        (slots.repeated (pattern_of pat.now) length.now) (state_of rest.entry) choice.entry.now
        (binding_of step.binding) (state_of step.rest) step.choice.now)) }
    ensures none { IfOk result (λ r. IfNone r (BindTheirNames (goals_of rest.entry.under.now)
        → (c : bindings.Binding) (y : model.State) (ks : List ℕ)
        → TakesItem l.now (slots.repeated (pattern_of pat.now) length.now) (state_of rest.entry)
        choice.entry.now c y ks → ⊥)) }
{
    let Some((count, others)) = choice.split_first() else {
        return Ok(None);
    };
    let Some(turns) = take_turns(alloc, l, pat, *count, rest)? else {
        return Ok(None);
    };
    let names = pat.names(alloc)?;
    let Some(binding) = repeated(alloc, &names, length, &turns.bindings)? else {
        return Ok(None);
    };
    Ok(Some(Step {
        binding,
        rest: turns.rest,
        choice: others,
    }))
}

// An item of the pattern.
fn take_item<'a>(
    alloc: Global,
    l: &Name,
    item: &Item,
    rest: Rest<'a>,
    choice: &'a [usize],
) -> Result<Option<Step<'a>>, NoMemory>
    ensures some { IfOk result (λ r. IfSome r (λ step. IsTheOne l.now (slot_of item.now)
        (state_of rest.entry) choice.entry.now (binding_of step.binding) (state_of step.rest)
        step.choice.now)) }
    ensures none { IfOk result (λ r. IfNone r (BindTheirNames (goals_of rest.entry.under.now)
        → (c : bindings.Binding) (y : model.State) (ks : List ℕ)
        → TakesItem l.now (slot_of item.now) (state_of rest.entry) choice.entry.now c y ks
        → ⊥)) }
{
    match item {
        Item::One(pat) => match take_one(l, pat, rest) {
            Some(taken) => Ok(Some(Step {
                binding: taken.binding.share()?,
                rest: taken.rest,
                choice,
            })),
            None => Ok(None),
        },
        Item::Many(pat, length) => take_many(alloc, l, pat, length, rest, choice),
    }
}

// Whether there are no terms.
fn no_terms(terms: &[Term]) -> bool
    ensures { IsTrue result ↔ (trees_of terms.now ≡ no_trees) }
{
    terms.is_empty()
}

// Whether there are no derivations.
fn no_goals(under: &[Deriv]) -> bool
    ensures { IsTrue result ↔ (goals_of under.now ≡ []) }
{
    under.is_empty()
}

// Whether no item is split.
fn is_nowhere(focus: Focus<'_>) -> bool
    ensures { IsTrue result ↔ (focus_of focus.entry ≡ uses.nowhere) }
{
    match focus {
        Focus::Nowhere => true,
        Focus::At(_, _, _) => false,
    }
}

// Whether nothing is left.
fn is_used_up(rest: Rest<'_>, choice: &[usize]) -> bool
    ensures { IsTrue result ↔ IsUsedUp (state_of rest.entry) choice.now }
{
    no_terms(rest.terms) && no_goals(rest.under) && is_nowhere(rest.focus) && choice.is_empty()
}

// What the items of the pattern bind, one after the other.
fn take_items(
    alloc: Global,
    l: &Name,
    items: &[Item],
    rest: Rest<'_>,
    choice: &[usize],
) -> Result<Option<Vec<Binding>>, NoMemory>
    ensures some { IfOk result (λ r. IfSome r (λ parts. BindsSo l.now (state_of rest.entry)
        (items_of (map slot_of items.now)) choice.now (bindings_of parts.items))) }
    ensures none { IfOk result (λ r. IfNone r (BindTheirNames (goals_of rest.entry.under.now)
        → (b : bindings.Binding)
        → Uses l.now (state_of rest.entry) (items_of (map slot_of items.now)) choice.now b → ⊥)) }
{
    let mut parts = Vec::new(alloc);
    let mut left = rest;
    let mut lengths = choice;
    for item in items {
        let Some(step) = take_item(alloc, l, item, left, lengths)? else {
            return Ok(None);
        };
        parts.push(step.binding)?;
        left = step.rest;
        lengths = step.choice;
    }
    if is_used_up(left, lengths) {
        Ok(Some(parts))
    } else {
        Ok(None)
    }
}

// The row of a binding alone.
fn row_of(alloc: Global, binding: &Binding) -> Result<Row, NoMemory>
    ensures { IfOk result (λ row. bindings_of row.matches.items ≡ binding_of binding.now ∷ []) }
{
    let mut matches = Vec::with_capacity(alloc, 1)?;
    matches.push(binding.share()?)?;
    Ok(Row {
        matches,
        spots: Vec::new(alloc),
    })
}

// A row of each of the bindings alone.
fn rows_of(alloc: Global, parts: &[Binding]) -> Result<Vec<Row>, NoMemory>
    ensures { IfOk result (λ rows. all_matches (split_rows_of rows.items)
        ≡ map alone (bindings_of parts.now)) }
{
    let mut rows = Vec::with_capacity(alloc, parts.len())?;
    for binding in parts {
        rows.push(row_of(alloc, binding)?)?;
    }
    Ok(rows)
}

// Whether the binding is one of these.
fn is_among(found: &[Binding], b: &Binding) -> bool
    ensures { IsTrue result ↔ In (binding_of b.now) (bindings_of found.now) }
{
    for other in found {
        if is_same(b, other) {
            return true;
        }
    }
    false
}

// Whether the binding is the join of these.
fn is_join_of(alloc: Global, parts: &[Binding], b: &Binding) -> Result<bool, NoMemory>
    ensures { IfOk result (λ r. IsTrue r
        ↔ JoinedBefore (bindings_of parts.now) no_names (binding_of b.now)) }
{
    let rows = rows_of(alloc, parts)?;
    let found = matches_across(alloc, &rows)?;
    Ok(is_among(&found, b))
}

/// Whether the items, with the choice for their lengths, use up what is left, and bind this. Where it
/// says so, it is so; it need not be seen where a goal does not bind the names of its pattern.
pub(crate) fn is_list_use(
    alloc: Global,
    l: &Name,
    items: &[Item],
    rest: Rest<'_>,
    choice: &[usize],
    b: &Binding,
) -> Result<bool, NoMemory>
    ensures sound { IfOk result (λ r. IsTrue r → Uses l.now (state_of rest.entry)
        (items_of (map slot_of items.now)) choice.now (binding_of b.now)) }
    ensures complete { IfOk result (λ r. BindTheirNames (goals_of rest.entry.under.now)
        → Uses l.now (state_of rest.entry) (items_of (map slot_of items.now)) choice.now
        (binding_of b.now) → IsTrue r) }
{
    let Some(parts) = take_items(alloc, l, items, rest, choice)? else {
        return Ok(false);
    };
    is_join_of(alloc, &parts, b)
}
