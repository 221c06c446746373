// Steps down from matches and splits, for each form of patterns.
ghost use Rattle.std.specs.Prelude.{◌≡◌, ◌<◌, length, map, IfNone, IfOk, IfSome};
ghost use Rattle.rdx_lang.specs.Checked.{language_in};
ghost use Rattle.rdx_lang.specs.Patterns.{hole, seq, Items};
ghost use Rattle.rdx_lang.specs.PatternView.{items_of, pattern_of, slot_of};
ghost use Rattle.rdx_lang.specs.Rules.{Match, Split};
ghost use Rattle.rdx_lang.specs.Shown.{binding_of};
ghost use Rattle.rdx_term.specs.Items.{item_at};
ghost use Rattle.rdx_term.specs.View.{tree_of, trees_of};
ghost use Rattle.rdx_why.specs.Inside.Shapes.{IsAtom, IsWhole};
ghost use Rattle.rdx_why.specs.Inside.Steps.{IsKnown, IsStep};
ghost use Rattle.rdx_deriv.specs.Uses.{IsMatchUse, IsSplitUse};

use crate::choosing::{step_nt_match, step_nt_split};
use crate::inner::{
    TwoPatterns, alone, step_closed_match, step_closed_split, step_hidden_match,
    step_in_hole_match, step_in_hole_split, step_naming_match, step_naming_split,
};
use crate::lists::{list_goals, list_lengths};
use crate::step::Step;
use rdx_bind::naming::Naming;
use rdx_deriv::{Focus, list_parts};
use rdx_lang::{Binding, CheckedLang, Item, Matcher, Pat};
use rdx_opened::{known_match, known_split};
use rdx_term::{Name, NoMemory, Term};
use std::alloc::Global;

/// The items of a list pattern.
pub(crate) fn items_of(pat: &Pat) -> Option<&[Item]>
    ensures some { IfSome result (λ items. pattern_of pat.now
        ≡ seq (items_of (map slot_of items.now))) }
    ensures none { IfNone result ((ps : Items) → pattern_of pat.now ≡ seq ps → ⊥) }
{
    match pat {
        Pat::Seq(items) => Some(items),
        _ => None,
    }
}

// A list pattern that matches.
fn step_list_match<M: Matcher + Drop>(
    alloc: Global,
    language: &CheckedLang,
    finder: &mut M,
    l: &Name,
    pat: &Pat,
    items: &[Item],
    t: &Term,
    b: &Binding,
) -> Result<Step, NoMemory>
    requires list { pattern_of pat.now ≡ seq (items_of (map slot_of items.now)) }
    requires known { IsKnown (language_in language.now) (pattern_of pat.now) }
    requires follows { Match (language_in language.now) (pattern_of pat.now) (tree_of t.now)
        (binding_of b.now) }
    ensures { IfOk result (IsStep (language_in language.now) l.now (IsMatchUse
        (language_in language.now) l.now (pattern_of pat.now) (tree_of t.now) (binding_of b.now))) }
{
    let Some(list) = list_parts(t) else {
        unreachable!()
    };
    let found = known_match(alloc, language, finder, pat, t, b)?;
    let Some(opened) = items_of(&found.opened.pat) else {
        unreachable!()
    };
    let c = &found.binding;
    let terms = list.items;
    let focus = Focus::Nowhere;
    let choice = list_lengths(alloc, language, finder, l, opened, terms, focus, c)?;
    let marks = &found.opened.marks;
    let under = list_goals(
        alloc, language, l, items, opened, marks, terms, focus, &choice, c, b,
    )?;
    Ok(Step { choice, under })
}

// The term at the place.
fn item_there(terms: &[Term], place: usize) -> &Term
    requires { place < length terms.now }
    ensures { tree_of result.now ≡ item_at (trees_of terms.now) place (tree_of result.now) }
{
    &terms[place]
}

// A list pattern that splits so.
fn step_list_split<M: Matcher + Drop>(
    alloc: Global,
    language: &CheckedLang,
    finder: &mut M,
    l: &Name,
    pat: &Pat,
    items: &[Item],
    t: &Term,
    context: &Term,
    part: &Term,
    b: &Binding,
) -> Result<Step, NoMemory>
    requires list { pattern_of pat.now ≡ seq (items_of (map slot_of items.now)) }
    requires known { IsKnown (language_in language.now) (pattern_of pat.now) }
    requires follows { Split (language_in language.now) (pattern_of pat.now) (tree_of t.now)
        (tree_of context.now) (tree_of part.now) (binding_of b.now) }
    ensures { IfOk result (IsStep (language_in language.now) l.now (IsSplitUse
        (language_in language.now) l.now (pattern_of pat.now) (tree_of t.now) (tree_of context.now)
        (tree_of part.now) (binding_of b.now))) }
{
    let Some(list) = list_parts(t) else {
        unreachable!()
    };
    let Some(around) = list_parts(context) else {
        unreachable!()
    };
    let Some(place) = around.mark else {
        unreachable!()
    };
    let found = known_split(alloc, language, finder, pat, t, context, part, b)?;
    let Some(opened) = items_of(&found.opened.pat) else {
        unreachable!()
    };
    let c = &found.binding;
    let terms = list.items;
    let inner = item_there(around.items, place);
    let focus = Focus::At(place, inner, part);
    let lengths = list_lengths(alloc, language, finder, l, opened, terms, focus, c)?;
    let marks = &found.opened.marks;
    let under = list_goals(
        alloc, language, l, items, opened, marks, terms, focus, &lengths, c, b,
    )?;
    let mut choice = lengths;
    choice.push(place)?;
    Ok(Step { choice, under })
}

// A pattern that fits by itself matches.
fn step_atom_match(
    alloc: Global,
    language: &CheckedLang,
    l: &Name,
    pat: &Pat,
    t: &Term,
    b: &Binding,
) -> Result<Step, NoMemory>
    requires atom { IsAtom (pattern_of pat.now) }
    requires follows { Match (language_in language.now) (pattern_of pat.now) (tree_of t.now)
        (binding_of b.now) }
    ensures { IfOk result (IsStep (language_in language.now) l.now (IsMatchUse
        (language_in language.now) l.now (pattern_of pat.now) (tree_of t.now) (binding_of b.now))) }
{
    Ok(alone(alloc))
}

// The hole splits so.
fn step_hole_split(
    alloc: Global,
    language: &CheckedLang,
    l: &Name,
    t: &Term,
    context: &Term,
    part: &Term,
    b: &Binding,
) -> Result<Step, NoMemory>
    requires { Split (language_in language.now) hole (tree_of t.now) (tree_of context.now)
        (tree_of part.now) (binding_of b.now) }
    ensures { IfOk result (IsStep (language_in language.now) l.now (IsSplitUse
        (language_in language.now) l.now hole (tree_of t.now) (tree_of context.now)
        (tree_of part.now) (binding_of b.now))) }
{
    Ok(alone(alloc))
}

// A pattern that splits no term does not split this one.
fn step_no_split(
    language: &CheckedLang,
    l: &Name,
    pat: &Pat,
    t: &Term,
    context: &Term,
    part: &Term,
    b: &Binding,
) -> Result<Step, NoMemory>
    requires whole { IsWhole (pattern_of pat.now) }
    requires follows { Split (language_in language.now) (pattern_of pat.now) (tree_of t.now)
        (tree_of context.now) (tree_of part.now) (binding_of b.now) }
    ensures { IfOk result (IsStep (language_in language.now) l.now (IsSplitUse
        (language_in language.now) l.now (pattern_of pat.now) (tree_of t.now) (tree_of context.now)
        (tree_of part.now) (binding_of b.now))) }
{
    unreachable!()
}

/// A step down from a match.
pub(crate) fn step_match<M: Matcher + Drop>(
    alloc: Global,
    language: &CheckedLang,
    finder: &mut M,
    l: &Name,
    pat: &Pat,
    t: &Term,
    b: &Binding,
) -> Result<Step, NoMemory>
    requires known { IsKnown (language_in language.now) (pattern_of pat.now) }
    requires follows { Match (language_in language.now) (pattern_of pat.now) (tree_of t.now)
        (binding_of b.now) }
    ensures { IfOk result (IsStep (language_in language.now) l.now (IsMatchUse
        (language_in language.now) l.now (pattern_of pat.now) (tree_of t.now) (binding_of b.now))) }
{
    match pat {
        Pat::Wild | Pat::Kind(_) | Pat::Except(_) | Pat::Prefix(_) | Pat::Hole | Pat::Lit(_) => {
            step_atom_match(alloc, language, l, pat, t, b)
        }
        Pat::Nt(x) => step_nt_match(alloc, language, finder, l, x, t, b),
        Pat::Named(x, q) => {
            step_naming_match(alloc, language, finder, l, pat, Naming::Binds(x), q, t, b)
        }
        Pat::Differ(x, q) => {
            step_naming_match(alloc, language, finder, l, pat, Naming::Differs(x), q, t, b)
        }
        Pat::InHole(left, right) => {
            let inside = TwoPatterns { left, right };
            step_in_hole_match(alloc, language, finder, l, pat, inside, t, b)
        }
        Pat::HideHole(q) => step_hidden_match(alloc, language, l, q, t, b),
        Pat::Closed(q) => step_closed_match(alloc, language, finder, l, q, t, b),
        Pat::Seq(items) => step_list_match(alloc, language, finder, l, pat, items, t, b),
    }
}

/// A step down from a split.
pub(crate) fn step_split<M: Matcher + Drop>(
    alloc: Global,
    language: &CheckedLang,
    finder: &mut M,
    l: &Name,
    pat: &Pat,
    t: &Term,
    context: &Term,
    part: &Term,
    b: &Binding,
) -> Result<Step, NoMemory>
    requires known { IsKnown (language_in language.now) (pattern_of pat.now) }
    requires follows { Split (language_in language.now) (pattern_of pat.now) (tree_of t.now)
        (tree_of context.now) (tree_of part.now) (binding_of b.now) }
    ensures { IfOk result (IsStep (language_in language.now) l.now (IsSplitUse
        (language_in language.now) l.now (pattern_of pat.now) (tree_of t.now) (tree_of context.now)
        (tree_of part.now) (binding_of b.now))) }
{
    match pat {
        Pat::Wild
        | Pat::Kind(_)
        | Pat::Except(_)
        | Pat::Prefix(_)
        | Pat::Lit(_)
        | Pat::HideHole(_) => step_no_split(language, l, pat, t, context, part, b),
        Pat::Hole => step_hole_split(alloc, language, l, t, context, part, b),
        Pat::Nt(x) => step_nt_split(alloc, language, finder, l, x, t, context, part, b),
        Pat::Named(x, q) => {
            let name = Naming::Binds(x);
            step_naming_split(
                alloc, language, finder, l, pat, name, q, t, context, part, b,
            )
        }
        Pat::Differ(x, q) => {
            let name = Naming::Differs(x);
            step_naming_split(
                alloc, language, finder, l, pat, name, q, t, context, part, b,
            )
        }
        Pat::InHole(left, right) => {
            let inside = TwoPatterns { left, right };
            step_in_hole_split(alloc, language, finder, l, pat, inside, t, context, part, b)
        }
        Pat::Closed(q) => step_closed_split(alloc, language, finder, l, q, t, context, part, b),
        Pat::Seq(items) => {
            step_list_split(alloc, language, finder, l, pat, items, t, context, part, b)
        }
    }
}
