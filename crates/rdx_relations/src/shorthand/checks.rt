// The checks of the shorthand of a relation, one by one.
ghost use Rattle.std.specs.Prelude.{◌≡◌, ◌++◌, ◌∷◌, [], IfOk, option_map};
ghost use Rattle.rdx_patterns.specs.Inside.Repeats.{texts_in, HaveSame};
ghost use Rattle.rdx_patterns.specs.Kinds.{is_among};
ghost use Rattle.rdx_patterns.specs.Parts.{text_of};
ghost use Rattle.rdx_patterns.specs.Refusal.{first, refusal_of};
ghost use Rattle.rdx_relations.specs.Expansion as model;
ghost use Rattle.rdx_relations.specs.Inside.Arrows.{again};
ghost use Rattle.rdx_relations.specs.Inside.ShortcutViews.{shortcuts_in};
ghost use Rattle.rdx_relations.specs.RelationForms as forms;
ghost use Rattle.rdx_relations.specs.Shorthand as shorthand;

use crate::relations::forms::case_form;
use crate::shorthand::arrows::Arrows;
use crate::shorthand::forms::{Cut, Shortcut, shortcut_form};
use rdx_patterns::checks::when;
use rdx_patterns::refusal::{named, unnamed};
use rdx_patterns::shape::{is_word, text};
use rdx_patterns::{DefKind, DefRefusal};
use rdx_sexp::Datum;
use rdx_term::NoMemory;
use std::alloc::Global;
use std::collections::BTreeSet;

// The first datum that is no case.
fn first_no_case(cases: &[Datum]) -> Option<&Datum>
    ensures { option_map (λ d. d.now) result ≡ first (model.no_cases cases.now) }
{
    for d in cases {
        if case_form(d).is_none() {
            return Some(d);
        }
    }
    None
}

// The first datum that is no shortcut.
fn first_no_shortcut(parts: &[Datum]) -> Option<&Datum>
    ensures { option_map (λ d. d.now) result ≡ first (model.no_shortcuts parts.now) }
{
    for d in parts {
        if shortcut_form(d).is_none() {
            return Some(d);
        }
    }
    None
}

// The first of both.
fn first_misshaped<'a>(cut: Cut<'a>) -> Option<&'a Datum>
    ensures { option_map (λ d. d.now) result
        ≡ first (model.no_cases cut.entry.cases.now
        ++ model.no_shortcuts cut.entry.shortcuts.now) }
{
    match first_no_case(cut.cases) {
        Some(d) => Some(d),
        None => first_no_shortcut(cut.shortcuts),
    }
}

/// The new arrow of a shortcut, where it was seen. It is seen from now on.
pub(crate) fn repeated_arrow<'a>(
    shortcut: Shortcut<'a>,
    seen: &mut BTreeSet<&'a str>,
) -> Result<Option<&'a Datum>, NoMemory>
    ensures again { IfOk result (λ r. option_map (λ d. d.now) r
        ≡ first (again (texts_in seen.old) shortcut.entry.new.now)) }
    ensures seen { IfOk result (λ _.
        HaveSame (texts_in seen.new) (text_of shortcut.entry.new.now ∷ texts_in seen.old)) }
{
    let is_new = seen.insert(text(shortcut.new))?;
    Ok(when(!is_new, shortcut.new))
}

// The first new arrow that an earlier shortcut has.
fn first_repeated_arrow<'a>(
    alloc: Global,
    shortcuts: &[Shortcut<'a>],
) -> Result<Option<&'a Datum>, NoMemory>
    ensures { IfOk result (λ r. option_map (λ d. d.now) r
        ≡ first (model.repeated_arrows [] (shortcuts_in shortcuts.now))) }
{
    let mut seen = BTreeSet::new(alloc);
    for shortcut in shortcuts {
        if let Some(arrow) = repeated_arrow(*shortcut, &mut seen)? {
            return Ok(Some(arrow));
        }
    }
    Ok(None)
}

// The arrow of a case that is neither `-->` nor that of a shortcut.
fn unknown_arrow<'a>(arrows: &Arrows<'_>, d: &'a Datum) -> Option<&'a Datum>
    ensures { option_map (λ d. d.now) result
        ≡ first (model.unknown_arrow
        (model.new_arrows (shortcuts_in arrows.now.shortcuts.items)) (forms.case_form d.now)) }
{
    let case = case_form(d)?;
    when(
        !is_word(case.arrow, "-->") && !arrows.has(text(case.arrow)),
        case.arrow,
    )
}

// The first such arrow.
fn first_unknown_arrow<'a>(arrows: &Arrows<'_>, cases: &'a [Datum]) -> Option<&'a Datum>
    ensures { option_map (λ d. d.now) result
        ≡ first (model.unknown_arrows
        (model.new_arrows (shortcuts_in arrows.now.shortcuts.items)) cases.now) }
{
    for d in cases {
        if let Some(arrow) = unknown_arrow(arrows, d) {
            return Some(arrow);
        }
    }
    None
}

/// Whether an arrow was seen.
pub(crate) fn was_seen(seen: &BTreeSet<&str>, arrow: &Datum) -> bool
    ensures { result ≡ is_among (texts_in seen.now) (text_of arrow.now) }
{
    seen.contains(text(arrow))
}

/// Whether an arrow is `-->` or was seen.
pub(crate) fn is_known(seen: &BTreeSet<&str>, arrow: &Datum) -> bool
    ensures { result ≡ shorthand.is_known_arrow (texts_in seen.now) arrow.now }
{
    is_word(arrow, "-->") || was_seen(seen, arrow)
}

// The first old arrow of a shortcut that is neither `-->` nor that of an earlier one.
fn first_unknown_old<'a>(
    alloc: Global,
    shortcuts: &[Shortcut<'a>],
) -> Result<Option<&'a Datum>, NoMemory>
    ensures { IfOk result (λ r. option_map (λ d. d.now) r
        ≡ first (model.unknown_olds [] (shortcuts_in shortcuts.now))) }
{
    let mut seen = BTreeSet::new(alloc);
    for shortcut in shortcuts {
        if is_known(&seen, shortcut.old) {
            seen.insert(text(shortcut.new))?;
        } else {
            return Ok(Some(shortcut.old));
        }
    }
    Ok(None)
}

// The first arrow of both kinds.
fn first_unknown<'a>(
    alloc: Global,
    arrows: &Arrows<'a>,
    cases: &'a [Datum],
) -> Result<Option<&'a Datum>, NoMemory>
    ensures { IfOk result (λ r. option_map (λ d. d.now) r
        ≡ first (model.unknown_arrows
        (model.new_arrows (shortcuts_in arrows.now.shortcuts.items)) cases.now
        ++ model.unknown_olds [] (shortcuts_in arrows.now.shortcuts.items))) }
{
    match first_unknown_arrow(arrows, cases) {
        Some(d) => Ok(Some(d)),
        None => first_unknown_old(alloc, &arrows.shortcuts),
    }
}

/// The refusal by the check with the least number that refuses the shorthand of a relation.
pub(crate) fn refuse_shorthand<'a>(
    alloc: Global,
    cut: Cut<'a>,
    arrows: &Arrows<'a>,
) -> Result<Option<DefRefusal>, NoMemory>
    requires { shortcuts_in arrows.now.shortcuts.items ≡ shorthand.shortcuts_of cut.shortcuts.now }
    ensures { IfOk result (λ r. option_map refusal_of r
        ≡ model.shorthand_refusal cut.entry.cases.now cut.entry.shortcuts.now) }
{
    if let Some(d) = first_misshaped(cut) {
        return Ok(Some(unnamed(DefKind::Shape, d)));
    }
    if let Some(d) = first_repeated_arrow(alloc, &arrows.shortcuts)? {
        return Ok(Some(named(alloc, DefKind::Duplicate, d)?));
    }
    if let Some(d) = first_unknown(alloc, arrows, cut.cases)? {
        return Ok(Some(named(alloc, DefKind::UnknownName, d)?));
    }
    Ok(None)
}
