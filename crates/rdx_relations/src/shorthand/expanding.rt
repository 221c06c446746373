// What cases stand for.
ghost use Rattle.std.specs.Prelude.{◌≡◌, ◌+◌, ◌≤◌, [], IfOk, map, option_map};
ghost use Rattle.rdx_sexp.specs.Sexp.{list, sexps, span_of};
ghost use Rattle.rdx_sexp.specs.Size.{sexp_depth, sexps_depth};
ghost use Rattle.rdx_relations.specs.Expansion as model;
ghost use Rattle.rdx_relations.specs.Inside.Filling as inside;
ghost use Rattle.rdx_relations.specs.Inside.FormViews.{case_form_of};
ghost use Rattle.rdx_parts.specs.PartsHave.{AreReadable};
ghost use Rattle.rdx_relations.specs.Inside.ShortcutViews.{shortcuts_in};
ghost use Rattle.rdx_relations.specs.RelationForms as forms;

use crate::relations::forms::{CaseForm, case_form};
use crate::shorthand::arrows::Arrows;
use crate::shorthand::filling::{Side, copied, put_into};
use crate::shorthand::forms::{Cut, Shortcut};
use crate::shorthand::room::Stock;
use crate::shorthand::used::used_among;
use rdx_patterns::shape::{is_word, text};
use rdx_sexp::{Datum, Form};
use rdx_term::NoMemory;
use std::alloc::Global;

// The shortcuts that a case uses, the last one first: that of its arrow is the last.
fn used_shortcuts<'a>(
    alloc: Global,
    stock: &mut Stock,
    arrows: &Arrows<'a>,
    case: CaseForm<'a>,
) -> Result<Vec<Shortcut<'a>>, NoMemory>
    requires { model.repeated_arrows [] (shortcuts_in arrows.now.shortcuts.items) ≡ [] }
    ensures { IfOk result (λ used.
        inside.by_shortcuts (shortcuts_in used.items) (case_form_of case.entry)
        ≡ model.expanded_case (shortcuts_in arrows.now.shortcuts.items)
        (case_form_of case.entry)) }
{
    let mut used = Vec::new(alloc);
    let mut arrow = case.arrow;
    let mut limit = arrows.shortcuts.len();
    while let Some(place) = arrows.place_below(limit, text(arrow)) {
        stock.take()?;
        let shortcut = arrows.shortcuts[place];
        used.push(shortcut)?;
        arrow = shortcut.old;
        limit = place;
    }
    used.reverse();
    Ok(used)
}

// The arrow of a case that uses these shortcuts.
fn old_arrow<'a>(used: &[Shortcut<'a>], arrow: &'a Datum) -> &'a Datum
    ensures { result.now ≡ inside.old_arrow (shortcuts_in used.now) arrow.now }
{
    match used {
        [] => arrow,
        [shortcut, ..] => shortcut.old,
    }
}

// Those of these shortcuts by which the pattern and the template of a case are replaced: all, where
// the first one leads to `-->`.
fn layers<'a>(used: &'a [Shortcut<'a>], arrow: &'a Datum) -> &'a [Shortcut<'a>]
    ensures { shortcuts_in result.now
        ≡ inside.layers_at (shortcuts_in used.now) arrow.now }
{
    if is_word(old_arrow(used, arrow), "-->") {
        used
    } else {
        &[]
    }
}

// The parts of a case that uses these shortcuts.
fn expanded_parts<'a>(
    alloc: Global,
    stock: &mut Stock,
    used: &'a [Shortcut<'a>],
    case: CaseForm<'a>,
) -> Result<Vec<Datum>, NoMemory>
    ensures made { IfOk result (λ parts.
        parts.items ≡ inside.parts_by (shortcuts_in used.now) (case_form_of case.entry)) }
    ensures depth { IfOk result (λ parts. sexps_depth (sexps parts.items) ≤ inside.deepest) }
{
    let layers = layers(used, case.arrow);
    let mut parts = Vec::new(alloc);
    parts.push(copied(alloc, stock, old_arrow(used, case.arrow))?)?;
    parts.push(put_into(alloc, stock, Side::OfPattern, layers, case.pattern)?)?;
    parts.push(put_into(alloc, stock, Side::OfResult, layers, case.result)?)?;
    for extra in case.extras {
        parts.push(copied(alloc, stock, extra)?)?;
    }
    Ok(parts)
}

// A list of these parts, with the span of the datum.
fn list_at(parts: Vec<Datum>, d: &Datum) -> Datum
    ensures { result ≡ list (sexps parts.items) (span_of d.now) }
{
    Datum {
        form: Form::List(parts),
        span: d.span,
    }
}

// The datum that a datum stands for, where it is a case.
fn expanded_by<'a>(
    alloc: Global,
    stock: &mut Stock,
    arrows: &Arrows<'a>,
    d: &'a Datum,
) -> Result<Datum, NoMemory>
    requires { model.repeated_arrows [] (shortcuts_in arrows.now.shortcuts.items) ≡ [] }
    ensures made { IfOk result (λ e. e ≡ model.expanded_by
        (shortcuts_in arrows.now.shortcuts.items) d.now (forms.case_form d.now)) }
    ensures depth { IfOk result (λ e. sexp_depth e ≤ inside.deepest + 1) }
{
    let Some(case) = case_form(d) else {
        return copied(alloc, stock, d);
    };
    let used = used_shortcuts(alloc, stock, arrows, case)?;
    let parts = expanded_parts(alloc, stock, &used, case)?;
    Ok(list_at(parts, d))
}

// Cases by these shortcuts, in their order.
fn expand_cases<'a>(
    alloc: Global,
    arrows: &Arrows<'a>,
    cases: &'a [Datum],
) -> Result<Vec<Datum>, NoMemory>
    requires { model.repeated_arrows [] (shortcuts_in arrows.now.shortcuts.items) ≡ [] }
    ensures made { IfOk result (λ expanded. expanded.items
        ≡ map (λ d. model.expanded_by (shortcuts_in arrows.now.shortcuts.items) d
        (forms.case_form d)) cases.now) }
    ensures depth { IfOk result (λ expanded.
        sexps_depth (sexps expanded.items) ≤ inside.deepest + 1) }
{
    let mut stock = Stock::whole();
    let mut expanded = Vec::new(alloc);
    for d in cases {
        expanded.push(expanded_by(alloc, &mut stock, arrows, d)?)?;
    }
    Ok(expanded)
}

/// The cases of a relation that is cut so, without shorthand, in their order.
pub(crate) fn expanded_cases(alloc: Global, cut: Cut<'_>) -> Result<Vec<Datum>, NoMemory>
    ensures cases { IfOk result (λ cases. cases.items
        ≡ map (λ d. model.expanded_by (model.used_shortcuts cut.entry.shortcuts.now) d
        (forms.case_form d)) cut.entry.cases.now) }
    ensures readable { IfOk result (λ cases. AreReadable cut.entry.cases.now
        → AreReadable cut.entry.shortcuts.now → AreReadable cases.items) }
{
    let used = used_among(alloc, cut.shortcuts)?;
    let arrows = Arrows::new(alloc, used)?;
    expand_cases(alloc, &arrows, cut.cases)
}
