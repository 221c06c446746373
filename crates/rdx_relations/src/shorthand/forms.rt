// The parts of shortcuts, and where they begin in a relation.
ghost use Rattle.std.specs.Prelude.{◌≡◌, Some, IfOk, map, option_map};
ghost use Rattle.rdx_relations.specs.Inside.ShortcutViews.{shortcut_of, shortcuts_in};
ghost use Rattle.rdx_relations.specs.Shorthand as model;

use rdx_patterns::shape::{is_symbol, is_word, items, text};
use rdx_sexp::Datum;
use rdx_term::NoMemory;
use std::alloc::Global;

/// A shortcut: `((old p t) (new a b))`.
#[derive(Clone, Copy)]
pub(crate) struct Shortcut<'a> {
    pub(crate) old: &'a Datum,
    pub(crate) pattern: &'a Datum,
    pub(crate) result: &'a Datum,
    pub(crate) new: &'a Datum,
    pub(crate) for_pattern: &'a Datum,
    pub(crate) for_result: &'a Datum,
}

/// What stands before the first `with` of a relation, and what behind it.
#[derive(Clone, Copy)]
pub(crate) struct Cut<'a> {
    pub(crate) cases: &'a [Datum],
    pub(crate) shortcuts: &'a [Datum],
}

/// Cuts what stands in a relation at the first `with`.
pub(crate) fn cut_at_with(parts: &[Datum]) -> Cut<'_>
    ensures cases { result.cases.now ≡ model.before_with parts.now }
    ensures shortcuts { result.shortcuts.now ≡ model.behind_with parts.now }
{
    for (i, d) in parts.iter().enumerate() {
        if is_word(d, "with") {
            return Cut {
                cases: &parts[..i],
                shortcuts: &parts[i + 1..],
            };
        }
    }
    Cut {
        cases: parts,
        shortcuts: &[],
    }
}

// Whether these may be the new arrow of a shortcut, and the two symbols that are replaced.
fn is_new_arrow(arrow: &Datum, for_pattern: &Datum, for_result: &Datum) -> bool
    ensures { result ≡ model.is_new_arrow arrow.now for_pattern.now for_result.now }
{
    is_symbol(arrow)
        && !is_word(arrow, "-->")
        && is_symbol(for_pattern)
        && is_symbol(for_result)
        && text(for_pattern) != text(for_result)
}

// Two lists as a shortcut.
fn shortcut_among<'a>(front: &'a [Datum], back: &'a [Datum]) -> Option<Shortcut<'a>>
    ensures { option_map shortcut_of result
        ≡ model.shortcut_among (Some front.now) (Some back.now) }
{
    let [old, pattern, template] = front else {
        return None;
    };
    let [arrow, for_pattern, for_result] = back else {
        return None;
    };
    if is_symbol(old) && is_new_arrow(arrow, for_pattern, for_result) {
        Some(Shortcut {
            old,
            pattern,
            result: template,
            new: arrow,
            for_pattern,
            for_result,
        })
    } else {
        None
    }
}

/// A datum as a shortcut.
pub(crate) fn shortcut_form(d: &Datum) -> Option<Shortcut<'_>>
    ensures { option_map shortcut_of result ≡ model.shortcut_form d.now }
{
    let [first, second] = items(d)? else {
        return None;
    };
    shortcut_among(items(first)?, items(second)?)
}

/// The shortcuts that data are, in their order.
pub(crate) fn shortcuts_among(alloc: Global, parts: &[Datum]) -> Result<Vec<Shortcut<'_>>, NoMemory>
    ensures { IfOk result (λ found. shortcuts_in found.items ≡ model.shortcuts_of parts.now) }
{
    let mut found = Vec::new(alloc);
    for d in parts {
        if let Some(shortcut) = shortcut_form(d) {
            found.push(shortcut)?;
        }
    }
    Ok(found)
}
