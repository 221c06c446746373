// The shortcuts that cases use.
ghost use Rattle.std.specs.Prelude.{◌≡◌, [], IfOk};
ghost use Rattle.rdx_relations.specs.Expansion.{used_shortcuts};
ghost use Rattle.rdx_relations.specs.Inside.ShortcutViews.{shortcuts_in};
ghost use Rattle.rdx_relations.specs.Shorthand as model;

use crate::shorthand::checks::repeated_arrow;
use crate::shorthand::forms::{Shortcut, shortcuts_among};
use rdx_sexp::Datum;
use rdx_term::NoMemory;
use std::alloc::Global;
use std::collections::BTreeSet;

// The first shortcut of each arrow.
fn first_of_each<'a>(
    alloc: Global,
    shortcuts: &[Shortcut<'a>],
) -> Result<Vec<Shortcut<'a>>, NoMemory>
    ensures { IfOk result (λ found.
        shortcuts_in found.items ≡ model.first_of_each [] (shortcuts_in shortcuts.now)) }
{
    let mut seen = BTreeSet::new(alloc);
    let mut found = Vec::new(alloc);
    for shortcut in shortcuts {
        if repeated_arrow(*shortcut, &mut seen)?.is_none() {
            found.push(*shortcut)?;
        }
    }
    Ok(found)
}

/// The shortcuts among data that cases use, each with another arrow.
pub(crate) fn used_among(alloc: Global, parts: &[Datum]) -> Result<Vec<Shortcut<'_>>, NoMemory>
    ensures { IfOk result (λ found. shortcuts_in found.items ≡ used_shortcuts parts.now) }
{
    let shortcuts = shortcuts_among(alloc, parts)?;
    first_of_each(alloc, &shortcuts)
}
