// Whether a part is as it is wanted.
ghost use Rattle.std.specs.Prelude.{IsTrue, IsFalse, List, ℕ};
ghost use Rattle.rdx_term.specs.AtPaths.{IsPlace, tree_at};
ghost use Rattle.rdx_term.specs.View.{tree_of};
ghost use Rattle.rdx_lang.specs.Checked.{language_in};
ghost use Rattle.rdx_lang.specs.Patterns.{Language};
ghost use Rattle.rdx_direct.specs.Inside.Wanted.{Wants};

use crate::may::may;
use crate::wanted::Wanted;
use rdx_lang::CheckedLang;
use rdx_term::Term;

/// Whether the part may be as it is wanted.
pub(crate) fn may_be_wanted(language: &CheckedLang, wanted: Wanted<'_>, t: &Term) -> bool
    ensures { IsFalse result → ¬ Wants (language_in language.now) wanted.entry (tree_of t.now) }
{
    match wanted.nodes {
        Some(nodes) => t.nodes() == nodes && may(language, wanted.pat, t),
        None => may(language, wanted.pat, t),
    }
}

/// Whether the term has fewer nodes than are wanted, so that no part of it is as wanted.
pub(crate) fn is_too_small(wanted: Wanted<'_>, t: &Term) -> bool
    ensures { IsTrue result → (L : Language) (w : List ℕ) → IsPlace (tree_of t.now) w
        → ¬ Wants L wanted.entry (tree_at (tree_of t.now) w) }
{
    match wanted.nodes {
        Some(nodes) => t.nodes() < nodes,
        None => false,
    }
}
