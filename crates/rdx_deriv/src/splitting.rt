// Whether a node is a use of a rule of splitting.
ghost use Rattle.std.specs.Prelude.{◌≡◌, ◌↔◌, IfOk, IsTrue, map};
ghost use Rattle.rdx_lang.specs.Checked.{language_in};
ghost use Rattle.rdx_lang.specs.PatternView.{pattern_of, slot_of, items_of};
ghost use Rattle.rdx_lang.specs.Shown.{binding_of};
ghost use Rattle.rdx_term.specs.Tree.{hole as the_hole};
ghost use Rattle.rdx_term.specs.View.{tree_of};
ghost use Rattle.rdx_deriv.specs.DerivationView.{goals_of};
ghost use Rattle.rdx_deriv.specs.Inside.Decides.{Decides};
ghost use Rattle.rdx_deriv.specs.Uses.{IsSplitUse, ListSplit};

use crate::Deriv;
use crate::around::parts_around;
use crate::layout::is_list_use;
use crate::rest::{Focus, Rest};
use crate::rules::{is_alone, is_closed_split, is_in_hole_split, is_naming_split, is_nt_split};
use rdx_bind::atoms::is_hole;
use rdx_bind::naming::Naming;
use rdx_lang::{Binding, CheckedLang, Item, Pat};
use rdx_term::{Name, NoMemory, Term};
use std::alloc::Global;

// A list pattern splits.
fn is_list_split<'a>(
    alloc: Global,
    l: &Name,
    items: &[Item],
    t: &'a Term,
    context: &'a Term,
    part: &'a Term,
    b: &Binding,
    choice: &[usize],
    under: &'a [Deriv],
) -> Result<bool, NoMemory>
    ensures { IfOk result (λ r. Decides r (goals_of under.now) (ListSplit l.now
        (items_of (map slot_of items.now)) (tree_of t.now) (tree_of context.now) (tree_of part.now)
        (binding_of b.now) choice.now (goals_of under.now))) }
{
    let Some((place, lengths)) = choice.split_last() else {
        return Ok(false);
    };
    let Some(parts) = parts_around(t, context, *place) else {
        return Ok(false);
    };
    let rest = Rest {
        terms: parts.terms,
        under,
        focus: Focus::At(*place, parts.inner, part),
    };
    is_list_use(alloc, l, items, rest, lengths, b)
}

// Whether the hole splits the term so.
fn is_whole(t: &Term, context: &Term, part: &Term) -> bool
    ensures { IsTrue result ↔ ((tree_of context.now ≡ the_hole) × (tree_of part.now ≡ tree_of t.now)) }
{
    is_hole(context) && part.same(t)
}

/// Whether the node is a use of a rule of splitting. Where it says so, it is so; it need not be seen
/// where a goal under the node does not bind the names of its pattern.
pub(crate) fn is_split_use<'a>(
    alloc: Global,
    language: &CheckedLang,
    l: &Name,
    pat: &Pat,
    t: &'a Term,
    context: &'a Term,
    part: &'a Term,
    b: &Binding,
    choice: &[usize],
    under: &'a [Deriv],
) -> Result<bool, NoMemory>
    ensures { IfOk result (λ r. Decides r (goals_of under.now) (IsSplitUse (language_in language.now)
        l.now (pattern_of pat.now) (tree_of t.now) (tree_of context.now) (tree_of part.now)
        (binding_of b.now) choice.now (goals_of under.now))) }
{
    match pat {
        Pat::Wild => Ok(false),
        Pat::Kind(_) => Ok(false),
        Pat::Except(_) => Ok(false),
        Pat::Prefix(_) => Ok(false),
        Pat::Hole => Ok(is_alone(is_whole(t, context, part), b, choice, under)),
        Pat::Lit(_) => Ok(false),
        Pat::Nt(name) => Ok(is_nt_split(language, l, name, t, context, part, b, choice, under)),
        Pat::Named(name, inner) => {
            let name = Naming::Binds(name);
            is_naming_split(alloc, l, name, inner, t, context, part, b, choice, under)
        }
        Pat::Differ(name, inner) => {
            let name = Naming::Differs(name);
            is_naming_split(alloc, l, name, inner, t, context, part, b, choice, under)
        }
        Pat::InHole(left, right) => {
            is_in_hole_split(alloc, l, left, right, t, context, part, b, choice, under)
        }
        Pat::HideHole(_) => Ok(false),
        Pat::Closed(inner) => Ok(is_closed_split(l, inner, t, context, part, b, choice, under)),
        Pat::Seq(items) => is_list_split(alloc, l, items, t, context, part, b, choice, under),
    }
}
