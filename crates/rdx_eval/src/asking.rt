// Whether what is handed to a call, and what it makes, match its contract.
ghost use Rattle.std.specs.Prelude.{◌≡◌, [], ◌∷◌, map, option_map};
ghost use Rattle.rdx_term.specs.View.{tree_of};
ghost use Rattle.rdx_lang.specs.Checked.{language_in};
ghost use Rattle.rdx_lang.specs.PatternView.{items_of, pattern_of, slot_of};
ghost use Rattle.rdx_lang.specs.ProgramView.{contract_of};
ghost use Rattle.rdx_eval.specs.Answers.{not_contract as not_allowed};
ghost use Rattle.rdx_eval.specs.Asking.{AskedIf, asked_in, asked_out};
ghost use Rattle.rdx_eval.specs.Inside.Asked as inside;
ghost use Rattle.rdx_eval.specs.Inside.Asked.{Passes, pattern_found, passed};
ghost use Rattle.rdx_eval.specs.Inside.Stops.{Tells};

use crate::Side;
use crate::extending::found_by;
use crate::stop::Stop;
use crate::stopping::not_contract;
use rdx_lang::{CheckedLang, CheckedPat, Item, Kind, Matcher, Pat};
use rdx_term::{Name, Term};
use std::alloc::Global;

/// What a contract asks of what is handed to a call.
pub(crate) fn in_pattern(contract: &Option<(CheckedPat, CheckedPat)>) -> Option<&CheckedPat>
    ensures { pattern_found result ≡ asked_in (option_map contract_of contract.now) }
{
    match contract {
        Some(c) => Some(&c.0),
        None => None,
    }
}

/// What a contract asks of what a call makes.
pub(crate) fn out_pattern(contract: &Option<(CheckedPat, CheckedPat)>) -> Option<&CheckedPat>
    ensures { pattern_found result ≡ asked_out (option_map contract_of contract.now) }
{
    match contract {
        Some(c) => Some(&c.1),
        None => None,
    }
}

// Whether the pattern is `_` or `any`.
fn is_any(pat: &Pat) -> bool
    ensures { result ≡ inside.is_any (pattern_of pat.now) }
{
    match pat {
        Pat::Wild => true,
        Pat::Kind(kind) => matches!(kind, Kind::Any),
        Pat::Except(_)
        | Pat::Prefix(_)
        | Pat::Hole
        | Pat::Lit(_)
        | Pat::Nt(_)
        | Pat::Named(..)
        | Pat::Differ(..)
        | Pat::InHole(..)
        | Pat::HideHole(_)
        | Pat::Closed(_)
        | Pat::Seq(_) => false,
    }
}

// Whether it is one of them, or one of them under a name.
fn takes_inside(pat: &Pat) -> bool
    ensures { result ≡ inside.takes_inside (pattern_of pat.now) }
{
    match pat {
        Pat::Named(_, inner) => is_any(inner),
        Pat::Wild
        | Pat::Kind(_)
        | Pat::Except(_)
        | Pat::Prefix(_)
        | Pat::Hole
        | Pat::Lit(_)
        | Pat::Nt(_)
        | Pat::Differ(..)
        | Pat::InHole(..)
        | Pat::HideHole(_)
        | Pat::Closed(_)
        | Pat::Seq(_) => is_any(pat),
    }
}

// Whether it is `_` or `any`, or closed, where it may be under a name.
fn takes_each(pat: &Pat) -> bool
    ensures { result ≡ inside.takes_each (pattern_of pat.now) }
{
    match pat {
        Pat::Closed(inner) => takes_inside(inner),
        Pat::Wild
        | Pat::Kind(_)
        | Pat::Except(_)
        | Pat::Prefix(_)
        | Pat::Hole
        | Pat::Lit(_)
        | Pat::Nt(_)
        | Pat::Named(..)
        | Pat::Differ(..)
        | Pat::InHole(..)
        | Pat::HideHole(_)
        | Pat::Seq(_) => is_any(pat),
    }
}

// Whether the item takes any number of terms, whatever they are, and names nothing.
fn is_any_number(item: &Item) -> bool
    ensures { result ≡ inside.takes_lists (items_of (slot_of item.now ∷ [])) }
{
    match item {
        Item::One(_) => false,
        Item::Many(pat, length) => length.is_none() && takes_each(pat),
    }
}

// Whether items take all lists, by what they are.
fn takes_lists(items: &[Item]) -> bool
    ensures { result ≡ inside.takes_lists (items_of (map slot_of items.now)) }
{
    match items {
        [item] => is_any_number(item),
        _ => false,
    }
}

// Whether the pattern matches the term, by what it is: such a one is not asked.
fn takes_all(pat: &Pat, t: &Term) -> bool
    ensures { result ≡ inside.takes_all (pattern_of pat.now) (tree_of t.now) }
{
    match pat {
        Pat::Seq(items) => matches!(t, Term::List(_)) && takes_lists(items),
        Pat::Wild
        | Pat::Kind(_)
        | Pat::Except(_)
        | Pat::Prefix(_)
        | Pat::Hole
        | Pat::Lit(_)
        | Pat::Nt(_)
        | Pat::Named(..)
        | Pat::Differ(..)
        | Pat::InHole(..)
        | Pat::HideHole(_)
        | Pat::Closed(_) => takes_each(pat),
    }
}

/// Asks whether the term matches the pattern, where there is one: else the contract of what has
/// this name does not allow the term.
#[inline(never)]
pub(crate) fn ask<M: Matcher>(
    alloc: Global,
    matcher: &mut M,
    language: &CheckedLang,
    pattern: Option<&CheckedPat>,
    name: &Name,
    side: Side,
    t: &Term,
) -> Result<(), Stop>
    ensures { Tells passed (AskedIf (language_in language.now) (pattern_found pattern.entry)
        (tree_of t.now) (not_allowed name.now side (tree_of t.now)) Passes) result }
{
    let Some(asked) = pattern else {
        return Ok(());
    };
    if takes_all(asked.pat(), t) {
        return Ok(());
    }
    let found = found_by(matcher, language, asked, t)?;
    if found.is_empty() {
        return Err(not_contract(alloc, name, side, t)?);
    }
    Ok(())
}
