// What the form of a pattern rules out.
ghost use Rattle.std.specs.Prelude.{◌≡◌, IfOk, IsFalse, IsTrue, map};
ghost use Rattle.rdx_lang.specs.Checked.{language_in};
ghost use Rattle.rdx_lang.specs.PatternView.{pattern_of, slot_of, items_of};
ghost use Rattle.rdx_term.specs.View.{tree_of, trees_of};
ghost use Rattle.rdx_why.specs.Inside.Forms.{BindsNothing, NeverMatch, NeverMatches, NeverSplit, NeverSplits};
ghost use Rattle.rdx_lang.specs.Facts.{SplitsNothing};
ghost use Rattle.rdx_lang.specs.Patterns.{nt, seq};

use rdx_bind::atoms::{has_prefix, is_hole, is_of_kind, is_other_symbol};
use rdx_bind::naming::has_differ;
use rdx_lang::{CheckedLang, Item, Pat, Ref};
use rdx_term::{NoMemory, Term};
use std::alloc::Global;

/// Whether no name and no mismatch name stands in the pattern itself.
pub(crate) fn binds_nothing(alloc: Global, pat: &Pat) -> Result<bool, NoMemory>
    ensures { IfOk result (λ r. IsTrue r → BindsNothing (pattern_of pat.now)) }
{
    if has_differ(pat) {
        return Ok(false);
    }
    let names = pat.names(alloc)?;
    Ok(names.is_empty())
}

/// Whether the form of the pattern leaves it open that it matches the term.
#[cycle(forms)]
pub(crate) fn may_match(language: &CheckedLang, pat: &Pat, t: &Term) -> bool
    ensures { IsFalse result → NeverMatches (language_in language.now) (pattern_of pat.now) (tree_of t.now) }
{
    match pat {
        Pat::Wild | Pat::InHole(_, _) | Pat::Nt(_) => true,
        Pat::Kind(kind) => is_of_kind(language, *kind, t),
        Pat::Except(names) => is_other_symbol(names, t),
        Pat::Prefix(name) => has_prefix(name, t),
        Pat::Hole => is_hole(t),
        Pat::Lit(u) => t.same_bare(u),
        Pat::Named(_, q) | Pat::Differ(_, q) => may_match(language, q, t),
        Pat::HideHole(q) | Pat::Closed(q) => may_match(language, q, t),
        Pat::Seq(items) => may_match_list(language, items, t),
    }
}

// Whether it does that of the items of a list pattern.
#[cycle(forms)]
fn may_match_list(language: &CheckedLang, items: &[Item], t: &Term) -> bool
    ensures { IsFalse result → NeverMatches (language_in language.now)
        (seq (items_of (map slot_of items.now))) (tree_of t.now) }
{
    match t {
        Term::List(node) => may_match_items(language, items, node.items()),
        Term::Hole | Term::Int(_) | Term::Bool(_) | Term::Str(_) | Term::Sym(_) => false,
    }
}

// Whether it does that of the items over these terms.
#[cycle(forms)]
fn may_match_items(language: &CheckedLang, items: &[Item], terms: &[Term]) -> bool
    ensures { IsFalse result → NeverMatch (language_in language.now)
        (items_of (map slot_of items.now)) (trees_of terms.now) }
{
    for i in 0..items.len() {
        match &items[i] {
            Item::Many(_, _) => return true,
            Item::One(q) => {
                if i >= terms.len() || !may_match(language, q, &terms[i]) {
                    return false;
                }
            }
        }
    }
    items.len() == terms.len()
}

/// Whether the form of the pattern leaves it open that it splits a term into this context.
#[cycle(splitting_forms)]
pub(crate) fn may_split(language: &CheckedLang, pat: &Pat, context: &Term) -> bool
    ensures { IsFalse result → NeverSplits (language_in language.now) (pattern_of pat.now) (tree_of context.now) }
{
    match pat {
        Pat::Wild
        | Pat::Kind(_)
        | Pat::Except(_)
        | Pat::Prefix(_)
        | Pat::Lit(_)
        | Pat::HideHole(_) => false,
        Pat::Hole => is_hole(context),
        Pat::InHole(_, _) => true,
        Pat::Nt(name) => may_split_nt(language, name),
        Pat::Named(_, q) | Pat::Differ(_, q) => may_split(language, q, context),
        Pat::Closed(q) => may_split(language, q, context),
        Pat::Seq(items) => may_split_list(language, items, context),
    }
}

// Whether a nonterminal may split a term, as far as it is known.
fn may_split_nt(language: &CheckedLang, name: &Ref) -> bool
    ensures { IsFalse result → SplitsNothing (language_in language.now) (nt name.now) }
{
    for place in 0..language.language().nts.len() {
        if let Some((_, known)) = language.nonterminal(place, name) {
            return known.may.split;
        }
    }
    true
}

// Whether it does that of a list pattern of these items.
#[cycle(splitting_forms)]
fn may_split_list(language: &CheckedLang, items: &[Item], context: &Term) -> bool
    ensures { IsFalse result → NeverSplits (language_in language.now)
        (seq (items_of (map slot_of items.now))) (tree_of context.now) }
{
    match context {
        Term::List(node) => match node.mark() {
            Some(place) => may_split_items(language, items, node.items(), place),
            None => false,
        },
        Term::Hole | Term::Int(_) | Term::Bool(_) | Term::Str(_) | Term::Sym(_) => false,
    }
}

// Whether it does that of the items where the context stands at this place among these terms.
#[cycle(splitting_forms)]
fn may_split_items(language: &CheckedLang, items: &[Item], terms: &[Term], place: usize) -> bool
    ensures { IsFalse result → NeverSplit (language_in language.now)
        (items_of (map slot_of items.now)) (trees_of terms.now) place }
{
    for i in 0..items.len() {
        match &items[i] {
            Item::Many(_, _) => return true,
            Item::One(q) => {
                if i >= terms.len() {
                    return false;
                }
                if i == place {
                    return may_split(language, q, &terms[i])
                        && may_match_items(language, &items[i + 1..], &terms[i + 1..]);
                }
                if !may_match(language, q, &terms[i]) {
                    return false;
                }
            }
        }
    }
    false
}
