// What is known of nonterminals and of their alternatives, as the facts of a language tell.
ghost use Rattle.std.specs.Prelude.{◌≡◌, IfSome, IsTrue, bytes_eq, drop, map};
ghost use Rattle.rdx_lang.specs.References as references;
ghost use Rattle.rdx_term.specs.View.{tree_of};
ghost use Rattle.rdx_lang.specs.Checked.{language_in};
ghost use Rattle.rdx_lang.specs.Facts.{AreKnown, IsAtMost, IsKnown};
ghost use Rattle.rdx_lang.specs.Members.{In};
ghost use Rattle.rdx_lang.specs.Patterns.{Language, Pattern, nt};
ghost use Rattle.rdx_lang.specs.PatternView.{definition_of, patterns_of};
ghost use Rattle.rdx_bind.specs.Searching.{MatchesNone};
ghost use Rattle.rdx_direct.specs.Inside.Known.{AreChoices, IsHint};
ghost use Rattle.rdx_direct.specs.Inside.Reaching.{IsApart};

use crate::choices::{Choices, Hint};
use rdx_lang::{CheckedLang, Known, May, Pat, Ref};
use rdx_nodes::places::{FEW, alternatives_at, place_of};
use rdx_term::Term;

// What is known of a pattern of which nothing is known.
const ANYTHING: May = May {
    split: true,
    atoms: true,
    least: 0,
    most: u32::MAX,
    solid: true,
    bind: true,
};

// The nonterminal, if it stands at this place of the language and anything is known.
fn choices_at<'a>(language: &'a CheckedLang, place: usize, name: &Ref) -> Option<Choices<'a>>
    ensures { IfSome result (λ c. AreChoices (language_in language.now) name.now c) }
{
    let (pats, known) = language.nonterminal(place, name)?;
    let known = Some(known);
    Some(Choices { pats, known })
}

// Whether both texts are the same. Those of one byte, as names of nonterminals often are, are compared
// without a call.
#[inline(always)]
fn is_same_text(a: &[u8], b: &[u8]) -> bool
    ensures { result ≡ bytes_eq a.now b.now }
{
    if a.len() == 1 && b.len() == 1 {
        return a[0] == b[0];
    }
    a == b
}

// Whether both are the same nonterminal.
#[inline(always)]
fn is_same(name: &Ref, other: &Ref) -> bool
    ensures { result ≡ references.is_same name.now other.now }
{
    match (name, other) {
        (Ref::Nt(a), Ref::Nt(b)) => is_same_text(a.text().as_bytes(), b.text().as_bytes()),
        (Ref::Cross(_, _), Ref::Cross(_, _) | Ref::Nt(_)) | (Ref::Nt(_), Ref::Cross(_, _)) => {
            name.same(other)
        }
    }
}

// The nonterminal, if it is the one at this place of these, of which these are known.
fn found_at<'a>(
    nts: &'a [(Ref, Vec<Pat>)],
    known: &'a [Known],
    place: usize,
    name: &Ref,
) -> Option<Choices<'a>>
    ensures all { IfSome result (λ c.
        In (name.now, patterns_of c.pats.now) (map definition_of nts.now)) }
    ensures known { (L : Language) → AreKnown L (map definition_of nts.now) known.now
        → IfSome result (λ c. IfSome c.known (λ k.
        IsKnown L (name.now, patterns_of c.pats.now) k.now)) }
{
    let known = known.get(place)?;
    let (other, pats) = nts.get(place)?;
    if is_same(name, other) {
        let known = Some(known);
        Some(Choices { pats, known })
    } else {
        None
    }
}

// The nonterminal, as it is found in the language, if anything is known.
fn choices_in<'a>(language: &'a CheckedLang, places: &[usize], name: &Ref) -> Option<Choices<'a>>
    ensures { IfSome result (λ c. AreChoices (language_in language.now) name.now c) }
{
    let nts = &language.language().nts;
    if nts.len() > FEW {
        return choices_at(language, place_of(nts, places, name)?, name);
    }
    let known = &language.facts()?.nonterminals;
    for place in 0..nts.len() {
        if let Some(found) = found_at(nts, known, place, name) {
            return Some(found);
        }
    }
    None
}

/// The alternatives of a nonterminal, and what is known of it and of them.
#[inline(never)]
pub(crate) fn choices_of<'a>(language: &'a CheckedLang, places: &[usize], name: &Ref) -> Choices<'a>
    ensures { AreChoices (language_in language.now) name.now result }
{
    if let Some(choices) = choices_in(language, places, name) {
        return choices;
    }
    let pats = alternatives_at(language, places, name);
    Choices { pats, known: None }
}

/// The same of one that may stand at this place, if it is told.
pub(crate) fn choices_from<'a>(
    language: &'a CheckedLang,
    places: &[usize],
    to: Option<usize>,
    name: &Ref,
) -> Choices<'a>
    ensures { AreChoices (language_in language.now) name.now result }
{
    if let Some(place) = to {
        if let Some(choices) = choices_at(language, place, name) {
            return choices;
        }
    }
    choices_of(language, places, name)
}

/// What is known of the nonterminal.
#[inline(always)]
pub(crate) fn may_of(choices: Choices<'_>) -> May
    ensures { (L : Language) (x : Ref) → AreChoices L x choices.entry → IsAtMost L result (nt x) }
{
    match choices.known {
        Some(known) => known.may,
        None => ANYTHING,
    }
}

/// What is known of the alternative at this place.
#[inline(always)]
pub(crate) fn hint_at(choices: Choices<'_>, place: usize) -> Hint
    ensures { (L : Language) (x : Ref) → AreChoices L x choices.entry → IsHint L result
        (patterns_of (drop place choices.entry.pats.now)) }
{
    if let Some(known) = choices.known {
        if let Some(each) = known.each.get(place) {
            return Hint {
                may: each.may,
                to: each.to,
            };
        }
    }
    Hint {
        may: ANYTHING,
        to: None,
    }
}

/// Whether what is known of a pattern leaves out that it matches the term.
#[inline(always)]
pub(crate) fn leaves_out(may: May, t: &Term) -> bool
    ensures { IsTrue result → (L : Language) (p : Pattern) → IsAtMost L may p → MatchesNone L p
        (tree_of t.now) }
{
    match t {
        Term::Hole => !may.atoms,
        Term::Int(_) | Term::Bool(_) | Term::Str(_) | Term::Sym(_) => !may.atoms || !may.solid,
        Term::List(node) => {
            // The greatest number bounds nothing: no term has more items.
            let count = node.items().len();
            count < may.least as usize
                || count > may.most as usize
                || !may.solid && node.holes() == 0
        }
    }
}

/// Whether what is known of a pattern leaves out that it matches or splits the term: a list of another length.
#[inline(always)]
pub(crate) fn is_outside(may: May, t: &Term) -> bool
    ensures { IsTrue result → (L : Language) (p : Pattern) → IsAtMost L may p → IsApart L p
        (tree_of t.now) }
{
    match t {
        Term::Hole | Term::Int(_) | Term::Bool(_) | Term::Str(_) | Term::Sym(_) => false,
        Term::List(node) => {
            let count = node.items().len();
            count < may.least as usize || count > may.most as usize
        }
    }
}
