// The nonterminals that a pattern reaches.
ghost use Rattle.std.specs.Prelude.{◌≡◌, ◌<◌, ℕ, [], IfOk, OnOk, map, false, length, slice_index_or};
ghost use Rattle.rdx_lang.specs.Checked.{language_in};
ghost use Rattle.rdx_lang.specs.Members.{In};
ghost use Rattle.rdx_lang.specs.PatternView.{pattern_of};
ghost use Rattle.rdx_gen.specs.Inside.Places.{IsMentioned, IsPlaceOf, Mentions};
ghost use Rattle.rdx_gen.specs.Inside.Waiting.{AreReached, Marks};
ghost use Rattle.rdx_gen.specs.NameRules as model;

use crate::marking::{mark, no_marks};
use crate::mentioned::{add_all_mentioned, add_mentioned};
use crate::nonterminals::Nonterminals;
use rdx_lang::{Pat, Ref};
use rdx_term::NoMemory;
use std::alloc::Global;

/// Whether there is a mark at this place.
pub(crate) fn has_mark(marks: &[bool], i: usize) -> bool
    ensures { result ≡ slice_index_or marks.now i false }
{
    i < marks.len() && marks[i]
}

// Marks the places of these nonterminals, and lists those that had no mark.
fn mark_names(
    nonterminals: &Nonterminals<'_>,
    names: &[&Ref],
    marks: &mut Vec<bool>,
    listed: &mut Vec<usize>,
) -> Result<(), NoMemory>
    ensures { OnOk result (Marks
        (IsPlaceOf (language_in nonterminals.now.language.now) (map (λ r. r.now) names.now))
        marks.old.items marks.new.items listed.old.items listed.new.items) }
{
    for name in names {
        mark(nonterminals.place(name), marks, listed)?;
    }
    Ok(())
}

// Marks those that the definition at this place mentions.
fn mark_mentioned(
    alloc: Global,
    nonterminals: &Nonterminals<'_>,
    place: usize,
    marks: &mut Vec<bool>,
    listed: &mut Vec<usize>,
) -> Result<(), NoMemory>
    requires { place < length (language_in nonterminals.now.language.now).nonterminals }
    ensures { OnOk result (Marks (Mentions (language_in nonterminals.now.language.now) place)
        marks.old.items marks.new.items listed.old.items listed.new.items) }
{
    let mut names = Vec::new(alloc);
    add_all_mentioned(&nonterminals.language.language().nts[place].1, &mut names)?;
    mark_names(nonterminals, &names, marks, listed)?;
    Ok(())
}

// Marks those that the definitions at these places mention, and lists those that had no mark.
fn mark_all_mentioned(
    alloc: Global,
    nonterminals: &Nonterminals<'_>,
    places: &[usize],
    marks: &mut Vec<bool>,
) -> Result<Vec<usize>, NoMemory>
    requires { (j : ℕ) → In j places.now →
        j < length (language_in nonterminals.now.language.now).nonterminals }
    ensures { IfOk result (λ v. Marks
        (IsMentioned (language_in nonterminals.now.language.now) places.now)
        marks.old.items marks.new.items [] v.items) }
{
    let mut listed = Vec::new(alloc);
    for place in places {
        mark_mentioned(alloc, nonterminals, *place, marks, &mut listed)?;
    }
    Ok(listed)
}

// One step on, from those that were marked last.
fn step(
    alloc: Global,
    nonterminals: &Nonterminals<'_>,
    marks: &mut Vec<bool>,
    front: &[usize],
) -> Result<Vec<usize>, NoMemory>
    requires { AreReached (language_in nonterminals.now.language.now) marks.old.items front.now }
    ensures next { IfOk result (λ v. marks.new.items
        ≡ model.next_marks (language_in nonterminals.now.language.now) marks.old.items) }
    ensures reached { IfOk result (λ v.
        AreReached (language_in nonterminals.now.language.now) marks.new.items v.items) }
{
    let _language = nonterminals.language.language();
    Ok(mark_all_mentioned(alloc, nonterminals, front, marks)?)
}

/// Marks of the nonterminals that the pattern reaches, in the language's order.
pub(crate) fn reached_in(
    alloc: Global,
    nonterminals: &Nonterminals<'_>,
    pat: &Pat,
) -> Result<Vec<bool>, NoMemory>
    ensures { IfOk result (λ v. v.items
        ≡ model.reached (language_in nonterminals.now.language.now) (pattern_of pat.now)) }
{
    let count = nonterminals.language.language().nts.len();
    let mut names = Vec::new(alloc);
    add_mentioned(pat, &mut names)?;
    let mut marks = no_marks(alloc, count)?;
    let mut front = Vec::new(alloc);
    mark_names(nonterminals, &names, &mut marks, &mut front)?;
    let mut left = count;
    while left > 0 && !front.is_empty() {
        front = step(alloc, nonterminals, &mut marks, &front)?;
        left -= 1;
    }
    Ok(marks)
}
