// What is known of a language.
ghost use Rattle.std.specs.Prelude.{◌≡◌, map, IfOk, IfSome};
ghost use Rattle.rdx_lang.specs.Facts.{AreFacts};
ghost use Rattle.rdx_lang.specs.PatternView.{patterns_of, language_of};
ghost use Rattle.rdx_facts.specs.Inside.Flags as model;

use crate::closing::closed_marks;
use crate::literals::mentioned;
use crate::patterns::{nonterminal_may, pattern_may};
use rdx_lang::{Each, Facts, Known, Language, May, Pat, Ref};
use rdx_term::NoMemory;
use std::alloc::Global;

// With more nonterminals nothing is worth knowing.
const MOST: usize = 256;

// The place of the nonterminal, if it is defined.
fn place_of(language: &Language, name: &Ref) -> Option<usize> {
    for (place, (other, _)) in language.nts.iter().enumerate() {
        if name.same(other) {
            return Some(place);
        }
    }
    None
}

// The place of the nonterminal that the pattern is, if it is one.
fn leads_to(language: &Language, pat: &Pat) -> Option<usize> {
    match pat {
        Pat::Nt(name) => place_of(language, name),
        Pat::Wild
        | Pat::Kind(_)
        | Pat::Except(_)
        | Pat::Prefix(_)
        | Pat::Hole
        | Pat::Lit(_)
        | Pat::Named(_, _)
        | Pat::Differ(_, _)
        | Pat::InHole(_, _)
        | Pat::HideHole(_)
        | Pat::Closed(_)
        | Pat::Seq(_) => None,
    }
}

// What is known of these alternatives by the marks.
fn each_of(
    alloc: Global,
    language: &Language,
    marks: &[May],
    pats: &[Pat],
) -> Result<Vec<Each>, NoMemory>
    ensures { IfOk result (λ v. model.mays v.items ≡
        map (λ p. model.may_of (model.may_by (language_of language.now) marks.now) p)
        (patterns_of pats.now)) }
{
    let mut each = Vec::with_capacity(alloc, pats.len())?;
    for pat in pats {
        let may = pattern_may(language, marks, pat);
        let to = leads_to(language, pat);
        each.push(Each { may, to })?;
    }
    Ok(each)
}

// What is known of all nonterminals by the marks.
fn all_of(alloc: Global, language: &Language, marks: &[May]) -> Result<Vec<Known>, NoMemory>
    ensures { IfOk result (λ v. map model.flags_of v.items ≡
        map (λ d. model.flags_by (model.may_by (language_of language.now) marks.now) d)
        (language_of language.now).nonterminals) }
{
    let mut known = Vec::with_capacity(alloc, language.nts.len())?;
    for (name, alternatives) in &language.nts {
        let may = nonterminal_may(language, marks, name);
        let each = each_of(alloc, language, marks, alternatives)?;
        known.push(Known { may, each })?;
    }
    Ok(known)
}

/// What the nonterminals of a language never do, nor their alternatives, as far as it is found; and
/// the symbols that it has as literals, where an alternative asks for the others. `None` where it has
/// more than 256 nonterminals.
pub fn facts_of(alloc: Global, language: &Language) -> Result<Option<Facts>, NoMemory>
    ensures { IfOk result (λ r. IfSome r (λ f. AreFacts (language_of language.now) f)) }
{
    if language.nts.len() > MOST {
        return Ok(None);
    }
    match closed_marks(alloc, language)? {
        Some(marks) => {
            let nonterminals = all_of(alloc, language, &marks)?;
            let mentioned = mentioned(alloc, language)?;
            Ok(Some(Facts {
                nonterminals,
                mentioned,
            }))
        }
        None => Ok(None),
    }
}
