// The tests that a pattern is well formed in a language, and that a language is.
ghost use Rattle.std.specs.Prelude.{◌≡◌, ◌↔◌, IfOk, IsTrue, map};
ghost use Rattle.rdx_lang.specs.PatternView.{pattern_of, patterns_of, definition_of, language_of, slot_of, items_of};
ghost use Rattle.rdx_lang.specs.References as references;
ghost use Rattle.rdx_lang.specs.WellFormed as model;

use crate::lookup::{is_among, is_defined};
use crate::uses::has_fitting_names;
use crate::{Item, Language, Pat, Ref};
use rdx_term::NoMemory;
use std::alloc::Global;

// Whether each nonterminal that stands in the pattern is defined.
#[cycle(known)]
fn has_known_nonterminals(language: &Language, pat: &Pat) -> bool
    ensures { result ≡ model.has_known_nonterminals (model.defined (language_of language.now))
        (pattern_of pat.now) }
{
    match pat {
        Pat::Wild | Pat::Kind(_) | Pat::Except(_) | Pat::Prefix(_) | Pat::Hole | Pat::Lit(_) =>
            true,
        Pat::Nt(name) => is_defined(language, name),
        Pat::Named(_, inner) | Pat::Differ(_, inner) | Pat::HideHole(inner) | Pat::Closed(inner) =>
            has_known_nonterminals(language, inner),
        Pat::InHole(left, right) => {
            has_known_nonterminals(language, left) && has_known_nonterminals(language, right)
        }
        Pat::Seq(items) => have_known_nonterminals(language, items),
    }
}

// Whether each that stands in the items is.
#[cycle(known)]
fn have_known_nonterminals(language: &Language, items: &[Item]) -> bool
    ensures { result ≡ model.have_known_nonterminals (model.defined (language_of language.now))
        (items_of (map slot_of items.now)) }
{
    for item in items {
        let (Item::One(pat) | Item::Many(pat, _)) = item;
        if !has_known_nonterminals(language, pat) {
            return false;
        }
    }
    true
}

// Whether the pattern is well formed in the language.
pub(crate) fn is_well_formed(
    alloc: Global,
    language: &Language,
    pat: &Pat,
) -> Result<bool, NoMemory>
    ensures { IfOk result (λ b.
        b ≡ model.is_well_formed_in (language_of language.now) (pattern_of pat.now)) }
{
    Ok(has_known_nonterminals(language, pat) && has_fitting_names(alloc, pat)?)
}

// Whether all of these patterns are.
fn are_well_formed(alloc: Global, language: &Language, pats: &[Pat]) -> Result<bool, NoMemory>
    ensures { IfOk result (λ b.
        b ≡ model.all_patterns (model.is_well_formed_in (language_of language.now))
        (patterns_of pats.now)) }
{
    for pat in pats {
        if !is_well_formed(alloc, language, pat)? {
            return Ok(false);
        }
    }
    Ok(true)
}

// Whether all alternatives of the language are.
fn has_well_formed_alternatives(alloc: Global, language: &Language) -> Result<bool, NoMemory>
    ensures { IfOk result (λ b.
        b ≡ model.has_well_formed_alternatives (language_of language.now)) }
{
    for (_, alternatives) in &language.nts {
        if !are_well_formed(alloc, language, alternatives)? {
            return Ok(false);
        }
    }
    Ok(true)
}

// Whether no nonterminal is defined twice.
fn are_distinct(definitions: &[(Ref, Vec<Pat>)]) -> bool
    ensures { result ≡ references.are_distinct
        (map (λ d. d.0) (map definition_of definitions.now)) }
{
    for i in 0..definitions.len() {
        if is_among(&definitions[i].0, &definitions[i + 1..]) {
            return false;
        }
    }
    true
}

impl Language {
    /// Whether no nonterminal is defined twice, each that stands in an alternative is defined, and the
    /// names of each alternative have one depth each.
    pub fn is_well_formed(&self, alloc: Global) -> Result<bool, NoMemory>
        ensures { IfOk result (λ b. IsTrue b ↔ model.IsWellFormed (language_of self.now)) }
    {
        Ok(are_distinct(&self.nts) && has_well_formed_alternatives(alloc, self)?)
    }
}
