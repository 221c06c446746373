// Which nonterminals of a language are Empty: those that follow by rules over their places.
ghost use Rattle.std.specs.Prelude.{◌≡◌, ◌<◌, ◌++◌, ℕ, false, not, length, replicate, IfOk, OnOk};
ghost use Rattle.rdx_lang.specs.Empty.{TellsEmpty};
ghost use Rattle.rdx_lang.specs.Members.{In};
ghost use Rattle.rdx_lang.specs.PatternView.{pattern_of, patterns_of, language_of};
ghost use Rattle.rdx_lang.specs.WellFormed.{all_patterns, all_alternatives, defined, IsWellFormed};
ghost use Rattle.rdx_leftrec.specs.Inside.EmptyRules.{AreWithin, IsLeast, is_empty_alone, may_be_empty, needs, rule_of, rules_of, alternatives_rules, language_rules, empty_by};
ghost use Rattle.rdx_leftrec.specs.Inside.Language.{language_at};
ghost use Rattle.rdx_leftrec.specs.Inside.Leads.{places};

use crate::deduction::{least_marks, no_marks};
use crate::nonterminals::Nonterminals;
use rdx_lang::{Language, Pat};
use rdx_term::NoMemory;
use std::alloc::Global;

/// The nonterminal at a place is Empty where those at all the other places are.
#[derive(Drop)]
pub(crate) struct Rule {
    /// The place of the nonterminal.
    pub whole: usize,
    /// The places of those that stand in an alternative of it.
    pub parts: Vec<usize>,
}

// Adds the places of the nonterminals that have to be Empty for the pattern to be so; whether it is
// so where they are, or else never.
fn add_needs(
    nonterminals: &Nonterminals<'_>,
    pat: &Pat,
    found: &mut Vec<usize>,
) -> Result<bool, NoMemory>
    ensures needs { OnOk result (found.new.items ≡ found.old.items ++
        places (defined (language_at nonterminals.now)) (needs (pattern_of pat.now))) }
    ensures may { IfOk result (λ b. b ≡ may_be_empty (pattern_of pat.now)) }
{
    match pat {
        Pat::Hole => Ok(true),
        Pat::Nt(name) => {
            found.push(nonterminals.place(name))?;
            Ok(true)
        }
        Pat::Named(_, inner) | Pat::Closed(inner) | Pat::Differ(_, inner) => {
            add_needs(nonterminals, inner, found)
        }
        Pat::InHole(left, right) => {
            let left = add_needs(nonterminals, left, found)?;
            let right = add_needs(nonterminals, right, found)?;
            Ok(left && right)
        }
        Pat::Wild
        | Pat::Kind(_)
        | Pat::Except(_)
        | Pat::Prefix(_)
        | Pat::Lit(_)
        | Pat::HideHole(_)
        | Pat::Seq(_) => Ok(false),
    }
}

// Adds a rule for each alternative that may be Empty, of the nonterminal at this place.
fn add_rules(
    alloc: Global,
    nonterminals: &Nonterminals<'_>,
    whole: usize,
    alternatives: &[Pat],
    rules: &mut Vec<Rule>,
) -> Result<(), NoMemory>
    ensures { OnOk result (rules_of rules.new.items ≡ rules_of rules.old.items ++
        alternatives_rules (defined (language_at nonterminals.now)) whole
        (patterns_of alternatives.now)) }
{
    for pat in alternatives {
        let mut parts = Vec::new(alloc);
        if add_needs(nonterminals, pat, &mut parts)? {
            rules.push(Rule { whole, parts })?;
        }
    }
    Ok(())
}

// The rules of all alternatives that may be Empty.
fn all_rules(alloc: Global, nonterminals: &Nonterminals<'_>) -> Result<Vec<Rule>, NoMemory>
    ensures { IfOk result (λ v. rules_of v.items ≡ language_rules (language_at nonterminals.now)) }
{
    let mut rules = Vec::new(alloc);
    for (whole, (_, alternatives)) in nonterminals.language.nts.iter().enumerate() {
        add_rules(alloc, nonterminals, whole, alternatives, &mut rules)?;
    }
    Ok(rules)
}

// Whether the pattern is Empty by itself, whatever nonterminals are.
fn is_empty_alone(pat: &Pat) -> bool
    ensures { result ≡ is_empty_alone (pattern_of pat.now) }
{
    match pat {
        Pat::Hole => true,
        Pat::Named(_, inner) | Pat::Closed(inner) | Pat::Differ(_, inner) => is_empty_alone(inner),
        Pat::InHole(left, right) => is_empty_alone(left) && is_empty_alone(right),
        Pat::Wild
        | Pat::Kind(_)
        | Pat::Except(_)
        | Pat::Prefix(_)
        | Pat::Lit(_)
        | Pat::Nt(_)
        | Pat::HideHole(_)
        | Pat::Seq(_) => false,
    }
}

// Whether none of these patterns is.
fn are_not_empty_alone(pats: &[Pat]) -> bool
    ensures { result ≡ all_patterns (λ p. not (is_empty_alone p)) (patterns_of pats.now) }
{
    for pat in pats {
        if is_empty_alone(pat) {
            return false;
        }
    }
    true
}

// Whether no alternative of the language is. Then no nonterminal is Empty.
fn has_no_empty_alternative(language: &Language) -> bool
    ensures { result ≡ all_alternatives (λ p. not (is_empty_alone p))
        (language_of language.now).nonterminals }
{
    for (_, alternatives) in &language.nts {
        if !are_not_empty_alone(alternatives) {
            return false;
        }
    }
    true
}

// Marks of the places of the nonterminals that are Empty.
pub(crate) fn empty_nonterminals(
    alloc: Global,
    nonterminals: &Nonterminals<'_>,
) -> Result<Vec<bool>, NoMemory>
    requires { IsWellFormed (language_at nonterminals.now) }
    ensures { IfOk result (λ v. TellsEmpty (language_at nonterminals.now)
        (empty_by (language_at nonterminals.now) v.items)) }
{
    let size = nonterminals.language.nts.len();
    if has_no_empty_alternative(nonterminals.language) {
        return no_marks(alloc, size);
    }
    let rules = all_rules(alloc, nonterminals)?;
    least_marks(alloc, &rules, size)
}
