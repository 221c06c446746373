// To which nonterminals the patterns of a language lead by left edges, by their places.
ghost use Rattle.std.specs.Prelude.{◌≡◌, ◌++◌, IfOk, OnOk};
ghost use Rattle.rdx_lang.specs.Empty.{is_empty};
ghost use Rattle.rdx_lang.specs.PatternView.{pattern_of, patterns_of};
ghost use Rattle.rdx_lang.specs.WellFormed.{defined};
ghost use Rattle.rdx_leftrec.specs.Inside.EmptyRules.{empty_by};
ghost use Rattle.rdx_leftrec.specs.Inside.Language.{language_at};
ghost use Rattle.rdx_leftrec.specs.Inside.Leads as model;

use crate::nonterminals::Nonterminals;
use rdx_lang::Pat;
use rdx_term::NoMemory;
use std::alloc::Global;

// Adds the places of the nonterminals to which the pattern leads, where `empty` marks those that
// are Empty; whether the pattern is.
fn add_leads(
    nonterminals: &Nonterminals<'_>,
    empty: &[bool],
    pat: &Pat,
    found: &mut Vec<usize>,
) -> Result<bool, NoMemory>
    ensures leads { OnOk result (found.new.items ≡ found.old.items ++
        model.places (defined (language_at nonterminals.now))
        (model.leads (empty_by (language_at nonterminals.now) empty.now) (pattern_of pat.now))) }
    ensures empty { IfOk result (λ b. b ≡
        is_empty (empty_by (language_at nonterminals.now) empty.now) (pattern_of pat.now)) }
{
    match pat {
        Pat::Wild | Pat::Kind(_) | Pat::Except(_) | Pat::Prefix(_) | Pat::Lit(_) | Pat::Seq(_) =>
            Ok(false),
        Pat::Hole => Ok(true),
        Pat::Nt(name) => {
            let place = nonterminals.place(name);
            found.push(place)?;
            Ok(empty.get(place).copied().unwrap_or(false))
        }
        Pat::Named(_, inner) | Pat::Closed(inner) | Pat::Differ(_, inner) => {
            add_leads(nonterminals, empty, inner, found)
        }
        Pat::InHole(left, right) => {
            if add_leads(nonterminals, empty, left, found)? {
                add_leads(nonterminals, empty, right, found)
            } else {
                Ok(false)
            }
        }
        Pat::HideHole(inner) => {
            add_leads(nonterminals, empty, inner, found)?;
            Ok(false)
        }
    }
}

// The places of the nonterminals to which these patterns lead.
fn all_leads(
    alloc: Global,
    nonterminals: &Nonterminals<'_>,
    empty: &[bool],
    alternatives: &[Pat],
) -> Result<Vec<usize>, NoMemory>
    ensures { IfOk result (λ v. v.items ≡ model.places (defined (language_at nonterminals.now))
        (model.all_leads (empty_by (language_at nonterminals.now) empty.now)
        (patterns_of alternatives.now))) }
{
    let mut found = Vec::new(alloc);
    for pat in alternatives {
        add_leads(nonterminals, empty, pat, &mut found)?;
    }
    Ok(found)
}

// For each nonterminal, in their order, the places of those to which its alternatives lead.
pub(crate) fn targets(
    alloc: Global,
    nonterminals: &Nonterminals<'_>,
    empty: &[bool],
) -> Result<Vec<Vec<usize>>, NoMemory>
    ensures { IfOk result (λ v. model.lists_of v.items ≡ model.targets_of
        (empty_by (language_at nonterminals.now) empty.now) (language_at nonterminals.now)) }
{
    let mut targets = Vec::new(alloc);
    for (_, alternatives) in &nonterminals.language.nts {
        targets.push(all_leads(alloc, nonterminals, empty, alternatives)?)?;
    }
    Ok(targets)
}
