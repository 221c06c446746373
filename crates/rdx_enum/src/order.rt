// The order in which the nonterminals are grown at each size.
ghost use Rattle.std.specs.Prelude.{◌≡◌, IfOk, map, drop};
ghost use Rattle.rdx_lang.specs.Checked.{language_in, ranks_in};
ghost use Rattle.rdx_lang.specs.LeftNumbers.{above};
ghost use Rattle.rdx_lang.specs.Nodes as counts;
ghost use Rattle.rdx_lang.specs.PatternView.{pattern_of, patterns_of, slot_of, items_of, definition_of};
ghost use Rattle.rdx_lang.specs.Ranks.{first_rank, root_ranks};
ghost use Rattle.rdx_enum.specs.Inside.Order.{IsInOrder, rankings, ranking};

use crate::ranked::Ranked;
use rdx_lang::{CheckedLang, Item, Pat, Ref};
use rdx_term::NoMemory;
use std::alloc::Global;

// The ranks behind the first.
fn rest(ranks: &[usize]) -> &[usize]
    ensures { result.now ≡ drop 1 ranks.now }
{
    if ranks.is_empty() { ranks } else { &ranks[1..] }
}

// The ranks behind those of the nodes of the pattern.
#[cycle(behind)]
fn behind<'r>(pat: &Pat, ranks: &'r [usize]) -> &'r [usize]
    ensures { result.now ≡ drop (counts.pattern_nodes (pattern_of pat.now)) ranks.now }
{
    match pat {
        Pat::Wild
        | Pat::Kind(_)
        | Pat::Except(_)
        | Pat::Prefix(_)
        | Pat::Hole
        | Pat::Lit(_)
        | Pat::Nt(_) => rest(ranks),
        Pat::Named(_, inner) => behind(inner, rest(ranks)),
        Pat::Differ(_, inner) => behind(inner, rest(ranks)),
        Pat::HideHole(inner) => behind(inner, rest(ranks)),
        Pat::Closed(inner) => behind(inner, rest(ranks)),
        Pat::InHole(left, right) => behind(right, behind(left, rest(ranks))),
        Pat::Seq(items) => behind_items(items, rest(ranks)),
    }
}

// Those behind the ranks of the nodes of the items.
#[cycle(behind)]
fn behind_items<'r>(items: &[Item], ranks: &'r [usize]) -> &'r [usize]
    ensures { result.now ≡ drop (counts.items_nodes (items_of (map slot_of items.now))) ranks.now }
{
    let mut left = ranks;
    for item in items {
        let (Item::One(pat) | Item::Many(pat, _)) = item;
        left = behind(pat, left);
    }
    left
}

// Those behind the ranks of the nodes of the patterns.
fn behind_all<'r>(pats: &[Pat], ranks: &'r [usize]) -> &'r [usize]
    ensures { result.now ≡ drop (counts.patterns_nodes (patterns_of pats.now)) ranks.now }
{
    let mut left = ranks;
    for pat in pats {
        left = behind(pat, left);
    }
    left
}

// The first of the ranks, and 0 where there is none.
fn first(ranks: &[usize]) -> usize
    ensures { result ≡ first_rank ranks.now }
{
    if ranks.is_empty() { 0 } else { ranks[0] }
}

// A number above the ranks of the roots of the patterns.
fn above_roots(pats: &[Pat], ranks: &[usize]) -> u128
    ensures { result ≡ above (root_ranks (patterns_of pats.now) ranks.now) }
{
    let mut left = ranks;
    let mut number: u128 = 0;
    for pat in pats {
        number = number.max(first(left) as u128 + 1);
        left = behind(pat, left);
    }
    number
}

// The nonterminals, each with its number.
fn ranked(alloc: Global, nts: &[(Ref, Vec<Pat>)], ranks: &[usize]) -> Result<Vec<Ranked>, NoMemory>
    ensures { IfOk result (λ all. map ranking all.items
        ≡ rankings (map definition_of nts.now) ranks.now) }
{
    let mut left = ranks;
    let mut all = Vec::new(alloc);
    for (name, alternatives) in nts {
        let number = above_roots(alternatives, left);
        left = behind_all(alternatives, left);
        all.push(Ranked {
            number,
            name: name.share()?,
        })?;
    }
    Ok(all)
}

// The nonterminals without their numbers.
fn names(alloc: Global, all: &[Ranked]) -> Result<Vec<Ref>, NoMemory>
    ensures { IfOk result (λ names. names.items ≡ map (λ r. r.name) all.now) }
{
    let mut names = Vec::new(alloc);
    for ranked in all {
        names.push(ranked.name.share()?)?;
    }
    Ok(names)
}

/// The nonterminals, those of lower rank first.
pub(crate) fn ordered(alloc: Global, language: &CheckedLang) -> Result<Vec<Ref>, NoMemory>
    ensures { IfOk result (λ xs.
        IsInOrder (language_in language.now) (ranks_in language.now) xs.items) }
{
    let mut all = ranked(alloc, &language.language().nts, &language.ranks().of)?;
    all.sort_unstable_by_key(|ranked| ranked.number);
    names(alloc, &all)
}
