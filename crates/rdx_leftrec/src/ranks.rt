// Ranks for the nodes of a language's patterns, from numbers of its nonterminals that fall along
// every step.
ghost use Rattle.std.specs.Prelude.{◌≡◌, ◌<◌, ◌+◌, ◌++◌, ◌&&◌, IfOk, OnOk, length, map, max, slice_set, if◌then◌else◌};
ghost use Rattle.rdx_lang.specs.Empty.{TellsEmpty, is_empty};
ghost use Rattle.rdx_lang.specs.PatternView.{pattern_of, patterns_of, language_of, slot_of, items_of, ranks_of};
ghost use Rattle.rdx_lang.specs.Ranks.{AreRanks};
ghost use Rattle.rdx_lang.specs.LeftNumbers.{left_number};
ghost use Rattle.rdx_lang.specs.WellFormed.{IsWellFormed};
ghost use Rattle.rdx_leftrec.specs.Inside.Components.{AreFalling};
ghost use Rattle.rdx_leftrec.specs.Inside.EmptyRules.{empty_by};
ghost use Rattle.rdx_leftrec.specs.Inside.Language.{language_at};
ghost use Rattle.rdx_leftrec.specs.Inside.Leads.{targets_of};
ghost use Rattle.rdx_leftrec.specs.Inside.Numbers.{number_in, scaled, height, height_among, height_in};
ghost use Rattle.rdx_leftrec.specs.Inside.Preorder.{pattern_ranks, items_ranks, patterns_ranks, definitions_ranks};

use crate::nonterminals::Nonterminals;
use rdx_lang::{Item, Language, Pat, Ranks, Ref};
use rdx_term::NoMemory;
use std::alloc::Global;

// How many patterns stand one in the other, at most, on a way to a nonterminal to which the pattern
// may lead.
fn height(pat: &Pat) -> Result<usize, NoMemory>
    ensures { IfOk result (λ n. n ≡ height (pattern_of pat.now)) }
{
    match pat {
        Pat::Named(_, inner) | Pat::Differ(_, inner) | Pat::HideHole(inner) | Pat::Closed(inner) =>
            { height(inner)?.checked_add(1).ok_or(NoMemory) }
        Pat::InHole(left, right) => {
            let parts = height(left)?.max(height(right)?);
            parts.checked_add(1).ok_or(NoMemory)
        }
        Pat::Wild
        | Pat::Kind(_)
        | Pat::Except(_)
        | Pat::Prefix(_)
        | Pat::Hole
        | Pat::Lit(_)
        | Pat::Nt(_)
        | Pat::Seq(_) => Ok(0),
    }
}

// The greatest height of these patterns.
fn height_among(alternatives: &[Pat]) -> Result<usize, NoMemory>
    ensures { IfOk result (λ n. n ≡ height_among (patterns_of alternatives.now)) }
{
    let mut most = 0;
    for pat in alternatives {
        most = height(pat)?.max(most);
    }
    Ok(most)
}

// The greatest in the language.
fn height_in(language: &Language) -> Result<usize, NoMemory>
    ensures { IfOk result (λ n. n ≡ height_in (language_of language.now).nonterminals) }
{
    let mut most = 0;
    for (_, alternatives) in &language.nts {
        most = height_among(alternatives)?.max(most);
    }
    Ok(most)
}

// These numbers of nonterminals, with room between them. Where one is too large for the machine,
// the language has more than 2^32 nonterminals or patterns around one, which memory doesn't hold.
fn scaled(alloc: Global, falling: &[usize], scale: usize) -> Result<Vec<usize>, NoMemory>
    ensures { IfOk result (λ v. v.items ≡ scaled scale falling.now) }
{
    let mut numbers = Vec::new(alloc);
    for number in falling {
        let more = number.checked_add(1).ok_or(NoMemory)?;
        numbers.push(more.checked_mul(scale).ok_or(NoMemory)?)?;
    }
    Ok(numbers)
}

// What is known of a pattern whose nodes have their ranks.
#[derive(Clone, Copy)]
struct Root {
    // The rank of the pattern's own node.
    rank: usize,
    // Whether the pattern is Empty.
    empty: bool,
}

impl Root {
    // That of a pattern around this one, which is Empty or not.
    fn around(self, empty: bool) -> Result<Root, NoMemory>
        ensures rank { IfOk result (λ r. r.rank ≡ self.rank + 1) }
        ensures empty { IfOk result (λ r. r.empty ≡ empty) }
    {
        let rank = self.rank.checked_add(1).ok_or(NoMemory)?;
        Ok(Root { rank, empty })
    }

    // That of `in-hole` with this pattern and the other.
    fn with(self, right: Root) -> Result<Root, NoMemory>
        ensures rank { IfOk result (λ r. r.rank ≡
            max self.rank (if self.empty then right.rank else 0) + 1) }
        ensures empty { IfOk result (λ r. r.empty ≡ (self.empty && right.empty)) }
    {
        let below = if self.empty { right.rank } else { 0 };
        let rank = self.rank.max(below).checked_add(1).ok_or(NoMemory)?;
        Ok(Root {
            rank,
            empty: self.empty && right.empty,
        })
    }
}

// That of a nonterminal.
fn nonterminal(
    nonterminals: &Nonterminals<'_>,
    empty: &[bool],
    numbers: &[usize],
    name: &Ref,
) -> Root
    ensures rank { result.rank ≡ number_in (language_at nonterminals.now) numbers.now name.now }
    ensures empty { result.empty ≡ empty_by (language_at nonterminals.now) empty.now name.now }
{
    let place = nonterminals.place(name);
    Root {
        rank: numbers.get(place).copied().unwrap_or(0),
        empty: empty.get(place).copied().unwrap_or(false),
    }
}

// Writes the rank of a pattern's own node at the place that was kept for it.
fn write_root(ranks: &mut Vec<usize>, at: usize, root: Root) -> Root
    requires { at < length ranks.old.items }
    ensures rank { ranks.new.items ≡ slice_set ranks.old.items at root.rank }
    ensures same { result ≡ root }
{
    ranks[at] = root.rank;
    root
}

// Adds the ranks of the nodes of a pattern, in pre-order.
#[cycle(ranking)]
fn rank_nodes(
    nonterminals: &Nonterminals<'_>,
    empty: &[bool],
    numbers: &[usize],
    pat: &Pat,
    ranks: &mut Vec<usize>,
) -> Result<Root, NoMemory>
    ensures ranks { OnOk result (ranks.new.items ≡ ranks.old.items ++
        pattern_ranks (empty_by (language_at nonterminals.now) empty.now)
        (number_in (language_at nonterminals.now) numbers.now) (pattern_of pat.now)) }
    ensures rank { IfOk result (λ r. r.rank ≡
        left_number (empty_by (language_at nonterminals.now) empty.now)
        (number_in (language_at nonterminals.now) numbers.now) (pattern_of pat.now)) }
    ensures empty { IfOk result (λ r. r.empty ≡
        is_empty (empty_by (language_at nonterminals.now) empty.now) (pattern_of pat.now)) }
{
    let at = ranks.len();
    ranks.push(0)?;
    match pat {
        Pat::Wild | Pat::Kind(_) | Pat::Except(_) | Pat::Prefix(_) | Pat::Lit(_) => Ok(Root {
            rank: 0,
            empty: false,
        }),
        Pat::Hole => Ok(Root {
            rank: 0,
            empty: true,
        }),
        Pat::Nt(name) => {
            let root = nonterminal(nonterminals, empty, numbers, name);
            Ok(write_root(ranks, at, root))
        }
        Pat::Named(_, inner) | Pat::Closed(inner) | Pat::Differ(_, inner) => {
            let part = rank_nodes(nonterminals, empty, numbers, inner, ranks)?;
            let root = part.around(part.empty)?;
            Ok(write_root(ranks, at, root))
        }
        Pat::InHole(left, right) => {
            let left = rank_nodes(nonterminals, empty, numbers, left, ranks)?;
            let right = rank_nodes(nonterminals, empty, numbers, right, ranks)?;
            let root = left.with(right)?;
            Ok(write_root(ranks, at, root))
        }
        Pat::HideHole(inner) => {
            let part = rank_nodes(nonterminals, empty, numbers, inner, ranks)?;
            let root = part.around(false)?;
            Ok(write_root(ranks, at, root))
        }
        Pat::Seq(items) => {
            rank_items(nonterminals, empty, numbers, items, ranks)?;
            Ok(Root {
                rank: 0,
                empty: false,
            })
        }
    }
}

// Adds the ranks of the nodes of items.
#[cycle(ranking)]
fn rank_items(
    nonterminals: &Nonterminals<'_>,
    empty: &[bool],
    numbers: &[usize],
    items: &[Item],
    ranks: &mut Vec<usize>,
) -> Result<(), NoMemory>
    ensures { OnOk result (ranks.new.items ≡ ranks.old.items ++
        items_ranks (empty_by (language_at nonterminals.now) empty.now)
        (number_in (language_at nonterminals.now) numbers.now) (items_of (map slot_of items.now))) }
{
    for item in items {
        let (Item::One(pat) | Item::Many(pat, _)) = item;
        rank_nodes(nonterminals, empty, numbers, pat, ranks)?;
    }
    Ok(())
}

// Adds the ranks of the nodes of these patterns.
fn rank_patterns(
    nonterminals: &Nonterminals<'_>,
    empty: &[bool],
    numbers: &[usize],
    alternatives: &[Pat],
    ranks: &mut Vec<usize>,
) -> Result<(), NoMemory>
    ensures { OnOk result (ranks.new.items ≡ ranks.old.items ++
        patterns_ranks (empty_by (language_at nonterminals.now) empty.now)
        (number_in (language_at nonterminals.now) numbers.now) (patterns_of alternatives.now)) }
{
    for pat in alternatives {
        rank_nodes(nonterminals, empty, numbers, pat, ranks)?;
    }
    Ok(())
}

// The ranks of the nodes of all alternatives, from a number for each nonterminal.
fn rank_language(
    alloc: Global,
    nonterminals: &Nonterminals<'_>,
    empty: &[bool],
    numbers: &[usize],
) -> Result<Vec<usize>, NoMemory>
    ensures { IfOk result (λ v. v.items ≡
        definitions_ranks (empty_by (language_at nonterminals.now) empty.now)
        (number_in (language_at nonterminals.now) numbers.now)
        (language_at nonterminals.now).nonterminals) }
{
    let mut ranks = Vec::new(alloc);
    for (_, alternatives) in &nonterminals.language.nts {
        rank_patterns(nonterminals, empty, numbers, alternatives, &mut ranks)?;
    }
    Ok(ranks)
}

// Ranks that fall along every left edge, where it is known which nonterminals are Empty, from
// numbers of the nonterminals that fall along every step.
pub(crate) fn ranks(
    alloc: Global,
    nonterminals: &Nonterminals<'_>,
    empty: &[bool],
    falling: &[usize],
) -> Result<Ranks, NoMemory>
    requires well_formed { IsWellFormed (language_at nonterminals.now) }
    requires empty { TellsEmpty (language_at nonterminals.now)
        (empty_by (language_at nonterminals.now) empty.now) }
    requires falling { AreFalling (targets_of
        (empty_by (language_at nonterminals.now) empty.now)
        (language_at nonterminals.now)) falling.now }
    ensures { IfOk result (λ r. AreRanks (language_at nonterminals.now) (ranks_of r)) }
{
    let scale = height_in(nonterminals.language)?
        .checked_add(1)
        .ok_or(NoMemory)?;
    let numbers = scaled(alloc, falling, scale)?;
    let of = rank_language(alloc, nonterminals, empty, &numbers)?;
    Ok(Ranks { of })
}
