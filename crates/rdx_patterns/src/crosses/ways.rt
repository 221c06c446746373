// The cross nonterminals that stand in patterns.
ghost use Rattle.std.specs.Prelude.{◌≡◌, ◌++◌, IfOk, OnOk, map, flat_map};
ghost use Rattle.rdx_lang.specs.Crosses as model;
ghost use Rattle.rdx_lang.specs.PatternView.{pattern_of, patterns_of, slot_of, items_of};
ghost use Rattle.rdx_lang.specs.PatternView.{language_of};
ghost use Rattle.rdx_lang.specs.Patterns as patterns;

use rdx_lang::{Item, Language, Pat, Ref};
use rdx_term::{Name, NoMemory};
use std::alloc::Global;

// Adds where the nonterminal leads from and where to, if it is a cross nonterminal.
fn add_way(nonterminal: &Ref, out: &mut Vec<(Name, Name)>) -> Result<(), NoMemory>
    ensures { OnOk result
        (out.new.items ≡ out.old.items ++ model.ways (patterns.nt nonterminal.now)) }
{
    match nonterminal {
        Ref::Nt(_) => {}
        Ref::Cross(from, to) => out.push((from.share()?, to.share()?))?,
    }
    Ok(())
}

// Adds those that stand in the pattern.
#[cycle(ways)]
fn add_ways(pat: &Pat, out: &mut Vec<(Name, Name)>) -> Result<(), NoMemory>
    ensures { OnOk result (out.new.items ≡ out.old.items ++ model.ways (pattern_of pat.now)) }
{
    match pat {
        Pat::Wild | Pat::Kind(_) | Pat::Except(_) | Pat::Prefix(_) | Pat::Hole | Pat::Lit(_) => Ok(
            (),
        ),
        Pat::Nt(nonterminal) => add_way(nonterminal, out),
        Pat::Named(_, inner) => add_ways(inner, out),
        Pat::Differ(_, inner) => add_ways(inner, out),
        Pat::InHole(left, right) => {
            add_ways(left, out)?;
            add_ways(right, out)
        }
        Pat::HideHole(inner) => add_ways(inner, out),
        Pat::Closed(inner) => add_ways(inner, out),
        Pat::Seq(items) => add_item_ways(items, out),
    }
}

// Adds those that stand in the items.
#[cycle(ways)]
fn add_item_ways(items: &[Item], out: &mut Vec<(Name, Name)>) -> Result<(), NoMemory>
    ensures { OnOk result (out.new.items
        ≡ out.old.items ++ model.item_ways (items_of (map slot_of items.now))) }
{
    for item in items {
        match item {
            Item::One(pat) => add_ways(pat, out)?,
            Item::Many(pat, _) => add_ways(pat, out)?,
        }
    }
    Ok(())
}

// Adds those that stand in the patterns.
fn add_ways_of_all(pats: &[Pat], out: &mut Vec<(Name, Name)>) -> Result<(), NoMemory>
    ensures { OnOk result
        (out.new.items ≡ out.old.items ++ flat_map model.ways (patterns_of pats.now)) }
{
    for pat in pats {
        add_ways(pat, out)?;
    }
    Ok(())
}

/// Where the cross nonterminals that stand in the alternatives of a language lead from, and where
/// to.
pub(crate) fn language_ways(
    alloc: Global,
    language: &Language,
) -> Result<Vec<(Name, Name)>, NoMemory>
    ensures { IfOk result (λ ways. ways.items ≡ model.language_ways (language_of language.now)) }
{
    let mut ways = Vec::new(alloc);
    for (_, alternatives) in &language.nts {
        add_ways_of_all(alternatives, &mut ways)?;
    }
    Ok(ways)
}
