// The definitions of an extension.
ghost use Rattle.std.specs.Prelude.{◌≡◌, ◌++◌, IfOk, OnOk, [], ◌∷◌, map, option_map};
ghost use Rattle.rdx_lang.specs.Crosses.{plain_definitions, without_crosses};
ghost use Rattle.rdx_lang.specs.PatternView.{definition_of, patterns_of};
ghost use Rattle.rdx_grammar.specs.Inside.BaseView.{base_in};
ghost use Rattle.rdx_grammar.specs.Extension as model;

use crate::languages::bases::Base;
use crate::languages::definitions::add_shared;
use rdx_lang::{Pat, Ref};
use rdx_patterns::Definitions;
use rdx_term::NoMemory;
use std::alloc::Global;

// Puts the same definition behind those that are there.
fn add_same(
    alloc: Global,
    nonterminal: &Ref,
    alternatives: &[Pat],
    out: &mut Vec<(Ref, Vec<Pat>)>,
) -> Result<(), NoMemory>
    ensures { OnOk result (
        map definition_of out.new.items
        ≡ map definition_of out.old.items ++ (nonterminal.now, patterns_of alternatives.now) ∷ []) }
{
    let mut shared = Vec::new(alloc);
    add_shared(alloc, alternatives, &mut shared)?;
    out.push((nonterminal.share()?, shared))?;
    Ok(())
}

// Puts the definition of a nonterminal of a base behind those that are there, with the new
// alternatives where it has some.
fn add_redefinition(
    alloc: Global,
    new: &Definitions,
    nonterminal: &Ref,
    alternatives: &[Pat],
    out: &mut Vec<(Ref, Vec<Pat>)>,
) -> Result<(), NoMemory>
    ensures { OnOk result (
        map definition_of out.new.items
        ≡ map definition_of out.old.items
        ++ model.redefined (map definition_of new.now)
        (nonterminal.now, patterns_of alternatives.now) ∷ []) }
{
    match new.find(nonterminal) {
        Some(others) => add_same(alloc, nonterminal, others, out),
        None => add_same(alloc, nonterminal, alternatives, out),
    }
}

// Puts the definitions of a base behind those that are there, with the new alternatives where it
// has some, but for those of cross nonterminals.
fn add_redefined(
    alloc: Global,
    new: &Definitions,
    base: &[(Ref, Vec<Pat>)],
    out: &mut Vec<(Ref, Vec<Pat>)>,
) -> Result<(), NoMemory>
    ensures { OnOk result (
        map definition_of out.new.items
        ≡ map definition_of out.old.items
        ++ map (model.redefined (map definition_of new.now))
        (plain_definitions (map definition_of base.now))) }
{
    for (nonterminal, alternatives) in base {
        match nonterminal {
            Ref::Nt(_) => add_redefinition(alloc, new, nonterminal, alternatives, out)?,
            Ref::Cross(_, _) => {}
        }
    }
    Ok(())
}

// Puts the new definitions that the base has not behind those that are there; its cross
// nonterminals count for nothing.
fn add_added(
    alloc: Global,
    new: &[(Ref, Vec<Pat>)],
    base: &Definitions,
    out: &mut Vec<(Ref, Vec<Pat>)>,
) -> Result<(), NoMemory>
    ensures { OnOk result (
        map definition_of out.new.items
        ≡ map definition_of out.old.items
        ++ model.added (plain_definitions (map definition_of base.now))
        (map definition_of new.now)) }
{
    for (nonterminal, alternatives) in new {
        if !base.has_plain(nonterminal) {
            add_same(alloc, nonterminal, alternatives, out)?;
        }
    }
    Ok(())
}

/// The definitions of the base but for its cross nonterminals, with the new ones.
pub(crate) fn extended(
    alloc: Global,
    base: Option<&Base>,
    new: Vec<(Ref, Vec<Pat>)>,
) -> Result<Vec<(Ref, Vec<Pat>)>, NoMemory>
    ensures { IfOk result (λ all.
        map definition_of all.items
        ≡ model.extended (without_crosses (base_in (option_map (λ c. c.now) base.entry)))
        (map definition_of new.items)) }
{
    match base {
        None => Ok(new),
        Some(base) => {
            let inherited = base.definitions();
            let redefining = Definitions::new(alloc, &new)?;
            let mut all = Vec::new(alloc);
            add_redefined(alloc, &redefining, inherited.all(), &mut all)?;
            add_added(alloc, &new, inherited, &mut all)?;
            Ok(all)
        }
    }
}
