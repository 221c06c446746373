// The cross nonterminals that a language lacks.
ghost use Rattle.std.specs.Prelude.{◌≡◌, ◌++◌, [], ◌∷◌, IfOk, OnOk, OnErr, map, bytes_eq};
ghost use Rattle.std.specs.Prelude.{if◌then◌else◌};
ghost use Rattle.std.specs.List.{list_any};
ghost use Rattle.rdx_lang.specs.Crosses as model;
ghost use Rattle.rdx_lang.specs.PatternView.{patterns_of, definition_of, language_of};
ghost use Rattle.rdx_patterns.specs.Inside.CrossesTo.{language_among, with_definitions};
ghost use Rattle.rdx_patterns.specs.Inside.Repeats.{texts_in, HaveSame};

use crate::crosses::alternatives::crossed;
use crate::lookup::Definitions;
use rdx_lang::{Language, Pat, Ref};
use rdx_term::{Name, NoMemory};
use std::alloc::Global;
use std::collections::BTreeSet;

// The alternatives of the cross nonterminal from the one to the other.
fn cross_alternatives(
    alloc: Global,
    definitions: &Definitions,
    from: &Name,
    to: &Name,
) -> Result<Vec<Pat>, NoMemory>
    ensures { IfOk result (λ v. patterns_of v.items
        ≡ model.cross_alternatives (language_among (map definition_of definitions.now))
        from.now to.now) }
{
    let mut found = Vec::new(alloc);
    if from.text() == to.text() {
        found.push(Pat::Hole)?;
    }
    for pat in definitions.alternatives(from.text()) {
        found.append(&mut crossed(alloc, pat, to)?)?;
    }
    Ok(found)
}

/// Adds the cross nonterminal from the one to the other, where the definitions lack it.
pub(crate) fn add_cross(
    alloc: Global,
    definitions: &Definitions,
    from: &Name,
    to: &Name,
    added: &mut Vec<(Ref, Vec<Pat>)>,
) -> Result<(), NoMemory>
    ensures { OnOk result (map definition_of added.new.items ≡ map definition_of added.old.items
        ++ model.new_cross (language_among (map definition_of definitions.now)) to.now from.now) }
{
    let nonterminal = Ref::Cross(from.share()?, to.share()?);
    if !definitions.has(&nonterminal) {
        let alternatives = cross_alternatives(alloc, definitions, from, to)?;
        added.push((nonterminal, alternatives))?;
    }
    Ok(())
}

// Adds those that the definitions lack from each nonterminal to `to`.
fn add_crosses_to(
    alloc: Global,
    definitions: &Definitions,
    to: &Name,
    added: &mut Vec<(Ref, Vec<Pat>)>,
) -> Result<(), NoMemory>
    ensures { OnOk result (map definition_of added.new.items ≡ map definition_of added.old.items
        ++ model.new_crosses (language_among (map definition_of definitions.now)) to.now) }
{
    for (nonterminal, _) in definitions.all() {
        match nonterminal {
            Ref::Nt(from) => add_cross(alloc, definitions, from, to, added)?,
            Ref::Cross(_, _) => {}
        }
    }
    Ok(())
}

/// Adds those to `to`, unless its text was seen. It is seen from now on.
pub(crate) fn add_crosses_once<'a>(
    alloc: Global,
    definitions: &Definitions,
    to: &'a Name,
    seen: &mut BTreeSet<&'a str>,
    added: &mut Vec<(Ref, Vec<Pat>)>,
) -> Result<(), NoMemory>
    ensures added { OnOk result (
        map definition_of added.new.items ≡ map definition_of added.old.items
        ++ (if list_any (bytes_eq to.now) (texts_in seen.old) then []
        else model.new_crosses (language_among (map definition_of definitions.now)) to.now)) }
    ensures seen { OnOk result (HaveSame (texts_in seen.new) (to.now ∷ texts_in seen.old)) }
{
    if seen.insert(to.text())? {
        add_crosses_to(alloc, definitions, to, added)?;
    }
    Ok(())
}

/// The cross nonterminals that the language lacks from each nonterminal to each of these, those to
/// one end once.
pub(crate) fn new_crosses(
    alloc: Global,
    language: &Language,
    ends: &[Name],
) -> Result<Vec<(Ref, Vec<Pat>)>, NoMemory>
    ensures { IfOk result (λ v.
        with_definitions (language_of language.now) (map definition_of v.items)
        ≡ model.with_crosses_to (language_of language.now) ends.now) }
{
    let definitions = Definitions::new(alloc, &language.nts)?;
    let mut seen = BTreeSet::new(alloc);
    let mut added = Vec::new(alloc);
    for to in ends {
        add_crosses_once(alloc, &definitions, to, &mut seen, &mut added)?;
    }
    Ok(added)
}

/// Puts the cross nonterminals to each of these that the language lacks behind its nonterminals.
/// Where there is no memory, it stays.
pub(crate) fn add_crosses(
    alloc: Global,
    language: &mut Language,
    ends: &[Name],
) -> Result<(), NoMemory>
    ensures added { OnOk result
        (language_of language.new ≡ model.with_crosses_to (language_of language.old) ends.now) }
    ensures same { OnErr result (language_of language.new ≡ language_of language.old) }
{
    let mut added = new_crosses(alloc, language, ends)?;
    Ok(language.nts.append(&mut added)?)
}
