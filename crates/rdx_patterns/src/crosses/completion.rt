// Languages with the cross nonterminals that they need.
ghost use Rattle.std.specs.Prelude.{◌≡◌, ◌++◌, [], IfOk, OnOk, map};
ghost use Rattle.std.specs.Prelude.{◌||◌, if◌then◌else◌};
ghost use Rattle.rdx_lang.specs.Crosses as model;
ghost use Rattle.rdx_lang.specs.PatternView.{definition_of, language_of};
ghost use Rattle.rdx_lang.specs.References.{is_same, is_among};
ghost use Rattle.rdx_lang.specs.declared.pattern.Ref.TheVariants as refs;
ghost use Rattle.rdx_patterns.specs.Found.{heads};
ghost use Rattle.rdx_patterns.specs.Inside.CrossesTo.{language_among, with_definitions};

use crate::crosses::adding::{add_cross, add_crosses_once};
use crate::crosses::ways::language_ways;
use crate::lookup::Definitions;
use rdx_lang::{Language, Pat, Ref};
use rdx_term::{Name, NoMemory};
use std::alloc::Global;
use std::collections::BTreeSet;

// Whether this is the cross nonterminal from the one to the other.
fn leads(nonterminal: &Ref, from: &Name, to: &Name) -> bool
    ensures { result ≡ is_same (refs.Cross from.now to.now) nonterminal.now }
{
    match nonterminal {
        Ref::Nt(_) => false,
        Ref::Cross(start, end) => from.text() == start.text() && to.text() == end.text(),
    }
}

// Whether the cross nonterminal from the one to the other is among the definitions.
fn is_added(added: &[(Ref, Vec<Pat>)], from: &Name, to: &Name) -> bool
    ensures { result
        ≡ is_among (refs.Cross from.now to.now) (heads (map definition_of added.now)) }
{
    for (nonterminal, _) in added {
        if leads(nonterminal, from, to) {
            return true;
        }
    }
    false
}

// Adds the cross nonterminal from the one to the other, where it leads from no nonterminal of the
// language and is not there yet. Then it is not among those from each nonterminal.
fn add_from_elsewhere(
    alloc: Global,
    definitions: &Definitions,
    from: &Name,
    to: &Name,
    added: &mut Vec<(Ref, Vec<Pat>)>,
) -> Result<(), NoMemory>
    ensures { OnOk result (map definition_of added.new.items ≡ map definition_of added.old.items
        ++ (if is_among (refs.Nt from.now) (heads (map definition_of definitions.now))
        || is_among (refs.Cross from.now to.now) (heads (map definition_of added.old.items)) then []
        else model.new_cross (language_among (map definition_of definitions.now))
        to.now from.now)) }
{
    if definitions.has_name(from.text()) || is_added(added, from, to) {
        return Ok(());
    }
    add_cross(alloc, definitions, from, to, added)
}

// What the language lacks of that which cross nonterminals leading so need, each once.
fn new_crosses_of(
    alloc: Global,
    language: &Language,
    ways: &[(Name, Name)],
) -> Result<Vec<(Ref, Vec<Pat>)>, NoMemory>
    ensures { IfOk result (λ v.
        with_definitions (language_of language.now) (map definition_of v.items)
        ≡ model.with_ways (language_of language.now) ways.now) }
{
    let definitions = Definitions::new(alloc, &language.nts)?;
    let mut seen = BTreeSet::new(alloc);
    let mut added = Vec::new(alloc);
    for (from, to) in ways {
        add_crosses_once(alloc, &definitions, to, &mut seen, &mut added)?;
        add_from_elsewhere(alloc, &definitions, from, to, &mut added)?;
    }
    Ok(added)
}

/// Gives the language the cross nonterminals that its alternatives need.
pub fn complete(alloc: Global, language: &mut Language) -> Result<(), NoMemory>
    ensures { OnOk result (language_of language.new ≡ model.completed (language_of language.old)) }
{
    let ways = language_ways(alloc, language)?;
    let mut added = new_crosses_of(alloc, language, &ways)?;
    Ok(language.nts.append(&mut added)?)
}
