// Which names may stand where.
ghost use Rattle.std.specs.Prelude.{◌≡◌, ◌++◌, OnOk, IfOk, map, [], ◌∷◌, Vec};
ghost use Rattle.rdx_lang.specs.Checked.{language_in};
ghost use Rattle.rdx_lang.specs.PatternView.{pattern_of, patterns_of, definition_of};
ghost use Rattle.rdx_gen.specs.KnownView.{known_of};
ghost use Rattle.rdx_gen.specs.NameRules as model;
ghost use Rattle.rdx_gen.specs.Inside.Groups as groups;
ghost use Rattle.rdx_gen.specs.Inside.Refs as inside;
ghost use Rattle.rdx_gen.specs.PlaceView.{place_of, places_in};

use crate::group::Group;
use crate::groups::groups_of;
use crate::known::Known;
use crate::name_set::NameSet;
use crate::nonterminals::Nonterminals;
use crate::place::Place;
use crate::places::places_of;
use crate::reach::{has_mark, reached_in};
use rdx_lang::{Pat, Ref};
use rdx_term::{Name, NoMemory};
use std::alloc::Global;

// Whether the name at the place breaks a rule, where its places have this in common.
fn breaks(u: &Place, group: Group) -> bool
    ensures { result ≡ groups.breaks_by (place_of u.now) group }
{
    u.is_mismatch
        || if u.is_length {
            group.inside
        } else {
            group.differs || (group.several && group.inside)
        }
}

// Whether it breaks one in an alternative.
fn breaks_alternative(u: &Place, group: Group) -> bool
    ensures { result ≡ groups.breaks_alternative_by (place_of u.now) group }
{
    u.is_mismatch || group.several
}

// The first name that breaks a rule in a pattern.
fn first_broken(alloc: Global, all: &[Place]) -> Result<Option<Name>, NoMemory>
    ensures { IfOk result (λ r. r
        ≡ model.first_broken (map place_of all.now) (map place_of all.now)) }
{
    let groups = groups_of(alloc, all)?;
    for i in 0..all.len() {
        if breaks(&all[i], groups[i]) {
            return Ok(Some(all[i].name.share()?));
        }
    }
    Ok(None)
}

// The first name that breaks a rule in an alternative.
fn first_in_alternative(alloc: Global, all: &[Place]) -> Result<Option<Name>, NoMemory>
    ensures { IfOk result (λ r. r
        ≡ model.first_in_alternative (map place_of all.now) (map place_of all.now)) }
{
    let groups = groups_of(alloc, all)?;
    for i in 0..all.len() {
        if breaks_alternative(&all[i], groups[i]) {
            return Ok(Some(all[i].name.share()?));
        }
    }
    Ok(None)
}

// The first name that breaks a rule in one of these alternatives.
fn first_in_alternatives(alloc: Global, pats: &[Pat]) -> Result<Option<Name>, NoMemory>
    ensures { IfOk result (λ r. r ≡ model.first_in_alternatives (patterns_of pats.now)) }
{
    for pat in pats {
        let places = places_of(alloc, pat)?;
        if let Some(name) = first_in_alternative(alloc, &places)? {
            return Ok(Some(name));
        }
    }
    Ok(None)
}

// The first name that breaks a rule in one of the alternatives of a definition that is marked.
fn first_where(alloc: Global, is_marked: bool, pats: &[Pat]) -> Result<Option<Name>, NoMemory>
    ensures { IfOk result (λ r. r ≡ inside.first_where is_marked (patterns_of pats.now)) }
{
    if is_marked {
        first_in_alternatives(alloc, pats)
    } else {
        Ok(None)
    }
}

// The first in those of the definitions that are marked.
#[tactic(auto, using(crate::proofs::Marks::first_step, crate::proofs::Marks::first_last))]
fn first_in_definitions(
    alloc: Global,
    marks: &[bool],
    definitions: &[(Ref, Vec<Pat>)],
) -> Result<Option<Name>, NoMemory>
    ensures { IfOk result (λ r. r
        ≡ model.first_in_definitions marks.now (map definition_of definitions.now)) }
{
    for i in 0..definitions.len() {
        if let Some(name) = first_where(alloc, has_mark(marks, i), &definitions[i].1)? {
            return Ok(Some(name));
        }
    }
    Ok(None)
}

/// The first name that breaks a rule, in the pattern or in the alternatives that it reaches.
pub(crate) fn first_bad_name_in(
    alloc: Global,
    nonterminals: &Nonterminals<'_>,
    pat: &Pat,
) -> Result<Option<Name>, NoMemory>
    ensures { IfOk result (λ r. r ≡ model.first_bad_name
        (language_in nonterminals.now.language.now) (pattern_of pat.now)) }
{
    let places = places_of(alloc, pat)?;
    if let Some(name) = first_broken(alloc, &places)? {
        return Ok(Some(name));
    }
    let marks = reached_in(alloc, nonterminals, pat)?;
    first_in_definitions(alloc, &marks, &nonterminals.language.language().nts)
}

// Puts the name behind the others, where it is wanted.
fn add_where<'a>(is_wanted: bool, name: &'a Name, names: &mut Vec<&'a Name>) -> Result<(), NoMemory>
    ensures { OnOk result (map (λ r. r.now) names.new.items
        ≡ map (λ r. r.now) names.old.items ++ groups.name_where is_wanted name.now) }
{
    if is_wanted {
        names.push(name)?;
    }
    Ok(())
}

/// The names that stand again in a pattern with these places, to be looked up.
pub(crate) fn names_again<'a>(alloc: Global, all: &[Place<'a>]) -> Result<NameSet<'a>, NoMemory>
    ensures { IfOk result (λ s. map (λ r. r.now) s.names.items
        ≡ model.names_again (map place_of all.now) (map place_of all.now)) }
{
    let groups = groups_of(alloc, all)?;
    let mut names = Vec::new(alloc);
    for i in 0..all.len() {
        add_where(groups[i].several, all[i].name, &mut names)?;
    }
    NameSet::new(alloc, names)
}

/// The length names over patterns without a height, to be looked up.
pub(crate) fn hollow_names<'a>(
    alloc: Global,
    known: &Known,
    all: &[Place<'a>],
) -> Result<NameSet<'a>, NoMemory>
    ensures { IfOk result (λ s. map (λ r. r.now) s.names.items
        ≡ model.hollow_names (known_of known.now) (map place_of all.now)) }
{
    let mut names = Vec::new(alloc);
    for u in all {
        let is_hollow = u.is_length && known.term_height(u.part).is_none();
        add_where(is_hollow, u.name, &mut names)?;
    }
    NameSet::new(alloc, names)
}
