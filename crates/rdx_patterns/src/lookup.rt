// Definitions, which are found by their nonterminals.
ghost use Rattle.std.specs.Prelude.{◌≡◌, None, OnOk};
ghost use Rattle.rdx_lang.specs.PatternView.{patterns_of};
ghost use Rattle.rdx_patterns.specs.Inside.Adding.{AddsFirst};
ghost use Rattle.rdx_patterns.specs.Model.Keys.{named_by};

use rdx_lang::{Pat, Ref};
use rdx_term::NoMemory;
use std::alloc::Global;
use std::collections::HashMap;
use std::marker::Model;

// What a nonterminal goes by: its name, and for contexts from one to another the name of the other.
type Key<'a> = (&'a str, Option<&'a str>);

fn key(nonterminal: &Ref) -> Key<'_>
    ensures { named_by result.0.now result.1 ≡ nonterminal.now }
{
    match nonterminal {
        Ref::Nt(name) => name_key(name.text()),
        Ref::Cross(from, to) => (from.text(), Some(to.text())),
    }
}

// That of the nonterminal of this name.
fn name_key(name: &str) -> Key<'_>
    ensures name { result.0.now ≡ name.now }
    ensures alone { result.1 ≡ None }
{
    (name, None)
}

// Puts the alternatives of a nonterminal into the map, unless it has some for it.
fn add<'a>(
    nonterminal: &'a Ref,
    alternatives: &'a [Pat],
    by_key: &mut HashMap<Key<'a>, &'a [Pat]>,
) -> Result<(), NoMemory>
    ensures { OnOk result
        (AddsFirst by_key.old by_key.new nonterminal.now (patterns_of alternatives.now)) }
{
    let key = key(nonterminal);
    if !by_key.contains_key(&key) {
        by_key.insert(key, alternatives)?;
    }
    Ok(())
}

/// Definitions, of which the first of each nonterminal is found. In contracts they are the list.
#[derive(Drop)]
pub struct Definitions<'a> {
    all: &'a [(Ref, Vec<Pat>)],
    // A hash map, since in an ordered one a pair of borrowed texts can't be looked up.
    by_key: HashMap<Key<'a>, &'a [Pat]>,
}

impl<'a> Model for Definitions<'a> {
    ghost use Rattle.std.specs.Prelude.{List, Vec};
    ghost use Rattle.std.specs.Coded.{codes};
    ghost use Rattle.std.specs.declared.alloc.Global as global;
    ghost use Rattle.rdx_lang.specs.contracts.pattern.Pat as pat;
    ghost use Rattle.rdx_lang.specs.declared.pattern.Pat as code_pattern;
    ghost use Rattle.rdx_lang.specs.declared.pattern.Ref as code_ref;
    ghost use Rattle.rdx_patterns.specs.Model.Keys.{FindsEach};

    ghost Value = { List (code_ref.Ref × Vec code_pattern.Pat global.Global) };

    ghost coded = { Prim.hlevel (codes, pat.the_row.coded) };

    ghost view = { λ a. a.all.now };

    ghost invariant = { λ a. FindsEach a.all.now a.by_key };
}

impl<'a> Definitions<'a> {
    ghost use Rattle.std.specs.Prelude.{IfOk, map, option_map};
    ghost use Rattle.rdx_lang.specs.Crosses.{plain_definitions};
    ghost use Rattle.rdx_lang.specs.PatternView.{definition_of};
    ghost use Rattle.rdx_lang.specs.declared.pattern.Ref.TheVariants as refs;
    ghost use Rattle.rdx_lang.specs.Lookup.{alternatives_among};
    ghost use Rattle.rdx_lang.specs.References.{is_among};
    ghost use Rattle.rdx_patterns.specs.Found.{heads, found_among};

    /// These definitions.
    pub fn new(alloc: Global, all: &'a [(Ref, Vec<Pat>)]) -> Result<Definitions<'a>, NoMemory>
        ensures { IfOk result (λ definitions. definitions ≡ all.now) }
    {
        let mut by_key = HashMap::new(alloc);
        for (nonterminal, alternatives) in all {
            add(nonterminal, alternatives, &mut by_key)?;
        }
        Ok(Definitions { all, by_key })
    }

    /// All of them, in their order.
    pub fn all(&self) -> &'a [(Ref, Vec<Pat>)]
        ensures { result.now ≡ self.now }
    {
        self.all
    }

    /// The alternatives of a nonterminal, where it is defined.
    pub fn find(&self, nonterminal: &Ref) -> Option<&'a [Pat]>
        ensures { option_map (λ pats. patterns_of pats.now) result
            ≡ found_among (map definition_of self.now) nonterminal.now }
    {
        self.by_key.get(&key(nonterminal)).copied()
    }

    /// The alternatives of the nonterminal of this name, where it is defined.
    pub fn find_named(&self, name: &str) -> Option<&'a [Pat]>
        ensures { option_map (λ pats. patterns_of pats.now) result
            ≡ found_among (map definition_of self.now) (refs.Nt name.now) }
    {
        self.by_key.get(&name_key(name)).copied()
    }

    /// Whether the nonterminal is defined.
    pub(crate) fn has(&self, nonterminal: &Ref) -> bool
        ensures { result ≡ is_among nonterminal.now (heads (map definition_of self.now)) }
    {
        self.find(nonterminal).is_some()
    }

    /// Whether the nonterminal of this name is defined.
    pub(crate) fn has_name(&self, name: &str) -> bool
        ensures { result ≡ is_among (refs.Nt name.now) (heads (map definition_of self.now)) }
    {
        self.find_named(name).is_some()
    }

    /// Whether the nonterminal is defined and no cross nonterminal.
    pub fn has_plain(&self, nonterminal: &Ref) -> bool
        ensures { result
            ≡ is_among nonterminal.now (heads (plain_definitions (map definition_of self.now))) }
    {
        match nonterminal {
            Ref::Nt(name) => self.has_name(name.text()),
            Ref::Cross(_, _) => false,
        }
    }

    /// The alternatives of the nonterminal of this name, in their order; none where it isn't
    /// defined.
    pub(crate) fn alternatives(&self, name: &str) -> &'a [Pat]
        ensures { patterns_of result.now
            ≡ alternatives_among (map definition_of self.now) (refs.Nt name.now) }
    {
        match self.find_named(name) {
            Some(alternatives) => alternatives,
            None => &[],
        }
    }
}
