// The definitions of nonterminals.
ghost use Rattle.std.specs.Prelude.{◌≡◌, ◌++◌, IfOk, OnOk, Some, map, option_map};
ghost use Rattle.rdx_lang.specs.Lookup.{alternatives_of};
ghost use Rattle.rdx_lang.specs.PatternView.{definition_of, patterns_of};
ghost use Rattle.rdx_grammar.specs.Inside.BaseView.{base_in};
ghost use Rattle.rdx_patterns.specs.AreNames.{AreNames};
ghost use Rattle.rdx_grammar.specs.Languages as languages;
ghost use Rattle.rdx_grammar.specs.Nonterminals.{names_in};
ghost use Rattle.rdx_patterns.specs.Parts.{text_of};
ghost use Rattle.rdx_grammar.specs.Inside.PartViews as views;

use crate::languages::bases::Base;
use crate::languages::parts::{Definition, definition_in};
use rdx_lang::{Pat, Ref};
use rdx_patterns::readings::read_datum;
use rdx_patterns::shape::is_word;
use rdx_patterns::{Names, Position, symbol_name};
use rdx_sexp::Datum;
use rdx_term::NoMemory;
use std::alloc::Global;

// The alternatives that the base gives a nonterminal.
fn inherited<'a>(base: Option<&'a Base>, nonterminal: &Ref) -> &'a [Pat]
    ensures { patterns_of result.now
        ≡ alternatives_of (base_in (option_map (λ c. c.now) base.entry)) nonterminal.now }
{
    match base {
        Some(base) => base.alternatives(nonterminal),
        None => &[],
    }
}

/// Puts the same patterns behind those that are there.
pub(crate) fn add_shared(alloc: Global, pats: &[Pat], out: &mut Vec<Pat>) -> Result<(), NoMemory>
    ensures { OnOk result (
        patterns_of out.new.items ≡ patterns_of out.old.items ++ patterns_of pats.now) }
{
    for pat in pats {
        out.push(pat.share(alloc)?)?;
    }
    Ok(())
}

// The alternatives that are written, with the inherited ones at `....`.
fn read_alternatives(
    alloc: Global,
    base: Option<&Base>,
    names: &Names,
    nonterminal: &Ref,
    alternatives: &[Datum],
) -> Result<Vec<Pat>, NoMemory>
    ensures { IfOk result (λ pats.
        patterns_of pats.items
        ≡ languages.alternatives (base_in (option_map (λ c. c.now) base.entry)) names.now
        nonterminal.now alternatives.now) }
{
    let mut pats = Vec::new(alloc);
    for alternative in alternatives {
        if is_word(alternative, "....") {
            add_shared(alloc, inherited(base, nonterminal), &mut pats)?;
        } else {
            pats.push(read_datum(alloc, names, Position::Grammar, alternative)?)?;
        }
    }
    Ok(pats)
}

// Puts the definitions of each of the names behind those that are there.
fn add_definition(
    alloc: Global,
    base: Option<&Base>,
    names: &Names,
    definition: Definition<'_>,
    out: &mut Vec<(Ref, Vec<Pat>)>,
) -> Result<(), NoMemory>
    requires { AreNames (map text_of definition.names.now) }
    ensures { OnOk result (
        map definition_of out.new.items
        ≡ map definition_of out.old.items
        ++ languages.defined_by (base_in (option_map (λ c. c.now) base.entry)) names.now
        (Some (views.definition_of definition.entry))) }
{
    for symbol in definition.names {
        let nonterminal = Ref::Nt(symbol_name(symbol)?);
        let alternatives = read_alternatives(
            alloc,
            base,
            names,
            &nonterminal,
            definition.alternatives,
        )?;
        out.push((nonterminal, alternatives))?;
    }
    Ok(())
}

/// The definitions over these nonterminals, each name with all its alternatives.
pub(crate) fn read_definitions(
    alloc: Global,
    base: Option<&Base>,
    names: &Names,
    definitions: &[Datum],
) -> Result<Vec<(Ref, Vec<Pat>)>, NoMemory>
    requires { AreNames (names_in definitions.now) }
    ensures { IfOk result (λ read.
        map definition_of read.items
        ≡ languages.definitions_of (base_in (option_map (λ c. c.now) base.entry)) names.now
        definitions.now) }
{
    let mut read = Vec::new(alloc);
    for d in definitions {
        if let Some(definition) = definition_in(d) {
            add_definition(alloc, base, names, definition, &mut read)?;
        }
    }
    Ok(read)
}
