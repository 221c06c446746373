// The names of the nonterminals of a form.
ghost use Rattle.std.specs.Prelude.{◌≡◌, ◌++◌, IfOk, OnOk, map, option_map};
ghost use Rattle.rdx_patterns.specs.AreNames.{AreNames};
ghost use Rattle.rdx_grammar.specs.Inside.BaseView.{base_in};
ghost use Rattle.rdx_grammar.specs.Nonterminals.{names_in, all_names};
ghost use Rattle.rdx_patterns.specs.Parts.{text_of};

use crate::languages::bases::Base;
use crate::languages::parts::definition_in;
use rdx_patterns::{language_names, symbol_name};
use rdx_sexp::Datum;
use rdx_term::{Name, NoMemory};
use std::alloc::Global;

// Puts the names that symbols are behind those that are there.
fn add_symbols(symbols: &[Datum], out: &mut Vec<Name>) -> Result<(), NoMemory>
    requires { AreNames (map text_of symbols.now) }
    ensures { OnOk result (out.new.items ≡ out.old.items ++ map text_of symbols.now) }
{
    for symbol in symbols {
        out.push(symbol_name(symbol)?)?;
    }
    Ok(())
}

// Puts the names that definitions define behind those that are there.
fn add_defined(definitions: &[Datum], out: &mut Vec<Name>) -> Result<(), NoMemory>
    requires { AreNames (names_in definitions.now) }
    ensures { OnOk result (out.new.items ≡ out.old.items ++ names_in definitions.now) }
{
    for d in definitions {
        if let Some(definition) = definition_in(d) {
            add_symbols(definition.names, out)?;
        }
    }
    Ok(())
}

/// The names of all nonterminals of a form over a base.
pub(crate) fn form_names(
    alloc: Global,
    base: Option<&Base>,
    definitions: &[Datum],
) -> Result<Vec<Name>, NoMemory>
    requires { AreNames (names_in definitions.now) }
    ensures { IfOk result (λ names.
        names.items ≡ all_names (base_in (option_map (λ c. c.now) base.entry)) definitions.now) }
{
    let mut names = match base {
        Some(base) => language_names(alloc, base.language())?,
        None => Vec::new(alloc),
    };
    add_defined(definitions, &mut names)?;
    Ok(names)
}
