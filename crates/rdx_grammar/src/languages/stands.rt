// What stands in a form that defines a language.
ghost use Rattle.std.specs.Prelude.{◌≡◌, ◌<◌, ◌++◌, false, IfOk, map, option_map};
ghost use Rattle.rdx_sexp.specs.Size.{sexp_depth};
ghost use Rattle.rdx_grammar.specs.Definitions.{definition_in};
ghost use Rattle.rdx_grammar.specs.Inside.CheckedForms.{AreShallow, AreShallowIn};
ghost use Rattle.rdx_grammar.specs.Inside.PartViews.{parts_of};
ghost use Rattle.rdx_grammar.specs.Inside.StandView.{stand_of, stands_of};
ghost use Rattle.rdx_grammar.specs.Stands as model;

use crate::languages::form_parts::FormParts;
use crate::languages::parts::definition_in;
use rdx_patterns::occurrences::{Occurrence, add_pattern};
use rdx_patterns::shape::is_word;
use rdx_sexp::Datum;
use rdx_term::NoMemory;
use std::alloc::Global;

/// One of the things that stand in a form.
#[derive(Drop)]
pub(crate) enum Stand<'a> {
    /// A form or a definition that has not its shape.
    Misshaped(&'a Datum),
    /// The name of the language that is defined.
    Defined(&'a Datum),
    /// The name of a nonterminal that is defined.
    Nonterminal(&'a Datum),
    /// An alternative in which these stand.
    Alternative(Vec<Occurrence<'a>>),
    /// `....` as a whole alternative of the nonterminals of these names, and whether it is one for the second time.
    Inherited(&'a Datum, &'a [Datum], bool),
}

// Adds the names of nonterminals.
fn add_nonterminals<'a>(names: &'a [Datum], out: &mut Vec<Stand<'a>>) -> Result<(), NoMemory>
    ensures { IfOk result (λ _.
        stands_of out.new.items
        ≡ stands_of out.old.items ++ map (λ e. model.nonterminal e) names.now) }
{
    for name in names {
        out.push(Stand::Nonterminal(name))?;
    }
    Ok(())
}

// An alternative of these names.
fn alternative<'a>(
    alloc: Global,
    names: &'a [Datum],
    again: bool,
    d: &'a Datum,
) -> Result<Stand<'a>, NoMemory>
    requires { sexp_depth d.now < 4_294_967_296 }
    ensures { IfOk result (λ s. stand_of s ≡ model.alternative_stand names.now again d.now) }
{
    if is_word(d, "....") {
        return Ok(Stand::Inherited(d, names, again));
    }
    let mut found = Vec::new(alloc);
    add_pattern(0, d, &mut found)?;
    Ok(Stand::Alternative(found))
}

// Adds what stands in the alternatives of these names.
fn add_alternatives<'a>(
    alloc: Global,
    names: &'a [Datum],
    alternatives: &'a [Datum],
    out: &mut Vec<Stand<'a>>,
) -> Result<(), NoMemory>
    requires { AreShallow alternatives.now }
    ensures { IfOk result (λ _.
        stands_of out.new.items
        ≡ stands_of out.old.items ++ model.alternatives_stand names.now false alternatives.now) }
{
    let mut again = false;
    for d in alternatives {
        out.push(alternative(alloc, names, again, d)?)?;
        again = again || is_word(d, "....");
    }
    Ok(())
}

// Adds what stands in a definition, or in what has not the shape of one.
fn add_definition<'a>(alloc: Global, d: &'a Datum, out: &mut Vec<Stand<'a>>) -> Result<(), NoMemory>
    requires { sexp_depth d.now < 4_294_967_296 }
    ensures { IfOk result (λ _.
        stands_of out.new.items
        ≡ stands_of out.old.items ++ model.definition_stands d.now (definition_in d.now)) }
{
    match definition_in(d) {
        None => Ok(out.push(Stand::Misshaped(d))?),
        Some(definition) => {
            add_nonterminals(definition.names, out)?;
            add_alternatives(alloc, definition.names, definition.alternatives, out)
        }
    }
}

// Adds what stands in definitions.
fn add_definitions<'a>(
    alloc: Global,
    definitions: &'a [Datum],
    out: &mut Vec<Stand<'a>>,
) -> Result<(), NoMemory>
    requires { AreShallow definitions.now }
    ensures { IfOk result (λ _.
        stands_of out.new.items
        ≡ stands_of out.old.items ++ model.definitions_stand definitions.now) }
{
    for d in definitions {
        add_definition(alloc, d, out)?;
    }
    Ok(())
}

/// What stands in a form with these parts.
pub(crate) fn form_stands<'a>(
    alloc: Global,
    form: &'a Datum,
    parts: Option<FormParts<'a>>,
) -> Result<Vec<Stand<'a>>, NoMemory>
    requires { AreShallowIn (option_map parts_of parts) }
    ensures { IfOk result (λ found.
        stands_of found.items ≡ model.form_stands form.now (option_map parts_of parts.entry)) }
{
    let mut found = Vec::new(alloc);
    match parts {
        None => found.push(Stand::Misshaped(form))?,
        Some(parts) => {
            found.push(Stand::Defined(parts.name))?;
            add_definitions(alloc, parts.definitions, &mut found)?;
        }
    }
    Ok(found)
}
