// The nonterminals to which a file asks for cross nonterminals.
ghost use Rattle.std.specs.Prelude.{◌≡◌, ◌++◌, IfOk, OnOk};
ghost use Rattle.rdx_forms.specs.DefineParts.{by_crosses, define_parts};
ghost use Rattle.rdx_forms.specs.Ends as model;

use crate::parts::{DefineKind, closure_parts, define_parts};
use rdx_patterns::ends_in;
use rdx_patterns::shape::symbol;
use rdx_relations::relation_ends;
use rdx_sexp::Datum;
use rdx_term::{Name, NoMemory};
use std::alloc::Global;

// Adds the nonterminal of a compatible closure that a list says.
fn add_closure_ends(body: &Datum, ends: &mut Vec<Name>) -> Result<(), NoMemory>
    ensures { OnOk result (ends.new.items ≡ ends.old.items
        ++ model.kind_ends by_crosses body.now) }
{
    let Some(closure) = closure_parts(body) else {
        return Ok(());
    };
    let Some(text) = symbol(closure.by) else {
        return Ok(());
    };
    match Name::new(text.clone()?) {
        Some(name) => Ok(ends.push(name)?),
        None => Ok(()),
    }
}

// Adds those for which the form asks by the relation that it defines, if it does.
fn add_define_ends(alloc: Global, form: &Datum, ends: &mut Vec<Name>) -> Result<(), NoMemory>
    ensures { OnOk result (ends.new.items ≡ ends.old.items
        ++ model.define_ends (define_parts form.now)) }
{
    let Some(parts) = define_parts(form) else {
        return Ok(());
    };
    match parts.kind {
        DefineKind::Cases => Ok(ends.append(&mut relation_ends(alloc, parts.body)?)?),
        DefineKind::Contexts => Ok(()),
        DefineKind::Crosses => add_closure_ends(parts.body, ends),
    }
}

// Adds those to which the form asks for cross nonterminals.
fn add_ends(alloc: Global, form: &Datum, ends: &mut Vec<Name>) -> Result<(), NoMemory>
    ensures { OnOk result (ends.new.items ≡ ends.old.items ++ model.form_ends form.now) }
{
    add_define_ends(alloc, form, ends)?;
    Ok(ends.append(&mut ends_in(alloc, form)?)?)
}

/// The nonterminals to which the forms of a file ask for cross nonterminals, in their order.
pub(crate) fn file_ends(alloc: Global, forms: &[Datum]) -> Result<Vec<Name>, NoMemory>
    ensures { IfOk result (λ ends. ends.items ≡ model.file_ends forms.now) }
{
    let mut ends = Vec::new(alloc);
    for form in forms {
        add_ends(alloc, form, &mut ends)?;
    }
    Ok(ends)
}
