// New names for binders.
ghost use Rattle.std.specs.Prelude.{◌≡◌, ◌++◌, ◌∷◌, IfOk, OnOk};
ghost use Rattle.rdx_term.specs.View.{tree_of, trees_of};
ghost use Rattle.rdx_alpha.specs.Substitution as model;
ghost use Rattle.rdx_alpha.specs.View.{forms_of};

use crate::form::BindingForm;
use crate::names::add_name;
use rdx_lang::first_variant;
use rdx_term::{Name, NoMemory, Term};
use std::alloc::Global;

// Adds all symbols of a term.
#[cycle(symbols)]
fn add_symbols(term: &Term, names: &mut Vec<Name>) -> Result<(), NoMemory>
    ensures { OnOk result (names.new.items
        ≡ names.old.items ++ model.symbols_in (tree_of term.now)) }
{
    match term {
        Term::Sym(name) => add_name(name, names),
        Term::List(node) => add_all_symbols(node.items(), names),
        Term::Hole | Term::Int(_) | Term::Bool(_) | Term::Str(_) => Ok(()),
    }
}

// Adds all symbols of some terms.
#[cycle(symbols)]
fn add_all_symbols(items: &[Term], names: &mut Vec<Name>) -> Result<(), NoMemory>
    ensures { OnOk result (names.new.items
        ≡ names.old.items ++ model.symbols_among (trees_of items.now)) }
{
    for item in items {
        add_symbols(item, names)?;
    }
    Ok(())
}

// All symbols of a term.
pub(crate) fn symbols_of(alloc: Global, term: &Term) -> Result<Vec<Name>, NoMemory>
    ensures { IfOk result (λ names. names.items ≡ model.symbols_in (tree_of term.now)) }
{
    let mut names = Vec::new(alloc);
    add_symbols(term, &mut names)?;
    Ok(names)
}

// Adds the heads of forms.
fn add_heads(forms: &[BindingForm], names: &mut Vec<Name>) -> Result<(), NoMemory>
    ensures { OnOk result (names.new.items ≡ names.old.items ++ model.heads (forms_of forms.now)) }
{
    for form in forms {
        add_name(&form.head, names)?;
    }
    Ok(())
}

// The new name for a binder of the instance with these items, where the value is put for the name.
pub(crate) fn new_name(
    alloc: Global,
    forms: &[BindingForm],
    name: &Name,
    value: &Term,
    items: &[Term],
    binder: &Name,
) -> Result<Name, NoMemory>
    ensures { IfOk result (λ new. new ≡ model.new_name (forms_of forms.now) name.now
        (tree_of value.now) (trees_of items.now) binder.now) }
{
    let mut taken = Vec::new(alloc);
    add_all_symbols(items, &mut taken)?;
    add_symbols(value, &mut taken)?;
    add_name(name, &mut taken)?;
    add_heads(forms, &mut taken)?;
    first_variant(alloc, binder, &taken)
}
