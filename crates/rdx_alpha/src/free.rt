// Free occurrences of symbols.
ghost use Rattle.std.specs.Prelude.{◌≡◌, IfOk};
ghost use Rattle.rdx_term.specs.View.{tree_of};
ghost use Rattle.rdx_alpha.specs.Free as model;
ghost use Rattle.rdx_lang.specs.Inside.Texts.{texts_in, HaveSame};
ghost use Rattle.rdx_alpha.specs.Substitution.{captures_as, captures, symbols_in};
ghost use Rattle.rdx_alpha.specs.View.{forms_of};
ghost use Rattle.rdx_alpha.specs.Inside.PartView.{role_of, roles_of, part_tree, part_trees};

use crate::form::BindingForm;
use crate::instances::parts_of;
use crate::names::{is_among, is_in};
use crate::part::Part;
use rdx_term::{Name, NoMemory, Term};
use std::alloc::Global;
use std::collections::BTreeSet;

// Whether the symbol occurs in the term where no body around it binds it.
#[cycle(free)]
pub(crate) fn is_free(
    alloc: Global,
    forms: &[BindingForm],
    name: &Name,
    term: &Term,
) -> Result<bool, NoMemory>
    ensures { IfOk result (λ answer.
        answer ≡ model.is_free (forms_of forms.now) name.now (tree_of term.now)) }
{
    match term {
        Term::Sym(symbol) => Ok(symbol.text() == name.text()),
        Term::List(node) => {
            let parts = parts_of(alloc, forms, node.items())?;
            is_free_among(alloc, forms, name, &parts)
        }
        Term::Hole | Term::Int(_) | Term::Bool(_) | Term::Str(_) => Ok(false),
    }
}

// So in one of these parts.
#[cycle(free)]
fn is_free_among(
    alloc: Global,
    forms: &[BindingForm],
    name: &Name,
    parts: &[Part],
) -> Result<bool, NoMemory>
    ensures { IfOk result (λ answer. answer ≡ model.is_free_among (forms_of forms.now) name.now
        (roles_of parts.now) (part_trees parts.now)) }
{
    for part in parts {
        if is_free_in(alloc, forms, name, part)? {
            return Ok(true);
        }
    }
    Ok(false)
}

// So in this part.
#[cycle(free)]
fn is_free_in(
    alloc: Global,
    forms: &[BindingForm],
    name: &Name,
    part: &Part,
) -> Result<bool, NoMemory>
    ensures { IfOk result (λ answer. answer ≡ model.is_free_as name.now (role_of part.now)
        (model.is_free (forms_of forms.now) name.now (part_tree part.now))) }
{
    match part {
        Part::Head(_) | Part::Binder(_) => Ok(false),
        Part::Plain(item) => is_free(alloc, forms, name, item),
        Part::Body(names, item) => {
            if is_among(name, names) {
                Ok(false)
            } else {
                is_free(alloc, forms, name, item)
            }
        }
    }
}

// Whether the symbol is free in the term, all of whose symbols are in this set.
pub(crate) fn is_free_by(
    alloc: Global,
    forms: &[BindingForm],
    symbols: &BTreeSet<&str>,
    name: &Name,
    term: &Term,
) -> Result<bool, NoMemory>
    requires { HaveSame (texts_in symbols.now) (symbols_in (tree_of term.now)) }
    ensures { IfOk result (λ answer.
        answer ≡ model.is_free (forms_of forms.now) name.now (tree_of term.now)) }
{
    if is_in(name, symbols) {
        is_free(alloc, forms, name, term)
    } else {
        Ok(false)
    }
}

// Whether the part is a body that refers to this binder, doesn't bind the name and has it free.
fn captures_in(
    alloc: Global,
    forms: &[BindingForm],
    name: &Name,
    binder: &Name,
    part: &Part,
) -> Result<bool, NoMemory>
    ensures { IfOk result (λ answer. answer ≡ captures_as (forms_of forms.now) name.now binder.now
        (role_of part.now) (part_tree part.now)) }
{
    match part {
        Part::Head(_) | Part::Binder(_) | Part::Plain(_) => Ok(false),
        Part::Body(names, item) => {
            if is_among(binder, names) && !is_among(name, names) {
                is_free(alloc, forms, name, item)
            } else {
                Ok(false)
            }
        }
    }
}

// Whether one of the parts is such a body.
pub(crate) fn captures(
    alloc: Global,
    forms: &[BindingForm],
    name: &Name,
    binder: &Name,
    parts: &[Part],
) -> Result<bool, NoMemory>
    ensures { IfOk result (λ answer. answer ≡ captures (forms_of forms.now) name.now binder.now
        (roles_of parts.now) (part_trees parts.now)) }
{
    for part in parts {
        if captures_in(alloc, forms, name, binder, part)? {
            return Ok(true);
        }
    }
    Ok(false)
}
