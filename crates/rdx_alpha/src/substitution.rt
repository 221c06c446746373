// Substitution under binding forms.
ghost use Rattle.std.specs.Prelude.{◌≡◌, ◌∷◌, ◌++◌, IfOk, IfErr, OnOk, map};
ghost use Rattle.rdx_term.specs.Tree.{Trees, cons, symbol};
ghost use Rattle.rdx_term.specs.Building.{list_of};
ghost use Rattle.rdx_term.specs.View.{tree_of, trees_of};
ghost use Rattle.rdx_lang.specs.Inside.Texts.{texts_in, HaveSame};
ghost use Rattle.rdx_alpha.specs.Substitution as model;
ghost use Rattle.rdx_alpha.specs.View.{forms_of};
ghost use Rattle.rdx_alpha.specs.Inside.PartView.{role_of, roles_of, part_tree, part_trees};
ghost use Rattle.rdx_alpha.specs.Inside.Stops.{IsStopOf, IsOutcomeOf, Completes};

use crate::form::BindingForm;
use crate::free::{captures, is_free_by};
use crate::instances::parts_of;
use crate::making::{add_made, add_term, built, made_list};
use crate::names::{add_binder_names, is_among, texts_of};
use crate::new_names::{new_name, symbols_of};
use crate::part::Part;
use crate::stop::{Made, Stop};
use rdx_term::{Name, NoMemory, Term};
use std::alloc::Global;
use std::collections::BTreeSet;

// The same terms once more.
fn shared(alloc: Global, items: &[Term]) -> Result<Vec<Term>, NoMemory>
    ensures { IfOk result (λ copies. map tree_of copies.items ≡ map tree_of items.now) }
{
    let mut copies = Vec::with_capacity(alloc, items.len())?;
    for item in items {
        copies.push(item.share()?)?;
    }
    Ok(copies)
}

// The symbol `b` as `c`, and all else as it is.
fn renamed_symbol(b: &Name, c: &Name, item: &Term) -> Result<Term, NoMemory>
    ensures { IfOk result (λ t. tree_of t ≡ model.renamed_symbol b.now c.now (tree_of item.now)) }
{
    match item {
        Term::Sym(name) => {
            if name.text() == b.text() {
                Ok(Term::Sym(c.share()?))
            } else {
                item.share()
            }
        }
        Term::Hole | Term::Int(_) | Term::Bool(_) | Term::Str(_) | Term::List(_) => item.share(),
    }
}

// So each of these items.
fn renamed_symbols(alloc: Global, b: &Name, c: &Name, items: &[Term]) -> Result<Vec<Term>, NoMemory>
    ensures { IfOk result (λ copies.
        trees_of copies.items ≡ model.renamed_symbols b.now c.now (trees_of items.now)) }
{
    let mut copies = Vec::with_capacity(alloc, items.len())?;
    for item in items {
        let same = renamed_symbol(b, c, item)?;
        add_term(same, &mut copies)?;
    }
    Ok(copies)
}

// A binder place, in which `c` replaces `b`.
fn renamed_binder(alloc: Global, b: &Name, c: &Name, item: &Term) -> Result<Term, NoMemory>
    ensures { IfOk result (λ t. tree_of t ≡ model.renamed_binder b.now c.now (tree_of item.now)) }
{
    match item {
        Term::List(node) => {
            let items = renamed_symbols(alloc, b, c, node.items())?;
            built(alloc, items)
        }
        Term::Hole | Term::Int(_) | Term::Bool(_) | Term::Str(_) | Term::Sym(_) => {
            renamed_symbol(b, c, item)
        }
    }
}

// Adds the binders of a part.
fn add_binders_in(part: &Part, names: &mut Vec<Name>) -> Result<(), NoMemory>
    ensures { OnOk result (names.new.items
        ≡ names.old.items ++ model.binders_as (role_of part.now) (part_tree part.now)) }
{
    match part {
        Part::Binder(item) => add_binder_names(item, names),
        Part::Head(_) | Part::Plain(_) | Part::Body(_, _) => Ok(()),
    }
}

// The binders of an instance with these parts, in written order.
fn binders_of(alloc: Global, parts: &[Part]) -> Result<Vec<Name>, NoMemory>
    ensures { IfOk result (λ names.
        names.items ≡ model.binders_of (roles_of parts.now) (part_trees parts.now)) }
{
    let mut names = Vec::new(alloc);
    for part in parts {
        add_binders_in(part, &mut names)?;
    }
    Ok(names)
}

// The term with the value put for each free symbol of the name. All symbols of the value are in the
// set: a binder that is none of them is not free there, and the value is not looked through for it.
#[cycle(substituting)]
pub(crate) fn substituted(
    alloc: Global,
    forms: &[BindingForm],
    name: &Name,
    value: &Term,
    symbols: &BTreeSet<&str>,
    term: &Term,
) -> Result<Term, Stop>
    requires { HaveSame (texts_in symbols.now) (model.symbols_in (tree_of value.now)) }
    ensures { IsOutcomeOf result
        (model.substituted (forms_of forms.now) name.now (tree_of value.now) (tree_of term.now)) }
{
    match term {
        Term::Sym(symbol) => {
            if symbol.text() == name.text() {
                Ok(value.share()?)
            } else {
                Ok(term.share()?)
            }
        }
        Term::Hole | Term::Int(_) | Term::Bool(_) | Term::Str(_) => Ok(term.share()?),
        Term::List(node) => {
            let items = with_binders_renamed(alloc, forms, name, value, symbols, node.items())?;
            substituted_list(alloc, forms, name, value, symbols, &items)
        }
    }
}

// The items of a list with its binders renamed where they would bind a free symbol of the value.
#[cycle(substituting)]
fn with_binders_renamed(
    alloc: Global,
    forms: &[BindingForm],
    name: &Name,
    value: &Term,
    symbols: &BTreeSet<&str>,
    items: &[Term],
) -> Result<Vec<Term>, NoMemory>
    requires { HaveSame (texts_in symbols.now) (model.symbols_in (tree_of value.now)) }
    ensures { IfOk result (λ renamed. trees_of renamed.items ≡ model.with_binders_renamed
        (model.substituted (forms_of forms.now)) (forms_of forms.now) name.now
        (tree_of value.now) (trees_of items.now)) }
{
    let parts = parts_of(alloc, forms, items)?;
    let binders = binders_of(alloc, &parts)?;
    let mut renamed = shared(alloc, items)?;
    for binder in &binders {
        renamed = renamed_if_free(alloc, forms, name, value, symbols, binder, renamed)?;
    }
    Ok(renamed)
}

// The items with this binder renamed, where it is free in the value and a body would capture it.
#[cycle(substituting)]
fn renamed_if_free(
    alloc: Global,
    forms: &[BindingForm],
    name: &Name,
    value: &Term,
    symbols: &BTreeSet<&str>,
    binder: &Name,
    items: Vec<Term>,
) -> Result<Vec<Term>, NoMemory>
    requires { HaveSame (texts_in symbols.now) (model.symbols_in (tree_of value.now)) }
    ensures { IfOk result (λ renamed. trees_of renamed.items ≡ model.renamed_if_free
        (model.substituted (forms_of forms.now)) (forms_of forms.now) name.now
        (tree_of value.now) binder.now (trees_of items.items)) }
{
    if !is_free_by(alloc, forms, symbols, binder, value)? {
        return Ok(items);
    }
    let parts = parts_of(alloc, forms, &items)?;
    if !captures(alloc, forms, name, binder, &parts)? {
        return Ok(items);
    }
    let new = new_name(alloc, forms, name, value, &items, binder)?;
    with_new(alloc, forms, binder, &new, &parts)
}

// The items of these parts with `b` renamed to `c`.
#[cycle(substituting)]
fn with_new(
    alloc: Global,
    forms: &[BindingForm],
    b: &Name,
    c: &Name,
    parts: &[Part],
) -> Result<Vec<Term>, NoMemory>
    ensures { IfOk result (λ renamed. trees_of renamed.items ≡ model.with_new
        (model.substituted (forms_of forms.now)) b.now c.now
        (roles_of parts.now) (part_trees parts.now)) }
{
    let mut renamed = Vec::with_capacity(alloc, parts.len())?;
    for part in parts {
        let item = with_new_in(alloc, forms, b, c, part)?;
        add_term(item, &mut renamed)?;
    }
    Ok(renamed)
}

// The item of this part so.
#[cycle(substituting)]
fn with_new_in(
    alloc: Global,
    forms: &[BindingForm],
    b: &Name,
    c: &Name,
    part: &Part,
) -> Result<Term, NoMemory>
    ensures { IfOk result (λ item. tree_of item ≡ model.with_new_as
        (model.substituted (forms_of forms.now)) b.now c.now
        (role_of part.now) (part_tree part.now)) }
{
    match part {
        Part::Head(item) | Part::Plain(item) => item.share(),
        Part::Binder(item) => renamed_binder(alloc, b, c, item),
        Part::Body(names, item) => {
            if is_among(b, names) {
                renamed_body(alloc, forms, b, c, item)
            } else {
                item.share()
            }
        }
    }
}

// A body with `c` put for `b`.
#[cycle(substituting)]
fn renamed_body(
    alloc: Global,
    forms: &[BindingForm],
    b: &Name,
    c: &Name,
    body: &Term,
) -> Result<Term, NoMemory>
    ensures { IfOk result (λ item. tree_of item
        ≡ model.substituted (forms_of forms.now) b.now (symbol c.now) (tree_of body.now)) }
{
    let _nodes = body.nodes();
    let value = Term::Sym(c.share()?);
    let names = symbols_of(alloc, &value)?;
    let symbols = texts_of(alloc, &names)?;
    match substituted(alloc, forms, b, &value, &symbols, body) {
        Ok(item) => Ok(item),
        Err(Stop::NoMemory) => Err(NoMemory),
        Err(Stop::TooDeep) => unreachable!(),
        Err(Stop::TooLarge(_)) => unreachable!(),
    }
}

// The list of the items with the value put for the name in each that changes.
#[cycle(substituting)]
fn substituted_list(
    alloc: Global,
    forms: &[BindingForm],
    name: &Name,
    value: &Term,
    symbols: &BTreeSet<&str>,
    items: &[Term],
) -> Result<Term, Stop>
    requires { HaveSame (texts_in symbols.now) (model.symbols_in (tree_of value.now)) }
    ensures { IsOutcomeOf result (list_of (model.substituted_items
        (model.substituted (forms_of forms.now)) (forms_of forms.now) name.now
        (tree_of value.now) (trees_of items.now))) }
{
    let parts = parts_of(alloc, forms, items)?;
    substituted_parts(alloc, forms, name, value, symbols, &parts)
}

// The list of the items of these parts so.
#[cycle(substituting)]
fn substituted_parts(
    alloc: Global,
    forms: &[BindingForm],
    name: &Name,
    value: &Term,
    symbols: &BTreeSet<&str>,
    parts: &[Part],
) -> Result<Term, Stop>
    requires { HaveSame (texts_in symbols.now) (model.symbols_in (tree_of value.now)) }
    ensures { IsOutcomeOf result (list_of (model.changed
        (model.substituted (forms_of forms.now) name.now (tree_of value.now)) name.now
        (roles_of parts.now) (part_trees parts.now))) }
{
    let items = Vec::new(alloc);
    let mut made = Made {
        items,
        depth: 0,
        large: false,
    };
    for part in parts {
        let item = substituted_part(alloc, forms, name, value, symbols, part);
        match add_made(item, &mut made) {
            Ok(()) => {}
            Err(stop) => return Err(stop),
        }
    }
    made_list(alloc, made)
}

// The item of this part so.
#[cycle(substituting)]
fn substituted_part(
    alloc: Global,
    forms: &[BindingForm],
    name: &Name,
    value: &Term,
    symbols: &BTreeSet<&str>,
    part: &Part,
) -> Result<Term, Stop>
    requires { HaveSame (texts_in symbols.now) (model.symbols_in (tree_of value.now)) }
    ensures { IsOutcomeOf result (model.changed_as name.now (role_of part.now) (part_tree part.now)
        (model.substituted (forms_of forms.now) name.now (tree_of value.now)
        (part_tree part.now))) }
{
    match part {
        Part::Head(item) | Part::Binder(item) => Ok(item.share()?),
        Part::Plain(item) => substituted(alloc, forms, name, value, symbols, item),
        Part::Body(names, item) => {
            if is_among(name, names) {
                Ok(item.share()?)
            } else {
                substituted(alloc, forms, name, value, symbols, item)
            }
        }
    }
}
