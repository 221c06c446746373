// Equality up to the names that are bound.
ghost use Rattle.std.specs.Prelude.{◌≡◌, ◌↔◌, ◌&&◌, ℕ, List, IfOk, IfErr, OnOk, IsTrue, false, map};
ghost use Rattle.rdx_term.specs.Order.{tree_cmp};
ghost use Rattle.rdx_term.specs.View.{tree_of, trees_of};
ghost use Rattle.rdx_alpha.specs.Forms.{Form};
ghost use Rattle.rdx_alpha.specs.Instances.{roles};
ghost use Rattle.rdx_alpha.specs.Nameless as form;
ghost use Rattle.rdx_alpha.specs.Nameless.{blanked, as_head, nameless, nameless_in, nameless_among};
ghost use Rattle.rdx_alpha.specs.View.{forms_of};
ghost use Rattle.rdx_alpha.specs.Inside.Around.{around_of};
ghost use Rattle.rdx_alpha.specs.Inside.PartView.{role_of, roles_of, part_tree, part_trees};
ghost use Rattle.rdx_alpha.specs.Inside.Same as model;

use crate::around::{enter, leave, occurrence};
use crate::form::BindingForm;
use crate::instances::parts_of;
use crate::occurrence::Occurrence;
use crate::part::Part;
use rdx_term::{Name, NoMemory, Term};
use std::alloc::Global;
use std::cmp::Ordering;

// Whether two atoms are the same.
fn same_atoms(one: &Term, two: &Term) -> bool
    ensures { result ≡ model.is_equal (tree_cmp (tree_of one.now) (tree_of two.now)) }
{
    match one.compare(two) {
        Ordering::Equal => true,
        Ordering::Less | Ordering::Greater => false,
    }
}

// Whether two occurrences are the same.
fn same_occurrences(one: &Occurrence, s: &Name, two: &Occurrence, r: &Name) -> bool
    ensures { result
        ≡ model.same (model.occurrence_of s.now one.now) (model.occurrence_of r.now two.now) }
{
    match one {
        Occurrence::Free => match two {
            Occurrence::Free => s.text() == r.text(),
            Occurrence::Bound(_, _) => false,
        },
        Occurrence::Bound(d, k) => match two {
            Occurrence::Free => false,
            Occurrence::Bound(e, l) => *d == *e && *k == *l,
        },
    }
}

// Whether two symbols are the same, each among the bodies around it.
fn same_symbols(s: &Name, one: &[Vec<Name>], r: &Name, two: &[Vec<Name>]) -> bool
    ensures { result ≡ model.same (form.occurrence 0 (around_of one.now) s.now)
        (form.occurrence 0 (around_of two.now) r.now) }
{
    let first = occurrence(s, one);
    let second = occurrence(r, two);
    same_occurrences(&first, s, &second, r)
}

// The text of a head.
fn head_text(head: &Term) -> &str
    ensures { result.now ≡ form.head_text (tree_of head.now) }
{
    match head {
        Term::Sym(name) => name.text(),
        Term::Hole | Term::Int(_) | Term::Bool(_) | Term::Str(_) | Term::List(_) => "",
    }
}

// Whether two heads are the same.
fn same_heads(one: &Term, two: &Term) -> bool
    ensures { result ≡ model.same (as_head (tree_of one.now))
        (as_head (tree_of two.now)) }
{
    head_text(one) == head_text(two)
}

// Whether two binder places are the same.
fn same_binders(one: &Term, two: &Term) -> bool
    ensures { result ≡ model.same (blanked (tree_of one.now)) (blanked (tree_of two.now)) }
{
    match one {
        Term::List(first) => match two {
            Term::List(second) => first.items().len() == second.items().len(),
            Term::Hole | Term::Int(_) | Term::Bool(_) | Term::Str(_) | Term::Sym(_) => false,
        },
        Term::Hole | Term::Int(_) | Term::Bool(_) | Term::Str(_) | Term::Sym(_) => match two {
            Term::List(_) => false,
            Term::Hole | Term::Int(_) | Term::Bool(_) | Term::Str(_) | Term::Sym(_) => true,
        },
    }
}

// Whether the term is the empty list.
fn is_empty(term: &Term) -> bool
    ensures { result ≡ model.is_empty (tree_of term.now) }
{
    match term {
        Term::List(node) => node.items().len() == 0,
        Term::Hole | Term::Int(_) | Term::Bool(_) | Term::Str(_) | Term::Sym(_) => false,
    }
}

// Whether both are the empty list.
fn are_empty(one: &Term, two: &Term) -> bool
    ensures { result ≡ (model.is_empty (tree_of one.now) && model.is_empty (tree_of two.now)) }
{
    is_empty(one) && is_empty(two)
}

// Whether a head is the same as another part.
fn same_as_head(head: &Term, other: &Part) -> bool
    ensures { (fs : List Form) (around : List (List (List ℕ))) → result
        ≡ model.same (as_head (tree_of head.now))
        (model.nameless_item fs around (role_of other.now) (part_tree other.now)) }
{
    match other {
        Part::Head(item) => same_heads(head, item),
        Part::Binder(_item) => false,
        Part::Plain(_item) => false,
        Part::Body(_names, _item) => false,
    }
}

// Whether a binder place is the same as another part.
fn same_as_binder(binder: &Term, other: &Part) -> bool
    ensures { (fs : List Form) (around : List (List (List ℕ))) → result
        ≡ model.same (blanked (tree_of binder.now))
        (model.nameless_item fs around (role_of other.now) (part_tree other.now)) }
{
    match other {
        Part::Head(_item) => false,
        Part::Binder(item) => same_binders(binder, item),
        Part::Plain(item) => are_empty(binder, item),
        Part::Body(_names, item) => are_empty(binder, item),
    }
}

// Whether the term is an atom or the hole, and no symbol.
fn is_atom(term: &Term) -> bool
    ensures { result ≡ model.is_atom (tree_of term.now) }
{
    match term {
        Term::Hole | Term::Int(_) | Term::Bool(_) | Term::Str(_) => true,
        Term::Sym(_) | Term::List(_) => false,
    }
}

// Whether the symbol is the same as the term, each among the bodies around it.
fn same_as_symbol(s: &Name, one: &[Vec<Name>], term: &Term, two: &[Vec<Name>]) -> bool
    ensures { (fs : List Form) → result ≡ model.same (form.occurrence 0 (around_of one.now) s.now)
        (nameless_in fs (around_of two.now) (tree_of term.now)) }
{
    match term {
        Term::Sym(r) => same_symbols(s, one, r, two),
        Term::List(_node) => false,
        Term::Hole => false,
        Term::Int(_n) => false,
        Term::Bool(_b) => false,
        Term::Str(_text) => false,
    }
}

// Whether an atom that is no symbol is the same as the term.
fn same_as_atom(atom: &Term, term: &Term) -> bool
    requires { IsTrue (model.is_atom (tree_of atom.now)) }
    ensures { (fs : List Form) (one two : List (List (List ℕ))) → result
        ≡ model.same (nameless_in fs one (tree_of atom.now))
        (nameless_in fs two (tree_of term.now)) }
{
    if is_atom(term) {
        same_atoms(atom, term)
    } else {
        false
    }
}

// Whether two terms are the same, each among the bodies around it.
#[cycle(same)]
fn same_terms(
    alloc: Global,
    forms: &[BindingForm],
    one: &mut Vec<Vec<Name>>,
    first: &Term,
    two: &mut Vec<Vec<Name>>,
    second: &Term,
) -> Result<bool, NoMemory>
    ensures value { IfOk result (λ answer. answer ≡ model.same
        (nameless_in (forms_of forms.now) (around_of one.old.items) (tree_of first.now))
        (nameless_in (forms_of forms.now) (around_of two.old.items) (tree_of second.now))) }
    ensures one { OnOk result (around_of one.new.items ≡ around_of one.old.items) }
    ensures two { OnOk result (around_of two.new.items ≡ around_of two.old.items) }
{
    match first {
        Term::Sym(s) => Ok(same_as_symbol(s, one.as_slice(), second, two.as_slice())),
        Term::List(node) => match second {
            Term::List(other) => same_lists(alloc, forms, one, node.items(), two, other.items()),
            Term::Sym(_symbol) => Ok(false),
            Term::Hole | Term::Int(_) | Term::Bool(_) | Term::Str(_) => Ok(false),
        },
        Term::Hole | Term::Int(_) | Term::Bool(_) | Term::Str(_) => {
            Ok(same_as_atom(first, second))
        }
    }
}

// So the lists of these items.
#[cycle(same)]
fn same_lists(
    alloc: Global,
    forms: &[BindingForm],
    one: &mut Vec<Vec<Name>>,
    first: &[Term],
    two: &mut Vec<Vec<Name>>,
    second: &[Term],
) -> Result<bool, NoMemory>
    ensures value { IfOk result (λ answer. answer ≡ model.same_items
        (nameless_among (forms_of forms.now) (around_of one.old.items)
        (roles (forms_of forms.now) (trees_of first.now)) (trees_of first.now))
        (nameless_among (forms_of forms.now) (around_of two.old.items)
        (roles (forms_of forms.now) (trees_of second.now)) (trees_of second.now))) }
    ensures one { OnOk result (around_of one.new.items ≡ around_of one.old.items) }
    ensures two { OnOk result (around_of two.new.items ≡ around_of two.old.items) }
{
    if first.len() != second.len() {
        return Ok(false);
    }
    let parts = parts_of(alloc, forms, first)?;
    let others = parts_of(alloc, forms, second)?;
    same_parts(alloc, forms, one, &parts, two, &others)
}

// So these parts of two lists, which are as many.
#[cycle(same)]
fn same_parts(
    alloc: Global,
    forms: &[BindingForm],
    one: &mut Vec<Vec<Name>>,
    parts: &[Part],
    two: &mut Vec<Vec<Name>>,
    others: &[Part],
) -> Result<bool, NoMemory>
    ensures value { IfOk result (λ answer. answer ≡ model.same_items
        (nameless_among (forms_of forms.now) (around_of one.old.items)
        (roles_of parts.now) (part_trees parts.now))
        (nameless_among (forms_of forms.now) (around_of two.old.items)
        (roles_of others.now) (part_trees others.now))) }
    ensures one { OnOk result (around_of one.new.items ≡ around_of one.old.items) }
    ensures two { OnOk result (around_of two.new.items ≡ around_of two.old.items) }
{
    if parts.len() != others.len() {
        return Ok(false);
    }
    for (k, part) in parts.iter().enumerate() {
        if !same_part(alloc, forms, one, part, two, &others[k])? {
            return Ok(false);
        }
    }
    Ok(true)
}

// So two parts.
#[cycle(same)]
fn same_part(
    alloc: Global,
    forms: &[BindingForm],
    one: &mut Vec<Vec<Name>>,
    part: &Part,
    two: &mut Vec<Vec<Name>>,
    other: &Part,
) -> Result<bool, NoMemory>
    ensures value { IfOk result (λ answer. answer ≡ model.same
        (model.nameless_item (forms_of forms.now) (around_of one.old.items)
        (role_of part.now) (part_tree part.now))
        (model.nameless_item (forms_of forms.now) (around_of two.old.items)
        (role_of other.now) (part_tree other.now))) }
    ensures one { OnOk result (around_of one.new.items ≡ around_of one.old.items) }
    ensures two { OnOk result (around_of two.new.items ≡ around_of two.old.items) }
{
    match part {
        Part::Head(item) => Ok(same_as_head(item, other)),
        Part::Binder(item) => Ok(same_as_binder(item, other)),
        Part::Plain(item) => same_as_other(alloc, forms, one, item, two, other),
        Part::Body(names, item) => {
            enter(alloc, names.as_slice(), one)?;
            let answer = same_as_other(alloc, forms, one, item, two, other)?;
            leave(one);
            Ok(answer)
        }
    }
}

// So a term and a part.
#[cycle(same)]
fn same_as_other(
    alloc: Global,
    forms: &[BindingForm],
    one: &mut Vec<Vec<Name>>,
    first: &Term,
    two: &mut Vec<Vec<Name>>,
    other: &Part,
) -> Result<bool, NoMemory>
    ensures value { IfOk result (λ answer. answer ≡ model.same
        (nameless_in (forms_of forms.now) (around_of one.old.items) (tree_of first.now))
        (model.nameless_item (forms_of forms.now) (around_of two.old.items)
        (role_of other.now) (part_tree other.now))) }
    ensures one { OnOk result (around_of one.new.items ≡ around_of one.old.items) }
    ensures two { OnOk result (around_of two.new.items ≡ around_of two.old.items) }
{
    match other {
        Part::Head(_item) => Ok(false),
        Part::Binder(item) => Ok(are_empty(item, first)),
        Part::Plain(item) => same_terms(alloc, forms, one, first, two, item),
        Part::Body(names, item) => {
            enter(alloc, names.as_slice(), two)?;
            let answer = same_terms(alloc, forms, one, first, two, item)?;
            leave(two);
            Ok(answer)
        }
    }
}

// Whether the two terms are the same without the names that are bound in them.
pub(crate) fn same_without_names(
    alloc: Global,
    forms: &[BindingForm],
    one: &Term,
    two: &Term,
) -> Result<bool, NoMemory>
    ensures { IfOk result (λ answer. IsTrue answer
        ↔ (nameless (forms_of forms.now) (tree_of one.now)
        ≡ nameless (forms_of forms.now) (tree_of two.now))) }
{
    let mut around_one = Vec::new(alloc);
    let mut around_two = Vec::new(alloc);
    same_terms(alloc, forms, &mut around_one, one, &mut around_two, two)
}
