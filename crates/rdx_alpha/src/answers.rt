// Substitution and alpha equivalence, with all their refusals.
ghost use Rattle.std.specs.Prelude.{◌≡◌, IfOk, IfErr, None, option_map};
ghost use Rattle.rdx_term.specs.View.{tree_of};
ghost use Rattle.rdx_alpha.specs.Answers.{first_wrong_of, CanSubstitute, Substitutes, IsFaultOf};
ghost use Rattle.rdx_alpha.specs.Answers.{Compares, IsComparingFaultOf};
ghost use Rattle.rdx_alpha.specs.Substitution as model;
ghost use Rattle.rdx_alpha.specs.View.{forms_of};

use crate::alpha::same_without_names;
use crate::fault::AlphaFault;
use crate::form::BindingForm;
use crate::forms::head_that_is;
use crate::marks::marked_anew;
use crate::names::texts_of;
use crate::new_names::symbols_of;
use crate::stop::Stop;
use crate::substitution::substituted;
use crate::wrong::first_wrong;
use rdx_term::{Name, NoMemory, Term};
use std::alloc::Global;

// The first list of two terms that is headed by the head of a form and is no instance.
fn first_wrong_of(
    alloc: Global,
    forms: &[BindingForm],
    one: &Term,
    two: &Term,
) -> Result<Option<Term>, NoMemory>
    ensures { IfOk result (λ found. option_map tree_of found
        ≡ first_wrong_of (forms_of forms.now) (tree_of one.now) (tree_of two.now)) }
{
    match first_wrong(alloc, forms, one)? {
        Some(wrong) => Ok(Some(wrong)),
        None => first_wrong(alloc, forms, two),
    }
}

// The term with the value put for the name, or that it is over the limits.
fn within_limits(
    alloc: Global,
    forms: &[BindingForm],
    term: &Term,
    name: &Name,
    value: &Term,
) -> Result<Term, AlphaFault>
    requires { CanSubstitute (forms_of forms.now) (tree_of term.now) (tree_of value.now) }
    ensures ok { IfOk result (λ t. Substitutes (forms_of forms.now) (tree_of term.now) name.now
        (tree_of value.now) (tree_of t)) }
    ensures err { IfErr result (λ fault.
        IsFaultOf (forms_of forms.now) (tree_of term.now) name.now (tree_of value.now) fault) }
{
    let names = symbols_of(alloc, value)?;
    let symbols = texts_of(alloc, &names)?;
    match substituted(alloc, forms, name, value, &symbols, term) {
        Ok(made) => Ok(marked_anew(alloc, &made)?),
        Err(Stop::TooDeep) => Err(AlphaFault::TooDeep),
        Err(Stop::TooLarge(_)) => Err(AlphaFault::TooLarge),
        Err(Stop::NoMemory) => Err(AlphaFault::NoMemory),
    }
}

/// The term with the value put for each free symbol of the name. Binders of instances of the forms
/// are renamed where they would capture a free symbol of the value. Each list of the result is
/// marked as `list` marks it, also what stays and what is of the value.
pub fn substitute(
    alloc: Global,
    forms: &[BindingForm],
    term: &Term,
    name: &Name,
    value: &Term,
) -> Result<Term, AlphaFault>
    ensures ok { IfOk result (λ t. Substitutes (forms_of forms.now) (tree_of term.now) name.now
        (tree_of value.now) (tree_of t)) }
    ensures err { IfErr result (λ fault.
        IsFaultOf (forms_of forms.now) (tree_of term.now) name.now (tree_of value.now) fault) }
{
    match first_wrong_of(alloc, forms, term, value)? {
        Some(wrong) => Err(AlphaFault::NotBinding(wrong)),
        None => match head_that_is(forms, value) {
            Some(head) => Err(AlphaFault::HeadName(head.share()?)),
            None => within_limits(alloc, forms, term, name, value),
        },
    }
}

/// Whether the two terms are alpha equivalent: the same up to the names that are bound in them, and
/// to marks.
pub fn alpha_equal(
    alloc: Global,
    forms: &[BindingForm],
    one: &Term,
    two: &Term,
) -> Result<bool, AlphaFault>
    ensures ok { IfOk result (λ answer.
        Compares (forms_of forms.now) (tree_of one.now) (tree_of two.now) answer) }
    ensures err { IfErr result (λ fault.
        IsComparingFaultOf (forms_of forms.now) (tree_of one.now) (tree_of two.now) fault) }
{
    match first_wrong_of(alloc, forms, one, two)? {
        Some(wrong) => Err(AlphaFault::NotBinding(wrong)),
        None => Ok(same_without_names(alloc, forms, one, two)?),
    }
}
