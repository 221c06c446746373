// The answers to queries under binding forms.
ghost use Rattle.std.specs.Prelude.{◌≡◌, ◌++◌, IfOk, OnOk};
ghost use Rattle.rdx_alpha.specs.View.{forms_of};
ghost use Rattle.rdx_answer.specs.AlphaAnswers as model;
ghost use Rattle.rdx_answer.specs.AlphaAnswers.{IsAlikeAnswer, IsSubstitutedAnswer};
ghost use Rattle.rdx_answer.specs.Inside.Appending.{Appends};
ghost use Rattle.rdx_answer.specs.Inside.Putting.{Stops};
ghost use Rattle.rdx_term.specs.View.{tree_of};

use crate::texts::write_value_line;
use rdx_alpha::{AlphaFault, BindingForm, alpha_equal, substitute};
use rdx_term::{Name, NoMemory, Term, text_of};
use std::alloc::Global;

// Whether two terms are alpha equivalent.
fn write_alpha(are_alike: bool, out: &mut Vec<u8>) -> Result<(), NoMemory>
    ensures { OnOk result (out.new.items ≡ out.old.items ++ model.alpha_line are_alike) }
{
    let line: &[u8] = if are_alike {
        b"alpha #t\n"
    } else {
        b"alpha #f\n"
    };
    out.extend_from_slice(line)?;
    Ok(())
}

// `fault NotBinding u`.
fn write_not_binding(wrong: &Term, out: &mut Vec<u8>) -> Result<(), NoMemory>
    ensures { OnOk result
        (out.new.items ≡ out.old.items ++ model.not_binding_line (tree_of wrong.now)) }
{
    out.extend_from_slice(b"fault NotBinding ")?;
    text_of(wrong, out)?;
    out.push(b'\n')?;
    Ok(())
}

// `fault NotName u`.
fn write_not_name(term: &Term, out: &mut Vec<u8>) -> Result<(), NoMemory>
    ensures { OnOk result (out.new.items
        ≡ out.old.items ++ model.outcome_line (model.not_name (tree_of term.now))) }
{
    out.extend_from_slice(b"fault NotName ")?;
    text_of(term, out)?;
    out.push(b'\n')?;
    Ok(())
}

// `fault HeadName k`.
fn write_head_name(head: &Name, out: &mut Vec<u8>) -> Result<(), NoMemory>
    ensures { OnOk result
        (out.new.items ≡ out.old.items ++ model.outcome_line (model.head_name head.now)) }
{
    out.extend_from_slice(b"fault HeadName ")?;
    out.extend_from_slice(head.text().as_bytes())?;
    out.push(b'\n')?;
    Ok(())
}

/// Appends whether two terms are alpha equivalent, and says whether no fault comes.
pub(crate) fn write_alike(
    alloc: Global,
    forms: &[BindingForm],
    t: &Term,
    u: &Term,
    out: &mut Vec<u8>,
) -> Result<bool, NoMemory>
    ensures { IfOk result (λ met. Appends
        (IsAlikeAnswer (forms_of forms.now) (tree_of t.now) (tree_of u.now)) out.old.items
        out.new.items met) }
{
    match alpha_equal(alloc, forms, t, u) {
        Ok(are_alike) => {
            write_alpha(are_alike, out)?;
            Ok(true)
        }
        Err(AlphaFault::NotBinding(wrong)) => {
            write_not_binding(&wrong, out)?;
            Ok(false)
        }
        Err(AlphaFault::NoMemory) => Err(NoMemory),
        Err(AlphaFault::HeadName(_)) | Err(AlphaFault::TooDeep) | Err(AlphaFault::TooLarge) => {
            unreachable!()
        }
    }
}

// Appends the line of why a term is not put for a name.
fn write_stop(fault: &AlphaFault, out: &mut Vec<u8>) -> Result<(), NoMemory>
    ensures { OnOk result (Stops fault.now out.old.items out.new.items) }
{
    match fault {
        AlphaFault::NotBinding(wrong) => write_not_binding(wrong, out)?,
        AlphaFault::HeadName(head) => write_head_name(head, out)?,
        AlphaFault::TooDeep => out.extend_from_slice(b"fault TooDeep\n")?,
        AlphaFault::TooLarge => out.extend_from_slice(b"fault TooLarge\n")?,
        AlphaFault::NoMemory => return Err(NoMemory),
    }
    Ok(())
}

/// Appends what comes of putting v for x in t, and says whether no fault comes.
pub(crate) fn write_substituted(
    alloc: Global,
    forms: &[BindingForm],
    t: &Term,
    x: &Term,
    v: &Term,
    out: &mut Vec<u8>,
) -> Result<bool, NoMemory>
    ensures { IfOk result (λ met. Appends (IsSubstitutedAnswer (forms_of forms.now)
        (tree_of t.now) (tree_of x.now) (tree_of v.now)) out.old.items out.new.items met) }
{
    let Term::Sym(name) = x else {
        write_not_name(x, out)?;
        return Ok(false);
    };
    match substitute(alloc, forms, t, name, v) {
        Ok(made) => {
            // A term that is there keeps the limits of terms.
            let _depth = made.depth();
            write_value_line(&made, out)?;
            Ok(true)
        }
        Err(fault) => {
            write_stop(&fault, out)?;
            Ok(false)
        }
    }
}
