// Forms that define languages without their binding forms.
ghost use Rattle.std.specs.Prelude.{◌≡◌, IfOk};
ghost use Rattle.rdx_forms.specs.BindingParts as model;
ghost use Rattle.rdx_forms.specs.Inside.Copies as copies;
ghost use Rattle.rdx_forms.specs.Inside.Copies.{before_among, has_key};

use rdx_patterns::shape::items;
use rdx_sexp::{Datum, Form};
use rdx_term::NoMemory;
use std::alloc::Global;

// The datum once more.
#[cycle(copies)]
fn copy(alloc: Global, d: &Datum) -> Result<Datum, NoMemory>
    ensures { IfOk result (λ c. c ≡ d.now) }
{
    let span = d.span;
    match &d.form {
        Form::Int(number) => Ok(Datum {
            form: Form::Int(*number),
            span,
        }),
        Form::Bool(truth) => Ok(Datum {
            form: Form::Bool(*truth),
            span,
        }),
        Form::Str(text) => Ok(Datum {
            form: Form::Str(text.clone()?),
            span,
        }),
        Form::Sym(text) => Ok(Datum {
            form: Form::Sym(text.clone()?),
            span,
        }),
        Form::Key(text) => Ok(Datum {
            form: Form::Key(text.clone()?),
            span,
        }),
        Form::List(items) => Ok(Datum {
            form: Form::List(copy_all(alloc, items.as_slice())?),
            span,
        }),
    }
}

// Each of these once more.
#[cycle(copies)]
fn copy_all(alloc: Global, items: &[Datum]) -> Result<Vec<Datum>, NoMemory>
    ensures { IfOk result (λ found. found.items ≡ items.now) }
{
    let mut found = Vec::with_capacity(alloc, items.len())?;
    for item in items {
        found.push(copy(alloc, item)?)?;
    }
    Ok(found)
}

// Whether the datum is `#:binding-forms`.
fn is_binding_key(d: &Datum) -> bool
    ensures { result ≡ model.is_binding_key d.now }
{
    match &d.form {
        Form::Key(text) => text.as_str() == "binding-forms",
        _ => false,
    }
}

// The data before the keyword.
fn before_key(items: &[Datum]) -> &[Datum]
    ensures { result.now ≡ before_among items.now }
{
    for place in 0..items.len() {
        if is_binding_key(&items[place]) {
            return &items[..place];
        }
    }
    items
}

// Whether the keyword is one of these.
fn has_key_among(items: &[Datum]) -> bool
    ensures { result ≡ copies.has_key_among items.now }
{
    for item in items {
        if is_binding_key(item) {
            return true;
        }
    }
    false
}

/// Whether binding forms are written in the form: the keyword is one of its parts.
pub(crate) fn has_binding_forms(form: &Datum) -> bool
    ensures { result ≡ has_key form.now }
{
    match items(form) {
        Some(items) => has_key_among(items),
        None => false,
    }
}

/// The form without its binding forms, where it stands.
#[tactic(auto, using(crate::proofs::GrammarParts::before_sexps))]
pub(crate) fn grammar_part(alloc: Global, form: &Datum) -> Result<Datum, NoMemory>
    ensures { IfOk result (λ d. d ≡ model.grammar_part form.now) }
{
    let span = form.span;
    match &form.form {
        Form::List(items) => Ok(Datum {
            form: Form::List(copy_all(alloc, before_key(items.as_slice()))?),
            span,
        }),
        Form::Int(_) | Form::Bool(_) | Form::Str(_) | Form::Sym(_) | Form::Key(_) => {
            copy(alloc, form)
        }
    }
}
