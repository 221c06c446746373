// Lists by their heads, where a host expression has to stand.
ghost use Rattle.std.specs.Prelude.{◌≡◌};
ghost use Rattle.rdx_sexp.specs.Sexp.{sexps};
ghost use Rattle.rdx_templates.specs.HostHeads as model;
ghost use Rattle.rdx_templates.specs.Inside.HeadViews.{host_head_view};

use rdx_delta::{operation_named, takes};
use rdx_lang::HostOp;
use rdx_sexp::{Datum, Form};

/// The kinds of lists.
#[derive(Clone, Copy)]
pub(crate) enum HostHead {
    /// `(term t)`
    Quoting,
    /// an operation, with as many arguments as it takes
    Applying(HostOp),
    /// `(and h ...)`
    AllOf,
    /// `(or h ...)`
    SomeOf,
    /// `term` or an operation with another number of arguments
    Miscounted,
    /// every other list, which Racket might understand
    Foreign,
}

// The kind of a list of an operation, if the head is one, with so many arguments.
fn operation_head(op: Option<HostOp>, count: usize) -> HostHead
    ensures { host_head_view result ≡ model.operation_head op count }
{
    match op {
        Some(op) => {
            if takes(op, count) {
                HostHead::Applying(op)
            } else {
                HostHead::Miscounted
            }
        }
        None => HostHead::Foreign,
    }
}

// The kind of a list that begins with this word, with so many data behind it.
fn host_head_of(text: &str, count: usize) -> HostHead
    ensures { host_head_view result ≡ model.host_head_of text.now count }
{
    match text {
        "term" => {
            if count == 1 {
                HostHead::Quoting
            } else {
                HostHead::Miscounted
            }
        }
        "and" => HostHead::AllOf,
        "or" => HostHead::SomeOf,
        _ => operation_head(operation_named(text), count),
    }
}

/// The kind of a list of these items.
pub(crate) fn host_head(items: &[Datum]) -> HostHead
    ensures { host_head_view result ≡ model.host_head (sexps items.now) }
{
    match items {
        [first, behind @ ..] => match &first.form {
            Form::Sym(text) => host_head_of(text.as_str(), behind.len()),
            Form::Int(_) | Form::Bool(_) | Form::Str(_) | Form::Key(_) | Form::List(_) => {
                HostHead::Foreign
            }
        },
        [] => HostHead::Foreign,
    }
}
