// The printed spelling of data.
ghost use Rattle.std.specs.Prelude.{◌≡◌, ◌++◌, OnOk, OnErr, length, take, codes};
ghost use Rattle.rdx_sexp.specs.Print.{sexp_text, sexps_text};
ghost use Rattle.rdx_sexp.specs.Sexp.{sexps};

use crate::{Datum, Form};
use rdx_term::NoMemory;
use rdx_term::printing::{print_bytes, print_integer, print_string};

/// Appends the printed spelling of a datum to `out`: lists in round brackets, with one space between two items. Where memory is wanting,
/// `out` stays as it was. It recurs on the depth of the datum.
pub fn datum_text(d: &Datum, out: &mut Vec<u8>) -> Result<(), NoMemory>
    ensures ok { OnOk result (out.new.items ≡ out.old.items ++ sexp_text d.now) }
    ensures err { OnErr result (out.new.items ≡ out.old.items) }
{
    let start = out.len();
    match print(d, out) {
        Ok(()) => Ok(()),
        Err(error) => {
            out.truncate(start);
            Err(error)
        }
    }
}

#[cycle(print)]
fn print(d: &Datum, out: &mut Vec<u8>) -> Result<(), NoMemory>
    ensures ok { OnOk result (out.new.items ≡ out.old.items ++ sexp_text d.now) }
    ensures kept { take (length out.old.items) out.new.items ≡ out.old.items }
{
    match &d.form {
        Form::Int(n) => print_integer(*n, out),
        Form::Bool(true) => print_bytes(b"#t", out),
        Form::Bool(false) => print_bytes(b"#f", out),
        Form::Str(text) => print_string(text.as_str().as_bytes(), out),
        Form::Sym(text) => print_bytes(text.as_str().as_bytes(), out),
        Form::Key(text) => {
            print_bytes(b"#:", out)?;
            print_bytes(text.as_str().as_bytes(), out)
        }
        Form::List(items) => print_list(items, out),
    }
}

// The items between round brackets.
#[cycle(print)]
fn print_list(items: &[Datum], out: &mut Vec<u8>) -> Result<(), NoMemory>
    ensures ok { OnOk result
        (out.new.items
        ≡ out.old.items ++ (codes "(" ++ sexps_text (sexps items.now) ++ codes ")")) }
    ensures kept { take (length out.old.items) out.new.items ≡ out.old.items }
{
    out.push(b'(')?;
    print_items(items, out)?;
    out.push(b')')?;
    Ok(())
}

// The items, with one space between two.
#[cycle(print)]
fn print_items(items: &[Datum], out: &mut Vec<u8>) -> Result<(), NoMemory>
    ensures ok { OnOk result (out.new.items ≡ out.old.items ++ sexps_text (sexps items.now)) }
    ensures kept { take (length out.old.items) out.new.items ≡ out.old.items }
{
    let Some(first) = items.first() else {
        return Ok(());
    };
    print(first, out)?;
    for i in 1..items.len() {
        out.push(b' ')?;
        print(&items[i], out)?;
    }
    Ok(())
}
