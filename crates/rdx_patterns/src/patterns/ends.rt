// The nonterminals to which data ask for cross nonterminals.
ghost use Rattle.std.specs.Prelude.{◌≡◌, ◌++◌, IfOk, OnOk};
ghost use Rattle.rdx_sexp.specs.Sexp.{sexps};
ghost use Rattle.rdx_patterns.specs.Ends as model;

use crate::patterns::names::Names;
use crate::patterns::readings::add_name;
use crate::shape::is_word;
use rdx_sexp::{Datum, Form};
use rdx_term::{Name, NoMemory};
use std::alloc::Global;

// Adds the e of a list `(cross e)` of these items, where it is a name.
fn add_end(items: &[Datum], out: &mut Vec<Name>) -> Result<(), NoMemory>
    ensures { OnOk result (out.new.items ≡ out.old.items ++ model.end_of (sexps items.now)) }
{
    if items.len() == 2 && is_word(&items[0], "cross") {
        add_name(&items[1], out)?;
    }
    Ok(())
}

/// Adds those of all such lists in the datum, however deep.
#[cycle(ends)]
pub fn add_ends(d: &Datum, out: &mut Vec<Name>) -> Result<(), NoMemory>
    ensures { OnOk result (out.new.items ≡ out.old.items ++ model.ends_in d.now) }
{
    match &d.form {
        Form::Int(_) | Form::Bool(_) | Form::Str(_) | Form::Sym(_) | Form::Key(_) => Ok(()),
        Form::List(items) => {
            add_end(items, out)?;
            for item in items {
                add_ends(item, out)?;
            }
            Ok(())
        }
    }
}

/// The nonterminals that lists `(cross e)` in the datum name, however deep, as they stand.
pub fn ends_in(alloc: Global, d: &Datum) -> Result<Vec<Name>, NoMemory>
    ensures { IfOk result (λ ends. ends.items ≡ model.ends_in d.now) }
{
    let mut ends = Vec::new(alloc);
    add_ends(d, &mut ends)?;
    Ok(ends)
}

/// Those that are among these names, as they stand.
pub(crate) fn known_ends(alloc: Global, names: &Names, ends: &[Name]) -> Result<Vec<Name>, NoMemory>
    ensures { IfOk result (λ known. known.items ≡ model.known_ends names.now ends.now) }
{
    let mut known = Vec::new(alloc);
    for end in ends {
        if names.find(end.text()).is_some() {
            known.push(end.share()?)?;
        }
    }
    Ok(known)
}
