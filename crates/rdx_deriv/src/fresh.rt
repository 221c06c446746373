// Fresh names: what they avoid, and the binding of one of them alone.
ghost use Rattle.std.specs.Prelude.{◌≡◌, ◌++◌, IfOk, OnOk};
ghost use Rattle.rdx_term.specs.View.{tree_of};
ghost use Rattle.rdx_lang.specs.BindingView.{found_value};
ghost use Rattle.rdx_lang.specs.ProgramView.{extra_of};
ghost use Rattle.rdx_lang.specs.Shown.{binding_of};
ghost use Rattle.rdx_eval.specs.Fresh.{avoiding, behind, freshly, symbol_in, symbols, symbols_of};
ghost use Rattle.rdx_eval.specs.Laws.{avoided};
ghost use Rattle.rdx_deriv.specs.Avoiding.{avoided_of, texts_of};

use crate::progress::Avoided;
use rdx_bind::one;
use rdx_lang::{Binding, Extra, Value, first_variant};
use rdx_term::{Name, NoMemory, Term};
use std::alloc::Global;

/// What is avoided before the first extra: the symbols of the whole term.
pub fn avoiding_all<'a>(alloc: Global, whole: &'a Term) -> Avoided<'a>
    ensures { avoided_of result ≡ avoiding (tree_of whole.now) }
{
    Avoided {
        whole,
        names: Vec::new(alloc),
    }
}

/// What is avoided behind the extra: a name that it binds freshly too.
pub fn pass<'a>(avoids: &mut Avoided<'a>, extra: &'a Extra) -> Result<(), NoMemory>
    ensures { OnOk result (avoided_of avoids.new
        ≡ behind (avoided_of avoids.old) (extra_of extra.now)) }
{
    match extra {
        Extra::Fresh(name) => avoids.names.push(name)?,
        Extra::Where(_, _) | Extra::Side(_) | Extra::Holds(_) => {}
    }
    Ok(())
}

// Puts the symbols of the term behind the others.
fn add_symbols(t: &Term, found: &mut Vec<Name>) -> Result<(), NoMemory>
    ensures { OnOk result (found.new.items ≡ found.old.items ++ symbols (tree_of t.now)) }
{
    match t {
        Term::Sym(name) => found.push(name.share()?)?,
        Term::List(node) => {
            for item in node.items() {
                add_symbols(item, found)?;
            }
        }
        Term::Hole | Term::Int(_) | Term::Bool(_) | Term::Str(_) => {}
    }
    Ok(())
}

// Puts the symbols that a name stands for behind the others.
fn add_bound(value: Option<&Value>, found: &mut Vec<Name>) -> Result<(), NoMemory>
    ensures { OnOk result (found.new.items
        ≡ found.old.items ++ symbol_in (found_value value.entry)) }
{
    match value {
        Some(Value::One(t)) => add_symbols(t, found),
        Some(Value::Many(_) | Value::Len(_)) | None => Ok(()),
    }
}

// Puts the symbols that the names stand for in the binding behind the others.
fn add_bound_all(names: &[&Name], b: &Binding, found: &mut Vec<Name>) -> Result<(), NoMemory>
    ensures { OnOk result (found.new.items
        ≡ found.old.items ++ symbols_of (texts_of names.now) (binding_of b.now)) }
{
    for name in names {
        add_bound(b.get(name), found)?;
    }
    Ok(())
}

// All symbols that a fresh name avoids.
fn taken(alloc: Global, avoids: &Avoided, b: &Binding) -> Result<Vec<Name>, NoMemory>
    ensures { IfOk result (λ r. r.items ≡ avoided (avoided_of avoids.now) (binding_of b.now)) }
{
    let mut found = Vec::new(alloc);
    add_symbols(avoids.whole, &mut found)?;
    add_bound_all(&avoids.names, b, &mut found)?;
    Ok(found)
}

/// The name bound to its fresh symbol.
pub fn fresh_binding(
    alloc: Global,
    avoids: &Avoided,
    b: &Binding,
    name: &Name,
) -> Result<Binding, NoMemory>
    ensures { IfOk result (λ r. binding_of r
        ≡ freshly (avoided_of avoids.now) (binding_of b.now) name.now) }
{
    let all = taken(alloc, avoids, b)?;
    let symbol = first_variant(alloc, name, &all)?;
    one(alloc, name, Value::One(Term::Sym(symbol)))
}
