// The bodies around a place in a term.
ghost use Rattle.std.specs.Prelude.{◌≡◌, ◌++◌, ◌∷◌, ℕ, List, OnOk, IfOk, map};
ghost use Rattle.rdx_alpha.specs.Nameless as model;
ghost use Rattle.rdx_alpha.specs.Inside.Around.{around_of};
ghost use Rattle.rdx_alpha.specs.Inside.Same.{occurrence_of};

use crate::names::add_name;
use crate::occurrence::Occurrence;
use rdx_term::{Name, NoMemory};
use std::alloc::Global;

// The same names once more.
fn copied(alloc: Global, names: &[Name]) -> Result<Vec<Name>, NoMemory>
    ensures { IfOk result (λ copies. copies.items ≡ names.now) }
{
    let mut copies = Vec::with_capacity(alloc, names.len())?;
    for name in names {
        add_name(name, &mut copies)?;
    }
    Ok(copies)
}

// Puts one more body around, inside of the others.
pub(crate) fn enter(
    alloc: Global,
    names: &[Name],
    around: &mut Vec<Vec<Name>>,
) -> Result<(), NoMemory>
    ensures { OnOk result (around_of around.new.items ≡ names.now ∷ around_of around.old.items) }
{
    let copies = copied(alloc, names)?;
    around.push(copies)?;
    Ok(())
}

// Takes the innermost body away.
pub(crate) fn leave(around: &mut Vec<Vec<Name>>)
    ensures { (names : List (List ℕ)) (outer : List (List (List ℕ)))
        → around_of around.old.items ≡ names ∷ outer → around_of around.new.items ≡ outer }
{
    let _names = around.pop();
}

// The place of a name among some.
fn place_in(name: &Name, names: &[Name]) -> Option<usize>
    ensures { result ≡ model.place_in name.now names.now }
{
    for (k, other) in names.iter().enumerate() {
        if name.text() == other.text() {
            return Some(k);
        }
    }
    None
}

// What an occurrence of the symbol is among these bodies.
pub(crate) fn occurrence(name: &Name, around: &[Vec<Name>]) -> Occurrence
    ensures { occurrence_of name.now result ≡ model.occurrence 0 (around_of around.now) name.now }
{
    let mut outer = around.len();
    while outer > 0 {
        let k = outer - 1;
        match place_in(name, around[k].as_slice()) {
            Some(place) => return Occurrence::Bound(around.len() - outer, place),
            None => outer = k,
        }
    }
    Occurrence::Free
}
