// Keys: what tells the terms of a store apart.
ghost use Rattle.std.specs.Prelude.{◌≡◌};

use rdx_term::Name;
use std::hash::{Hash, Hasher};
use std::rc::RcStr;

/// A term with the id of each item in place of the item.
#[derive(Drop)]
pub(crate) enum Key {
    /// The hole.
    Hole,
    /// An integer.
    Int(i128),
    /// A truth value.
    Bool(bool),
    /// A string.
    Str(RcStr),
    /// A symbol.
    Sym(Name),
    /// A list: its mark, and the ids of its items.
    List(Option<usize>, Vec<usize>),
}

impl Key {
    ghost use Rattle.rdx_store.specs.Model.KeyView.{shape_of};
    ghost use Rattle.rdx_store.specs.Model.Shapes.{ids_in};

    /// The ids of the items; none where it is no list.
    pub(crate) fn ids(&self) -> &[usize]
        ensures { result.now ≡ ids_in (shape_of self.now) }
    {
        match self {
            Key::Hole | Key::Int(_) | Key::Bool(_) | Key::Str(_) | Key::Sym(_) => &[],
            Key::List(_, ids) => ids,
        }
    }
}

impl PartialEq for Key {
    ghost use Rattle.std.specs.Ordering.{on};
    ghost use Rattle.std.specs.Cmp.{partial_equiv_from_equiv, on_equiv};
    ghost use Rattle.rdx_store.specs.Model.KeyView.{shape_of};
    ghost use Rattle.rdx_store.specs.Model.Shapes.{shape_eq};
    ghost use Rattle.rdx_store.specs.Model.ShapeLaws.{shape_eq-equiv};

    ghost eq = { on shape_of shape_eq };

    ghost laws = { partial_equiv_from_equiv (on_equiv shape_of shape_eq-equiv) };

    fn eq(&self, other: &Key) -> bool {
        match (self, other) {
            (Key::Hole, Key::Hole) => true,
            (Key::Int(a), Key::Int(b)) => a == b,
            (Key::Bool(a), Key::Bool(b)) => a == b,
            (Key::Str(a), Key::Str(b)) => a == b,
            (Key::Sym(a), Key::Sym(b)) => a.text() == b.text(),
            (Key::List(mark, ids), Key::List(other_mark, other_ids)) => {
                mark == other_mark && ids == other_ids
            }
            _ => false,
        }
    }
}

impl Eq for Key {
    ghost use Rattle.std.specs.Cmp.{on_equiv};
    ghost use Rattle.rdx_store.specs.Model.KeyView.{shape_of};
    ghost use Rattle.rdx_store.specs.Model.ShapeLaws.{shape_eq-equiv};

    ghost laws = { on_equiv shape_of shape_eq-equiv };
}

impl Hash for Key {
    ghost use Rattle.rdx_store.specs.Model.KeyView.{shape_of};
    ghost use Rattle.rdx_store.specs.Model.Shapes.{shape_fed};
    ghost use Rattle.rdx_store.specs.Model.ShapeLaws.{shape_fed-same};

    ghost hash_input = { λ k. shape_fed (shape_of k) };

    ghost respects_eq = { λ a b. shape_fed-same (shape_of a) (shape_of b) };

    fn hash<H: Hasher>(&self, state: &mut H) {
        match self {
            Key::Hole => state.write_u8(0),
            Key::Int(n) => {
                state.write_u8(1);
                n.hash(state);
            }
            Key::Bool(b) => {
                state.write_u8(2);
                b.hash(state);
            }
            Key::Str(text) => {
                state.write_u8(3);
                text.hash(state);
            }
            Key::Sym(name) => {
                state.write_u8(4);
                name.text().hash(state);
            }
            Key::List(mark, ids) => {
                state.write_u8(5);
                mark.hash(state);
                ids.hash(state);
            }
        }
    }
}
