// Equality with the marks forgotten.
ghost use Rattle.std.specs.Prelude.{◌≡◌, ◌↔◌, IsTrue};
ghost use Rattle.rdx_term.specs.Tree.{contents_tree};
ghost use Rattle.rdx_term.specs.Inside.Alike.{is_alike};
ghost use Rattle.rdx_term.specs.Bare.{bare};
ghost use Rattle.rdx_term.specs.View.{tree_of};

use crate::term::{Node, Term};

impl Term {
    /// Whether the two are the same term once their marks are forgotten.
    pub fn same_bare(&self, other: &Term) -> bool
        ensures { IsTrue result ↔ (bare (tree_of self.now) ≡ bare (tree_of other.now)) }
    {
        self.is_alike(other)
    }

    #[cycle(alike)]
    fn is_alike(&self, other: &Term) -> bool
        ensures { result ≡ is_alike (tree_of self.now) (tree_of other.now) }
    {
        match (self, other) {
            (Term::Hole, Term::Hole) => true,
            (Term::Int(a), Term::Int(b)) => a == b,
            (Term::Bool(a), Term::Bool(b)) => a == b,
            (Term::Str(a), Term::Str(b)) => a == b,
            (Term::Sym(a), Term::Sym(b)) => a.text() == b.text(),
            (Term::List(a), Term::List(b)) => a.is_alike(b),
            _ => false,
        }
    }
}

impl Node {
    #[cycle(alike)]
    fn is_alike(&self, other: &Node) -> bool
        ensures { result ≡ is_alike (contents_tree self.now) (contents_tree other.now) }
    {
        if self.items.len() != other.items.len() {
            return false;
        }
        for i in 0..self.items.len() {
            if !self.items[i].is_alike(&other.items[i]) {
                return false;
            }
        }
        true
    }
}
