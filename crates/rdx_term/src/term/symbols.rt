// The symbols in a term.
ghost use Rattle.std.specs.Prelude.{◌≡◌};
ghost use Rattle.rdx_term.specs.Tree.{contents_tree};
ghost use Rattle.rdx_term.specs.Symbols.{has_symbol};
ghost use Rattle.rdx_term.specs.View.{tree_of};

use crate::name::Name;
use crate::term::{Node, Term};

impl Term {
    /// Whether the symbol of this name stands in the term.
    #[cycle(symbols)]
    pub fn has_symbol(&self, name: &Name) -> bool
        ensures { result ≡ has_symbol name.now (tree_of self.now) }
    {
        match self {
            Term::Sym(symbol) => symbol.text() == name.text(),
            Term::List(node) => node.has_symbol(name),
            Term::Hole | Term::Int(_) | Term::Bool(_) | Term::Str(_) => false,
        }
    }
}

impl Node {
    #[cycle(symbols)]
    fn has_symbol(&self, name: &Name) -> bool
        ensures { result ≡ has_symbol name.now (contents_tree self.now) }
    {
        for item in &self.items {
            if item.has_symbol(name) {
                return true;
            }
        }
        false
    }
}
