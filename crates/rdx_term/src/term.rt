// Terms, and the shared lists in them.
ghost use Rattle.std.specs.Prelude.{◌≡◌, ◌≤◌, IfOk, map};
ghost use Rattle.rdx_term.specs.Tree.{tree_depth, tree_nodes, tree_holes, contents_tree};
ghost use Rattle.rdx_term.specs.Context.{is_context};
ghost use Rattle.rdx_term.specs.Terms.{IsTerm};
ghost use Rattle.rdx_term.specs.View.{tree_of};

use crate::error::NoMemory;
use crate::name::Name;
use std::marker::Model;
use std::rc::{Rc, RcStr};

mod alike;
pub mod build;
mod measures;
mod order;
mod symbols;
pub mod text;

/// A term. In contracts it is the tree that `tree_of` gives.
#[cycle(term)]
#[derive(Drop)]
pub enum Term {
    /// The hole.
    Hole,
    /// An integer.
    Int(i128),
    /// A truth value.
    Bool(bool),
    /// A string.
    Str(RcStr),
    /// A symbol.
    Sym(Name),
    /// A list, which the functions `list` and `marked_list` make.
    List(Rc<Node>),
}

/// What a list holds: its items, and the place of the marked one if it has a mark. In contracts it is its `Contents`.
///
/// Its depth, its nodes and its holes are kept, so that to ask for one takes no time.
#[cycle(term)]
#[derive(Drop)]
pub struct Node {
    items: Vec<Term>,
    mark: Option<usize>,
    depth: u32,
    nodes: u32,
    holes: u32,
}

impl Model for Node {
    ghost use Rattle.std.specs.Prelude.{map};
    ghost use Rattle.rdx_term.specs.Tree.{Contents, contents_tree, tree_nodes};
    ghost use Rattle.rdx_term.specs.Model.Tokens.{coded_contents};

    ghost Value = { Contents };

    ghost coded = { coded_contents };

    ghost use Rattle.rdx_term.specs.View.{tree_of};
    ghost use Rattle.rdx_term.specs.Model.Measures.{IsMeasured};

    ghost view = { λ a. record { mark = a.mark; items = map tree_of a.items.items } };

    ghost invariant = { IsMeasured };

    ghost size = { λ l. tree_nodes (contents_tree l) };

    ghost use Rattle.std.proofs.Common.{arith};
    ghost use Rattle.rdx_term.specs.Model.Weights.{most_weight_le-nodes};

    ghost size_decreases = { λ a h. omega (arith, most_weight_le-nodes a.items.items) };
}

impl Node {
    /// The items, in order.
    pub fn items(&self) -> &[Term]
        ensures value { map tree_of result.now ≡ self.now.items }
        ensures valid { IsTerm (contents_tree self.now) }
    {
        self.items.as_slice()
    }

    /// The place of the marked item, from 0.
    pub fn mark(&self) -> Option<usize>
        ensures value { result ≡ self.now.mark }
        ensures valid { IsTerm (contents_tree self.now) }
    {
        self.mark
    }

    /// One more than the depth of the deepest item, and 1 where there is none.
    pub fn depth(&self) -> u32
        ensures value { result ≡ tree_depth (contents_tree self.now) }
        ensures valid { IsTerm (contents_tree self.now) }
    {
        self.depth
    }

    /// One more than the nodes of the items together. A shared part counts each time that it stands in the list.
    pub fn nodes(&self) -> u32
        ensures value { result ≡ tree_nodes (contents_tree self.now) }
        ensures valid { IsTerm (contents_tree self.now) }
    {
        self.nodes
    }

    /// How many holes there are in the items, on the path of marks or beside it.
    pub fn holes(&self) -> u32
        ensures value { result ≡ tree_holes (contents_tree self.now) }
        ensures valid { IsTerm (contents_tree self.now) }
    {
        self.holes
    }
}

impl Term {
    // Reads what the term holds, after which it is known to be well formed. Of an atom this is known once it was read.
    fn read(&self)
        ensures { IsTerm (tree_of self.now) }
    {
        match self {
            Term::Hole | Term::Bool(_) => {}
            Term::Int(n) => {
                let _value = *n;
            }
            Term::Str(text) => {
                let _text = text.as_str();
            }
            Term::Sym(name) => {
                let _text = name.text();
            }
            Term::List(node) => {
                let _mark = node.mark();
            }
        }
    }

    /// Whether the term is the hole or a list with a mark.
    pub fn is_context(&self) -> bool
        ensures value { result ≡ is_context (tree_of self.now) }
        ensures valid { IsTerm (tree_of self.now) }
    {
        self.read();
        match self {
            Term::Hole => true,
            Term::Int(_) | Term::Bool(_) | Term::Str(_) | Term::Sym(_) => false,
            Term::List(node) => node.mark().is_some(),
        }
    }

    /// The depth: 0 for an atom and for the hole, and that of its `Node` for a list.
    pub fn depth(&self) -> u32
        ensures value { result ≡ tree_depth (tree_of self.now) }
        ensures valid { IsTerm (tree_of self.now) }
    {
        self.read();
        match self {
            Term::Hole | Term::Int(_) | Term::Bool(_) | Term::Str(_) | Term::Sym(_) => 0,
            Term::List(node) => node.depth(),
        }
    }

    /// How many atoms, holes and lists there are in the term, itself with them. A shared part counts each time.
    pub fn nodes(&self) -> u32
        ensures value { result ≡ tree_nodes (tree_of self.now) }
        ensures small { result ≤ 4_000_000 }
        ensures valid { IsTerm (tree_of self.now) }
    {
        self.read();
        match self {
            Term::Hole | Term::Int(_) | Term::Bool(_) | Term::Str(_) | Term::Sym(_) => 1,
            Term::List(node) => node.nodes(),
        }
    }

    /// How many holes there are in the term, on the path of marks or beside it.
    pub fn holes(&self) -> u32
        ensures value { result ≡ tree_holes (tree_of self.now) }
        ensures valid { IsTerm (tree_of self.now) }
    {
        self.read();
        match self {
            Term::Hole => 1,
            Term::Int(_) | Term::Bool(_) | Term::Str(_) | Term::Sym(_) => 0,
            Term::List(node) => node.holes(),
        }
    }

    /// The same term once more, with its marks; its lists and its texts are shared.
    pub fn share(&self) -> Result<Term, NoMemory>
        ensures { IfOk result (λ t. tree_of t ≡ tree_of self.now) }
    {
        match self {
            Term::Hole => Ok(Term::Hole),
            Term::Int(n) => Ok(Term::Int(*n)),
            Term::Bool(b) => Ok(Term::Bool(*b)),
            Term::Str(text) => Ok(Term::Str(text.clone()?)),
            Term::Sym(name) => Ok(Term::Sym(name.share()?)),
            Term::List(node) => Ok(Term::List(node.clone()?)),
        }
    }
}
