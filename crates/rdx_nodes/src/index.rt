// The numbers of the nodes of nonterminals.
ghost use Rattle.std.specs.Prelude.{◌≡◌, OnOk, Some, cond};
ghost use Rattle.rdx_lang.specs.References.{is_same};
ghost use Rattle.rdx_nodes.specs.Numbers.{number_in};

use rdx_lang::Ref;
use rdx_term::NoMemory;
use std::alloc::Global;
use std::collections::HashMap;

/// The numbers of the nodes of nonterminals, by what they go by.
#[derive(Drop)]
pub(crate) struct Index<'a> {
    // Those of nonterminals with a name.
    texts: HashMap<&'a str, usize>,
    // Those of contexts from one to another.
    pairs: HashMap<(&'a str, &'a str), usize>,
}

impl<'a> Index<'a> {
    ghost use Rattle.std.specs.Prelude.{None};
    ghost use Rattle.rdx_lang.specs.declared.pattern.Ref as reference;

    /// No numbers.
    pub(crate) fn new(alloc: Global) -> Index<'a>
        ensures { (x : reference.Ref) → number_in result.texts result.pairs x ≡ None }
    {
        Index {
            texts: HashMap::new(alloc),
            pairs: HashMap::new(alloc),
        }
    }

    /// Gives the nonterminal this number.
    pub(crate) fn insert(&mut self, name: &'a Ref, number: usize) -> Result<(), NoMemory>
        ensures { OnOk result ((x : reference.Ref) →
            number_in self.new.texts self.new.pairs x ≡ cond (is_same name.now x) (Some number)
            (number_in self.old.texts self.old.pairs x)) }
    {
        match name {
            Ref::Nt(name) => {
                self.texts.insert(name.text(), number)?;
            }
            Ref::Cross(from, to) => {
                self.pairs.insert((from.text(), to.text()), number)?;
            }
        }
        Ok(())
    }

    /// The number of the nonterminal, if it has one.
    pub(crate) fn get(&self, name: &Ref) -> Option<usize>
        ensures { result ≡ number_in self.now.texts self.now.pairs name.now }
    {
        match name {
            Ref::Nt(name) => self.texts.get(name.text()).copied(),
            Ref::Cross(from, to) => self.pairs.get(&(from.text(), to.text())).copied(),
        }
    }
}
