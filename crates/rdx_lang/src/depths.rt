// The depths of names, while they are met one after the other.
ghost use Rattle.std.proofs.Props.{props};
ghost use Rattle.std.specs.BTreeMap.{IsOrdered};
ghost use Rattle.std.specs.Ordering.{on};
ghost use Rattle.rdx_lang.specs.Bindings.{name_cmp};

use crate::key::Key;
use rdx_term::{Name, NoMemory};
use std::alloc::Global;
use std::collections::BTreeMap;

/// The names that were met so far, each with its depth and whether it is a length name.
#[derive(Drop)]
pub struct Depths {
    seen: BTreeMap<Key, (usize, bool)>,
    ghost ordered: { IsOrdered (on (λ k. k.name) name_cmp) seen } by { Prim.hlevel props },
}

impl Depths {
    ghost use Rattle.std.specs.Prelude.{◌≡◌, [], IfOk, OnErr, IsTrue, IsFalse};
    ghost use Rattle.std.specs.List.{list_all};
    ghost use Rattle.rdx_lang.specs.Depths.{agree};
    ghost use Rattle.rdx_lang.specs.Met.{met, use_of, IsMet};

    /// No name was met.
    pub fn new(alloc: Global) -> Depths
        ensures { met result ≡ [] }
    {
        Depths {
            seen: BTreeMap::new(alloc),
        }
    }

    /// Meets a name at a depth, as a length name or not. The answer is false where it was met before
    /// at another depth or as the other kind; then, and for want of memory, it counts for nothing.
    pub fn meet(&mut self, name: &Name, depth: usize, is_length: bool) -> Result<bool, NoMemory>
        ensures fits { IfOk result (λ fits.
            fits ≡ list_all (agree (use_of name.now depth is_length)) (met self.old)) }
        ensures met { IfOk result (λ fits.
            IsTrue fits → IsMet self.old self.new (use_of name.now depth is_length)) }
        ensures not_met { IfOk result (λ fits. IsFalse fits → met self.new ≡ met self.old) }
        ensures no_memory { OnErr result (met self.new ≡ met self.old) }
    {
        let key = Key::new(name.share()?);
        match self.seen.get(&key) {
            Some((other, kind)) => Ok(depth == *other && is_length == *kind),
            None => {
                self.seen.insert(key, (depth, is_length))?;
                Ok(true)
            }
        }
    }
}
