// Names that are looked up by their texts.
ghost use Rattle.std.specs.HashSet.{contains_by};
ghost use Rattle.std.specs.Prelude.{◌≡◌, ℕ, List, IfOk, bytes_eq, map};
ghost use Rattle.rdx_lang.specs.Rules.{is_one_of};

use rdx_term::{Name, NoMemory};
use std::alloc::Global;
use std::collections::HashSet;

// The texts of names.
fn texts_of<'a>(alloc: Global, names: &[&'a Name]) -> Result<HashSet<&'a str>, NoMemory>
    ensures { IfOk result (λ s. (x : List ℕ) →
        contains_by (λ k. bytes_eq x k.now) s ≡ is_one_of (map (λ r. r.now) names.now) x) }
{
    let mut texts = HashSet::new(alloc);
    for i in (0..names.len()).rev() {
        texts.insert(names[i].text())?;
    }
    Ok(texts)
}

/// Names that stand in a pattern, to be looked up by their texts.
#[derive(Drop)]
pub(crate) struct NameSet<'a> {
    pub(crate) names: Vec<&'a Name>,
    texts: HashSet<&'a str>,
    ghost exact: { (x : List ℕ) →
        contains_by (λ k. bytes_eq x k.now) texts ≡ is_one_of (map (λ r. r.now) names.items) x },
}

impl<'a> NameSet<'a> {
    /// These names.
    pub(crate) fn new(alloc: Global, names: Vec<&'a Name>) -> Result<NameSet<'a>, NoMemory>
        ensures { IfOk result (λ s. s.names.items ≡ names.entry.items) }
    {
        let texts = texts_of(alloc, &names)?;
        Ok(NameSet { names, texts })
    }

    /// Whether the name is one of them.
    pub(crate) fn contains(&self, name: &Name) -> bool
        ensures { result ≡ is_one_of (map (λ r. r.now) self.now.names.items) name.now }
    {
        self.texts.contains(name.text())
    }
}
