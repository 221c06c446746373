// The places of the nonterminals of a language, looked up by what these go by.
ghost use Rattle.std.specs.Prelude.{◌≡◌, OnOk, IfOk, Some, cond, length, map};
ghost use Rattle.rdx_lang.specs.Checked.{language_in};
ghost use Rattle.rdx_lang.specs.PatternView.{definition_of};
ghost use Rattle.rdx_lang.specs.References.{is_same};
ghost use Rattle.rdx_lang.specs.WellFormed.{defined};
ghost use Rattle.rdx_lang.specs.declared.pattern.Ref as reference;
ghost use Rattle.rdx_gen.specs.Inside.Index.{found_in, place_in};
ghost use Rattle.rdx_gen.specs.Inside.Places as model;

use rdx_lang::{CheckedLang, Pat, Ref};
use rdx_term::NoMemory;
use std::alloc::Global;
use std::collections::HashMap;

// Places, by what nonterminals go by.
#[derive(Drop)]
struct Index<'a> {
    // Those of nonterminals with a name.
    texts: HashMap<&'a str, usize>,
    // Those of contexts from one to another.
    pairs: HashMap<(&'a str, &'a str), usize>,
}

impl<'a> Index<'a> {
    ghost use Rattle.std.specs.Prelude.{None};

    // No places.
    fn new(alloc: Global) -> Index<'a>
        ensures { (x : reference.Ref) → found_in result.texts result.pairs x ≡ None }
    {
        Index {
            texts: HashMap::new(alloc),
            pairs: HashMap::new(alloc),
        }
    }

    // Gives the nonterminal this place.
    fn insert(&mut self, name: &'a Ref, place: usize) -> Result<(), NoMemory>
        ensures { OnOk result ((x : reference.Ref) →
            found_in self.new.texts self.new.pairs x ≡ cond (is_same name.now x) (Some place)
            (found_in self.old.texts self.old.pairs x)) }
    {
        match name {
            Ref::Nt(name) => {
                self.texts.insert(name.text(), place)?;
            }
            Ref::Cross(from, to) => {
                self.pairs.insert((from.text(), to.text()), place)?;
            }
        }
        Ok(())
    }

    // The place of the nonterminal, if it has one.
    fn get(&self, name: &Ref) -> Option<usize>
        ensures { result ≡ found_in self.now.texts self.now.pairs name.now }
    {
        match name {
            Ref::Nt(name) => self.texts.get(name.text()).copied(),
            Ref::Cross(from, to) => self.pairs.get(&(from.text(), to.text())).copied(),
        }
    }
}

// The places of the nonterminals that are defined here: of each the first.
fn index_of<'a>(alloc: Global, definitions: &'a [(Ref, Vec<Pat>)]) -> Result<Index<'a>, NoMemory>
    ensures { IfOk result (λ i. (x : reference.Ref) →
        place_in i.texts i.pairs (length definitions.now) x
        ≡ model.place x (map (λ d. d.0) (map definition_of definitions.now))) }
{
    let mut index = Index::new(alloc);
    for place in (0..definitions.len()).rev() {
        index.insert(&definitions[place].0, place)?;
    }
    Ok(index)
}

/// A language, and the places of its nonterminals.
#[derive(Drop)]
pub(crate) struct Nonterminals<'a> {
    pub(crate) language: &'a CheckedLang,
    index: Index<'a>,
    ghost exact: { (x : reference.Ref) →
        place_in index.texts index.pairs (length (defined (language_in language.now))) x
        ≡ model.place x (defined (language_in language.now)) },
}

impl<'a> Nonterminals<'a> {
    /// Those of this language.
    pub(crate) fn new(
        alloc: Global,
        language: &'a CheckedLang,
    ) -> Result<Nonterminals<'a>, NoMemory>
        ensures { IfOk result (λ n. n.language.now ≡ language.now) }
    {
        let index = index_of(alloc, &language.language().nts)?;
        Ok(Nonterminals { language, index })
    }

    /// How many there are.
    pub(crate) fn count(&self) -> usize
        ensures { result ≡ length (language_in self.now.language.now).nonterminals }
    {
        self.language.language().nts.len()
    }

    /// The place of a nonterminal; how many the language has where it doesn't define it.
    pub(crate) fn place(&self, name: &Ref) -> usize
        ensures { result ≡ model.place name.now (defined (language_in self.now.language.now)) }
    {
        self.index.get(name).unwrap_or(self.count())
    }
}
