// Where the nonterminals of a language stand. Languages are lent for one call each, so what is kept
// of one is a hint: what stands at a place is compared before it is taken.
ghost use Rattle.std.specs.Prelude.{IfSome, map};
ghost use Rattle.rdx_lang.specs.Checked.{language_in};
ghost use Rattle.rdx_lang.specs.Members.{In};
ghost use Rattle.rdx_lang.specs.PatternView.{definition_of, patterns_of};
ghost use Rattle.rdx_lang.specs.Rules.{AreAlternatives};

use rdx_lang::{CheckedLang, Language, Pat, Ref};
use rdx_term::NoMemory;
use std::alloc::Global;
use std::collections::BTreeMap;

/// So many nonterminals are found sooner one by one than by their places.
pub const FEW: usize = 16;

// What nonterminals are put in order by: the text of a name, or the two of contexts.
fn key(name: &Ref) -> (&str, &str) {
    match name {
        Ref::Nt(name) => (name.text(), ""),
        Ref::Cross(from, to) => (from.text(), to.text()),
    }
}

// The key of the nonterminal at this place, if there is one.
fn key_at(nts: &[(Ref, Vec<Pat>)], place: usize) -> Option<(&str, &str)> {
    let (name, _) = nts.get(place)?;
    Some(key(name))
}

// The places of these nonterminals in the order of their keys.
fn in_order(alloc: Global, nts: &[(Ref, Vec<Pat>)]) -> Result<Vec<usize>, NoMemory> {
    let mut places = Vec::with_capacity(alloc, nts.len())?;
    for place in 0..nts.len() {
        places.push(place)?;
    }
    places.sort_unstable_by_key(|place| key_at(nts, *place));
    Ok(places)
}

/// The place that is found for the nonterminal among places in the order of their keys: a hint.
pub fn place_of(nts: &[(Ref, Vec<Pat>)], places: &[usize], name: &Ref) -> Option<usize> {
    let sought = Some(key(name));
    let found = places.binary_search_by_key(&sought, |place| key_at(nts, *place));
    Some(places[found.ok()?])
}

// The alternatives of the nonterminal, if it stands at this place.
fn defined_at<'a>(nts: &'a [(Ref, Vec<Pat>)], place: usize, name: &Ref) -> Option<&'a [Pat]>
    ensures { IfSome result (λ ps.
        In (name.now, patterns_of ps.now) (map definition_of nts.now)) }
{
    let (other, alternatives) = nts.get(place)?;
    if name.same(other) {
        Some(alternatives)
    } else {
        None
    }
}

/// The alternatives of a nonterminal; none where it isn't defined. Where the places don't lead to
/// it, they are sought along the whole language.
pub fn alternatives_at<'a>(language: &'a CheckedLang, places: &[usize], name: &Ref) -> &'a [Pat]
    ensures { AreAlternatives (language_in language.now) name.now (patterns_of result.now) }
{
    let nts = &language.language().nts;
    if nts.len() > FEW {
        if let Some(place) = place_of(nts, places, name) {
            if let Some(alternatives) = defined_at(nts, place, name) {
                return alternatives;
            }
        }
    }
    language.alternatives(name)
}

/// For the names of languages, the places of the nonterminals of the last one that was seen with
/// this name, in the order of their keys.
#[derive(Drop)]
pub struct Places {
    by_language: BTreeMap<String, Vec<usize>>,
}

impl Places {
    /// Those of no language.
    pub fn new(alloc: Global) -> Places {
        Places {
            by_language: BTreeMap::new(alloc),
        }
    }

    /// Has a language seen. Its places are put in order where there are none for its name, or those
    /// of another number of nonterminals, and they are not few.
    pub fn see(&mut self, alloc: Global, language: &Language) -> Result<(), NoMemory> {
        if language.nts.len() > FEW && self.of(language).len() != language.nts.len() {
            let places = in_order(alloc, &language.nts)?;
            let name = String::from_str(alloc, language.name.text())?;
            self.by_language.insert(name, places)?;
        }
        Ok(())
    }

    /// The places that are kept for a language of this name; none where its nonterminals are few.
    pub fn of(&self, language: &Language) -> &[usize] {
        if language.nts.len() <= FEW {
            return &[];
        }
        match self.by_language.get(language.name.text()) {
            Some(places) => places,
            None => &[],
        }
    }
}
