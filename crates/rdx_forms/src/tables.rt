// Tables by which what a file defines is found by its name.
ghost use Rattle.std.specs.Prelude.{◌≡◌, ◌<◌, ℕ, List, [], ◌∷◌, ◌++◌, map, length, IfOk, OnOk, OnErr};
ghost use Rattle.std.specs.Vec.{vec_capacity, vec_len};
ghost use Rattle.rdx_forms.specs.Model.Tabled.{AreTabled, FindsFirsts};
ghost use Rattle.rdx_forms.specs.Known.{empty_program};

use rdx_patterns::Names;
use rdx_term::{Name, NoMemory};
use std::alloc::Global;
use std::collections::BTreeMap;
use std::rc::RcStr;

/// The names of what is defined, of each kind, each with the first place at which it stands in the
/// program, and those of nonterminals.
#[derive(Drop)]
pub(crate) struct Tables {
    pub(crate) languages: BTreeMap<String, usize>,
    pub(crate) metafunctions: BTreeMap<String, usize>,
    pub(crate) judgements: BTreeMap<String, usize>,
    pub(crate) relations: BTreeMap<String, usize>,
    /// Those of the judgements of the whole file, by their places among them.
    pub(crate) asked: BTreeMap<String, usize>,
    /// The names of each language's nonterminals, in the order of the languages.
    pub(crate) nonterminals: Vec<Names>,
}

/// Puts the text behind others, of which there are so many. Where memory is wanting, no text is put
/// there.
pub(crate) fn add_text(
    alloc: Global,
    firsts: &mut BTreeMap<String, usize>,
    text: &str,
    place: usize,
) -> Result<(), NoMemory>
    ensures added { OnOk result ((xs : List (List ℕ)) → length xs ≡ place
        → FindsFirsts firsts.old xs → FindsFirsts firsts.new (xs ++ text.now ∷ [])) }
    ensures kept { OnErr result ((xs : List (List ℕ))
        → FindsFirsts firsts.old xs → FindsFirsts firsts.new xs) }
{
    if firsts.contains_key(text) {
        return Ok(());
    }
    let key = String::from_str(alloc, text)?;
    firsts.insert(key, place)?;
    Ok(())
}

/// Makes room for one more of these that are defined, and puts its name behind theirs. Where memory
/// is wanting, no name is put there.
pub(crate) fn make_room<T>(
    alloc: Global,
    defined: &mut Vec<T>,
    firsts: &mut BTreeMap<String, usize>,
    name: &str,
) -> Result<(), NoMemory>
    ensures room { OnOk result (vec_len defined.new < vec_capacity defined.new) }
    ensures same { defined.new.items ≡ defined.old.items }
    ensures added { OnOk result ((xs : List (List ℕ)) → length xs ≡ length defined.old.items
        → FindsFirsts firsts.old xs → FindsFirsts firsts.new (xs ++ name.now ∷ [])) }
    ensures kept { OnErr result ((xs : List (List ℕ))
        → FindsFirsts firsts.old xs → FindsFirsts firsts.new xs) }
{
    defined.reserve(1)?;
    add_text(alloc, firsts, name, defined.len())
}

// The names of judgements by their places.
fn asked_table(alloc: Global, pairs: &[(Name, RcStr)]) -> Result<BTreeMap<String, usize>, NoMemory>
    ensures { IfOk result (λ firsts. FindsFirsts firsts (map (λ p. p.0) pairs.now)) }
{
    let mut firsts = BTreeMap::new(alloc);
    for place in 0..pairs.len() {
        add_text(alloc, &mut firsts, pairs[place].0.text(), place)?;
    }
    Ok(firsts)
}

impl Tables {
    /// The tables where nothing is defined, in a file of judgements with these languages.
    pub(crate) fn new(alloc: Global, pairs: &[(Name, RcStr)]) -> Result<Tables, NoMemory>
        ensures tabled { IfOk result (λ tables. AreTabled tables empty_program) }
        ensures asked { IfOk result (λ tables. FindsFirsts tables.asked
            (map (λ p. p.0) pairs.now)) }
    {
        Ok(Tables {
            languages: BTreeMap::new(alloc),
            metafunctions: BTreeMap::new(alloc),
            judgements: BTreeMap::new(alloc),
            relations: BTreeMap::new(alloc),
            asked: asked_table(alloc, pairs)?,
            nonterminals: Vec::new(alloc),
        })
    }
}
