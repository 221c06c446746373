// What the whole file defines.
ghost use Rattle.std.specs.Prelude.{IfOk};
ghost use Rattle.std.specs.BTreeMap.{get_by_text};
ghost use Rattle.rdx_lang.specs.Model.Places.{FindsPlaces};

use rdx_term::{Name, NoMemory};
use std::alloc::Global;
use std::collections::BTreeMap;
use std::string::String;

/// What the forms of a file define in all of it, be it before them or behind.
#[derive(Drop)]
pub struct Scope {
    /// The names of metafunctions, in the order of their forms.
    pub metafunctions: Vec<Name>,
    /// The names of judgements with their modes, each mode by whether an argument is an input, in the
    /// order of their forms. Of several with one name the first counts.
    pub judgements: Vec<(Name, Vec<bool>)>,
    // For each name the place of the first metafunction that has it.
    functions_at: BTreeMap<String, usize>,
    // The same of judgements.
    judgements_at: BTreeMap<String, usize>,
    ghost finds_functions: { FindsPlaces (λ n. n) (get_by_text functions_at) 0 metafunctions.items },
    ghost finds_judgements: { FindsPlaces (λ j. j.0) (get_by_text judgements_at) 0 judgements.items },
}

// The places of these names, of each that of the first.
fn places_of(alloc: Global, names: &[Name]) -> Result<BTreeMap<String, usize>, NoMemory>
    ensures { IfOk result (λ places. FindsPlaces (λ n. n) (get_by_text places) 0 names.now) }
{
    let mut places = BTreeMap::new(alloc);
    for place in (0..names.len()).rev() {
        places.insert(String::from_str(alloc, names[place].text())?, place)?;
    }
    Ok(places)
}

// The places of these judgements by their names, of each that of the first.
fn judgement_places(
    alloc: Global,
    judgements: &[(Name, Vec<bool>)],
) -> Result<BTreeMap<String, usize>, NoMemory>
    ensures { IfOk result (λ places. FindsPlaces (λ j. j.0) (get_by_text places) 0 judgements.now) }
{
    let mut places = BTreeMap::new(alloc);
    for place in (0..judgements.len()).rev() {
        places.insert(String::from_str(alloc, judgements[place].0.text())?, place)?;
    }
    Ok(places)
}

impl Scope {
    ghost use Rattle.std.specs.Prelude.{◌≡◌, IfSome, is_some, option_map};
    ghost use Rattle.rdx_templates.specs.Scope as model;

    /// The scope of these metafunctions and judgements.
    pub fn new(
        alloc: Global,
        metafunctions: Vec<Name>,
        judgements: Vec<(Name, Vec<bool>)>,
    ) -> Result<Scope, NoMemory>
        ensures metafunctions { IfOk result (λ s.
            s.metafunctions.items ≡ metafunctions.items) }
        ensures judgements { IfOk result (λ s. s.judgements.items ≡ judgements.items) }
    {
        let functions_at = places_of(alloc, &metafunctions)?;
        let judgements_at = judgement_places(alloc, &judgements)?;
        Ok(Scope {
            metafunctions,
            judgements,
            functions_at,
            judgements_at,
        })
    }

    /// The first metafunction of this name, where there is one.
    pub fn metafunction(&self, text: &str) -> Option<&Name>
        ensures some { is_some result ≡ model.has_metafunction (model.scope_of self.now) text.now }
        ensures name { IfSome result (λ f. f.now ≡ text.now) }
    {
        match self.functions_at.get(text) {
            Some(place) => Some(&self.metafunctions[*place]),
            None => None,
        }
    }

    /// The first judgement of this name with its mode, where there is one.
    pub fn judgement(&self, text: &str) -> Option<&(Name, Vec<bool>)>
        ensures mode { option_map (λ j. j.now.1.items) result
            ≡ model.mode_of (model.scope_of self.now) text.now }
        ensures name { IfSome result (λ j. j.now.0 ≡ text.now) }
    {
        match self.judgements_at.get(text) {
            Some(place) => Some(&self.judgements[*place]),
            None => None,
        }
    }
}
