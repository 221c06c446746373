// What names and length names have that come again.
ghost use Rattle.std.specs.Prelude.{◌≡◌, IfOk, OnOk, IfSome, IfNone, option_map, Some, None, map};
ghost use Rattle.rdx_term.specs.View.{tree_of};
ghost use Rattle.rdx_lang.specs.Rules as rules_of;
ghost use Rattle.rdx_gen.specs.Generation as model;
ghost use Rattle.rdx_gen.specs.Outcomes.{found_for, made};
ghost use Rattle.rdx_gen.specs.Inside.Scopes.{notes_in};
ghost use Rattle.rdx_gen.specs.Views.{Says, state_of};

use crate::setting::Scope;
use crate::state::State;
use rdx_term::{Name, NoMemory, Term};

/// The term that a name has, if it has one.
#[inline(never)]
#[tactic(auto, using(crate::proofs::FoundNames::found_next, crate::proofs::FoundNames::found_further))]
pub(crate) fn had_term(state: &State, name: &Name) -> Result<Option<Term>, NoMemory>
    ensures { IfOk result
        (λ r. option_map tree_of r ≡ found_for name.now (state_of state.now).terms) }
{
    for (other, t) in &state.terms {
        if other.text() == name.text() {
            return Ok(Some(t.share()?));
        }
    }
    Ok(None)
}

/// Lets a name have a term from here on.
#[inline(never)]
pub(crate) fn keep_term(state: &mut State, name: &Name, t: &Term) -> Result<(), NoMemory>
    ensures { OnOk result (state_of state.new ≡ model.with_term name.now (tree_of t.now)
        (state_of state.old)) }
{
    let name = name.share()?;
    let t = t.share()?;
    state.terms.push((name, t))?;
    Ok(())
}

// The length that a length name has, if it has one.
#[tactic(auto, using(crate::proofs::FoundNames::found_next, crate::proofs::FoundNames::found_further))]
fn had_length(state: &State, name: &Name) -> Option<usize>
    ensures { result ≡ found_for name.now (state_of state.now).lengths }
{
    for (other, length) in &state.lengths {
        if other.text() == name.text() {
            return Some(*length);
        }
    }
    None
}

// Lets a length name have a length from here on.
fn keep_length(state: &mut State, name: &Name, length: usize) -> Result<(), NoMemory>
    ensures { OnOk result (state_of state.new ≡ model.with_length name.now length
        (state_of state.old)) }
{
    let name = name.share()?;
    state.lengths.push((name, length))?;
    Ok(())
}

// A new length of a repetition: none where its pattern has no height.
fn new_length(state: &mut State, hollow: bool, size: u32) -> usize
    ensures { Says (λ k. k) (model.new_length hollow size (state_of state.old)) (Ok result)
        (state_of state.new) }
{
    if hollow {
        return 0;
    }
    state.words.pick(size.min(3) as usize + 1)
}

impl Scope<'_> {
    /// Whether the name stands in the pattern more than once.
    pub(crate) fn comes_again(&self, name: &Name) -> bool
        ensures { result ≡ rules_of.is_one_of (notes_in self.now.notes).again name.now }
    {
        match self.notes {
            None => false,
            Some(notes) => notes.again.contains(name),
        }
    }

    // Whether the length name stands over a pattern without a height.
    fn stands_hollow(&self, name: &Name) -> bool
        ensures { result ≡ rules_of.is_one_of (notes_in self.now.notes).hollow name.now }
    {
        match self.notes {
            None => false,
            Some(notes) => notes.hollow.contains(name),
        }
    }

    // Whether a repetition of a pattern of this height has no items.
    fn is_hollow(&self, height: Option<usize>, length: &Option<Name>) -> bool
        ensures { result ≡ model.is_hollow (notes_in self.now.notes) height length.now }
    {
        match length {
            None => height.is_none(),
            Some(name) => height.is_none() || self.stands_hollow(name),
        }
    }

    /// A new length of a repetition of a pattern of this height.
    pub(crate) fn new_length(
        &self,
        height: Option<usize>,
        length: &Option<Name>,
        state: &mut State,
    ) -> usize
        ensures { Says (λ k. k)
            (model.new_length (model.is_hollow (notes_in self.now.notes) height length.now)
            self.now.size (state_of state.old)) (Ok result) (state_of state.new) }
    {
        new_length(state, self.is_hollow(height, length), self.size)
    }

    /// The length of a repetition of a pattern of this height.
    pub(crate) fn length_of(
        &self,
        height: Option<usize>,
        length: &Option<Name>,
        state: &mut State,
    ) -> Result<usize, NoMemory>
        ensures { IfOk result (λ k. model.length_of (notes_in self.now.notes) height length.now
            self.now.size (state_of state.old) ≡ made k (state_of state.new)) }
    {
        let hollow = self.is_hollow(height, length);
        let Some(name) = length else {
            return Ok(new_length(state, hollow, self.size));
        };
        if !self.comes_again(name) {
            return Ok(new_length(state, hollow, self.size));
        }
        if let Some(k) = had_length(state, name) {
            return Ok(k);
        }
        let k = new_length(state, hollow, self.size);
        keep_length(state, name, k)?;
        Ok(k)
    }
}
