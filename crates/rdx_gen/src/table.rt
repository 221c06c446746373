// The heights of the nonterminals of a language.
ghost use Rattle.std.specs.Prelude.{◌≡◌, ◌<◌, ◌++◌, ℕ, IfOk, OnOk, map, replicate, true, length, Vec};
ghost use Rattle.rdx_lang.specs.Checked.{language_in};
ghost use Rattle.rdx_lang.specs.Members.{In};
ghost use Rattle.rdx_lang.specs.PatternView.{pattern_of, patterns_of};
ghost use Rattle.rdx_gen.specs.Heights as model;
ghost use Rattle.rdx_gen.specs.Inside.Places.{AreUsers, list_at, lists_of};
ghost use Rattle.rdx_gen.specs.Inside.Waiting.{AreFound, AreRounded, IsNew, IsWoken, Marks, found_at, next_at, written};
ghost use Rattle.rdx_gen.specs.KnownView.{known_of};

use crate::height::Height;
use crate::heights::lesser;
use crate::known::Known;
use crate::marking::{mark_all, unmark};
use crate::nonterminals::Nonterminals;
use crate::users::users_of;
use rdx_lang::Pat;
use rdx_term::NoMemory;
use std::alloc::Global;

// One more.
fn one_more(height: Option<usize>) -> Result<Option<usize>, NoMemory>
    ensures { IfOk result (λ r. r ≡ model.one_more height) }
{
    match height {
        None => Ok(None),
        Some(n) => match n.checked_add(1) {
            Some(m) => Ok(Some(m)),
            None => Err(NoMemory),
        },
    }
}

impl Known<'_> {
    // The heights of a nonterminal with these alternatives.
    fn height_over(&self, pats: &[Pat]) -> Result<Height, NoMemory>
        ensures { IfOk result (λ h. h ≡ model.height_over (known_of self.now)
            (patterns_of pats.now)) }
    {
        let mut as_term = None;
        let mut as_context = None;
        for pat in pats {
            let height = self.pattern_heights(pat);
            as_term = lesser(as_term, height.as_term);
            as_context = lesser(as_context, height.as_context);
        }
        let as_term = one_more(as_term)?;
        let as_context = one_more(as_context)?;
        Ok(Height::new(as_term, as_context))
    }

    // The height of the nonterminal at this place, by those that are known.
    fn height_at(&self, place: usize) -> Result<Height, NoMemory>
        requires { place
            < length (language_in self.now.nonterminals.now.language.now).nonterminals }
        ensures { IfOk result (λ h. h ≡ next_at
            (language_in self.now.nonterminals.now.language.now) self.now.heights.now place) }
    {
        let definitions = &self.nonterminals.language.language().nts;
        Ok(self.height_over(&definitions[place].1)?)
    }

    // The height of the nonterminal at this place, where it is another one than the known one.
    fn new_height(&self, place: usize) -> Result<Option<Height>, NoMemory>
        requires { length self.now.heights.now
            ≡ length (language_in self.now.nonterminals.now.language.now).nonterminals }
        ensures { IfOk result (λ h. IsNew (language_in self.now.nonterminals.now.language.now)
            self.now.heights.now place h) }
    {
        if place >= self.heights.len() {
            return Ok(None);
        }
        let height = self.height_at(place)?;
        if height == self.heights[place] {
            Ok(None)
        } else {
            Ok(Some(height))
        }
    }

    // The heights at these places that are others than the known ones.
    fn new_heights(&self, alloc: Global, places: &[usize]) -> Result<Vec<(usize, Height)>, NoMemory>
        requires { length self.now.heights.now
            ≡ length (language_in self.now.nonterminals.now.language.now).nonterminals }
        ensures { IfOk result (λ v. AreFound (language_in self.now.nonterminals.now.language.now)
            self.now.heights.now places.now v.items) }
    {
        let mut found = Vec::new(alloc);
        for place in places {
            let height = self.new_height(*place)?;
            add_found(*place, height, &mut found)?;
        }
        Ok(found)
    }
}

// Puts what was found at the place behind the others.
fn add_found(
    place: usize,
    height: Option<Height>,
    found: &mut Vec<(usize, Height)>,
) -> Result<(), NoMemory>
    ensures { OnOk result (found.new.items ≡ found.old.items ++ found_at place height) }
{
    if let Some(height) = height {
        found.push((place, height))?;
    }
    Ok(())
}

// Writes what was found.
fn write(found: &[(usize, Height)], heights: &mut Vec<Height>)
    ensures { heights.new.items ≡ written heights.old.items found.now }
{
    for (place, height) in found {
        if *place < heights.len() {
            heights[*place] = *height;
        }
    }
}

// Marks the places of those that mention the nonterminal at this place.
fn wake_users(
    users: &[Vec<usize>],
    place: usize,
    waits: &mut Vec<bool>,
    waiting: &mut Vec<usize>,
) -> Result<(), NoMemory>
    ensures { OnOk result (Marks (λ j. In j (list_at (lists_of users.now) place))
        waits.old.items waits.new.items waiting.old.items waiting.new.items) }
{
    if place < users.len() {
        mark_all(&users[place], waits, waiting)?;
    }
    Ok(())
}

// Marks the places of those that mention one of which a height was found.
fn wake(
    users: &[Vec<usize>],
    found: &[(usize, Height)],
    waits: &mut Vec<bool>,
    waiting: &mut Vec<usize>,
) -> Result<(), NoMemory>
    ensures { OnOk result (Marks (IsWoken (lists_of users.now) found.now)
        waits.old.items waits.new.items waiting.old.items waiting.new.items) }
{
    for (place, _) in found {
        wake_users(users, *place, waits, waiting)?;
    }
    Ok(())
}

// All places.
fn all_places(alloc: Global, count: usize) -> Result<Vec<usize>, NoMemory>
    ensures { IfOk result (λ v. (j : ℕ) → j < count → In j v.items) }
{
    let mut places = Vec::new(alloc);
    for place in 0..count {
        places.push(place)?;
    }
    Ok(places)
}

// One round: looks at the nonterminals that wait, writes what is found, and marks those that
// mention one of which a height was found; these wait for the next round.
fn round(
    alloc: Global,
    nonterminals: &Nonterminals<'_>,
    users: &[Vec<usize>],
    heights: &mut Vec<Height>,
    waits: &mut Vec<bool>,
    waiting: &[usize],
) -> Result<Vec<usize>, NoMemory>
    requires users { AreUsers (language_in nonterminals.now.language.now) (lists_of users.now) }
    requires rounded { AreRounded (language_in nonterminals.now.language.now) heights.old.items
        waits.old.items waiting.now }
    ensures next { IfOk result (λ v. heights.new.items
        ≡ model.next_heights (language_in nonterminals.now.language.now) heights.old.items) }
    ensures rounded { IfOk result (λ v. AreRounded (language_in nonterminals.now.language.now)
        heights.new.items waits.new.items v.items) }
{
    let known = Known {
        nonterminals: &*nonterminals,
        heights: &*heights,
    };
    let found = known.new_heights(alloc, waiting)?;
    unmark(waiting, waits);
    write(&found, heights);
    let mut woken = Vec::new(alloc);
    wake(users, &found, waits, &mut woken)?;
    Ok(woken)
}

/// The heights of the nonterminals of a language, in its order.
pub(crate) fn heights_in(
    alloc: Global,
    nonterminals: &Nonterminals<'_>,
) -> Result<Vec<Height>, NoMemory>
    ensures { IfOk result (λ v. v.items
        ≡ model.heights_of (language_in nonterminals.now.language.now)) }
{
    let count = nonterminals.count();
    let users = users_of(alloc, nonterminals)?;
    let mut heights = vec![in alloc; Height::new(None, None); count]?;
    let mut waits = vec![in alloc; true; count]?;
    let mut waiting = all_places(alloc, count)?;
    let mut left = 2 * count;
    while left > 0 && !waiting.is_empty() {
        waiting = round(
            alloc,
            nonterminals,
            &users,
            &mut heights,
            &mut waits,
            &waiting,
        )?;
        left -= 1;
    }
    Ok(heights)
}
