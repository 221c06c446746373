// Paths from the root of a term to parts of it, as a tree.
ghost use Rattle.std.specs.Prelude.{◌≡◌, ◌⊎◌, ◌↔◌, [], ℕ, List, IfOk, IsTrue, OnOk};
ghost use Rattle.rdx_lang.specs.Collecting.{Adds, HasExactly};
ghost use Rattle.rdx_direct.specs.Inside.Paths.{AreBoth, AreKeptAnd, GoesBehind, IsTaken, LeadAlike};
ghost use Rattle.rdx_direct.specs.Inside.Paths.{Leads, LeadsIn, LeadsWithin, NoPaths, paths_in};

use crate::halt::Halt;
use crate::room::{Fuel, Room, spend};
use rdx_term::NoMemory;
use std::alloc::Global;

// How many steps it takes to put paths together of which some begin alike. They do where a grammar is
// ambiguous, and then there may be many.
const ALIKE: usize = 50;

/// Paths from the root of a term to parts of it, each once. Those that begin alike share what they
/// begin with, so that one list more around the term takes no time, however many paths there are.
#[cycle(paths)]
#[derive(Drop)]
pub(crate) struct Paths {
    // Whether the path to the root itself is among them.
    here: bool,
    // The others, by the place of the item into which they lead, ascending.
    inside: Vec<Branch>,
}

/// The paths that lead into one item of a list.
#[cycle(paths)]
#[derive(Drop)]
struct Branch {
    // The place of the item in the list, from 0.
    place: usize,
    // The paths from the item on.
    paths: Paths,
}

impl Paths {
    /// No path.
    pub(crate) fn none(alloc: Global) -> Paths
        ensures { NoPaths result }
    {
        Paths {
            here: false,
            inside: Vec::new(alloc),
        }
    }

    /// The path to the root alone.
    pub(crate) fn root(alloc: Global) -> Paths
        ensures { (w : List ℕ) → Leads result w ↔ (w ≡ []) }
    {
        Paths {
            here: true,
            inside: Vec::new(alloc),
        }
    }

    /// Whether there is no path.
    pub(crate) fn is_empty(&self) -> bool
        ensures { IsTrue result → NoPaths self.now }
    {
        !self.here && self.inside.is_empty()
    }

    /// The same paths of a list that has the term at this place.
    pub(crate) fn within(self, alloc: Global, place: usize) -> Result<Paths, NoMemory>
        ensures { IfOk result (λ r. (w : List ℕ) → Leads r w ↔ LeadsWithin place self w) }
    {
        if self.is_empty() {
            return Ok(self);
        }
        let mut inside = Vec::with_capacity(alloc, 1)?;
        inside.push(Branch { place, paths: self })?;
        Ok(Paths {
            here: false,
            inside,
        })
    }

    /// These and others.
    #[inline(never)]
    pub(crate) fn and(
        self,
        alloc: Global,
        more: Paths,
        room: Room,
        fuel: &mut Fuel,
    ) -> Result<Paths, Halt>
        ensures { IfOk result (AreBoth self more) }
    {
        if more.is_empty() {
            return Ok(self);
        }
        if self.is_empty() {
            return Ok(more);
        }
        self.joined(alloc, more, room, fuel)
    }

    /// These where this is so, and others.
    pub(crate) fn kept_and(
        self,
        alloc: Global,
        so: bool,
        more: Paths,
        room: Room,
        fuel: &mut Fuel,
    ) -> Result<Paths, Halt>
        ensures { IfOk result (AreKeptAnd so self more) }
    {
        if so {
            self.and(alloc, more, room, fuel)
        } else {
            Ok(more)
        }
    }

    // These and others, where none of both may be empty.
    #[cycle(joined)]
    #[inline(never)]
    fn joined(self, alloc: Global, more: Paths, room: Room, fuel: &mut Fuel) -> Result<Paths, Halt>
        ensures { IfOk result (AreBoth self more) }
    {
        let inside = joined_branches(alloc, self.inside, more.inside, room.inside()?, fuel)?;
        Ok(Paths {
            here: self.here | more.here,
            inside,
        })
    }

    /// All of them, each by its places from the root on; a path before those that go on from its end,
    /// and else by the first places that differ.
    pub(crate) fn listed(&self, alloc: Global) -> Result<Vec<Vec<usize>>, Halt>
        ensures { IfOk result (λ found. HasExactly (paths_in found.items) (Leads self.now)) }
    {
        let mut path = Vec::new(alloc);
        let mut found = Vec::new(alloc);
        self.list_behind(alloc, &mut path, Room::whole(), &mut found)?;
        Ok(found)
    }

    // The same, behind a path that leads to the root.
    #[cycle(list)]
    fn list_behind(
        &self,
        alloc: Global,
        path: &mut Vec<usize>,
        room: Room,
        found: &mut Vec<Vec<usize>>,
    ) -> Result<(), Halt>
        ensures path { OnOk result (path.new.items ≡ path.old.items) }
        ensures found { OnOk result (Adds (GoesBehind path.old.items self.now)
            (paths_in found.old.items) (paths_in found.new.items)) }
    {
        if self.here {
            let mut copy = Vec::with_capacity(alloc, path.len())?;
            copy.extend_from_slice(path)?;
            found.push(copy)?;
        }
        let inside = room.inside()?;
        for branch in &self.inside {
            path.push(branch.place)?;
            branch.paths.list_behind(alloc, path, inside, found)?;
            path.pop();
        }
        Ok(())
    }
}

// Takes the last of the branches, if it is the one into this place.
fn take_same(branches: &mut Vec<Branch>, place: usize) -> Option<Branch>
    ensures { IsTaken place branches.old.items branches.new.items result }
{
    if branches.is_empty() || branches[branches.len() - 1].place != place {
        return None;
    }
    branches.pop()
}

// Moves the last of the branches, as long as they lead into a later place than this one.
fn move_later(
    branches: &mut Vec<Branch>,
    place: usize,
    moved: &mut Vec<Branch>,
) -> Result<(), NoMemory>
    ensures { OnOk result (LeadAlike moved.new.items branches.new.items
        moved.old.items branches.old.items) }
{
    while !branches.is_empty() && branches[branches.len() - 1].place > place {
        let Some(branch) = branches.pop() else {
            return Ok(());
        };
        moved.push(branch)?;
    }
    Ok(())
}

// Whether all of the first branches lead into earlier places than the others.
fn are_apart(firsts: &[Branch], others: &[Branch]) -> bool {
    match (firsts.last(), others.first()) {
        (Some(last), Some(first)) => last.place < first.place,
        (Some(_), None) | (None, Some(_)) | (None, None) => true,
    }
}

// The branches of both lists, ascending as they are.
#[cycle(joined)]
fn joined_branches(
    alloc: Global,
    firsts: Vec<Branch>,
    others: Vec<Branch>,
    room: Room,
    fuel: &mut Fuel,
) -> Result<Vec<Branch>, Halt>
    ensures { IfOk result (λ r. (w : List ℕ) → LeadsIn r.items w
        ↔ (LeadsIn firsts.items w ⊎ LeadsIn others.items w)) }
{
    let mut left = firsts;
    let mut right = others;
    if are_apart(&left, &right) {
        left.append(&mut right)?;
        return Ok(left);
    }
    spend(fuel, ALIKE)?;
    let mut found = Vec::with_capacity(alloc, left.len())?;
    while let Some(branch) = right.pop() {
        move_later(&mut left, branch.place, &mut found)?;
        let both = match take_same(&mut left, branch.place) {
            Some(same) => Branch {
                place: branch.place,
                paths: same.paths.joined(alloc, branch.paths, room, fuel)?,
            },
            None => branch,
        };
        found.push(both)?;
    }
    while let Some(branch) = left.pop() {
        found.push(branch)?;
    }
    found.reverse();
    Ok(found)
}
