// The places of a pattern, by their names.
ghost use Rattle.std.specs.Prelude.{◌≡◌, ◌<◌, ℕ, List, IfOk, OnOk, length, map, replicate, slice_index_or, slice_set};
ghost use Rattle.rdx_gen.specs.PlaceView.{place_of};
ghost use Rattle.rdx_gen.specs.Inside.Groups as model;

use crate::alike::is_alike;
use crate::group::Group;
use crate::place::Place;
use rdx_term::{Name, NoMemory};
use std::alloc::Global;
use std::collections::HashMap;

// The numbers of the first places of names.
fn index_of<'a>(alloc: Global, all: &[Place<'a>]) -> Result<HashMap<&'a str, usize>, NoMemory>
    ensures { IfOk result (λ m. (x : List ℕ) → model.number_in m (length all.now) x
        ≡ model.first_place x (map place_of all.now)) }
{
    let mut index = HashMap::new(alloc);
    for number in (0..all.len()).rev() {
        let name = all[number].name;
        index.insert(name.text(), number)?;
    }
    Ok(index)
}

// The number of a name; `none` where it has none.
fn number_of(index: &HashMap<&str, usize>, name: &Name, none: usize) -> usize
    ensures { result ≡ model.number_in index.now none name.now }
{
    index.get(name.text()).copied().unwrap_or(none)
}

// For each place, the number of the first one of its name.
fn first_places(alloc: Global, all: &[Place]) -> Result<Vec<usize>, NoMemory>
    ensures { IfOk result (λ v. v.items
        ≡ map (λ u. model.first_place (place_of u).name (map place_of all.now)) all.now) }
{
    let index = index_of(alloc, all)?;
    let mut firsts = Vec::new(alloc);
    for place in all {
        firsts.push(number_of(&index, place.name, all.len()))?;
    }
    Ok(firsts)
}

// What a group is with one place more, where the first of the name is known.
fn with_place(group: Group, first: &Place, place: &Place) -> Group
    ensures { result ≡ model.with_place (place_of first.now).part (place_of place.now) group }
{
    Group {
        seen: true,
        several: group.several || group.seen,
        inside: group.inside || place.repeated || place.left,
        differs: group.differs || !is_alike(first.part, place.part),
    }
}

// Takes a place into the group at the number of the first one of its name.
fn add_place(groups: &mut Vec<Group>, first: usize, all: &[Place], place: &Place)
    requires first_in { first < length all.now }
    requires group_in { first < length groups.old.items }
    ensures { groups.new.items ≡ slice_set groups.old.items first (model.with_place
        (place_of (slice_index_or all.now first place.now)).part (place_of place.now)
        (slice_index_or groups.old.items first model.no_group)) }
{
    groups[first] = with_place(groups[first], &all[first], place);
}

// The groups of names, each at the number of the first place of the name.
fn gather(alloc: Global, all: &[Place], firsts: &[usize]) -> Result<Vec<Group>, NoMemory>
    requires { firsts.now
        ≡ map (λ u. model.first_place (place_of u).name (map place_of all.now)) all.now }
    ensures size { IfOk result (λ v. length v.items ≡ length all.now) }
    ensures groups { IfOk result (λ v. (x : List ℕ) →
        slice_index_or v.items (model.first_place x (map place_of all.now)) model.no_group
        ≡ model.gathered x (model.first_part x (map place_of all.now)) model.no_group
        (map place_of all.now)) }
{
    let none = Group {
        seen: false,
        several: false,
        inside: false,
        differs: false,
    };
    let mut groups = vec![in alloc; none; all.len()]?;
    for i in 0..all.len() {
        add_place(&mut groups, firsts[i], all, &all[i]);
    }
    Ok(groups)
}

// The group at this number.
fn group_at(groups: &[Group], number: usize) -> Group
    ensures { result ≡ slice_index_or groups.now number model.no_group }
{
    if number < groups.len() {
        groups[number]
    } else {
        Group {
            seen: false,
            several: false,
            inside: false,
            differs: false,
        }
    }
}

/// For each place, what those of its name have in common.
pub(crate) fn groups_of(alloc: Global, all: &[Place]) -> Result<Vec<Group>, NoMemory>
    ensures { IfOk result (λ v. v.items
        ≡ map (λ u. model.group_of (map place_of all.now) (place_of u)) all.now) }
{
    let firsts = first_places(alloc, all)?;
    let groups = gather(alloc, all, &firsts)?;
    let mut out = Vec::new(alloc);
    for first in &firsts {
        out.push(group_at(&groups, *first))?;
    }
    Ok(out)
}
