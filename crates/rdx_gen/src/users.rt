// The places of the nonterminals that mention one.
ghost use Rattle.std.specs.Prelude.{◌≡◌, ◌<◌, ℕ, true, [], IfOk, OnOk, length, map, replicate};
ghost use Rattle.rdx_lang.specs.Checked.{language_in};
ghost use Rattle.rdx_lang.specs.Members.{In};
ghost use Rattle.rdx_lang.specs.declared.pattern.Ref as reference;
ghost use Rattle.rdx_gen.specs.Inside.Places.{AreUsers, list_at, lists_of, place_of};

use crate::mentioned::add_all_mentioned;
use crate::nonterminals::Nonterminals;
use rdx_lang::Ref;
use rdx_term::NoMemory;
use std::alloc::Global;

// So many empty lists.
fn no_lists(alloc: Global, size: usize) -> Result<Vec<Vec<usize>>, NoMemory>
    ensures { IfOk result (λ v. lists_of v.items ≡ replicate size []) }
{
    let mut lists = Vec::new(alloc);
    for _ in 0..size {
        lists.push(Vec::new(alloc))?;
    }
    Ok(lists)
}

// Whether the number is the last of the list.
fn ends_with(list: &[usize], number: usize) -> bool
    ensures { result ≡ true → In number list.now }
{
    if list.is_empty() {
        return false;
    }
    list[list.len() - 1] == number
}

// Adds the number to the list, unless it is the last one.
fn add_once(list: &mut Vec<usize>, number: usize) -> Result<(), NoMemory>
    ensures here { OnOk result (In number list.new.items) }
    ensures kept { OnOk result ((j : ℕ) → In j list.old.items → In j list.new.items) }
{
    if ends_with(list, number) {
        return Ok(());
    }
    list.push(number)?;
    Ok(())
}

// Adds the number to the list at this place, if there is one.
fn add_at(lists: &mut Vec<Vec<usize>>, place: usize, number: usize) -> Result<(), NoMemory>
    ensures size { length lists.new.items ≡ length lists.old.items }
    ensures here { OnOk result (place < length lists.old.items →
        In number (list_at (lists_of lists.new.items) place)) }
    ensures kept { OnOk result ((i j : ℕ) → In j (list_at (lists_of lists.old.items) i) →
        In j (list_at (lists_of lists.new.items) i)) }
{
    if place < lists.len() {
        add_once(&mut lists[place], number)?;
    }
    Ok(())
}

// Adds the definition at this place to the lists of the nonterminals that it mentions.
fn add_user(
    nonterminals: &Nonterminals<'_>,
    user: usize,
    names: &[&Ref],
    users: &mut Vec<Vec<usize>>,
) -> Result<(), NoMemory>
    ensures size { length users.new.items ≡ length users.old.items }
    ensures here { OnOk result ((x : reference.Ref) → In x (map (λ r. r.now) names.now) →
        place_of (language_in nonterminals.now.language.now) x < length users.old.items →
        In user (list_at (lists_of users.new.items)
        (place_of (language_in nonterminals.now.language.now) x))) }
    ensures kept { OnOk result ((i j : ℕ) → In j (list_at (lists_of users.old.items) i) →
        In j (list_at (lists_of users.new.items) i)) }
{
    for name in names {
        add_at(users, nonterminals.place(name), user)?;
    }
    Ok(())
}

/// For each nonterminal, the places of those whose alternatives mention it.
pub(crate) fn users_of(
    alloc: Global,
    nonterminals: &Nonterminals<'_>,
) -> Result<Vec<Vec<usize>>, NoMemory>
    ensures { IfOk result (λ v. AreUsers (language_in nonterminals.now.language.now)
        (lists_of v.items)) }
{
    let definitions = &nonterminals.language.language().nts;
    let mut users = no_lists(alloc, definitions.len())?;
    for user in 0..definitions.len() {
        let mut names = Vec::new(alloc);
        add_all_mentioned(&definitions[user].1, &mut names)?;
        add_user(nonterminals, user, &names, &mut users)?;
    }
    Ok(users)
}
