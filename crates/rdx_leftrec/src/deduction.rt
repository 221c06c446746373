// What follows by rules, in one pass over their parts.
ghost use Rattle.std.specs.Prelude.{◌≡◌, ◌<◌, ◌≤◌, ◌∷◌, ◌++◌, [], ℕ, false, length, replicate, take, slice_index, IfOk, OnOk};
ghost use Rattle.rdx_lang.specs.Members.{In};
ghost use Rattle.rdx_leftrec.specs.Inside.Deductions.{AddsTo, AreMarked, AreOccurrences};
ghost use Rattle.rdx_leftrec.specs.Inside.EmptyRules.{AreWithin, IsLeast, rules_of};
ghost use Rattle.rdx_leftrec.specs.Inside.Leads.{lists_of};
ghost use Rattle.rdx_leftrec.specs.Inside.Reach.{IsMarked};

use crate::empty::Rule;
use rdx_term::NoMemory;
use std::alloc::Global;

/// What is known of what follows.
#[derive(Drop)]
struct Deduction {
    /// Marks of places that follow.
    marks: Vec<bool>,
    /// The marked places whose rules are still to be looked at.
    pending: Vec<usize>,
    /// For each rule, how many of its first parts are known to be marked.
    ahead: Vec<usize>,
}

// No marks, for so many places.
pub(crate) fn no_marks(alloc: Global, size: usize) -> Result<Vec<bool>, NoMemory>
    ensures { IfOk result (λ v. v.items ≡ replicate size false) }
{
    Ok(vec![in alloc; false; size]?)
}

// No first parts, for so many rules.
fn zeros(alloc: Global, size: usize) -> Result<Vec<usize>, NoMemory>
    ensures { IfOk result (λ v. v.items ≡ replicate size 0) }
{
    Ok(vec![in alloc; 0; size]?)
}

// So many empty lists.
fn no_lists(alloc: Global, size: usize) -> Result<Vec<Vec<usize>>, NoMemory>
    ensures { IfOk result (λ v. lists_of v.items ≡ replicate size []) }
{
    let mut lists = Vec::new(alloc);
    for _ in 0..size {
        lists.push(Vec::new(alloc))?;
    }
    Ok(lists)
}

// Adds the number to the list.
fn add(list: &mut Vec<usize>, number: usize) -> Result<(), NoMemory>
    ensures { OnOk result (list.new.items ≡ list.old.items ++ number ∷ []) }
{
    list.push(number)?;
    Ok(())
}

// Adds the rule at this position to the lists of its parts.
fn add_rule(lists: &mut Vec<Vec<usize>>, index: usize, parts: &[usize]) -> Result<(), NoMemory>
    requires { (j : ℕ) → In j parts.now → j < length lists.old.items }
    ensures { OnOk result (AddsTo index parts.now (lists_of lists.old.items)
        (lists_of lists.new.items)) }
{
    for part in parts {
        add(&mut lists[*part], index)?;
    }
    Ok(())
}

// For each place, the positions of the rules that have it as a part.
fn occurrences(alloc: Global, rules: &[Rule], size: usize) -> Result<Vec<Vec<usize>>, NoMemory>
    requires { AreWithin (rules_of rules.now) size }
    ensures { IfOk result (λ v. AreOccurrences (rules_of rules.now) size (lists_of v.items)) }
{
    let mut lists = no_lists(alloc, size)?;
    for index in 0..rules.len() {
        add_rule(&mut lists, index, &rules[index].parts)?;
    }
    Ok(lists)
}

// How many of the first parts are marked, where so many are known to be.
fn marked_parts(marks: &[bool], parts: &[usize], known: usize) -> usize
    requires inside { (j : ℕ) → In j parts.now → j < length marks.now }
    requires known { known ≤ length parts.now }
    requires marked { AreMarked marks.now (take known parts.now) }
    ensures most { result ≤ length parts.now }
    ensures marked { AreMarked marks.now (take result parts.now) }
    ensures next { result < length parts.now →
        ¬ IsMarked marks.now (slice_index parts.now result) }
{
    let mut count = known;
    while count < parts.len() && marks[parts[count]] {
        count += 1;
    }
    count
}

impl Deduction {
    ghost use Rattle.std.specs.Prelude.{◌<◌};
    ghost use Rattle.rdx_leftrec.specs.Inside.Deductions.{AreAhead, IsDeduction, Settles};
    ghost use Rattle.rdx_leftrec.specs.Inside.Marking.{waiting};
    ghost use Rattle.rdx_leftrec.specs.Inside.EmptyRules as view;
    ghost use Rattle.rdx_leftrec.specs.Inside.Lists.{At, Nothing};
    ghost use Rattle.rdx_leftrec.specs.Inside.Marking as model;

    // Marks a place, and keeps it for later, unless it is marked.
    fn mark(&mut self, place: usize) -> Result<(), NoMemory>
        requires { place < length self.old.marks.items }
        ensures marks { OnOk result (model.marking self.new.marks.items self.new.pending.items ≡
            model.mark (model.marking self.old.marks.items self.old.pending.items) place) }
        ensures ahead { self.new.ahead ≡ self.old.ahead }
    {
        if self.marks[place] {
            return Ok(());
        }
        self.marks[place] = true;
        self.pending.push(place)?;
        Ok(())
    }

    // Looks at the rule at this position: where all its parts are marked, its whole is.
    fn settle(&mut self, rules: &[Rule], index: usize) -> Result<(), NoMemory>
        requires inside { index < length rules.now }
        requires rules { AreWithin (rules_of rules.now) (length self.old.marks.items) }
        requires ahead { AreAhead (rules_of rules.now) self.old.marks.items self.old.ahead.items }
        ensures ahead { OnOk result (AreAhead (rules_of rules.now) self.new.marks.items
            self.new.ahead.items) }
        ensures settles { OnOk result ((r : view.Rule) → At (rules_of rules.now) index r →
            Settles r (model.marking self.old.marks.items self.old.pending.items)
            (model.marking self.new.marks.items self.new.pending.items)) }
    {
        let rule = &rules[index];
        let count = marked_parts(&self.marks, &rule.parts, self.ahead[index]);
        self.ahead[index] = count;
        if count < rule.parts.len() {
            return Ok(());
        }
        self.mark(rule.whole)?;
        Ok(())
    }

    // Looks at the rules at these positions.
    fn settle_all(&mut self, rules: &[Rule], indices: &[usize]) -> Result<(), NoMemory>
        requires inside { (i : ℕ) → In i indices.now → i < length rules.now }
        requires rules { AreWithin (rules_of rules.now) (length self.old.marks.items) }
        requires deduction { IsDeduction (rules_of rules.now) (length self.old.marks.items)
            (λ i. In i indices.now)
            (model.marking self.old.marks.items self.old.pending.items) self.old.ahead.items }
        ensures deduction { OnOk result (IsDeduction (rules_of rules.now)
            (length self.old.marks.items) Nothing
            (model.marking self.new.marks.items self.new.pending.items) self.new.ahead.items) }
        ensures balance { OnOk result (
            waiting (model.marking self.new.marks.items self.new.pending.items) ≡
            waiting (model.marking self.old.marks.items self.old.pending.items)) }
    {
        for index in indices {
            self.settle(rules, *index)?;
        }
        Ok(())
    }
}

/// Marks of the places that follow by the rules, and of no others.
pub(crate) fn least_marks(alloc: Global, rules: &[Rule], size: usize) -> Result<Vec<bool>, NoMemory>
    requires { AreWithin (rules_of rules.now) size }
    ensures { IfOk result (λ v. IsLeast (rules_of rules.now) size v.items) }
{
    let occurrences = occurrences(alloc, rules, size)?;
    let mut deduction = Deduction {
        marks: no_marks(alloc, size)?,
        pending: Vec::new(alloc),
        ahead: zeros(alloc, rules.len())?,
    };
    for index in 0..rules.len() {
        deduction.settle(rules, index)?;
    }
    while let Some(place) = deduction.pending.pop() {
        deduction.settle_all(rules, &occurrences[place])?;
    }
    Ok(deduction.marks)
}
