// What nonterminals may do: marks that say of each at least what its alternatives may do by them.
ghost use Rattle.std.specs.Prelude.{◌≡◌, ◌<◌, length, IsTrue, IfOk, IfSome};
ghost use Rattle.rdx_lang.specs.PatternView.{patterns_of, language_of};
ghost use Rattle.rdx_facts.specs.Inside.Flags as model;

use crate::flags;
use crate::patterns::{nonterminal_may, pattern_may};
use rdx_lang::{Language, May, Pat};
use rdx_term::NoMemory;
use std::alloc::Global;

// Whether `bound` is at least what each of these patterns may do.
fn are_within(language: &Language, marks: &[May], pats: &[Pat], bound: May) -> bool
    ensures { result ≡ model.are_within (model.may_by (language_of language.now) marks.now)
        (patterns_of pats.now) bound }
{
    for pat in pats {
        if !flags::is_within(pattern_may(language, marks, pat), bound) {
            return false;
        }
    }
    true
}

// Whether the marks say of each nonterminal at least what its alternatives may do by them.
fn is_closed(language: &Language, marks: &[May]) -> bool
    ensures { result ≡ model.is_closed (model.may_by (language_of language.now) marks.now)
        (language_of language.now).nonterminals }
{
    for (name, alternatives) in &language.nts {
        let bound = nonterminal_may(language, marks, name);
        if !are_within(language, marks, alternatives, bound) {
            return false;
        }
    }
    true
}

// What one of the patterns may do, or what was marked before.
fn any_may(language: &Language, marks: &[May], pats: &[Pat], before: May) -> May {
    let mut may = before;
    for pat in pats {
        may = flags::either(may, pattern_may(language, marks, pat));
    }
    may
}

// Marks what the alternatives of the nonterminal at this place may do by the marks so far; whether
// that is more than before.
fn mark(language: &Language, marks: &mut Vec<May>, place: usize) -> bool
    requires { place < length language.now.nts.items }
    ensures { length marks.new.items ≡ length marks.old.items }
{
    if place >= marks.len() {
        return false;
    }
    let before = marks[place];
    let after = any_may(language, marks, &language.nts[place].1, before);
    marks[place] = after;
    !flags::is_within(after, before)
}

// Marks all nonterminals, from the first to the last; whether one may do more than before.
fn mark_forth(language: &Language, marks: &mut Vec<May>) -> bool {
    let mut more = false;
    for place in 0..language.nts.len() {
        more |= mark(language, marks, place);
    }
    more
}

// Marks all nonterminals, from the last to the first; whether one may do more than before.
fn mark_back(language: &Language, marks: &mut Vec<May>) -> bool {
    let mut more = false;
    for place in (0..language.nts.len()).rev() {
        more |= mark(language, marks, place);
    }
    more
}

// Marks all nonterminals until none may do more than before, or until it was done so often that
// something must be wrong.
fn mark_all(language: &Language, marks: &mut Vec<May>) {
    for _ in 0..=language.nts.len() {
        if !mark_forth(language, marks) || !mark_back(language, marks) {
            return;
        }
    }
}

// Marks that say of each nonterminal at least what its alternatives may do by them: the least, as
// far as they are found. None where they aren't.
pub(crate) fn closed_marks(alloc: Global, language: &Language) -> Result<Option<Vec<May>>, NoMemory>
    ensures { IfOk result (λ r. IfSome r (λ marks.
        IsTrue (model.is_closed (model.may_by (language_of language.now) marks.items)
        (language_of language.now).nonterminals))) }
{
    let mut marks = vec![in alloc; flags::nothing(); language.nts.len()]?;
    mark_all(language, &mut marks);
    if is_closed(language, &marks) {
        Ok(Some(marks))
    } else {
        Ok(None)
    }
}
