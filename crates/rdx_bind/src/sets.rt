// The sets of mismatch names put together: one pass over the names of both, and over the terms of a
// name that both have; and those of many bindings by halves.
ghost use Rattle.std.specs.Prelude.{◌≡◌, ◌∷◌, [], ◌++◌, drop, map, IfOk, IfSome, IfNone, OnOk};
ghost use Rattle.rdx_term.specs.Order.{tree_cmp};
ghost use Rattle.rdx_term.specs.View.{tree_of};
ghost use Rattle.rdx_lang.specs.Ascending.{IsAscending};
ghost use Rattle.rdx_lang.specs.Bindings.{name_cmp, AreSets};
ghost use Rattle.rdx_lang.specs.BindingView.{mismatch_of, mismatches_of};
ghost use Rattle.rdx_lang.specs.Collections.{AreSetsOf};
ghost use Rattle.rdx_lang.specs.Join.{JoinsSets};
ghost use Rattle.rdx_lang.specs.Shown.{bindings_of};
ghost use Rattle.rdx_bind.specs.Inside.TermSets.{AreTermsApart, JoinsTerms};

use rdx_lang::Binding;
use rdx_term::{Name, NoMemory, Term};
use std::alloc::Global;
use std::cmp::Ordering;

// Puts the term behind the others.
fn push_term(terms: &mut Vec<Term>, term: &Term) -> Result<(), NoMemory>
    ensures { OnOk result (map tree_of terms.new.items ≡ map tree_of terms.old.items ++ tree_of term.now ∷ []) }
{
    terms.push(term.share()?)?;
    Ok(())
}

// Puts all terms from this place on behind the others.
fn push_terms(terms: &mut Vec<Term>, all: &[Term], from: usize) -> Result<(), NoMemory>
    ensures { OnOk result (map tree_of terms.new.items
        ≡ map tree_of terms.old.items ++ map tree_of (drop from all.now)) }
{
    for i in from..all.len() {
        push_term(terms, &all[i])?;
    }
    Ok(())
}

// The terms of both sets; `None` exactly where they have a common one.
fn join_terms(alloc: Global, lefts: &[Term], rights: &[Term]) -> Result<Option<Vec<Term>>, NoMemory>
    requires left { IsAscending tree_cmp (map tree_of lefts.now) }
    requires right { IsAscending tree_cmp (map tree_of rights.now) }
    ensures some { IfOk result (λ r. IfSome r (λ ts.
        JoinsTerms (map tree_of lefts.now) (map tree_of rights.now) (map tree_of ts.items))) }
    ensures none { IfOk result (λ r. IfNone r (
        ¬ AreTermsApart (map tree_of lefts.now) (map tree_of rights.now))) }
{
    let mut terms = Vec::new(alloc);
    let mut i = 0;
    let mut j = 0;
    while i < lefts.len() && j < rights.len() {
        let left = &lefts[i];
        let right = &rights[j];
        match left.compare(right) {
            Ordering::Less => {
                push_term(&mut terms, left)?;
                i += 1;
            }
            Ordering::Greater => {
                push_term(&mut terms, right)?;
                j += 1;
            }
            Ordering::Equal => return Ok(None),
        }
    }
    push_terms(&mut terms, lefts, i)?;
    push_terms(&mut terms, rights, j)?;
    Ok(Some(terms))
}

// The order of two mismatch names.
fn compare_names(a: &(Name, Vec<Term>), b: &(Name, Vec<Term>)) -> Ordering
    ensures { result ≡ name_cmp a.now.0 b.now.0 }
{
    a.0.text().cmp(b.0.text())
}

// Puts the mismatch name with its set behind the others.
fn push_set(
    sets: &mut Vec<(Name, Vec<Term>)>,
    set: &(Name, Vec<Term>),
    alloc: Global,
) -> Result<(), NoMemory>
    ensures { OnOk result (mismatches_of sets.new.items
        ≡ mismatches_of sets.old.items ++ mismatch_of set.now ∷ []) }
{
    let mut terms = Vec::new(alloc);
    push_terms(&mut terms, &set.1, 0)?;
    sets.push((set.0.share()?, terms))?;
    Ok(())
}

// Puts all from this place on behind the others.
fn push_sets(
    sets: &mut Vec<(Name, Vec<Term>)>,
    all: &[(Name, Vec<Term>)],
    from: usize,
    alloc: Global,
) -> Result<(), NoMemory>
    ensures { OnOk result (mismatches_of sets.new.items
        ≡ mismatches_of sets.old.items ++ mismatches_of (drop from all.now)) }
{
    for i in from..all.len() {
        push_set(sets, &all[i], alloc)?;
    }
    Ok(())
}

/// The sets of both; `None` exactly where a mismatch name has a term in both.
pub(crate) fn join_sets(
    alloc: Global,
    lefts: &[(Name, Vec<Term>)],
    rights: &[(Name, Vec<Term>)],
) -> Result<Option<Vec<(Name, Vec<Term>)>>, NoMemory>
    requires left { AreSets (mismatches_of lefts.now) }
    requires right { AreSets (mismatches_of rights.now) }
    ensures some { IfOk result (λ r. IfSome r (λ ms.
        JoinsSets (mismatches_of lefts.now) (mismatches_of rights.now) (mismatches_of ms.items))) }
    ensures none { IfOk result (λ r. IfNone r (
        (ms : _) → ¬ JoinsSets (mismatches_of lefts.now) (mismatches_of rights.now) ms)) }
{
    let mut sets = Vec::new(alloc);
    let mut i = 0;
    let mut j = 0;
    while i < lefts.len() && j < rights.len() {
        let left = &lefts[i];
        let right = &rights[j];
        match compare_names(left, right) {
            Ordering::Less => {
                push_set(&mut sets, left, alloc)?;
                i += 1;
            }
            Ordering::Greater => {
                push_set(&mut sets, right, alloc)?;
                j += 1;
            }
            Ordering::Equal => match join_terms(alloc, &left.1, &right.1)? {
                None => return Ok(None),
                Some(terms) => {
                    sets.push((left.0.share()?, terms))?;
                    i += 1;
                    j += 1;
                }
            },
        }
    }
    push_sets(&mut sets, lefts, i, alloc)?;
    push_sets(&mut sets, rights, j, alloc)?;
    Ok(Some(sets))
}

/// The sets of all these bindings together; `None` exactly where a mismatch name has a term in those
/// of two of them.
pub(crate) fn all_sets(
    alloc: Global,
    list: &[Binding],
) -> Result<Option<Vec<(Name, Vec<Term>)>>, NoMemory>
    ensures some { IfOk result (λ r. IfSome r (λ ms.
        AreSetsOf (bindings_of list.now) (mismatches_of ms.items))) }
    ensures none { IfOk result (λ r. IfNone r (
        (ms : _) → ¬ AreSetsOf (bindings_of list.now) ms)) }
{
    match list {
        [] => Ok(Some(Vec::new(alloc))),
        [binding] => {
            let mut sets = Vec::new(alloc);
            push_sets(&mut sets, binding.differs(), 0, alloc)?;
            Ok(Some(sets))
        }
        _ => {
            let (firsts, others) = list.split_at(list.len() / 2);
            match all_sets(alloc, firsts)? {
                None => Ok(None),
                Some(lefts) => match all_sets(alloc, others)? {
                    None => Ok(None),
                    Some(rights) => join_sets(alloc, &lefts, &rights),
                },
            }
        }
    }
}
