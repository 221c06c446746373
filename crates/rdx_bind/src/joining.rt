// The join of two bindings: one pass over the pairs of both, and one over their sets; or, where the one has few pairs and the
// other is of no more use, a search for the place of each of the few.
ghost use Rattle.std.specs.Prelude.{◌≡◌, ◌↔◌, ◌∷◌, [], ◌++◌, drop, IfOk, IfSome, IfNone, IsTrue, OnOk};
ghost use Rattle.rdx_lang.specs.Bindings.{name_cmp, of_pairs, HaveAscendingNames};
ghost use Rattle.rdx_lang.specs.BindingView.{pair_of, pairs_of};
ghost use Rattle.rdx_lang.specs.Join.{IsJoin, JoinsPairs};
ghost use Rattle.rdx_lang.specs.Shown.{binding_of};

use crate::sets::join_sets;
use rdx_lang::{Binding, Value};
use rdx_term::{Name, NoMemory};
use std::alloc::Global;
use std::cmp::Ordering;

// The order of the names of two pairs.
fn compare_names(a: &(Name, Value), b: &(Name, Value)) -> Ordering
    ensures { result ≡ name_cmp a.now.0 b.now.0 }
{
    a.0.text().cmp(b.0.text())
}

// Whether two pairs have one value, marks included.
fn have_one_value(a: &(Name, Value), b: &(Name, Value)) -> bool
    ensures { IsTrue result ↔ ((pair_of a.now).1 ≡ (pair_of b.now).1) }
{
    match a.1.compare(&b.1) {
        Ordering::Equal => true,
        Ordering::Less | Ordering::Greater => false,
    }
}

// Puts the pair behind the others.
fn push_pair(pairs: &mut Vec<(Name, Value)>, pair: &(Name, Value)) -> Result<(), NoMemory>
    ensures { OnOk result (pairs_of pairs.new.items ≡ pairs_of pairs.old.items ++ pair_of pair.now ∷ []) }
{
    let (name, value) = pair;
    pairs.push((name.share()?, value.share()?))?;
    Ok(())
}

// Puts all pairs from this place on behind the others.
pub(crate) fn push_rest(
    pairs: &mut Vec<(Name, Value)>,
    all: &[(Name, Value)],
    from: usize,
) -> Result<(), NoMemory>
    ensures { OnOk result (pairs_of pairs.new.items
        ≡ pairs_of pairs.old.items ++ pairs_of (drop from all.now)) }
{
    for i in from..all.len() {
        push_pair(pairs, &all[i])?;
    }
    Ok(())
}

// The pairs of both; `None` exactly where a name that both have has two values, marks included.
fn join_pairs(
    alloc: Global,
    lefts: &[(Name, Value)],
    rights: &[(Name, Value)],
) -> Result<Option<Vec<(Name, Value)>>, NoMemory>
    requires left { HaveAscendingNames (pairs_of lefts.now) }
    requires right { HaveAscendingNames (pairs_of rights.now) }
    ensures some { IfOk result (λ r. IfSome r (λ ps.
        JoinsPairs (pairs_of lefts.now) (pairs_of rights.now) (pairs_of ps.items))) }
    ensures none { IfOk result (λ r. IfNone r (
        (ps : _) → ¬ JoinsPairs (pairs_of lefts.now) (pairs_of rights.now) ps)) }
{
    let mut pairs = Vec::new(alloc);
    let mut i = 0;
    let mut j = 0;
    while i < lefts.len() && j < rights.len() {
        let left = &lefts[i];
        let right = &rights[j];
        match compare_names(left, right) {
            Ordering::Less => {
                push_pair(&mut pairs, left)?;
                i += 1;
            }
            Ordering::Greater => {
                push_pair(&mut pairs, right)?;
                j += 1;
            }
            Ordering::Equal => {
                if !have_one_value(left, right) {
                    return Ok(None);
                }
                push_pair(&mut pairs, left)?;
                i += 1;
                j += 1;
            }
        }
    }
    push_rest(&mut pairs, lefts, i)?;
    push_rest(&mut pairs, rights, j)?;
    Ok(Some(pairs))
}

/// The binding with exactly the pairs of both, and with their sets; `None` exactly where a name that
/// both bind has two values, or a mismatch name has a term in the sets of both, marks included.
pub fn join(alloc: Global, a: &Binding, b: &Binding) -> Result<Option<Binding>, NoMemory>
    ensures some { IfOk result (λ r. IfSome r (λ c.
        IsJoin (binding_of a.now) (binding_of b.now) (binding_of c))) }
    ensures none { IfOk result (λ r. IfNone r (
        (c : _) → ¬ IsJoin (binding_of a.now) (binding_of b.now) c)) }
{
    match join_pairs(alloc, a.pairs(), b.pairs())? {
        None => Ok(None),
        Some(pairs) => match join_sets(alloc, a.differs(), b.differs())? {
            None => Ok(None),
            Some(differs) => Ok(Some(Binding::with_differs(pairs, differs))),
        },
    }
}

// So many pairs at most are put in one by one: each moves those behind it, which costs less than to
// copy all where there are few.
const FEW: usize = 4;

/// The join of both, as by [`join`], where `a` is of no more use: it gets the pairs of `b` where these
/// are few, and there are no mismatch names.
pub fn join_into(alloc: Global, a: Binding, b: &Binding) -> Result<Option<Binding>, NoMemory>
    ensures some { IfOk result (λ r. IfSome r (λ c.
        IsJoin (binding_of a) (binding_of b.now) (binding_of c))) }
    ensures none { IfOk result (λ r. IfNone r (
        (c : _) → ¬ IsJoin (binding_of a) (binding_of b.now) c)) }
{
    if b.differs().is_empty() && b.pairs().len() <= FEW {
        with_each(a, b.pairs())
    } else {
        join(alloc, &a, b)
    }
}

// The join of the binding with that of the pairs, which it gets one by one.
fn with_each(a: Binding, pairs: &[(Name, Value)]) -> Result<Option<Binding>, NoMemory>
    requires { HaveAscendingNames (pairs_of pairs.now) }
    ensures some { IfOk result (λ r. IfSome r (λ c.
        IsJoin (binding_of a) (of_pairs (pairs_of pairs.now)) (binding_of c))) }
    ensures none { IfOk result (λ r. IfNone r (
        (c : _) → ¬ IsJoin (binding_of a) (of_pairs (pairs_of pairs.now)) c)) }
{
    let mut joined = a;
    for (name, value) in pairs {
        match joined.joined_with(name, value)? {
            Some(more) => joined = more,
            None => return Ok(None),
        }
    }
    Ok(Some(joined))
}
