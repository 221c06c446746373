// Patterns whose mismatch names are opened: each place of one gets a name of its own, a mark, so that
// what matches there is seen.
ghost use Rattle.std.specs.Prelude.{◌≡◌, ◌≤◌, ◌+◌, ◌++◌, ◌∷◌, [], length, map, IfNone, IfOk, IfSome, OnOk};
ghost use Rattle.std.specs.Borrow.{Bor};
ghost use Rattle.rdx_term.specs.View.{tree_of};
ghost use Rattle.rdx_lang.specs.Bindings.{of_pairs, values};
ghost use Rattle.rdx_lang.specs.BindingView.{pair_of, pairs_of, value_of};
ghost use Rattle.rdx_lang.specs.Inside.Texts.{HaveSame, texts_in};
ghost use Rattle.rdx_lang.specs.Members.{In};
ghost use Rattle.rdx_lang.specs.Names.{names};
ghost use Rattle.rdx_lang.specs.PatternView.{items_of, pattern_of, slot_of};
ghost use Rattle.rdx_lang.specs.Shown.{binding_of, bindings_of};
ghost use Rattle.rdx_lang.specs.Variants as variants;
ghost use Rattle.rdx_opened.specs.Inside.Marks.{OpensBehind, OpensItemsBehind, all_terms, each_alone, marked_terms, terms_in, under_name, without};
ghost use Rattle.rdx_opened.specs.Opening.{AreDistinct, IsApart, IsOpened, Stands, mark_names};
ghost use Rattle.rdx_opened.specs.Seeking.{marks_of};

use rdx_bind::naming::has_differ;
use rdx_bind::{collect, differ, join};
use rdx_lang::{Binding, Item, Pat, Value, variant};
use rdx_term::{Name, NoMemory};
use std::alloc::Global;
use std::collections::BTreeSet;
use std::rc::RcStr;

/// A name that stands at a place of a mismatch name.
#[derive(Drop)]
pub struct Mark {
    /// The name.
    pub name: Name,
    /// The mismatch name.
    pub differ: Name,
}

/// A pattern without mismatch names, and the marks that stand in their places.
#[derive(Drop)]
pub struct Opened {
    /// The pattern.
    pub pat: Pat,
    /// The marks, in the order of their places.
    pub marks: Vec<Mark>,
}

// The name `m`.
fn letter(alloc: Global) -> Result<Name, NoMemory> {
    match Name::new(RcStr::from_str(alloc, "m")?) {
        Some(name) => Ok(name),
        None => unreachable!(),
    }
}

// A name that is as long as both.
fn longer(first: Name, second: &Name) -> Result<Name, NoMemory>
    ensures first { IfOk result (λ y. length first ≤ length y) }
    ensures second { IfOk result (λ y. length second.now ≤ length y) }
{
    if second.text().len() > first.text().len() {
        second.share()
    } else {
        Ok(first)
    }
}

// A name that is as long as the longest of these, or of one letter where there are none.
fn longest(alloc: Global, names: &[Name]) -> Result<Name, NoMemory>
    ensures { IfOk result (λ y. (x : _) → In x names.now → length x ≤ length y) }
{
    let mut most = letter(alloc)?;
    for name in names {
        most = longer(most, name)?;
    }
    Ok(most)
}

// A mark behind the others: a variant of the name with a number of its own.
fn add_mark(
    alloc: Global,
    base: &Name,
    differ: &Name,
    marks: &mut Vec<Mark>,
) -> Result<Name, NoMemory>
    ensures name { IfOk result (λ y.
        y ≡ variants.variant base.now (length marks.old.items + 1)) }
    ensures marks { IfOk result (λ y.
        marks_of marks.new.items ≡ marks_of marks.old.items ++ (y, differ.now) ∷ []) }
{
    let name = variant(alloc, base, marks.len() + 1)?;
    marks.push(Mark {
        name: name.share()?,
        differ: differ.share()?,
    })?;
    Ok(name)
}

// The same length name, where there is one.
fn share_length(length: &Option<Name>) -> Result<Option<Name>, NoMemory>
    ensures { IfOk result (λ shared. shared ≡ length.now) }
{
    match length {
        Some(name) => Ok(Some(name.share()?)),
        None => Ok(None),
    }
}

// The pattern opened by variants of a name, which come behind the marks that are there.
#[cycle(places)]
fn open_places(
    alloc: Global,
    pat: &Pat,
    base: &Name,
    marks: &mut Vec<Mark>,
) -> Result<Pat, NoMemory>
    ensures { IfOk result (λ o. OpensBehind base.now (marks_of marks.old.items)
        (marks_of marks.new.items) (pattern_of pat.now) (pattern_of o)) }
{
    match pat {
        Pat::Wild
        | Pat::Kind(_)
        | Pat::Except(_)
        | Pat::Prefix(_)
        | Pat::Hole
        | Pat::Lit(_)
        | Pat::Nt(_)
        | Pat::Closed(_) => pat.share(alloc),
        Pat::Named(x, q) => {
            let inner = open_places(alloc, q, base, marks)?;
            Ok(Pat::Named(x.share()?, Box::new(alloc, inner)?))
        }
        Pat::Differ(x, q) => {
            let name = add_mark(alloc, base, x, marks)?;
            let inner = open_places(alloc, q, base, marks)?;
            Ok(Pat::Named(name, Box::new(alloc, inner)?))
        }
        Pat::InHole(q, r) => {
            let left = open_places(alloc, q, base, marks)?;
            let right = open_places(alloc, r, base, marks)?;
            Ok(Pat::InHole(Box::new(alloc, left)?, Box::new(alloc, right)?))
        }
        Pat::HideHole(q) => {
            let inner = open_places(alloc, q, base, marks)?;
            Ok(Pat::HideHole(Box::new(alloc, inner)?))
        }
        Pat::Seq(items) => Ok(Pat::Seq(open_items(alloc, items, base, marks)?)),
    }
}

// The same of the items of a list pattern.
#[cycle(places)]
fn open_items(
    alloc: Global,
    items: &[Item],
    base: &Name,
    marks: &mut Vec<Mark>,
) -> Result<Vec<Item>, NoMemory>
    ensures { IfOk result (λ os. OpensItemsBehind base.now (marks_of marks.old.items)
        (marks_of marks.new.items) (items_of (map slot_of items.now))
        (items_of (map slot_of os.items))) }
{
    let mut found = Vec::new(alloc);
    for item in items {
        match item {
            Item::One(q) => {
                let inner = open_places(alloc, q, base, marks)?;
                found.push(Item::One(inner))?;
            }
            Item::Many(q, n) => {
                let inner = open_places(alloc, q, base, marks)?;
                let length = share_length(n)?;
                found.push(Item::Many(inner, length))?;
            }
        }
    }
    Ok(found)
}

/// The pattern with its mismatch names opened.
pub(crate) fn open(alloc: Global, pat: &Pat) -> Result<Opened, NoMemory>
    ensures { IfOk result (λ o. IsOpened (pattern_of pat.now) (pattern_of o.pat)
        (marks_of o.marks.items)) }
{
    let mut marks = Vec::new(alloc);
    if !has_differ(pat) {
        let pat = pat.share(alloc)?;
        return Ok(Opened { pat, marks });
    }
    let names = pat.names(alloc)?;
    let base = longest(alloc, &names)?;
    let pat = open_places(alloc, pat, &base, &mut marks)?;
    Ok(Opened { pat, marks })
}

// Puts each term in the value behind the others, as a binding of the mismatch name.
#[cycle(terms)]
fn put_terms(
    alloc: Global,
    value: &Value,
    name: &Name,
    found: &mut Vec<Binding>,
) -> Result<(), NoMemory>
    ensures { OnOk result (bindings_of found.new.items ≡ bindings_of found.old.items
        ++ each_alone (under_name name.now (terms_in (value_of value.now)))) }
{
    match value {
        Value::One(t) => {
            found.push(differ(alloc, name, t)?)?;
            Ok(())
        }
        Value::Many(values) => put_all_terms(alloc, values, name, found),
        Value::Len(_) => Ok(()),
    }
}

// Those in each of the values.
#[cycle(terms)]
fn put_all_terms(
    alloc: Global,
    all: &[Value],
    name: &Name,
    found: &mut Vec<Binding>,
) -> Result<(), NoMemory>
    ensures { OnOk result (bindings_of found.new.items ≡ bindings_of found.old.items
        ++ each_alone (under_name name.now (all_terms (values (map value_of all.now))))) }
{
    for value in all {
        put_terms(alloc, value, name, found)?;
    }
    Ok(())
}

// The terms that the marks have, each as a binding of the mismatch name.
fn terms_of_marks(alloc: Global, marks: &[Mark], b: &Binding) -> Result<Vec<Binding>, NoMemory>
    ensures { IfOk result (λ found. bindings_of found.items
        ≡ each_alone (marked_terms (marks_of marks.now) (binding_of b.now))) }
{
    let mut found = Vec::new(alloc);
    for mark in marks {
        if let Some(value) = b.get(&mark.name) {
            put_terms(alloc, value, &mark.differ, &mut found)?;
        }
    }
    Ok(found)
}

// The texts of the marks, for looking them up.
fn mark_texts<'a>(alloc: Global, marks: &'a [Mark]) -> Result<BTreeSet<&'a str>, NoMemory>
    ensures { IfOk result (λ set. HaveSame (texts_in set) (mark_names (marks_of marks.now))) }
{
    let mut set = BTreeSet::new(alloc);
    for mark in marks {
        set.insert(mark.name.text())?;
    }
    Ok(set)
}

// Puts the pair behind the others.
fn push_pair(pairs: &mut Vec<(Name, Value)>, pair: &(Name, Value)) -> Result<(), NoMemory>
    ensures { OnOk result (pairs_of pairs.new.items
        ≡ pairs_of pairs.old.items ++ pair_of pair.now ∷ []) }
{
    let (name, value) = pair;
    pairs.push((name.share()?, value.share()?))?;
    Ok(())
}

// Puts the pair behind the others, unless its name is one of these.
fn push_other(
    pairs: &mut Vec<(Name, Value)>,
    pair: &(Name, Value),
    texts: &BTreeSet<&str>,
) -> Result<(), NoMemory>
    ensures { OnOk result (pairs_of pairs.new.items
        ≡ pairs_of pairs.old.items ++ without (texts_in texts.now) (pair_of pair.now ∷ [])) }
{
    if texts.contains(pair.0.text()) {
        Ok(())
    } else {
        push_pair(pairs, pair)
    }
}

// What the binding says of names that are no marks.
#[tactic(auto, using(crate::proofs::Closing::without_split))]
fn unmarked(alloc: Global, marks: &[Mark], b: &Binding) -> Result<Binding, NoMemory>
    ensures { IfOk result (λ c. binding_of c
        ≡ of_pairs (without (mark_names (marks_of marks.now)) (binding_of b.now).pairs)) }
{
    let texts = mark_texts(alloc, marks)?;
    let mut pairs = Vec::new(alloc);
    for pair in b.pairs() {
        push_other(&mut pairs, pair, &texts)?;
    }
    Ok(Binding::new(pairs))
}

/// What the binding of an opened pattern says of the pattern: the sets of the mismatch names in place of
/// the marks; `None` where two terms under one mismatch name are equal.
pub(crate) fn close(alloc: Global, marks: &[Mark], b: &Binding) -> Result<Option<Binding>, NoMemory>
    requires distinct { AreDistinct (mark_names (marks_of marks.now)) }
    requires plain { (binding_of b.now).differs ≡ [] }
    ensures some { IfOk result (λ r. IfSome r (λ w. Stands (marks_of marks.now) (binding_of b.now)
        (binding_of w))) }
    ensures none { IfOk result (λ r. IfNone r (¬ IsApart (marks_of marks.now) (binding_of b.now))) }
{
    let found = terms_of_marks(alloc, marks, b)?;
    let no_names = Vec::new(alloc);
    match collect(alloc, &no_names, &found)? {
        None => Ok(None),
        Some(sets) => {
            let names = unmarked(alloc, marks, b)?;
            join(alloc, &names, &sets)
        }
    }
}
