// Steps down from lists: how many turns the repetitions take, and then a goal for each term.
ghost use Rattle.std.specs.Prelude.{◌≡◌, ◌↔◌, ◌<◌, ◌≤◌, ◌^◌, ◌++◌, ◌∷◌, [], ℕ, List, bytes_eq, length, map, IfNone, IfOk, IfSome, IsTrue, None, OnOk, Option};
ghost use Rattle.std.specs.Bool.{IsFalse};
ghost use Rattle.std.specs.List.{list_any};
ghost use Rattle.rdx_lang.specs.Ascending.{IsAscending};
ghost use Rattle.rdx_lang.specs.Bindings as model;
ghost use Rattle.rdx_lang.specs.Bindings.{HasAscendingNames, name_cmp};
ghost use Rattle.rdx_lang.specs.Checked.{language_in};
ghost use Rattle.rdx_lang.specs.Decompositions.{Decomposition};
ghost use Rattle.rdx_lang.specs.Members.{In};
ghost use Rattle.rdx_lang.specs.Names.{names, item_names};
ghost use Rattle.rdx_lang.specs.Patterns.{seq, many};
ghost use Rattle.rdx_lang.specs.PatternView as slots;
ghost use Rattle.rdx_lang.specs.PatternView.{items_of, pattern_of, slot_of};
ghost use Rattle.rdx_lang.specs.Shown.{binding_of, bindings_of, decomposition_of, decompositions_of};
ghost use Rattle.rdx_lang.specs.WellFormed.{defined, have_known_nonterminals};
ghost use Rattle.rdx_term.specs.View.{built_list, tree_of, trees_of};
ghost use Rattle.rdx_deriv.specs.DerivationView.{goal_of};
ghost use Rattle.rdx_why.specs.Inside.Laying as laying;
ghost use Rattle.rdx_why.specs.Inside.Laying.{AreTurnGoals, CanBeLaid, CanTake, HasLength, HasRoom, IsAnswered, IsGoalOf, IsMarked, IsOpenedItems, IsWantedSplit, TakesGoals, count_of, focus_after, length_of, slot_pattern, trees_after};
ghost use Rattle.rdx_deriv.specs.Inside.Layouts.{focus_of};
ghost use Rattle.rdx_opened.specs.Opening.{AreNew, OpensItems, Stands};
ghost use Rattle.rdx_opened.specs.Picking as picking;
ghost use Rattle.rdx_opened.specs.Seeking.{marks_of};
ghost use Rattle.rdx_why.specs.Inside.Steps.{AllFollowIn, IsLaid};
ghost use Rattle.rdx_deriv.specs.Uses as uses;
ghost use Rattle.rdx_deriv.specs.Uses.{ItemUses, at, nowhere};

use crate::around::{built, question_around, shared_terms};
use crate::inner::{match_goal, split_goal};
use rdx_bind::is_same;
use rdx_deriv::{Focus, Goal, parts_around};
use rdx_lang::{Binding, CheckedLang, Item, Matcher, Pat, Split, first_variant};
use rdx_opened::{Mark, asked, in_turn, restricted, turns_of, whole};
use rdx_term::{Name, NoMemory, Term};
use std::alloc::Global;
use std::rc::RcStr;

// Which term is split of those behind so many.
fn behind(focus: Focus<'_>, count: usize) -> Focus<'_>
    ensures { focus_of result ≡ focus_after count (focus_of focus.entry) }
{
    match focus {
        Focus::Nowhere => Focus::Nowhere,
        Focus::At(place, context, part) => {
            if place < count {
                Focus::Nowhere
            } else {
                Focus::At(place - count, context, part)
            }
        }
    }
}

// The terms behind so many.
fn terms_behind(terms: &[Term], count: usize) -> &[Term]
    requires { count ≤ length terms.now }
    ensures { trees_of result.now ≡ trees_after count (trees_of terms.now) }
{
    &terms[count..]
}

/// The pattern of the item.
pub(crate) fn pattern_in(item: &Item) -> &Pat
    ensures { pattern_of result.now ≡ slot_pattern (slot_of item.now) }
{
    match item {
        Item::One(pat) => pat,
        Item::Many(pat, _) => pat,
    }
}

// ---- how many terms each item takes

// How many terms the item takes, where the binding says so, or it is no repetition.
fn known_count(alloc: Global, item: &Item, c: &Binding) -> Result<Option<usize>, NoMemory>
    ensures { IfOk result (λ k. k ≡ count_of (binding_of c.now) (slot_of item.now)) }
{
    match item {
        Item::One(_) => Ok(Some(1)),
        Item::Many(pat, length) => {
            let names = pat.names(alloc)?;
            Ok(turns_of(c, &names, length.as_ref()))
        }
    }
}

// The same of each of the items.
fn known_counts(alloc: Global, items: &[Item], c: &Binding) -> Result<Vec<Option<usize>>, NoMemory>
    ensures { IfOk result (λ ks. ks.items
        ≡ map (count_of (binding_of c.now)) (map slot_of items.now)) }
{
    let mut counts = Vec::with_capacity(alloc, items.len())?;
    for item in items {
        counts.push(known_count(alloc, item, c)?)?;
    }
    Ok(counts)
}

// How many of so many terms are left by items that take so many each; `None` where one of these is
// not known.
fn left_over(counts: &[Option<usize>], terms: usize) -> Option<usize>
    ensures { result ≡ laying.left_over counts.now terms }
{
    let mut left = terms;
    for count in counts {
        match count {
            Some(count) => left = left.saturating_sub(*count),
            None => return None,
        }
    }
    Some(left)
}

// The same length name, where there is one.
fn shared_length(length: &Option<Name>) -> Result<Option<Name>, NoMemory>
    ensures { IfOk result (λ n. n ≡ length.now) }
{
    match length {
        Some(name) => Ok(Some(name.share()?)),
        None => Ok(None),
    }
}

/// The same item once more.
pub(crate) fn shared_item(alloc: Global, item: &Item) -> Result<Item, NoMemory>
    ensures { IfOk result (λ s. slot_of s ≡ slot_of item.now) }
{
    match item {
        Item::One(pat) => Ok(Item::One(pat.share(alloc)?)),
        Item::Many(pat, length) => Ok(Item::Many(pat.share(alloc)?, shared_length(length)?)),
    }
}

// The list pattern of a repetition with this length name and the items behind it.
fn repetition_and(
    alloc: Global,
    q: &Pat,
    length: Option<Name>,
    others: &[Item],
) -> Result<Pat, NoMemory>
    ensures { IfOk result (λ p. pattern_of p
        ≡ seq (many (pattern_of q.now) length (items_of (map slot_of others.now)))) }
{
    let mut items = Vec::with_capacity(alloc, others.len())?;
    items.push(Item::Many(q.share(alloc)?, length))?;
    for item in others {
        items.push(shared_item(alloc, item)?)?;
    }
    Ok(Pat::Seq(items))
}

// A name that is none of these.
fn other_name(alloc: Global, names: &[Name]) -> Result<Name, NoMemory>
    requires { length names.now < 10 ^ 64 }
    ensures { IfOk result (λ y. IsFalse (list_any (bytes_eq y) names.now)) }
{
    match Name::new(RcStr::from_str(alloc, "n")?) {
        Some(name) => first_variant(alloc, &name, names),
        None => unreachable!(),
    }
}

// The list of the terms.
fn listed(alloc: Global, terms: &[Term]) -> Result<Term, NoMemory>
    ensures { IfOk result (λ t. tree_of t ≡ built_list terms.now) }
{
    built(alloc, shared_terms(alloc, terms)?)
}

// What is sought in a listing: what is said of these names, and a length under this one.
#[derive(Clone, Copy)]
struct Sought<'a> {
    names: &'a [Name],
    wanted: &'a Binding,
    length: &'a Name,
}

// The length, where the names are bound as they are wanted.
fn length_in(alloc: Global, sought: Sought<'_>, e: &Binding) -> Result<Option<usize>, NoMemory>
    requires { IsAscending name_cmp sought.names.now }
    ensures some { IfOk result (λ r. IfSome r (HasLength (binding_of sought.entry.wanted.now)
        sought.entry.names.now sought.entry.length.now (binding_of e.now))) }
    ensures none { IfOk result (λ r. IfNone r ((k : ℕ) → HasLength
        (binding_of sought.entry.wanted.now) sought.entry.names.now sought.entry.length.now
        (binding_of e.now) k → ⊥)) }
{
    if is_same(&restricted(alloc, e, sought.names)?, sought.wanted) {
        Ok(turns_of(e, &[], Some(sought.length)))
    } else {
        Ok(None)
    }
}

// The length in the first of these bindings that has the names as they are wanted.
fn length_among(
    alloc: Global,
    sought: Sought<'_>,
    found: &[Binding],
) -> Result<Option<usize>, NoMemory>
    requires { IsAscending name_cmp sought.names.now }
    ensures some { IfOk result (λ r. IfSome r (λ k. (e : model.Binding)
        × In e (bindings_of found.now) × HasLength (binding_of sought.entry.wanted.now)
        sought.entry.names.now sought.entry.length.now e k)) }
    ensures none { IfOk result (λ r. IfNone r ((e : model.Binding) (k : ℕ)
        → In e (bindings_of found.now) → HasLength (binding_of sought.entry.wanted.now)
        sought.entry.names.now sought.entry.length.now e k → ⊥)) }
{
    for e in found {
        if let Some(count) = length_in(alloc, sought, e)? {
            return Ok(Some(count));
        }
    }
    Ok(None)
}

// Whether the split is of the term at the place, into this context and part.
fn is_split_at(t: &Term, found: &Split, place: usize, context: &Term, part: &Term) -> bool
    ensures { IsTrue result ↔ IsWantedSplit (tree_of t.now) place (tree_of context.now)
        (tree_of part.now) (decomposition_of found.now) }
{
    match parts_around(t, &found.context, place) {
        Some(around) => around.inner.same(context) && found.part.same(part),
        None => false,
    }
}

// The length in the first of these splits that is the one at the place and has the names as they
// are wanted.
fn length_among_splits(
    alloc: Global,
    sought: Sought<'_>,
    found: &[Split],
    t: &Term,
    place: usize,
    context: &Term,
    part: &Term,
) -> Result<Option<usize>, NoMemory>
    requires { IsAscending name_cmp sought.names.now }
    ensures some { IfOk result (λ r. IfSome r (λ k. (d : Decomposition)
        × In d (decompositions_of found.now) × IsWantedSplit (tree_of t.now) place
        (tree_of context.now) (tree_of part.now) d × HasLength (binding_of sought.entry.wanted.now)
        sought.entry.names.now sought.entry.length.now d.binding k)) }
    ensures none { IfOk result (λ r. IfNone r ((d : Decomposition) (k : ℕ)
        → In d (decompositions_of found.now) → IsWantedSplit (tree_of t.now) place
        (tree_of context.now) (tree_of part.now) d → HasLength (binding_of sought.entry.wanted.now)
        sought.entry.names.now sought.entry.length.now d.binding k → ⊥)) }
{
    for split in found {
        if is_split_at(t, split, place, context, part) {
            if let Some(count) = length_in(alloc, sought, &split.binding)? {
                return Ok(Some(count));
            }
        }
    }
    Ok(None)
}

// The length in a match of the pattern, where one is sought.
fn length_matched<M: Matcher + Drop>(
    alloc: Global,
    language: &CheckedLang,
    finder: &mut M,
    pat: &Pat,
    t: &Term,
    sought: Sought<'_>,
) -> Result<Option<usize>, NoMemory>
    requires { IsAscending name_cmp sought.names.now }
    ensures some { IfOk result (λ r. IfSome r (λ k. (e : model.Binding)
        × IsAnswered (language_in language.now) (pattern_of pat.now) (tree_of t.now) nowhere e
        × HasLength (binding_of sought.entry.wanted.now) sought.entry.names.now
        sought.entry.length.now e k)) }
    ensures none { IfOk result (λ r. IfNone r ((e : model.Binding) (k : ℕ)
        → IsAnswered (language_in language.now) (pattern_of pat.now) (tree_of t.now) nowhere e
        → HasLength (binding_of sought.entry.wanted.now) sought.entry.names.now
        sought.entry.length.now e k → ⊥)) }
{
    let question = asked(alloc, language, pat)?;
    let found = finder.matches(language, &question, t)?;
    length_among(alloc, sought, &found)
}

// The length in a split by the pattern, at the place into the context and the part.
fn length_split<M: Matcher + Drop>(
    alloc: Global,
    language: &CheckedLang,
    finder: &mut M,
    pat: &Pat,
    t: &Term,
    place: usize,
    context: &Term,
    part: &Term,
    sought: Sought<'_>,
) -> Result<Option<usize>, NoMemory>
    requires { IsAscending name_cmp sought.names.now }
    ensures some { IfOk result (λ r. IfSome r (λ k. (e : model.Binding)
        × IsAnswered (language_in language.now) (pattern_of pat.now) (tree_of t.now)
        (at place (tree_of context.now) (tree_of part.now)) e
        × HasLength (binding_of sought.entry.wanted.now) sought.entry.names.now
        sought.entry.length.now e k)) }
    ensures none { IfOk result (λ r. IfNone r ((e : model.Binding) (k : ℕ)
        → IsAnswered (language_in language.now) (pattern_of pat.now) (tree_of t.now)
        (at place (tree_of context.now) (tree_of part.now)) e
        → HasLength (binding_of sought.entry.wanted.now) sought.entry.names.now
        sought.entry.length.now e k → ⊥)) }
{
    let question = asked(alloc, language, pat)?;
    let found = finder.splits(language, &question, t)?;
    length_among_splits(alloc, sought, &found, t, place, context, part)
}

// The same of the list of the terms, where there is a split; it is asked around the hole, where that
// decides.
fn length_at<M: Matcher + Drop>(
    alloc: Global,
    language: &CheckedLang,
    finder: &mut M,
    pat: &Pat,
    terms: &[Term],
    place: usize,
    context: &Term,
    part: &Term,
    sought: Sought<'_>,
) -> Result<Option<usize>, NoMemory>
    requires ascending { IsAscending name_cmp sought.names.now }
    requires there { (e : model.Binding) × IsAnswered (language_in language.now)
        (pattern_of pat.now) (built_list terms.now)
        (at place (tree_of context.now) (tree_of part.now)) e }
    ensures some { IfOk result (λ r. IfSome r (λ k. (e : model.Binding)
        × IsAnswered (language_in language.now) (pattern_of pat.now) (built_list terms.now)
        (at place (tree_of context.now) (tree_of part.now)) e
        × HasLength (binding_of sought.entry.wanted.now) sought.entry.names.now
        sought.entry.length.now e k)) }
    ensures none { IfOk result (λ r. IfNone r ((e : model.Binding) (k : ℕ)
        → IsAnswered (language_in language.now) (pattern_of pat.now) (built_list terms.now)
        (at place (tree_of context.now) (tree_of part.now)) e
        → HasLength (binding_of sought.entry.wanted.now) sought.entry.names.now
        sought.entry.length.now e k → ⊥)) }
{
    match question_around(alloc, language, pat, terms, place, context)? {
        Some(question) => length_matched(
            alloc,
            language,
            finder,
            &question.pat,
            &question.around,
            sought,
        ),
        None => {
            let t = listed(alloc, terms)?;
            length_split(
                alloc, language, finder, pat, &t, place, context, part, sought,
            )
        }
    }
}

// The length that a matcher finds for the pattern and the list of the terms, where one is sought.
fn length_found<M: Matcher + Drop>(
    alloc: Global,
    language: &CheckedLang,
    finder: &mut M,
    pat: &Pat,
    terms: &[Term],
    focus: Focus<'_>,
    sought: Sought<'_>,
) -> Result<Option<usize>, NoMemory>
    requires ascending { IsAscending name_cmp sought.names.now }
    requires there { (e : model.Binding) × IsAnswered (language_in language.now)
        (pattern_of pat.now) (built_list terms.now) (focus_of focus) e }
    ensures some { IfOk result (λ r. IfSome r (λ k. (e : model.Binding)
        × IsAnswered (language_in language.now) (pattern_of pat.now) (built_list terms.now)
        (focus_of focus.entry) e × HasLength (binding_of sought.entry.wanted.now)
        sought.entry.names.now sought.entry.length.now e k)) }
    ensures none { IfOk result (λ r. IfNone r ((e : model.Binding) (k : ℕ)
        → IsAnswered (language_in language.now) (pattern_of pat.now) (built_list terms.now)
        (focus_of focus.entry) e → HasLength (binding_of sought.entry.wanted.now)
        sought.entry.names.now sought.entry.length.now e k → ⊥)) }
{
    match focus {
        Focus::Nowhere => {
            let t = listed(alloc, terms)?;
            length_matched(alloc, language, finder, pat, &t, sought)
        }
        Focus::At(place, context, part) => length_at(
            alloc, language, finder, pat, terms, place, context, part, sought,
        ),
    }
}

// How many terms a repetition without names takes, as a matcher finds it: it is asked about the
// items from this one on, with a length name for it.
fn asked_length<M: Matcher + Drop>(
    alloc: Global,
    language: &CheckedLang,
    finder: &mut M,
    l: &Name,
    q: &Pat,
    others: &[Item],
    terms: &[Term],
    focus: Focus<'_>,
    c: &Binding,
) -> Result<usize, NoMemory>
    requires nameless { names (pattern_of q.now) ≡ [] }
    requires known { IsTrue (have_known_nonterminals (defined (language_in language.now))
        (many (pattern_of q.now) None (items_of (map slot_of others.now)))) }
    requires opens { IsOpenedItems
        (many (pattern_of q.now) None (items_of (map slot_of others.now))) }
    requires ascending { HasAscendingNames (binding_of c.now) }
    requires laid { CanBeLaid (language_in language.now) l.now (binding_of c.now)
        (focus_of focus) (many (pattern_of q.now) None (items_of (map slot_of others.now)))
        (trees_of terms.now) }
    ensures { IfOk result (CanTake (language_in language.now) l.now (binding_of c.now)
        (focus_of focus.entry) (slots.repeated (pattern_of q.now) None) (map slot_of others.now)
        (trees_of terms.now)) }
{
    let names = repetition_and(alloc, q, None, others)?.names(alloc)?;
    let wanted = restricted(alloc, c, &names)?;
    let length = other_name(alloc, &names)?;
    let named = repetition_and(alloc, q, Some(length.share()?), others)?;
    let sought = Sought {
        names: &names,
        wanted: &wanted,
        length: &length,
    };
    match length_found(alloc, language, finder, &named, terms, focus, sought)? {
        Some(count) => Ok(count),
        None => unreachable!(),
    }
}

// How many terms an item takes, behind which there are the others, of which so much is known.
fn item_count<M: Matcher + Drop>(
    alloc: Global,
    language: &CheckedLang,
    finder: &mut M,
    l: &Name,
    item: &Item,
    known: Option<usize>,
    others: &[Item],
    counts: &[Option<usize>],
    terms: &[Term],
    focus: Focus<'_>,
    c: &Binding,
) -> Result<usize, NoMemory>
    requires count { known ≡ count_of (binding_of c.now) (slot_of item.now) }
    requires counts { counts.now ≡ map (count_of (binding_of c.now)) (map slot_of others.now) }
    requires known { IsTrue (have_known_nonterminals (defined (language_in language.now))
        (items_of (slot_of item.now ∷ map slot_of others.now))) }
    requires opens { IsOpenedItems (items_of (slot_of item.now ∷ map slot_of others.now)) }
    requires ascending { HasAscendingNames (binding_of c.now) }
    requires laid { CanBeLaid (language_in language.now) l.now (binding_of c.now)
        (focus_of focus) (items_of (slot_of item.now ∷ map slot_of others.now))
        (trees_of terms.now) }
    ensures { IfOk result (CanTake (language_in language.now) l.now (binding_of c.now)
        (focus_of focus.entry) (slot_of item.now) (map slot_of others.now) (trees_of terms.now)) }
{
    match item {
        Item::One(_) => Ok(1),
        Item::Many(q, _) => match known {
            Some(count) => Ok(count),
            None => match left_over(counts, terms.len()) {
                Some(count) => Ok(count),
                None => asked_length(alloc, language, finder, l, q, others, terms, focus, c),
            },
        },
    }
}

// Puts the length of the item, where it is a repetition, behind the others.
fn push_length(lengths: &mut Vec<usize>, item: &Item, count: usize) -> Result<(), NoMemory>
    ensures { OnOk result (lengths.new.items
        ≡ lengths.old.items ++ length_of (slot_of item.now) count) }
{
    match item {
        Item::One(_) => {}
        Item::Many(_, _) => lengths.push(count)?,
    }
    Ok(())
}

/// How many turns the repetitions of opened items take over the terms, where they bind this.
pub(crate) fn list_lengths<M: Matcher + Drop>(
    alloc: Global,
    language: &CheckedLang,
    finder: &mut M,
    l: &Name,
    opened: &[Item],
    terms: &[Term],
    focus: Focus<'_>,
    c: &Binding,
) -> Result<Vec<usize>, NoMemory>
    requires known { IsTrue (have_known_nonterminals (defined (language_in language.now))
        (items_of (map slot_of opened.now))) }
    requires opens { IsOpenedItems (items_of (map slot_of opened.now)) }
    requires laid { (ks : List ℕ) × IsLaid (language_in language.now) l.now (focus_of focus)
        (items_of (map slot_of opened.now)) (trees_of terms.now) ks (binding_of c.now) }
    ensures { IfOk result (λ ks. IsLaid (language_in language.now) l.now (focus_of focus.entry)
        (items_of (map slot_of opened.now)) (trees_of terms.now) ks.items (binding_of c.now)) }
{
    let counts = known_counts(alloc, opened, c)?;
    let mut lengths = Vec::new(alloc);
    let mut items = opened;
    let mut known: &[Option<usize>] = &counts;
    let mut left = terms;
    let mut split = focus;
    while let Some((item, others)) = items.split_first() {
        let Some((first, behind_first)) = known.split_first() else {
            unreachable!()
        };
        let count = item_count(
            alloc,
            language,
            finder,
            l,
            item,
            *first,
            others,
            behind_first,
            left,
            split,
            c,
        )?;
        push_length(&mut lengths, item, count)?;
        left = terms_behind(left, count);
        split = behind(split, count);
        items = others;
        known = behind_first;
    }
    Ok(lengths)
}

// ---- the goals

// The goal of a term of a list, by this pattern.
fn item_goal(
    alloc: Global,
    l: &Name,
    q: &Pat,
    t: &Term,
    focus: Focus<'_>,
    b: Binding,
) -> Result<Goal, NoMemory>
    ensures { IfOk result (λ g. goal_of g ≡ uses.item_goal (focus_of focus.entry) l.now
        (pattern_of q.now) (tree_of t.now) (binding_of b)) }
{
    match focus {
        Focus::Nowhere => match_goal(alloc, l, q, t, b),
        Focus::At(place, context, part) => {
            if place == 0 {
                split_goal(alloc, l, q, t, context, part, b)
            } else {
                match_goal(alloc, l, q, t, b)
            }
        }
    }
}

// The goal of a term of a list which is no turn of a repetition.
fn single_goal(
    alloc: Global,
    l: &Name,
    q: &Pat,
    names: &[Name],
    marks: &[Mark],
    t: &Term,
    focus: Focus<'_>,
    c: &Binding,
) -> Result<Goal, NoMemory>
    requires ascending { IsAscending name_cmp names.now }
    requires marked { IsMarked (marks_of marks.now) (binding_of c.now) }
    ensures { IfOk result (λ g. IsGoalOf (marks_of marks.now) l.now (pattern_of q.now)
        (focus_of focus.entry) (tree_of t.now) (picking.picked (binding_of c.now) names.now)
        (goal_of g)) }
{
    let b = whole(alloc, marks, &restricted(alloc, c, names)?)?;
    item_goal(alloc, l, q, t, focus, b)
}

// The goal of a term of a list in a turn of a repetition.
fn turn_goal(
    alloc: Global,
    l: &Name,
    q: &Pat,
    names: &[Name],
    marks: &[Mark],
    t: &Term,
    focus: Focus<'_>,
    c: &Binding,
    turn: usize,
) -> Result<Goal, NoMemory>
    requires ascending { IsAscending name_cmp names.now }
    requires marked { IsMarked (marks_of marks.now) (binding_of c.now) }
    ensures { IfOk result (λ g. IsGoalOf (marks_of marks.now) l.now (pattern_of q.now)
        (focus_of focus.entry) (tree_of t.now) (picking.in_turn (binding_of c.now) turn names.now)
        (goal_of g)) }
{
    let b = whole(alloc, marks, &in_turn(alloc, c, names, turn)?)?;
    item_goal(alloc, l, q, t, focus, b)
}

// The goals of the first so many terms, which are the turns of a repetition.
fn turn_goals(
    alloc: Global,
    l: &Name,
    q: &Pat,
    names: &[Name],
    marks: &[Mark],
    terms: &[Term],
    focus: Focus<'_>,
    c: &Binding,
    count: usize,
) -> Result<Vec<Goal>, NoMemory>
    requires enough { count ≤ length terms.now }
    requires ascending { IsAscending name_cmp names.now }
    requires marked { IsMarked (marks_of marks.now) (binding_of c.now) }
    ensures { IfOk result (λ gs. AreTurnGoals (marks_of marks.now) (binding_of c.now) l.now
        (pattern_of q.now) names.now 0 (focus_of focus.entry) (trees_of terms.now) count
        (map goal_of gs.items)) }
{
    let mut goals = Vec::with_capacity(alloc, count)?;
    for turn in 0..count {
        let split = behind(focus, turn);
        goals.push(turn_goal(alloc, l, q, names, marks, &terms[turn], split, c, turn)?)?;
    }
    Ok(goals)
}

// What is left of a list: its terms, which of them is split, and the lengths of repetitions.
#[derive(Clone, Copy)]
struct Left<'a> {
    terms: &'a [Term],
    focus: Focus<'a>,
    lengths: &'a [usize],
}

// The goals of an item, and what is left behind it.
#[derive(Drop)]
struct Taken<'a> {
    goals: Vec<Goal>,
    left: Left<'a>,
}

// The goal of one term, by the first pattern; the other is the same opened.
fn take_one<'a>(
    alloc: Global,
    l: &Name,
    q: &Pat,
    opened: &Pat,
    marks: &[Mark],
    left: Left<'a>,
    c: &Binding,
) -> Result<Taken<'a>, NoMemory>
    requires room { HasRoom (slots.just (pattern_of q.now)) (slots.just (pattern_of opened.now))
        (trees_of left.terms.now) left.lengths.now }
    requires marked { IsMarked (marks_of marks.now) (binding_of c.now) }
    ensures { IfOk result (λ r. TakesGoals l.now (marks_of marks.now) (binding_of c.now)
        (slots.just (pattern_of q.now)) (slots.just (pattern_of opened.now))
        (focus_of left.entry.focus) (trees_of left.entry.terms.now) left.entry.lengths.now
        (map goal_of r.goals.items) (focus_of r.left.focus)
        (trees_of r.left.terms.now) r.left.lengths.now) }
{
    let Some((t, terms)) = left.terms.split_first() else {
        unreachable!()
    };
    let names = opened.names(alloc)?;
    let mut goals = Vec::with_capacity(alloc, 1)?;
    goals.push(single_goal(alloc, l, q, &names, marks, t, left.focus, c)?)?;
    Ok(Taken {
        goals,
        left: Left {
            terms,
            focus: behind(left.focus, 1),
            lengths: left.lengths,
        },
    })
}

// The goals of the turns of a repetition.
fn take_many<'a>(
    alloc: Global,
    l: &Name,
    q: &Pat,
    opened: &Pat,
    marks: &[Mark],
    left: Left<'a>,
    c: &Binding,
) -> Result<Taken<'a>, NoMemory>
    requires room { HasRoom (slots.repeated (pattern_of q.now) None)
        (slots.repeated (pattern_of opened.now) None) (trees_of left.terms.now)
        left.lengths.now }
    requires marked { IsMarked (marks_of marks.now) (binding_of c.now) }
    ensures { IfOk result (λ r. (n m : Option (List ℕ)) → TakesGoals l.now (marks_of marks.now)
        (binding_of c.now) (slots.repeated (pattern_of q.now) n)
        (slots.repeated (pattern_of opened.now) m) (focus_of left.entry.focus)
        (trees_of left.entry.terms.now) left.entry.lengths.now
        (map goal_of r.goals.items) (focus_of r.left.focus)
        (trees_of r.left.terms.now) r.left.lengths.now) }
{
    let Some((count, lengths)) = left.lengths.split_first() else {
        unreachable!()
    };
    let names = opened.names(alloc)?;
    let terms = left.terms;
    let goals = turn_goals(alloc, l, q, &names, marks, terms, left.focus, c, *count)?;
    Ok(Taken {
        goals,
        left: Left {
            terms: terms_behind(terms, *count),
            focus: behind(left.focus, *count),
            lengths,
        },
    })
}

// The goals of an item, by the first; the other is the same opened.
fn take_item<'a>(
    alloc: Global,
    l: &Name,
    item: &Item,
    opened: &Item,
    marks: &[Mark],
    left: Left<'a>,
    c: &Binding,
) -> Result<Taken<'a>, NoMemory>
    requires room { HasRoom (slot_of item.now) (slot_of opened.now) (trees_of left.terms.now)
        left.lengths.now }
    requires marked { IsMarked (marks_of marks.now) (binding_of c.now) }
    ensures { IfOk result (λ r. TakesGoals l.now (marks_of marks.now) (binding_of c.now)
        (slot_of item.now) (slot_of opened.now) (focus_of left.entry.focus)
        (trees_of left.entry.terms.now) left.entry.lengths.now
        (map goal_of r.goals.items) (focus_of r.left.focus)
        (trees_of r.left.terms.now) r.left.lengths.now) }
{
    match item {
        Item::One(q) => take_one(alloc, l, q, pattern_in(opened), marks, left, c),
        Item::Many(q, _) => take_many(alloc, l, q, pattern_in(opened), marks, left, c),
    }
}

/// The goals of the terms of a list, where the repetitions take so many turns.
pub(crate) fn list_goals(
    alloc: Global,
    language: &CheckedLang,
    l: &Name,
    items: &[Item],
    opened: &[Item],
    marks: &[Mark],
    terms: &[Term],
    focus: Focus<'_>,
    lengths: &[usize],
    c: &Binding,
    b: &Binding,
) -> Result<Vec<Goal>, NoMemory>
    requires opens { OpensItems (items_of (map slot_of items.now))
        (items_of (map slot_of opened.now)) (marks_of marks.now) }
    requires new { AreNew (item_names (items_of (map slot_of items.now))) (marks_of marks.now) }
    requires stands { Stands (marks_of marks.now) (binding_of c.now) (binding_of b.now) }
    requires laid { IsLaid (language_in language.now) l.now (focus_of focus)
        (items_of (map slot_of opened.now)) (trees_of terms.now) lengths.now (binding_of c.now) }
    ensures uses { IfOk result (λ gs. ItemUses l.now (focus_of focus.entry)
        (items_of (map slot_of items.now)) (trees_of terms.now) lengths.now
        (map goal_of gs.items) (binding_of b.now)) }
    ensures follow { IfOk result (λ gs. AllFollowIn (language_in language.now) l.now
        (map goal_of gs.items)) }
{
    let mut goals = Vec::new(alloc);
    let mut left = Left {
        terms,
        focus,
        lengths,
    };
    let mut others = items;
    let mut others_opened = opened;
    while let Some((item, behind_item)) = others.split_first() {
        let Some((first, behind_first)) = others_opened.split_first() else {
            unreachable!()
        };
        let taken = take_item(alloc, l, item, first, marks, left, c)?;
        let mut more = taken.goals;
        goals.append(&mut more)?;
        left = taken.left;
        others = behind_item;
        others_opened = behind_first;
    }
    Ok(goals)
}
