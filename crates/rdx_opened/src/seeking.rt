// What the matcher finds of a pattern that is opened.
ghost use Rattle.std.specs.Prelude.{◌≡◌, ◌↔◌, [], IfNone, IfOk, IfSome, IsFalse, IsTrue};
ghost use Rattle.rdx_lang.specs.Bindings as model;
ghost use Rattle.rdx_lang.specs.Checked.{language_in, pattern_in};
ghost use Rattle.rdx_lang.specs.Members.{In};
ghost use Rattle.rdx_lang.specs.PatternView.{pattern_of};
ghost use Rattle.rdx_lang.specs.Rules as rules;
ghost use Rattle.rdx_lang.specs.Shown.{binding_of, bindings_of, decomposition_of, decompositions_of};
ghost use Rattle.rdx_term.specs.View.{tree_of};
ghost use Rattle.rdx_opened.specs.Inside.Marks.{into};
ghost use Rattle.rdx_opened.specs.Opening.{AreDistinct, HasStanding, Stands, mark_names};
ghost use Rattle.rdx_opened.specs.Seeking.{IsFound, IsWanted, marks_of};
ghost use Rattle.rdx_opened.specs.declared.seeking.Wanted.TheVariants.{Whole};

use crate::opening::{Mark, Opened, close, open};
use rdx_bind::{is_same, visible};
use rdx_lang::{Binding, CheckedLang, CheckedPat, Matcher, Pat, Split};
use rdx_term::{NoMemory, Term};
use std::alloc::Global;

/// An opened pattern, and what it binds.
#[derive(Drop)]
pub struct Found {
    /// The pattern.
    pub opened: Opened,
    /// What it binds.
    pub binding: Binding,
}

/// What is asked of a binding with its mismatch sets.
#[derive(Clone, Copy)]
pub enum Wanted<'a> {
    /// Nothing.
    Any,
    /// That this is seen of it.
    Seen(&'a Binding),
    /// That it is this.
    Whole(&'a Binding),
}

/// The pattern as a question to a matcher. No pattern is so deep that its names would not fit.
pub fn asked(alloc: Global, language: &CheckedLang, pat: &Pat) -> Result<CheckedPat, NoMemory>
    ensures { IfOk result (λ p. pattern_in p ≡ pattern_of pat.now) }
{
    match CheckedPat::new(alloc, language, pat.share(alloc)?)? {
        Some(asked) => Ok(asked),
        None => Err(NoMemory),
    }
}

// Whether the binding is one that is wanted.
fn passes(alloc: Global, wanted: Wanted<'_>, whole: &Binding) -> Result<bool, NoMemory>
    ensures { IfOk result (λ r. IsTrue r ↔ IsWanted wanted.entry (binding_of whole.now)) }
{
    match wanted {
        Wanted::Any => Ok(true),
        Wanted::Seen(b) => Ok(is_same(&visible(alloc, whole)?, b)),
        Wanted::Whole(b) => Ok(is_same(whole, b)),
    }
}

// Whether what the opened pattern binds stands for a binding that is wanted.
fn is_wanted(
    alloc: Global,
    wanted: Wanted<'_>,
    marks: &[Mark],
    c: &Binding,
) -> Result<bool, NoMemory>
    requires distinct { AreDistinct (mark_names (marks_of marks.now)) }
    requires plain { (binding_of c.now).differs ≡ [] }
    ensures yes { IfOk result (λ r. IsTrue r → HasStanding (marks_of marks.now)
        (binding_of c.now) (IsWanted wanted.entry)) }
    ensures no { IfOk result (λ r. IsFalse r → (b : _)
        → Stands (marks_of marks.now) (binding_of c.now) b → IsWanted wanted.entry b → ⊥) }
{
    match close(alloc, marks, c)? {
        Some(whole) => passes(alloc, wanted, &whole),
        None => Ok(false),
    }
}

// The first of these that stands for a binding that is wanted.
fn first_match<'a>(
    alloc: Global,
    wanted: Wanted<'_>,
    marks: &[Mark],
    found: &'a [Binding],
) -> Result<Option<&'a Binding>, NoMemory>
    requires distinct { AreDistinct (mark_names (marks_of marks.now)) }
    requires plain { (c : _) → In c (bindings_of found.now) → c.differs ≡ [] }
    ensures found { IfOk result (λ r. IfSome r (λ c.
        In (binding_of c.now) (bindings_of found.now))) }
    ensures standing { IfOk result (λ r. IfSome r (λ c. HasStanding (marks_of marks.now)
        (binding_of c.now) (IsWanted wanted.entry))) }
    ensures none { IfOk result (λ r. IfNone r ((c b : _) → In c (bindings_of found.now)
        → Stands (marks_of marks.now) c b → IsWanted wanted.entry b → ⊥)) }
{
    for binding in found {
        if is_wanted(alloc, wanted, marks, binding)? {
            return Ok(Some(binding));
        }
    }
    Ok(None)
}

/// A match of the opened pattern that is wanted; `None` exactly where the pattern has no match that is.
pub fn seek_match<M: Matcher>(
    alloc: Global,
    language: &CheckedLang,
    finder: &mut M,
    pat: &Pat,
    t: &Term,
    wanted: Wanted<'_>,
) -> Result<Option<Found>, NoMemory>
    ensures some { IfOk result (λ r. IfSome r (λ f. IsFound (pattern_of pat.now)
        (λ o c. rules.Match (language_in language.now) o (tree_of t.now) c) wanted.entry f)) }
    ensures none { IfOk result (λ r. IfNone r ((b : model.Binding)
        → rules.Match (language_in language.now) (pattern_of pat.now) (tree_of t.now) b
        → IsWanted wanted.entry b → ⊥)) }
{
    let opened = open(alloc, pat)?;
    let question = asked(alloc, language, &opened.pat)?;
    let found = finder.matches(language, &question, t)?;
    match first_match(alloc, wanted, &opened.marks, &found)? {
        Some(binding) => {
            let binding = binding.share()?;
            Ok(Some(Found { opened, binding }))
        }
        None => Ok(None),
    }
}

// Whether this is a split into the context and the part, and what it binds stands for a binding that is
// wanted.
fn is_wanted_split(
    alloc: Global,
    wanted: Wanted<'_>,
    marks: &[Mark],
    split: &Split,
    context: &Term,
    part: &Term,
) -> Result<bool, NoMemory>
    requires distinct { AreDistinct (mark_names (marks_of marks.now)) }
    requires plain { (decomposition_of split.now).binding.differs ≡ [] }
    ensures same { IfOk result (λ r. IsTrue r → decomposition_of split.now
        ≡ into (tree_of context.now) (tree_of part.now) (decomposition_of split.now).binding) }
    ensures yes { IfOk result (λ r. IsTrue r → HasStanding (marks_of marks.now)
        (decomposition_of split.now).binding (IsWanted wanted.entry)) }
    ensures no { IfOk result (λ r. IsFalse r → (c b : _)
        → into (tree_of context.now) (tree_of part.now) c ≡ decomposition_of split.now
        → Stands (marks_of marks.now) c b → IsWanted wanted.entry b → ⊥) }
{
    if split.context.same(context) && split.part.same(part) {
        is_wanted(alloc, wanted, marks, &split.binding)
    } else {
        Ok(false)
    }
}

// The first of these that is such a split.
fn first_split<'a>(
    alloc: Global,
    wanted: Wanted<'_>,
    marks: &[Mark],
    found: &'a [Split],
    context: &Term,
    part: &Term,
) -> Result<Option<&'a Binding>, NoMemory>
    requires distinct { AreDistinct (mark_names (marks_of marks.now)) }
    requires plain { (d : _) → In d (decompositions_of found.now) → d.binding.differs ≡ [] }
    ensures found { IfOk result (λ r. IfSome r (λ c. In (into (tree_of context.now)
        (tree_of part.now) (binding_of c.now)) (decompositions_of found.now))) }
    ensures standing { IfOk result (λ r. IfSome r (λ c. HasStanding (marks_of marks.now)
        (binding_of c.now) (IsWanted wanted.entry))) }
    ensures none { IfOk result (λ r. IfNone r ((c b : _)
        → In (into (tree_of context.now) (tree_of part.now) c) (decompositions_of found.now)
        → Stands (marks_of marks.now) c b → IsWanted wanted.entry b → ⊥)) }
{
    for split in found {
        if is_wanted_split(alloc, wanted, marks, split, context, part)? {
            return Ok(Some(&split.binding));
        }
    }
    Ok(None)
}

/// A split by the opened pattern into these that is wanted; `None` exactly where the pattern has none
/// that is.
pub fn seek_split<M: Matcher>(
    alloc: Global,
    language: &CheckedLang,
    finder: &mut M,
    pat: &Pat,
    t: &Term,
    context: &Term,
    part: &Term,
    wanted: Wanted<'_>,
) -> Result<Option<Found>, NoMemory>
    ensures some { IfOk result (λ r. IfSome r (λ f. IsFound (pattern_of pat.now)
        (λ o c. rules.Split (language_in language.now) o (tree_of t.now) (tree_of context.now)
        (tree_of part.now) c) wanted.entry f)) }
    ensures none { IfOk result (λ r. IfNone r ((b : model.Binding)
        → rules.Split (language_in language.now) (pattern_of pat.now) (tree_of t.now)
        (tree_of context.now) (tree_of part.now) b → IsWanted wanted.entry b → ⊥)) }
{
    let opened = open(alloc, pat)?;
    let question = asked(alloc, language, &opened.pat)?;
    let found = finder.splits(language, &question, t)?;
    match first_split(alloc, wanted, &opened.marks, &found, context, part)? {
        Some(binding) => {
            let binding = binding.share()?;
            Ok(Some(Found { opened, binding }))
        }
        None => Ok(None),
    }
}

/// The match of the opened pattern that stands for this one. A pattern without mismatch names binds that
/// itself, so that nothing is asked.
pub fn known_match<M: Matcher>(
    alloc: Global,
    language: &CheckedLang,
    finder: &mut M,
    pat: &Pat,
    t: &Term,
    b: &Binding,
) -> Result<Found, NoMemory>
    requires { rules.Match (language_in language.now) (pattern_of pat.now) (tree_of t.now)
        (binding_of b.now) }
    ensures { IfOk result (λ f. IsFound (pattern_of pat.now)
        (λ o c. rules.Match (language_in language.now) o (tree_of t.now) c) (Whole b.entry) f) }
{
    let opened = open(alloc, pat)?;
    if opened.marks.is_empty() {
        let binding = b.share()?;
        return Ok(Found { opened, binding });
    }
    match seek_match(alloc, language, finder, pat, t, Wanted::Whole(b))? {
        Some(found) => Ok(found),
        None => unreachable!(),
    }
}

/// The split by the opened pattern that stands for this one.
pub fn known_split<M: Matcher>(
    alloc: Global,
    language: &CheckedLang,
    finder: &mut M,
    pat: &Pat,
    t: &Term,
    context: &Term,
    part: &Term,
    b: &Binding,
) -> Result<Found, NoMemory>
    requires { rules.Split (language_in language.now) (pattern_of pat.now) (tree_of t.now)
        (tree_of context.now) (tree_of part.now) (binding_of b.now) }
    ensures { IfOk result (λ f. IsFound (pattern_of pat.now)
        (λ o c. rules.Split (language_in language.now) o (tree_of t.now) (tree_of context.now)
        (tree_of part.now) c) (Whole b.entry) f) }
{
    let opened = open(alloc, pat)?;
    if opened.marks.is_empty() {
        let binding = b.share()?;
        return Ok(Found { opened, binding });
    }
    match seek_split(
        alloc,
        language,
        finder,
        pat,
        t,
        context,
        part,
        Wanted::Whole(b),
    )? {
        Some(found) => Ok(found),
        None => unreachable!(),
    }
}
