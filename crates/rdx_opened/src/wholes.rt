// What bindings of opened patterns say of the patterns.
ghost use Rattle.std.specs.Prelude.{◌≡◌, [], IfNone, IfOk, IfSome};
ghost use Rattle.rdx_lang.specs.Bindings as model;
ghost use Rattle.rdx_lang.specs.Checked.{language_in};
ghost use Rattle.rdx_lang.specs.Names.{names};
ghost use Rattle.rdx_lang.specs.PatternView.{pattern_of};
ghost use Rattle.rdx_lang.specs.Rules.{Match, Split};
ghost use Rattle.rdx_lang.specs.Shown.{binding_of};
ghost use Rattle.rdx_term.specs.View.{tree_of};
ghost use Rattle.rdx_opened.specs.Opening.{AreDistinct, IsApart, Stands, mark_names};
ghost use Rattle.rdx_opened.specs.Picking as picking;
ghost use Rattle.rdx_opened.specs.Seeking.{IsWanted, marks_of};

use crate::opening::{Mark, close};
use crate::parts::restricted;
use crate::seeking::{Wanted, seek_match, seek_split};
use rdx_lang::{Binding, CheckedLang, Matcher, Pat};
use rdx_term::{NoMemory, Term};
use std::alloc::Global;

/// What a binding whose terms under marks are apart says of the pattern.
pub fn whole(alloc: Global, marks: &[Mark], c: &Binding) -> Result<Binding, NoMemory>
    requires distinct { AreDistinct (mark_names (marks_of marks.now)) }
    requires plain { (binding_of c.now).differs ≡ [] }
    requires apart { IsApart (marks_of marks.now) (binding_of c.now) }
    ensures { IfOk result (λ b. Stands (marks_of marks.now) (binding_of c.now) (binding_of b)) }
{
    match close(alloc, marks, c)? {
        Some(b) => Ok(b),
        None => unreachable!(),
    }
}

/// What a binding says of the names of a pattern inside, which is opened.
pub fn part_of(alloc: Global, marks: &[Mark], c: &Binding, inner: &Pat) -> Result<Binding, NoMemory>
    requires distinct { AreDistinct (mark_names (marks_of marks.now)) }
    requires apart { IsApart (marks_of marks.now)
        (picking.picked (binding_of c.now) (names (pattern_of inner.now))) }
    ensures { IfOk result (λ b. Stands (marks_of marks.now)
        (picking.picked (binding_of c.now) (names (pattern_of inner.now))) (binding_of b)) }
{
    let names = inner.names(alloc)?;
    whole(alloc, marks, &restricted(alloc, c, &names)?)
}

/// What the pattern binds where it matches the term, if it binds what is wanted so; `None` exactly where
/// it does not.
pub fn found_match<M: Matcher + Drop>(
    alloc: Global,
    language: &CheckedLang,
    finder: &mut M,
    pat: &Pat,
    t: &Term,
    wanted: Wanted<'_>,
) -> Result<Option<Binding>, NoMemory>
    ensures some { IfOk result (λ r. IfSome r (λ b. Match (language_in language.now)
        (pattern_of pat.now) (tree_of t.now) (binding_of b) × IsWanted wanted.entry (binding_of b))) }
    ensures none { IfOk result (λ r. IfNone r ((b : model.Binding)
        → Match (language_in language.now) (pattern_of pat.now) (tree_of t.now) b
        → IsWanted wanted.entry b → ⊥)) }
{
    let Some(found) = seek_match(alloc, language, finder, pat, t, wanted)? else {
        return Ok(None);
    };
    let b = whole(alloc, &found.opened.marks, &found.binding)?;
    Ok(Some(b))
}

/// The same where it splits the term into these.
pub fn found_split<M: Matcher + Drop>(
    alloc: Global,
    language: &CheckedLang,
    finder: &mut M,
    pat: &Pat,
    t: &Term,
    context: &Term,
    part: &Term,
    wanted: Wanted<'_>,
) -> Result<Option<Binding>, NoMemory>
    ensures some { IfOk result (λ r. IfSome r (λ b. Split (language_in language.now)
        (pattern_of pat.now) (tree_of t.now) (tree_of context.now) (tree_of part.now) (binding_of b)
        × IsWanted wanted.entry (binding_of b))) }
    ensures none { IfOk result (λ r. IfNone r ((b : model.Binding)
        → Split (language_in language.now) (pattern_of pat.now) (tree_of t.now)
        (tree_of context.now) (tree_of part.now) b → IsWanted wanted.entry b → ⊥)) }
{
    let Some(found) = seek_split(alloc, language, finder, pat, t, context, part, wanted)? else {
        return Ok(None);
    };
    let b = whole(alloc, &found.opened.marks, &found.binding)?;
    Ok(Some(b))
}
