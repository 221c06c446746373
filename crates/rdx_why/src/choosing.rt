// Steps down from nonterminals: by the first alternative that matches, or splits so. What the form of an
// alternative rules out is not asked, nor the last one that is left, where it binds nothing.
ghost use Rattle.std.specs.Prelude.{◌≡◌, ◌≤◌, IfNone, IfOk, IfSome, IsFalse, IsTrue, drop, length, map};
ghost use Rattle.rdx_lang.specs.Bindings as model;
ghost use Rattle.rdx_lang.specs.Bindings.{no_names};
ghost use Rattle.rdx_lang.specs.Checked.{language_in};
ghost use Rattle.rdx_lang.specs.Members.{In};
ghost use Rattle.rdx_lang.specs.PatternView.{pattern_of};
ghost use Rattle.rdx_lang.specs.Patterns.{nt};
ghost use Rattle.rdx_lang.specs.Rules.{Match, Split};
ghost use Rattle.rdx_lang.specs.Shown.{binding_of};
ghost use Rattle.rdx_term.specs.View.{tree_of};
ghost use Rattle.rdx_deriv.specs.Uses.{IsMatchUse, IsSplitUse};
ghost use Rattle.rdx_lang.proofs.RuleSteps.{SomeMatch, SomeSplit};
ghost use Rattle.rdx_why.specs.Inside.Around.{IsPath};
ghost use Rattle.rdx_why.specs.Inside.Forms.{NeverMatches, NeverSplits};
ghost use Rattle.rdx_why.specs.Inside.Steps.{IsStep};

use crate::around::{Path, shared_path, splits_around};
use crate::forms::{binds_nothing, may_match, may_split};
use crate::inner::{match_goal, one_under, split_goal};
use crate::step::Step;
use rdx_lang::{Binding, CheckedLang, Matcher, Pat, Ref};
use rdx_opened::{Wanted, found_match, found_split};
use rdx_term::{Name, NoMemory, Term};
use std::alloc::Global;

// How many alternatives there are up to the last one whose form leaves it open that it matches.
fn open_matches(language: &CheckedLang, alternatives: &[Pat], t: &Term) -> usize
    ensures within { result ≤ length alternatives.now }
    ensures none { (q : _) → In q (map pattern_of (drop result alternatives.now))
        → NeverMatches (language_in language.now) q (tree_of t.now) }
{
    for place in (0..alternatives.len()).rev() {
        if may_match(language, &alternatives[place], t) {
            return place + 1;
        }
    }
    0
}

// The same of splits into this context.
fn open_splits(language: &CheckedLang, alternatives: &[Pat], context: &Term) -> usize
    ensures within { result ≤ length alternatives.now }
    ensures none { (q : _) → In q (map pattern_of (drop result alternatives.now))
        → NeverSplits (language_in language.now) q (tree_of context.now) }
{
    for place in (0..alternatives.len()).rev() {
        if may_split(language, &alternatives[place], context) {
            return place + 1;
        }
    }
    0
}

// What the pattern binds where it matches, if it does; it is sure that it does, or else it is asked.
fn binding_of_match<M: Matcher + Drop>(
    alloc: Global,
    language: &CheckedLang,
    finder: &mut M,
    q: &Pat,
    t: &Term,
    is_sure: bool,
) -> Result<Option<Binding>, NoMemory>
    requires { IsTrue is_sure
        → SomeMatch (language_in language.now) (pattern_of q.now) (tree_of t.now) }
    ensures some { IfOk result (λ r. IfSome r (λ b. Match (language_in language.now)
        (pattern_of q.now) (tree_of t.now) (binding_of b))) }
    ensures none { IfOk result (λ r. IfNone r ((b : model.Binding)
        → Match (language_in language.now) (pattern_of q.now) (tree_of t.now) b → ⊥)) }
{
    if is_sure && binds_nothing(alloc, q)? {
        return Ok(Some(Binding::new(Vec::new(alloc))));
    }
    if !may_match(language, q, t) {
        return Ok(None);
    }
    found_match(alloc, language, finder, q, t, Wanted::Any)
}

// The binding of no name, where this is so.
fn nothing_where(alloc: Global, holds: bool) -> Option<Binding>
    ensures some { IfSome result (λ b. IsTrue holds × (binding_of b ≡ no_names)) }
    ensures none { IfNone result (IsFalse holds) }
{
    if holds {
        Some(Binding::new(Vec::new(alloc)))
    } else {
        None
    }
}

// The same where it splits the term into these.
fn binding_of_split<M: Matcher + Drop>(
    alloc: Global,
    language: &CheckedLang,
    finder: &mut M,
    q: &Pat,
    t: &Term,
    context: &Term,
    part: &Term,
    is_sure: bool,
    path: &Option<Path>,
) -> Result<Option<Binding>, NoMemory>
    requires sure { IsTrue is_sure → SomeSplit (language_in language.now) (pattern_of q.now) (tree_of t.now)
        (tree_of context.now) (tree_of part.now) }
    requires path { IfSome path.now (λ w. IsPath (language_in language.now) (tree_of t.now)
        (tree_of context.now) (tree_of part.now) w.name (tree_of w.inner) (tree_of w.around)) }
    ensures some { IfOk result (λ r. IfSome r (λ b. Split (language_in language.now)
        (pattern_of q.now) (tree_of t.now) (tree_of context.now) (tree_of part.now) (binding_of b))) }
    ensures none { IfOk result (λ r. IfNone r ((b : model.Binding)
        → Split (language_in language.now) (pattern_of q.now) (tree_of t.now)
        (tree_of context.now) (tree_of part.now) b → ⊥)) }
{
    if is_sure && binds_nothing(alloc, q)? {
        return Ok(Some(Binding::new(Vec::new(alloc))));
    }
    if !may_split(language, q, context) {
        return Ok(None);
    }
    match splits_around(alloc, language, finder, q, t, context, part, path)? {
        Some(splits) => Ok(nothing_where(alloc, splits)),
        None => found_split(alloc, language, finder, q, t, context, part, Wanted::Any),
    }
}

/// A nonterminal that matches: its first alternative that does.
pub(crate) fn step_nt_match<M: Matcher + Drop>(
    alloc: Global,
    language: &CheckedLang,
    finder: &mut M,
    l: &Name,
    x: &Ref,
    t: &Term,
    b: &Binding,
) -> Result<Step, NoMemory>
    requires follows { Match (language_in language.now) (nt x.now) (tree_of t.now) (binding_of b.now) }
    ensures { IfOk result (IsStep (language_in language.now) l.now (IsMatchUse
        (language_in language.now) l.now (nt x.now) (tree_of t.now) (binding_of b.now))) }
{
    let alternatives = language.alternatives(x);
    let open = open_matches(language, alternatives, t);
    for place in 0..open {
        let q = &alternatives[place];
        let is_last = place + 1 == open;
        if let Some(c) = binding_of_match(alloc, language, finder, q, t, is_last)? {
            let mut choice = Vec::new(alloc);
            choice.push(place)?;
            return one_under(alloc, choice, match_goal(alloc, l, q, t, c)?);
        }
    }
    unreachable!()
}

/// A nonterminal that splits so: its first alternative that does.
pub(crate) fn step_nt_split<M: Matcher + Drop>(
    alloc: Global,
    language: &CheckedLang,
    finder: &mut M,
    l: &Name,
    x: &Ref,
    t: &Term,
    context: &Term,
    part: &Term,
    b: &Binding,
) -> Result<Step, NoMemory>
    requires follows { Split (language_in language.now) (nt x.now) (tree_of t.now)
        (tree_of context.now) (tree_of part.now) (binding_of b.now) }
    ensures { IfOk result (IsStep (language_in language.now) l.now (IsSplitUse
        (language_in language.now) l.now (nt x.now) (tree_of t.now) (tree_of context.now)
        (tree_of part.now) (binding_of b.now))) }
{
    let alternatives = language.alternatives(x);
    let open = open_splits(language, alternatives, context);
    let path = shared_path(alloc, language, alternatives, open, context)?;
    for place in 0..open {
        let q = &alternatives[place];
        let is_last = place + 1 == open;
        let found = binding_of_split(alloc, language, finder, q, t, context, part, is_last, &path)?;
        if let Some(c) = found {
            let mut choice = Vec::new(alloc);
            choice.push(place)?;
            return one_under(alloc, choice, split_goal(alloc, l, q, t, context, part, c)?);
        }
    }
    unreachable!()
}
