// Steps down from goals of patterns with one or two patterns inside.
ghost use Rattle.std.specs.Prelude.{◌≡◌, ◌↔◌, ◌∷◌, [], IfNone, IfOk, IfSome, IsTrue};
ghost use Rattle.rdx_lang.specs.Bindings as model;
ghost use Rattle.rdx_lang.specs.Checked.{language_in};
ghost use Rattle.rdx_lang.specs.Listing.{IsSeen};
ghost use Rattle.rdx_lang.specs.Members.{In};
ghost use Rattle.rdx_lang.specs.Names.{names};
ghost use Rattle.rdx_lang.specs.PatternView.{pattern_of};
ghost use Rattle.rdx_lang.specs.Patterns.{named, in_hole, hide_hole, closed};
ghost use Rattle.rdx_lang.specs.Rules.{Match, Split};
ghost use Rattle.rdx_lang.specs.Shown.{binding_of, bindings_of};
ghost use Rattle.rdx_term.specs.Fill.{fill_of};
ghost use Rattle.rdx_term.specs.Tree.{Tree};
ghost use Rattle.rdx_term.specs.View.{tree_of};
ghost use Rattle.rdx_bind.specs.Namings.{naming_of, under};
ghost use Rattle.rdx_deriv.specs.Derivations.{matched, split};
ghost use Rattle.rdx_deriv.specs.DerivationView.{goal_of};
ghost use Rattle.rdx_opened.specs.Opening.{AreDistinct, IsApart, Stands, mark_names};
ghost use Rattle.rdx_opened.specs.Picking as picking;
ghost use Rattle.rdx_opened.specs.Seeking.{IsWanted, marks_of};
ghost use Rattle.rdx_why.specs.Inside.Steps.{IsKnown, IsStep, goals_in};
ghost use Rattle.rdx_deriv.specs.Uses.{IsMatchUse, IsSplitUse};

use crate::along::{named_context, part_along};
use crate::step::Step;
use rdx_bind::is_same;
use rdx_bind::naming::Naming;
use rdx_deriv::{Goal, is_filled};
use rdx_lang::{Binding, CheckedLang, Matcher, Pat};
use rdx_opened::{
    Mark, Wanted, asked, found_match, found_split, known_match, known_split, part_of, restricted,
    whole,
};
use rdx_term::{Name, NoMemory, Term};
use std::alloc::Global;

/// The goal that the pattern matches the term.
pub(crate) fn match_goal(
    alloc: Global,
    l: &Name,
    q: &Pat,
    t: &Term,
    b: Binding,
) -> Result<Goal, NoMemory>
    ensures { IfOk result (λ g. goal_of g
        ≡ matched l.now (pattern_of q.now) (tree_of t.now) (binding_of b)) }
{
    Ok(Goal::Match(l.share()?, q.share(alloc)?, t.share()?, b))
}

/// The goal that the pattern splits the term.
pub(crate) fn split_goal(
    alloc: Global,
    l: &Name,
    q: &Pat,
    t: &Term,
    context: &Term,
    part: &Term,
    b: Binding,
) -> Result<Goal, NoMemory>
    ensures { IfOk result (λ g. goal_of g ≡ split l.now (pattern_of q.now) (tree_of t.now)
        (tree_of context.now) (tree_of part.now) (binding_of b)) }
{
    let context = context.share()?;
    let part = part.share()?;
    Ok(Goal::Split(l.share()?, q.share(alloc)?, t.share()?, context, part, b))
}

/// A step without a choice, and from nothing.
pub(crate) fn alone(alloc: Global) -> Step
    ensures { (result.choice.items ≡ []) × (goals_in result ≡ []) }
{
    Step {
        choice: Vec::new(alloc),
        under: Vec::new(alloc),
    }
}

/// A step from one goal.
pub(crate) fn one_under(alloc: Global, choice: Vec<usize>, goal: Goal) -> Result<Step, NoMemory>
    ensures { IfOk result (λ s. (s.choice.items ≡ choice.items)
        × (goals_in s ≡ goal_of goal ∷ [])) }
{
    let mut under = Vec::new(alloc);
    under.push(goal)?;
    Ok(Step { choice, under })
}

// A step without a choice from two goals.
fn two_under(alloc: Global, first: Goal, second: Goal) -> Result<Step, NoMemory>
    ensures { IfOk result (λ s. (s.choice.items ≡ [])
        × (goals_in s ≡ goal_of first ∷ goal_of second ∷ [])) }
{
    let mut under = Vec::new(alloc);
    under.push(first)?;
    under.push(second)?;
    Ok(Step {
        choice: Vec::new(alloc),
        under,
    })
}

/// A closed pattern that matches.
pub(crate) fn step_closed_match<M: Matcher + Drop>(
    alloc: Global,
    language: &CheckedLang,
    finder: &mut M,
    l: &Name,
    q: &Pat,
    t: &Term,
    b: &Binding,
) -> Result<Step, NoMemory>
    requires known { IsKnown (language_in language.now) (pattern_of q.now) }
    requires follows { Match (language_in language.now) (closed (pattern_of q.now)) (tree_of t.now)
        (binding_of b.now) }
    ensures { IfOk result (IsStep (language_in language.now) l.now (IsMatchUse
        (language_in language.now) l.now (closed (pattern_of q.now)) (tree_of t.now)
        (binding_of b.now))) }
{
    let Some(c) = found_match(alloc, language, finder, q, t, Wanted::Any)? else {
        unreachable!()
    };
    one_under(alloc, Vec::new(alloc), match_goal(alloc, l, q, t, c)?)
}

/// A closed pattern that splits so.
pub(crate) fn step_closed_split<M: Matcher + Drop>(
    alloc: Global,
    language: &CheckedLang,
    finder: &mut M,
    l: &Name,
    q: &Pat,
    t: &Term,
    context: &Term,
    part: &Term,
    b: &Binding,
) -> Result<Step, NoMemory>
    requires known { IsKnown (language_in language.now) (pattern_of q.now) }
    requires follows { Split (language_in language.now) (closed (pattern_of q.now)) (tree_of t.now)
        (tree_of context.now) (tree_of part.now) (binding_of b.now) }
    ensures { IfOk result (IsStep (language_in language.now) l.now (IsSplitUse
        (language_in language.now) l.now (closed (pattern_of q.now)) (tree_of t.now)
        (tree_of context.now) (tree_of part.now) (binding_of b.now))) }
{
    let Some(c) = found_split(alloc, language, finder, q, t, context, part, Wanted::Any)? else {
        unreachable!()
    };
    one_under(
        alloc,
        Vec::new(alloc),
        split_goal(alloc, l, q, t, context, part, c)?,
    )
}

/// A pattern whose contexts are hidden that matches.
pub(crate) fn step_hidden_match(
    alloc: Global,
    language: &CheckedLang,
    l: &Name,
    q: &Pat,
    t: &Term,
    b: &Binding,
) -> Result<Step, NoMemory>
    requires known { IsKnown (language_in language.now) (pattern_of q.now) }
    requires follows { Match (language_in language.now) (hide_hole (pattern_of q.now))
        (tree_of t.now) (binding_of b.now) }
    ensures { IfOk result (IsStep (language_in language.now) l.now (IsMatchUse
        (language_in language.now) l.now (hide_hole (pattern_of q.now)) (tree_of t.now)
        (binding_of b.now))) }
{
    one_under(
        alloc,
        Vec::new(alloc),
        match_goal(alloc, l, q, t, b.share()?)?,
    )
}

// The pattern under a name, in a pattern that is opened.
fn under_name(pat: &Pat) -> Option<&Pat>
    ensures some { IfSome result (λ q. (x : _)
        × (pattern_of pat.now ≡ named x (pattern_of q.now))) }
    ensures none { IfNone result ((x q : _) → pattern_of pat.now ≡ named x q → ⊥) }
{
    match pat {
        Pat::Named(_, q) => Some(q),
        _ => None,
    }
}

/// A pattern with a name, or with a mismatch name, that matches: the pattern is the whole one, and
/// the other the one under the name.
pub(crate) fn step_naming_match<M: Matcher + Drop>(
    alloc: Global,
    language: &CheckedLang,
    finder: &mut M,
    l: &Name,
    pat: &Pat,
    naming: Naming<'_>,
    q: &Pat,
    t: &Term,
    b: &Binding,
) -> Result<Step, NoMemory>
    requires naming { pattern_of pat.now ≡ under (naming_of naming) (pattern_of q.now) }
    requires known { IsKnown (language_in language.now) (pattern_of q.now) }
    requires follows { Match (language_in language.now) (pattern_of pat.now) (tree_of t.now)
        (binding_of b.now) }
    ensures { IfOk result (IsStep (language_in language.now) l.now (IsMatchUse
        (language_in language.now) l.now (pattern_of pat.now) (tree_of t.now) (binding_of b.now))) }
{
    let found = known_match(alloc, language, finder, pat, t, b)?;
    let Some(inner) = under_name(&found.opened.pat) else {
        unreachable!()
    };
    let c = part_of(alloc, &found.opened.marks, &found.binding, inner)?;
    one_under(alloc, Vec::new(alloc), match_goal(alloc, l, q, t, c)?)
}

/// The same of one that splits so.
pub(crate) fn step_naming_split<M: Matcher + Drop>(
    alloc: Global,
    language: &CheckedLang,
    finder: &mut M,
    l: &Name,
    pat: &Pat,
    naming: Naming<'_>,
    q: &Pat,
    t: &Term,
    context: &Term,
    part: &Term,
    b: &Binding,
) -> Result<Step, NoMemory>
    requires naming { pattern_of pat.now ≡ under (naming_of naming) (pattern_of q.now) }
    requires known { IsKnown (language_in language.now) (pattern_of q.now) }
    requires follows { Split (language_in language.now) (pattern_of pat.now) (tree_of t.now)
        (tree_of context.now) (tree_of part.now) (binding_of b.now) }
    ensures { IfOk result (IsStep (language_in language.now) l.now (IsSplitUse
        (language_in language.now) l.now (pattern_of pat.now) (tree_of t.now) (tree_of context.now)
        (tree_of part.now) (binding_of b.now))) }
{
    let found = known_split(alloc, language, finder, pat, t, context, part, b)?;
    let Some(inner) = under_name(&found.opened.pat) else {
        unreachable!()
    };
    let c = part_of(alloc, &found.opened.marks, &found.binding, inner)?;
    one_under(
        alloc,
        Vec::new(alloc),
        split_goal(alloc, l, q, t, context, part, c)?,
    )
}

/// The two patterns of a pattern for contexts and parts.
#[derive(Clone, Copy)]
pub(crate) struct TwoPatterns<'a> {
    /// The pattern for contexts.
    pub left: &'a Pat,
    /// The pattern for parts.
    pub right: &'a Pat,
}

// The two patterns of one that is opened.
fn two_patterns(pat: &Pat) -> Option<TwoPatterns<'_>>
    ensures some { IfSome result (λ ps. pattern_of pat.now
        ≡ in_hole (pattern_of ps.left.now) (pattern_of ps.right.now)) }
    ensures none { IfNone result ((q r : _) → pattern_of pat.now ≡ in_hole q r → ⊥) }
{
    match pat {
        Pat::InHole(left, right) => Some(TwoPatterns { left, right }),
        _ => None,
    }
}

// What the two patterns inside bind.
#[derive(Drop)]
struct Sides {
    // What the one for contexts binds.
    outer: Binding,
    // What the one for parts binds.
    inner: Binding,
}

// What the binding says of the names of the pattern.
fn side_of(alloc: Global, c: &Binding, pat: &Pat) -> Result<Binding, NoMemory>
    ensures { IfOk result (λ b. binding_of b
        ≡ picking.picked (binding_of c.now) (names (pattern_of pat.now))) }
{
    let names = pat.names(alloc)?;
    restricted(alloc, c, &names)
}

// What it says of those of the two patterns.
fn sides_of(alloc: Global, c: &Binding, left: &Pat, right: &Pat) -> Result<Sides, NoMemory>
    ensures outer { IfOk result (λ s. binding_of s.outer
        ≡ picking.picked (binding_of c.now) (names (pattern_of left.now))) }
    ensures inner { IfOk result (λ s. binding_of s.inner
        ≡ picking.picked (binding_of c.now) (names (pattern_of right.now))) }
{
    let outer = side_of(alloc, c, left)?;
    let inner = side_of(alloc, c, right)?;
    Ok(Sides { outer, inner })
}

// What both stand for.
fn whole_sides(alloc: Global, marks: &[Mark], sides: &Sides) -> Result<Sides, NoMemory>
    requires distinct { AreDistinct (mark_names (marks_of marks.now)) }
    requires outer_plain { (binding_of sides.now.outer).differs ≡ [] }
    requires inner_plain { (binding_of sides.now.inner).differs ≡ [] }
    requires outer_apart { IsApart (marks_of marks.now) (binding_of sides.now.outer) }
    requires inner_apart { IsApart (marks_of marks.now) (binding_of sides.now.inner) }
    ensures outer { IfOk result (λ s. Stands (marks_of marks.now) (binding_of sides.now.outer)
        (binding_of s.outer)) }
    ensures inner { IfOk result (λ s. Stands (marks_of marks.now) (binding_of sides.now.inner)
        (binding_of s.inner)) }
{
    let outer = whole(alloc, marks, &sides.outer)?;
    let inner = whole(alloc, marks, &sides.inner)?;
    Ok(Sides { outer, inner })
}

// Whether the binding is one of these.
fn is_among(found: &[Binding], c: &Binding) -> bool
    ensures { IsTrue result ↔ In (binding_of c.now) (bindings_of found.now) }
{
    for binding in found {
        if is_same(binding, c) {
            return true;
        }
    }
    false
}

// Whether the opened pattern matches the term and binds this.
fn matches_so<M: Matcher + Drop>(
    alloc: Global,
    language: &CheckedLang,
    finder: &mut M,
    pat: &Pat,
    t: &Term,
    c: &Binding,
) -> Result<bool, NoMemory>
    ensures { IfOk result (λ r. IsTrue r ↔ IsSeen
        (Match (language_in language.now) (pattern_of pat.now) (tree_of t.now))
        (binding_of c.now)) }
{
    let question = asked(alloc, language, pat)?;
    let found = finder.matches(language, &question, t)?;
    Ok(is_among(&found, c))
}

// Whether what a split binds is the one side, and the opened pattern matches its part and binds the
// other.
fn is_hole<M: Matcher + Drop>(
    alloc: Global,
    language: &CheckedLang,
    finder: &mut M,
    bound: &Binding,
    part: &Term,
    right: &Pat,
    sides: &Sides,
) -> Result<bool, NoMemory>
    ensures { IfOk result (λ r. IsTrue r ↔ ((binding_of bound.now ≡ binding_of sides.now.outer)
        × IsSeen (Match (language_in language.now) (pattern_of right.now) (tree_of part.now))
        (binding_of sides.now.inner))) }
{
    if is_same(bound, &sides.outer) {
        matches_so(alloc, language, finder, right, part, &sides.inner)
    } else {
        Ok(false)
    }
}

// A context, and what stands in its hole.
#[derive(Drop)]
struct Hole {
    // The context.
    context: Term,
    // What stands in its hole.
    part: Term,
}

// The same terms.
fn hole_at(context: &Term, part: &Term) -> Result<Hole, NoMemory>
    ensures { IfOk result (λ h. (tree_of h.context ≡ tree_of context.now)
        × (tree_of h.part ≡ tree_of part.now)) }
{
    let context = context.share()?;
    let part = part.share()?;
    Ok(Hole { context, part })
}

// Some context and part into which the left opened pattern splits the term, while the right one
// matches the part, and they bind the two sides.
fn find_hole<M: Matcher + Drop>(
    alloc: Global,
    language: &CheckedLang,
    finder: &mut M,
    left: &Pat,
    right: &Pat,
    t: &Term,
    sides: &Sides,
) -> Result<Hole, NoMemory>
    requires { (C s : Tree) × IsSeen (Split (language_in language.now) (pattern_of left.now)
        (tree_of t.now) C s) (binding_of sides.now.outer) × IsSeen (Match (language_in language.now)
        (pattern_of right.now) s) (binding_of sides.now.inner) }
    ensures outer { IfOk result (λ h. IsSeen (Split (language_in language.now)
        (pattern_of left.now) (tree_of t.now) (tree_of h.context) (tree_of h.part))
        (binding_of sides.now.outer)) }
    ensures inner { IfOk result (λ h. IsSeen (Match (language_in language.now)
        (pattern_of right.now) (tree_of h.part)) (binding_of sides.now.inner)) }
{
    if let Some(context) = named_context(left, &sides.outer) {
        let part = part_along(alloc, context, t)?;
        return hole_at(context, part);
    }
    let question = asked(alloc, language, left)?;
    let found = finder.splits(language, &question, t)?;
    for outer in &found {
        if is_hole(
            alloc,
            language,
            finder,
            &outer.binding,
            &outer.part,
            right,
            sides,
        )? {
            return hole_at(&outer.context, &outer.part);
        }
    }
    unreachable!()
}

// The step from such a split and such a match.
fn from_hole(
    alloc: Global,
    l: &Name,
    left: &Pat,
    right: &Pat,
    t: &Term,
    hole: &Hole,
    sides: Sides,
) -> Result<Step, NoMemory>
    ensures { IfOk result (λ s. (s.choice.items ≡ []) × (goals_in s
        ≡ split l.now (pattern_of left.now) (tree_of t.now) (tree_of hole.now.context)
        (tree_of hole.now.part) (binding_of sides.outer)
        ∷ matched l.now (pattern_of right.now) (tree_of hole.now.part) (binding_of sides.inner)
        ∷ [])) }
{
    let first = split_goal(alloc, l, left, t, &hole.context, &hole.part, sides.outer)?;
    let second = match_goal(alloc, l, right, &hole.part, sides.inner)?;
    two_under(alloc, first, second)
}

/// A pattern for contexts and parts that matches.
pub(crate) fn step_in_hole_match<M: Matcher + Drop>(
    alloc: Global,
    language: &CheckedLang,
    finder: &mut M,
    l: &Name,
    pat: &Pat,
    inside: TwoPatterns<'_>,
    t: &Term,
    b: &Binding,
) -> Result<Step, NoMemory>
    requires two { pattern_of pat.now
        ≡ in_hole (pattern_of inside.left.now) (pattern_of inside.right.now) }
    requires known { IsKnown (language_in language.now) (pattern_of pat.now) }
    requires follows { Match (language_in language.now) (pattern_of pat.now) (tree_of t.now)
        (binding_of b.now) }
    ensures { IfOk result (IsStep (language_in language.now) l.now (IsMatchUse
        (language_in language.now) l.now (pattern_of pat.now) (tree_of t.now) (binding_of b.now))) }
{
    let found = known_match(alloc, language, finder, pat, t, b)?;
    let Some(opened) = two_patterns(&found.opened.pat) else {
        unreachable!()
    };
    let sides = sides_of(alloc, &found.binding, opened.left, opened.right)?;
    let hole = find_hole(
        alloc,
        language,
        finder,
        opened.left,
        opened.right,
        t,
        &sides,
    )?;
    let sides = whole_sides(alloc, &found.opened.marks, &sides)?;
    from_hole(alloc, l, inside.left, inside.right, t, &hole, sides)
}

// Whether a split into this context and this part, which binds this, is one whose context fills the
// outer one, whose part is that, and which binds c.
fn fits(
    alloc: Global,
    inner: &Term,
    at: &Term,
    bound: &Binding,
    outer: &Term,
    context: &Term,
    part: &Term,
    c: &Binding,
) -> Result<bool, NoMemory>
    ensures { IfOk result (λ r. IsTrue r ↔ ((tree_of context.now
        ≡ fill_of (tree_of outer.now) (tree_of inner.now)) × (tree_of at.now ≡ tree_of part.now)
        × (binding_of bound.now ≡ binding_of c.now))) }
{
    if at.same(part) && is_same(bound, c) {
        is_filled(alloc, outer, inner, context)
    } else {
        Ok(false)
    }
}

// The context into which the opened pattern splits the term with this part, and which fills the
// outer context to this one.
fn splits_so<M: Matcher + Drop>(
    alloc: Global,
    language: &CheckedLang,
    finder: &mut M,
    pat: &Pat,
    t: &Term,
    outer: &Term,
    context: &Term,
    part: &Term,
    c: &Binding,
) -> Result<Option<Term>, NoMemory>
    ensures some { IfOk result (λ r. IfSome r (λ D. (tree_of context.now
        ≡ fill_of (tree_of outer.now) (tree_of D)) × IsSeen (Split (language_in language.now)
        (pattern_of pat.now) (tree_of t.now) (tree_of D) (tree_of part.now)) (binding_of c.now))) }
    ensures none { IfOk result (λ r. IfNone r ((D : Tree) → tree_of context.now
        ≡ fill_of (tree_of outer.now) D → IsSeen (Split (language_in language.now)
        (pattern_of pat.now) (tree_of t.now) D (tree_of part.now)) (binding_of c.now) → ⊥)) }
{
    let question = asked(alloc, language, pat)?;
    let found = finder.splits(language, &question, t)?;
    for split in &found {
        if fits(
            alloc,
            &split.context,
            &split.part,
            &split.binding,
            outer,
            context,
            part,
            c,
        )? {
            return Ok(Some(split.context.share()?));
        }
    }
    Ok(None)
}

// The same where what a split binds is the one side, and what this one binds the other.
fn second_so<M: Matcher + Drop>(
    alloc: Global,
    language: &CheckedLang,
    finder: &mut M,
    bound: &Binding,
    pat: &Pat,
    t: &Term,
    outer: &Term,
    context: &Term,
    part: &Term,
    sides: &Sides,
) -> Result<Option<Term>, NoMemory>
    ensures some { IfOk result (λ r. IfSome r (λ D.
        (binding_of bound.now ≡ binding_of sides.now.outer)
        × (tree_of context.now ≡ fill_of (tree_of outer.now) (tree_of D)) × IsSeen (Split
        (language_in language.now) (pattern_of pat.now) (tree_of t.now) (tree_of D)
        (tree_of part.now)) (binding_of sides.now.inner))) }
    ensures none { IfOk result (λ r. IfNone r ((D : Tree) → binding_of bound.now
        ≡ binding_of sides.now.outer → tree_of context.now ≡ fill_of (tree_of outer.now) D
        → IsSeen (Split
        (language_in language.now) (pattern_of pat.now) (tree_of t.now) D (tree_of part.now))
        (binding_of sides.now.inner) → ⊥)) }
{
    if is_same(bound, &sides.outer) {
        splits_so(
            alloc,
            language,
            finder,
            pat,
            t,
            outer,
            context,
            part,
            &sides.inner,
        )
    } else {
        Ok(None)
    }
}

// Two contexts, and what stands in the hole of the first.
#[derive(Drop)]
struct TwoHoles {
    // The first context.
    first: Term,
    // The second one, into which what stands in the hole of the first is split.
    second: Term,
    // What stands in the hole of the first.
    middle: Term,
}

// The same terms.
fn holes_at(first: &Term, second: Term, middle: &Term) -> Result<TwoHoles, NoMemory>
    ensures { IfOk result (λ h. (tree_of h.first ≡ tree_of first.now)
        × (tree_of h.second ≡ tree_of second) × (tree_of h.middle ≡ tree_of middle.now)) }
{
    let first = first.share()?;
    let middle = middle.share()?;
    Ok(TwoHoles {
        first,
        second,
        middle,
    })
}

// Some contexts, the one of which fills the other to this one, so that the left opened pattern
// splits the term into the first, while the right one splits what stands in its hole into the
// second and the part, and they bind the two sides.
fn find_holes<M: Matcher + Drop>(
    alloc: Global,
    language: &CheckedLang,
    finder: &mut M,
    left: &Pat,
    right: &Pat,
    t: &Term,
    context: &Term,
    part: &Term,
    sides: &Sides,
) -> Result<TwoHoles, NoMemory>
    requires { (D z : Tree) × IsSeen (Split (language_in language.now) (pattern_of left.now)
        (tree_of t.now) D z) (binding_of sides.now.outer) × (E : Tree) × (tree_of context.now
        ≡ fill_of D E) × IsSeen (Split (language_in language.now) (pattern_of right.now) z E
        (tree_of part.now)) (binding_of sides.now.inner) }
    ensures outer { IfOk result (λ h. IsSeen (Split (language_in language.now)
        (pattern_of left.now) (tree_of t.now) (tree_of h.first) (tree_of h.middle))
        (binding_of sides.now.outer)) }
    ensures inner { IfOk result (λ h. IsSeen (Split (language_in language.now)
        (pattern_of right.now) (tree_of h.middle) (tree_of h.second) (tree_of part.now))
        (binding_of sides.now.inner)) }
    ensures filled { IfOk result (λ h. tree_of context.now
        ≡ fill_of (tree_of h.first) (tree_of h.second)) }
{
    if let Some(first) = named_context(left, &sides.outer) {
        let middle = part_along(alloc, first, t)?;
        let second = part_along(alloc, first, context)?.share()?;
        return holes_at(first, second, middle);
    }
    let question = asked(alloc, language, left)?;
    let found = finder.splits(language, &question, t)?;
    for outer in &found {
        let middle = &outer.part;
        let first = &outer.context;
        if let Some(second) = second_so(
            alloc,
            language,
            finder,
            &outer.binding,
            right,
            middle,
            first,
            context,
            part,
            sides,
        )? {
            return holes_at(first, second, middle);
        }
    }
    unreachable!()
}

// The step from such splits.
fn from_holes(
    alloc: Global,
    l: &Name,
    left: &Pat,
    right: &Pat,
    t: &Term,
    part: &Term,
    holes: &TwoHoles,
    sides: Sides,
) -> Result<Step, NoMemory>
    ensures { IfOk result (λ s. (s.choice.items ≡ []) × (goals_in s
        ≡ split l.now (pattern_of left.now) (tree_of t.now) (tree_of holes.now.first)
        (tree_of holes.now.middle) (binding_of sides.outer)
        ∷ split l.now (pattern_of right.now) (tree_of holes.now.middle) (tree_of holes.now.second)
        (tree_of part.now) (binding_of sides.inner) ∷ [])) }
{
    let first = split_goal(alloc, l, left, t, &holes.first, &holes.middle, sides.outer)?;
    let second = split_goal(
        alloc,
        l,
        right,
        &holes.middle,
        &holes.second,
        part,
        sides.inner,
    )?;
    two_under(alloc, first, second)
}

/// One that splits so.
pub(crate) fn step_in_hole_split<M: Matcher + Drop>(
    alloc: Global,
    language: &CheckedLang,
    finder: &mut M,
    l: &Name,
    pat: &Pat,
    inside: TwoPatterns<'_>,
    t: &Term,
    context: &Term,
    part: &Term,
    b: &Binding,
) -> Result<Step, NoMemory>
    requires two { pattern_of pat.now
        ≡ in_hole (pattern_of inside.left.now) (pattern_of inside.right.now) }
    requires known { IsKnown (language_in language.now) (pattern_of pat.now) }
    requires follows { Split (language_in language.now) (pattern_of pat.now) (tree_of t.now)
        (tree_of context.now) (tree_of part.now) (binding_of b.now) }
    ensures { IfOk result (IsStep (language_in language.now) l.now (IsSplitUse
        (language_in language.now) l.now (pattern_of pat.now) (tree_of t.now) (tree_of context.now)
        (tree_of part.now) (binding_of b.now))) }
{
    let found = known_split(alloc, language, finder, pat, t, context, part, b)?;
    let Some(opened) = two_patterns(&found.opened.pat) else {
        unreachable!()
    };
    let sides = sides_of(alloc, &found.binding, opened.left, opened.right)?;
    let holes = find_holes(
        alloc,
        language,
        finder,
        opened.left,
        opened.right,
        t,
        context,
        part,
        &sides,
    )?;
    let sides = whole_sides(alloc, &found.opened.marks, &sides)?;
    from_holes(alloc, l, inside.left, inside.right, t, part, &holes, sides)
}
