// What stands in extras, and in a case or a clause with them.
ghost use Rattle.std.specs.Prelude.{◌≡◌, ◌++◌, ◌∷◌, [], IfOk, map};
ghost use Rattle.rdx_patterns.specs.OccurrenceView.{occurrences_of};
ghost use Rattle.rdx_patterns.specs.Readable.{IsReadable};
ghost use Rattle.rdx_templates.specs.Scope.{scope_of};
ghost use Rattle.rdx_parts.specs.BareStands as bare;
ghost use Rattle.rdx_parts.specs.Outlines.{taken_occurrences};
ghost use Rattle.rdx_parts.specs.PartViews.{arguments_of, branch_of, extra_form_of, place_of, stand_of, stands_of, takes_of};
ghost use Rattle.rdx_parts.specs.PartsHave.{AreReadable, ExtraHas, ExtrasHave, PremiseHas, BranchHas, IsReadableTaken, readable};
ghost use Rattle.rdx_parts.specs.Headed as headed;
ghost use Rattle.rdx_parts.specs.Stands as model;

use crate::arguments::{Arguments, headed_list, is_misfit, mode_of, premise_arguments};
use crate::branches::{Branch, Takes};
use crate::extras::{ExtraForm, ExtraPlace, form_at};
use rdx_patterns::occurrences::{Occurrence, add_pattern, add_patterns};
use rdx_patterns::shape::text;
use rdx_sexp::Datum;
use rdx_templates::Scope;
use rdx_term::NoMemory;
use std::alloc::Global;

/// One of the things that stand in a form, without what is bound before it.
#[derive(Drop)]
pub enum Stand<'a> {
    /// A form, a case, a clause, a rule, an extra or an option that has not its shape.
    Misshaped(&'a Datum),
    /// The name of a metafunction.
    Function(&'a Datum),
    /// The name of a judgement where it is defined.
    Judgement(&'a Datum),
    /// The name of a judgement in a premise.
    Asked(&'a Datum),
    /// The arrow of a case.
    Arrow(&'a Datum),
    /// A pattern, by what stands in it.
    Pattern(Vec<Occurrence<'a>>),
    /// A template.
    Template(&'a Datum),
    /// A host expression.
    Condition(&'a Datum),
    /// An argument that is neither a pattern nor a template, by what stands in it.
    Plain(Vec<Occurrence<'a>>),
    /// What does not fit a mode, or lacks one, and the name of the judgement, where there is one.
    Misfit(&'a Datum, Option<&'a Datum>),
    /// A name that is made.
    Fresh(&'a Datum),
    /// The name of a case or a rule, and whether none may come here.
    Named(bool, &'a Datum),
    /// The arrow of a shortcut, which an earlier one has.
    Repeated(&'a Datum),
}

// Adds one thing.
fn add_one<'a>(one: Stand<'a>, out: &mut Vec<Stand<'a>>) -> Result<(), NoMemory>
    ensures { IfOk result (λ _.
        stands_of out.new.items ≡ stands_of out.old.items ++ stand_of one.entry ∷ []) }
{
    Ok(out.push(one)?)
}

/// What stands in what is taken.
pub(crate) fn in_takes<'a>(alloc: Global, takes: Takes<'a>) -> Result<Vec<Occurrence<'a>>, NoMemory>
    requires { IsReadableTaken (takes_of takes) }
    ensures { IfOk result (λ found.
        occurrences_of found.items ≡ taken_occurrences (takes_of takes.entry)) }
{
    let mut found = Vec::new(alloc);
    match takes {
        Takes::One(pattern) => add_pattern(0, pattern, &mut found)?,
        Takes::Several(items) => add_patterns(0, items, &mut found)?,
    }
    Ok(found)
}

// Adds what is taken, before which nothing is bound.
fn add_taken<'a>(alloc: Global, takes: Takes<'a>, out: &mut Vec<Stand<'a>>) -> Result<(), NoMemory>
    requires { IsReadableTaken (takes_of takes) }
    ensures { IfOk result (λ _.
        stands_of out.new.items
        ≡ stands_of out.old.items
        ++ model.pattern [] (taken_occurrences (takes_of takes.entry)) ∷ []) }
{
    let found = in_takes(alloc, takes)?;
    add_one(Stand::Pattern(found), out)
}

/// Adds a pattern that stands by itself.
pub fn add_alone<'a>(
    alloc: Global,
    pattern: &'a Datum,
    out: &mut Vec<Stand<'a>>,
) -> Result<(), NoMemory>
    requires { IsReadable pattern.now }
    ensures { IfOk result (λ _.
        stands_of out.new.items
        ≡ stands_of out.old.items ++ bare.lone_pattern pattern.now ∷ []) }
{
    add_taken(alloc, Takes::One(pattern), out)
}

/// Adds the datum, if its arguments do not fit the mode of the judgement of this name.
pub fn add_misfit<'a>(
    is_misfit: bool,
    d: &'a Datum,
    judgement: &'a Datum,
    out: &mut Vec<Stand<'a>>,
) -> Result<(), NoMemory>
    ensures { IfOk result (λ _.
        stands_of out.new.items
        ≡ stands_of out.old.items ++ model.misfits is_misfit d.now judgement.now) }
{
    if is_misfit {
        out.push(Stand::Misfit(d, Some(judgement)))?;
    }
    Ok(())
}

// Adds arguments that are neither patterns nor templates.
fn add_plain<'a>(
    alloc: Global,
    arguments: &'a [Datum],
    out: &mut Vec<Stand<'a>>,
) -> Result<(), NoMemory>
    requires { AreReadable arguments.now }
    ensures { IfOk result (λ _.
        stands_of out.new.items
        ≡ stands_of out.old.items ++ map model.plain_argument arguments.now) }
{
    for d in arguments {
        let found = in_takes(alloc, Takes::One(d))?;
        out.push(Stand::Plain(found))?;
    }
    Ok(())
}

// Adds an argument that is a pattern, or else a template.
fn add_argument<'a>(
    alloc: Global,
    is_pattern: bool,
    d: &'a Datum,
    out: &mut Vec<Stand<'a>>,
) -> Result<(), NoMemory>
    requires { IsReadable d.now }
    ensures { IfOk result (λ _.
        stands_of out.new.items
        ≡ stands_of out.old.items ++ bare.flagged_stand (is_pattern ∷ []) (d.now ∷ [])) }
{
    if is_pattern {
        add_alone(alloc, d, out)
    } else {
        add_one(Stand::Template(d), out)
    }
}

/// Adds what stands in arguments.
pub fn add_arguments<'a>(
    alloc: Global,
    arguments: Arguments<'_, 'a>,
    out: &mut Vec<Stand<'a>>,
) -> Result<(), NoMemory>
    requires { AreReadable arguments.items.now }
    ensures { IfOk result (λ _.
        stands_of out.new.items
        ≡ stands_of out.old.items ++ bare.arguments_stand (arguments_of arguments.entry)) }
{
    let Some(mode) = arguments.mode else {
        return add_plain(alloc, arguments.items, out);
    };
    for (flag, d) in mode.iter().zip(arguments.items) {
        add_argument(alloc, arguments.is_pattern(*flag), d, out)?;
    }
    Ok(())
}

/// Adds what stands in a datum that has to be a premise.
pub fn add_held<'a>(
    alloc: Global,
    scope: &Scope,
    d: &'a Datum,
    out: &mut Vec<Stand<'a>>,
) -> Result<(), NoMemory>
    requires { PremiseHas (scope_of scope.now) readable (headed.headed d.now) }
    ensures { IfOk result (λ _.
        stands_of out.new.items
        ≡ stands_of out.old.items
        ++ bare.held_stands (scope_of scope.now) d.now (headed.headed d.now)) }
{
    let Some(premise) = headed_list(d) else {
        return add_one(Stand::Misshaped(d), out);
    };
    out.push(Stand::Asked(premise.head))?;
    let mode = mode_of(scope, text(premise.head));
    add_misfit(is_misfit(mode, premise.arguments), d, premise.head, out)?;
    add_arguments(alloc, premise_arguments(scope, premise), out)
}

// Adds names that are made.
fn add_fresh<'a>(made: &'a [Datum], out: &mut Vec<Stand<'a>>) -> Result<(), NoMemory>
    ensures { IfOk result (λ _.
        stands_of out.new.items ≡ stands_of out.old.items ++ bare.fresh_stands made.now) }
{
    for d in made {
        out.push(Stand::Fresh(d))?;
    }
    Ok(())
}

// Adds what stands in an extra; no name may come here, or one may.
fn add_extra<'a>(
    alloc: Global,
    scope: &Scope,
    again: bool,
    d: &'a Datum,
    extra: ExtraForm<'a>,
    out: &mut Vec<Stand<'a>>,
) -> Result<(), NoMemory>
    requires { ExtraHas (scope_of scope.now) readable (extra_form_of extra) }
    ensures { IfOk result (λ _.
        stands_of out.new.items
        ≡ stands_of out.old.items
        ++ bare.extra_stands (scope_of scope.now) again d.now (extra_form_of extra.entry)) }
{
    match extra {
        ExtraForm::SuchThat(pattern, template) => {
            add_alone(alloc, pattern, out)?;
            add_one(Stand::Template(template), out)
        }
        ExtraForm::Provided(host) => add_one(Stand::Condition(host), out),
        ExtraForm::Confirmed(template) => add_one(Stand::Template(template), out),
        ExtraForm::Holding(premise) => add_held(alloc, scope, premise, out),
        ExtraForm::Freshly(made) => add_fresh(made, out),
        ExtraForm::Name => add_one(Stand::Named(again, d), out),
        ExtraForm::NoExtra => add_one(Stand::Misshaped(d), out),
    }
}

// Whether no name may come behind this extra.
fn is_named(again: bool, extra: ExtraForm<'_>) -> bool
    ensures { result ≡ model.is_named again (extra_form_of extra.entry) }
{
    match extra {
        ExtraForm::Name => true,
        ExtraForm::SuchThat(_, _)
        | ExtraForm::Provided(_)
        | ExtraForm::Confirmed(_)
        | ExtraForm::Holding(_)
        | ExtraForm::Freshly(_)
        | ExtraForm::NoExtra => again,
    }
}

/// Adds what stands in extras at such a place; no name may come there, or one may.
pub fn add_extras<'a>(
    alloc: Global,
    scope: &Scope,
    place: ExtraPlace,
    mut again: bool,
    extras: &'a [Datum],
    out: &mut Vec<Stand<'a>>,
) -> Result<(), NoMemory>
    requires { ExtrasHave (scope_of scope.now) readable (place_of place) extras.now }
    ensures { IfOk result (λ _.
        stands_of out.new.items
        ≡ stands_of out.old.items
        ++ bare.extras_stand (place_of place) (scope_of scope.now) again extras.now) }
{
    for d in extras {
        let extra = form_at(place, d);
        add_extra(alloc, scope, again, d, extra, out)?;
        again = is_named(again, extra);
    }
    Ok(())
}

/// Adds what stands in a case or a clause; no name may come there, or one may.
pub fn add_branch<'a>(
    alloc: Global,
    scope: &Scope,
    again: bool,
    branch: Branch<'a>,
    out: &mut Vec<Stand<'a>>,
) -> Result<(), NoMemory>
    requires { BranchHas (scope_of scope.now) readable (branch_of branch) }
    ensures { IfOk result (λ _.
        stands_of out.new.items
        ≡ stands_of out.old.items
        ++ bare.branch_stands (scope_of scope.now) again (branch_of branch.entry)) }
{
    add_taken(alloc, branch.takes, out)?;
    out.push(Stand::Template(branch.result))?;
    add_extras(alloc, scope, branch.place, again, branch.extras, out)
}
