// The names that are bound in a case, a clause or a rule, in the order of binding.
ghost use Rattle.std.specs.Prelude.{◌≡◌, ◌<◌, ◌++◌, ◌∷◌, [], IfOk, IsTrue};
ghost use Rattle.rdx_patterns.specs.OccurrenceView.{occurrences_of};
ghost use Rattle.rdx_patterns.specs.Parts.{text_of};
ghost use Rattle.rdx_term.specs.Spelling.{is_name};
ghost use Rattle.rdx_templates.specs.Scope.{scope_of};
ghost use Rattle.rdx_parts.specs.Arguments.{data_at, patterns_in};
ghost use Rattle.rdx_parts.specs.Headed as headed;
ghost use Rattle.rdx_parts.specs.ByNames as by_names;
ghost use Rattle.rdx_parts.specs.Outlines.{one, each};
ghost use Rattle.rdx_parts.specs.PartViews.{arguments_of, branch_of, extra_form_of, place_of, rule_branch_of, takes_of};
ghost use Rattle.rdx_parts.specs.PartsHave.{AreNames, BindNames, CanBind, can_bind, BranchHas, ExtraHas, ExtrasHave, PremiseHas, RuleHas};
ghost use Rattle.rdx_parts.specs.Stands.{bound_among, names_bound};

use crate::arguments::{Arguments, headed_list, premise_arguments};
use crate::branches::{Branch, RuleBranch, Takes};
use crate::extras::{ExtraForm, ExtraPlace, form_at};
use crate::stands::collecting::in_takes;
use rdx_patterns::checks::bound_by;
use rdx_patterns::occurrences::Occurrence;
use rdx_patterns::shape::text;
use rdx_patterns::{Names, Position, symbol_name};
use rdx_sexp::Datum;
use rdx_templates::Scope;
use rdx_templates::templates::bound::Bound;
use rdx_term::{Name, NoMemory};
use std::alloc::Global;

/// The name that a symbol binds, with its depth.
pub(crate) fn bound_name(depth: usize, d: &Datum) -> Result<(Name, u32), NoMemory>
    requires depth { depth < 4_294_967_296 }
    requires name { IsTrue (is_name (text_of d.now)) }
    ensures { IfOk result (λ e. e ≡ (text_of d.now, depth)) }
{
    Ok((symbol_name(d)?, depth as u32))
}

// Adds the names that these bind, over these nonterminals.
fn add_bound<'a>(
    names: &Names,
    found: &[Occurrence<'a>],
    out: &mut Bound<'a>,
) -> Result<(), NoMemory>
    requires { BindNames (bound_among names.now (occurrences_of found.now)) }
    ensures { IfOk result (λ _.
        out.new
        ≡ out.old ++ names_bound (bound_among names.now (occurrences_of found.now))) }
{
    for o in found {
        if let Some((depth, d)) = bound_by(names, Position::Query, o) {
            out.push(text(d), bound_name(depth, d)?)?;
        }
    }
    Ok(())
}

// Adds the names that what is taken binds.
fn add_taken_names<'a>(
    alloc: Global,
    names: &Names,
    takes: Takes<'a>,
    out: &mut Bound<'a>,
) -> Result<(), NoMemory>
    requires { CanBind names.now (takes_of takes) }
    ensures { IfOk result (λ _.
        out.new ≡ out.old ++ by_names.taken_names names.now (takes_of takes.entry)) }
{
    let found = in_takes(alloc, takes)?;
    add_bound(names, &found, out)
}

/// Adds the names that an argument binds, if it is a pattern.
pub(crate) fn add_argument_names<'a>(
    alloc: Global,
    names: &Names,
    is_pattern: bool,
    d: &'a Datum,
    out: &mut Bound<'a>,
) -> Result<(), NoMemory>
    requires { IsTrue is_pattern → CanBind names.now (one d.now) }
    ensures { IfOk result (λ _.
        out.new
        ≡ out.old
        ++ by_names.patterns_names names.now (data_at (is_pattern ∷ []) (d.now ∷ []))) }
{
    if is_pattern {
        add_taken_names(alloc, names, Takes::One(d), out)
    } else {
        Ok(())
    }
}

/// Adds the names that the patterns among arguments bind.
pub(crate) fn add_arguments_names<'a>(
    alloc: Global,
    names: &Names,
    arguments: Arguments<'_, 'a>,
    out: &mut Bound<'a>,
) -> Result<(), NoMemory>
    requires { CanBind names.now (each (patterns_in (arguments_of arguments))) }
    ensures { IfOk result (λ _.
        out.new
        ≡ out.old
        ++ by_names.patterns_names names.now (patterns_in (arguments_of arguments.entry))) }
{
    let Some(mode) = arguments.mode else {
        return Ok(());
    };
    for (flag, d) in mode.iter().zip(arguments.items) {
        add_argument_names(alloc, names, arguments.is_pattern(*flag), d, out)?;
    }
    Ok(())
}

// Adds the names that a datum binds that has to be a premise.
fn add_premise_names<'a>(
    alloc: Global,
    scope: &Scope,
    names: &Names,
    d: &'a Datum,
    out: &mut Bound<'a>,
) -> Result<(), NoMemory>
    requires { PremiseHas (scope_of scope.now) (can_bind names.now) (headed.headed d.now) }
    ensures { IfOk result (λ _.
        out.new
        ≡ out.old
        ++ by_names.premise_names (scope_of scope.now) names.now (headed.headed d.now)) }
{
    match headed_list(d) {
        Some(premise) => {
            add_arguments_names(alloc, names, premise_arguments(scope, premise), out)
        }
        None => Ok(()),
    }
}

// Adds names that are made.
fn add_fresh_names<'a>(made: &'a [Datum], out: &mut Bound<'a>) -> Result<(), NoMemory>
    requires { AreNames made.now }
    ensures { IfOk result (λ _.
        out.new ≡ out.old ++ by_names.fresh_names made.now) }
{
    for d in made {
        out.push(text(d), bound_name(0, d)?)?;
    }
    Ok(())
}

/// Adds the names that an extra binds.
pub(crate) fn add_extra_names<'a>(
    alloc: Global,
    scope: &Scope,
    names: &Names,
    extra: ExtraForm<'a>,
    out: &mut Bound<'a>,
) -> Result<(), NoMemory>
    requires { ExtraHas (scope_of scope.now) (can_bind names.now) (extra_form_of extra) }
    ensures { IfOk result (λ _.
        out.new
        ≡ out.old
        ++ by_names.extra_names (scope_of scope.now) names.now (extra_form_of extra.entry)) }
{
    match extra {
        ExtraForm::SuchThat(pattern, _) => {
            add_taken_names(alloc, names, Takes::One(pattern), out)
        }
        ExtraForm::Holding(premise) => add_premise_names(alloc, scope, names, premise, out),
        ExtraForm::Freshly(made) => add_fresh_names(made, out),
        ExtraForm::Provided(_) | ExtraForm::Confirmed(_) | ExtraForm::Name | ExtraForm::NoExtra => {
            Ok(())
        }
    }
}

/// Adds the names that extras at such a place bind.
pub(crate) fn add_extras_names<'a>(
    alloc: Global,
    scope: &Scope,
    names: &Names,
    place: ExtraPlace,
    extras: &'a [Datum],
    out: &mut Bound<'a>,
) -> Result<(), NoMemory>
    requires { ExtrasHave (scope_of scope.now) (can_bind names.now) (place_of place) extras.now }
    ensures { IfOk result (λ _.
        out.new
        ≡ out.old
        ++ by_names.extras_names (place_of place) (scope_of scope.now) names.now extras.now) }
{
    for d in extras {
        add_extra_names(alloc, scope, names, form_at(place, d), out)?;
    }
    Ok(())
}

/// The names that what is taken binds.
pub(crate) fn taken_names<'a>(
    alloc: Global,
    names: &Names,
    takes: Takes<'a>,
) -> Result<Bound<'a>, NoMemory>
    requires { CanBind names.now (takes_of takes) }
    ensures { IfOk result (λ bound.
        bound ≡ by_names.taken_names names.now (takes_of takes.entry)) }
{
    let mut bound = Bound::new(alloc);
    add_taken_names(alloc, names, takes, &mut bound)?;
    Ok(bound)
}

/// All names that a case or a clause binds.
pub(crate) fn branch_names<'a>(
    alloc: Global,
    scope: &Scope,
    names: &Names,
    branch: Branch<'a>,
) -> Result<Bound<'a>, NoMemory>
    requires { BranchHas (scope_of scope.now) (can_bind names.now) (branch_of branch) }
    ensures { IfOk result (λ bound.
        bound
        ≡ by_names.branch_names (scope_of scope.now) names.now (branch_of branch.entry)) }
{
    let mut bound = taken_names(alloc, names, branch.takes)?;
    let place = branch.place;
    add_extras_names(alloc, scope, names, place, branch.extras, &mut bound)?;
    Ok(bound)
}

/// The names that the inputs of the conclusion of a rule bind.
pub fn input_names<'a>(
    alloc: Global,
    names: &Names,
    rule: RuleBranch<'_, 'a>,
) -> Result<Bound<'a>, NoMemory>
    requires { CanBind names.now (each (patterns_in (rule_branch_of rule).arguments)) }
    ensures { IfOk result (λ bound.
        bound ≡ by_names.input_names names.now (rule_branch_of rule.entry)) }
{
    let mut bound = Bound::new(alloc);
    add_arguments_names(alloc, names, rule.arguments, &mut bound)?;
    Ok(bound)
}

/// All names that a rule binds.
pub fn rule_names<'a>(
    alloc: Global,
    scope: &Scope,
    names: &Names,
    rule: RuleBranch<'_, 'a>,
) -> Result<Bound<'a>, NoMemory>
    requires { RuleHas (scope_of scope.now) (can_bind names.now) (rule_branch_of rule) }
    ensures { IfOk result (λ bound.
        bound
        ≡ by_names.rule_names (scope_of scope.now) names.now (rule_branch_of rule.entry)) }
{
    let mut bound = input_names(alloc, names, rule)?;
    let place = ExtraPlace::OfRule;
    add_extras_names(alloc, scope, names, place, rule.premises, &mut bound)?;
    Ok(bound)
}

/// The names that a datum binds that has to be a premise, before which none is bound.
pub fn lone_names<'a>(
    alloc: Global,
    scope: &Scope,
    names: &Names,
    d: &'a Datum,
) -> Result<Bound<'a>, NoMemory>
    requires { PremiseHas (scope_of scope.now) (can_bind names.now) (headed.headed d.now) }
    ensures { IfOk result (λ bound.
        bound
        ≡ by_names.premise_names (scope_of scope.now) names.now (headed.headed d.now)) }
{
    let mut bound = Bound::new(alloc);
    add_premise_names(alloc, scope, names, d, &mut bound)?;
    Ok(bound)
}
