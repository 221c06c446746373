// The patterns and the extras of cases and clauses.
ghost use Rattle.std.specs.Prelude.{◌≡◌, ◌++◌, ◌∷◌, [], IfOk, IsSome, Some, map};
ghost use Rattle.rdx_lang.specs.Checked.{language_in, pattern_in};
ghost use Rattle.rdx_lang.specs.PatternView.{items_of, just, pattern_of, slot_of};
ghost use Rattle.rdx_lang.specs.Programs.{provided};
ghost use Rattle.rdx_lang.specs.ProgramView.{extras_of, premise_of};
ghost use Rattle.rdx_lang.specs.TemplateView.{host_of, template_of};
ghost use Rattle.rdx_patterns.specs.Reading.{reading};
ghost use Rattle.rdx_patterns.specs.declared.patterns.position.Position.TheVariants as positions;
ghost use Rattle.rdx_templates.specs.Scope.{mode_of, scope_of};
ghost use Rattle.rdx_templates.specs.TemplateReading.{template_reading};
ghost use Rattle.rdx_parts.specs.Arguments.{data_at, patterns_in, templates_in};
ghost use Rattle.rdx_parts.specs.Headed as headed;
ghost use Rattle.rdx_parts.specs.Outlines.{each, one, bound_by_branch, bound_by_taken, taken_reading};
ghost use Rattle.rdx_parts.specs.ByNames as by_names;
ghost use Rattle.rdx_parts.specs.ByNames.{fresh_reading};
ghost use Rattle.rdx_parts.specs.ExtraForms.{such_that};
ghost use Rattle.rdx_parts.specs.PartViews.{arguments_of, branch_of, extra_form_of, headed_of, place_of, takes_of};
ghost use Rattle.rdx_parts.specs.PartsHave.{AreNames, ArgumentsHave, BranchHas, ExtraHas, ExtrasHave, IsPattern, PremiseHas, can_bind, can_read};
ghost use Rattle.rdx_parts.specs.ExtraReading.{extras_reading, held_reading, items_reading, list_reading, premise_reading, templates_reading};
ghost use Rattle.rdx_parts.specs.Stands as stands;
ghost use Rattle.rdx_parts.specs.Stands.{names_bound};

use crate::arguments::{Arguments, Headed, headed_list, premise_arguments};
use crate::branches::{Branch, Takes};
use crate::extras::{ExtraForm, ExtraPlace, form_at};
use crate::stands::names::{add_extra_names, branch_names, taken_names};
use rdx_lang::{CheckedLang, CheckedPat, Extra, HostExpr, Item, Pat, Premise, Template};
use rdx_patterns::shape::text;
use rdx_patterns::{Names, Position, readings, symbol_name};
use rdx_sexp::Datum;
use rdx_templates::Scope;
use rdx_templates::templates::bound::Bound;
use rdx_templates::templates::readings as templates;
use rdx_term::{Name, NoMemory};
use std::alloc::Global;

// The pattern of what is taken, over these nonterminals.
fn takes_pattern(alloc: Global, names: &Names, takes: Takes<'_>) -> Result<Pat, NoMemory>
    ensures { IfOk result (λ p. pattern_of p ≡ taken_reading names.now (takes_of takes.entry)) }
{
    match takes {
        Takes::One(pattern) => readings::read_datum(alloc, names, Position::Query, pattern),
        Takes::Several(items) => {
            Ok(Pat::Seq(readings::read_items(alloc, names, Position::Query, items)?))
        }
    }
}

/// The pattern of what is taken, over a language with these nonterminals.
pub fn read_takes(
    alloc: Global,
    language: &CheckedLang,
    names: &Names,
    takes: Takes<'_>,
) -> Result<CheckedPat, NoMemory>
    requires { IsPattern (language_in language.now) names.now (takes_of takes) }
    ensures { IfOk result (λ c. pattern_in c ≡ taken_reading names.now (takes_of takes.entry)) }
{
    let pattern = takes_pattern(alloc, names, takes)?;
    Ok(CheckedPat::known(language, pattern))
}

// Adds an item for an argument, if it is a pattern.
fn add_item(
    alloc: Global,
    names: &Names,
    is_pattern: bool,
    d: &Datum,
    out: &mut Vec<Item>,
) -> Result<(), NoMemory>
    ensures { IfOk result (λ _.
        map slot_of out.new.items
        ≡ map slot_of out.old.items
        ++ map (λ d. just (reading names.now positions.Query d))
        (data_at (is_pattern ∷ []) (d.now ∷ []))) }
{
    if is_pattern {
        let pattern = readings::read_datum(alloc, names, Position::Query, d)?;
        out.push(Item::One(pattern))?;
    }
    Ok(())
}

/// The items for the patterns among arguments.
pub fn read_items(
    alloc: Global,
    names: &Names,
    arguments: Arguments<'_, '_>,
) -> Result<Vec<Item>, NoMemory>
    ensures { IfOk result (λ items.
        items_of (map slot_of items.items)
        ≡ items_reading names.now (patterns_in (arguments_of arguments.entry))) }
{
    let mut items = Vec::new(alloc);
    let Some(mode) = arguments.mode else {
        return Ok(items);
    };
    for (flag, d) in mode.iter().zip(arguments.items) {
        add_item(alloc, names, arguments.is_pattern(*flag), d, &mut items)?;
    }
    Ok(items)
}

/// The pattern of lists by the patterns among arguments.
pub fn read_patterns(
    alloc: Global,
    language: &CheckedLang,
    names: &Names,
    arguments: Arguments<'_, '_>,
) -> Result<CheckedPat, NoMemory>
    requires { IsPattern (language_in language.now) names.now
        (each (patterns_in (arguments_of arguments))) }
    ensures { IfOk result (λ c.
        pattern_in c ≡ list_reading names.now (patterns_in (arguments_of arguments.entry))) }
{
    let pattern = Pat::Seq(read_items(alloc, names, arguments)?);
    Ok(CheckedPat::known(language, pattern))
}

/// The templates among arguments, where these names are bound.
pub fn read_templates(
    alloc: Global,
    scope: &Scope,
    bound: &Bound<'_>,
    arguments: Arguments<'_, '_>,
) -> Result<Vec<Template>, NoMemory>
    ensures { IfOk result (λ read.
        map template_of read.items
        ≡ templates_reading (scope_of scope.now) bound.now
        (templates_in (arguments_of arguments.entry))) }
{
    let mut read = Vec::new(alloc);
    let Some(mode) = arguments.mode else {
        return Ok(read);
    };
    for (flag, d) in mode.iter().zip(arguments.items) {
        if !arguments.is_pattern(*flag) {
            read.push(templates::read_datum(alloc, scope, bound, d)?)?;
        }
    }
    Ok(read)
}

// The name of the judgement of this name, which the file has.
fn judgement_name(scope: &Scope, name: &str) -> Result<Name, NoMemory>
    requires { IsSome (mode_of (scope_of scope.now) name.now) }
    ensures { IfOk result (λ x. x ≡ name.now) }
{
    match scope.judgement(name) {
        Some(judgement) => judgement.0.share(),
        None => unreachable!(),
    }
}

/// A premise, behind names that are bound.
pub fn read_premise(
    alloc: Global,
    scope: &Scope,
    language: &CheckedLang,
    names: &Names,
    bound: &Bound<'_>,
    premise: Headed<'_>,
) -> Result<Premise, NoMemory>
    requires { PremiseHas (scope_of scope.now)
        (can_read (scope_of scope.now) (language_in language.now) names.now)
        (Some (headed_of premise)) }
    ensures { IfOk result (λ q.
        premise_of q
        ≡ premise_reading (scope_of scope.now) names.now bound.now (headed_of premise.entry)) }
{
    let arguments = premise_arguments(scope, premise);
    let judgement = judgement_name(scope, text(premise.head))?;
    let ins = read_templates(alloc, scope, bound, arguments)?;
    let outs = read_patterns(alloc, language, names, arguments)?;
    Ok(Premise {
        judgement,
        ins,
        outs,
    })
}

// Adds what a datum asks that has to be a premise, behind which these names are bound.
fn add_premise(
    alloc: Global,
    scope: &Scope,
    language: &CheckedLang,
    names: &Names,
    bound: &Bound<'_>,
    d: &Datum,
    out: &mut Vec<Extra>,
) -> Result<(), NoMemory>
    requires { PremiseHas (scope_of scope.now)
        (can_read (scope_of scope.now) (language_in language.now) names.now)
        (headed.headed d.now) }
    ensures { IfOk result (λ _.
        extras_of out.new.items
        ≡ extras_of out.old.items
        ++ held_reading (scope_of scope.now) names.now bound.now (headed.headed d.now)) }
{
    match headed_list(d) {
        Some(premise) => {
            let premise = read_premise(alloc, scope, language, names, bound, premise)?;
            Ok(out.push(Extra::Holds(premise))?)
        }
        None => Ok(()),
    }
}

// Adds names that are made.
fn add_fresh(made: &[Datum], out: &mut Vec<Extra>) -> Result<(), NoMemory>
    requires { AreNames made.now }
    ensures { IfOk result (λ _.
        extras_of out.new.items ≡ extras_of out.old.items ++ fresh_reading made.now) }
{
    for d in made {
        out.push(Extra::Fresh(symbol_name(d)?))?;
    }
    Ok(())
}

// Adds that what the template makes matches the pattern, behind which these names are bound.
fn add_where(
    alloc: Global,
    scope: &Scope,
    language: &CheckedLang,
    names: &Names,
    bound: &Bound<'_>,
    pattern: &Datum,
    template: &Datum,
    out: &mut Vec<Extra>,
) -> Result<(), NoMemory>
    requires { IsPattern (language_in language.now) names.now (one pattern.now) }
    ensures { IfOk result (λ _.
        extras_of out.new.items
        ≡ extras_of out.old.items
        ++ by_names.extra_reading (scope_of scope.now) names.now bound.now
        (such_that pattern.now template.now)) }
{
    let template = templates::read_datum(alloc, scope, bound, template)?;
    let pattern = read_takes(alloc, language, names, Takes::One(pattern))?;
    Ok(out.push(Extra::Where(pattern, template))?)
}

// Adds that the host expression does not make false.
fn add_side(host: HostExpr, out: &mut Vec<Extra>) -> Result<(), NoMemory>
    ensures { IfOk result (λ _.
        extras_of out.new.items ≡ extras_of out.old.items ++ (provided (host_of host) ∷ [])) }
{
    Ok(out.push(Extra::Side(host))?)
}

// Adds what an extra asks, behind which these names are bound.
fn add_extra(
    alloc: Global,
    scope: &Scope,
    language: &CheckedLang,
    names: &Names,
    bound: &Bound<'_>,
    extra: ExtraForm<'_>,
    out: &mut Vec<Extra>,
) -> Result<(), NoMemory>
    requires { ExtraHas (scope_of scope.now)
        (can_read (scope_of scope.now) (language_in language.now) names.now)
        (extra_form_of extra) }
    ensures { IfOk result (λ _.
        extras_of out.new.items
        ≡ extras_of out.old.items
        ++ by_names.extra_reading (scope_of scope.now) names.now bound.now
        (extra_form_of extra.entry)) }
{
    match extra {
        ExtraForm::SuchThat(pattern, template) => {
            add_where(alloc, scope, language, names, bound, pattern, template, out)
        }
        ExtraForm::Provided(host) => {
            let host = templates::read_host_datum(alloc, scope, bound, host)?;
            add_side(host, out)
        }
        ExtraForm::Confirmed(template) => {
            let template = templates::read_datum(alloc, scope, bound, template)?;
            add_side(HostExpr::Term(template), out)
        }
        ExtraForm::Holding(premise) => {
            add_premise(alloc, scope, language, names, bound, premise, out)
        }
        ExtraForm::Freshly(made) => add_fresh(made, out),
        ExtraForm::Name | ExtraForm::NoExtra => Ok(()),
    }
}

/// What extras at such a place ask, behind which these names are bound.
pub fn read_extras<'a>(
    alloc: Global,
    scope: &Scope,
    language: &CheckedLang,
    names: &Names,
    place: ExtraPlace,
    mut bound: Bound<'a>,
    extras: &'a [Datum],
) -> Result<Vec<Extra>, NoMemory>
    requires { ExtrasHave (scope_of scope.now)
        (can_read (scope_of scope.now) (language_in language.now) names.now)
        (place_of place) extras.now }
    ensures { IfOk result (λ read.
        extras_of read.items
        ≡ by_names.extras_reading (place_of place) (scope_of scope.now) names.now bound.entry
        extras.now) }
{
    let mut read = Vec::new(alloc);
    for d in extras {
        let extra = form_at(place, d);
        add_extra(alloc, scope, language, names, &bound, extra, &mut read)?;
        add_extra_names(alloc, scope, names, extra, &mut bound)?;
    }
    Ok(read)
}

/// A case or a clause, read.
#[derive(Drop)]
pub struct ReadBranch {
    pub pattern: CheckedPat,
    pub extras: Vec<Extra>,
    pub result: Template,
}

// What the extras of a case or a clause ask.
fn read_extras_of(
    alloc: Global,
    scope: &Scope,
    language: &CheckedLang,
    names: &Names,
    branch: Branch<'_>,
) -> Result<Vec<Extra>, NoMemory>
    requires { BranchHas (scope_of scope.now)
        (can_read (scope_of scope.now) (language_in language.now) names.now)
        (branch_of branch) }
    ensures { IfOk result (λ read.
        extras_of read.items
        ≡ extras_reading (branch_of branch.entry).place (scope_of scope.now) names.now
        (bound_by_taken names.now (branch_of branch.entry).takes) branch.entry.extras.now) }
{
    let bound = taken_names(alloc, names, branch.takes)?;
    read_extras(
        alloc,
        scope,
        language,
        names,
        branch.place,
        bound,
        branch.extras,
    )
}

// The result of a case or a clause.
fn read_result(
    alloc: Global,
    scope: &Scope,
    names: &Names,
    branch: Branch<'_>,
) -> Result<Template, NoMemory>
    requires { BranchHas (scope_of scope.now) (can_bind names.now) (branch_of branch) }
    ensures { IfOk result (λ t.
        template_of t
        ≡ template_reading (scope_of scope.now)
        (names_bound (bound_by_branch (scope_of scope.now) names.now (branch_of branch.entry)))
        branch.entry.result.now) }
{
    let all = branch_names(alloc, scope, names, branch)?;
    templates::read_datum(alloc, scope, &all, branch.result)
}

/// The pattern, the extras and the result of a case or a clause.
pub fn read_branch(
    alloc: Global,
    scope: &Scope,
    language: &CheckedLang,
    names: &Names,
    branch: Branch<'_>,
) -> Result<ReadBranch, NoMemory>
    requires { BranchHas (scope_of scope.now)
        (can_read (scope_of scope.now) (language_in language.now) names.now)
        (branch_of branch) }
    ensures pattern { IfOk result (λ read.
        pattern_in read.pattern ≡ taken_reading names.now (branch_of branch.entry).takes) }
    ensures extras { IfOk result (λ read.
        extras_of read.extras.items
        ≡ extras_reading (branch_of branch.entry).place (scope_of scope.now) names.now
        (bound_by_taken names.now (branch_of branch.entry).takes) branch.entry.extras.now) }
    ensures result { IfOk result (λ read.
        template_of read.result
        ≡ template_reading (scope_of scope.now)
        (names_bound (bound_by_branch (scope_of scope.now) names.now (branch_of branch.entry)))
        branch.entry.result.now) }
{
    let extras = read_extras_of(alloc, scope, language, names, branch)?;
    let result = read_result(alloc, scope, names, branch)?;
    let pattern = read_takes(alloc, language, names, branch.takes)?;
    Ok(ReadBranch {
        pattern,
        extras,
        result,
    })
}
