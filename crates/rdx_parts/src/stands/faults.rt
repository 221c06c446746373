// The checks of a form that have to know what is bound.
ghost use Rattle.std.specs.Prelude.{◌≡◌, ◌++◌, ◌∷◌, [], IfOk, IsTrue, map, option_map};
ghost use Rattle.rdx_patterns.specs.OccurrenceView.{occurrences_of};
ghost use Rattle.rdx_patterns.specs.Readable.{IsReadable};
ghost use Rattle.rdx_templates.specs.Earliest.{earliest, start};
ghost use Rattle.rdx_templates.specs.Scope.{scope_of};
ghost use Rattle.rdx_parts.specs.Headed as headed;
ghost use Rattle.rdx_parts.specs.Outlines.{one, taken_occurrences};
ghost use Rattle.rdx_parts.specs.ByNames as by_names;
ghost use Rattle.rdx_parts.specs.PartViews.{arguments_of, branch_of, extra_form_of, outline_of, place_of, question_of, rule_branch_of, takes_of};
ghost use Rattle.rdx_parts.specs.PartsHave.{BindNames, CanBind, can_bind, AloneHave, ArgumentsHave, BranchHas, BranchesHave, ExtraHas, ExtrasHave, OutlineHas, PremiseHas, QuestionHas, QuestionsHave, RuleHas, RulesHave};
ghost use Rattle.rdx_parts.specs.Stands.{bound_among};

use crate::arguments::{Arguments, headed_list, premise_arguments};
use crate::branches::{Branch, Outline, Question, RuleBranch, Takes};
use crate::extras::{ExtraForm, ExtraPlace, form_at};
use crate::stands::clashes::earliest_clash;
use crate::stands::collecting::in_takes;
use crate::stands::names::{
    add_argument_names, add_extra_names, branch_names, input_names, lone_names, rule_names,
    taken_names,
};
use crate::stands::patterns::{earliest_bad_occurrence, earliest_escape};
use rdx_patterns::Names;
use rdx_patterns::occurrences::Occurrence;
use rdx_sexp::Datum;
use rdx_templates::Scope;
use rdx_templates::earliest::earlier;
use rdx_templates::templates::bound::Bound;
use rdx_templates::templates::driving::{driving_of, driving_of_host};
use rdx_templates::templates::places::{
    bad_in_host, bad_in_template, escape_in_host, escape_in_template, shallow_in_host,
    shallow_in_template,
};
use rdx_term::NoMemory;
use std::alloc::Global;

/// One of these checks.
#[derive(Clone, Copy)]
pub enum Check {
    /// That each part of a pattern, a template or a host expression means something.
    Places,
    /// That each name is bound and used at one depth.
    Depths,
    /// That a name drives each ellipsis.
    Driving,
    /// That nothing would ask Racket.
    Escapes,
}

// The earliest place at which the check refuses a template.
fn fault_in_template<'a>(
    alloc: Global,
    check: Check,
    scope: &Scope,
    bound: &Bound<'_>,
    t: &'a Datum,
) -> Result<Option<&'a Datum>, NoMemory>
    requires { IsReadable t.now }
    ensures { IfOk result (λ r.
        option_map (λ d. d.now) r
        ≡ earliest start (by_names.template_faults check (scope_of scope.now) bound.now t.now)) }
{
    match check {
        Check::Places => bad_in_template(alloc, scope, bound, t),
        Check::Depths => shallow_in_template(alloc, scope, bound, t),
        Check::Driving => Ok(driving_of(scope, bound, t).undriven),
        Check::Escapes => escape_in_template(alloc, scope, bound, t),
    }
}

// The earliest one in a host expression.
fn fault_in_host<'a>(
    alloc: Global,
    check: Check,
    scope: &Scope,
    bound: &Bound<'_>,
    h: &'a Datum,
) -> Result<Option<&'a Datum>, NoMemory>
    requires { IsReadable h.now }
    ensures { IfOk result (λ r.
        option_map (λ d. d.now) r
        ≡ earliest start (by_names.host_faults check (scope_of scope.now) bound.now h.now)) }
{
    match check {
        Check::Places => bad_in_host(alloc, scope, bound, h),
        Check::Depths => shallow_in_host(alloc, scope, bound, h),
        Check::Driving => Ok(driving_of_host(scope, bound, h).undriven),
        Check::Escapes => escape_in_host(alloc, scope, bound, h),
    }
}

// The earliest one in a pattern in which these stand, where these names and those are bound before.
fn fault_in_pattern<'a>(
    alloc: Global,
    check: Check,
    names: &Names,
    bound: &Bound<'_>,
    behind: &Bound<'_>,
    found: &[Occurrence<'a>],
) -> Result<Option<&'a Datum>, NoMemory>
    requires { BindNames (bound_among names.now (occurrences_of found.now)) }
    ensures { IfOk result (λ r.
        option_map (λ d. d.now) r
        ≡ earliest start (by_names.pattern_faults check names.now (bound.now ++ behind.now)
        (occurrences_of found.now))) }
{
    match check {
        Check::Places => Ok(earliest_bad_occurrence(names, found)),
        Check::Depths => earliest_clash(alloc, names, bound, behind, found),
        Check::Driving => Ok(None),
        Check::Escapes => Ok(earliest_escape(found)),
    }
}

// The earliest one in what is taken, where these names and those are bound before.
fn fault_in_takes_behind<'a>(
    alloc: Global,
    check: Check,
    names: &Names,
    bound: &Bound<'_>,
    behind: &Bound<'_>,
    takes: Takes<'a>,
) -> Result<Option<&'a Datum>, NoMemory>
    requires { CanBind names.now (takes_of takes) }
    ensures { IfOk result (λ r.
        option_map (λ d. d.now) r
        ≡ earliest start (by_names.pattern_faults check names.now (bound.now ++ behind.now)
        (taken_occurrences (takes_of takes.entry)))) }
{
    let found = in_takes(alloc, takes)?;
    fault_in_pattern(alloc, check, names, bound, behind, &found)
}

// The same, where these names are bound before.
fn fault_in_takes<'a>(
    alloc: Global,
    check: Check,
    names: &Names,
    bound: &Bound<'_>,
    takes: Takes<'a>,
) -> Result<Option<&'a Datum>, NoMemory>
    requires { CanBind names.now (takes_of takes) }
    ensures { IfOk result (λ r.
        option_map (λ d. d.now) r
        ≡ earliest start (by_names.pattern_faults check names.now bound.now
        (taken_occurrences (takes_of takes.entry)))) }
{
    let none = Bound::new(alloc);
    fault_in_takes_behind(alloc, check, names, bound, &none, takes)
}

// The earliest one in an argument that is a pattern, before which these names and those are bound,
// or else a template, where all these are.
fn fault_in_argument<'a>(
    alloc: Global,
    check: Check,
    scope: &Scope,
    names: &Names,
    is_pattern: bool,
    before: &Bound<'_>,
    here: &Bound<'_>,
    all: &Bound<'_>,
    d: &'a Datum,
) -> Result<Option<&'a Datum>, NoMemory>
    requires pattern { IsTrue is_pattern → CanBind names.now (one d.now) }
    requires readable { IsReadable d.now }
    ensures { IfOk result (λ r.
        option_map (λ d. d.now) r
        ≡ earliest start (by_names.flagged_faults check (scope_of scope.now) names.now
        (before.now ++ here.now) all.now (is_pattern ∷ []) (d.now ∷ []))) }
{
    if is_pattern {
        fault_in_takes_behind(alloc, check, names, before, here, Takes::One(d))
    } else {
        fault_in_template(alloc, check, scope, all, d)
    }
}

// The earliest one in arguments, behind names that are bound before the first pattern, where these
// names are bound for the templates.
fn fault_in_arguments<'a, 'b>(
    alloc: Global,
    check: Check,
    scope: &Scope,
    names: &Names,
    before: &Bound<'b>,
    all: &Bound<'b>,
    arguments: Arguments<'_, 'a>,
) -> Result<Option<&'a Datum>, NoMemory>
    requires { ArgumentsHave (scope_of scope.now) (can_bind names.now) (arguments_of arguments) }
    ensures { IfOk result (λ r.
        option_map (λ d. d.now) r
        ≡ earliest start (by_names.arguments_faults check (scope_of scope.now) names.now
        before.now all.now (arguments_of arguments.entry))) }
{
    let Some(mode) = arguments.mode else {
        return Ok(None);
    };
    let mut here = Bound::new(alloc);
    let mut place = None;
    for (flag, d) in mode.iter().zip(arguments.items) {
        let is_pattern = arguments.is_pattern(*flag);
        let fault = fault_in_argument(
            alloc, check, scope, names, is_pattern, before, &here, all, d,
        )?;
        place = earlier(place, fault);
        add_argument_names(alloc, names, is_pattern, d, &mut here)?;
    }
    Ok(place)
}

// The earliest one in a datum that has to be a premise.
fn fault_in_premise<'a>(
    alloc: Global,
    check: Check,
    scope: &Scope,
    names: &Names,
    bound: &Bound<'_>,
    d: &'a Datum,
) -> Result<Option<&'a Datum>, NoMemory>
    requires { PremiseHas (scope_of scope.now) (can_bind names.now) (headed.headed d.now) }
    ensures { IfOk result (λ r.
        option_map (λ d. d.now) r
        ≡ earliest start (by_names.premise_faults check (scope_of scope.now) names.now bound.now
        (headed.headed d.now))) }
{
    let Some(premise) = headed_list(d) else {
        return Ok(None);
    };
    let arguments = premise_arguments(scope, premise);
    fault_in_arguments(alloc, check, scope, names, bound, bound, arguments)
}

// The earliest one in an extra.
#[tactic(auto, using(rdx_templates::proofs::EarliestPlaces::lesser_assoc, rdx_templates::proofs::EarliestPlaces::lesser_none, rdx_templates::proofs::EarliestPlaces::earliest_append))]
fn fault_in_extra<'a>(
    alloc: Global,
    check: Check,
    scope: &Scope,
    names: &Names,
    bound: &Bound<'_>,
    extra: ExtraForm<'a>,
) -> Result<Option<&'a Datum>, NoMemory>
    requires { ExtraHas (scope_of scope.now) (can_bind names.now) (extra_form_of extra) }
    ensures { IfOk result (λ r.
        option_map (λ d. d.now) r
        ≡ earliest start (by_names.extra_faults check (scope_of scope.now) names.now bound.now
        (extra_form_of extra.entry))) }
{
    match extra {
        ExtraForm::SuchThat(pattern, template) => {
            let taken = fault_in_takes(alloc, check, names, bound, Takes::One(pattern))?;
            let given = fault_in_template(alloc, check, scope, bound, template)?;
            Ok(earlier(taken, given))
        }
        ExtraForm::Provided(host) => fault_in_host(alloc, check, scope, bound, host),
        ExtraForm::Confirmed(template) => fault_in_template(alloc, check, scope, bound, template),
        ExtraForm::Holding(premise) => {
            fault_in_premise(alloc, check, scope, names, bound, premise)
        }
        ExtraForm::Freshly(_) | ExtraForm::Name | ExtraForm::NoExtra => Ok(None),
    }
}

// The earliest one in extras.
#[tactic(auto, using(rdx_templates::proofs::EarliestPlaces::lesser_none))]
fn fault_in_extras<'a>(
    alloc: Global,
    check: Check,
    scope: &Scope,
    names: &Names,
    place: ExtraPlace,
    mut bound: Bound<'a>,
    extras: &'a [Datum],
) -> Result<Option<&'a Datum>, NoMemory>
    requires { ExtrasHave (scope_of scope.now) (can_bind names.now) (place_of place) extras.now }
    ensures { IfOk result (λ r.
        option_map (λ d. d.now) r
        ≡ earliest start (by_names.extras_faults (place_of place) check (scope_of scope.now)
        names.now bound.entry extras.now)) }
{
    let mut fault = None;
    for d in extras {
        let extra = form_at(place, d);
        let next = fault_in_extra(alloc, check, scope, names, &bound, extra)?;
        fault = earlier(fault, next);
        add_extra_names(alloc, scope, names, extra, &mut bound)?;
    }
    Ok(fault)
}

// The earliest one in a case or a clause.
#[tactic(auto, using(rdx_templates::proofs::EarliestPlaces::lesser_assoc, rdx_templates::proofs::EarliestPlaces::lesser_none, rdx_templates::proofs::EarliestPlaces::earliest_append))]
fn fault_in_branch<'a>(
    alloc: Global,
    check: Check,
    scope: &Scope,
    names: &Names,
    branch: Branch<'a>,
) -> Result<Option<&'a Datum>, NoMemory>
    requires { BranchHas (scope_of scope.now) (can_bind names.now) (branch_of branch) }
    ensures { IfOk result (λ r.
        option_map (λ d. d.now) r
        ≡ earliest start (by_names.branch_faults check (scope_of scope.now) names.now
        (branch_of branch.entry))) }
{
    let none = Bound::new(alloc);
    let taken = fault_in_takes(alloc, check, names, &none, branch.takes)?;
    let all = branch_names(alloc, scope, names, branch)?;
    let given = fault_in_template(alloc, check, scope, &all, branch.result)?;
    let bound = taken_names(alloc, names, branch.takes)?;
    let behind = fault_in_extras(
        alloc,
        check,
        scope,
        names,
        branch.place,
        bound,
        branch.extras,
    )?;
    Ok(earlier(taken, earlier(given, behind)))
}

// The earliest one in cases or clauses.
#[tactic(auto, using(rdx_templates::proofs::EarliestPlaces::lesser_none, rdx_templates::proofs::EarliestPlaces::earliest_next))]
fn fault_in_branches<'a>(
    alloc: Global,
    check: Check,
    scope: &Scope,
    names: &Names,
    branches: &[Branch<'a>],
) -> Result<Option<&'a Datum>, NoMemory>
    requires { BranchesHave (scope_of scope.now) (can_bind names.now) (map branch_of branches.now) }
    ensures { IfOk result (λ r.
        option_map (λ d. d.now) r
        ≡ earliest start (by_names.branches_faults check (scope_of scope.now) names.now
        (map branch_of branches.now))) }
{
    let mut fault = None;
    for branch in branches {
        let next = fault_in_branch(alloc, check, scope, names, *branch)?;
        fault = earlier(fault, next);
    }
    Ok(fault)
}

// The earliest one in the conclusion of a rule.
fn fault_in_conclusion<'a>(
    alloc: Global,
    check: Check,
    scope: &Scope,
    names: &Names,
    rule: RuleBranch<'_, 'a>,
) -> Result<Option<&'a Datum>, NoMemory>
    requires { RuleHas (scope_of scope.now) (can_bind names.now) (rule_branch_of rule) }
    ensures { IfOk result (λ r.
        option_map (λ d. d.now) r
        ≡ earliest start (by_names.conclusion_faults check (scope_of scope.now) names.now
        (rule_branch_of rule.entry))) }
{
    let all = rule_names(alloc, scope, names, rule)?;
    fault_in_arguments(
        alloc,
        check,
        scope,
        names,
        &Bound::new(alloc),
        &all,
        rule.arguments,
    )
}

// The earliest one in the premises of a rule.
fn fault_in_premises<'a>(
    alloc: Global,
    check: Check,
    scope: &Scope,
    names: &Names,
    rule: RuleBranch<'_, 'a>,
) -> Result<Option<&'a Datum>, NoMemory>
    requires { RuleHas (scope_of scope.now) (can_bind names.now) (rule_branch_of rule) }
    ensures { IfOk result (λ r.
        option_map (λ d. d.now) r
        ≡ earliest start (by_names.premises_faults check (scope_of scope.now) names.now
        (rule_branch_of rule.entry))) }
{
    let bound = input_names(alloc, names, rule)?;
    fault_in_extras(
        alloc,
        check,
        scope,
        names,
        ExtraPlace::OfRule,
        bound,
        rule.premises,
    )
}

// The earliest one in a rule, as it is written.
#[tactic(auto, using(rdx_templates::proofs::EarliestPlaces::lesser_assoc, rdx_templates::proofs::EarliestPlaces::lesser_none, rdx_templates::proofs::EarliestPlaces::earliest_append))]
fn fault_in_rule<'a>(
    alloc: Global,
    check: Check,
    scope: &Scope,
    names: &Names,
    rule: RuleBranch<'_, 'a>,
) -> Result<Option<&'a Datum>, NoMemory>
    requires { RuleHas (scope_of scope.now) (can_bind names.now) (rule_branch_of rule) }
    ensures { IfOk result (λ r.
        option_map (λ d. d.now) r
        ≡ earliest start (by_names.rule_faults check (scope_of scope.now) names.now
        (rule_branch_of rule.entry))) }
{
    let conclusion = fault_in_conclusion(alloc, check, scope, names, rule)?;
    let premises = fault_in_premises(alloc, check, scope, names, rule)?;
    if rule.is_last {
        Ok(earlier(premises, conclusion))
    } else {
        Ok(earlier(conclusion, premises))
    }
}

// The earliest one in rules.
#[tactic(auto, using(rdx_templates::proofs::EarliestPlaces::lesser_none, rdx_templates::proofs::EarliestPlaces::earliest_next))]
fn fault_in_rules<'a>(
    alloc: Global,
    check: Check,
    scope: &Scope,
    names: &Names,
    rules: &[RuleBranch<'_, 'a>],
) -> Result<Option<&'a Datum>, NoMemory>
    requires { RulesHave (scope_of scope.now) (can_bind names.now) (map rule_branch_of rules.now) }
    ensures { IfOk result (λ r.
        option_map (λ d. d.now) r
        ≡ earliest start (by_names.rules_faults check (scope_of scope.now) names.now
        (map rule_branch_of rules.now))) }
{
    let mut fault = None;
    for rule in rules {
        let next = fault_in_rule(alloc, check, scope, names, *rule)?;
        fault = earlier(fault, next);
    }
    Ok(fault)
}

// The earliest one in a premise by itself, and behind it.
#[tactic(auto, using(rdx_templates::proofs::EarliestPlaces::lesser_assoc, rdx_templates::proofs::EarliestPlaces::lesser_none, rdx_templates::proofs::EarliestPlaces::earliest_append))]
fn fault_in_question<'a>(
    alloc: Global,
    check: Check,
    scope: &Scope,
    names: &Names,
    question: Question<'a>,
) -> Result<Option<&'a Datum>, NoMemory>
    requires { QuestionHas (scope_of scope.now) (can_bind names.now) (question_of question) }
    ensures { IfOk result (λ r.
        option_map (λ d. d.now) r
        ≡ earliest start (by_names.question_faults check (scope_of scope.now) names.now
        (question_of question.entry))) }
{
    let none = Bound::new(alloc);
    let fault = fault_in_premise(alloc, check, scope, names, &none, question.premise)?;
    let Some(template) = question.result else {
        return Ok(fault);
    };
    let bound = lone_names(alloc, scope, names, question.premise)?;
    let given = fault_in_template(alloc, check, scope, &bound, template)?;
    Ok(earlier(fault, given))
}

// The earliest one in premises by themselves.
#[tactic(auto, using(rdx_templates::proofs::EarliestPlaces::lesser_none, rdx_templates::proofs::EarliestPlaces::earliest_next))]
fn fault_in_questions<'a>(
    alloc: Global,
    check: Check,
    scope: &Scope,
    names: &Names,
    questions: &[Question<'a>],
) -> Result<Option<&'a Datum>, NoMemory>
    requires { QuestionsHave (scope_of scope.now) (can_bind names.now)
        (map question_of questions.now) }
    ensures { IfOk result (λ r.
        option_map (λ d. d.now) r
        ≡ earliest start (by_names.questions_faults check (scope_of scope.now) names.now
        (map question_of questions.now))) }
{
    let mut fault = None;
    for question in questions {
        let next = fault_in_question(alloc, check, scope, names, *question)?;
        fault = earlier(fault, next);
    }
    Ok(fault)
}

// The earliest one in patterns that stand by themselves.
#[tactic(auto, using(rdx_templates::proofs::EarliestPlaces::lesser_none, rdx_templates::proofs::EarliestPlaces::earliest_next))]
fn fault_in_alone<'a>(
    alloc: Global,
    check: Check,
    names: &Names,
    alone: &[&'a Datum],
) -> Result<Option<&'a Datum>, NoMemory>
    requires { AloneHave (CanBind names.now) (map (λ d. d.now) alone.now) }
    ensures { IfOk result (λ r.
        option_map (λ d. d.now) r
        ≡ earliest start (by_names.alone_faults check names.now (map (λ d. d.now) alone.now))) }
{
    let none = Bound::new(alloc);
    let mut fault = None;
    for pattern in alone {
        let next = fault_in_takes(alloc, check, names, &none, Takes::One(pattern))?;
        fault = earlier(fault, next);
    }
    Ok(fault)
}

/// The earliest place at which the check refuses a form of this outline, over these nonterminals.
#[tactic(auto, using(rdx_templates::proofs::EarliestPlaces::lesser_assoc, rdx_templates::proofs::EarliestPlaces::lesser_none, rdx_templates::proofs::EarliestPlaces::earliest_append))]
pub(crate) fn earliest_fault<'a>(
    alloc: Global,
    check: Check,
    scope: &Scope,
    names: &Names,
    outline: &Outline<'_, 'a>,
) -> Result<Option<&'a Datum>, NoMemory>
    requires { OutlineHas (scope_of scope.now) (can_bind names.now) (outline_of outline.now) }
    ensures { IfOk result (λ r.
        option_map (λ d. d.now) r
        ≡ earliest start (by_names.outline_faults check (scope_of scope.now) names.now
        (outline_of outline.now))) }
{
    let alone = fault_in_alone(alloc, check, names, &outline.alone)?;
    let branches = fault_in_branches(alloc, check, scope, names, &outline.branches)?;
    let rules = fault_in_rules(alloc, check, scope, names, &outline.rules)?;
    let questions = fault_in_questions(alloc, check, scope, names, &outline.questions)?;
    Ok(earlier(alone, earlier(branches, earlier(rules, questions))))
}
