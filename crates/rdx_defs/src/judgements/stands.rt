// What stands in a form of a judgement, and in a premise by itself.
ghost use Rattle.std.specs.Prelude.{◌≡◌, ◌++◌, ◌∷◌, [], Some, IfOk, IsTrue, true, map, option_map, if◌then◌else◌};
ghost use Rattle.rdx_patterns.specs.Readable.{IsReadable};
ghost use Rattle.rdx_parts.specs.ExtraForms.{of_rule};
ghost use Rattle.rdx_parts.specs.BareStands as bare;
ghost use Rattle.rdx_defs.specs.Inside.BareForms as bare_forms;
ghost use Rattle.rdx_defs.specs.Inside.FormOutlines as inside;
ghost use Rattle.rdx_defs.specs.Inside.FormViews.{judgement_form_of, keys_of, option_form_of, paired, rule_form_of};
ghost use Rattle.rdx_parts.specs.PartViews.{headed_of, outline_of, rule_branch_of, stands_of};
ghost use Rattle.rdx_parts.specs.PartsHave.{AreReadable, ExtrasHave, OutlineHas, RuleHas, RulesHave, readable};
ghost use Rattle.rdx_defs.specs.JudgementForms as forms;
ghost use Rattle.rdx_defs.specs.JudgementStands as model;
ghost use Rattle.rdx_templates.specs.Scope.{scope_of};
ghost use Rattle.rdx_parts.specs.Stands.{misshaped};

use crate::judgements::forms::{
    JudgementForm, OptionForm, RuleForm, is_fit_option, is_flag, judgement_in, mode_form,
    next_option, own_rule, rule_branch,
};
use rdx_parts::arguments::{Headed, headed_list, in_conclusion, is_misfit};
use rdx_parts::branches::{Outline, Question, RuleBranch};
use rdx_parts::extras::ExtraPlace;
use rdx_parts::stands::collecting::{
    Stand, add_alone, add_arguments, add_extras, add_held, add_misfit,
};
use rdx_relations::is_keyword;
use rdx_sexp::Datum;
use rdx_templates::Scope;
use rdx_term::NoMemory;
use std::alloc::Global;

// Adds what stands in the conclusion of a rule, by such a mode.
fn add_conclusion<'a>(
    alloc: Global,
    mode: Option<&[bool]>,
    rule: RuleForm<'a>,
    out: &mut Vec<Stand<'a>>,
) -> Result<(), NoMemory>
    requires { AreReadable (rule_form_of rule).parts.arguments }
    ensures { IfOk result (λ _.
        stands_of out.new.items
        ≡ stands_of out.old.items
        ++ bare_forms.conclusion_stands (option_map (λ m. m.now) mode.entry)
        (rule_form_of rule.entry)) }
{
    let arguments = rule.parts.arguments;
    add_misfit(
        is_misfit(mode, arguments),
        rule.conclusion,
        rule.parts.head,
        out,
    )?;
    add_arguments(alloc, in_conclusion(mode, arguments), out)
}

// Adds the name of a rule, where it has one.
fn add_rule_name<'a>(name: Option<&'a Datum>, out: &mut Vec<Stand<'a>>) -> Result<(), NoMemory>
    ensures { IfOk result (λ _.
        stands_of out.new.items
        ≡ stands_of out.old.items ++ model.name_stands (option_map (λ d. d.now) name.entry)) }
{
    match name {
        Some(name) => Ok(out.push(Stand::Named(false, name))?),
        None => Ok(()),
    }
}

// Adds what stands in the premises of a rule, and its name.
fn add_premises<'a>(
    alloc: Global,
    scope: &Scope,
    rule: RuleForm<'a>,
    out: &mut Vec<Stand<'a>>,
) -> Result<(), NoMemory>
    requires { ExtrasHave (scope_of scope.now) readable of_rule rule.premises.now }
    ensures { IfOk result (λ _.
        stands_of out.new.items
        ≡ stands_of out.old.items
        ++ (bare.extras_stand of_rule (scope_of scope.now) true rule.entry.premises.now
        ++ model.name_stands (option_map (λ d. d.now) rule.entry.name))) }
{
    add_extras(alloc, scope, ExtraPlace::OfRule, true, rule.premises, out)?;
    add_rule_name(rule.name, out)
}

// Adds what stands in a rule, as it is written.
fn add_rule_parts<'a>(
    alloc: Global,
    scope: &Scope,
    mode: Option<&[bool]>,
    rule: RuleForm<'a>,
    out: &mut Vec<Stand<'a>>,
) -> Result<(), NoMemory>
    requires { RuleHas (scope_of scope.now) readable
        (inside.rule_branch (option_map (λ m. m.now) mode) (rule_form_of rule)) }
    ensures { IfOk result (λ _.
        stands_of out.new.items
        ≡ stands_of out.old.items
        ++ bare_forms.rule_stands (scope_of scope.now) (option_map (λ m. m.now) mode.entry)
        (rule_form_of rule.entry).conclusion (Some (rule_form_of rule.entry))) }
{
    if rule.is_last {
        add_premises(alloc, scope, rule, out)?;
        add_conclusion(alloc, mode, rule, out)
    } else {
        add_conclusion(alloc, mode, rule, out)?;
        add_premises(alloc, scope, rule, out)
    }
}

// Adds what stands in a rule of the judgement of this name, or in what is none.
fn add_rule<'a>(
    alloc: Global,
    scope: &Scope,
    judgement: Option<&Datum>,
    mode: Option<&[bool]>,
    d: &'a Datum,
    out: &mut Vec<Stand<'a>>,
) -> Result<(), NoMemory>
    requires { RulesHave (scope_of scope.now) readable
        (inside.in_rule (option_map (λ m. m.now) mode)
        (forms.own_rule (option_map (λ d. d.now) judgement) (forms.rule_form d.now))) }
    ensures { IfOk result (λ _.
        stands_of out.new.items
        ≡ stands_of out.old.items
        ++ bare_forms.rule_stands (scope_of scope.now) (option_map (λ m. m.now) mode.entry) d.now
        (forms.own_rule (option_map (λ d. d.now) judgement.entry) (forms.rule_form d.now))) }
{
    match own_rule(judgement, d) {
        None => Ok(out.push(Stand::Misshaped(d))?),
        Some(rule) => add_rule_parts(alloc, scope, mode, rule, out),
    }
}

// Adds what stands in rules of the judgement of this name.
fn add_rules<'a>(
    alloc: Global,
    scope: &Scope,
    judgement: Option<&Datum>,
    mode: Option<&[bool]>,
    rules: &'a [Datum],
    out: &mut Vec<Stand<'a>>,
) -> Result<(), NoMemory>
    requires { RulesHave (scope_of scope.now) readable
        (inside.rule_branches (option_map (λ d. d.now) judgement) (option_map (λ m. m.now) mode)
        rules.now) }
    ensures { IfOk result (λ _.
        stands_of out.new.items
        ≡ stands_of out.old.items
        ++ bare_forms.rules_stand (scope_of scope.now) (option_map (λ d. d.now) judgement.entry)
        (option_map (λ m. m.now) mode.entry) rules.now) }
{
    for d in rules {
        add_rule(alloc, scope, judgement, mode, d, out)?;
    }
    Ok(())
}

// Adds the items of a mode of this judgement that stand neither for an input nor for an output.
fn add_flags<'a>(
    judgement: &'a Datum,
    flags: &'a [Datum],
    out: &mut Vec<Stand<'a>>,
) -> Result<(), NoMemory>
    ensures { IfOk result (λ _.
        stands_of out.new.items
        ≡ stands_of out.old.items ++ model.flags_stand judgement.now flags.now) }
{
    for d in flags {
        add_misfit(!is_flag(d), d, judgement, out)?;
    }
    Ok(())
}

// Adds what stands in a mode.
fn add_mode<'a>(mode: Headed<'a>, out: &mut Vec<Stand<'a>>) -> Result<(), NoMemory>
    ensures { IfOk result (λ _.
        stands_of out.new.items
        ≡ stands_of out.old.items ++ model.mode_stands (headed_of mode.entry)) }
{
    out.push(Stand::Judgement(mode.head))?;
    add_flags(mode.head, mode.arguments, out)
}

// Adds patterns that stand by themselves.
fn add_lone_patterns<'a>(
    alloc: Global,
    patterns: &'a [Datum],
    out: &mut Vec<Stand<'a>>,
) -> Result<(), NoMemory>
    requires { AreReadable patterns.now }
    ensures { IfOk result (λ _.
        stands_of out.new.items
        ≡ stands_of out.old.items ++ model.lone_patterns patterns.now) }
{
    for d in patterns {
        add_alone(alloc, d, out)?;
    }
    Ok(())
}

// Adds what stands in such a contract, by such a mode.
fn add_contract<'a>(
    alloc: Global,
    mode: Option<&[bool]>,
    d: &'a Datum,
    contract: Headed<'a>,
    out: &mut Vec<Stand<'a>>,
) -> Result<(), NoMemory>
    requires { AreReadable contract.arguments.now }
    ensures { IfOk result (λ _.
        stands_of out.new.items
        ≡ stands_of out.old.items
        ++ model.contract_stands (option_map (λ m. m.now) mode.entry) d.now
        (headed_of contract.entry)) }
{
    add_misfit(is_misfit(mode, contract.arguments), d, contract.head, out)?;
    add_lone_patterns(alloc, contract.arguments, out)
}

// Adds what stands in an option that has its shape.
fn add_fit_option<'a>(
    alloc: Global,
    mode: Option<&[bool]>,
    option: OptionForm<'a>,
    out: &mut Vec<Stand<'a>>,
) -> Result<(), NoMemory>
    requires { AreReadable
        (inside.option_patterns option.key.now (option_map (λ d. d.now) option.given)) }
    ensures { IfOk result (λ _.
        stands_of out.new.items
        ≡ stands_of out.old.items
        ++ model.option_stands (option_map (λ m. m.now) mode.entry) option.entry.key.now
        (option_map (λ d. d.now) option.entry.given)) }
{
    let Some(d) = option.given else {
        return Ok(());
    };
    let Some(given) = headed_list(d) else {
        return Ok(());
    };
    if is_keyword(option.key, "mode") {
        add_mode(given, out)
    } else {
        add_contract(alloc, mode, d, given, out)
    }
}

// Adds what stands in an option of the judgement of this name, behind options with these keywords.
fn add_option<'a>(
    alloc: Global,
    judgement: Option<&Datum>,
    mode: Option<&[bool]>,
    seen: &[&Datum],
    option: OptionForm<'a>,
    out: &mut Vec<Stand<'a>>,
) -> Result<(), NoMemory>
    requires { IsTrue (forms.is_fit_option (option_map (λ d. d.now) judgement)
        (keys_of seen.now) (option_form_of option))
        → AreReadable (inside.option_patterns option.key.now (option_map (λ d. d.now) option.given)) }
    ensures { IfOk result (λ _.
        stands_of out.new.items
        ≡ stands_of out.old.items
        ++ (if forms.is_fit_option (option_map (λ d. d.now) judgement.entry) (keys_of seen.now)
        (option_form_of option.entry)
        then model.option_stands (option_map (λ m. m.now) mode.entry) option.entry.key.now
        (option_map (λ d. d.now) option.entry.given)
        else misshaped option.entry.key.now ∷ [])) }
{
    if is_fit_option(judgement, seen, option) {
        add_fit_option(alloc, mode, option, out)
    } else {
        Ok(out.push(Stand::Misshaped(option.key))?)
    }
}

// Adds what stands in options of the judgement of this name.
fn add_options<'a>(
    alloc: Global,
    judgement: Option<&Datum>,
    mode: Option<&[bool]>,
    options: &'a [Datum],
    out: &mut Vec<Stand<'a>>,
) -> Result<(), NoMemory>
    requires { AreReadable
        (inside.options_patterns (option_map (λ d. d.now) judgement) [] (paired options.now)) }
    ensures { IfOk result (λ _.
        stands_of out.new.items
        ≡ stands_of out.old.items
        ++ model.options_stand (option_map (λ d. d.now) judgement.entry)
        (option_map (λ m. m.now) mode.entry) [] (paired options.now)) }
{
    let mut seen = Vec::new(alloc);
    let mut left = options;
    while let Some((option, others)) = next_option(left) {
        add_option(alloc, judgement, mode, &seen, option, out)?;
        seen.push(option.key)?;
        left = others;
    }
    Ok(())
}

// Adds the form, if it has no mode.
fn add_missing_mode<'a>(
    d: &'a Datum,
    form: JudgementForm<'a>,
    out: &mut Vec<Stand<'a>>,
) -> Result<(), NoMemory>
    ensures { IfOk result (λ _.
        stands_of out.new.items
        ≡ stands_of out.old.items
        ++ model.missing_mode d.now (forms.mode_form (judgement_form_of form.entry))) }
{
    match mode_form(form) {
        Some(_) => Ok(()),
        None => Ok(out.push(Stand::Misfit(d, None))?),
    }
}

/// What stands in a form with these parts and this mode.
pub(crate) fn judgement_stands<'a>(
    alloc: Global,
    scope: &Scope,
    d: &'a Datum,
    form: JudgementForm<'a>,
    mode: Option<&[bool]>,
) -> Result<Vec<Stand<'a>>, NoMemory>
    requires mode { option_map (λ m. m.now) mode ≡ forms.own_mode (judgement_form_of form) }
    requires parts { OutlineHas (scope_of scope.now) readable
        (inside.judgement_outline (judgement_form_of form)) }
    ensures { IfOk result (λ found.
        stands_of found.items
        ≡ bare_forms.judgement_stands (scope_of scope.now) d.now (judgement_form_of form.entry)) }
{
    let mut found = Vec::new(alloc);
    add_missing_mode(d, form, &mut found)?;
    let judgement = judgement_in(form);
    add_options(alloc, judgement, mode, form.options, &mut found)?;
    add_rules(alloc, scope, judgement, mode, form.rules, &mut found)?;
    Ok(found)
}

// Adds patterns.
fn add_data<'a>(patterns: &'a [Datum], out: &mut Vec<&'a Datum>) -> Result<(), NoMemory>
    ensures { IfOk result (λ _.
        map (λ d. d.now) out.new.items ≡ map (λ d. d.now) out.old.items ++ patterns.now) }
{
    for d in patterns {
        out.push(d)?;
    }
    Ok(())
}

// Adds the patterns that an option gives that has its shape.
fn add_fit_patterns<'a>(option: OptionForm<'a>, out: &mut Vec<&'a Datum>) -> Result<(), NoMemory>
    ensures { IfOk result (λ _.
        map (λ d. d.now) out.new.items
        ≡ map (λ d. d.now) out.old.items
        ++ inside.option_patterns option.entry.key.now
        (option_map (λ d. d.now) option.entry.given)) }
{
    let Some(d) = option.given else {
        return Ok(());
    };
    let Some(given) = headed_list(d) else {
        return Ok(());
    };
    if is_keyword(option.key, "mode") {
        Ok(())
    } else {
        add_data(given.arguments, out)
    }
}

// Adds the patterns that an option of the judgement of this name gives, behind options with these
// keywords.
fn add_option_patterns<'a>(
    judgement: Option<&Datum>,
    seen: &[&Datum],
    option: OptionForm<'a>,
    out: &mut Vec<&'a Datum>,
) -> Result<(), NoMemory>
    ensures { IfOk result (λ _.
        map (λ d. d.now) out.new.items
        ≡ map (λ d. d.now) out.old.items
        ++ (if forms.is_fit_option (option_map (λ d. d.now) judgement.entry) (keys_of seen.now)
        (option_form_of option.entry)
        then inside.option_patterns option.entry.key.now
        (option_map (λ d. d.now) option.entry.given)
        else [])) }
{
    if is_fit_option(judgement, seen, option) {
        add_fit_patterns(option, out)
    } else {
        Ok(())
    }
}

// The patterns that options of the judgement of this name give.
fn options_patterns<'a>(
    alloc: Global,
    judgement: Option<&Datum>,
    options: &'a [Datum],
) -> Result<Vec<&'a Datum>, NoMemory>
    ensures { IfOk result (λ found.
        map (λ d. d.now) found.items
        ≡ inside.options_patterns (option_map (λ d. d.now) judgement.entry) []
        (paired options.now)) }
{
    let mut found = Vec::new(alloc);
    let mut seen = Vec::new(alloc);
    let mut left = options;
    while let Some((option, others)) = next_option(left) {
        add_option_patterns(judgement, &seen, option, &mut found)?;
        seen.push(option.key)?;
        left = others;
    }
    Ok(found)
}

// The branches of the rules of the judgement of this name.
fn rule_branches<'m, 'a>(
    alloc: Global,
    judgement: Option<&Datum>,
    mode: Option<&'m [bool]>,
    rules: &'a [Datum],
) -> Result<Vec<RuleBranch<'m, 'a>>, NoMemory>
    ensures { IfOk result (λ branches.
        map rule_branch_of branches.items
        ≡ inside.rule_branches (option_map (λ d. d.now) judgement.entry)
        (option_map (λ m. m.now) mode.entry) rules.now) }
{
    let mut branches = Vec::new(alloc);
    for d in rules {
        if let Some(rule) = own_rule(judgement, d) {
            branches.push(rule_branch(mode, rule))?;
        }
    }
    Ok(branches)
}

/// The outline of a form with these parts and this mode.
pub(crate) fn judgement_outline<'m, 'a>(
    alloc: Global,
    form: JudgementForm<'a>,
    mode: Option<&'m [bool]>,
) -> Result<Outline<'m, 'a>, NoMemory>
    requires { option_map (λ m. m.now) mode ≡ forms.own_mode (judgement_form_of form) }
    ensures { IfOk result (λ outline.
        outline_of outline ≡ inside.judgement_outline (judgement_form_of form.entry)) }
{
    let judgement = judgement_in(form);
    let alone = options_patterns(alloc, judgement, form.options)?;
    let rules = rule_branches(alloc, judgement, mode, form.rules)?;
    Ok(Outline {
        alone,
        branches: Vec::new(alloc),
        rules,
        questions: Vec::new(alloc),
    })
}

/// What stands in a premise by itself, and in the template behind it, where there is one.
pub(crate) fn question_stands<'a>(
    alloc: Global,
    scope: &Scope,
    premise: &'a Datum,
    behind: Option<&'a Datum>,
) -> Result<Vec<Stand<'a>>, NoMemory>
    requires { IsReadable premise.now }
    ensures { IfOk result (λ found.
        stands_of found.items
        ≡ bare_forms.question_stands (scope_of scope.now) premise.now
        (option_map (λ d. d.now) behind.entry)) }
{
    let mut found = Vec::new(alloc);
    add_held(alloc, scope, premise, &mut found)?;
    if let Some(template) = behind {
        found.push(Stand::Template(template))?;
    }
    Ok(found)
}

/// The outline of a premise by itself.
pub(crate) fn question_outline<'a>(
    alloc: Global,
    premise: &'a Datum,
    behind: Option<&'a Datum>,
) -> Result<Outline<'a, 'a>, NoMemory>
    ensures { IfOk result (λ outline.
        outline_of outline
        ≡ inside.question_outline premise.now (option_map (λ d. d.now) behind.entry)) }
{
    let mut questions = Vec::new(alloc);
    questions.push(Question {
        premise,
        result: behind,
    })?;
    Ok(Outline {
        alone: Vec::new(alloc),
        branches: Vec::new(alloc),
        rules: Vec::new(alloc),
        questions,
    })
}
