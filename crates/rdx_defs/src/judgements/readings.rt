// The judgements of data, and premises by themselves.
ghost use Rattle.std.specs.Prelude.{◌≡◌, IfOk, IsTrue, Some, map, option_map};
ghost use Rattle.std.specs.Rc.{rc_str_bytes};
ghost use Rattle.rdx_term.specs.Spelling.{is_name};
ghost use Rattle.rdx_lang.specs.Checked.{language_in, pattern_in};
ghost use Rattle.rdx_lang.specs.ProgramView.{contract_of, extras_of, judgement_of, judgement_rule_of, judgement_rules_of};
ghost use Rattle.rdx_lang.specs.TemplateView.{template_of};
ghost use Rattle.rdx_lang.specs.WellFormed.{is_well_formed_in};
ghost use Rattle.rdx_patterns.specs.Parts.{text_of};
ghost use Rattle.rdx_parts.specs.Arguments.{patterns_in, templates_in};
ghost use Rattle.rdx_parts.specs.ByNames as by_names;
ghost use Rattle.rdx_parts.specs.ExtraForms.{of_rule};
ghost use Rattle.rdx_parts.specs.ExtraReading.{templates_reading};
ghost use Rattle.rdx_defs.specs.Inside.FormOutlines as inside;
ghost use Rattle.rdx_defs.specs.Inside.Contracts.{IsJudgementContract, IsJudgementContractIn};
ghost use Rattle.rdx_defs.specs.Inside.FormViews.{judgement_form_of, rule_form_of};
ghost use Rattle.rdx_parts.specs.PartViews.{arguments_of, headed_of, rule_branch_of};
ghost use Rattle.rdx_parts.specs.PartsHave.{RuleHas, RulesHave, can_bind, can_read};
ghost use Rattle.rdx_defs.specs.JudgementForms as forms;
ghost use Rattle.rdx_defs.specs.JudgementReading as model;
ghost use Rattle.rdx_templates.specs.Scope.{scope_of};
ghost use Rattle.rdx_parts.specs.StandChecks as checks;

use crate::judgements::forms::{
    JudgementForm, RuleForm, contract_form, judgement_in, own_rule, rule_branch,
};
use crate::metafunctions::readings::closed_items;
use rdx_lang::{CheckedLang, CheckedPat, Extra, JRule, Judgement, Pat, Template};
use rdx_parts::arguments::{Arguments, Headed, in_conclusion, in_premise};
use rdx_parts::branches::RuleBranch;
use rdx_parts::extras::ExtraPlace;
use rdx_parts::stands::checks::label;
use rdx_parts::stands::names::{input_names, rule_names};
use rdx_parts::stands::readings::{read_extras, read_items, read_patterns, read_templates};
use rdx_patterns::{Names, symbol_name};
use rdx_sexp::Datum;
use rdx_templates::Scope;
use rdx_term::{Name, NoMemory};
use std::alloc::Global;
use std::rc::RcStr;

// The text of the name of a rule, where it has one.
fn read_label(alloc: Global, name: Option<&Datum>) -> Result<Option<RcStr>, NoMemory>
    ensures { IfOk result (λ text.
        option_map rc_str_bytes text
        ≡ option_map checks.label (option_map (λ d. d.now) name.entry)) }
{
    match name {
        Some(d) => Ok(Some(RcStr::from_str(alloc, label(d))?)),
        None => Ok(None),
    }
}

// The premises of a rule, behind its inputs.
fn read_premises(
    alloc: Global,
    scope: &Scope,
    language: &CheckedLang,
    names: &Names,
    branch: RuleBranch<'_, '_>,
) -> Result<Vec<Extra>, NoMemory>
    requires { RuleHas (scope_of scope.now)
        (can_read (scope_of scope.now) (language_in language.now) names.now)
        (rule_branch_of branch) }
    ensures { IfOk result (λ read.
        extras_of read.items
        ≡ by_names.extras_reading of_rule (scope_of scope.now) names.now
        (by_names.input_names names.now (rule_branch_of branch.entry))
        branch.entry.premises.now) }
{
    let bound = input_names(alloc, names, branch)?;
    let place = ExtraPlace::OfRule;
    read_extras(alloc, scope, language, names, place, bound, branch.premises)
}

// The outputs of a rule, behind all names that it binds.
fn read_outputs(
    alloc: Global,
    scope: &Scope,
    names: &Names,
    branch: RuleBranch<'_, '_>,
) -> Result<Vec<Template>, NoMemory>
    requires { RuleHas (scope_of scope.now) (can_bind names.now) (rule_branch_of branch) }
    ensures { IfOk result (λ read.
        map template_of read.items
        ≡ templates_reading (scope_of scope.now)
        (by_names.rule_names (scope_of scope.now) names.now (rule_branch_of branch.entry))
        (templates_in (arguments_of branch.entry.arguments))) }
{
    let all = rule_names(alloc, scope, names, branch)?;
    read_templates(alloc, scope, &all, branch.arguments)
}

// What a rule has behind its inputs: its premises, its outputs, and the text of its name, where it
// has one.
fn read_behind(
    alloc: Global,
    scope: &Scope,
    language: &CheckedLang,
    names: &Names,
    branch: RuleBranch<'_, '_>,
    name: Option<&Datum>,
) -> Result<(Vec<Extra>, Vec<Template>, Option<RcStr>), NoMemory>
    requires { RuleHas (scope_of scope.now)
        (can_read (scope_of scope.now) (language_in language.now) names.now)
        (rule_branch_of branch) }
    ensures premises { IfOk result (λ read.
        extras_of read.0.items
        ≡ by_names.extras_reading of_rule (scope_of scope.now) names.now
        (by_names.input_names names.now (rule_branch_of branch.entry))
        branch.entry.premises.now) }
    ensures outputs { IfOk result (λ read.
        map template_of read.1.items
        ≡ templates_reading (scope_of scope.now)
        (by_names.rule_names (scope_of scope.now) names.now (rule_branch_of branch.entry))
        (templates_in (arguments_of branch.entry.arguments))) }
    ensures name { IfOk result (λ read.
        option_map rc_str_bytes read.2
        ≡ option_map checks.label (option_map (λ d. d.now) name.entry)) }
{
    let extras = read_premises(alloc, scope, language, names, branch)?;
    let outs = read_outputs(alloc, scope, names, branch)?;
    Ok((extras, outs, read_label(alloc, name)?))
}

// A rule, by the mode of its judgement.
fn read_rule(
    alloc: Global,
    scope: &Scope,
    language: &CheckedLang,
    names: &Names,
    mode: Option<&[bool]>,
    rule: RuleForm<'_>,
) -> Result<JRule, NoMemory>
    requires { RuleHas (scope_of scope.now)
        (can_read (scope_of scope.now) (language_in language.now) names.now)
        (inside.rule_branch (option_map (λ m. m.now) mode) (rule_form_of rule)) }
    ensures { IfOk result (λ read.
        judgement_rule_of read
        ≡ model.rule_reading (scope_of scope.now) names.now (option_map (λ m. m.now) mode.entry)
        (rule_form_of rule.entry)) }
{
    let branch = rule_branch(mode, rule);
    let ins = read_patterns(alloc, language, names, branch.arguments)?;
    let (extras, outs, name) = read_behind(alloc, scope, language, names, branch, rule.name)?;
    Ok(JRule {
        name,
        ins,
        extras,
        outs,
    })
}

// The rules of the judgement of this name, by its mode.
fn read_rules(
    alloc: Global,
    scope: &Scope,
    language: &CheckedLang,
    names: &Names,
    judgement: Option<&Datum>,
    mode: Option<&[bool]>,
    rules: &[Datum],
) -> Result<Vec<JRule>, NoMemory>
    requires { RulesHave (scope_of scope.now)
        (can_read (scope_of scope.now) (language_in language.now) names.now)
        (inside.rule_branches (option_map (λ d. d.now) judgement) (option_map (λ m. m.now) mode)
        rules.now) }
    ensures { IfOk result (λ read.
        judgement_rules_of read.items
        ≡ model.rules_reading (scope_of scope.now) names.now
        (option_map (λ d. d.now) judgement.entry) (option_map (λ m. m.now) mode.entry)
        rules.now) }
{
    let mut read = Vec::new(alloc);
    for d in rules {
        if let Some(rule) = own_rule(judgement, d) {
            read.push(read_rule(alloc, scope, language, names, mode, rule)?)?;
        }
    }
    Ok(read)
}

// The rules of the judgement of a form by this mode, its name, and that of its language.
fn read_named_rules(
    alloc: Global,
    scope: &Scope,
    language: &CheckedLang,
    names: &Names,
    form: JudgementForm<'_>,
    name: &Datum,
    mode: &[bool],
) -> Result<(Vec<JRule>, Name, Name), NoMemory>
    requires rules { RulesHave (scope_of scope.now)
        (can_read (scope_of scope.now) (language_in language.now) names.now)
        (inside.rule_branches (forms.judgement_in (judgement_form_of form)) (Some mode.now)
        form.rules.now) }
    requires language { IsTrue (is_name (text_of form.language.now)) }
    requires name { IsTrue (is_name (text_of name.now)) }
    ensures rules { IfOk result (λ read.
        judgement_rules_of read.0.items
        ≡ model.rules_reading (scope_of scope.now) names.now
        (forms.judgement_in (judgement_form_of form.entry)) (Some mode.now)
        form.entry.rules.now) }
    ensures name { IfOk result (λ read. read.1 ≡ text_of name.now) }
    ensures language { IfOk result (λ read. read.2 ≡ text_of form.entry.language.now) }
{
    let judgement = judgement_in(form);
    let by = Some(mode);
    let rules = read_rules(alloc, scope, language, names, judgement, by, form.rules)?;
    Ok((rules, symbol_name(name)?, symbol_name(form.language)?))
}

// The pattern of lists by the patterns among arguments, each closed.
fn closed_list(
    alloc: Global,
    language: &CheckedLang,
    names: &Names,
    arguments: Arguments<'_, '_>,
) -> Result<CheckedPat, NoMemory>
    requires { IsTrue (is_well_formed_in (language_in language.now)
        (model.closed_list names.now (patterns_in (arguments_of arguments)))) }
    ensures { IfOk result (λ c.
        pattern_in c ≡ model.closed_list names.now (patterns_in (arguments_of arguments.entry))) }
{
    let items = closed_items(alloc, read_items(alloc, names, arguments)?)?;
    Ok(CheckedPat::known(language, Pat::Seq(items)))
}

// The patterns of a contract by the mode of its form: of the list of inputs, and of that of
// outputs.
fn read_contract(
    alloc: Global,
    language: &CheckedLang,
    names: &Names,
    mode: &[bool],
    contract: Headed<'_>,
) -> Result<(CheckedPat, CheckedPat), NoMemory>
    requires { IsJudgementContract (language_in language.now) names.now (Some mode.now)
        (headed_of contract) }
    ensures { IfOk result (λ c.
        contract_of c
        ≡ model.contract_reading names.now (Some mode.now) (headed_of contract.entry)) }
{
    let by = Some(mode);
    let inputs = in_conclusion(by, contract.arguments);
    let outputs = in_premise(by, contract.arguments);
    Ok((
        closed_list(alloc, language, names, inputs)?,
        closed_list(alloc, language, names, outputs)?,
    ))
}

// The same, where there is a contract.
fn read_any_contract(
    alloc: Global,
    language: &CheckedLang,
    names: &Names,
    mode: &[bool],
    contract: Option<Headed<'_>>,
) -> Result<Option<(CheckedPat, CheckedPat)>, NoMemory>
    requires { IsJudgementContractIn (language_in language.now) names.now (Some mode.now)
        (option_map headed_of contract) }
    ensures { IfOk result (λ read.
        option_map contract_of read
        ≡ option_map (model.contract_reading names.now (Some mode.now))
        (option_map headed_of contract.entry)) }
{
    match contract {
        Some(contract) => Ok(Some(read_contract(alloc, language, names, mode, contract)?)),
        None => Ok(None),
    }
}

/// The judgement of this name and this mode that a form with these parts stands for.
pub(crate) fn read_parts(
    alloc: Global,
    scope: &Scope,
    language: &CheckedLang,
    names: &Names,
    form: JudgementForm<'_>,
    name: &Datum,
    mode: Vec<bool>,
) -> Result<Judgement, NoMemory>
    requires rules { RulesHave (scope_of scope.now)
        (can_read (scope_of scope.now) (language_in language.now) names.now)
        (inside.judgement_outline (judgement_form_of form)).rules }
    requires contract { IsJudgementContractIn (language_in language.now) names.now
        (forms.own_mode (judgement_form_of form)) (forms.contract_form (judgement_form_of form)) }
    requires language { IsTrue (is_name (text_of form.language.now)) }
    requires name { IsTrue (is_name (text_of name.now)) }
    requires named { forms.judgement_in (judgement_form_of form) ≡ Some name.now }
    requires mode { forms.own_mode (judgement_form_of form) ≡ Some mode.items }
    ensures { IfOk result (λ j.
        judgement_of j
        ≡ model.judgement_reading (scope_of scope.now) names.now
        (judgement_form_of form.entry)) }
{
    let contract = read_any_contract(alloc, language, names, &mode, contract_form(form))?;
    let (rules, name, language) = read_named_rules(
        alloc, scope, language, names, form, name, &mode,
    )?;
    Ok(Judgement {
        name,
        language,
        inputs: mode,
        contract,
        rules,
    })
}
