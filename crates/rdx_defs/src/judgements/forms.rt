// The parts of forms of judgements, of their options and of their rules.
ghost use Rattle.std.specs.List.{list_all, list_any};
ghost use Rattle.std.specs.Str.{byte};
ghost use Rattle.std.specs.Prelude.{◌≡◌, ◌<◌, ◌==◌, IfOk, IfSome, bytes_eq, length, map, option_map};
ghost use Rattle.rdx_defs.specs.Inside.FormOutlines as inside;
ghost use Rattle.rdx_defs.specs.Inside.FormViews.{judgement_form_of, keys_of, next_of, option_form_of, paired, rule_form_of};
ghost use Rattle.rdx_parts.specs.PartViews.{headed_of, rule_branch_of};
ghost use Rattle.rdx_defs.specs.JudgementForms as model;

use rdx_parts::arguments::{Headed, headed_list, in_conclusion};
use rdx_parts::branches::RuleBranch;
use rdx_patterns::shape::{is_symbol, is_word, items, text};
use rdx_relations::is_keyword;
use rdx_sexp::{Datum, Form};
use rdx_term::NoMemory;
use std::alloc::Global;

/// A rule, of whatever judgement.
#[derive(Clone, Copy)]
pub(crate) struct RuleForm<'a> {
    /// `(J d ...)`
    pub(crate) conclusion: &'a Datum,
    /// The same by its parts.
    pub(crate) parts: Headed<'a>,
    pub(crate) premises: &'a [Datum],
    pub(crate) name: Option<&'a Datum>,
    /// Whether the conclusion is written behind the premises.
    pub(crate) is_last: bool,
}

/// An option: a keyword, and the datum behind it, where there is one.
#[derive(Clone, Copy)]
pub(crate) struct OptionForm<'a> {
    pub(crate) key: &'a Datum,
    pub(crate) given: Option<&'a Datum>,
}

/// The name of a language, options and rules.
#[derive(Clone, Copy)]
pub(crate) struct JudgementForm<'a> {
    pub(crate) language: &'a Datum,
    /// In pairs, each of a keyword and what stands behind it; the last may lack that.
    pub(crate) options: &'a [Datum],
    pub(crate) rules: &'a [Datum],
}

// Whether the text has nothing but hyphens.
fn has_hyphens_alone(text: &str) -> bool
    ensures { result ≡ list_all (λ c. c == byte "-") text.now }
{
    text.as_bytes().iter().all(|b| *b == b'-')
}

// Whether the text is one of three or more hyphens.
fn are_hyphens(text: &str) -> bool
    ensures { result ≡ model.are_hyphens text.now }
{
    text.len() > 2 && has_hyphens_alone(text)
}

// Whether the datum is a line, which is a symbol of hyphens.
fn is_line(d: &Datum) -> bool
    ensures { result ≡ model.is_line d.now }
{
    is_symbol(d) && are_hyphens(text(d))
}

// What stands before the first line, and what behind it.
fn cut_at_line(parts: &[Datum]) -> Option<(&[Datum], &[Datum])>
    ensures { option_map (λ c. (c.0.now, c.1.now)) result ≡ model.cut_at_line parts.now }
{
    for (i, d) in parts.iter().enumerate() {
        if is_line(d) {
            return Some((&parts[..i], &parts[i + 1..]));
        }
    }
    None
}

// Whether the datum may be the name of a rule.
fn is_label(d: &Datum) -> bool
    ensures { result ≡ model.is_label d.now }
{
    match &d.form {
        Form::Str(_) | Form::Sym(_) => true,
        Form::Int(_) | Form::Bool(_) | Form::Key(_) | Form::List(_) => false,
    }
}

// A rule with these parts, if its conclusion is one.
fn concluded<'a>(
    premises: &'a [Datum],
    name: Option<&'a Datum>,
    conclusion: &'a Datum,
    is_last: bool,
) -> Option<RuleForm<'a>>
    ensures { option_map rule_form_of result
        ≡ model.concluded premises.now (option_map (λ d. d.now) name.entry) conclusion.now
        is_last }
{
    let parts = headed_list(conclusion)?;
    Some(RuleForm {
        conclusion,
        parts,
        premises,
        name,
        is_last,
    })
}

// A rule with these premises, behind whose line these stand: a conclusion, or a name and a conclusion.
fn rule_behind<'a>(premises: &'a [Datum], behind: &'a [Datum]) -> Option<RuleForm<'a>>
    ensures { option_map rule_form_of result ≡ model.rule_behind premises.now behind.now }
{
    match behind {
        [conclusion] => concluded(premises, None, conclusion, true),
        [name, conclusion] if is_label(name) => concluded(premises, Some(name), conclusion, true),
        _ => None,
    }
}

// Premises, and the name behind them, where there is one.
fn cut_name(parts: &[Datum]) -> (&[Datum], Option<&Datum>)
    ensures { (result.0.now, option_map (λ d. d.now) result.1) ≡ model.cut_name parts.now }
{
    let Some((last, premises)) = parts.split_last() else {
        return (parts, None);
    };
    if is_label(last) {
        (premises, Some(last))
    } else {
        (parts, None)
    }
}

// A rule whose conclusion comes first.
fn rule_ahead(parts: &[Datum]) -> Option<RuleForm<'_>>
    ensures { option_map rule_form_of result ≡ model.rule_ahead parts.now }
{
    let [conclusion, behind @ ..] = parts else {
        return None;
    };
    let (premises, name) = cut_name(behind);
    concluded(premises, name, conclusion, false)
}

/// A datum as a rule, of whatever judgement.
pub(crate) fn rule_form(d: &Datum) -> Option<RuleForm<'_>>
    ensures { option_map rule_form_of result ≡ model.rule_form d.now }
{
    let parts = items(d)?;
    match cut_at_line(parts) {
        Some((premises, behind)) => rule_behind(premises, behind),
        None => rule_ahead(parts),
    }
}

// Whether the datum is a keyword.
fn is_any_keyword(d: &Datum) -> bool
    ensures { result ≡ model.is_any_keyword d.now }
{
    matches!(&d.form, Form::Key(_))
}

// How many of these are options, with what they give.
fn options_length(parts: &[Datum]) -> usize
    ensures { result ≡ inside.options_length parts.now }
{
    let mut end = 0;
    while end < parts.len() && is_any_keyword(&parts[end]) {
        end += if end + 1 < parts.len() { 2 } else { 1 };
    }
    end
}

// A judgement over the language of this name.
fn judgement_over<'a>(language: &'a Datum, parts: &'a [Datum]) -> JudgementForm<'a>
    ensures { judgement_form_of result ≡ inside.judgement_over language.now parts.now }
{
    let (options, rules) = parts.split_at(options_length(parts));
    JudgementForm {
        language,
        options,
        rules,
    }
}

/// A datum as a judgement.
pub(crate) fn judgement_form(d: &Datum) -> Option<JudgementForm<'_>>
    ensures { option_map judgement_form_of result ≡ model.judgement_form d.now }
{
    let [head, language, parts @ ..] = items(d)? else {
        return None;
    };
    if is_word(head, "define-judgment-form") && is_symbol(language) {
        Some(judgement_over(language, parts))
    } else {
        None
    }
}

/// The first of these options, and the others.
pub(crate) fn next_option(options: &[Datum]) -> Option<(OptionForm<'_>, &[Datum])>
    ensures next { option_map (λ c. (option_form_of c.0, paired c.1.now)) result
        ≡ next_of (paired options.now) }
    ensures shorter { IfSome result (λ c. length c.1.now < length options.now) }
{
    match options {
        [key, given, others @ ..] => Some((
            OptionForm {
                key,
                given: Some(given),
            },
            others,
        )),
        [key, others @ ..] => Some((OptionForm { key, given: None }, others)),
        [] => None,
    }
}

// What the first option of this keyword gives.
fn given_by<'a>(word: &str, options: &'a [Datum]) -> Option<&'a Datum>
    ensures { option_map (λ d. d.now) result ≡ model.given_by word.now (paired options.now) }
{
    let mut left = options;
    while let Some((option, others)) = next_option(left) {
        if is_keyword(option.key, word) {
            return option.given;
        }
        left = others;
    }
    None
}

/// The mode of a judgement as it is written.
pub(crate) fn mode_form<'a>(form: JudgementForm<'a>) -> Option<Headed<'a>>
    ensures { option_map headed_of result ≡ model.mode_form (judgement_form_of form.entry) }
{
    headed_list(given_by("mode", form.options)?)
}

/// Its contract.
pub(crate) fn contract_form<'a>(form: JudgementForm<'a>) -> Option<Headed<'a>>
    ensures { option_map headed_of result ≡ model.contract_form (judgement_form_of form.entry) }
{
    headed_list(given_by("contract", form.options)?)
}

/// The name that a judgement goes by, in its mode.
pub(crate) fn judgement_in<'a>(form: JudgementForm<'a>) -> Option<&'a Datum>
    ensures { option_map (λ d. d.now) result
        ≡ model.judgement_in (judgement_form_of form.entry) }
{
    Some(mode_form(form)?.head)
}

/// Whether the datum stands for an input or for an output.
pub(crate) fn is_flag(d: &Datum) -> bool
    ensures { result ≡ model.is_flag d.now }
{
    is_word(d, "I") || is_word(d, "O")
}

// Whether all of these do.
fn are_flags(flags: &[Datum]) -> bool
    ensures { result ≡ list_all model.is_flag flags.now }
{
    for d in flags {
        if !is_flag(d) {
            return false;
        }
    }
    true
}

// For each of these whether it stands for an input.
fn read_flags(alloc: Global, flags: &[Datum]) -> Result<Vec<bool>, NoMemory>
    ensures { IfOk result (λ mode. mode.items ≡ map inside.is_input flags.now) }
{
    let mut mode = Vec::new(alloc);
    for d in flags {
        mode.push(is_word(d, "I"))?;
    }
    Ok(mode)
}

// The mode that such a list gives, if each item stands for an input or an output.
fn mode_given(alloc: Global, mode: Option<Headed<'_>>) -> Result<Option<Vec<bool>>, NoMemory>
    ensures { IfOk result (λ m.
        option_map (λ flags. flags.items) m
        ≡ model.mode_given (option_map headed_of mode.entry)) }
{
    match mode {
        Some(mode) if are_flags(mode.arguments) => Ok(Some(read_flags(alloc, mode.arguments)?)),
        _ => Ok(None),
    }
}

/// The mode of a judgement, if each item stands for an input or an output.
pub(crate) fn own_mode(
    alloc: Global,
    form: JudgementForm<'_>,
) -> Result<Option<Vec<bool>>, NoMemory>
    ensures { IfOk result (λ m.
        option_map (λ flags. flags.items) m ≡ model.own_mode (judgement_form_of form.entry)) }
{
    mode_given(alloc, mode_form(form))
}

// Whether the list is headed by the name, where there is one.
fn is_named_so(judgement: Option<&Datum>, list: Headed<'_>) -> bool
    ensures { result
        ≡ model.is_named_so (option_map (λ d. d.now) judgement.entry) (headed_of list.entry) }
{
    match judgement {
        Some(name) => text(list.head) == text(name),
        None => true,
    }
}

// Whether an option of a judgement of this name has its shape.
fn is_option(judgement: Option<&Datum>, key: &Datum, given: Option<Headed<'_>>) -> bool
    ensures { result
        ≡ model.is_option (option_map (λ d. d.now) judgement.entry) key.now
        (option_map headed_of given.entry) }
{
    match given {
        Some(list) => {
            is_keyword(key, "mode") || (is_keyword(key, "contract") && is_named_so(judgement, list))
        }
        None => false,
    }
}

// The text of a keyword.
fn key_text(d: &Datum) -> &str
    ensures { result.now ≡ model.key_text d.now }
{
    match &d.form {
        Form::Key(text) => text.as_str(),
        _ => "",
    }
}

// Whether one of these keywords is the same as this one; the last is looked at first.
fn is_seen(seen: &[&Datum], key: &Datum) -> bool
    ensures { result
        ≡ list_any (λ k. bytes_eq k (model.key_text key.now)) (keys_of seen.now) }
{
    for i in (0..seen.len()).rev() {
        if key_text(seen[i]) == key_text(key) {
            return true;
        }
    }
    false
}

// What an option gives as a list headed by a symbol.
fn headed_by<'a>(given: Option<&'a Datum>) -> Option<Headed<'a>>
    ensures { option_map headed_of result
        ≡ model.headed_by (option_map (λ d. d.now) given.entry) }
{
    headed_list(given?)
}

/// Whether an option of a judgement of this name has its shape, and its keyword comes here first.
pub(crate) fn is_fit_option(
    judgement: Option<&Datum>,
    seen: &[&Datum],
    option: OptionForm<'_>,
) -> bool
    ensures { result
        ≡ model.is_fit_option (option_map (λ d. d.now) judgement.entry) (keys_of seen.now)
        (option_form_of option.entry) }
{
    is_option(judgement, option.key, headed_by(option.given)) && !is_seen(seen, option.key)
}

/// A datum as a rule of the judgement of this name; where there is no name, of any judgement.
pub(crate) fn own_rule<'a>(judgement: Option<&Datum>, d: &'a Datum) -> Option<RuleForm<'a>>
    ensures { option_map rule_form_of result
        ≡ model.own_rule (option_map (λ d. d.now) judgement.entry) (model.rule_form d.now) }
{
    let rule = rule_form(d)?;
    if is_named_so(judgement, rule.parts) {
        Some(rule)
    } else {
        None
    }
}

/// The branch of a rule, by the mode of its judgement.
pub(crate) fn rule_branch<'m, 'a>(
    mode: Option<&'m [bool]>,
    rule: RuleForm<'a>,
) -> RuleBranch<'m, 'a>
    ensures { rule_branch_of result
        ≡ inside.rule_branch (option_map (λ m. m.now) mode.entry) (rule_form_of rule.entry) }
{
    RuleBranch {
        arguments: in_conclusion(mode, rule.parts.arguments),
        premises: rule.premises,
        is_last: rule.is_last,
    }
}
