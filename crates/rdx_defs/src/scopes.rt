// The scope of a file.
ghost use Rattle.std.specs.Bool.{then_some};
ghost use Rattle.std.specs.List.{list_all};
ghost use Rattle.std.specs.Option.{option_to_list};
ghost use Rattle.std.specs.Prelude.{◌≡◌, ◌++◌, [], Some, IfOk, map, option_map};
ghost use Rattle.std.specs.Rc.{rc_str_bytes};
ghost use Rattle.rdx_term.specs.Spelling.{is_name};
ghost use Rattle.rdx_patterns.specs.Parts.{text_of};
ghost use Rattle.rdx_patterns.specs.Reading.{name_in};
ghost use Rattle.rdx_parts.specs.ExtraForms as all;
ghost use Rattle.rdx_defs.specs.Inside.FormViews.{judgement_form_of, paired};
ghost use Rattle.rdx_parts.specs.PartViews.{extra_form_of, place_of};
ghost use Rattle.rdx_defs.specs.JudgementForms as rules;
ghost use Rattle.rdx_defs.specs.MetafunctionForms as forms;
ghost use Rattle.rdx_templates.specs.Scope as scope;
ghost use Rattle.rdx_defs.specs.Scopes as model;

use crate::judgements::forms::{
    JudgementForm, is_fit_option, judgement_form, judgement_in, next_option, own_mode, rule_form,
};
use crate::metafunctions::forms::{clause_form, function_in, metafunction_form};
use rdx_parts::arguments::headed_list;
use rdx_parts::extras::{ExtraForm, ExtraPlace, form_at};
use rdx_patterns::shape::{symbol, text};
use rdx_sexp::Datum;
use rdx_templates::Scope;
use rdx_term::{Name, NoMemory};
use std::alloc::Global;
use std::rc::RcStr;

// Whether it has its shape, and is no name.
fn is_condition(extra: ExtraForm<'_>) -> bool
    ensures { result ≡ all.is_condition (extra_form_of extra.entry) }
{
    match extra {
        ExtraForm::SuchThat(_, _)
        | ExtraForm::Provided(_)
        | ExtraForm::Confirmed(_)
        | ExtraForm::Freshly(_) => true,
        ExtraForm::Holding(premise) => headed_list(premise).is_some(),
        ExtraForm::Name | ExtraForm::NoExtra => false,
    }
}

// Whether all these are what they are to be at such a place, other than names.
fn are_conditions(place: ExtraPlace, extras: &[Datum]) -> bool
    ensures { result ≡ model.are_conditions (place_of place) extras.now }
{
    for d in extras {
        if !is_condition(form_at(place, d)) {
            return false;
        }
    }
    true
}

// Whether the datum has the shape of a clause of the metafunction of this name.
fn is_clause_of(name: &str, d: &Datum) -> bool
    ensures { result ≡ model.is_clause_of name.now (forms.clause_form d.now) }
{
    match clause_form(d) {
        Some(clause) => text(clause.function) == name
            && are_conditions(ExtraPlace::OfClause, clause.extras),
        None => false,
    }
}

// Whether all data have.
fn are_clauses_of(name: &str, clauses: &[Datum]) -> bool
    ensures { result
        ≡ list_all (λ d. model.is_clause_of name.now (forms.clause_form d)) clauses.now }
{
    for d in clauses {
        if !is_clause_of(name, d) {
            return false;
        }
    }
    true
}

// The name that a symbol is, where it is one.
fn name_of(d: &Datum) -> Result<Option<Name>, NoMemory>
    ensures { IfOk result (λ n. n ≡ then_some (is_name (text_of d.now)) (text_of d.now)) }
{
    match symbol(d) {
        Some(text) => Ok(Name::new(text.clone()?)),
        None => Ok(None),
    }
}

// Adds the name that a symbol is, where it is one.
fn add_name(d: &Datum, out: &mut Vec<Name>) -> Result<(), NoMemory>
    ensures { IfOk result (λ _. out.new.items ≡ out.old.items ++ name_in d.now) }
{
    match name_of(d)? {
        Some(name) => Ok(out.push(name)?),
        None => Ok(()),
    }
}

// Adds the name, where it is one and all of these are clauses of it.
fn add_function(
    function: Option<&Datum>,
    clauses: &[Datum],
    out: &mut Vec<Name>,
) -> Result<(), NoMemory>
    ensures { IfOk result (λ _.
        out.new.items
        ≡ out.old.items
        ++ model.function_of_all (option_map (λ d. d.now) function.entry) clauses.now) }
{
    let Some(d) = function else {
        return Ok(());
    };
    if are_clauses_of(text(d), clauses) {
        add_name(d, out)
    } else {
        Ok(())
    }
}

// Adds the metafunctions that a form defines.
fn add_functions(d: &Datum, out: &mut Vec<Name>) -> Result<(), NoMemory>
    ensures { IfOk result (λ _.
        out.new.items ≡ out.old.items ++ model.defined_functions d.now) }
{
    match metafunction_form(d) {
        Some(form) => add_function(function_in(form), form.clauses, out),
        None => Ok(()),
    }
}

// Whether the datum has the shape of a rule of the judgement of this name.
fn is_rule_of(judgement: &Datum, d: &Datum) -> bool
    ensures { result ≡ model.is_rule_of judgement.now (rules.rule_form d.now) }
{
    match rule_form(d) {
        Some(rule) => {
            text(rule.parts.head) == text(judgement)
                && are_conditions(ExtraPlace::OfRule, rule.premises)
        }
        None => false,
    }
}

// Whether all data have.
fn are_rules_of(judgement: &Datum, found: &[Datum]) -> bool
    ensures { result
        ≡ list_all (λ d. model.is_rule_of judgement.now (rules.rule_form d)) found.now }
{
    for d in found {
        if !is_rule_of(judgement, d) {
            return false;
        }
    }
    true
}

// Whether all options of a judgement of this name have their shape, each keyword coming once.
fn are_fit_options(alloc: Global, judgement: &Datum, options: &[Datum]) -> Result<bool, NoMemory>
    ensures { IfOk result (λ fit.
        fit ≡ rules.are_fit_options (Some judgement.now) [] (paired options.now)) }
{
    let mut seen = Vec::new(alloc);
    let mut left = options;
    while let Some((option, others)) = next_option(left) {
        if !is_fit_option(Some(judgement), &seen, option) {
            return Ok(false);
        }
        seen.push(option.key)?;
        left = others;
    }
    Ok(true)
}

// The name of a judgement with its mode, if it has a name.
fn with_mode(
    alloc: Global,
    judgement: &Datum,
    form: JudgementForm<'_>,
) -> Result<Option<(Name, Vec<bool>)>, NoMemory>
    ensures { IfOk result (λ j.
        option_to_list (option_map (λ j. (j.0, j.1.items)) j)
        ≡ model.with_mode judgement.now (rules.own_mode (judgement_form_of form.entry))) }
{
    let Some(mode) = own_mode(alloc, form)? else {
        return Ok(None);
    };
    match name_of(judgement)? {
        Some(name) => Ok(Some((name, mode))),
        None => Ok(None),
    }
}

// The name of a judgement with these parts, with its mode, where they have their shape.
fn moded_judgement(
    alloc: Global,
    form: JudgementForm<'_>,
) -> Result<Option<(Name, Vec<bool>)>, NoMemory>
    ensures { IfOk result (λ j.
        option_to_list (option_map (λ j. (j.0, j.1.items)) j)
        ≡ model.judgement_moded (Some (judgement_form_of form.entry))) }
{
    let Some(judgement) = judgement_in(form) else {
        return Ok(None);
    };
    if are_fit_options(alloc, judgement, form.options)? && are_rules_of(judgement, form.rules) {
        with_mode(alloc, judgement, form)
    } else {
        Ok(None)
    }
}

// Adds the judgements that a form defines, with their modes.
fn add_judgements(
    alloc: Global,
    d: &Datum,
    out: &mut Vec<(Name, Vec<bool>)>,
) -> Result<(), NoMemory>
    ensures { IfOk result (λ _.
        map (λ j. (j.0, j.1.items)) out.new.items
        ≡ map (λ j. (j.0, j.1.items)) out.old.items ++ model.defined_judgements d.now) }
{
    let Some(form) = judgement_form(d) else {
        return Ok(());
    };
    if let Some(judgement) = moded_judgement(alloc, form)? {
        out.push(judgement)?;
    }
    Ok(())
}

// Adds the judgements that a form defines, each with the name of its language.
fn add_languages(alloc: Global, d: &Datum, out: &mut Vec<(Name, RcStr)>) -> Result<(), NoMemory>
    ensures { IfOk result (λ _.
        map (λ l. (l.0, rc_str_bytes l.1)) out.new.items
        ≡ map (λ l. (l.0, rc_str_bytes l.1)) out.old.items ++ model.defined_languages d.now) }
{
    let Some(form) = judgement_form(d) else {
        return Ok(());
    };
    let Some((judgement, _)) = moded_judgement(alloc, form)? else {
        return Ok(());
    };
    let language = RcStr::from_str(alloc, text(form.language))?;
    Ok(out.push((judgement, language))?)
}

/// For each judgement that these forms define, in their order, its name with the name of its
/// language.
pub fn judgement_languages(alloc: Global, forms: &[Datum]) -> Result<Vec<(Name, RcStr)>, NoMemory>
    ensures { IfOk result (λ ls.
        map (λ l. (l.0, rc_str_bytes l.1)) ls.items ≡ model.languages_in forms.now) }
{
    let mut languages = Vec::new(alloc);
    for d in forms {
        add_languages(alloc, d, &mut languages)?;
    }
    Ok(languages)
}

/// What these forms define in the whole file, so far as they have their outer shape.
pub fn scope_of(alloc: Global, forms: &[Datum]) -> Result<Scope, NoMemory>
    ensures { IfOk result (λ s. scope.scope_of s ≡ model.scope_in forms.now) }
{
    let mut metafunctions = Vec::new(alloc);
    let mut judgements = Vec::new(alloc);
    for d in forms {
        add_functions(d, &mut metafunctions)?;
        add_judgements(alloc, d, &mut judgements)?;
    }
    Scope::new(alloc, metafunctions, judgements)
}
