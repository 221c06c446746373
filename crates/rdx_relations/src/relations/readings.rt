// The relations of data.
ghost use Rattle.std.specs.Prelude.{◌≡◌, IfOk, IsTrue, map, option_map};
ghost use Rattle.std.specs.Rc.{rc_str_bytes};
ghost use Rattle.rdx_lang.specs.Checked.{language_in, pattern_in};
ghost use Rattle.rdx_lang.specs.ProgramView.{rule_of, relation_of};
ghost use Rattle.rdx_patterns.specs.Parts.{text_of};
ghost use Rattle.rdx_patterns.specs.Reading.{reading};
ghost use Rattle.rdx_patterns.specs.declared.patterns.position.Position.TheVariants as positions;
ghost use Rattle.rdx_term.specs.Spelling.{is_name};
ghost use Rattle.rdx_relations.specs.Inside.FormOutlines as inside;
ghost use Rattle.rdx_relations.specs.Inside.BranchReadings.{branch_rule, branch_rules};
ghost use Rattle.rdx_relations.specs.Inside.FormViews.{relation_form_of};
ghost use Rattle.rdx_parts.specs.PartViews.{branch_of, outline_of};
ghost use Rattle.rdx_parts.specs.PartsHave.{AloneHave, BranchHas, BranchesHave, IsPattern, OutlineHas, can_read};
ghost use Rattle.rdx_relations.specs.RelationReading as model;
ghost use Rattle.rdx_templates.specs.Scope.{scope_of};

use crate::relations::forms::RelationForm;
use rdx_lang::{CheckedLang, CheckedPat, Relation, Rule};
use rdx_parts::branches::{Branch, Outline, Takes};
use rdx_parts::extras::{ExtraForm, ExtraPlace, form_at};
use rdx_parts::stands::checks::label;
use rdx_parts::stands::readings::{read_branch, read_takes};
use rdx_patterns::{Names, symbol_name};
use rdx_sexp::Datum;
use rdx_templates::Scope;
use rdx_term::{Name, NoMemory};
use std::alloc::Global;
use std::rc::RcStr;

// The first name among extras.
fn first_name(alloc: Global, extras: &[Datum]) -> Result<Option<RcStr>, NoMemory>
    ensures { IfOk result (λ name.
        option_map rc_str_bytes name ≡ model.first_name extras.now) }
{
    for d in extras {
        if matches!(form_at(ExtraPlace::OfCase, d), ExtraForm::Name) {
            return Ok(Some(RcStr::from_str(alloc, label(d))?));
        }
    }
    Ok(None)
}

// The rule of a case.
fn read_rule(
    alloc: Global,
    scope: &Scope,
    language: &CheckedLang,
    names: &Names,
    branch: Branch<'_>,
) -> Result<Rule, NoMemory>
    requires { BranchHas (scope_of scope.now)
        (can_read (scope_of scope.now) (language_in language.now) names.now) (branch_of branch) }
    ensures { IfOk result (λ rule.
        rule_of rule ≡ branch_rule (scope_of scope.now) names.now (branch_of branch.entry)) }
{
    let name = first_name(alloc, branch.extras)?;
    let read = read_branch(alloc, scope, language, names, branch)?;
    Ok(Rule {
        name,
        pattern: read.pattern,
        extras: read.extras,
        result: read.result,
    })
}

// The rules of cases.
fn read_rules(
    alloc: Global,
    scope: &Scope,
    language: &CheckedLang,
    names: &Names,
    branches: &[Branch<'_>],
) -> Result<Vec<Rule>, NoMemory>
    requires { BranchesHave (scope_of scope.now)
        (can_read (scope_of scope.now) (language_in language.now) names.now)
        (map branch_of branches.now) }
    ensures { IfOk result (λ rules.
        map rule_of rules.items
        ≡ branch_rules (scope_of scope.now) names.now (map branch_of branches.now)) }
{
    let mut rules = Vec::new(alloc);
    for branch in branches {
        rules.push(read_rule(alloc, scope, language, names, *branch)?)?;
    }
    Ok(rules)
}

// The domain, where there is one.
fn read_domain(
    alloc: Global,
    language: &CheckedLang,
    names: &Names,
    domain: Option<&Datum>,
) -> Result<Option<CheckedPat>, NoMemory>
    requires { AloneHave (IsPattern (language_in language.now) names.now)
        (inside.domain_patterns (option_map (λ d. d.now) domain)) }
    ensures { IfOk result (λ read.
        option_map pattern_in read
        ≡ option_map (reading names.now positions.Query) (option_map (λ d. d.now) domain.entry)) }
{
    match domain {
        Some(p) => Ok(Some(read_takes(alloc, language, names, Takes::One(p))?)),
        None => Ok(None),
    }
}

// The rules of cases, the name of their relation, and that of its language.
fn read_named_rules(
    alloc: Global,
    scope: &Scope,
    language: &CheckedLang,
    names: &Names,
    branches: &[Branch<'_>],
    name: &Name,
    symbol: &Datum,
) -> Result<(Vec<Rule>, Name, Name), NoMemory>
    requires branches { BranchesHave (scope_of scope.now)
        (can_read (scope_of scope.now) (language_in language.now) names.now)
        (map branch_of branches.now) }
    requires named { IsTrue (is_name (text_of symbol.now)) }
    ensures rules { IfOk result (λ read.
        map rule_of read.0.items
        ≡ branch_rules (scope_of scope.now) names.now (map branch_of branches.now)) }
    ensures name { IfOk result (λ read. read.1 ≡ name.now) }
    ensures language { IfOk result (λ read. read.2 ≡ text_of symbol.now) }
{
    let rules = read_rules(alloc, scope, language, names, branches)?;
    Ok((rules, name.share()?, symbol_name(symbol)?))
}

/// The relation of this name that a form without shorthand with these parts and this outline
/// stands for.
pub(crate) fn read_parts(
    alloc: Global,
    scope: &Scope,
    language: &CheckedLang,
    names: &Names,
    name: &Name,
    form: RelationForm<'_>,
    outline: &Outline,
) -> Result<Relation, NoMemory>
    requires outline { outline_of outline.now ≡ inside.relation_outline (relation_form_of form) }
    requires parts { OutlineHas (scope_of scope.now)
        (can_read (scope_of scope.now) (language_in language.now) names.now)
        (outline_of outline.now) }
    requires named { IsTrue (is_name (text_of form.language.now)) }
    ensures { IfOk result (λ r.
        relation_of r
        ≡ model.expanded_reading (scope_of scope.now) names.now name.now
        (relation_form_of form.entry)) }
{
    let domain = read_domain(alloc, language, names, form.domain)?;
    let branches = &outline.branches;
    let symbol = form.language;
    let (rules, name, language) = read_named_rules(
        alloc, scope, language, names, branches, name, symbol,
    )?;
    Ok(Relation {
        name,
        language,
        domain,
        rules,
    })
}
