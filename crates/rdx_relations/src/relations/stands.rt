// What stands in a form of a relation.
ghost use Rattle.std.specs.Prelude.{◌≡◌, ◌++◌, [], IfOk, map, option_map};
ghost use Rattle.rdx_patterns.specs.Inside.Repeats.{texts_in, HaveSame};
ghost use Rattle.rdx_patterns.specs.Readable.{IsReadable};
ghost use Rattle.rdx_relations.specs.Inside.BareForms as bare;
ghost use Rattle.rdx_relations.specs.Inside.FormOutlines as inside;
ghost use Rattle.rdx_relations.specs.Inside.FormViews.{relation_form_of};
ghost use Rattle.rdx_parts.specs.PartViews.{branch_of, outline_of, stands_of};
ghost use Rattle.rdx_parts.specs.PartsHave.{AreReadable};
ghost use Rattle.rdx_relations.specs.Inside.ShortcutViews.{shortcut_of};
ghost use Rattle.rdx_relations.specs.RelationForms as forms;
ghost use Rattle.rdx_relations.specs.RelationStands as model;
ghost use Rattle.rdx_relations.specs.Shorthand as shorthand;
ghost use Rattle.rdx_templates.specs.Scope.{scope_of};

use crate::relations::forms::{RelationForm, case_branch, case_form};
use crate::shorthand::checks::{is_known, was_seen};
use crate::shorthand::forms::{Shortcut, shortcut_form};
use rdx_parts::branches::{Branch, Outline};
use rdx_parts::stands::collecting::{Stand, add_alone, add_branch};
use rdx_patterns::shape::text;
use rdx_sexp::Datum;
use rdx_templates::Scope;
use rdx_term::NoMemory;
use std::alloc::Global;
use std::collections::BTreeSet;

// Adds what stands in a case, or in what has not the shape of one.
fn add_case<'a>(
    alloc: Global,
    scope: &Scope,
    d: &'a Datum,
    out: &mut Vec<Stand<'a>>,
) -> Result<(), NoMemory>
    requires { IsReadable d.now }
    ensures { IfOk result (λ _.
        stands_of out.new.items
        ≡ stands_of out.old.items
        ++ bare.case_stands (scope_of scope.now) d.now (forms.case_form d.now)) }
{
    match case_form(d) {
        None => Ok(out.push(Stand::Misshaped(d))?),
        Some(case) => {
            out.push(Stand::Arrow(case.arrow))?;
            add_branch(alloc, scope, false, case_branch(case), out)
        }
    }
}

// Adds what stands in cases.
fn add_cases<'a>(
    alloc: Global,
    scope: &Scope,
    cases: &'a [Datum],
    out: &mut Vec<Stand<'a>>,
) -> Result<(), NoMemory>
    requires { AreReadable cases.now }
    ensures { IfOk result (λ _.
        stands_of out.new.items
        ≡ stands_of out.old.items ++ bare.cases_stand (scope_of scope.now) cases.now) }
{
    for d in cases {
        add_case(alloc, scope, d, out)?;
    }
    Ok(())
}

// Adds the arrows of a shortcut that are at fault, behind shortcuts with these arrows.
fn add_arrows<'a>(
    seen: &BTreeSet<&'a str>,
    shortcut: Shortcut<'a>,
    out: &mut Vec<Stand<'a>>,
) -> Result<(), NoMemory>
    ensures { IfOk result (λ _.
        stands_of out.new.items
        ≡ stands_of out.old.items
        ++ model.arrows_stand (texts_in seen.now) (shortcut_of shortcut.entry)) }
{
    if !is_known(seen, shortcut.old) {
        out.push(Stand::Arrow(shortcut.old))?;
    }
    if was_seen(seen, shortcut.new) {
        out.push(Stand::Repeated(shortcut.new))?;
    }
    Ok(())
}

// Adds what stands in a shortcut behind these arrows, or in what has not the shape of one. Its arrow
// is one of these from now on.
fn add_shortcut<'a>(
    seen: &mut BTreeSet<&'a str>,
    d: &'a Datum,
    out: &mut Vec<Stand<'a>>,
) -> Result<(), NoMemory>
    ensures stands { IfOk result (λ _.
        stands_of out.new.items
        ≡ stands_of out.old.items
        ++ model.shortcut_stands (texts_in seen.old) d.now (shorthand.shortcut_form d.now)) }
    ensures seen { IfOk result (λ _.
        HaveSame (texts_in seen.new)
        (model.arrows_with (texts_in seen.old) (shorthand.shortcut_form d.now))) }
{
    let Some(shortcut) = shortcut_form(d) else {
        return Ok(out.push(Stand::Misshaped(d))?);
    };
    add_arrows(seen, shortcut, out)?;
    seen.insert(text(shortcut.new))?;
    Ok(())
}

// Adds what stands in data that have to be shortcuts.
fn add_shortcuts<'a>(
    alloc: Global,
    shortcuts: &'a [Datum],
    out: &mut Vec<Stand<'a>>,
) -> Result<(), NoMemory>
    ensures { IfOk result (λ _.
        stands_of out.new.items
        ≡ stands_of out.old.items ++ model.shortcuts_stand [] shortcuts.now) }
{
    let mut seen = BTreeSet::new(alloc);
    for d in shortcuts {
        add_shortcut(&mut seen, d, out)?;
    }
    Ok(())
}

/// What stands in a form without shorthand with these parts, and in these shortcuts.
pub(crate) fn relation_stands<'a>(
    alloc: Global,
    scope: &Scope,
    form: RelationForm<'a>,
    shortcuts: &'a [Datum],
) -> Result<Vec<Stand<'a>>, NoMemory>
    requires domain { AreReadable (inside.domain_patterns (option_map (λ d. d.now) form.domain)) }
    requires cases { AreReadable form.cases.now }
    ensures { IfOk result (λ found.
        stands_of found.items
        ≡ bare.relation_stands (scope_of scope.now) (relation_form_of form.entry)
        shortcuts.now) }
{
    let mut found = Vec::new(alloc);
    if let Some(domain) = form.domain {
        add_alone(alloc, domain, &mut found)?;
    }
    add_cases(alloc, scope, form.cases, &mut found)?;
    add_shortcuts(alloc, shortcuts, &mut found)?;
    Ok(found)
}

// The branches of cases.
fn case_branches(alloc: Global, cases: &[Datum]) -> Result<Vec<Branch<'_>>, NoMemory>
    ensures { IfOk result (λ branches.
        map branch_of branches.items ≡ inside.case_branches cases.now) }
{
    let mut branches = Vec::new(alloc);
    for d in cases {
        if let Some(case) = case_form(d) {
            branches.push(case_branch(case))?;
        }
    }
    Ok(branches)
}

// The domain, where there is one.
fn domain_patterns<'a>(alloc: Global, domain: Option<&'a Datum>) -> Result<Vec<&'a Datum>, NoMemory>
    ensures { IfOk result (λ alone.
        map (λ d. d.now) alone.items
        ≡ inside.domain_patterns (option_map (λ d. d.now) domain.entry)) }
{
    let mut alone = Vec::new(alloc);
    if let Some(domain) = domain {
        alone.push(domain)?;
    }
    Ok(alone)
}

/// The outline of a form without shorthand with these parts.
pub(crate) fn relation_outline<'a>(
    alloc: Global,
    form: RelationForm<'a>,
) -> Result<Outline<'a, 'a>, NoMemory>
    ensures { IfOk result (λ outline.
        outline_of outline ≡ inside.relation_outline (relation_form_of form.entry)) }
{
    let alone = domain_patterns(alloc, form.domain)?;
    let branches = case_branches(alloc, form.cases)?;
    Ok(Outline {
        alone,
        branches,
        rules: Vec::new(alloc),
        questions: Vec::new(alloc),
    })
}
