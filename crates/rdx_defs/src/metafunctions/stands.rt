// What stands in a form of a metafunction.
ghost use Rattle.std.specs.Prelude.{◌≡◌, ◌++◌, IfOk, map, option_map};
ghost use Rattle.rdx_sexp.specs.Sexp.{sexps};
ghost use Rattle.rdx_patterns.specs.Heads.{patterns};
ghost use Rattle.rdx_patterns.specs.Readable.{IsReadable};
ghost use Rattle.rdx_parts.specs.BareStands as bare;
ghost use Rattle.rdx_defs.specs.Inside.BareForms as bare_forms;
ghost use Rattle.rdx_defs.specs.Inside.FormOutlines as inside;
ghost use Rattle.rdx_defs.specs.Inside.FormViews.{contract_form_of, metafunction_form_of};
ghost use Rattle.rdx_parts.specs.PartViews.{branch_of, outline_of, stands_of};
ghost use Rattle.rdx_parts.specs.PartsHave.{AreReadable};
ghost use Rattle.rdx_defs.specs.MetafunctionForms as forms;
ghost use Rattle.rdx_templates.specs.Scope.{scope_of};

use crate::metafunctions::forms::{
    ContractForm, MetafunctionForm, clause_branch, clause_of, text_in,
};
use rdx_parts::branches::{Branch, Outline};
use rdx_parts::stands::collecting::{Stand, add_alone, add_branch};
use rdx_patterns::heads::{Roles, is_pattern, next, rest};
use rdx_sexp::Datum;
use rdx_templates::Scope;
use rdx_term::NoMemory;
use std::alloc::Global;

// Adds what stands in a clause of the metafunction of this name, or in what is none.
fn add_clause<'a>(
    alloc: Global,
    scope: &Scope,
    name: &str,
    d: &'a Datum,
    out: &mut Vec<Stand<'a>>,
) -> Result<(), NoMemory>
    requires { IsReadable d.now }
    ensures { IfOk result (λ _.
        stands_of out.new.items
        ≡ stands_of out.old.items
        ++ bare_forms.clause_stands (scope_of scope.now) d.now
        (inside.own_clause name.now (forms.clause_form d.now))) }
{
    match clause_of(name, d) {
        None => Ok(out.push(Stand::Misshaped(d))?),
        Some(clause) => add_branch(alloc, scope, true, clause_branch(clause), out),
    }
}

// Adds what stands in clauses of the metafunction of this name.
fn add_clauses<'a>(
    alloc: Global,
    scope: &Scope,
    name: &str,
    clauses: &'a [Datum],
    out: &mut Vec<Stand<'a>>,
) -> Result<(), NoMemory>
    requires { AreReadable clauses.now }
    ensures { IfOk result (λ _.
        stands_of out.new.items
        ≡ stands_of out.old.items
        ++ bare_forms.clauses_stand (scope_of scope.now) name.now clauses.now) }
{
    for d in clauses {
        add_clause(alloc, scope, name, d, out)?;
    }
    Ok(())
}

// Adds patterns that stand by themselves.
fn add_patterns<'a>(
    alloc: Global,
    alone: &[&'a Datum],
    out: &mut Vec<Stand<'a>>,
) -> Result<(), NoMemory>
    requires { AreReadable (map (λ d. d.now) alone.now) }
    ensures { IfOk result (λ _.
        stands_of out.new.items
        ≡ stands_of out.old.items ++ map bare.lone_pattern (map (λ d. d.now) alone.now)) }
{
    for pattern in alone {
        add_alone(alloc, pattern, out)?;
    }
    Ok(())
}

// Adds the name of a metafunction, where there is one, and the patterns of its contract.
fn add_head<'a>(
    alloc: Global,
    function: Option<&'a Datum>,
    alone: &[&'a Datum],
    out: &mut Vec<Stand<'a>>,
) -> Result<(), NoMemory>
    requires { AreReadable (map (λ d. d.now) alone.now) }
    ensures { IfOk result (λ _.
        stands_of out.new.items
        ≡ stands_of out.old.items
        ++ bare_forms.head_stands (map (λ d. d.now) alone.now)
        (option_map (λ d. d.now) function.entry)) }
{
    let Some(name) = function else {
        return Ok(());
    };
    out.push(Stand::Function(name))?;
    add_patterns(alloc, alone, out)
}

/// What stands in a form with these parts, of a metafunction that goes by this name.
pub(crate) fn function_stands<'a>(
    alloc: Global,
    scope: &Scope,
    form: MetafunctionForm<'a>,
    function: Option<&'a Datum>,
    outline: &Outline<'_, 'a>,
) -> Result<Vec<Stand<'a>>, NoMemory>
    requires outline { outline_of outline.now
        ≡ inside.metafunction_outline (metafunction_form_of form)
        (option_map (λ d. d.now) function) }
    requires alone { AreReadable (outline_of outline.now).alone }
    requires clauses { AreReadable form.clauses.now }
    ensures { IfOk result (λ found.
        stands_of found.items
        ≡ bare_forms.function_stands (scope_of scope.now) (metafunction_form_of form.entry)
        (option_map (λ d. d.now) function.entry)) }
{
    let mut found = Vec::new(alloc);
    add_head(alloc, function, &outline.alone, &mut found)?;
    add_clauses(alloc, scope, text_in(function), form.clauses, &mut found)?;
    Ok(found)
}

// The branches of the clauses of the metafunction of this name.
fn clause_branches<'a>(
    alloc: Global,
    name: &str,
    clauses: &'a [Datum],
) -> Result<Vec<Branch<'a>>, NoMemory>
    ensures { IfOk result (λ branches.
        map branch_of branches.items ≡ inside.clause_branches name.now clauses.now) }
{
    let mut branches = Vec::new(alloc);
    for d in clauses {
        if let Some(clause) = clause_of(name, d) {
            branches.push(clause_branch(clause))?;
        }
    }
    Ok(branches)
}

// The patterns among the items of a list pattern.
fn item_patterns(alloc: Global, items: &[Datum]) -> Result<Vec<&Datum>, NoMemory>
    ensures { IfOk result (λ found.
        map (λ d. d.now) found.items ≡ inside.patterns_among patterns (sexps items.now)) }
{
    let mut found = Vec::new(alloc);
    let mut left = Roles::Patterns;
    for d in items {
        if is_pattern(next(left, d)) {
            found.push(d)?;
        }
        left = rest(left, d);
    }
    Ok(found)
}

// The patterns of a contract, where there is one.
fn contract_patterns<'a>(
    alloc: Global,
    contract: Option<ContractForm<'a>>,
) -> Result<Vec<&'a Datum>, NoMemory>
    ensures { IfOk result (λ found.
        map (λ d. d.now) found.items
        ≡ inside.contract_patterns (option_map contract_form_of contract.entry)) }
{
    let Some(contract) = contract else {
        return Ok(Vec::new(alloc));
    };
    let mut found = item_patterns(alloc, contract.arguments)?;
    found.push(contract.value)?;
    Ok(found)
}

/// The outline of a form with these parts, of a metafunction that goes by this name.
pub(crate) fn metafunction_outline<'a>(
    alloc: Global,
    form: MetafunctionForm<'a>,
    function: Option<&'a Datum>,
) -> Result<Outline<'a, 'a>, NoMemory>
    ensures { IfOk result (λ outline.
        outline_of outline
        ≡ inside.metafunction_outline (metafunction_form_of form.entry)
        (option_map (λ d. d.now) function.entry)) }
{
    let alone = contract_patterns(alloc, form.contract)?;
    let branches = clause_branches(alloc, text_in(function), form.clauses)?;
    Ok(Outline {
        alone,
        branches,
        rules: Vec::new(alloc),
        questions: Vec::new(alloc),
    })
}
