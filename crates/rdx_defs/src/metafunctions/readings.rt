// The metafunctions of data.
ghost use Rattle.std.specs.Prelude.{◌≡◌, IfOk, IsTrue, map, option_map};
ghost use Rattle.rdx_lang.specs.Checked.{language_in, pattern_in};
ghost use Rattle.rdx_lang.specs.PatternView.{items_of, slot_of};
ghost use Rattle.rdx_lang.specs.ProgramView.{clause_of, clauses_of, metafunction_of};
ghost use Rattle.rdx_patterns.specs.Parts.{text_of};
ghost use Rattle.rdx_term.specs.Spelling.{is_name};
ghost use Rattle.rdx_defs.specs.Inside.BranchReadings.{branch_clause, branch_clauses, branch_metafunction};
ghost use Rattle.rdx_defs.specs.Inside.Contracts.{IsContract, IsContractIn, closed_slot};
ghost use Rattle.rdx_defs.specs.Inside.FormViews.{contract_form_of, metafunction_form_of};
ghost use Rattle.rdx_parts.specs.PartViews.{branch_of, outline_of};
ghost use Rattle.rdx_parts.specs.PartsHave.{BranchHas, BranchesHave, can_read};
ghost use Rattle.rdx_defs.specs.MetafunctionReading as model;
ghost use Rattle.rdx_templates.specs.Scope.{scope_of};

use crate::metafunctions::forms::{ContractForm, MetafunctionForm};
use rdx_lang::{CheckedLang, CheckedPat, Clause, Item, Metafunction, Pat};
use rdx_parts::branches::{Branch, Outline};
use rdx_parts::stands::readings::read_branch;
use rdx_patterns::{Names, Position, readings, symbol_name};
use rdx_sexp::Datum;
use rdx_templates::Scope;
use rdx_term::{Name, NoMemory};
use std::alloc::Global;

// The clause of a branch.
fn read_clause(
    alloc: Global,
    scope: &Scope,
    language: &CheckedLang,
    names: &Names,
    branch: Branch<'_>,
) -> Result<Clause, NoMemory>
    requires { BranchHas (scope_of scope.now)
        (can_read (scope_of scope.now) (language_in language.now) names.now) (branch_of branch) }
    ensures { IfOk result (λ clause.
        clause_of clause ≡ branch_clause (scope_of scope.now) names.now (branch_of branch.entry)) }
{
    let read = read_branch(alloc, scope, language, names, branch)?;
    Ok(Clause {
        args: read.pattern,
        result: read.result,
        extras: read.extras,
    })
}

// The clauses of branches.
fn read_clauses(
    alloc: Global,
    scope: &Scope,
    language: &CheckedLang,
    names: &Names,
    branches: &[Branch<'_>],
) -> Result<Vec<Clause>, NoMemory>
    requires { BranchesHave (scope_of scope.now)
        (can_read (scope_of scope.now) (language_in language.now) names.now)
        (map branch_of branches.now) }
    ensures { IfOk result (λ clauses.
        clauses_of clauses.items
        ≡ branch_clauses (scope_of scope.now) names.now (map branch_of branches.now)) }
{
    let mut clauses = Vec::new(alloc);
    for branch in branches {
        clauses.push(read_clause(alloc, scope, language, names, *branch)?)?;
    }
    Ok(clauses)
}

// The same item with its pattern closed.
fn closed_item(alloc: Global, item: Item) -> Result<Item, NoMemory>
    ensures { IfOk result (λ closed. slot_of closed ≡ closed_slot (slot_of item)) }
{
    match item {
        Item::One(pattern) => Ok(Item::One(Pat::Closed(Box::new(alloc, pattern)?))),
        Item::Many(pattern, length) => {
            Ok(Item::Many(Pat::Closed(Box::new(alloc, pattern)?), length))
        }
    }
}

/// The same items with each pattern closed.
pub(crate) fn closed_items(alloc: Global, mut items: Vec<Item>) -> Result<Vec<Item>, NoMemory>
    ensures { IfOk result (λ closed.
        items_of (map slot_of closed.items)
        ≡ model.closed_items (items_of (map slot_of items.items))) }
{
    items.reverse();
    let mut closed = Vec::new(alloc);
    while let Some(item) = items.pop() {
        closed.push(closed_item(alloc, item)?)?;
    }
    Ok(closed)
}

// The patterns of a contract, of the list of arguments and of the value.
fn read_contract(
    alloc: Global,
    language: &CheckedLang,
    names: &Names,
    contract: ContractForm<'_>,
) -> Result<(CheckedPat, CheckedPat), NoMemory>
    requires { IsContract (language_in language.now) names.now (contract_form_of contract) }
    ensures { IfOk result (λ c.
        (pattern_in c.0, pattern_in c.1)
        ≡ model.contract_reading names.now (contract_form_of contract.entry)) }
{
    let items = readings::read_items(alloc, names, Position::Query, contract.arguments)?;
    let arguments = closed_items(alloc, items)?;
    let value = readings::read_datum(alloc, names, Position::Query, contract.value)?;
    let value = Pat::Closed(Box::new(alloc, value)?);
    Ok((
        CheckedPat::known(language, Pat::Seq(arguments)),
        CheckedPat::known(language, value),
    ))
}

// The same, where there is a contract.
fn read_any_contract(
    alloc: Global,
    language: &CheckedLang,
    names: &Names,
    contract: Option<ContractForm<'_>>,
) -> Result<Option<(CheckedPat, CheckedPat)>, NoMemory>
    requires { IsContractIn (language_in language.now) names.now
        (option_map contract_form_of contract) }
    ensures { IfOk result (λ read.
        option_map (λ c. (pattern_in c.0, pattern_in c.1)) read
        ≡ option_map (model.contract_reading names.now)
        (option_map contract_form_of contract.entry)) }
{
    match contract {
        Some(contract) => Ok(Some(read_contract(alloc, language, names, contract)?)),
        None => Ok(None),
    }
}

// The clauses of branches, the name of their metafunction, and that of its language.
fn read_named_clauses(
    alloc: Global,
    scope: &Scope,
    language: &CheckedLang,
    names: &Names,
    branches: &[Branch<'_>],
    function: &Datum,
    symbol: &Datum,
) -> Result<(Vec<Clause>, Name, Name), NoMemory>
    requires branches { BranchesHave (scope_of scope.now)
        (can_read (scope_of scope.now) (language_in language.now) names.now)
        (map branch_of branches.now) }
    requires language { IsTrue (is_name (text_of symbol.now)) }
    requires name { IsTrue (is_name (text_of function.now)) }
    ensures clauses { IfOk result (λ read.
        clauses_of read.0.items
        ≡ branch_clauses (scope_of scope.now) names.now (map branch_of branches.now)) }
    ensures name { IfOk result (λ read. read.1 ≡ text_of function.now) }
    ensures language { IfOk result (λ read. read.2 ≡ text_of symbol.now) }
{
    let clauses = read_clauses(alloc, scope, language, names, branches)?;
    Ok((clauses, symbol_name(function)?, symbol_name(symbol)?))
}

/// The metafunction of this name that a form with these parts and this outline stands for.
pub(crate) fn read_parts(
    alloc: Global,
    scope: &Scope,
    language: &CheckedLang,
    names: &Names,
    form: MetafunctionForm<'_>,
    function: &Datum,
    outline: &Outline,
) -> Result<Metafunction, NoMemory>
    requires branches { BranchesHave (scope_of scope.now)
        (can_read (scope_of scope.now) (language_in language.now) names.now)
        (outline_of outline.now).branches }
    requires contract { IsContractIn (language_in language.now) names.now
        (metafunction_form_of form).contract }
    requires language { IsTrue (is_name (text_of form.language.now)) }
    requires name { IsTrue (is_name (text_of function.now)) }
    ensures { IfOk result (λ f.
        metafunction_of f
        ≡ branch_metafunction (scope_of scope.now) names.now (metafunction_form_of form.entry)
        function.now (outline_of outline.now).branches) }
{
    let contract = read_any_contract(alloc, language, names, form.contract)?;
    let branches = &outline.branches;
    let symbol = form.language;
    let (clauses, name, language) = read_named_clauses(
        alloc, scope, language, names, branches, function, symbol,
    )?;
    Ok(Metafunction {
        name,
        language,
        contract,
        clauses,
    })
}
