// The parts of forms of metafunctions, of clauses and of contracts.
ghost use Rattle.std.specs.Prelude.{◌≡◌, option_map};
ghost use Rattle.rdx_defs.specs.Inside.FormOutlines.{clause_branch, own_clause};
ghost use Rattle.rdx_defs.specs.Inside.FormViews.{clause_form_of, contract_form_of, metafunction_form_of};
ghost use Rattle.rdx_parts.specs.PartViews.{branch_of};
ghost use Rattle.rdx_defs.specs.MetafunctionForms as model;
ghost use Rattle.rdx_defs.specs.MetafunctionReading.{text_in};

use rdx_parts::branches::{Branch, Takes};
use rdx_parts::extras::ExtraPlace;
use rdx_patterns::shape::{is_symbol, is_word, items, text};
use rdx_sexp::Datum;

/// A clause: `((f p ...) t extra ...)`, with any symbol for f.
#[derive(Clone, Copy)]
pub(crate) struct ClauseForm<'a> {
    pub(crate) function: &'a Datum,
    pub(crate) arguments: &'a [Datum],
    pub(crate) result: &'a Datum,
    pub(crate) extras: &'a [Datum],
}

/// A contract: `f : p ... -> p`.
#[derive(Clone, Copy)]
pub(crate) struct ContractForm<'a> {
    pub(crate) function: &'a Datum,
    pub(crate) arguments: &'a [Datum],
    pub(crate) value: &'a Datum,
}

/// The name of a language, the contract, where there is one, and clauses.
#[derive(Clone, Copy)]
pub(crate) struct MetafunctionForm<'a> {
    pub(crate) language: &'a Datum,
    pub(crate) contract: Option<ContractForm<'a>>,
    pub(crate) clauses: &'a [Datum],
}

/// A datum as a clause.
pub(crate) fn clause_form(d: &Datum) -> Option<ClauseForm<'_>>
    ensures { option_map clause_form_of result ≡ model.clause_form d.now }
{
    let [head, result, extras @ ..] = items(d)? else {
        return None;
    };
    let [function, arguments @ ..] = items(head)? else {
        return None;
    };
    if is_symbol(function) {
        Some(ClauseForm {
            function,
            arguments,
            result,
            extras,
        })
    } else {
        None
    }
}

/// The branch of a clause.
pub(crate) fn clause_branch<'a>(clause: ClauseForm<'a>) -> Branch<'a>
    ensures { branch_of result ≡ clause_branch (clause_form_of clause.entry) }
{
    Branch {
        takes: Takes::Several(clause.arguments),
        place: ExtraPlace::OfClause,
        extras: clause.extras,
        result: clause.result,
    }
}

// What stands before the first `->`, and what behind it.
fn cut_at_arrow(parts: &[Datum]) -> Option<(&[Datum], &[Datum])>
    ensures { option_map (λ c. (c.0.now, c.1.now)) result ≡ model.cut_at_arrow parts.now }
{
    for (i, d) in parts.iter().enumerate() {
        if is_word(d, "->") {
            return Some((&parts[..i], &parts[i + 1..]));
        }
    }
    None
}

// A metafunction over the language of this name, with this contract and these clauses.
fn with_clauses<'a>(
    language: &'a Datum,
    contract: Option<ContractForm<'a>>,
    clauses: &'a [Datum],
) -> Option<MetafunctionForm<'a>>
    ensures { option_map metafunction_form_of result
        ≡ model.with_clauses language.now (option_map contract_form_of contract.entry)
        clauses.now }
{
    if clauses.is_empty() {
        return None;
    }
    Some(MetafunctionForm {
        language,
        contract,
        clauses,
    })
}

// The same with a contract for this name, of which these parts follow.
fn contracted<'a>(
    language: &'a Datum,
    function: &'a Datum,
    parts: &'a [Datum],
) -> Option<MetafunctionForm<'a>>
    ensures { option_map metafunction_form_of result
        ≡ model.contracted language.now function.now (model.cut_at_arrow parts.now) }
{
    let (arguments, behind) = cut_at_arrow(parts)?;
    let [value, clauses @ ..] = behind else {
        return None;
    };
    let contract = ContractForm {
        function,
        arguments,
        value,
    };
    with_clauses(language, Some(contract), clauses)
}

// A metafunction over the language of this name. A contract begins with a symbol and `:`.
fn metafunction_over<'a>(language: &'a Datum, parts: &'a [Datum]) -> Option<MetafunctionForm<'a>>
    ensures { option_map metafunction_form_of result
        ≡ model.metafunction_over language.now parts.now }
{
    match parts {
        [function, colon, behind @ ..] if is_symbol(function) && is_word(colon, ":") => {
            contracted(language, function, behind)
        }
        _ => with_clauses(language, None, parts),
    }
}

/// A datum as a metafunction.
pub(crate) fn metafunction_form(d: &Datum) -> Option<MetafunctionForm<'_>>
    ensures { option_map metafunction_form_of result ≡ model.metafunction_form d.now }
{
    let [head, language, parts @ ..] = items(d)? else {
        return None;
    };
    if is_word(head, "define-metafunction") && is_symbol(language) {
        metafunction_over(language, parts)
    } else {
        None
    }
}

// The name in the first of these that is a clause.
fn clauses_function(clauses: &[Datum]) -> Option<&Datum>
    ensures { option_map (λ d. d.now) result ≡ model.clauses_function clauses.now }
{
    for d in clauses {
        if let Some(clause) = clause_form(d) {
            return Some(clause.function);
        }
    }
    None
}

/// The name that a metafunction goes by, at its first place: that of its contract, or else of its
/// first clause.
pub(crate) fn function_in<'a>(form: MetafunctionForm<'a>) -> Option<&'a Datum>
    ensures { option_map (λ d. d.now) result
        ≡ model.function_in (metafunction_form_of form.entry) }
{
    match form.contract {
        Some(contract) => Some(contract.function),
        None => clauses_function(form.clauses),
    }
}

/// The text of the name, where there is one.
pub(crate) fn text_in(function: Option<&Datum>) -> &str
    ensures { result.now ≡ text_in (option_map (λ d. d.now) function.entry) }
{
    match function {
        Some(d) => text(d),
        None => "",
    }
}

/// A datum as a clause of the metafunction of this name.
pub(crate) fn clause_of<'a>(name: &str, d: &'a Datum) -> Option<ClauseForm<'a>>
    ensures { option_map clause_form_of result ≡ own_clause name.now (model.clause_form d.now) }
{
    let clause = clause_form(d)?;
    if text(clause.function) == name {
        Some(clause)
    } else {
        None
    }
}
