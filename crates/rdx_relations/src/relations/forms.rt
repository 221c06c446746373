// The parts of forms of relations and of cases.
ghost use Rattle.std.specs.Prelude.{◌≡◌, option_map};
ghost use Rattle.rdx_relations.specs.Inside.FormOutlines.{case_branch};
ghost use Rattle.rdx_relations.specs.Inside.FormViews.{case_form_of, relation_form_of};
ghost use Rattle.rdx_parts.specs.PartViews.{branch_of};
ghost use Rattle.rdx_relations.specs.RelationForms as model;

use rdx_parts::branches::{Branch, Takes};
use rdx_parts::extras::ExtraPlace;
use rdx_patterns::shape::{is_symbol, is_word, items};
use rdx_sexp::{Datum, Form};

/// A case: `(--> p t extra ...)`, with any symbol for the arrow.
#[derive(Clone, Copy)]
pub(crate) struct CaseForm<'a> {
    pub(crate) arrow: &'a Datum,
    pub(crate) pattern: &'a Datum,
    pub(crate) result: &'a Datum,
    pub(crate) extras: &'a [Datum],
}

/// The name of a language, the domain, where there is one, and cases.
#[derive(Clone, Copy)]
pub(crate) struct RelationForm<'a> {
    pub(crate) language: &'a Datum,
    pub(crate) domain: Option<&'a Datum>,
    pub(crate) cases: &'a [Datum],
}

/// A datum as a case.
pub(crate) fn case_form(d: &Datum) -> Option<CaseForm<'_>>
    ensures { option_map case_form_of result ≡ model.case_form d.now }
{
    let [arrow, pattern, template, extras @ ..] = items(d)? else {
        return None;
    };
    if is_symbol(arrow) {
        Some(CaseForm {
            arrow,
            pattern,
            result: template,
            extras,
        })
    } else {
        None
    }
}

/// The branch of a case.
pub(crate) fn case_branch<'a>(case: CaseForm<'a>) -> Branch<'a>
    ensures { branch_of result ≡ case_branch (case_form_of case.entry) }
{
    Branch {
        takes: Takes::One(case.pattern),
        place: ExtraPlace::OfCase,
        extras: case.extras,
        result: case.result,
    }
}

/// Whether the datum is the keyword of this text.
pub fn is_keyword(d: &Datum, word: &str) -> bool
    ensures { result ≡ model.is_keyword word.now d.now }
{
    match &d.form {
        Form::Key(text) => text.as_str() == word,
        _ => false,
    }
}

// A relation over the language of this name. A domain counts only directly behind the name.
fn relation_over<'a>(language: &'a Datum, parts: &'a [Datum]) -> RelationForm<'a>
    ensures { relation_form_of result ≡ model.relation_over language.now parts.now }
{
    let [key, domain, cases @ ..] = parts else {
        return RelationForm {
            language,
            domain: None,
            cases: parts,
        };
    };
    if is_keyword(key, "domain") {
        RelationForm {
            language,
            domain: Some(domain),
            cases,
        }
    } else {
        RelationForm {
            language,
            domain: None,
            cases: parts,
        }
    }
}

/// A datum as a relation.
pub(crate) fn relation_form(d: &Datum) -> Option<RelationForm<'_>>
    ensures { option_map relation_form_of result ≡ model.relation_form d.now }
{
    let [head, language, parts @ ..] = items(d)? else {
        return None;
    };
    if is_word(head, "reduction-relation") && is_symbol(language) {
        Some(relation_over(language, parts))
    } else {
        None
    }
}
