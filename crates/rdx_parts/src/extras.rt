// What a binding has to meet, as it is written.
ghost use Rattle.std.specs.List.{list_all};
ghost use Rattle.std.specs.Prelude.{◌≡◌, Some};
ghost use Rattle.rdx_patterns.specs.Parts as shape;
ghost use Rattle.rdx_parts.specs.ExtraForms as model;
ghost use Rattle.rdx_parts.specs.PartViews.{extra_form_of, place_of};

use rdx_patterns::shape::{is_symbol, is_word};
use rdx_sexp::{Datum, Form};

/// One of these things.
#[derive(Clone, Copy)]
pub enum ExtraForm<'a> {
    /// `(where p t)`
    SuchThat(&'a Datum, &'a Datum),
    /// `(side-condition h)` of a case or a clause.
    Provided(&'a Datum),
    /// `(side-condition t)` of a rule.
    Confirmed(&'a Datum),
    /// What has to be a premise `(K d ...)`.
    Holding(&'a Datum),
    /// `(fresh x ...)`
    Freshly(&'a [Datum]),
    /// A name.
    Name,
    /// What is none of these.
    NoExtra,
}

/// Where such things stand.
#[derive(Clone, Copy)]
pub enum ExtraPlace {
    /// Behind the template of a case.
    OfCase,
    /// Behind the template of a clause.
    OfClause,
    /// Among the premises of a rule.
    OfRule,
}

// A list with such a head as an extra of a clause, by what stands behind that.
fn condition_behind<'a>(word: &Datum, parts: &'a [Datum]) -> ExtraForm<'a>
    ensures { extra_form_of result ≡ model.condition_behind word.now parts.now }
{
    match parts {
        [host] if is_word(word, "side-condition") => ExtraForm::Provided(host),
        [premise] if is_word(word, "judgment-holds") => ExtraForm::Holding(premise),
        [pattern, template] if is_word(word, "where") => ExtraForm::SuchThat(pattern, template),
        _ => ExtraForm::NoExtra,
    }
}

// Whether all these are symbols.
fn are_symbols(parts: &[Datum]) -> bool
    ensures { result ≡ list_all shape.is_symbol parts.now }
{
    for d in parts {
        if !is_symbol(d) {
            return false;
        }
    }
    true
}

// Names to be made, which have to be symbols.
fn fresh_names(parts: &[Datum]) -> ExtraForm<'_>
    ensures { extra_form_of result ≡ model.fresh_names parts.now }
{
    if are_symbols(parts) {
        ExtraForm::Freshly(parts)
    } else {
        ExtraForm::NoExtra
    }
}

// A list of these parts as an extra; in a case it may make fresh names.
fn extra_among(case: bool, parts: &[Datum]) -> ExtraForm<'_>
    ensures { extra_form_of result ≡ model.extra_among case (Some parts.now) }
{
    match parts {
        [word, behind @ ..] if case && is_word(word, "fresh") => fresh_names(behind),
        [word, behind @ ..] => condition_behind(word, behind),
        [] => ExtraForm::NoExtra,
    }
}

// A datum as an extra of a case or of a clause; a symbol or a string is a name.
fn extra_form(case: bool, d: &Datum) -> ExtraForm<'_>
    ensures { extra_form_of result ≡ model.extra_form case d.now }
{
    match &d.form {
        Form::Int(_) | Form::Bool(_) | Form::Key(_) => ExtraForm::NoExtra,
        Form::Str(_) | Form::Sym(_) => ExtraForm::Name,
        Form::List(parts) => extra_among(case, parts),
    }
}

// Whether the head of a list gives it another meaning than that of a premise.
fn is_extra_head(head: &Datum) -> bool
    ensures { result ≡ model.is_extra_head head.now }
{
    is_word(head, "where") || is_word(head, "side-condition") || is_word(head, "judgment-holds")
}

// A list with such a head, by what stands behind that.
fn extra_behind<'a>(word: &Datum, parts: &'a [Datum]) -> ExtraForm<'a>
    ensures { extra_form_of result ≡ model.extra_behind word.now parts.now }
{
    match parts {
        [template] if is_word(word, "side-condition") => ExtraForm::Confirmed(template),
        [premise] if is_word(word, "judgment-holds") => ExtraForm::Holding(premise),
        [pattern, template] if is_word(word, "where") => ExtraForm::SuchThat(pattern, template),
        _ => ExtraForm::NoExtra,
    }
}

// The list of these parts as a premise.
fn premise_among<'a>(d: &'a Datum, parts: &'a [Datum]) -> ExtraForm<'a>
    ensures { extra_form_of result ≡ model.premise_among d.now (Some parts.now) }
{
    match parts {
        [head, behind @ ..] if is_extra_head(head) => extra_behind(head, behind),
        [head, ..] if is_symbol(head) => ExtraForm::Holding(d),
        _ => ExtraForm::NoExtra,
    }
}

// A datum as a premise.
fn premise_form(d: &Datum) -> ExtraForm<'_>
    ensures { extra_form_of result ≡ model.premise_form d.now }
{
    match &d.form {
        Form::Int(_) | Form::Bool(_) | Form::Key(_) | Form::Str(_) | Form::Sym(_) => {
            ExtraForm::NoExtra
        }
        Form::List(parts) => premise_among(d, parts),
    }
}

/// A datum as what it is to be at such a place.
pub fn form_at(place: ExtraPlace, d: &Datum) -> ExtraForm<'_>
    ensures { extra_form_of result ≡ model.form_at (place_of place) d.now }
{
    match place {
        ExtraPlace::OfCase => extra_form(true, d),
        ExtraPlace::OfClause => extra_form(false, d),
        ExtraPlace::OfRule => premise_form(d),
    }
}
