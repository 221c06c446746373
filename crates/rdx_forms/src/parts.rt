// The parts of data and of forms.
ghost use Rattle.std.specs.Prelude.{◌≡◌, [], option_map};
ghost use Rattle.rdx_patterns.specs.Parts.{parts};
ghost use Rattle.rdx_forms.specs.AlphaForms.{alike_parts, put_parts};
ghost use Rattle.rdx_forms.specs.GenerateForms.{generate_among};
ghost use Rattle.rdx_forms.specs.HoldsForms.{holds_parts, lone_parts};
ghost use Rattle.rdx_forms.specs.Inside.PartViews.{alike_of, closure_of, define_kind_of, defining_by, defining_of, defining_with, generate_of, holds_of, judgement_head, parts_of, second_item, language_item, equals_of, leading_of, put_of, steps_of};
ghost use Rattle.rdx_forms.specs.LanguageForms.{base_name};
ghost use Rattle.rdx_forms.specs.MatchForms.{query_parts};
ghost use Rattle.rdx_forms.specs.DefineParts.{closure_among, closure_parts, define_named, define_parts, kind_among, kind_by_word};
ghost use Rattle.rdx_forms.specs.StepForms.{step_parts};
ghost use Rattle.rdx_forms.specs.TestForms.{equal_parts, leading_parts};

use rdx_patterns::shape::{is_symbol, items, symbol};
use rdx_sexp::Datum;

/// The name of a language, a pattern, and the host expression that gives the term.
#[derive(Clone, Copy)]
pub(crate) struct QueryParts<'a> {
    pub(crate) language: &'a Datum,
    pub(crate) pattern: &'a Datum,
    pub(crate) host: &'a Datum,
}

/// The name of a language, a pattern, a size or a host expression, and the options behind them.
#[derive(Clone, Copy)]
pub(crate) struct GenerateParts<'a> {
    pub(crate) language: &'a Datum,
    pub(crate) pattern: &'a Datum,
    pub(crate) third: &'a Datum,
    pub(crate) options: &'a [Datum],
}

/// The name of a relation, and the host expression that gives the term.
#[derive(Clone, Copy)]
pub(crate) struct StepParts<'a> {
    pub(crate) relation: &'a Datum,
    pub(crate) host: &'a Datum,
}

/// The host expressions that have to make the same.
#[derive(Clone, Copy)]
pub(crate) struct EqualParts<'a> {
    pub(crate) found: &'a Datum,
    pub(crate) wanted: &'a Datum,
}

/// The name of a language, and the host expressions that are to make alpha equivalent terms.
#[derive(Clone, Copy)]
pub(crate) struct AlikeParts<'a> {
    pub(crate) language: &'a Datum,
    pub(crate) one: &'a Datum,
    pub(crate) other: &'a Datum,
}

/// The name of a language, and the host expressions that make a term, the symbol for which something
/// is put in it, and what is put.
#[derive(Clone, Copy)]
pub(crate) struct PutParts<'a> {
    pub(crate) language: &'a Datum,
    pub(crate) whole: &'a Datum,
    pub(crate) symbol: &'a Datum,
    pub(crate) value: &'a Datum,
}

/// The name of a relation, the host expression from whose term it is to lead, and those to whose
/// terms.
#[derive(Clone, Copy)]
pub(crate) struct LeadingParts<'a> {
    pub(crate) relation: &'a Datum,
    pub(crate) from: &'a Datum,
    pub(crate) wanted: &'a [Datum],
}

/// What has to be a premise, and the template behind it, where there is one.
#[derive(Clone, Copy)]
pub(crate) struct HoldsParts<'a> {
    pub(crate) premise: &'a Datum,
    pub(crate) result: Option<&'a Datum>,
}

/// What the list in a form that defines a relation says.
#[derive(Clone, Copy, Debug, PartialEq, Eq)]
pub(crate) enum DefineKind {
    /// The cases of the relation: `reduction-relation`.
    Cases,
    /// Of which relation it is the closure by the contexts that a pattern matches:
    /// `context-closure`.
    Contexts,
    /// Of which it is the closure by the contexts of a nonterminal in itself:
    /// `compatible-closure`.
    Crosses,
}

/// The relation that is closed, a language, and what says by which contexts.
#[derive(Clone, Copy)]
pub(crate) struct ClosureParts<'a> {
    pub(crate) relation: &'a Datum,
    pub(crate) language: &'a Datum,
    pub(crate) by: &'a Datum,
}

/// The name of a relation, the list that says what it is, and whether something stands behind that.
#[derive(Clone, Copy)]
pub(crate) struct DefineParts<'a> {
    pub(crate) kind: DefineKind,
    pub(crate) name: &'a Datum,
    pub(crate) body: &'a Datum,
    pub(crate) has_more: bool,
}

/// The second item, which is the name where a form defines a language.
pub(crate) fn second_item(d: &Datum) -> Option<&Datum>
    ensures { option_map (λ d. d.now) result ≡ second_item d.now }
{
    match items(d)? {
        [_, name, ..] => Some(name),
        _ => None,
    }
}

/// The second item, where it is a symbol, which names a language in a form that defines a
/// metafunction or a judgement, and in a list that says what a relation is.
pub(crate) fn language_item(d: &Datum) -> Option<&Datum>
    ensures { option_map (λ d. d.now) result ≡ language_item d.now }
{
    let name = second_item(d)?;
    if is_symbol(name) { Some(name) } else { None }
}

/// The name of the language that an extension extends.
pub(crate) fn base_name(d: &Datum) -> Option<&Datum>
    ensures { option_map (λ d. d.now) result ≡ base_name d.now }
{
    match items(d)? {
        [_, _, name, ..] => Some(name),
        _ => None,
    }
}

/// The parts of a form that generates a term or checks a property.
pub(crate) fn generate_parts(d: &Datum) -> Option<GenerateParts<'_>>
    ensures { option_map generate_of result ≡ generate_among (parts d.now) }
{
    match items(d)? {
        [_, language, pattern, third, options @ ..] => Some(GenerateParts {
            language,
            pattern,
            third,
            options,
        }),
        _ => None,
    }
}

/// The parts of a query.
pub(crate) fn query_parts(d: &Datum) -> Option<QueryParts<'_>>
    ensures { option_map parts_of result ≡ query_parts d.now }
{
    match items(d)? {
        [_, language, pattern, host] => Some(QueryParts {
            language,
            pattern,
            host,
        }),
        _ => None,
    }
}

/// The parts of a form that asks for steps.
pub(crate) fn step_parts(d: &Datum) -> Option<StepParts<'_>>
    ensures { option_map steps_of result ≡ step_parts d.now }
{
    match items(d)? {
        [_, relation, host] => Some(StepParts { relation, host }),
        _ => None,
    }
}

/// The parts of a test of two host expressions.
pub(crate) fn equal_parts(d: &Datum) -> Option<EqualParts<'_>>
    ensures { option_map equals_of result ≡ equal_parts d.now }
{
    match items(d)? {
        [_, found, wanted] => Some(EqualParts { found, wanted }),
        _ => None,
    }
}

/// The parts of a form that asks whether terms are alpha equivalent.
pub(crate) fn alike_parts(d: &Datum) -> Option<AlikeParts<'_>>
    ensures { option_map alike_of result ≡ alike_parts d.now }
{
    match items(d)? {
        [_, language, one, other] if is_symbol(language) => Some(AlikeParts {
            language,
            one,
            other,
        }),
        _ => None,
    }
}

/// The parts of a form that puts a term for a symbol.
pub(crate) fn put_parts(d: &Datum) -> Option<PutParts<'_>>
    ensures { option_map put_of result ≡ put_parts d.now }
{
    match items(d)? {
        [_, language, whole, symbol, value] if is_symbol(language) => Some(PutParts {
            language,
            whole,
            symbol,
            value,
        }),
        _ => None,
    }
}

/// The parts of a test of a relation.
pub(crate) fn leading_parts(d: &Datum) -> Option<LeadingParts<'_>>
    ensures { option_map leading_of result ≡ leading_parts d.now }
{
    match items(d)? {
        [_, relation, from, wanted @ ..] if is_symbol(relation) => Some(LeadingParts {
            relation,
            from,
            wanted,
        }),
        _ => None,
    }
}

/// The parts of a form that asks whether a premise is met.
pub(crate) fn holds_parts(d: &Datum) -> Option<HoldsParts<'_>>
    ensures { option_map holds_of result ≡ holds_parts d.now }
{
    match items(d)? {
        [_, premise] => Some(HoldsParts {
            premise,
            result: None,
        }),
        [_, premise, result] => Some(HoldsParts {
            premise,
            result: Some(result),
        }),
        _ => None,
    }
}

/// The parts of a test that a premise is met.
pub(crate) fn lone_parts(d: &Datum) -> Option<HoldsParts<'_>>
    ensures { option_map holds_of result ≡ lone_parts d.now }
{
    match items(d)? {
        [_, premise] => Some(HoldsParts {
            premise,
            result: None,
        }),
        _ => None,
    }
}

/// The symbol that heads a premise, which names its judgement.
pub(crate) fn judgement_head(d: &Datum) -> Option<&Datum>
    ensures { option_map (λ d. d.now) result ≡ judgement_head d.now }
{
    match items(d)? {
        [head, ..] if is_symbol(head) => Some(head),
        _ => None,
    }
}

// What a list with this word at its head says.
fn kind_by_word(head: &str) -> Option<DefineKind>
    ensures { option_map define_kind_of result ≡ kind_by_word head.now }
{
    match head {
        "reduction-relation" => Some(DefineKind::Cases),
        "context-closure" => Some(DefineKind::Contexts),
        "compatible-closure" => Some(DefineKind::Crosses),
        _ => None,
    }
}

// What a list says.
fn define_kind(d: &Datum) -> Option<DefineKind>
    ensures { option_map define_kind_of result ≡ kind_among (parts d.now) }
{
    match items(d)? {
        [head, ..] => kind_by_word(symbol(head)?.as_str()),
        [] => None,
    }
}

// A name with such a list.
fn define_named<'a>(name: &'a Datum, body: &'a Datum, has_more: bool) -> Option<DefineParts<'a>>
    ensures { option_map defining_of result
        ≡ option_map (defining_with has_more)
        (define_named name.now body.now []) }
{
    if !is_symbol(name) {
        return None;
    }
    Some(DefineParts {
        kind: define_kind(body)?,
        name,
        body,
        has_more,
    })
}

/// The parts of a list that says of which relation another one is a closure.
pub(crate) fn closure_parts(d: &Datum) -> Option<ClosureParts<'_>>
    ensures { option_map closure_of result ≡ closure_parts d.now }
{
    match items(d)? {
        [_, relation, language, by] if is_symbol(relation) && is_symbol(language) => {
            Some(ClosureParts {
                relation,
                language,
                by,
            })
        }
        _ => None,
    }
}

/// The parts of a form that defines a relation.
pub(crate) fn define_parts(d: &Datum) -> Option<DefineParts<'_>>
    ensures { option_map defining_of result ≡ option_map defining_by (define_parts d.now) }
{
    match items(d)? {
        [_, name, body] => define_named(name, body, false),
        [_, name, body, _, ..] => define_named(name, body, true),
        _ => None,
    }
}
