// Lists of templates by their heads.
ghost use Rattle.std.specs.Prelude.{◌≡◌, IfSome, is_some};
ghost use Rattle.rdx_sexp.specs.Sexp.{sexps};
ghost use Rattle.rdx_patterns.specs.Parts.{text_of};
ghost use Rattle.rdx_templates.specs.Inside.HeadViews as inside;
ghost use Rattle.rdx_templates.specs.Scope.{scope_of};
ghost use Rattle.rdx_templates.specs.TemplateHeads as model;
ghost use Rattle.rdx_templates.specs.TemplateReading.{head_text};

use crate::Scope;
use crate::templates::bound::Bound;
use rdx_patterns::shape::{is_symbol, is_word, text};
use rdx_sexp::Datum;
use rdx_term::Name;

/// The kinds of lists.
#[derive(Clone, Copy)]
pub(crate) enum TemplateHead<'a> {
    /// `(in-hole c t)`
    Filling,
    /// `(unquote h)`, of one item behind the head
    Evaluating,
    /// `(unquote-splicing d ...)`, which would ask Racket
    Splicing,
    /// `(f t ...)`, where f is this metafunction
    Calling(&'a Name),
    /// every other list, item by item
    Listing,
}

/// Whether the items begin with this word.
pub(crate) fn is_headed(items: &[Datum], word: &str) -> bool
    ensures { result ≡ inside.is_headed word.now (sexps items.now) }
{
    match items {
        [first, ..] => is_word(first, word),
        [] => false,
    }
}

/// Whether the items are `unquote` and one behind it.
pub(crate) fn is_evaluating(items: &[Datum]) -> bool
    ensures { result ≡ inside.is_evaluating (sexps items.now) }
{
    is_headed(items, "unquote") && items.len() == 2
}

// The metafunction that the datum names, where that name is not bound.
fn called<'a>(scope: &'a Scope, bound: &Bound<'_>, d: &Datum) -> Option<&'a Name>
    ensures some { is_some result ≡ model.is_called (scope_of scope.now) bound.now d.now }
    ensures name { IfSome result (λ f. f.now ≡ text_of d.now) }
{
    if !is_symbol(d) || bound.depth_of(text(d)).is_some() {
        return None;
    }
    scope.metafunction(text(d))
}

// The kind of a list whose head is none of the words.
fn other_head<'a>(scope: &'a Scope, bound: &Bound<'_>, first: &Datum) -> TemplateHead<'a>
    ensures kind { inside.template_head_view result
        ≡ inside.other_head (scope_of scope.now) bound.now first.now }
    ensures name { inside.Calls result (text_of first.now) }
{
    match called(scope, bound, first) {
        Some(function) => TemplateHead::Calling(function),
        None => TemplateHead::Listing,
    }
}

/// The kind of a list of these items.
pub(crate) fn template_head<'a>(
    scope: &'a Scope,
    bound: &Bound<'_>,
    items: &[Datum],
) -> TemplateHead<'a>
    ensures kind { inside.template_head_view result
        ≡ model.template_head (scope_of scope.now) bound.now (sexps items.now) }
    ensures name { inside.Calls result (head_text (sexps items.now)) }
{
    let [first, ..] = items else {
        return TemplateHead::Listing;
    };
    if is_word(first, "in-hole") {
        TemplateHead::Filling
    } else if is_evaluating(items) {
        TemplateHead::Evaluating
    } else if is_word(first, "unquote-splicing") {
        TemplateHead::Splicing
    } else {
        other_head(scope, bound, first)
    }
}
