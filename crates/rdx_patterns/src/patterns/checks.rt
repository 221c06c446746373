//! The checks of a pattern one by one.
ghost use Rattle.std.specs.Prelude.{◌≡◌, IfOk, option_map};
ghost use Rattle.rdx_sexp.specs.Sexp.{sexps};
ghost use Rattle.rdx_patterns.specs.AreNames.{AreNames};
ghost use Rattle.rdx_patterns.specs.BoundNames.{bound_names};
ghost use Rattle.rdx_patterns.specs.OccurrenceView.{bounds_of, occurrence_of, occurrences_of};
ghost use Rattle.rdx_patterns.specs.PatternChecks as model;
ghost use Rattle.rdx_patterns.specs.Refusal.{first};

use crate::patterns::kinds::is_base;
use crate::patterns::names::{Names, symbol_name};
use crate::patterns::occurrences::Occurrence;
use crate::patterns::position::Position;
use crate::shape::names::{
    begins_with_dots, front, has_suffix, is_bad_bound, is_ellipsis, is_mismatch,
};
use crate::shape::{is_word, text};
use rdx_lang::Depths;
use rdx_sexp::{Datum, Form};
use rdx_term::NoMemory;
use std::alloc::Global;

/// The datum, where the test says so.
pub fn when(test: bool, d: &Datum) -> Option<&Datum>
    ensures { option_map (λ d. d.now) result ≡ first (model.when test d.now) }
{
    if test { Some(d) } else { None }
}

/// The keyword, where the occurrence is one.
pub fn keyword_fault<'a>(o: &Occurrence<'a>) -> Option<&'a Datum>
    ensures { option_map (λ d. d.now) result ≡ first (model.keyword_fault (occurrence_of o.now)) }
{
    match o {
        Occurrence::Key(d) => Some(*d),
        Occurrence::Binder(_, _)
        | Occurrence::Single(_, _)
        | Occurrence::Repeats(_, _)
        | Occurrence::Excepted(_)
        | Occurrence::Across(_)
        | Occurrence::Malformed(_)
        | Occurrence::Escape(_) => None,
    }
}

/// The first keyword.
pub fn first_keyword<'a>(found: &[Occurrence<'a>]) -> Option<&'a Datum>
    ensures { option_map (λ d. d.now) result ≡ first (model.keyword_faults (occurrences_of found.now)) }
{
    for o in found {
        if let Some(d) = keyword_fault(o) {
            return Some(d);
        }
    }
    None
}

/// The name that is bound and may not be, where the occurrence is one.
pub fn bad_binder<'a>(o: &Occurrence<'a>) -> Option<&'a Datum>
    ensures { option_map (λ d. d.now) result ≡ first (model.bad_binder (occurrence_of o.now)) }
{
    match o {
        Occurrence::Binder(_, d) => when(is_bad_bound(text(d)), d),
        Occurrence::Key(_)
        | Occurrence::Single(_, _)
        | Occurrence::Repeats(_, _)
        | Occurrence::Excepted(_)
        | Occurrence::Across(_)
        | Occurrence::Malformed(_)
        | Occurrence::Escape(_) => None,
    }
}

/// The first name that is bound and may not be.
pub fn first_bad_binder<'a>(found: &[Occurrence<'a>]) -> Option<&'a Datum>
    ensures { option_map (λ d. d.now) result ≡ first (model.bad_binders (occurrences_of found.now)) }
{
    for o in found {
        if let Some(d) = bad_binder(o) {
            return Some(d);
        }
    }
    None
}

// Whether the symbol is no pattern.
fn is_bad_symbol(names: &Names, text: &str) -> bool
    ensures { result ≡ model.is_bad_symbol names.now text.now }
{
    begins_with_dots(text) || (text != "_" && has_suffix(text) && !is_base(names, front(text)))
}

// Whether a symbol that is excepted, or a prefix, begins like an ellipsis and is none.
fn is_bad_excepted(text: &str) -> bool
    ensures { result ≡ model.is_bad_excepted text.now }
{
    begins_with_dots(text) && !is_ellipsis(text)
}

// The text of the second of these, where it is a symbol.
fn second_text(items: &[Datum]) -> &str
    ensures { result.now ≡ model.second_text (sexps items.now) }
{
    match items {
        [_, second, ..] => text(second),
        _ => "",
    }
}

// The nonterminal that a list `(cross e)` names.
fn crossed_name(d: &Datum) -> &str
    ensures { result.now ≡ model.crossed_name d.now }
{
    match &d.form {
        Form::List(parts) => second_text(parts),
        _ => "",
    }
}

/// The part, where it means nothing over these nonterminals.
pub fn bad_occurrence<'a>(names: &Names, o: &Occurrence<'a>) -> Option<&'a Datum>
    ensures { option_map (λ d. d.now) result
        ≡ first (model.bad_occurrence names.now (occurrence_of o.now)) }
{
    match o {
        Occurrence::Single(_, d) => when(is_bad_symbol(names, text(d)), d),
        Occurrence::Excepted(d) => when(is_bad_excepted(text(d)), d),
        Occurrence::Across(d) => when(names.find(crossed_name(d)).is_none(), d),
        Occurrence::Malformed(d) => Some(*d),
        Occurrence::Key(_)
        | Occurrence::Binder(_, _)
        | Occurrence::Repeats(_, _)
        | Occurrence::Escape(_) => None,
    }
}

/// The first part that means nothing, over these nonterminals.
pub fn first_bad_occurrence<'a>(names: &Names, found: &[Occurrence<'a>]) -> Option<&'a Datum>
    ensures { option_map (λ d. d.now) result
        ≡ first (model.bad_occurrences names.now (occurrences_of found.now)) }
{
    for o in found {
        if let Some(d) = bad_occurrence(names, o) {
            return Some(d);
        }
    }
    None
}

// Whether a built-in name or a nonterminal without a suffix binds its own name.
fn binds_itself(position: Position) -> bool
    ensures { result ≡ model.binds_itself position }
{
    match position {
        Position::Grammar => false,
        Position::Query => true,
    }
}

// Whether the symbol binds its text as a pattern.
fn binds(names: &Names, position: Position, text: &str) -> bool
    ensures { result ≡ model.binds names.now position text.now }
{
    if text == "_" || text == "hole" {
        return false;
    }
    if is_base(names, text) {
        return binds_itself(position);
    }
    has_suffix(text) && is_base(names, front(text)) && !is_mismatch(text)
}

// The symbol with its depth, where the test says so.
fn bound_when(test: bool, depth: usize, d: &Datum) -> Option<(usize, &Datum)>
    ensures { bounds_of (option_map (λ b. (b.0, b.1.now)) result)
        ≡ model.bound_when test depth d.now }
{
    if test { Some((depth, d)) } else { None }
}

/// The symbol that binds a name, with its depth, where the occurrence is one.
pub fn bound_by<'a>(
    names: &Names,
    position: Position,
    o: &Occurrence<'a>,
) -> Option<(usize, &'a Datum)>
    ensures { bounds_of (option_map (λ b. (b.0, b.1.now)) result)
        ≡ model.bound_by names.now position (occurrence_of o.now) }
{
    match o {
        Occurrence::Binder(depth, d) => Some((*depth, *d)),
        Occurrence::Single(depth, d) => bound_when(binds(names, position, text(d)), *depth, d),
        Occurrence::Repeats(depth, d) => bound_when(!is_word(d, "..."), *depth, d),
        Occurrence::Key(_)
        | Occurrence::Excepted(_)
        | Occurrence::Across(_)
        | Occurrence::Malformed(_)
        | Occurrence::Escape(_) => None,
    }
}

/// The list, where it would ask Racket.
pub fn escape_in<'a>(o: &Occurrence<'a>) -> Option<&'a Datum>
    ensures { option_map (λ d. d.now) result ≡ first (model.escape_in (occurrence_of o.now)) }
{
    match o {
        Occurrence::Escape(d) => Some(*d),
        Occurrence::Key(_)
        | Occurrence::Binder(_, _)
        | Occurrence::Single(_, _)
        | Occurrence::Repeats(_, _)
        | Occurrence::Excepted(_)
        | Occurrence::Across(_)
        | Occurrence::Malformed(_) => None,
    }
}

/// The first list that would ask Racket.
pub fn first_escape<'a>(found: &[Occurrence<'a>]) -> Option<&'a Datum>
    ensures { option_map (λ d. d.now) result ≡ first (model.escapes (occurrences_of found.now)) }
{
    for o in found {
        if let Some(d) = escape_in(o) {
            return Some(d);
        }
    }
    None
}

/// The first symbol that binds a name at another depth than one before it, over these nonterminals.
pub fn first_depth_clash<'a>(
    alloc: Global,
    names: &Names,
    position: Position,
    found: &[Occurrence<'a>],
) -> Result<Option<&'a Datum>, NoMemory>
    requires { AreNames
        (bound_names (model.all_bound names.now position (occurrences_of found.now))) }
    ensures { IfOk result (λ r. option_map (λ d. d.now) r
        ≡ first (model.depth_clashes names.now position (occurrences_of found.now))) }
{
    let mut depths = Depths::new(alloc);
    for o in found {
        if let Some((depth, d)) = bound_by(names, position, o) {
            let name = symbol_name(d)?;
            if !depths.meet(&name, depth, false)? {
                return Ok(Some(d));
            }
        }
    }
    Ok(None)
}
