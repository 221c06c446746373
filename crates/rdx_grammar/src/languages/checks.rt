// The checks of a form that defines a language one by one.
ghost use Rattle.std.specs.Prelude.{◌≡◌, [], IfOk, OnOk, option_map};
ghost use Rattle.rdx_grammar.specs.Checks as model;
ghost use Rattle.rdx_grammar.specs.Inside.BaseView.{base_in};
ghost use Rattle.rdx_grammar.specs.Inside.BoundView.{BindsNames, BindNames};
ghost use Rattle.rdx_patterns.specs.Inside.Repeats.{texts_in, HaveSame};
ghost use Rattle.rdx_grammar.specs.Inside.StandView.{stand_of, stands_of};
ghost use Rattle.rdx_patterns.specs.Refusal.{first};

use crate::languages::bases::{Base, all_inherit};
use crate::languages::stands::Stand;
use rdx_patterns::checks::{
    first_bad_binder, first_bad_occurrence, first_depth_clash, first_escape, first_keyword, when,
};
use rdx_patterns::names::{begins_with_dots, has_suffix, is_bad_name, is_kept};
use rdx_patterns::shape::text;
use rdx_patterns::{Names, Position, kind};
use rdx_sexp::Datum;
use rdx_term::NoMemory;
use std::alloc::Global;
use std::collections::BTreeSet;

fn shape_fault<'a>(s: &Stand<'a>) -> Option<&'a Datum>
    ensures { option_map (λ d. d.now) result ≡ first (model.shape_fault (stand_of s.now)) }
{
    match s {
        Stand::Misshaped(d) => Some(*d),
        Stand::Alternative(found) => first_keyword(found),
        Stand::Defined(_) | Stand::Nonterminal(_) | Stand::Inherited(_, _, _) => None,
    }
}

/// The first form or definition that has not its shape, or keyword in a pattern.
pub(crate) fn first_shape_fault<'a>(found: &[Stand<'a>]) -> Option<&'a Datum>
    ensures { option_map (λ d. d.now) result ≡ first (model.shape_faults (stands_of found.now)) }
{
    for s in found {
        if let Some(d) = shape_fault(s) {
            return Some(d);
        }
    }
    None
}

// The nonterminal that is defined here, where its text was seen. Its text is seen from now on.
fn repeated<'a>(s: &Stand<'a>, seen: &mut BTreeSet<&'a str>) -> Result<Option<&'a Datum>, NoMemory>
    ensures repeated { IfOk result (λ r. option_map (λ d. d.now) r
        ≡ first (model.repeated (texts_in seen.old) (stand_of s.now))) }
    ensures seen { OnOk result (HaveSame (texts_in seen.new)
        (model.seen_with (texts_in seen.old) (stand_of s.now))) }
{
    match s {
        Stand::Nonterminal(d) => {
            let is_new = seen.insert(text(d))?;
            Ok(when(!is_new, d))
        }
        Stand::Misshaped(_)
        | Stand::Defined(_)
        | Stand::Alternative(_)
        | Stand::Inherited(_, _, _) => Ok(None),
    }
}

/// The first nonterminal that is defined for the second time.
pub(crate) fn first_repeated<'a>(
    alloc: Global,
    found: &[Stand<'a>],
) -> Result<Option<&'a Datum>, NoMemory>
    ensures { IfOk result (λ r. option_map (λ d. d.now) r
        ≡ first (model.repeats [] (stands_of found.now))) }
{
    let mut seen = BTreeSet::new(alloc);
    for s in found {
        if let Some(d) = repeated(s, &mut seen)? {
            return Ok(Some(d));
        }
    }
    Ok(None)
}

// Whether no nonterminal may have this name.
fn is_bad_nonterminal(text: &str) -> bool
    ensures { result ≡ model.is_bad_nonterminal text.now }
{
    kind(text).is_some() || is_kept(text) || has_suffix(text) || begins_with_dots(text)
}

fn bad_name<'a>(s: &Stand<'a>) -> Option<&'a Datum>
    ensures { option_map (λ d. d.now) result ≡ first (model.bad_name (stand_of s.now)) }
{
    match s {
        Stand::Nonterminal(d) => when(is_bad_nonterminal(text(d)), d),
        Stand::Defined(d) => when(is_bad_name(text(d)), d),
        Stand::Alternative(found) => first_bad_binder(found),
        Stand::Misshaped(_) | Stand::Inherited(_, _, _) => None,
    }
}

/// The first name that may not be defined or bound.
pub(crate) fn first_bad_name<'a>(found: &[Stand<'a>]) -> Option<&'a Datum>
    ensures { option_map (λ d. d.now) result ≡ first (model.bad_names (stands_of found.now)) }
{
    for s in found {
        if let Some(d) = bad_name(s) {
            return Some(d);
        }
    }
    None
}

fn bad_pattern<'a>(base: Option<&Base>, names: &Names, s: &Stand<'a>) -> Option<&'a Datum>
    ensures { option_map (λ d. d.now) result
        ≡ first (model.bad_pattern (base_in (option_map (λ c. c.now) base.entry)) names.now
        (stand_of s.now)) }
{
    match s {
        Stand::Alternative(found) => first_bad_occurrence(names, found),
        Stand::Inherited(d, of, again) => when(*again || !all_inherit(base, of), d),
        Stand::Misshaped(_) | Stand::Defined(_) | Stand::Nonterminal(_) => None,
    }
}

/// The first pattern that means nothing, over these nonterminals.
pub(crate) fn first_bad_pattern<'a>(
    base: Option<&Base>,
    names: &Names,
    found: &[Stand<'a>],
) -> Option<&'a Datum>
    ensures { option_map (λ d. d.now) result
        ≡ first (model.bad_patterns (base_in (option_map (λ c. c.now) base.entry)) names.now
        (stands_of found.now)) }
{
    for s in found {
        if let Some(d) = bad_pattern(base, names, s) {
            return Some(d);
        }
    }
    None
}

fn depth_clash<'a>(
    alloc: Global,
    names: &Names,
    s: &Stand<'a>,
) -> Result<Option<&'a Datum>, NoMemory>
    requires { BindsNames names.now (stand_of s.now) }
    ensures { IfOk result (λ r. option_map (λ d. d.now) r
        ≡ first (model.depth_clash names.now (stand_of s.now))) }
{
    match s {
        Stand::Alternative(found) => first_depth_clash(alloc, names, Position::Grammar, found),
        Stand::Misshaped(_)
        | Stand::Defined(_)
        | Stand::Nonterminal(_)
        | Stand::Inherited(_, _, _) => Ok(None),
    }
}

/// The first symbol that binds a name at another depth than one before it in its alternative.
pub(crate) fn first_depth_clash_in_form<'a>(
    alloc: Global,
    names: &Names,
    found: &[Stand<'a>],
) -> Result<Option<&'a Datum>, NoMemory>
    requires { BindNames names.now (stands_of found.now) }
    ensures { IfOk result (λ r. option_map (λ d. d.now) r
        ≡ first (model.all_depth_clashes names.now (stands_of found.now))) }
{
    for s in found {
        if let Some(d) = depth_clash(alloc, names, s)? {
            return Ok(Some(d));
        }
    }
    Ok(None)
}

// The first list in an alternative that would ask Racket.
fn escape_in<'a>(s: &Stand<'a>) -> Option<&'a Datum>
    ensures { option_map (λ d. d.now) result ≡ first (model.escapes_in (stand_of s.now)) }
{
    match s {
        Stand::Alternative(found) => first_escape(found),
        Stand::Misshaped(_)
        | Stand::Defined(_)
        | Stand::Nonterminal(_)
        | Stand::Inherited(_, _, _) => None,
    }
}

/// The first list in a pattern that would ask Racket.
pub(crate) fn first_escape_in_form<'a>(found: &[Stand<'a>]) -> Option<&'a Datum>
    ensures { option_map (λ d. d.now) result ≡ first (model.all_escapes (stands_of found.now)) }
{
    for s in found {
        if let Some(d) = escape_in(s) {
            return Some(d);
        }
    }
    None
}
