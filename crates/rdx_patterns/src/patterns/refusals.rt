// Why a pattern is refused.
ghost use Rattle.std.specs.Prelude.{◌≡◌, IfOk, option_map};
ghost use Rattle.rdx_patterns.specs.PatternRefusal as model;
ghost use Rattle.rdx_patterns.specs.Readable.{IsReadable};
ghost use Rattle.rdx_patterns.specs.Refusal.{refusal_of};

use crate::patterns::checks::{
    first_bad_binder, first_bad_occurrence, first_depth_clash, first_escape, first_keyword,
};
use crate::patterns::names::Names;
use crate::patterns::occurrences::add_pattern;
use crate::patterns::position::Position;
use crate::shape::refusal::{named, unnamed};
use crate::shape::{DefKind, DefRefusal};
use rdx_sexp::Datum;
use rdx_term::NoMemory;
use std::alloc::Global;

/// The refusal by the check with the least number that refuses a pattern outside grammars, over these nonterminals.
pub(crate) fn refuse_pattern(
    alloc: Global,
    names: &Names,
    d: &Datum,
) -> Result<Option<DefRefusal>, NoMemory>
    requires { IsReadable d.now }
    ensures { IfOk result (λ r. option_map refusal_of r ≡ model.pattern_refusal names.now d.now) }
{
    let mut found = Vec::new(alloc);
    add_pattern(0, d, &mut found)?;
    if let Some(d) = first_keyword(&found) {
        return Ok(Some(unnamed(DefKind::Shape, d)));
    }
    if let Some(d) = first_bad_binder(&found) {
        return Ok(Some(named(alloc, DefKind::BadName, d)?));
    }
    if let Some(d) = first_bad_occurrence(names, &found) {
        return Ok(Some(unnamed(DefKind::BadPattern, d)));
    }
    if let Some(d) = first_depth_clash(alloc, names, Position::Query, &found)? {
        return Ok(Some(named(alloc, DefKind::EllipsisDepth, d)?));
    }
    if let Some(d) = first_escape(&found) {
        return Ok(Some(unnamed(DefKind::RacketEscape, d)));
    }
    Ok(None)
}
