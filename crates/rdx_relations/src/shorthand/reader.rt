// Relations without their shorthand.
ghost use Rattle.rdx_relations.specs.Expansion.{Expands};

use crate::relations::forms::relation_form;
use crate::shorthand::arrows::Arrows;
use crate::shorthand::checks::refuse_shorthand;
use crate::shorthand::expanding::expanded_cases;
use crate::shorthand::forms::{cut_at_with, shortcuts_among};
use rdx_patterns::refusal::unnamed;
use rdx_patterns::{DefFault, DefKind};
use rdx_sexp::Datum;
use std::alloc::Global;

/// The cases of a `reduction-relation` form without shorthand: each whose arrow a shortcut behind
/// `with` defines is what it stands for.
pub fn expand_with(alloc: Global, form: &Datum) -> Result<Vec<Datum>, DefFault>
    ensures expands { Expands form.now result }
{
    let Some(parts) = relation_form(form) else {
        return Err(DefFault::Refused(unnamed(DefKind::Shape, form)));
    };
    let cut = cut_at_with(parts.cases);
    let arrows = Arrows::new(alloc, shortcuts_among(alloc, cut.shortcuts)?)?;
    if let Some(refusal) = refuse_shorthand(alloc, cut, &arrows)? {
        return Err(DefFault::Refused(refusal));
    }
    Ok(expanded_cases(alloc, cut)?)
}
