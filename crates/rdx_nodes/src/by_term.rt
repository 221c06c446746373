// Rows of patterns that match by the term alone.
ghost use Rattle.std.specs.Prelude.{◌≡◌, IfOk, IfSome, IsTrue, None};
ghost use Rattle.rdx_lang.specs.Checked.{language_in};
ghost use Rattle.rdx_lang.specs.Patterns.{hole};
ghost use Rattle.rdx_lang.specs.Rules.{Match};
ghost use Rattle.rdx_term.specs.View.{tree_of};
ghost use Rattle.rdx_bind.specs.Columns.{HasAsked};
ghost use Rattle.rdx_bind.specs.Rows.{split_row_of};
ghost use Rattle.rdx_bind.specs.Spots.{SplitsAt, spots_of};
ghost use Rattle.rdx_nodes.specs.Asked.{asked_where};
ghost use Rattle.rdx_nodes.specs.ByTerm.{has_parts};
ghost use Rattle.rdx_nodes.specs.Nodes.{pattern_by};
ghost use Rattle.rdx_nodes.specs.Inside.PlainRows as model;

use crate::node::Form;
use rdx_bind::atoms::{has_prefix, is_hole, is_of_kind, is_other_symbol};
use rdx_bind::combining::empty_where;
use rdx_bind::rows::Row;
use rdx_bind::spots::{Spot, whole};
use rdx_lang::CheckedLang;
use rdx_term::{NoMemory, Term};
use std::alloc::Global;

// The row of a pattern that splits nothing: the empty binding, or none.
fn plain_row(alloc: Global, holds: bool) -> Result<Row, NoMemory>
    ensures { IfOk result (λ row. split_row_of row ≡ model.plain_row holds) }
{
    let matches = empty_where(alloc, holds)?;
    let spots = Vec::new(alloc);
    Ok(Row { matches, spots })
}

// The spots of the hole: its root, where they are asked for.
fn hole_spots(alloc: Global, splits: bool) -> Result<Vec<Spot>, NoMemory>
    ensures { IfOk result (λ found. spots_of found.items ≡ model.hole_spots splits) }
{
    if splits {
        whole(alloc)
    } else {
        Ok(Vec::new(alloc))
    }
}

// The row of the hole.
fn hole_row(alloc: Global, t: &Term, splits: bool) -> Result<Row, NoMemory>
    ensures { (L : _) → IfOk result (λ row. HasAsked (Match L hole (tree_of t.now))
        (SplitsAt L hole (tree_of t.now)) (asked_where splits) (split_row_of row)) }
{
    let matches = empty_where(alloc, is_hole(t))?;
    let spots = hole_spots(alloc, splits)?;
    Ok(Row { matches, spots })
}

/// The row of a pattern of this form, where the term alone decides.
pub fn row_by_term(
    alloc: Global,
    language: &CheckedLang,
    form: &Form<'_>,
    t: &Term,
    splits: bool,
) -> Option<Result<Row, NoMemory>>
    ensures row { (ps : _) → IfSome result (λ r. IfOk r (λ row. HasAsked
        (Match (language_in language.now) (pattern_by ps form.now) (tree_of t.now))
        (SplitsAt (language_in language.now) (pattern_by ps form.now) (tree_of t.now))
        (asked_where splits) (split_row_of row))) }
    ensures parts { result ≡ None → IsTrue (has_parts form.now) }
{
    match form {
        Form::Wild => Some(plain_row(alloc, true)),
        Form::Kind(kind) => Some(plain_row(alloc, is_of_kind(language, *kind, t))),
        Form::Except(names) => Some(plain_row(alloc, is_other_symbol(names, t))),
        Form::Prefix(prefix) => Some(plain_row(alloc, has_prefix(prefix, t))),
        Form::Hole => Some(hole_row(alloc, t, splits)),
        Form::Lit(literal) => Some(plain_row(alloc, t.same_bare(literal))),
        Form::Nt(_)
        | Form::Named(_, _)
        | Form::InHole(_, _)
        | Form::HideHole(_)
        | Form::Closed(_)
        | Form::Seq(_) => None,
    }
}
