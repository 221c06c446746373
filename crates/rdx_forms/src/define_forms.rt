// Forms that define a relation.
ghost use Rattle.std.specs.Prelude.{◌≡◌, IfOk};
ghost use Rattle.rdx_lang.specs.ProgramView.{relation_of};
ghost use Rattle.rdx_patterns.specs.Among.{AreAmong};
ghost use Rattle.rdx_patterns.specs.Readable.{IsReadable};
ghost use Rattle.rdx_forms.specs.Ends.{form_ends};
ghost use Rattle.rdx_forms.specs.FormKinds as forms;
ghost use Rattle.rdx_forms.specs.Answers.{RelatesBy};
ghost use Rattle.rdx_forms.specs.Fitting.{IsFitting, IsRelationOf};
ghost use Rattle.rdx_forms.specs.KnownView.{known_of};

use crate::closure_forms::{define_by_contexts, define_by_crosses};
use crate::known::Known;
use crate::parts::{DefineKind, define_parts};
use crate::relation_forms::define_by_cases;
use rdx_lang::Relation;
use rdx_patterns::refusal::unnamed;
use rdx_patterns::{DefFault, DefKind};
use rdx_sexp::Datum;
use std::alloc::Global;

/// The relation of a `define` form, where this is known.
pub fn define_relation(alloc: Global, known: &mut Known, form: &Datum) -> Result<Relation, DefFault>
    requires readable { IsReadable form.now }
    requires relation { forms.form_kind form.now ≡ forms.defines forms.relation }
    requires fitting { IsFitting (known_of known.old) }
    requires ends { AreAmong (form_ends form.now) (known_of known.old).ends }
    ensures relates { RelatesBy (known_of known.old) form.now result }
    ensures fits { IfOk result (λ r. IsRelationOf (known_of known.old).program (relation_of r)) }
    ensures same { known_of known.new ≡ known_of known.old }
{
    let Some(parts) = define_parts(form) else {
        return Err(DefFault::Refused(unnamed(DefKind::RacketEscape, form)));
    };
    if parts.has_more {
        return Err(DefFault::Refused(unnamed(DefKind::Shape, form)));
    }
    match parts.kind {
        DefineKind::Cases => define_by_cases(alloc, known, parts.name, parts.body),
        DefineKind::Contexts => define_by_contexts(alloc, known, parts.name, parts.body),
        DefineKind::Crosses => define_by_crosses(alloc, known, parts.name, parts.body),
    }
}
