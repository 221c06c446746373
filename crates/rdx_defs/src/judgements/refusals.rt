// Why a form of a judgement or a premise by itself is refused.
ghost use Rattle.std.specs.Prelude.{◌≡◌, IfOk, None, Some, option_map};
ghost use Rattle.rdx_patterns.specs.Readable.{IsReadable};
ghost use Rattle.rdx_patterns.specs.Refusal.{refusal_of};
ghost use Rattle.rdx_defs.specs.Inside.FormViews.{judgement_form_of};
ghost use Rattle.rdx_parts.specs.PartsHave.{IsReadableIn};
ghost use Rattle.rdx_defs.specs.JudgementForms as forms;
ghost use Rattle.rdx_defs.specs.JudgementRefusal.{judgement_refusal, premise_refusal};
ghost use Rattle.rdx_templates.specs.Scope.{scope_of};

use crate::judgements::forms::JudgementForm;
use crate::judgements::stands::{
    judgement_outline, judgement_stands, question_outline, question_stands,
};
use rdx_parts::stands::refusals::refuse_parts;
use rdx_patterns::{DefRefusal, Names};
use rdx_relations::refuse_over;
use rdx_sexp::Datum;
use rdx_templates::Scope;
use rdx_term::NoMemory;
use std::alloc::Global;

/// The refusal of a form with these parts and this mode.
pub(crate) fn refuse_judgement(
    alloc: Global,
    scope: &Scope,
    names: &Names,
    d: &Datum,
    form: JudgementForm<'_>,
    mode: Option<&[bool]>,
) -> Result<Option<DefRefusal>, NoMemory>
    requires readable { IsReadable d.now }
    requires form { forms.judgement_form d.now ≡ Some (judgement_form_of form) }
    requires mode { option_map (λ m. m.now) mode ≡ forms.own_mode (judgement_form_of form) }
    ensures { IfOk result (λ r.
        option_map refusal_of r ≡ judgement_refusal (scope_of scope.now) names.now d.now) }
{
    let outline = judgement_outline(alloc, form, mode)?;
    let found = judgement_stands(alloc, scope, d, form, mode)?;
    let refusal = refuse_parts(alloc, scope, names, &found, &outline)?;
    refuse_over(alloc, form.language, refusal)
}

/// The refusal of a premise by itself, or of the template behind it, where there is one.
pub(crate) fn refuse_question(
    alloc: Global,
    scope: &Scope,
    names: &Names,
    premise: &Datum,
    behind: Option<&Datum>,
) -> Result<Option<DefRefusal>, NoMemory>
    requires premise { IsReadable premise.now }
    requires behind { IsReadableIn (option_map (λ d. d.now) behind) }
    ensures { IfOk result (λ r.
        option_map refusal_of r
        ≡ premise_refusal (scope_of scope.now) names.now premise.now
        (option_map (λ d. d.now) behind.entry)) }
{
    let outline = question_outline(alloc, premise, behind)?;
    let found = question_stands(alloc, scope, premise, behind)?;
    refuse_parts(alloc, scope, names, &found, &outline)
}
