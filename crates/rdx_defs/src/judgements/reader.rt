// Judgements over languages.
ghost use Rattle.std.specs.Prelude.{◌≡◌, None, Some, IfOk, IsTrue, option_map};
ghost use Rattle.rdx_lang.specs.Checked.{language_in};
ghost use Rattle.rdx_lang.specs.ProgramView.{judgement_of};
ghost use Rattle.rdx_lang.specs.Valid.{is_valid_judgement};
ghost use Rattle.rdx_patterns.specs.Ends.{Gained, ends_in};
ghost use Rattle.rdx_patterns.specs.Nonterminals.{names_of};
ghost use Rattle.rdx_patterns.specs.Readable.{IsReadable};
ghost use Rattle.rdx_defs.specs.Answers.{ReadsJudgement};
ghost use Rattle.rdx_defs.specs.JudgementForms as forms;
ghost use Rattle.rdx_templates.specs.Scope.{callable, scope_of};

use crate::crosses::add_asked;
use crate::judgements::forms::{judgement_form, judgement_in, own_mode};
use crate::judgements::readings::read_parts;
use crate::judgements::refusals::refuse_judgement;
use rdx_lang::{CheckedLang, Judgement};
use rdx_patterns::refusal::unnamed;
use rdx_patterns::{DefFault, DefKind, Names};
use rdx_sexp::Datum;
use rdx_templates::Scope;
use std::alloc::Global;

/// The name that a `define-judgment-form` form gives its judgement, in its mode, where the form has
/// its parts and a mode.
pub fn judgement_name(form: &Datum) -> Option<&Datum>
    ensures named { (f : forms.JudgementForm) → forms.judgement_form form.now ≡ Some f
        → option_map (λ d. d.now) result ≡ forms.judgement_in f }
    ensures unnamed { forms.judgement_form form.now ≡ None
        → option_map (λ d. d.now) result ≡ None }
{
    judgement_in(judgement_form(form)?)
}

/// As [`read_judgement`], over a language with nonterminals of these names.
pub fn read_judgement_over(
    alloc: Global,
    scope: &Scope,
    language: &mut CheckedLang,
    names: &Names,
    form: &Datum,
) -> Result<Judgement, DefFault>
    requires readable { IsReadable form.now }
    requires names { names.now ≡ names_of (language_in language.old) }
    ensures reads { ReadsJudgement (scope_of scope.now) (names_of (language_in language.old))
        form.now result }
    ensures gains { Gained (language_in language.old) (ends_in form.now) result
        (language_in language.new) }
    ensures valid { IfOk result (λ j.
        IsTrue (is_valid_judgement (callable (scope_of scope.now))
        (Some (language_in language.new)) (judgement_of j))) }
{
    let Some(parts) = judgement_form(form) else {
        return Err(DefFault::Refused(unnamed(DefKind::Shape, form)));
    };
    let mode = own_mode(alloc, parts)?;
    if let Some(refusal) = refuse_judgement(alloc, scope, names, form, parts, mode.as_deref())? {
        return Err(DefFault::Refused(refusal));
    }
    let Some(name) = judgement_in(parts) else {
        unreachable!()
    };
    let Some(mode) = mode else { unreachable!() };
    add_asked(alloc, language, form)?;
    Ok(read_parts(alloc, scope, language, names, parts, name, mode)?)
}

/// The judgement that a `define-judgment-form` form stands for over a language, whatever the name of
/// that is.
pub fn read_judgement(
    alloc: Global,
    scope: &Scope,
    language: &mut CheckedLang,
    form: &Datum,
) -> Result<Judgement, DefFault>
    requires { IsReadable form.now }
    ensures reads { ReadsJudgement (scope_of scope.now) (names_of (language_in language.old))
        form.now result }
    ensures gains { Gained (language_in language.old) (ends_in form.now) result
        (language_in language.new) }
    ensures valid { IfOk result (λ j.
        IsTrue (is_valid_judgement (callable (scope_of scope.now))
        (Some (language_in language.new)) (judgement_of j))) }
{
    let names = Names::of_language(alloc, language)?;
    read_judgement_over(alloc, scope, language, &names, form)
}
