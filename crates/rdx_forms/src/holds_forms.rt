// Forms that ask whether a premise is met: their shape, their refusal and what they ask.
ghost use Rattle.std.specs.Prelude.{◌≡◌, ◌<◌, [], length, get_or, option_map, IfSome, IfNone, IfOk};
ghost use Rattle.rdx_lang.specs.Checked.{language_in};
ghost use Rattle.rdx_lang.specs.declared.checked.CheckedLang.{CheckedLang};
ghost use Rattle.rdx_defs.specs.Answers.{ReadsPremise};
ghost use Rattle.rdx_templates.specs.Scope.{scope_of};
ghost use Rattle.rdx_parts.specs.Headed.{headed};
ghost use Rattle.rdx_patterns.specs.Nonterminals.{names_of};
ghost use Rattle.rdx_patterns.specs.Readable.{IsReadable};
ghost use Rattle.rdx_patterns.specs.Refusal.{refusal_of};
ghost use Rattle.rdx_forms.specs.HoldsForms.{asked_names, asked_unknown_at};
ghost use Rattle.rdx_patterns.specs.Ends.{ends_in};
ghost use Rattle.rdx_patterns.specs.Among.{AreAmong};
ghost use Rattle.rdx_forms.specs.Fitting.{AreCrossed};
ghost use Rattle.rdx_forms.specs.Answers.{HoldsAskedBy, HoldsTestedBy};
ghost use Rattle.rdx_forms.specs.Inside.Asking.{HoldsFitsBy};
ghost use Rattle.rdx_forms.specs.KnownView.{known_of};

use crate::earlier::unless;
use crate::known::Known;
use crate::language_forms::empty_language;
use crate::lookup::{judgement_language, place_named};
use crate::parts::{HoldsParts, holds_parts, judgement_head, lone_parts};
use crate::refusals::misshaped;
use rdx_defs::{ReadPremise, read_premise, read_premise_over};
use rdx_lang::Premise;
use rdx_patterns::refusal::named_at;
use rdx_patterns::shape::text;
use rdx_patterns::{DefFault, DefKind, DefRefusal};
use rdx_sexp::Datum;
use rdx_term::NoMemory;
use std::alloc::Global;

// The parts of such a form, where it has them.
fn check_shape(form: &Datum) -> Result<HoldsParts<'_>, DefFault>
    ensures { HoldsFitsBy form.now result }
{
    let Some(parts) = holds_parts(form) else {
        return Err(DefFault::Refused(misshaped(form)));
    };
    Ok(parts)
}

// The refusal of the name of a judgement in a language that no form before defines, S2.
fn refuse_asked(
    alloc: Global,
    known: &Known,
    premise: &Datum,
) -> Result<Option<DefRefusal>, NoMemory>
    ensures { IfOk result (λ r. option_map refusal_of r
        ≡ asked_unknown_at (known_of known.now) (headed premise.now)) }
{
    let Some(head) = judgement_head(premise) else {
        return Ok(None);
    };
    let Some(language) = judgement_language(known, text(head)) else {
        return Ok(None);
    };
    if place_named(known, language).is_some() {
        return Ok(None);
    }
    Ok(Some(named_at(alloc, DefKind::UnknownLanguage, head, language)?))
}

// The place of the language of the judgement that a premise asks, where it is known.
fn asked_place(known: &Known, premise: &Datum) -> Option<usize>
    ensures within { IfSome result (λ i. i < length known.now.program.languages.items) }
    ensures some { IfSome result (λ i. (l : CheckedLang)
        → l ≡ get_or known.now.program.languages.items i l
        → asked_names (known_of known.now) (headed premise.now) ≡ names_of (language_in l)) }
    ensures none { IfNone result (asked_names (known_of known.now) (headed premise.now) ≡ []) }
{
    let language = judgement_language(known, text(judgement_head(premise)?))?;
    place_named(known, language)
}

// The premise, and the template behind it, over the language of the judgement that it asks; over an
// empty one, where that is unknown.
fn read_over(
    alloc: Global,
    known: &mut Known,
    premise: &Datum,
    behind: Option<&Datum>,
) -> Result<ReadPremise, DefFault>
    requires premise { IsReadable premise.now }
    requires behind { IfSome behind (λ d. IsReadable d.now) }
    requires crossed { AreCrossed (known_of known.old).program.languages
        (known_of known.old).ends }
    requires ends { AreAmong (ends_in premise.now) (known_of known.old).ends }
    ensures reads { ReadsPremise (scope_of known.old.scope)
        (asked_names (known_of known.old) (headed premise.now)) premise.now
        (option_map (λ d. d.now) behind.entry) result }
    ensures same { known_of known.new ≡ known_of known.old }
{
    match asked_place(known, premise) {
        Some(place) => {
            let language = &mut known.program.languages[place];
            let names = &known.tables.nonterminals[place];
            read_premise_over(alloc, &known.scope, language, names, premise, behind)
        }
        None => read_premise(
            alloc,
            &known.scope,
            &mut empty_language(alloc)?,
            premise,
            behind,
        ),
    }
}

/// What such a form asks, where this is known.
pub fn read_holds(alloc: Global, known: &mut Known, form: &Datum) -> Result<ReadPremise, DefFault>
    requires readable { IsReadable form.now }
    requires crossed { AreCrossed (known_of known.old).program.languages
        (known_of known.old).ends }
    requires ends { AreAmong (ends_in form.now) (known_of known.old).ends }
    ensures asks { HoldsAskedBy (known_of known.old) form.now result }
    ensures same { known_of known.new ≡ known_of known.old }
{
    let parts = check_shape(form)?;
    let refusal = refuse_asked(alloc, known, parts.premise)?;
    let read = read_over(alloc, known, parts.premise, parts.result);
    unless(refusal, read)
}

/// The premise of a test that it is met, where this is known.
pub fn read_holds_test(alloc: Global, known: &mut Known, form: &Datum) -> Result<Premise, DefFault>
    requires readable { IsReadable form.now }
    requires crossed { AreCrossed (known_of known.old).program.languages
        (known_of known.old).ends }
    requires ends { AreAmong (ends_in form.now) (known_of known.old).ends }
    ensures asks { HoldsTestedBy (known_of known.old) form.now result }
    ensures same { known_of known.new ≡ known_of known.old }
{
    if lone_parts(form).is_none() {
        return Err(DefFault::Refused(misshaped(form)));
    }
    let ReadPremise { premise, .. } = read_holds(alloc, known, form)?;
    Ok(premise)
}
