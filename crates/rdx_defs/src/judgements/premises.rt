// Premises by themselves, as queries have them.
ghost use Rattle.std.specs.Prelude.{◌≡◌, [], IfOk, IfSome, IsSome, Some, option_map};
ghost use Rattle.rdx_lang.specs.Checked.{language_in};
ghost use Rattle.rdx_lang.specs.ProgramView.{premise_of};
ghost use Rattle.rdx_lang.specs.TemplateView.{template_of};
ghost use Rattle.rdx_patterns.specs.Ends.{Gained, ends_in};
ghost use Rattle.rdx_patterns.specs.Nonterminals.{names_of};
ghost use Rattle.rdx_patterns.specs.Readable.{IsReadable};
ghost use Rattle.rdx_defs.specs.Answers.{FitsBehind, IsValidPremise, ReadsPremise};
ghost use Rattle.rdx_templates.specs.Scope.{callable, scope_of};
ghost use Rattle.rdx_templates.specs.TemplateReading.{template_reading};
ghost use Rattle.rdx_parts.specs.ExtraReading.{premise_reading};
ghost use Rattle.rdx_parts.specs.Headed as headed;
ghost use Rattle.rdx_parts.specs.ByNames.{premise_names};
ghost use Rattle.rdx_parts.specs.PartsHave.{PremiseHas, can_bind, can_read};

use crate::crosses::add_asked;
use crate::judgements::refusals::refuse_question;
use rdx_lang::{CheckedLang, Premise, Template};
use rdx_parts::arguments::headed_list;
use rdx_parts::stands::names::lone_names;
use rdx_parts::stands::readings;
use rdx_patterns::{DefFault, Names};
use rdx_sexp::Datum;
use rdx_templates::Scope;
use rdx_templates::templates::bound::Bound;
use rdx_templates::templates::readings as templates;
use rdx_term::NoMemory;
use std::alloc::Global;

/// A premise, and the template behind it, where there is one.
#[derive(Drop)]
pub struct ReadPremise {
    pub premise: Premise,
    pub result: Option<Template>,
}

// The premise of a datum, before which no name is bound.
fn read_alone(
    alloc: Global,
    scope: &Scope,
    language: &CheckedLang,
    names: &Names,
    d: &Datum,
) -> Result<Option<Premise>, NoMemory>
    requires { PremiseHas (scope_of scope.now)
        (can_read (scope_of scope.now) (language_in language.now) names.now)
        (headed.headed d.now) }
    ensures { IfOk result (λ q.
        option_map premise_of q
        ≡ option_map (premise_reading (scope_of scope.now) names.now []) (headed.headed d.now)) }
{
    let Some(premise) = headed_list(d) else {
        return Ok(None);
    };
    let bound = Bound::new(alloc);
    let premise = readings::read_premise(alloc, scope, language, names, &bound, premise)?;
    Ok(Some(premise))
}

// The template behind a premise, where there is one.
fn read_behind(
    alloc: Global,
    scope: &Scope,
    names: &Names,
    premise: &Datum,
    behind: Option<&Datum>,
) -> Result<Option<Template>, NoMemory>
    requires { PremiseHas (scope_of scope.now) (can_bind names.now) (headed.headed premise.now) }
    ensures { IfOk result (λ t.
        option_map template_of t
        ≡ option_map (template_reading (scope_of scope.now)
        (premise_names (scope_of scope.now) names.now (headed.headed premise.now)))
        (option_map (λ d. d.now) behind.entry)) }
{
    let Some(template) = behind else {
        return Ok(None);
    };
    let bound = lone_names(alloc, scope, names, premise)?;
    Ok(Some(templates::read_datum(alloc, scope, &bound, template)?))
}

// The premise of a datum that is one, before which no name is bound, and the template behind it,
// where there is one.
fn read_parts(
    alloc: Global,
    scope: &Scope,
    language: &CheckedLang,
    names: &Names,
    premise: &Datum,
    behind: Option<&Datum>,
) -> Result<ReadPremise, NoMemory>
    requires form { IsSome (headed.headed premise.now) }
    requires premise { PremiseHas (scope_of scope.now)
        (can_read (scope_of scope.now) (language_in language.now) names.now)
        (headed.headed premise.now) }
    ensures premise { IfOk result (λ read.
        Some (premise_of read.premise)
        ≡ option_map (premise_reading (scope_of scope.now) names.now [])
        (headed.headed premise.now)) }
    ensures result { IfOk result (λ read.
        option_map template_of read.result
        ≡ option_map (template_reading (scope_of scope.now)
        (premise_names (scope_of scope.now) names.now (headed.headed premise.now)))
        (option_map (λ d. d.now) behind.entry)) }
{
    let Some(asked) = read_alone(alloc, scope, language, names, premise)? else {
        unreachable!()
    };
    let result = read_behind(alloc, scope, names, premise, behind)?;
    Ok(ReadPremise {
        premise: asked,
        result,
    })
}

/// As [`read_premise`], over a language with nonterminals of these names.
pub fn read_premise_over(
    alloc: Global,
    scope: &Scope,
    language: &mut CheckedLang,
    names: &Names,
    premise: &Datum,
    behind: Option<&Datum>,
) -> Result<ReadPremise, DefFault>
    requires premise { IsReadable premise.now }
    requires names { names.now ≡ names_of (language_in language.old) }
    requires behind { IfSome behind (λ d. IsReadable d.now) }
    ensures reads { ReadsPremise (scope_of scope.now) (names_of (language_in language.old))
        premise.now (option_map (λ d. d.now) behind.entry) result }
    ensures gains { Gained (language_in language.old) (ends_in premise.now) result
        (language_in language.new) }
    ensures valid { IfOk result (λ read.
        IsValidPremise (callable (scope_of scope.now)) (language_in language.new) read) }
    ensures fits { IfOk result (λ read. FitsBehind (callable (scope_of scope.now)) read) }
{
    if let Some(refusal) = refuse_question(alloc, scope, names, premise, behind)? {
        return Err(DefFault::Refused(refusal));
    }
    add_asked(alloc, language, premise)?;
    Ok(read_parts(alloc, scope, language, names, premise, behind)?)
}

/// The premise that a datum stands for, before which no name is bound, its patterns over the
/// language, and the template behind it, where there is one, which sees the names of the premise.
pub fn read_premise(
    alloc: Global,
    scope: &Scope,
    language: &mut CheckedLang,
    premise: &Datum,
    behind: Option<&Datum>,
) -> Result<ReadPremise, DefFault>
    requires premise { IsReadable premise.now }
    requires behind { IfSome behind (λ d. IsReadable d.now) }
    ensures reads { ReadsPremise (scope_of scope.now) (names_of (language_in language.old))
        premise.now (option_map (λ d. d.now) behind.entry) result }
    ensures gains { Gained (language_in language.old) (ends_in premise.now) result
        (language_in language.new) }
    ensures valid { IfOk result (λ read.
        IsValidPremise (callable (scope_of scope.now)) (language_in language.new) read) }
    ensures fits { IfOk result (λ read. FitsBehind (callable (scope_of scope.now)) read) }
{
    let names = Names::of_language(alloc, language)?;
    read_premise_over(alloc, scope, language, &names, premise, behind)
}
