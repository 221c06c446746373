// Languages that are not left-recursive.
ghost use Rattle.rdx_lang.specs.PatternView.{language_of};
ghost use Rattle.rdx_lang.specs.WellFormed.{IsWellFormed};
ghost use Rattle.rdx_grammar.specs.Inside.CheckedForms.{ChecksRecursion};

use rdx_lang::{CheckedLang, Language};
use rdx_leftrec::LeftRec;
use rdx_patterns::refusal::named_at;
use rdx_patterns::{DefFault, DefKind, called};
use rdx_sexp::Datum;
use std::alloc::Global;

/// The language of a form with its ranks, unless it is left-recursive.
pub(crate) fn checked(
    alloc: Global,
    form: &Datum,
    language: Language,
) -> Result<CheckedLang, DefFault>
    requires { IsWellFormed (language_of language) }
    ensures { ChecksRecursion (language_of language) form.now result }
{
    match rdx_leftrec::check(alloc, &language) {
        Ok(ranks) => Ok(CheckedLang::new(language, ranks)),
        Err(LeftRec::LeftRecursive(nonterminal)) => {
            let name = called(&nonterminal).text();
            let refusal = named_at(alloc, DefKind::LeftRecursive, form, name)?;
            Err(DefFault::Refused(refusal))
        }
        Err(LeftRec::NoMemory) => Err(DefFault::NoMemory),
    }
}
