// Forms that define a metafunction.
ghost use Rattle.std.specs.Prelude.{◌≡◌, option_map};
ghost use Rattle.rdx_defs.specs.Answers.{ReadsMetafunction};
ghost use Rattle.rdx_templates.specs.Scope.{scope_of};
ghost use Rattle.rdx_patterns.specs.Nonterminals.{names_of};
ghost use Rattle.rdx_patterns.specs.Readable.{IsReadable};
ghost use Rattle.rdx_forms.specs.FormKinds as forms;
ghost use Rattle.rdx_patterns.specs.Ends.{ends_in};
ghost use Rattle.rdx_patterns.specs.Among.{AreAmong};
ghost use Rattle.rdx_forms.specs.Fitting.{AreCrossed};
ghost use Rattle.rdx_forms.specs.Answers.{FunctionsBy};
ghost use Rattle.rdx_forms.specs.KnownView.{known_of};
ghost use Rattle.rdx_forms.specs.LanguageForms.{named_base};

use crate::earlier::unless;
use crate::known::Known;
use crate::language_forms::empty_language;
use crate::lookup::place_of;
use crate::parts::language_item;
use crate::refusals::refuse_names;
use rdx_defs::{metafunction_name, read_metafunction, read_metafunction_over};
use rdx_lang::Metafunction;
use rdx_patterns::DefFault;
use rdx_sexp::Datum;
use std::alloc::Global;

// The metafunction of a form over the language of this name, or over an empty one where that is
// unknown.
fn read_over(
    alloc: Global,
    known: &mut Known,
    language: Option<&Datum>,
    form: &Datum,
) -> Result<Metafunction, DefFault>
    requires readable { IsReadable form.now }
    requires crossed { AreCrossed (known_of known.old).program.languages
        (known_of known.old).ends }
    requires ends { AreAmong (ends_in form.now) (known_of known.old).ends }
    ensures reads { ReadsMetafunction (scope_of known.old.scope)
        (names_of (named_base (known_of known.old) (option_map (λ d. d.now) language.entry)))
        form.now result }
    ensures same { known_of known.new ≡ known_of known.old }
{
    match place_of(known, language) {
        Some(place) => {
            let language = &mut known.program.languages[place];
            let names = &known.tables.nonterminals[place];
            read_metafunction_over(alloc, &known.scope, language, names, form)
        }
        None => read_metafunction(alloc, &known.scope, &mut empty_language(alloc)?, form),
    }
}

/// The metafunction of a `define-metafunction` form, where this is known.
pub fn define_metafunction(
    alloc: Global,
    known: &mut Known,
    form: &Datum,
) -> Result<Metafunction, DefFault>
    requires readable { IsReadable form.now }
    requires metafunction { forms.form_kind form.now ≡ forms.defines forms.metafunction }
    requires crossed { AreCrossed (known_of known.old).program.languages
        (known_of known.old).ends }
    requires ends { AreAmong (ends_in form.now) (known_of known.old).ends }
    ensures defines { FunctionsBy (known_of known.old) form.now result }
    ensures same { known_of known.new ≡ known_of known.old }
{
    let language = language_item(form);
    let refusal = refuse_names(alloc, known, language, metafunction_name(form))?;
    let read = read_over(alloc, known, language, form);
    unless(refusal, read)
}
