// Forms that define a relation by cases, and the names of relations.
ghost use Rattle.std.specs.Prelude.{◌≡◌, [], ◌∷◌, Some, true, false, IfOk, IsTrue, option_map};
ghost use Rattle.rdx_lang.specs.Closures.{has_well_formed_patterns};
ghost use Rattle.rdx_lang.specs.Patterns.{Language};
ghost use Rattle.rdx_lang.specs.ProgramView.{relation_of};
ghost use Rattle.rdx_relations.specs.Answers.{ReadsRelation};
ghost use Rattle.rdx_relations.specs.RelationEnds.{relation_ends};
ghost use Rattle.rdx_templates.specs.Scope.{scope_of};
ghost use Rattle.rdx_patterns.specs.Names as names;
ghost use Rattle.rdx_patterns.specs.Nonterminals.{names_of};
ghost use Rattle.rdx_patterns.specs.Parts.{is_symbol, text_of};
ghost use Rattle.rdx_patterns.specs.Readable.{IsReadable};
ghost use Rattle.rdx_patterns.specs.Refusal.{first_refusal, refusal_of};
ghost use Rattle.rdx_sexp.specs.Size.{IsSpelledSexp};
ghost use Rattle.rdx_patterns.specs.Among.{AreAmong};
ghost use Rattle.rdx_forms.specs.Fitting.{AreCrossed, IsRelationOf, language_at};
ghost use Rattle.rdx_forms.specs.Inside.Defining.{RelatesOver};
ghost use Rattle.rdx_forms.specs.LanguageForms.{name_taken_at, named_base, unknown_at};
ghost use Rattle.rdx_forms.specs.RelationForms.{bad_relation_at};
ghost use Rattle.rdx_forms.specs.KnownView.{known_of};

use crate::earlier::unless;
use crate::known::Known;
use crate::language_forms::{empty_language, some_name};
use crate::lookup::{is_taken, place_of};
use crate::parts::language_item;
use crate::refusals::refuse_language;
use rdx_lang::Relation;
use rdx_patterns::names::is_bad_name;
use rdx_patterns::refusal::named;
use rdx_patterns::shape::text;
use rdx_patterns::{DefFault, DefKind, DefRefusal};
use rdx_relations::{read_relation, read_relation_over};
use rdx_sexp::Datum;
use rdx_term::{Name, NoMemory};
use std::alloc::Global;
use std::rc::RcStr;

/// The name of a symbol, or some name where no relation may have it.
pub(crate) fn name_of(alloc: Global, d: &Datum) -> Result<Name, NoMemory>
    requires spelled { IsSpelledSexp d.now }
    requires symbol { is_symbol d.now ≡ true }
    ensures { IfOk result (λ name. names.is_bad_name (text_of d.now) ≡ false → name ≡ text_of d.now) }
{
    match Name::new(RcStr::from_str(alloc, text(d))?) {
        Some(name) => Ok(name),
        None => some_name(alloc),
    }
}

/// The refusal of the name of a relation: an earlier form has it, S3, or it may not be one, S4.
pub(crate) fn refuse_name(
    alloc: Global,
    known: &Known,
    name: &Datum,
) -> Result<Option<DefRefusal>, NoMemory>
    ensures { IfOk result (λ r. option_map refusal_of r ≡ first_refusal
        (name_taken_at (known_of known.now) name.now ∷ bad_relation_at name.now ∷ [])) }
{
    if is_taken(known, text(name)) {
        return Ok(Some(named(alloc, DefKind::Duplicate, name)?));
    }
    if is_bad_name(text(name)) {
        return Ok(Some(named(alloc, DefKind::BadName, name)?));
    }
    Ok(None)
}

// The refusal of the names in a form, of the language's first.
fn refuse_names(
    alloc: Global,
    known: &Known,
    language: Option<&Datum>,
    name: &Datum,
) -> Result<Option<DefRefusal>, NoMemory>
    ensures { IfOk result (λ r. option_map refusal_of r ≡ first_refusal
        (unknown_at (known_of known.now) (option_map (λ d. d.now) language.entry)
        ∷ name_taken_at (known_of known.now) name.now ∷ bad_relation_at name.now ∷ [])) }
{
    match refuse_language(alloc, known, language)? {
        Some(refusal) => Ok(Some(refusal)),
        None => refuse_name(alloc, known, name),
    }
}

// The relation of a list over the language of this name; over an empty one, where that is unknown.
fn read_over(
    alloc: Global,
    known: &mut Known,
    language: Option<&Datum>,
    name: &Name,
    body: &Datum,
) -> Result<Relation, DefFault>
    requires readable { IsReadable body.now }
    requires crossed { AreCrossed (known_of known.old).program.languages
        (known_of known.old).ends }
    requires ends { AreAmong (relation_ends body.now) (known_of known.old).ends }
    ensures reads { ReadsRelation (scope_of known.old.scope)
        (names_of (named_base (known_of known.old) (option_map (λ d. d.now) language.entry)))
        name.now body.now result }
    ensures fits { IfOk result (λ r. (L : Language)
        → language_at (known_of known.old) (option_map (λ d. d.now) language.entry) ≡ Some L
        → IsTrue (has_well_formed_patterns L (relation_of r))) }
    ensures same { known_of known.new ≡ known_of known.old }
{
    match place_of(known, language) {
        Some(place) => {
            let language = &mut known.program.languages[place];
            let names = &known.tables.nonterminals[place];
            read_relation_over(alloc, &known.scope, language, names, name, body)
        }
        None => read_relation(alloc, &known.scope, &mut empty_language(alloc)?, name, body),
    }
}

/// The relation of this name by the cases of a list, where nothing stands behind it in the form.
pub(crate) fn define_by_cases(
    alloc: Global,
    known: &mut Known,
    name: &Datum,
    body: &Datum,
) -> Result<Relation, DefFault>
    requires spelled { IsSpelledSexp name.now }
    requires symbol { is_symbol name.now ≡ true }
    requires body { IsReadable body.now }
    requires crossed { AreCrossed (known_of known.old).program.languages
        (known_of known.old).ends }
    requires ends { AreAmong (relation_ends body.now) (known_of known.old).ends }
    ensures relates { RelatesOver (known_of known.old) name.now body.now result }
    ensures fits { IfOk result (λ r. IsRelationOf (known_of known.old).program (relation_of r)) }
    ensures same { known_of known.new ≡ known_of known.old }
{
    let language = language_item(body);
    let refusal = refuse_names(alloc, known, language, name)?;
    let relation = name_of(alloc, name)?;
    let read = read_over(alloc, known, language, &relation, body);
    unless(refusal, read)
}
