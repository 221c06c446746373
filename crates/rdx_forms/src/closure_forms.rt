// Forms that define a relation as a closure of another one.
ghost use Rattle.std.specs.Prelude.{◌≡◌, ◌<◌, ◌∷◌, [], None, Some, true, IfOk, IsTrue, get_or, length, option_map};
ghost use Rattle.rdx_lang.specs.declared.checked.CheckedLang.{CheckedLang};
ghost use Rattle.std.specs.Bool.{then_some};
ghost use Rattle.rdx_lang.specs.Checked.{language_in, pattern_in};
ghost use Rattle.rdx_patterns.specs.Kinds.{is_among};
ghost use Rattle.rdx_lang.specs.Patterns.{Language};
ghost use Rattle.rdx_lang.specs.Programs.{language_named};
ghost use Rattle.rdx_lang.specs.ProgramView.{relation_of};
ghost use Rattle.rdx_lang.specs.WellFormed.{is_well_formed_in};
ghost use Rattle.rdx_patterns.specs.Answers.{ReadsPattern};
ghost use Rattle.rdx_patterns.specs.Nonterminals.{names_of};
ghost use Rattle.rdx_patterns.specs.Parts.{is_symbol, text_of};
ghost use Rattle.rdx_patterns.specs.Ends.{ends_in};
ghost use Rattle.rdx_patterns.specs.Among.{AreAmong};
ghost use Rattle.rdx_patterns.specs.Readable.{IsReadable};
ghost use Rattle.rdx_patterns.specs.Refusal.{first_refusal, refusal_of};
ghost use Rattle.rdx_sexp.specs.Size.{IsSpelledSexp};
ghost use Rattle.rdx_forms.specs.ClosureForms.{closure_language_at, closure_names, no_nonterminal_at, other_language_by, unknown_closed_at};
ghost use Rattle.rdx_forms.specs.Ends.{kind_ends};
ghost use Rattle.rdx_forms.specs.DefineParts.{by_crosses};
ghost use Rattle.rdx_forms.specs.LanguageForms.{name_taken_at, named_base};
ghost use Rattle.rdx_forms.specs.RelationForms.{bad_relation_at};
ghost use Rattle.rdx_forms.specs.Inside.Closing.{ClosesByContexts, ClosesByCrosses, closure_names_refusal, compatible_parts_refusal};
ghost use Rattle.rdx_forms.specs.Fitting.{AreCrossed, IsFitting, IsRelationOf};
ghost use Rattle.rdx_forms.specs.KnownView.{known_of};
ghost use Rattle.rdx_forms.specs.Inside.PartViews.{closure_of};

use crate::earlier::first_fault;
use crate::known::Known;
use crate::language_forms::empty_language;
use crate::lookup::{place_named, relation_named};
use crate::parts::{ClosureParts, closure_parts};
use crate::refusals::refuse_language;
use crate::relation_forms::{name_of, refuse_name};
use rdx_lang::{CheckedLang, CheckedPat, Relation};
use rdx_patterns::refusal::{named, unnamed};
use rdx_patterns::shape::{is_symbol, text};
use rdx_patterns::{DefFault, DefKind, DefRefusal, read_pattern, read_pattern_over};
use rdx_reduce::{compatible_closure, context_closure};
use rdx_sexp::Datum;
use rdx_term::{Name, NoMemory};
use std::alloc::Global;

// ---- the names

// The refusal of a language that is not that of the relation, where this is known, S2.
fn refuse_other_language(
    alloc: Global,
    relation: Option<&Relation>,
    language: &Datum,
) -> Result<Option<DefRefusal>, NoMemory>
    ensures { IfOk result (λ r. option_map refusal_of r
        ≡ other_language_by (option_map (λ m. relation_of m.now) relation.entry) language.now) }
{
    match relation {
        Some(relation) if relation.language.text() != text(language) => {
            Ok(Some(named(alloc, DefKind::UnknownLanguage, language)?))
        }
        Some(_) | None => Ok(None),
    }
}

// The refusal of the names in the form: of the language, S2, and of the relation that it defines,
// S3 and S4.
fn refuse_names(
    alloc: Global,
    known: &Known,
    name: &Datum,
    closure: ClosureParts,
) -> Result<Option<DefRefusal>, NoMemory>
    ensures { IfOk result (λ r. option_map refusal_of r
        ≡ closure_names_refusal (known_of known.now) name.now (closure_of closure.entry)) }
{
    let unknown = refuse_language(alloc, known, Some(closure.language))?;
    if unknown.is_some() {
        return Ok(unknown);
    }
    let relation = relation_named(known, text(closure.relation));
    let other = refuse_other_language(alloc, relation, closure.language)?;
    if other.is_some() {
        return Ok(other);
    }
    refuse_name(alloc, known, name)
}

// The refusal of a relation that is not known, S8.
fn refuse_unknown(
    alloc: Global,
    known: &Known,
    closure: ClosureParts,
) -> Result<Option<DefRefusal>, NoMemory>
    ensures { IfOk result (λ r. option_map refusal_of r
        ≡ unknown_closed_at (known_of known.now) (closure_of closure.entry)) }
{
    if relation_named(known, text(closure.relation)).is_some() {
        Ok(None)
    } else {
        Ok(Some(named(alloc, DefKind::UnknownName, closure.relation)?))
    }
}

// ---- closures by contexts that a pattern matches

// The pattern of a datum over the language of this name; over an empty one, where that is unknown.
fn read_over(
    alloc: Global,
    known: &mut Known,
    language: &Datum,
    d: &Datum,
) -> Result<CheckedPat, DefFault>
    requires readable { IsReadable d.now }
    requires crossed { AreCrossed (known_of known.old).program.languages
        (known_of known.old).ends }
    requires ends { AreAmong (ends_in d.now) (known_of known.old).ends }
    ensures reads { ReadsPattern (names_of (named_base (known_of known.old) (Some language.now)))
        d.now result }
    ensures well_formed { IfOk result (λ p. (L : Language)
        → language_named (known_of known.old).program (text_of language.now) ≡ Some L
        → IsTrue (is_well_formed_in L (pattern_in p))) }
    ensures same { known_of known.new ≡ known_of known.old }
{
    match place_named(known, text(language)) {
        Some(place) => {
            let language = &mut known.program.languages[place];
            read_pattern_over(alloc, language, &known.tables.nonterminals[place], d)
        }
        None => read_pattern(alloc, &mut empty_language(alloc)?, d),
    }
}

// The refusal of the names in the form, and of the relation that is closed.
fn refuse_contexts(
    alloc: Global,
    known: &Known,
    name: &Datum,
    closure: ClosureParts,
) -> Result<Option<DefRefusal>, NoMemory>
    ensures { IfOk result (λ r. option_map refusal_of r ≡ first_refusal
        (closure_language_at (known_of known.now) (closure_of closure.entry)
        ∷ name_taken_at (known_of known.now) name.now ∷ bad_relation_at name.now
        ∷ unknown_closed_at (known_of known.now) (closure_of closure.entry) ∷ [])) }
{
    match refuse_names(alloc, known, name, closure)? {
        Some(refusal) => Ok(Some(refusal)),
        None => refuse_unknown(alloc, known, closure),
    }
}

/// The relation of this name by the contexts that a pattern matches, as a list says, where nothing
/// stands behind it in the form.
pub(crate) fn define_by_contexts(
    alloc: Global,
    known: &mut Known,
    name: &Datum,
    body: &Datum,
) -> Result<Relation, DefFault>
    requires spelled { IsSpelledSexp name.now }
    requires symbol { is_symbol name.now ≡ true }
    requires body { IsReadable body.now }
    requires fitting { IsFitting (known_of known.old) }
    requires ends { AreAmong (ends_in body.now) (known_of known.old).ends }
    ensures closes { ClosesByContexts (known_of known.old) name.now body.now result }
    ensures fits { IfOk result (λ r. IsRelationOf (known_of known.old).program (relation_of r)) }
    ensures same { known_of known.new ≡ known_of known.old }
{
    let Some(closure) = closure_parts(body) else {
        return Err(DefFault::Refused(unnamed(DefKind::Shape, body)));
    };
    let refusal = refuse_contexts(alloc, known, name, closure)?;
    let read = read_over(alloc, known, closure.language, closure.by);
    if let Some(refusal) = refusal {
        return Err(first_fault(refusal, read));
    }
    let by = read?;
    let name = name_of(alloc, name)?;
    let Some(place) = place_named(known, text(closure.language)) else {
        unreachable!()
    };
    let Some(relation) = relation_named(known, text(closure.relation)) else {
        unreachable!()
    };
    let language = &known.program.languages[place];
    Ok(context_closure(alloc, relation, &name, language, &by)?)
}

// ---- closures by the contexts of a nonterminal in itself

// The nonterminal of this name, where the language at this place has one.
fn nonterminal(known: &Known, place: usize, name: &str) -> Result<Option<Name>, NoMemory>
    requires { place < length known.now.program.languages.items }
    ensures { IfOk result (λ found. (l : CheckedLang)
        → l ≡ get_or known.now.program.languages.items place l
        → found ≡ then_some (is_among (names_of (language_in l)) name.now) name.now) }
{
    match known.tables.nonterminals[place].find(name) {
        Some(found) => Ok(Some(found.share()?)),
        None => Ok(None),
    }
}

// The refusal of a symbol that is no nonterminal of the language, S5.
fn refuse_nonterminal(known: &Known, closure: ClosureParts) -> Result<Option<DefRefusal>, NoMemory>
    ensures { IfOk result (λ r. option_map refusal_of r
        ≡ no_nonterminal_at (closure_names (known_of known.now) (closure_of closure.entry))
        closure.entry.by.now) }
{
    let Some(place) = place_named(known, text(closure.language)) else {
        return Ok(Some(unnamed(DefKind::BadPattern, closure.by)));
    };
    let Some(_) = nonterminal(known, place, text(closure.by))? else {
        return Ok(Some(unnamed(DefKind::BadPattern, closure.by)));
    };
    Ok(None)
}

// The refusal of the nonterminal, and of the relation that is closed.
fn refuse_closed(
    alloc: Global,
    known: &Known,
    closure: ClosureParts,
) -> Result<Option<DefRefusal>, NoMemory>
    ensures { IfOk result (λ r. option_map refusal_of r ≡ first_refusal
        (no_nonterminal_at (closure_names (known_of known.now) (closure_of closure.entry))
        closure.entry.by.now
        ∷ unknown_closed_at (known_of known.now) (closure_of closure.entry) ∷ [])) }
{
    match refuse_nonterminal(known, closure)? {
        Some(refusal) => Ok(Some(refusal)),
        None => refuse_unknown(alloc, known, closure),
    }
}

// The refusal of the names in the form, of the nonterminal, and of the relation that is closed.
fn refuse_crosses(
    alloc: Global,
    known: &Known,
    name: &Datum,
    closure: ClosureParts,
) -> Result<Option<DefRefusal>, NoMemory>
    ensures { IfOk result (λ r. option_map refusal_of r
        ≡ compatible_parts_refusal (known_of known.now) name.now (closure_of closure.entry)) }
{
    match refuse_names(alloc, known, name, closure)? {
        Some(refusal) => Ok(Some(refusal)),
        None => refuse_closed(alloc, known, closure),
    }
}

/// The relation of this name by the contexts of a nonterminal in itself, as a list says, where
/// nothing stands behind it in the form.
pub(crate) fn define_by_crosses(
    alloc: Global,
    known: &Known,
    name: &Datum,
    body: &Datum,
) -> Result<Relation, DefFault>
    requires spelled { IsSpelledSexp name.now }
    requires symbol { is_symbol name.now ≡ true }
    requires body { IsReadable body.now }
    requires fitting { IsFitting (known_of known.now) }
    requires ends { AreAmong (kind_ends by_crosses body.now) (known_of known.now).ends }
    ensures closes { ClosesByCrosses (known_of known.now) name.now body.now result }
    ensures fits { IfOk result (λ r. IsRelationOf (known_of known.now).program (relation_of r)) }
{
    let Some(closure) = closure_parts(body) else {
        return Err(DefFault::Refused(unnamed(DefKind::Shape, body)));
    };
    if !is_symbol(closure.by) {
        return Err(DefFault::Refused(unnamed(DefKind::Shape, body)));
    }
    if let Some(refusal) = refuse_crosses(alloc, known, name, closure)? {
        return Err(DefFault::Refused(refusal));
    }
    let Some(place) = place_named(known, text(closure.language)) else {
        unreachable!()
    };
    let Some(relation) = relation_named(known, text(closure.relation)) else {
        unreachable!()
    };
    let language = &known.program.languages[place];
    let Some(end) = nonterminal(known, place, text(closure.by))? else {
        unreachable!()
    };
    let name = name_of(alloc, name)?;
    Ok(compatible_closure(alloc, relation, &name, language, &end)?)
}
