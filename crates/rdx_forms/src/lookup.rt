// What is known, looked up by name.
ghost use Rattle.std.specs.Prelude.{◌≡◌, ◌<◌, [], length, get_or, option_map, Some, None, is_some, IfSome, IfNone};
ghost use Rattle.rdx_lang.specs.Checked.{language_in};
ghost use Rattle.rdx_lang.specs.declared.checked.CheckedLang.{CheckedLang};
ghost use Rattle.rdx_lang.specs.ProgramView.{program_of, relation_of};
ghost use Rattle.rdx_lang.specs.Programs.{judgement_named, language_named, metafunction_named, relation_named};
ghost use Rattle.rdx_patterns.specs.Nonterminals.{names_of};
ghost use Rattle.rdx_forms.specs.Known as model;
ghost use Rattle.rdx_forms.specs.Known.{is_taken};
ghost use Rattle.rdx_forms.specs.LanguageForms.{named_base};
ghost use Rattle.rdx_forms.specs.Fitting.{language_at};
ghost use Rattle.rdx_forms.specs.KnownView.{known_of};

use crate::known::Known;
use rdx_lang::Relation;
use rdx_patterns::shape::text;
use rdx_sexp::Datum;

/// The place of the language of this name.
pub(crate) fn place_named(known: &Known, name: &str) -> Option<usize>
    ensures within { IfSome result (λ i. i < length known.now.program.languages.items) }
    ensures some { IfSome result (λ i. (l : CheckedLang)
        → l ≡ get_or known.now.program.languages.items i l
        → language_named (program_of known.now.program) name.now ≡ Some (language_in l)) }
    ensures known { is_some result
        ≡ is_some (language_named (program_of known.now.program) name.now) }
    ensures none { IfNone result
        (language_named (program_of known.now.program) name.now ≡ None) }
{
    known.tables.languages.get(name).copied()
}

/// The place of the language that a form names, where it names one that is known.
pub(crate) fn place_of(known: &Known, language: Option<&Datum>) -> Option<usize>
    ensures within { IfSome result (λ i. i < length known.now.program.languages.items) }
    ensures some { IfSome result (λ i. (l : CheckedLang)
        → l ≡ get_or known.now.program.languages.items i l
        → names_of (named_base (known_of known.now) (option_map (λ d. d.now) language.entry))
        ≡ names_of (language_in l)) }
    ensures found { IfSome result (λ i. (l : CheckedLang)
        → l ≡ get_or known.now.program.languages.items i l
        → language_at (known_of known.now) (option_map (λ d. d.now) language.entry)
        ≡ Some (language_in l)) }
    ensures missing { IfNone result
        (language_at (known_of known.now) (option_map (λ d. d.now) language.entry) ≡ None) }
    ensures none { IfNone result
        (names_of (named_base (known_of known.now) (option_map (λ d. d.now) language.entry)) ≡ []) }
{
    place_named(known, text(language?))
}

/// The name of the language of the judgement of this name, where the file has one.
pub(crate) fn judgement_language<'a>(known: &'a Known, name: &str) -> Option<&'a str>
    ensures { option_map (λ x. x.now) result
        ≡ model.judgement_language (known_of known.now) name.now }
{
    match known.tables.asked.get(name).copied() {
        Some(place) => Some(known.languages[place].1.as_str()),
        None => None,
    }
}

/// The relation of this name.
pub(crate) fn relation_named<'a>(known: &'a Known, name: &str) -> Option<&'a Relation>
    ensures { option_map (λ r. relation_of r.now) result
        ≡ relation_named (program_of known.now.program) name.now }
{
    match known.tables.relations.get(name).copied() {
        Some(place) => Some(&known.program.relations[place]),
        None => None,
    }
}

// Whether a metafunction has this name.
fn is_function(known: &Known, name: &str) -> bool
    ensures { result ≡ is_some (metafunction_named (program_of known.now.program) name.now) }
{
    known.tables.metafunctions.contains_key(name)
}

// Whether a judgement has this name.
fn is_judgement(known: &Known, name: &str) -> bool
    ensures { result ≡ is_some (judgement_named (program_of known.now.program) name.now) }
{
    known.tables.judgements.contains_key(name)
}

/// Whether a language, a metafunction, a judgement or a relation has this name.
pub(crate) fn is_taken(known: &Known, name: &str) -> bool
    ensures { result ≡ is_taken (known_of known.now) name.now }
{
    place_named(known, name).is_some()
        || is_function(known, name)
        || is_judgement(known, name)
        || relation_named(known, name).is_some()
}
