// What is known before the first form of a file, and what is added to it by what a form defines.
ghost use Rattle.std.specs.Prelude.{◌≡◌, IfOk, OnOk};
ghost use Rattle.rdx_forms.specs.Before.{known_before};
ghost use Rattle.rdx_forms.specs.Fitting.{AreReadable};
ghost use Rattle.rdx_forms.specs.KnownView.{known_of};
ghost use Rattle.rdx_lang.specs.Checked.{language_in};
ghost use Rattle.rdx_lang.specs.ProgramView.{judgement_of, metafunction_of, relation_of};
ghost use Rattle.rdx_forms.specs.Definitions as defined;
ghost use Rattle.rdx_forms.specs.Known.{with_definition};

use crate::binding_forms::file_forms;
use crate::ends::file_ends;
use crate::known::Known;
use crate::tables::{Tables, add_text, make_room};
use rdx_defs::{judgement_languages, scope_of};
use rdx_lang::{CheckedLang, Judgement, Metafunction, Program, Relation};
use rdx_patterns::{Names, add_crosses_for};
use rdx_sexp::Datum;
use rdx_term::NoMemory;
use std::alloc::Global;

/// What is known before the first of these forms.
pub fn nothing_known(alloc: Global, forms: &[Datum]) -> Result<Known, NoMemory>
    requires { AreReadable forms.now }
    ensures { IfOk result (λ known. known_of known ≡ known_before forms.now) }
{
    let scope = scope_of(alloc, forms)?;
    let languages = judgement_languages(alloc, forms)?;
    let tables = Tables::new(alloc, &languages)?;
    let ends = file_ends(alloc, forms)?;
    let bound = file_forms(alloc, forms)?;
    let program = Program {
        languages: Vec::new(alloc),
        metafunctions: Vec::new(alloc),
        judgements: Vec::new(alloc),
        relations: Vec::new(alloc),
    };
    Ok(Known {
        scope,
        languages,
        ends,
        program,
        forms: bound,
        tables,
    })
}

/// Adds the language, with the cross nonterminals for which the file asks.
pub fn add_language(
    alloc: Global,
    known: &mut Known,
    mut language: CheckedLang,
) -> Result<(), NoMemory>
    ensures added { OnOk result (known_of known.new
        ≡ with_definition (known_of known.old) (defined.language (language_in language))) }
{
    add_crosses_for(alloc, &mut language, &known.ends)?;
    let names = Names::of_language(alloc, &language)?;
    known.program.languages.reserve(1)?;
    known.tables.nonterminals.reserve(1)?;
    let place = known.program.languages.len();
    add_text(
        alloc,
        &mut known.tables.languages,
        language.language().name.text(),
        place,
    )?;
    known.tables.nonterminals.push_reserved(names);
    known.program.languages.push_reserved(language);
    Ok(())
}

/// Adds the metafunction.
pub fn add_metafunction(
    alloc: Global,
    known: &mut Known,
    metafunction: Metafunction,
) -> Result<(), NoMemory>
    ensures added { OnOk result (known_of known.new
        ≡ with_definition (known_of known.old) (defined.metafunction (metafunction_of metafunction))) }
{
    make_room(
        alloc,
        &mut known.program.metafunctions,
        &mut known.tables.metafunctions,
        metafunction.name.text(),
    )?;
    known.program.metafunctions.push_reserved(metafunction);
    Ok(())
}

/// Adds the judgement.
pub fn add_judgement(alloc: Global, known: &mut Known, judgement: Judgement) -> Result<(), NoMemory>
    ensures added { OnOk result (known_of known.new
        ≡ with_definition (known_of known.old) (defined.judgement (judgement_of judgement))) }
{
    make_room(
        alloc,
        &mut known.program.judgements,
        &mut known.tables.judgements,
        judgement.name.text(),
    )?;
    known.program.judgements.push_reserved(judgement);
    Ok(())
}

/// Adds the relation.
pub fn add_relation(alloc: Global, known: &mut Known, relation: Relation) -> Result<(), NoMemory>
    ensures added { OnOk result (known_of known.new
        ≡ with_definition (known_of known.old) (defined.relation (relation_of relation))) }
{
    make_room(
        alloc,
        &mut known.program.relations,
        &mut known.tables.relations,
        relation.name.text(),
    )?;
    known.program.relations.push_reserved(relation);
    Ok(())
}
