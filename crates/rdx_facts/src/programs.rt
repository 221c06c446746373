// Programs whose languages keep what is known of them.
ghost use Rattle.std.specs.Prelude.{◌≡◌, map, IfOk};
ghost use Rattle.rdx_lang.specs.Checked.{language_in};
ghost use Rattle.rdx_lang.specs.ProgramView.{program_of};

use crate::knowing::facts_of;
use rdx_lang::{CheckedLang, Program};
use rdx_term::NoMemory;
use std::alloc::Global;

// The language, which keeps what is found of it.
fn known_language(alloc: Global, language: CheckedLang) -> Result<CheckedLang, NoMemory>
    ensures { IfOk result (λ l. language_in l ≡ language_in language) }
{
    match facts_of(alloc, language.language())? {
        Some(facts) => Ok(language.know(facts)),
        None => Ok(language),
    }
}

// The languages, each of which keeps what is found of it.
fn known_languages(alloc: Global, languages: Vec<CheckedLang>) -> Result<Vec<CheckedLang>, NoMemory>
    ensures { IfOk result (λ v. map language_in v.items ≡ map language_in languages.items) }
{
    let mut known = Vec::with_capacity(alloc, languages.len())?;
    for language in languages {
        known.push(known_language(alloc, language)?)?;
    }
    Ok(known)
}

/// The same program; its languages keep what is found of them.
pub fn with_facts(alloc: Global, program: Program) -> Result<Program, NoMemory>
    ensures { IfOk result (λ p. program_of p ≡ program_of program) }
{
    Ok(Program {
        languages: known_languages(alloc, program.languages)?,
        metafunctions: program.metafunctions,
        judgements: program.judgements,
        relations: program.relations,
    })
}
