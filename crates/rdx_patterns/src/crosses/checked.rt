// Checked languages with cross nonterminals.
ghost use Rattle.std.specs.Prelude.{◌≡◌, [], ◌∷◌, IsTrue, IfOk, OnOk, OnErr, map};
ghost use Rattle.rdx_lang.specs.Checked.{language_in, pattern_in};
ghost use Rattle.rdx_lang.specs.Crosses as model;
ghost use Rattle.rdx_lang.specs.Edges.{IsFree};
ghost use Rattle.rdx_lang.specs.PatternView.{definition_of, pattern_of};
ghost use Rattle.rdx_lang.specs.WellFormed.{is_well_formed_in, IsWellFormed};
ghost use Rattle.rdx_patterns.specs.Ends.{crossed_for};
ghost use Rattle.rdx_patterns.specs.Inside.CrossesTo.{with_definitions};

use crate::crosses::adding::new_crosses;
use crate::patterns::{Names, known_ends};
use rdx_lang::laws::{crosses_stay, ranks_fall};
use rdx_lang::{CheckedLang, CheckedPat, Language, Pat, Ranks, Ref};
use rdx_leftrec::LeftRec;
use rdx_term::{Name, NoMemory};
use std::alloc::Global;
use std::mem;

// A checked language without nonterminals.
fn without_nonterminals(alloc: Global, name: Name) -> CheckedLang {
    let nts = Vec::new(alloc);
    let of = Vec::new(alloc);
    CheckedLang::new(Language { name, nts }, Ranks { of })
}

// The language with these definitions behind its own and with ranks for all. Where there is no
// memory, it is the one that was given.
fn with_added(
    alloc: Global,
    language: CheckedLang,
    mut added: Vec<(Ref, Vec<Pat>)>,
) -> (CheckedLang, Result<(), NoMemory>)
    requires well_formed { IsWellFormed
        (with_definitions (language_in language) (map definition_of added.items)) }
    requires free { IsFree
        (with_definitions (language_in language) (map definition_of added.items)) }
    ensures added { OnOk result.1 (language_in result.0
        ≡ with_definitions (language_in language) (map definition_of added.items)) }
    ensures same { OnErr result.1 (language_in result.0 ≡ language_in language) }
{
    let (mut whole, ranks) = language.into_parts();
    let count = whole.nts.len();
    if whole.nts.append(&mut added).is_err() {
        return (CheckedLang::new(whole, ranks), Err(NoMemory));
    }
    match rdx_leftrec::check(alloc, &whole) {
        Ok(new) => (CheckedLang::new(whole, new), Ok(())),
        Err(LeftRec::NoMemory) => {
            whole.nts.truncate(count);
            (CheckedLang::new(whole, ranks), Err(NoMemory))
        }
        Err(LeftRec::LeftRecursive(_)) => unreachable!(),
    }
}

/// Gives the language all cross nonterminals to each of these. Those that it lacks come behind all
/// others. Where there is no memory, it stays.
pub fn add_crosses_of(
    alloc: Global,
    language: &mut CheckedLang,
    ends: &[Name],
) -> Result<(), NoMemory>
    ensures added { OnOk result
        (language_in language.new ≡ model.with_crosses_to (language_in language.old) ends.now) }
    ensures same { OnErr result (language_in language.new ≡ language_in language.old) }
{
    ranks_fall();
    crosses_stay();
    if ends.is_empty() {
        return Ok(());
    }
    let added = new_crosses(alloc, language.language(), ends)?;
    if added.is_empty() {
        return Ok(());
    }
    let nothing = without_nonterminals(alloc, language.language().name.share()?);
    let old = mem::replace(language, nothing);
    let (new, result) = with_added(alloc, old, added);
    *language = new;
    result
}

/// Gives the language all cross nonterminals to each of these; the pattern is well formed in it then.
/// Where there is no memory, the language stays.
pub(crate) fn known_with_crosses(
    alloc: Global,
    language: &mut CheckedLang,
    ends: &[Name],
    pat: Pat,
) -> Result<CheckedPat, NoMemory>
    requires { IsTrue (is_well_formed_in
        (model.with_crosses_to (language_in language.now) ends.now) (pattern_of pat)) }
    ensures added { OnOk result
        (language_in language.new ≡ model.with_crosses_to (language_in language.old) ends.now) }
    ensures same { OnErr result (language_in language.new ≡ language_in language.old) }
    ensures pattern { IfOk result (λ c. pattern_in c ≡ pattern_of pat) }
{
    add_crosses_of(alloc, language, ends)?;
    Ok(CheckedPat::known(language, pat))
}

// The one name once more.
fn alone(alloc: Global, name: &Name) -> Result<Vec<Name>, NoMemory>
    ensures { IfOk result (λ names. names.items ≡ name.now ∷ []) }
{
    let mut names = Vec::new(alloc);
    names.push(name.share()?)?;
    Ok(names)
}

/// Gives the language all cross nonterminals to this one. Those that it lacks come behind all
/// others. Where there is no memory, it stays.
pub fn cross_of(alloc: Global, language: &mut CheckedLang, to: &Name) -> Result<(), NoMemory>
    ensures added { OnOk result
        (language_in language.new ≡ model.with_crosses (language_in language.old) to.now) }
    ensures same { OnErr result (language_in language.new ≡ language_in language.old) }
{
    let ends = alone(alloc, to)?;
    add_crosses_of(alloc, language, &ends)
}

/// Gives the language all cross nonterminals to those of these that are nonterminals of it. Where
/// there is no memory, it stays.
pub fn add_crosses_for(
    alloc: Global,
    language: &mut CheckedLang,
    ends: &[Name],
) -> Result<(), NoMemory>
    ensures added { OnOk result
        (language_in language.new ≡ crossed_for ends.now (language_in language.old)) }
    ensures same { OnErr result (language_in language.new ≡ language_in language.old) }
{
    if ends.is_empty() {
        return Ok(());
    }
    let names = Names::of_language(alloc, language)?;
    let known = known_ends(alloc, &names, ends)?;
    add_crosses_of(alloc, language, &known)
}
