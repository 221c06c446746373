// The names of a language's nonterminals.
ghost use Rattle.std.specs.Prelude.{◌≡◌, ◌++◌, IfOk, OnOk};
ghost use Rattle.rdx_lang.specs.Checked.{language_in};
ghost use Rattle.rdx_patterns.specs.Nonterminals.{ref_names, names_of, called};

use rdx_lang::{CheckedLang, Ref};
use rdx_term::{Name, NoMemory};
use std::alloc::Global;

/// What a nonterminal is called in a refusal.
pub fn called(nonterminal: &Ref) -> &Name
    ensures { result.now ≡ called nonterminal.now }
{
    match nonterminal {
        Ref::Nt(name) | Ref::Cross(name, _) => name,
    }
}

// Puts the name by which patterns name a nonterminal, where there is one, behind those that are there.
fn add_name(nonterminal: &Ref, out: &mut Vec<Name>) -> Result<(), NoMemory>
    ensures { OnOk result (out.new.items ≡ out.old.items ++ ref_names nonterminal.now) }
{
    match nonterminal {
        Ref::Nt(name) => Ok(out.push(name.share()?)?),
        Ref::Cross(_, _) => Ok(()),
    }
}

/// The names of a language's nonterminals.
pub fn language_names(alloc: Global, language: &CheckedLang) -> Result<Vec<Name>, NoMemory>
    ensures { IfOk result (λ names. names.items ≡ names_of (language_in language.now)) }
{
    let mut names = Vec::new(alloc);
    for (nonterminal, _) in &language.language().nts {
        add_name(nonterminal, &mut names)?;
    }
    Ok(names)
}
