// Names: those that symbols are, and those of the nonterminals that a reading knows.
ghost use Rattle.std.specs.Prelude.{◌≡◌, IfOk, IsTrue};
ghost use Rattle.rdx_term.specs.Spelling.{is_name};
ghost use Rattle.rdx_patterns.specs.Parts.{text_of};

use crate::patterns::nonterminals::language_names;
use crate::shape::symbol;
use rdx_lang::CheckedLang;
use rdx_sexp::Datum;
use rdx_term::{Name, NoMemory};
use std::alloc::Global;
use std::collections::BTreeMap;
use std::marker::Model;

/// The name that a symbol is.
pub fn symbol_name(d: &Datum) -> Result<Name, NoMemory>
    requires { IsTrue (is_name (text_of d.now)) }
    ensures { IfOk result (λ name. name ≡ text_of d.now) }
{
    let Some(text) = symbol(d) else {
        unreachable!()
    };
    match Name::new(text.clone()?) {
        Some(name) => Ok(name),
        None => unreachable!(),
    }
}

/// The names of nonterminals, which are found by their texts. In contracts they are the list.
#[derive(Drop)]
pub struct Names {
    all: Vec<Name>,
    by_text: BTreeMap<String, Name>,
}

impl Model for Names {
    ghost use Rattle.std.specs.Prelude.{List, ℕ};
    ghost use Rattle.rdx_patterns.specs.Model.Finding.{FindsAll};

    ghost Value = { List (List ℕ) };

    ghost view = { λ a. a.all.items };

    ghost invariant = { λ a. FindsAll a.all.items a.by_text };
}

impl Names {
    ghost use Rattle.std.specs.Prelude.{option_map};
    ghost use Rattle.std.specs.Bool.{then_some};
    ghost use Rattle.rdx_lang.specs.Checked.{language_in};
    ghost use Rattle.rdx_patterns.specs.Kinds.{is_among};
    ghost use Rattle.rdx_patterns.specs.Nonterminals.{names_of};

    /// These names.
    pub fn new(alloc: Global, all: Vec<Name>) -> Result<Names, NoMemory>
        ensures { IfOk result (λ names. names ≡ all.items) }
    {
        let mut by_text = BTreeMap::new(alloc);
        for name in &all {
            let text = String::from_str(alloc, name.text())?;
            by_text.insert(text, name.share()?)?;
        }
        Ok(Names { all, by_text })
    }

    /// The names of a language's nonterminals.
    pub fn of_language(alloc: Global, language: &CheckedLang) -> Result<Names, NoMemory>
        ensures { IfOk result (λ names. names ≡ names_of (language_in language.now)) }
    {
        Names::new(alloc, language_names(alloc, language)?)
    }

    /// The name with this text, where it is one of them.
    pub fn find(&self, text: &str) -> Option<&Name>
        ensures { option_map (λ n. n.now) result
            ≡ then_some (is_among self.now text.now) text.now }
    {
        self.by_text.get(text)
    }
}
