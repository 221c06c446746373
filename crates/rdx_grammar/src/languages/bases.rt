// The language that a form extends.
ghost use Rattle.std.specs.Prelude.{◌≡◌, option_map};
ghost use Rattle.rdx_lang.specs.Lookup.{alternatives_of};
ghost use Rattle.rdx_lang.specs.declared.pattern.Ref.TheVariants as refs;
ghost use Rattle.rdx_grammar.specs.Inside.BaseView.{base_in};
ghost use Rattle.rdx_grammar.specs.Checks as model;

use rdx_lang::{CheckedLang, Pat, Ref};
use rdx_patterns::Definitions;
use rdx_patterns::shape::text;
use rdx_sexp::Datum;
use rdx_term::NoMemory;
use std::alloc::Global;
use std::marker::Model;

/// A language that a form extends. In contracts it is the checked language.
#[derive(Drop)]
pub(crate) struct Base<'a> {
    language: &'a CheckedLang,
    definitions: Definitions<'a>,
}

impl<'a> Model for Base<'a> {
    ghost use Rattle.std.specs.Prelude.{◌≡◌, map};
    ghost use Rattle.std.specs.Coded.{codes};
    ghost use Rattle.rdx_lang.specs.Checked.{language_in};
    ghost use Rattle.rdx_lang.specs.PatternView.{definition_of};
    ghost use Rattle.rdx_lang.specs.contracts.checked.CheckedLang as contract;
    ghost use Rattle.rdx_lang.specs.declared.checked.CheckedLang as checked;

    ghost Value = { checked.CheckedLang };

    ghost coded = { Prim.hlevel (codes, contract.the_row.coded) };

    ghost view = { λ a. a.language.now };

    ghost invariant = { λ a.
        map definition_of a.definitions ≡ (language_in a.language.now).nonterminals };
}

impl<'a> Base<'a> {
    ghost use Rattle.std.specs.Prelude.{IfOk, map};
    ghost use Rattle.rdx_lang.specs.Checked.{language_in};
    ghost use Rattle.rdx_lang.specs.PatternView.{definition_of, patterns_of};

    /// This language.
    pub(crate) fn new(alloc: Global, language: &'a CheckedLang) -> Result<Base<'a>, NoMemory>
        ensures { IfOk result (λ base. base ≡ language.now) }
    {
        let definitions = Definitions::new(alloc, &language.language().nts)?;
        Ok(Base {
            language,
            definitions,
        })
    }

    /// The language itself.
    pub(crate) fn language(&self) -> &'a CheckedLang
        ensures { result.now ≡ self.now }
    {
        self.language
    }

    /// Its definitions.
    pub(crate) fn definitions(&self) -> &Definitions<'a>
        ensures { map definition_of result.now ≡ (language_in self.now).nonterminals }
    {
        &self.definitions
    }

    /// The alternatives of a nonterminal, in their order; none where it isn't defined.
    pub(crate) fn alternatives(&self, nonterminal: &Ref) -> &'a [Pat]
        ensures { patterns_of result.now
            ≡ alternatives_of (language_in self.now) nonterminal.now }
    {
        match self.definitions.find(nonterminal) {
            Some(alternatives) => alternatives,
            None => &[],
        }
    }

    // Whether there are alternatives of the nonterminal of this name.
    fn has_alternatives(&self, name: &str) -> bool
        ensures { result
            ≡ model.is_some_pattern (alternatives_of (language_in self.now) (refs.Nt name.now)) }
    {
        match self.definitions.find_named(name) {
            Some(alternatives) => !alternatives.is_empty(),
            None => false,
        }
    }
}

// Whether there is something to inherit for the nonterminal of this name.
fn inherits(base: Option<&Base>, name: &str) -> bool
    ensures { result
        ≡ model.is_some_pattern (alternatives_of (base_in (option_map (λ c. c.now) base.entry))
        (refs.Nt name.now)) }
{
    match base {
        Some(base) => base.has_alternatives(name),
        None => false,
    }
}

/// Whether there is something to inherit for each of these.
pub(crate) fn all_inherit(base: Option<&Base>, names: &[Datum]) -> bool
    ensures { result ≡ model.all_inherit (base_in (option_map (λ c. c.now) base.entry)) names.now }
{
    for name in names {
        if !inherits(base, text(name)) {
            return false;
        }
    }
    true
}
