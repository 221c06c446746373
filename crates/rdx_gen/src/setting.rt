// What generation goes by.
ghost use Rattle.std.specs.Prelude.{◌≡◌, ◌+◌, ◌-◌, [], IfOk, None, map};
ghost use Rattle.rdx_lang.specs.Checked.{language_in};
ghost use Rattle.rdx_gen.specs.Heights.{heights_of};
ghost use Rattle.rdx_gen.specs.Inside.Picks.{choices_in, choices_with};
ghost use Rattle.rdx_gen.specs.Literals as literal;
ghost use Rattle.rdx_gen.specs.Variables as variable_of;

use crate::choices::{Choices, all_choices};
use crate::height::Height;
use crate::known::Known;
use crate::literals::language_literals;
use crate::name_set::NameSet;
use crate::nonterminals::Nonterminals;
use crate::table::heights_in;
use crate::variables::first_five;
use rdx_term::{Name, NoMemory};
use std::alloc::Global;

/// What there is to note of a pattern: the names and length names that stand in it more than once,
/// and its length names that stand over a pattern without a height.
#[derive(Drop)]
pub(crate) struct Notes<'a> {
    pub(crate) again: NameSet<'a>,
    pub(crate) hollow: NameSet<'a>,
}

/// What there is to go by in a language, made once: the places of its nonterminals and their
/// heights, the alternatives of each to choose among, and the symbols that stand for `variable` and
/// for `variable-not-otherwise-mentioned`.
#[derive(Drop)]
pub(crate) struct Setting<'a> {
    pub(crate) alloc: Global,
    pub(crate) nonterminals: Nonterminals<'a>,
    pub(crate) heights: Vec<Height>,
    pub(crate) choices: Vec<Choices>,
    pub(crate) variables: Vec<Name>,
    pub(crate) unmentioned: Vec<Name>,
    ghost high: { heights.items ≡ heights_of (language_in nonterminals.language.now) },
    ghost chosen: { map choices_in choices.items
        ≡ choices_with (language_in nonterminals.language.now).nonterminals heights.items },
    ghost variable: { variables.items ≡ variable_of.first_five [] [] },
    ghost free: { unmentioned.items ≡ variable_of.first_five []
        (literal.language_literals (language_in nonterminals.language.now)) },
}

impl<'a> Setting<'a> {
    /// That of the language of these nonterminals.
    pub(crate) fn new(
        alloc: Global,
        nonterminals: Nonterminals<'a>,
    ) -> Result<Setting<'a>, NoMemory>
        ensures { IfOk result (λ s. s.nonterminals.language.now ≡ nonterminals.entry.language.now) }
    {
        let heights = heights_in(alloc, &nonterminals)?;
        let known = Known {
            nonterminals: &nonterminals,
            heights: &heights,
        };
        let choices = all_choices(alloc, &known)?;
        let variables = first_five(alloc, "", &[])?;
        let literals = language_literals(alloc, nonterminals.language)?;
        let unmentioned = first_five(alloc, "", &literals)?;
        Ok(Setting {
            alloc,
            nonterminals,
            heights,
            choices,
            variables,
            unmentioned,
        })
    }
}

/// What a pattern is generated in: its notes, where there is something to note, the size, and how
/// many nonterminals may still stand in one another.
#[derive(Clone, Copy)]
pub(crate) struct Scope<'a> {
    pub(crate) notes: Option<&'a Notes<'a>>,
    pub(crate) size: u32,
    pub(crate) levels: usize,
}

impl<'a> Scope<'a> {
    /// The scope of an alternative: no name stands in it twice, and the size is one less.
    pub(crate) fn inside(&self) -> Result<Scope<'a>, NoMemory>
        ensures notes { IfOk result (λ c. c.notes ≡ None) }
        ensures size { IfOk result (λ c. c.size ≡ self.now.size - 1) }
        ensures levels { IfOk result (λ c. c.levels + 1 ≡ self.now.levels) }
    {
        if self.levels == 0 {
            return Err(NoMemory);
        }
        Ok(Scope {
            notes: None,
            size: self.size.saturating_sub(1),
            levels: self.levels - 1,
        })
    }
}
