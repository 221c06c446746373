// A pattern of which terms are generated as often as wanted.
ghost use Rattle.std.specs.Prelude.{◌≡◌, IsFalse, None};
ghost use Rattle.rdx_lang.specs.Checked.{language_in};
ghost use Rattle.rdx_lang.specs.PatternView.{pattern_of};
ghost use Rattle.rdx_gen.specs.Generation.{lacks};
ghost use Rattle.rdx_gen.specs.Heights.{known_in, term_height};
ghost use Rattle.rdx_gen.specs.NameRules.{first_bad_name, notes_of};
ghost use Rattle.rdx_gen.specs.Inside.Scopes.{notes_here};

use crate::setting::{Notes, Setting};
use rdx_lang::Pat;

/// A pattern of a language, with all that generation needs to know of both, made once. Terms of it
/// are generated as often as wanted.
#[derive(Drop)]
pub struct Generator<'a> {
    pub(crate) setting: Setting<'a>,
    pub(crate) pat: &'a Pat,
    pub(crate) notes: Notes<'a>,
    ghost named: { first_bad_name (language_in setting.nonterminals.language.now)
        (pattern_of pat.now) ≡ None },
    ghost high: { IsFalse
        (lacks (term_height (known_in (language_in setting.nonterminals.language.now))
        (pattern_of pat.now))) },
    ghost noted: { notes_here notes ≡ notes_of
        (known_in (language_in setting.nonterminals.language.now)) (pattern_of pat.now) },
}
