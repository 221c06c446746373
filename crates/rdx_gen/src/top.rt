// Terms of patterns.
ghost use Rattle.std.specs.Prelude.{◌≡◌, ◌≤◌, ◌<◌, ◌+◌, ◌*◌, IfOk, [], length};
ghost use Rattle.rdx_term.specs.View.{tree_of};
ghost use Rattle.rdx_lang.specs.Checked.{language_in, pattern_in};
ghost use Rattle.rdx_lang.specs.PatternView.{pattern_of};
ghost use Rattle.rdx_gen.specs.Answered.{Answers};
ghost use Rattle.rdx_gen.specs.Generated.{Generates, outcome};
ghost use Rattle.rdx_gen.specs.Generation.{lacks};
ghost use Rattle.rdx_gen.specs.Generators.{Begins, language_for, pattern_for};
ghost use Rattle.rdx_gen.specs.Heights as heights;
ghost use Rattle.rdx_gen.specs.Heights.{known_in};
ghost use Rattle.rdx_gen.specs.Inside.Answering.{answered};
ghost use Rattle.rdx_gen.specs.Inside.Scopes.{language_here, notes_here};
ghost use Rattle.rdx_gen.specs.NameRules.{notes_of};
ghost use Rattle.rdx_gen.specs.Views.{Says, state_of};

use crate::fault::GenFault;
use crate::generation::term;
use crate::generator::Generator;
use crate::known::Known;
use crate::nonterminals::Nonterminals;
use crate::places::places_of;
use crate::rules::{first_bad_name_in, hollow_names, names_again};
use crate::setting::{Notes, Scope, Setting};
use crate::state::State;
use crate::stop::Stop;
use crate::words::Words;
use rdx_lang::{CheckedLang, CheckedPat, Pat};
use rdx_term::{NoMemory, Term};
use std::alloc::Global;

// What there is to note of the pattern.
fn notes_for<'a>(setting: &Setting<'_>, pat: &'a Pat) -> Result<Notes<'a>, NoMemory>
    ensures { IfOk result (λ o. notes_here o ≡ notes_of (known_in (language_here setting.now))
        (pattern_of pat.now)) }
{
    let known = Known {
        nonterminals: &setting.nonterminals,
        heights: &setting.heights,
    };
    let places = places_of(setting.alloc, pat)?;
    let again = names_again(setting.alloc, &places)?;
    let hollow = hollow_names(setting.alloc, &known, &places)?;
    Ok(Notes { again, hollow })
}

// Whether the pattern has no height as a term.
fn lacks_height(setting: &Setting, pat: &Pat) -> bool
    ensures { result ≡ lacks (heights.term_height (known_in (language_here setting.now))
        (pattern_of pat.now)) }
{
    let known = Known {
        nonterminals: &setting.nonterminals,
        heights: &setting.heights,
    };
    known.term_height(pat).is_none()
}

// What comes of a pattern, as an answer.
fn answer_of(made: Result<Term, Stop>) -> Result<Term, GenFault>
    ensures { result ≡ answered made }
{
    match made {
        Ok(t) => Ok(t),
        Err(Stop::TooDeep) => Err(GenFault::TooDeep),
        Err(Stop::TooLarge) => Err(GenFault::TooLarge),
        Err(Stop::NoMemory) => Err(GenFault::NoMemory),
    }
}

impl<'a> Generator<'a> {
    /// That of this pattern in this language; or why there is none: a name that breaks a rule, and
    /// else a pattern of which no term can be generated.
    pub fn new(
        alloc: Global,
        language: &'a CheckedLang,
        pat: &'a CheckedPat,
    ) -> Result<Generator<'a>, GenFault>
        ensures { Begins (language_in language.now) (pattern_in pat.now) result }
    {
        let pat = pat.pat();
        let nonterminals = Nonterminals::new(alloc, language)?;
        match first_bad_name_in(alloc, &nonterminals, pat)? {
            Some(name) => return Err(GenFault::GenName(name)),
            None => {}
        }
        let setting = Setting::new(alloc, nonterminals)?;
        if lacks_height(&setting, pat) {
            return Err(GenFault::Barren);
        }
        let notes = notes_for(&setting, pat)?;
        Ok(Generator {
            setting,
            pat,
            notes,
        })
    }

    // How many nonterminals may stand in one another, at most. In the alternative of a nonterminal
    // the size is less by one, while it is above 0. At size 0 the alternative is of the least
    // height, which is less by one than the height of the nonterminal, and a repetition has no
    // terms. No height is above twice the number of nonterminals, each as a term and as a context:
    // so this is always enough.
    fn levels(&self, size: u32) -> usize
        ensures { length (language_for self.now).nonterminals < 4611686018427387904
            → size + 2 * length (language_for self.now).nonterminals + 2 ≤ result }
    {
        let count = self.setting.nonterminals.count();
        (size as usize)
            .saturating_add(count.saturating_mul(2))
            .saturating_add(2)
    }

    // A term, where so many nonterminals may stand in one another.
    fn from_start(&self, size: u32, levels: usize, state: &mut State) -> Result<Term, Stop>
        requires terms { (state_of state.old).terms ≡ [] }
        requires lengths { (state_of state.old).lengths ≡ [] }
        ensures { Says tree_of
            (outcome levels (language_for self.now) (pattern_for self.now) size
            state.old.words.generator) result (state_of state.new) }
    {
        let scope = Scope {
            notes: Some(&self.notes),
            size,
            levels,
        };
        term(&self.setting, scope, self.pat, state)
    }

    /// A term of the pattern with this size, from these words; or the limit that is passed.
    pub fn generate(&self, size: u32, words: &mut Words) -> Result<Term, GenFault>
        ensures { Answers
            (λ a. Generates (language_for self.now) (pattern_for self.now) size words.old.generator
            a words.new.generator) result }
    {
        let mut state = State {
            words: words.same()?,
            terms: Vec::new(self.setting.alloc),
            lengths: Vec::new(self.setting.alloc),
        };
        let levels = self.levels(size);
        let result = self.from_start(size, levels, &mut state);
        let State {
            words: left,
            terms: _,
            lengths: _,
        } = state;
        *words = left;
        answer_of(result)
    }
}

/// A term of the pattern with this size, from these words; or why there is none. With a name that
/// breaks a rule, and for a pattern of which no term can be generated, no word is taken.
pub fn generate(
    alloc: Global,
    language: &CheckedLang,
    pat: &CheckedPat,
    size: u32,
    words: &mut Words,
) -> Result<Term, GenFault>
    ensures { Answers
        (λ a. Generates (language_in language.now) (pattern_in pat.now) size words.old.generator a
        words.new.generator) result }
{
    let generator = Generator::new(alloc, language, pat)?;
    generator.generate(size, words)
}
