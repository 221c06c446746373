// What a matcher is.
ghost use Rattle.std.specs.Prelude.{IfOk};
ghost use Rattle.rdx_term.specs.View.{tree_of};
ghost use Rattle.rdx_lang.specs.Checked.{language_in, pattern_in};
ghost use Rattle.rdx_lang.specs.Listing.{Matches, Splits};
ghost use Rattle.rdx_lang.specs.Shown.{bindings_of, decompositions_of};

use crate::{Binding, CheckedLang, CheckedPat, Split};
use rdx_term::{NoMemory, Term};

/// Finds the bindings by which patterns match terms, and what patterns split terms into.
pub trait Matcher {
    /// The bindings by which the pattern matches the term: ascending, each once, and exactly those
    /// that the rules of matching derive.
    fn matches(
        &mut self,
        language: &CheckedLang,
        pat: &CheckedPat,
        t: &Term,
    ) -> Result<Vec<Binding>, NoMemory>
        ensures { IfOk result (λ found. Matches (language_in language.now) (pattern_in pat.now)
            (tree_of t.now) (bindings_of found.items)) };

    /// The contexts and parts into which the pattern splits the term, with their bindings:
    /// ascending, each once, and exactly those that the rules of splitting derive.
    fn splits(
        &mut self,
        language: &CheckedLang,
        pat: &CheckedPat,
        t: &Term,
    ) -> Result<Vec<Split>, NoMemory>
        ensures { IfOk result (λ found. Splits (language_in language.now) (pattern_in pat.now)
            (tree_of t.now) (decompositions_of found.items)) };
}
