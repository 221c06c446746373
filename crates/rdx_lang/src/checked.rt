// Languages and patterns that have passed their checks.
ghost use Rattle.std.proofs.Props.{props};
ghost use Rattle.std.specs.Prelude.{IfSome};
ghost use Rattle.rdx_lang.specs.Facts.{AreFacts};
ghost use Rattle.rdx_lang.specs.PatternView.{language_of, ranks_of};
ghost use Rattle.rdx_lang.specs.Ranks.{AreRanks};
ghost use Rattle.rdx_lang.specs.Model.FactProps.{some-prop};
ghost use Rattle.rdx_lang.specs.Model.RankProps.{AreRanks-prop};
ghost use Rattle.rdx_lang.specs.WellFormed.{IsWellFormed};

use crate::lookup::alternatives;
use crate::well_formed::is_well_formed;
use crate::{Facts, Known, Language, Pat, Ranks, Ref};
use rdx_term::NoMemory;
use std::alloc::Global;

/// A well-formed language, with ranks that fall along every left edge of its patterns. So none of
/// its nonterminals leads to itself with nothing of a term taken off between.
#[derive(Drop)]
pub struct CheckedLang {
    language: Language,
    ranks: Ranks,
    facts: Option<Facts>,
    pub ghost well_formed: { IsWellFormed (language_of language) } by { Prim.hlevel props },
    pub ghost ranked: { AreRanks (language_of language) (ranks_of ranks) } by { AreRanks-prop _ _ },
    pub ghost known: { IfSome facts (λ f. AreFacts (language_of language) f) } by { some-prop _ _ },
}

impl CheckedLang {
    ghost use Rattle.std.specs.Prelude.{◌≡◌, IfSome};
    ghost use Rattle.rdx_lang.specs.Checked.{language_in, ranks_in};
    ghost use Rattle.rdx_lang.specs.Facts.{AreFacts, IsKnown};
    ghost use Rattle.rdx_lang.specs.Lookup.{alternatives_of};
    ghost use Rattle.rdx_lang.specs.PatternView.{patterns_of};
    ghost use Rattle.rdx_lang.specs.Rules.{AreAlternatives};

    /// The checked language.
    pub fn new(language: Language, ranks: Ranks) -> CheckedLang
        requires well_formed { IsWellFormed (language_of language) }
        requires ranked { AreRanks (language_of language) (ranks_of ranks) }
        ensures language { language_in result ≡ language_of language }
        ensures ranks { ranks_in result ≡ ranks_of ranks }
    {
        CheckedLang {
            language,
            ranks,
            facts: None,
        }
    }

    /// The language itself.
    pub fn language(&self) -> &Language
        ensures value { language_of result.now ≡ language_in self.now }
        ensures well_formed { IsWellFormed (language_in self.now) }
    {
        &self.language
    }

    /// Its ranks.
    pub fn ranks(&self) -> &Ranks
        ensures value { ranks_of result.now ≡ ranks_in self.now }
        ensures ranked { AreRanks (language_in self.now) (ranks_in self.now) }
    {
        &self.ranks
    }

    /// The alternatives of a nonterminal, in their order; none where it isn't defined.
    pub fn alternatives(&self, name: &Ref) -> &[Pat]
        ensures same { patterns_of result.now ≡ alternatives_of (language_in self.now) name.now }
        ensures all { AreAlternatives (language_in self.now) name.now (patterns_of result.now) }
        ensures well_formed { IsWellFormed (language_in self.now) }
        ensures ranked { AreRanks (language_in self.now) (ranks_in self.now) }
    {
        alternatives(&self.language, name)
    }

    /// The same language, of which these facts are kept.
    pub fn know(self, facts: Facts) -> CheckedLang
        requires { AreFacts (language_in self) facts }
        ensures language { language_in result ≡ language_in self }
        ensures ranks { ranks_in result ≡ ranks_in self }
    {
        CheckedLang {
            language: self.language,
            ranks: self.ranks,
            facts: Some(facts),
        }
    }

    /// What is known of the language, if anything is.
    pub fn facts(&self) -> Option<&Facts>
        ensures { IfSome result (λ f. AreFacts (language_in self.now) f.now) }
    {
        self.facts.as_ref()
    }

    /// The alternatives of a nonterminal, in their order, and what is known of it and of them, where
    /// it stands at this place of the language and anything is known; `None` elsewhere.
    pub fn nonterminal(&self, place: usize, name: &Ref) -> Option<(&[Pat], &Known)>
        ensures same { IfSome result (λ r.
            patterns_of r.0.now ≡ alternatives_of (language_in self.now) name.now) }
        ensures all { IfSome result (λ r.
            AreAlternatives (language_in self.now) name.now (patterns_of r.0.now)) }
        ensures known { IfSome result (λ r.
            IsKnown (language_in self.now) (name.now, patterns_of r.0.now) r.1.now) }
    {
        let known = self.facts.as_ref()?.nonterminals.get(place)?;
        let (other, alternatives) = self.language.nts.get(place)?;
        if name.same(other) {
            Some((alternatives, known))
        } else {
            None
        }
    }

    /// The language and its ranks, each by itself.
    pub fn into_parts(self) -> (Language, Ranks)
        ensures language { language_of result.0 ≡ language_in self }
        ensures ranks { ranks_of result.1 ≡ ranks_in self }
        ensures well_formed { IsWellFormed (language_of result.0) }
        ensures ranked { AreRanks (language_of result.0) (ranks_of result.1) }
    {
        (self.language, self.ranks)
    }
}

/// A pattern that is well formed in a language.
#[derive(Drop)]
pub struct CheckedPat {
    pat: Pat,
}

impl CheckedPat {
    ghost use Rattle.std.specs.Prelude.{◌≡◌, IsTrue, IsFalse, IfOk, IfSome, IfNone};
    ghost use Rattle.rdx_lang.specs.Checked.{language_in, pattern_in};
    ghost use Rattle.rdx_lang.specs.PatternView.{pattern_of};
    ghost use Rattle.rdx_lang.specs.Patterns as patterns;
    ghost use Rattle.rdx_lang.specs.WellFormed.{is_well_formed_in};

    /// The pattern, where each nonterminal in it is one of the language's, each of its names has one
    /// depth, below 2^32, and none is a length name as well, which holds of the pattern in each
    /// closed one in it by itself; else `None`.
    pub fn new(
        alloc: Global,
        language: &CheckedLang,
        pat: Pat,
    ) -> Result<Option<CheckedPat>, NoMemory>
        ensures same { IfOk result (λ r. IfSome r (λ c. pattern_in c ≡ pattern_of pat)) }
        ensures some { IfOk result (λ r. IfSome r
            (λ c. IsTrue (is_well_formed_in (language_in language.now) (pattern_of pat)))) }
        ensures none { IfOk result (λ r. IfNone r
            (IsFalse (is_well_formed_in (language_in language.now) (pattern_of pat)))) }
    {
        if is_well_formed(alloc, language.language(), &pat)? {
            Ok(Some(CheckedPat { pat }))
        } else {
            Ok(None)
        }
    }

    /// The pattern, of which it is known that it is well formed in the language, so that nothing is
    /// looked at.
    pub fn known(language: &CheckedLang, pat: Pat) -> CheckedPat
        requires { IsTrue (is_well_formed_in (language_in language.now) (pattern_of pat)) }
        ensures same { pattern_in result ≡ pattern_of pat }
        ensures well_formed { IsTrue (is_well_formed_in (language_in language.now)
            (pattern_in result)) }
    {
        CheckedPat { pat }
    }

    /// The pattern as one that binds nothing outside of itself; it is well formed wherever the
    /// pattern is.
    pub fn close(&self, alloc: Global) -> Result<CheckedPat, NoMemory>
        ensures same { IfOk result (λ c. pattern_in c ≡ patterns.closed (pattern_in self.now)) }
        ensures well_formed { (L : patterns.Language)
            → IsTrue (is_well_formed_in L (pattern_in self.now))
            → IfOk result (λ c. IsTrue (is_well_formed_in L (pattern_in c))) }
    {
        let inner = self.pat.share(alloc)?;
        Ok(CheckedPat {
            pat: Pat::Closed(Box::new(alloc, inner)?),
        })
    }

    /// The same pattern once more; its names and terms are shared.
    pub fn share(&self, alloc: Global) -> Result<CheckedPat, NoMemory>
        ensures { IfOk result (λ c. pattern_in c ≡ pattern_in self.now) }
    {
        Ok(CheckedPat {
            pat: self.pat.share(alloc)?,
        })
    }

    /// The pattern itself.
    pub fn pat(&self) -> &Pat
        ensures { pattern_of result.now ≡ pattern_in self.now }
    {
        &self.pat
    }
}
