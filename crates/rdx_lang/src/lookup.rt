// Nonterminals, looked up by name.
ghost use Rattle.std.specs.Prelude.{◌≡◌, map};
ghost use Rattle.rdx_lang.specs.Lookup.{alternatives_of};
ghost use Rattle.rdx_lang.specs.PatternView.{patterns_of, definition_of, language_of};
ghost use Rattle.rdx_lang.specs.References as model;
ghost use Rattle.rdx_lang.specs.WellFormed.{defined};

use crate::{Language, Pat, Ref};

// Whether one of these definitions is of the nonterminal.
pub(crate) fn is_among(name: &Ref, definitions: &[(Ref, Vec<Pat>)]) -> bool
    ensures { result ≡ model.is_among name.now
        (map (λ d. d.0) (map definition_of definitions.now)) }
{
    for (defined, _) in definitions {
        if name.same(defined) {
            return true;
        }
    }
    false
}

// Whether the language defines the nonterminal.
pub(crate) fn is_defined(language: &Language, name: &Ref) -> bool
    ensures { result ≡ model.is_among name.now (defined (language_of language.now)) }
{
    is_among(name, &language.nts)
}

// The alternatives of a nonterminal, in their order; none where it isn't defined.
pub(crate) fn alternatives<'a>(language: &'a Language, name: &Ref) -> &'a [Pat]
    ensures { patterns_of result.now ≡ alternatives_of (language_of language.now) name.now }
{
    for (other, alternatives) in &language.nts {
        if name.same(other) {
            return alternatives;
        }
    }
    &[]
}
