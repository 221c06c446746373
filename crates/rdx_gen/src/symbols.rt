// What is known of the symbols in patterns: prefixes are names, and what is in memory is counted.
ghost use Rattle.std.specs.Prelude.{◌≡◌, IfOk, length, map};
ghost use Rattle.rdx_lang.specs.Checked.{language_in, pattern_in};
ghost use Rattle.rdx_lang.specs.PatternView.{pattern_of, patterns_of, definition_of, slot_of, items_of};
ghost use Rattle.rdx_gen.specs.Inside.Symbols.{AllHaveSymbols, DefinitionsHaveSymbols};
ghost use Rattle.rdx_gen.specs.Literals as model;
ghost use Rattle.rdx_gen.specs.Matching.{HasSymbols, HaveSymbols, IsCounted};

use crate::literals::language_literals;
use rdx_lang::{CheckedLang, CheckedPat, Item, Pat, Ref};
use rdx_term::NoMemory;
use std::alloc::Global;

// Reads the prefixes in a pattern, after which it is known that they are names.
#[cycle(symbols)]
fn read_prefixes(pat: &Pat)
    ensures { HasSymbols (pattern_of pat.now) }
{
    match pat {
        Pat::Wild | Pat::Kind(_) | Pat::Hole | Pat::Lit(_) | Pat::Nt(_) => {}
        Pat::Except(names) => {
            let _count = names.len();
        }
        Pat::Prefix(start) => {
            let _text = start.text();
        }
        Pat::Named(_, inner) | Pat::Differ(_, inner) | Pat::HideHole(inner) | Pat::Closed(inner) =>
            read_prefixes(inner),
        Pat::InHole(left, right) => {
            read_prefixes(left);
            read_prefixes(right)
        }
        Pat::Seq(items) => read_item_prefixes(items),
    }
}

// Reads those in items.
#[cycle(symbols)]
fn read_item_prefixes(items: &[Item])
    ensures { HaveSymbols (items_of (map slot_of items.now)) }
{
    for item in items {
        let (Item::One(pat) | Item::Many(pat, _)) = item;
        read_prefixes(pat);
    }
}

// Reads those in patterns.
fn read_all_prefixes(pats: &[Pat])
    ensures { AllHaveSymbols (patterns_of pats.now) }
{
    for pat in pats {
        read_prefixes(pat);
    }
}

// Reads those in the alternatives of nonterminals.
fn read_definition_prefixes(nts: &[(Ref, Vec<Pat>)])
    ensures { DefinitionsHaveSymbols (map definition_of nts.now) }
{
    for i in 0..nts.len() {
        read_all_prefixes(&nts[i].1);
    }
}

/// The symbols in a pattern are such that there are always some to choose among.
pub fn has_symbols(pat: &CheckedPat)
    ensures { HasSymbols (pattern_in pat.now) }
{
    read_prefixes(pat.pat())
}

/// How many literals a language has, each as often as it stands there; its symbols are such, too.
pub fn literal_count(alloc: Global, language: &CheckedLang) -> Result<usize, NoMemory>
    ensures count { IfOk result (λ n. n ≡ length (model.language_literals (language_in language.now))) }
    ensures counted { IfOk result (λ n. IsCounted (language_in language.now)) }
{
    let literals = language_literals(alloc, language)?;
    read_definition_prefixes(&language.language().nts);
    Ok(literals.len())
}
