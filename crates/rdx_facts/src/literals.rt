// The symbols that a language has as literals, where an alternative asks for the others.
ghost use Rattle.std.specs.Prelude.{◌≡◌, ◌++◌, ℕ, List, IfOk, OnOk, map};
ghost use Rattle.rdx_facts.specs.Inside.Literals as model;
ghost use Rattle.rdx_lang.specs.Facts.{AreMentioned};
ghost use Rattle.rdx_lang.specs.PatternView.{pattern_of, patterns_of, slot_of, items_of, language_of};
ghost use Rattle.rdx_lang.specs.Rules as rules;
ghost use Rattle.rdx_term.specs.View.{tree_of};

use rdx_lang::{Item, Kind, Language, Pat};
use rdx_term::{Name, NoMemory, Term};
use std::alloc::Global;

// Whether the pattern asks somewhere for symbols that are no literals.
#[cycle(asking)]
fn asks(pat: &Pat) -> bool {
    match pat {
        Pat::Kind(Kind::Unmentioned) => true,
        Pat::Wild
        | Pat::Kind(_)
        | Pat::Except(_)
        | Pat::Prefix(_)
        | Pat::Hole
        | Pat::Lit(_)
        | Pat::Nt(_) => false,
        Pat::Named(_, inner) | Pat::Differ(_, inner) | Pat::HideHole(inner) | Pat::Closed(inner) =>
            asks(inner),
        Pat::InHole(left, right) => asks(left) || asks(right),
        Pat::Seq(items) => items_ask(items),
    }
}

#[cycle(asking)]
fn items_ask(items: &[Item]) -> bool {
    for item in items {
        let (Item::One(pat) | Item::Many(pat, _)) = item;
        if asks(pat) {
            return true;
        }
    }
    false
}

// Whether one of the alternatives of the language does.
fn any_asks(language: &Language) -> bool {
    for (_, alternatives) in &language.nts {
        for pat in alternatives {
            if asks(pat) {
                return true;
            }
        }
    }
    false
}

// Adds the symbol that the term is, if it is one.
fn add_symbol(t: &Term, found: &mut Vec<Name>) -> Result<(), NoMemory>
    ensures { OnOk result (found.new.items
        ≡ found.old.items ++ model.symbol_in (tree_of t.now)) }
{
    match t {
        Term::Sym(name) => {
            found.push(name.share()?)?;
            Ok(())
        }
        Term::Hole | Term::Int(_) | Term::Bool(_) | Term::Str(_) | Term::List(_) => Ok(()),
    }
}

// Adds the symbols that are literals in the pattern.
#[cycle(literals)]
fn add_literals(pat: &Pat, found: &mut Vec<Name>) -> Result<(), NoMemory>
    ensures { OnOk result (found.new.items
        ≡ found.old.items ++ model.literals (pattern_of pat.now)) }
{
    match pat {
        Pat::Wild | Pat::Kind(_) | Pat::Except(_) | Pat::Prefix(_) | Pat::Hole | Pat::Nt(_) => Ok(
            (),
        ),
        Pat::Lit(term) => add_symbol(term, found),
        Pat::Named(_, inner) | Pat::Differ(_, inner) | Pat::HideHole(inner) | Pat::Closed(inner) =>
            add_literals(inner, found),
        Pat::InHole(left, right) => {
            add_literals(left, found)?;
            add_literals(right, found)
        }
        Pat::Seq(items) => add_items_literals(items, found),
    }
}

// Adds those in the items.
#[cycle(literals)]
fn add_items_literals(items: &[Item], found: &mut Vec<Name>) -> Result<(), NoMemory>
    ensures { OnOk result (found.new.items
        ≡ found.old.items ++ model.items_literals (items_of (map slot_of items.now))) }
{
    for item in items {
        let (Item::One(pat) | Item::Many(pat, _)) = item;
        add_literals(pat, found)?;
    }
    Ok(())
}

// Adds those in these patterns.
fn add_all_literals(pats: &[Pat], found: &mut Vec<Name>) -> Result<(), NoMemory>
    ensures { OnOk result (found.new.items
        ≡ found.old.items ++ model.all_literals (patterns_of pats.now)) }
{
    for pat in pats {
        add_literals(pat, found)?;
    }
    Ok(())
}

// Those in the alternatives of the language, as often as they are.
fn language_literals(alloc: Global, language: &Language) -> Result<Vec<Name>, NoMemory>
    ensures { IfOk result (λ names.
        names.items ≡ model.definitions_literals (language_of language.now).nonterminals) }
{
    let mut found = Vec::new(alloc);
    for (_, alternatives) in &language.nts {
        add_all_literals(alternatives, &mut found)?;
    }
    Ok(found)
}

// Whether the name is one of these.
fn is_one_of(names: &[Name], name: &Name) -> bool
    ensures { result ≡ rules.is_one_of names.now name.now }
{
    for other in names {
        if other.text() == name.text() {
            return true;
        }
    }
    false
}

// The same names, each once.
fn each_once(alloc: Global, names: &[Name]) -> Result<Vec<Name>, NoMemory>
    ensures { IfOk result (λ found. (s : List ℕ) →
        rules.is_one_of found.items s ≡ rules.is_one_of names.now s) }
{
    let mut found = Vec::new(alloc);
    for name in names {
        if !is_one_of(&found, name) {
            found.push(name.share()?)?;
        }
    }
    Ok(found)
}

// The symbols that the language has as literals, where one of its alternatives asks for the others.
pub(crate) fn mentioned(alloc: Global, language: &Language) -> Result<Option<Vec<Name>>, NoMemory>
    ensures { IfOk result (AreMentioned (language_of language.now)) }
{
    if !any_asks(language) {
        return Ok(None);
    }
    let all = language_literals(alloc, language)?;
    Ok(Some(each_once(alloc, &all)?))
}
