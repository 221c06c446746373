// The symbols that stand as literals in a language.
ghost use Rattle.std.specs.Prelude.{◌≡◌, ◌++◌, OnOk, IfOk, map};
ghost use Rattle.rdx_term.specs.View.{tree_of};
ghost use Rattle.rdx_lang.specs.Checked.{language_in};
ghost use Rattle.rdx_lang.specs.PatternView.{pattern_of, patterns_of, slot_of, items_of};
ghost use Rattle.rdx_gen.specs.Literals as model;

use rdx_lang::{CheckedLang, Item, Pat};
use rdx_term::{Name, NoMemory, Term};
use std::alloc::Global;

// Puts the symbol that a term is behind the others.
fn add_symbol(t: &Term, out: &mut Vec<Name>) -> Result<(), NoMemory>
    ensures { OnOk result (out.new.items ≡ out.old.items ++ model.symbol_in (tree_of t.now)) }
{
    match t {
        Term::Sym(name) => {
            out.push(name.share()?)?;
            Ok(())
        }
        Term::Hole | Term::Int(_) | Term::Bool(_) | Term::Str(_) | Term::List(_) => Ok(()),
    }
}

// Puts the literals in the pattern behind the others.
#[cycle(literals)]
fn add_literals(pat: &Pat, out: &mut Vec<Name>) -> Result<(), NoMemory>
    ensures { OnOk result (out.new.items ≡ out.old.items ++ model.literals (pattern_of pat.now)) }
{
    match pat {
        Pat::Wild | Pat::Kind(_) | Pat::Except(_) | Pat::Prefix(_) | Pat::Hole | Pat::Nt(_) => Ok(
            (),
        ),
        Pat::Lit(t) => add_symbol(t, out),
        Pat::Named(_, inner) | Pat::Differ(_, inner) | Pat::HideHole(inner) | Pat::Closed(inner) =>
            add_literals(inner, out),
        Pat::InHole(left, right) => {
            add_literals(left, out)?;
            add_literals(right, out)
        }
        Pat::Seq(items) => add_item_literals(items, out),
    }
}

// Puts those in the items behind the others.
#[cycle(literals)]
fn add_item_literals(items: &[Item], out: &mut Vec<Name>) -> Result<(), NoMemory>
    ensures { OnOk result (out.new.items ≡ out.old.items ++ model.item_literals (items_of (map slot_of items.now))) }
{
    for item in items {
        let (Item::One(pat) | Item::Many(pat, _)) = item;
        add_literals(pat, out)?;
    }
    Ok(())
}

// Puts those in the patterns behind the others.
fn add_all_literals(pats: &[Pat], out: &mut Vec<Name>) -> Result<(), NoMemory>
    ensures { OnOk result (out.new.items ≡ out.old.items ++ model.all_literals (patterns_of pats.now)) }
{
    for pat in pats {
        add_literals(pat, out)?;
    }
    Ok(())
}

/// The symbols that stand as literals in a language.
#[tactic(auto, using(rdx_lang::proofs::Rest::rest_at, rdx_lang::proofs::Rest::rest_none))]
pub(crate) fn language_literals(
    alloc: Global,
    language: &CheckedLang,
) -> Result<Vec<Name>, NoMemory>
    ensures { IfOk result (λ v. v.items ≡ model.language_literals (language_in language.now)) }
{
    let mut out = Vec::new(alloc);
    let nts = &language.language().nts;
    for i in 0..nts.len() {
        add_all_literals(&nts[i].1, &mut out)?;
    }
    Ok(out)
}
