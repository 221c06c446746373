// The pool of a language.
ghost use Rattle.std.specs.Prelude.{◌≡◌, ◌++◌, IfOk, OnOk, IsTrue, map};
ghost use Rattle.rdx_lang.specs.PatternView.{pattern_of, patterns_of, definition_of, language_of, slot_of, items_of};
ghost use Rattle.rdx_term.specs.Spelling.{is_name};
ghost use Rattle.rdx_term.specs.Tree.{symbol as tree_symbol};
ghost use Rattle.rdx_term.specs.View.{tree_of};
ghost use Rattle.rdx_enum.specs.Pool as pools;
ghost use Rattle.rdx_enum.specs.Inside.Rows.{row_of, HaveNodes};

use rdx_lang::{Item, Language, Pat};
use rdx_term::{Name, NoMemory, Term};
use std::alloc::Global;
use std::rc::RcStr;

// Adds the atoms and holes of the term.
fn add_atoms(t: &Term, out: &mut Vec<Term>) -> Result<(), NoMemory>
    ensures { OnOk result (row_of out.new ≡ row_of out.old ++ pools.tree_atoms (tree_of t.now)) }
{
    match t {
        Term::Hole | Term::Int(_) | Term::Bool(_) | Term::Str(_) | Term::Sym(_) => {
            out.push(t.share()?)?;
        }
        Term::List(node) => {
            for item in node.items() {
                add_atoms(item, out)?;
            }
        }
    }
    Ok(())
}

// Adds the literals of the pattern.
#[cycle(literals)]
fn add_literals(pat: &Pat, out: &mut Vec<Term>) -> Result<(), NoMemory>
    ensures { OnOk result (row_of out.new ≡ row_of out.old ++ pools.literals (pattern_of pat.now)) }
{
    match pat {
        Pat::Wild | Pat::Kind(_) | Pat::Except(_) | Pat::Prefix(_) | Pat::Hole | Pat::Nt(_) => Ok(
            (),
        ),
        Pat::Lit(literal) => add_atoms(literal, out),
        Pat::Named(_, inner) | Pat::Differ(_, inner) | Pat::HideHole(inner) | Pat::Closed(inner) =>
            { add_literals(inner, out) }
        Pat::InHole(left, right) => {
            add_literals(left, out)?;
            add_literals(right, out)
        }
        Pat::Seq(items) => add_item_literals(items, out),
    }
}

// Adds those of the items.
#[cycle(literals)]
fn add_item_literals(items: &[Item], out: &mut Vec<Term>) -> Result<(), NoMemory>
    ensures { OnOk result (row_of out.new ≡ row_of out.old ++ pools.items_literals (items_of (map slot_of items.now))) }
{
    for item in items {
        let (Item::One(pat) | Item::Many(pat, _)) = item;
        add_literals(pat, out)?;
    }
    Ok(())
}

// Adds those of the patterns.
fn add_patterns_literals(pats: &[Pat], out: &mut Vec<Term>) -> Result<(), NoMemory>
    ensures { OnOk result (row_of out.new ≡ row_of out.old ++ pools.patterns_literals (patterns_of pats.now)) }
{
    for pat in pats {
        add_literals(pat, out)?;
    }
    Ok(())
}

// The symbol of this text, which is a name.
fn symbol(alloc: Global, text: &str) -> Result<Term, NoMemory>
    requires { IsTrue (is_name text.now) }
    ensures { IfOk result (λ t. tree_of t ≡ tree_symbol text.now) }
{
    match Name::new(RcStr::from_str(alloc, text)?) {
        Some(name) => Ok(Term::Sym(name)),
        None => unreachable!(),
    }
}

// What each pool has.
fn common(alloc: Global) -> Result<Vec<Term>, NoMemory>
    ensures { IfOk result (λ found. row_of found ≡ pools.common_atoms) }
{
    let mut found = Vec::new(alloc);
    found.push(Term::Hole)?;
    found.push(Term::Int(0))?;
    found.push(Term::Int(1))?;
    found.push(Term::Bool(false))?;
    found.push(Term::Bool(true))?;
    found.push(Term::Str(RcStr::from_str(alloc, "")?))?;
    found.push(symbol(alloc, "a")?)?;
    found.push(symbol(alloc, "b")?)?;
    Ok(found)
}

/// The pool of the language.
pub(crate) fn pool(alloc: Global, language: &Language) -> Result<Vec<Term>, NoMemory>
    ensures same { IfOk result (λ found. row_of found ≡ pools.pool (language_of language.now)) }
    ensures atoms { IfOk result (λ found. HaveNodes 1 (row_of found)) }
{
    let mut found = common(alloc)?;
    for (_, alternatives) in &language.nts {
        add_patterns_literals(alternatives, &mut found)?;
    }
    Ok(found)
}
