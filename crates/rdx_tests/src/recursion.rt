// The check for left recursion: by the left part of `in-hole`, and with closed patterns, which no file writes.
use crate::making::name;
use Shape::{Any, Closed, HideHole, Hole, InHole, List, To};
use rdx_lang::{Item, Kind, Language, Pat, Ranks, Ref};
use rdx_leftrec::{LeftRec, check};
use rdx_term::NoMemory;
use std::alloc::Global;
use std::process::Abort;

// A pattern: `any`, `hole`, a nonterminal, `in-hole`, `hide-hole`, a closed one, or a list of one item.
#[derive(Clone, Copy)]
enum Shape {
    Any,
    Hole,
    To(&'static str),
    InHole(&'static Shape, &'static Shape),
    HideHole(&'static Shape),
    Closed(&'static Shape),
    List(&'static Shape),
}

// Nonterminals, each with its alternatives, and the first of them that reaches itself.
type Row = (
    &'static [(&'static str, &'static [Shape])],
    Option<&'static str>,
);

const ROWS: [Row; 5] = [
    // The left part of `in-hole` is matched against the same term.
    (
        &[
            ("E", &[Hole, InHole(&To("E"), &List(&To("e")))]),
            ("e", &[Any]),
        ],
        Some("E"),
    ),
    // So is the right part where the left one can be the empty context, as `F` here by a closed pattern.
    (
        &[
            ("E", &[Hole, InHole(&To("F"), &To("E"))]),
            ("F", &[Any, Closed(&Hole)]),
        ],
        Some("E"),
    ),
    // Closed patterns lead on, but not from within a list.
    (&[("e", &[Hole, Closed(&To("e"))])], Some("e")),
    (
        &[("e", &[HideHole(&List(&To("e"))), Closed(&List(&To("e")))])],
        None,
    ),
    (
        &[
            ("e", &[InHole(&HideHole(&To("E")), &To("e"))]),
            ("E", &[Hole, InHole(&Closed(&To("E")), &Any)]),
        ],
        Some("E"),
    ),
];

fn boxed(alloc: Global, made: Result<Pat, NoMemory>) -> Result<Box<Pat>, NoMemory> {
    Ok(Box::new(alloc, made?)?)
}

fn one_item(alloc: Global, made: Result<Pat, NoMemory>) -> Result<Vec<Item>, NoMemory> {
    let mut items = Vec::new(alloc);
    items.push(Item::One(made?))?;
    Ok(items)
}

fn pattern(alloc: Global, shape: &Shape) -> Result<Pat, NoMemory> {
    match shape {
        Any => Ok(Pat::Kind(Kind::Any)),
        Hole => Ok(Pat::Hole),
        To(text) => Ok(Pat::Nt(Ref::Nt(name(alloc, text)?))),
        InHole(left, right) => {
            let left = boxed(alloc, pattern(alloc, left))?;
            let right = boxed(alloc, pattern(alloc, right))?;
            Ok(Pat::InHole(left, right))
        }
        HideHole(inner) => Ok(Pat::HideHole(boxed(alloc, pattern(alloc, inner))?)),
        Closed(inner) => Ok(Pat::Closed(boxed(alloc, pattern(alloc, inner))?)),
        List(item) => Ok(Pat::Seq(one_item(alloc, pattern(alloc, item))?)),
    }
}

fn alternatives(alloc: Global, shapes: &[Shape]) -> Result<Vec<Pat>, NoMemory> {
    let mut alternatives = Vec::new(alloc);
    for shape in shapes {
        alternatives.push(pattern(alloc, shape)?)?;
    }
    Ok(alternatives)
}

fn push_rule(
    alloc: Global,
    nts: &mut Vec<(Ref, Vec<Pat>)>,
    (text, shapes): (&str, &[Shape]),
) -> Result<(), NoMemory> {
    let alternatives = alternatives(alloc, shapes)?;
    nts.push((Ref::Nt(name(alloc, text)?), alternatives))?;
    Ok(())
}

fn language(alloc: Global, rules: &[(&str, &[Shape])]) -> Result<Language, NoMemory> {
    let mut nts = Vec::new(alloc);
    for rule in rules {
        push_rule(alloc, &mut nts, *rule)?;
    }
    let name = name(alloc, "L")?;
    Ok(Language { name, nts })
}

// Whether the check has named this nonterminal, or none.
fn is_named(found: &Result<Ranks, LeftRec>, expected: Option<&str>) -> bool {
    match (found, expected) {
        (Ok(_), None) => true,
        (Err(LeftRec::LeftRecursive(Ref::Nt(name))), Some(text)) => name.text() == text,
        _ => false,
    }
}

// Whether the check answers so of a language that is well formed.
fn answers(alloc: Global, language: &Language, expected: Option<&str>) -> Result<bool, NoMemory> {
    if !language.is_well_formed(alloc)? {
        return Ok(false);
    }
    let found = check(alloc, language);
    Ok(is_named(&found, expected))
}

// Whether the check answers what the row says, of a language that is well formed.
fn agrees(alloc: Global, row: &Row) -> Result<bool, NoMemory> {
    let (rules, expected) = row;
    answers(alloc, &language(alloc, rules)?, *expected)
}

fn all_agree<R: Abort + AllocGlobal>(rt: &R, rows: &[Row]) {
    for row in rows {
        assert!(rt; agrees(rt.alloc(), row).expect(rt, "a language"));
    }
}

#[test]
fn first_recursive_nonterminals(rt: HostRuntime) {
    all_agree(&rt, &ROWS);
}
