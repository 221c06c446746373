// Derivations, tested by themselves: one of a split, built by hand, and such that differ from it at one place.
use crate::making::{checked, name};
use crate::operations::host_table;
use rdx_eval::Engine;
use rdx_lang::{Binding, Item, Kind, Pat, Ref, Value};
use rdx_match::Plain;
use rdx_term::{NoMemory, Term, list};
use rdx_why::{Deriv, Goal, derivation_holds};
use std::alloc::Global;
use std::process::Abort;

const SUMS: &[u8] = b"(define-language L (e (+ e e) n) (n number) (E hole (+ E e) (+ n E)))";

// What a derivation says at three places: the part in its root, the alternative of the context, and the place of the item that is split.
#[derive(Clone, Copy)]
struct Said {
    part: i128,
    alternative: usize,
    place: usize,
}

fn nonterminal(alloc: Global, text: &str) -> Result<Pat, NoMemory> {
    Ok(Pat::Nt(Ref::Nt(name(alloc, text)?)))
}

fn plus(alloc: Global) -> Result<Term, NoMemory> {
    Ok(Term::Sym(name(alloc, "+")?))
}

// The sum of the term and 2.
fn sum(alloc: Global, first: Term) -> Result<Term, NoMemory> {
    let mut items = Vec::new(alloc);
    items.push(plus(alloc)?)?;
    items.push(first)?;
    items.push(Term::Int(2))?;
    list(alloc, items).ok().ok_or(NoMemory)
}

// The pattern `(+ E e)`.
fn sum_pattern(alloc: Global) -> Result<Pat, NoMemory> {
    let mut items = Vec::new(alloc);
    items.push(Item::One(Pat::Lit(plus(alloc)?)))?;
    items.push(Item::One(nonterminal(alloc, "E")?))?;
    items.push(Item::One(nonterminal(alloc, "e")?))?;
    Ok(Pat::Seq(items))
}

// What a match without names derives.
fn matched(alloc: Global, pat: Pat, t: Term) -> Result<Goal, NoMemory> {
    Ok(Goal::Match(name(alloc, "L")?, pat, t, Binding::new(Vec::new(alloc))))
}

// What a split without names derives, into the context and 1.
fn split(alloc: Global, pat: Pat, t: Term, context: Term) -> Result<Goal, NoMemory> {
    let none = Binding::new(Vec::new(alloc));
    Ok(Goal::Split(name(alloc, "L")?, pat, t, context, Term::Int(1), none))
}

// A node by this choice, above these.
fn node(
    alloc: Global,
    goal: Goal,
    place: Option<usize>,
    under: Vec<Deriv>,
) -> Result<Deriv, NoMemory> {
    let mut choice = Vec::new(alloc);
    if let Some(place) = place {
        choice.push(place)?;
    }
    Ok(Deriv {
        goal,
        choice,
        under,
    })
}

// A node above this one.
fn above(alloc: Global, goal: Goal, place: Option<usize>, d: Deriv) -> Result<Deriv, NoMemory> {
    let mut under = Vec::new(alloc);
    under.push(d)?;
    node(alloc, goal, place, under)
}

// 2 is an e, since it is an n.
fn two_is_e(alloc: Global) -> Result<Deriv, NoMemory> {
    let number = matched(alloc, Pat::Kind(Kind::Number), Term::Int(2))?;
    let leaf = node(alloc, number, None, Vec::new(alloc))?;
    let n = above(
        alloc,
        matched(alloc, nonterminal(alloc, "n")?, Term::Int(2))?,
        Some(0),
        leaf,
    )?;
    above(
        alloc,
        matched(alloc, nonterminal(alloc, "e")?, Term::Int(2))?,
        Some(1),
        n,
    )
}

// 1 is split at itself by E, since the hole is an E.
fn one_is_split(alloc: Global) -> Result<Deriv, NoMemory> {
    let hole = split(alloc, Pat::Hole, Term::Int(1), Term::Hole)?;
    let leaf = node(alloc, hole, None, Vec::new(alloc))?;
    above(
        alloc,
        split(alloc, nonterminal(alloc, "E")?, Term::Int(1), Term::Hole)?,
        Some(0),
        leaf,
    )
}

// `(+ 1 2)` is split by `(+ E e)`, at the place that is said.
fn sum_is_split(alloc: Global, said: Said) -> Result<Deriv, NoMemory> {
    let literal = matched(alloc, Pat::Lit(plus(alloc)?), plus(alloc)?)?;
    let mut under = Vec::new(alloc);
    under.push(node(alloc, literal, None, Vec::new(alloc))?)?;
    under.push(one_is_split(alloc)?)?;
    under.push(two_is_e(alloc)?)?;
    let (t, context) = (sum(alloc, Term::Int(1))?, sum(alloc, Term::Hole)?);
    let goal = split(alloc, sum_pattern(alloc)?, t, context)?;
    node(alloc, goal, Some(said.place), under)
}

// It is split by E, by the alternative that is said.
fn context_is_e(alloc: Global, said: Said) -> Result<Deriv, NoMemory> {
    let (t, context) = (sum(alloc, Term::Int(1))?, sum(alloc, Term::Hole)?);
    let goal = split(alloc, nonterminal(alloc, "E")?, t, context)?;
    above(
        alloc,
        goal,
        Some(said.alternative),
        sum_is_split(alloc, said)?,
    )
}

// It is split by `(name E E)`, into `(+ hole 2)` and the part that is said.
fn derivation(alloc: Global, said: Said) -> Result<Deriv, NoMemory> {
    let (t, context) = (sum(alloc, Term::Int(1))?, sum(alloc, Term::Hole)?);
    let mut pairs = Vec::new(alloc);
    pairs.push((name(alloc, "E")?, Value::One(sum(alloc, Term::Hole)?)))?;
    let inner = Box::new(alloc, nonterminal(alloc, "E")?)?;
    let pat = Pat::Named(name(alloc, "E")?, inner);
    let part = Term::Int(said.part);
    let goal = Goal::Split(
        name(alloc, "L")?,
        pat,
        t,
        context,
        part,
        Binding::new(pairs),
    );
    above(alloc, goal, None, context_is_e(alloc, said)?)
}

fn holds(alloc: Global, engine: &mut Engine<Plain>, said: Said) -> Result<bool, NoMemory> {
    let d = derivation(alloc, said)?;
    derivation_holds(alloc, engine, &d)
}

fn is_told<R: Abort + AllocGlobal>(rt: &R, said: Said, wanted: bool) {
    let file = checked(rt, SUMS);
    let operations = host_table(rt);
    let mut engine = Engine::new(
        rt.alloc(),
        &file.program,
        &operations,
        Plain::new(rt.alloc()),
    );
    let found = holds(rt.alloc(), &mut engine, said).expect(rt, "an answer");
    assert!(rt; found == wanted);
}

#[test]
fn a_derivation_holds(rt: HostRuntime) {
    is_told(
        &rt,
        Said {
            part: 1,
            alternative: 1,
            place: 1,
        },
        true,
    );
}

#[test]
fn another_part_is_none(rt: HostRuntime) {
    is_told(
        &rt,
        Said {
            part: 2,
            alternative: 1,
            place: 1,
        },
        false,
    );
}

#[test]
fn another_alternative_is_none(rt: HostRuntime) {
    is_told(
        &rt,
        Said {
            part: 1,
            alternative: 2,
            place: 1,
        },
        false,
    );
}

#[test]
fn another_place_is_none(rt: HostRuntime) {
    is_told(
        &rt,
        Said {
            part: 1,
            alternative: 1,
            place: 2,
        },
        false,
    );
}
