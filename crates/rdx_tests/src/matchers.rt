// Both matchers side by side, and what an engine with a matcher is asked by name.
use crate::making::{checked, name};
use crate::operations::host_table;
use rdx_delta::HostTable;
use rdx_eval::Engine;
use rdx_lang::{Binding, CheckedLang, CheckedPat, HostExpr};
use rdx_match::Plain;
use rdx_query::{CheckedFile, Query};
use rdx_table::Table;
use rdx_term::{Build, Name, NoMemory, Term, list};
use std::alloc::Global;
use std::process::Abort;

// Names, contexts, repetitions with and without length names, and what matches in several ways.
const QUERIES: &[u8] = b"(define-language A (e (+ e e) n) (n number) (E hole (+ E e) (+ n E)))
(define-language B (e v x) (v x) (x variable))
(define-language H (C hole (C any) (any C)))
(redex-match A (in-hole E (+ n_1 n_2)) (term (+ (+ 1 2) (+ 3 4))))
(redex-decompose A E (term (+ 1 2)))
(redex-decompose A (hide-hole E) (term (+ 1 2)))
(redex-match A (_ ..._a _ ..._b) (term (1 2)))
(redex-match A (number_1 ...) (term ()))
(redex-match A + (term +))
(redex-match A ((number_1 ..._n) (number_2 ..._n)) (term ((1 2) (3))))
(redex-match B e_1 (term a))
(redex-match H (in-hole C hole) (term (hole hole)))
(redex-match H ((in-hole C hole) (in-hole C 1)) (term ((hole hole) (hole 1))))";

// Mismatch names: in repetitions, one in another, beside names, in a nonterminal, and around
// contexts, also such that differ in their marks alone.
const MISMATCHES: &[u8] = b"(define-language A (e (+ e e) n) (n number) (E hole (+ E e) (+ n E)))
(define-language H (C hole (C any) (any C)) (l (any_!_ ...)))
(redex-match A (n_!_ ...) (term (1 2 3)))
(redex-match A (n_!_ ...) (term (1 2 1)))
(redex-match A ((n_!_ ...) ...) (term ((1 2) (3) ())))
(redex-match A ((n_!_ ...) ...) (term ((1 2) (3 1))))
(redex-match A ((n_!_ n_1) ...) (term ((1 3) (2 3))))
(redex-match A ((n_!_ n_1 n_!_) ...) (term ((1 1 2) (3 1 2))))
(redex-match A (n_!_1 ... n_!_2 ...) (term (1 2 1)))
(redex-match A ((name x n_!_) ..._a n_!_ ..._b) (term (1 2)))
(redex-match A ((in-hole E_!_ n_1) (in-hole E_!_ n_1)) (term ((+ 1 2) (+ 2 1))))
(redex-match A ((in-hole E_!_ n_1) (in-hole E_!_ n_1)) (term ((+ 1 2) (+ 1 2))))
(redex-decompose A (in-hole E_!_ E_!_) (term (+ (+ 1 2) 3)))
(redex-decompose A (n_!_ ... E n_!_ ...) (term (1 2 3)))
(redex-match H (l_1 l_2) (term ((1 2) (2 1))))
(redex-match H ((in-hole C_!_ hole) (in-hole C_!_ hole)) (term ((hole hole) (hole hole))))";

// What the host expression makes, where it is no fault.
fn made(alloc: Global, table: &mut Engine<Table>, host: &HostExpr) -> Option<Box<Term>> {
    let term = table.host(host, &Binding::new(Vec::new(alloc))).ok()?;
    Box::new(alloc, term).ok()
}

fn match_the_same(
    plain: &mut Engine<Plain>,
    table: &mut Engine<Table>,
    language: &CheckedLang,
    pat: &CheckedPat,
    t: &Term,
) -> Result<bool, NoMemory> {
    Ok(plain.matches(language, pat, t)? == table.matches(language, pat, t)?)
}

fn split_the_same(
    plain: &mut Engine<Plain>,
    table: &mut Engine<Table>,
    language: &CheckedLang,
    pat: &CheckedPat,
    t: &Term,
) -> Result<bool, NoMemory> {
    Ok(plain.splits(language, pat, t)? == table.splits(language, pat, t)?)
}

// Whether both matchers list the same of the pattern and what the host expression makes, twice.
fn agree(
    alloc: Global,
    plain: &mut Engine<Plain>,
    table: &mut Engine<Table>,
    (name, pat, host): (&Name, &CheckedPat, &HostExpr),
) -> Result<bool, NoMemory> {
    let Some(language) = plain.language(name)? else {
        return Ok(false);
    };
    let Some(t) = made(alloc, table, host) else {
        return Ok(false);
    };
    let mut same = true;
    for _ in 0..2 {
        same &= match_the_same(plain, table, language, pat, &t)?;
        same &= split_the_same(plain, table, language, pat, &t)?;
    }
    Ok(same)
}

// The language, the pattern and the host expression of a query about a pattern.
fn pattern_in(query: &Query) -> Option<(&Name, &CheckedPat, &HostExpr)> {
    match query {
        Query::Match(name, pat, host)
        | Query::Whether(name, pat, host)
        | Query::Decompose(name, pat, host)
        | Query::TestMatch(name, pat, host, _) => Some((name, pat, host)),
        Query::Value(_)
        | Query::Holds(_, _)
        | Query::Reducts(_, _)
        | Query::Tagged(_, _)
        | Query::Stepper(_, _)
        | Query::Generate(_, _, _, _)
        | Query::Check(_, _, _, _, _)
        | Query::Alpha(_, _, _)
        | Query::Substitute(_, _, _, _)
        | Query::TestEqual(_, _)
        | Query::TestStep(_, _, _)
        | Query::TestRun(_, _, _)
        | Query::TestHolds(_)
        | Query::TestResults => None,
    }
}

fn all_agree<R: Abort + AllocGlobal>(
    rt: &R,
    plain: &mut Engine<Plain>,
    table: &mut Engine<Table>,
    queries: &[Query],
) {
    for query in queries {
        let asked = pattern_in(query).expect(rt, "a pattern");
        let same = agree(rt.alloc(), plain, table, asked).expect(rt, "listings");
        assert!(rt; same);
    }
}

fn with_table<'a, R: Abort + AllocGlobal>(
    rt: &R,
    file: &'a CheckedFile,
    operations: &'a HostTable,
) -> Box<Engine<'a, Table>> {
    let table = Table::new(rt.alloc()).expect(rt, "a table");
    let engine = Engine::new(rt.alloc(), &file.program, operations, table);
    Box::new(rt.alloc(), engine).ok().expect(rt, "an engine")
}

// Both matchers agree about each query of the file.
fn agree_in<R: Abort + AllocGlobal>(rt: &R, file: &CheckedFile) {
    let alloc = rt.alloc();
    let operations = host_table(rt);
    let mut table = with_table(rt, file, &operations);
    let mut plain = Engine::new(alloc, &file.program, &operations, Plain::new(alloc));
    all_agree(rt, &mut plain, &mut table, &file.queries);
}

#[test]
fn both_matchers_agree(rt: HostRuntime) {
    let file = checked(&rt, QUERIES);
    assert_eq!(rt; file.queries.len(), 10);
    agree_in(&rt, &file);
}

#[test]
fn both_matchers_agree_about_mismatch_names(rt: HostRuntime) {
    let file = checked(&rt, MISMATCHES);
    assert_eq!(rt; file.queries.len(), 14);
    agree_in(&rt, &file);
}

// A judgement with two outputs for a number, and none for anything else, and a metafunction.
const NAMED: &[u8] = b"(define-language L (n number))
(define-judgment-form L #:mode (J I O) [(J n n)] [(J n (n))])
(define-metafunction L [(f n) (n n)])";

// The list of this term alone.
fn alone(alloc: Global, t: Term) -> Result<Box<Term>, Build> {
    let items = Vec::from_array(alloc, [t])?;
    Ok(Box::new(alloc, list(alloc, items)?)?)
}

fn has_outputs(engine: &mut Engine<Table>, judgement: &Name, inputs: &Term, wanted: usize) -> bool {
    let outputs = engine.judge(judgement, inputs).ok();
    outputs.is_some_and(|outputs| outputs.len() == wanted)
}

fn holds(engine: &mut Engine<Table>, judgement: &Name, inputs: &Term) -> Option<bool> {
    engine.holds(judgement, inputs).ok()
}

fn nodes_of_call(engine: &mut Engine<Table>, f: &Name, args: &Term) -> Option<u32> {
    let value = engine.call(f, args).ok()?;
    Some(value.nodes())
}

fn judgements_are_asked<R: Abort + AllocGlobal>(rt: &R, engine: &mut Engine<Table>) {
    let j = name(rt.alloc(), "J").expect(rt, "a name");
    let number = alone(rt.alloc(), Term::Int(1)).expect(rt, "a term");
    let truth = alone(rt.alloc(), Term::Bool(true)).expect(rt, "a term");
    assert!(rt; has_outputs(engine, &j, &number, 2));
    assert!(rt; matches!(holds(engine, &j, &number), Some(true)));
    assert!(rt; matches!(holds(engine, &j, &truth), Some(false)));
}

fn metafunctions_are_asked<R: Abort + AllocGlobal>(rt: &R, engine: &mut Engine<Table>) {
    let f = name(rt.alloc(), "f").expect(rt, "a name");
    let number = alone(rt.alloc(), Term::Int(1)).expect(rt, "a term");
    assert!(rt; matches!(nodes_of_call(engine, &f, &number), Some(3)));
}

#[test]
fn judgements_and_metafunctions_are_asked(rt: HostRuntime) {
    let file = checked(&rt, NAMED);
    let operations = host_table(&rt);
    let mut engine = with_table(&rt, &file, &operations);
    assert_eq!(rt; engine.program().judgements.len(), 1);
    judgements_are_asked(&rt, &mut engine);
    metafunctions_are_asked(&rt, &mut engine);
}
