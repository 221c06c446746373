// What is asked of one language by itself: its ranks, whether a pattern is well formed in it, and cross nonterminals.
use crate::making::{checked, name};
use rdx_grammar::cross_of;
use rdx_lang::{CheckedLang, CheckedPat, Pat, Ref};
use rdx_term::NoMemory;
use std::alloc::Global;
use std::process::Abort;

const LANGUAGE: &[u8] = b"(define-language L (e (f e) number) (f string))";

fn language<R: Abort + AllocGlobal>(rt: &R) -> Box<CheckedLang> {
    let mut file = checked(rt, LANGUAGE);
    let language = file.program.languages.pop().expect(rt, "a language");
    Box::new(rt.alloc(), language).ok().expect(rt, "memory")
}

// A nonterminal has a higher number than what it stands for: `e` than the list and `number`, `f` than `string`.
fn fall(ranks: &[usize]) -> bool {
    match ranks {
        [list, f, e, number, string] => f > string && e > list && e > number,
        _ => false,
    }
}

#[test]
fn ranks_fall(rt: HostRuntime) {
    let language = language(&rt);
    assert!(rt; fall(&language.ranks().of));
}

fn nonterminal(
    alloc: Global,
    language: &CheckedLang,
    text: &str,
) -> Result<Option<CheckedPat>, NoMemory> {
    let called = name(alloc, text)?;
    CheckedPat::new(alloc, language, Pat::Nt(Ref::Nt(called)))
}

fn is_called(pat: &Pat, text: &str) -> bool {
    match pat {
        Pat::Nt(Ref::Nt(name)) => name.text() == text,
        _ => false,
    }
}

// Whether the nonterminal of this name is a pattern of the language, and comes back.
fn is_known(alloc: Global, language: &CheckedLang, text: &str) -> Result<bool, NoMemory> {
    let found = nonterminal(alloc, language, text)?;
    Ok(found.is_some_and(|found| is_called(found.pat(), text)))
}

#[test]
fn patterns_are_checked(rt: HostRuntime) {
    let language = language(&rt);
    assert!(rt; is_known(rt.alloc(), &language, "e").expect(&rt, "an answer"));
    let unknown = nonterminal(rt.alloc(), &language, "g").expect(&rt, "an answer");
    assert!(rt; unknown.is_none());
}

// How many alternatives the contexts from one nonterminal to another have.
fn ways(
    alloc: Global,
    language: &CheckedLang,
    (from, to): (&str, &str),
) -> Result<usize, NoMemory> {
    let from = name(alloc, from)?;
    let to = name(alloc, to)?;
    Ok(language.alternatives(&Ref::Cross(from, to)).len())
}

// From `e` to `e` lead the hole and both places of the list, and from `f` no way.
#[test]
fn crosses_are_added(rt: HostRuntime) {
    let alloc = rt.alloc();
    let mut language = language(&rt);
    let e = name(alloc, "e").expect(&rt, "a name");
    cross_of(alloc, &mut language, &e).expect(&rt, "memory");
    assert!(rt; language.language().nts.len() == 4);
    assert!(rt; ways(alloc, &language, ("e", "e")).expect(&rt, "names") == 3);
    assert!(rt; ways(alloc, &language, ("f", "e")).expect(&rt, "names") == 0);
}
