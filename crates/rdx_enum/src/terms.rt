// The terms of a nonterminal.
ghost use Rattle.std.specs.Prelude.{◌≡◌, ◌≤◌, ◌↔◌, ◌+◌, ◌++◌, ◌∷◌, [], ℕ, List, IfOk, OnOk, IsTrue, map};
ghost use Rattle.rdx_lang.specs.Checked.{language_in, pattern_in, ranks_in};
ghost use Rattle.rdx_lang.specs.Lookup.{alternatives_of};
ghost use Rattle.rdx_lang.specs.Members.{In};
ghost use Rattle.rdx_lang.specs.References.{is_among};
ghost use Rattle.rdx_lang.specs.WellFormed.{defined};
ghost use Rattle.rdx_lang.specs.Patterns.{Pattern, nt, Language};
ghost use Rattle.rdx_lang.specs.declared.pattern.Ref.{Ref as AnyRef};
ghost use Rattle.rdx_lang.specs.declared.pattern.Ref.TheVariants.{Nt};
ghost use Rattle.rdx_term.specs.Tree.{Tree, tree_nodes};
ghost use Rattle.rdx_term.specs.View.{tree_of};
ghost use Rattle.rdx_enum.specs.Inside.Growing.{IsRow};
ghost use Rattle.rdx_enum.specs.Inside.Order.{IsInOrder};
ghost use Rattle.rdx_enum.specs.Inside.Rows.{row_of, HaveNodes};
ghost use Rattle.rdx_enum.specs.Inside.Tables.{AreTables, IsThere, IsReady, AreFilled, table_name};
ghost use Rattle.rdx_enum.specs.Pool.{IsOver};
ghost use Rattle.rdx_enum.specs.UpTo.{MatchesSome, TermsUpTo};

use crate::growing::{Setting, table_of};
use crate::listing::listing;
use crate::order::ordered;
use crate::over::is_over;
use crate::pool::pool;
use crate::rows::{add_all, add_if, row};
use crate::tables::{Row, Table};
use rdx_lang::{CheckedLang, CheckedPat, Matcher, Pat, Ref};
use rdx_term::{Name, NoMemory, Term};
use std::alloc::Global;

// Whether the pattern matches the term.
fn is_matched<M: Matcher>(
    matcher: &mut M,
    language: &CheckedLang,
    pat: &CheckedPat,
    t: &Term,
) -> Result<bool, NoMemory>
    ensures { IfOk result (λ b. IsTrue b
        ↔ MatchesSome (language_in language.now) (pattern_in pat.now) (tree_of t.now)) }
{
    let bindings = matcher.matches(language, pat, t)?;
    if bindings.is_empty() {
        Ok(false)
    } else {
        Ok(true)
    }
}

// Those of the terms that the pattern matches.
fn matched<M: Matcher>(
    alloc: Global,
    matcher: &mut M,
    language: &CheckedLang,
    pat: &CheckedPat,
    terms: &[Term],
) -> Result<Vec<Term>, NoMemory>
    ensures { IfOk result (λ found. (t : Tree) → (In t (row_of found) ↔ (In t (map tree_of terms.now)
        × MatchesSome (language_in language.now) (pattern_in pat.now) t))) }
{
    let mut found = Vec::new(alloc);
    for t in terms {
        let keep = is_matched(matcher, language, pat, t)?;
        add_if(keep, t, &mut found)?;
    }
    Ok(found)
}

// Those of a row of which the nonterminal matches the terms.
fn matched_row<M: Matcher>(
    alloc: Global,
    matcher: &mut M,
    language: &CheckedLang,
    name: &Ref,
    row: Row,
) -> Result<Row, NoMemory>
    requires { IsTrue (is_among name.now (defined (language_in language.now))) }
    ensures row { (P : List Tree) (n : ℕ)
        → IsRow (language_in language.now) P name.now n (row_of row.terms) (row_of row.contexts)
        → IfOk result (λ r. IsRow (language_in language.now) P name.now n
        (row_of r.terms) (row_of r.contexts)) }
    ensures met { IfOk result (λ r. (t : Tree) → In t (row_of r.terms)
        → MatchesSome (language_in language.now) (nt name.now) t) }
{
    let pat = CheckedPat::known(language, Pat::Nt(name.share()?));
    let terms = matched(alloc, matcher, language, &pat, &row.terms)?;
    Ok(Row {
        terms,
        contexts: row.contexts,
    })
}

// What the alternatives of the nonterminal give at this size.
fn grown_row(setting: &Setting, name: &Ref, n: usize) -> Result<Row, NoMemory>
    requires small { n ≤ 40 }
    requires pool { HaveNodes 1 (map tree_of setting.now.pool.now) }
    requires tables { AreTables (language_in setting.now.language.now)
        (map tree_of setting.now.pool.now) setting.now.tables.now }
    requires ready { (p : Pattern)
        → In p (alternatives_of (language_in setting.now.language.now) name.now)
        → IsReady (language_in setting.now.language.now) setting.now.tables.now p n }
    ensures { IfOk result (λ r. IsRow (language_in setting.now.language.now)
        (map tree_of setting.now.pool.now) name.now n (row_of r.terms) (row_of r.contexts)) }
{
    let mut terms = Vec::new(setting.alloc);
    let mut contexts = Vec::new(setting.alloc);
    for pat in setting.language.alternatives(name) {
        let grown = setting.grow(pat, n)?;
        add_all(row(&grown.terms, n), &mut terms)?;
        add_all(row(&grown.contexts, n), &mut contexts)?;
    }
    let all_terms = listing(setting.alloc, terms)?;
    let all_contexts = listing(setting.alloc, contexts)?;
    Ok(Row {
        terms: all_terms,
        contexts: all_contexts,
    })
}

// The row of the nonterminal at this size, from the rows that are there.
fn row_from<M: Matcher>(
    alloc: Global,
    matcher: &mut M,
    language: &CheckedLang,
    pool: &[Term],
    tables: &[Table],
    name: &Ref,
    n: usize,
) -> Result<Row, NoMemory>
    requires small { n ≤ 40 }
    requires pool { HaveNodes 1 (map tree_of pool.now) }
    requires tables { AreTables (language_in language.now) (map tree_of pool.now) tables.now }
    requires defined { IsTrue (is_among name.now (defined (language_in language.now))) }
    requires ready { (p : Pattern) → In p (alternatives_of (language_in language.now) name.now)
        → IsReady (language_in language.now) tables.now p n }
    ensures row { IfOk result (λ r. IsRow (language_in language.now) (map tree_of pool.now) name.now n
        (row_of r.terms) (row_of r.contexts)) }
    ensures met { IfOk result (λ r. (t : Tree) → In t (row_of r.terms)
        → MatchesSome (language_in language.now) (nt name.now) t) }
{
    let setting = Setting {
        alloc,
        language,
        pool,
        tables,
    };
    let grown = grown_row(&setting, name, n)?;
    matched_row(alloc, matcher, language, name, grown)
}

// Adds a row to the table.
fn add_row(table: &mut Table, row: Row) -> Result<(), NoMemory>
    ensures name { OnOk result (table.new.name ≡ table.old.name) }
    ensures terms { OnOk result (table.new.terms.items ≡ table.old.terms.items ++ row.terms ∷ []) }
    ensures contexts { OnOk result (table.new.contexts.items
        ≡ table.old.contexts.items ++ row.contexts ∷ []) }
{
    table.terms.push(row.terms)?;
    table.contexts.push(row.contexts)?;
    Ok(())
}

// Adds the rows of one size to all tables.
fn add_rows<M: Matcher>(
    alloc: Global,
    matcher: &mut M,
    language: &CheckedLang,
    pool: &[Term],
    n: usize,
    tables: &mut Vec<Table>,
) -> Result<(), NoMemory>
    requires small { n ≤ 40 }
    requires pool { HaveNodes 1 (map tree_of pool.now) }
    requires tables { AreTables (language_in language.now) (map tree_of pool.now) tables.old.items }
    requires filled { AreFilled n 0 tables.old.items }
    requires order { IsInOrder (language_in language.now) (ranks_in language.now)
        (map table_name tables.old.items) }
    ensures tables { OnOk result
        (AreTables (language_in language.now) (map tree_of pool.now) tables.new.items) }
    ensures filled { OnOk result (AreFilled (n + 1) 0 tables.new.items) }
    ensures names { OnOk result
        (map table_name tables.new.items ≡ map table_name tables.old.items) }
{
    for i in 0..tables.len() {
        let name = tables[i].name.share()?;
        let row = row_from(alloc, matcher, language, pool, tables, &name, n)?;
        add_row(&mut tables[i], row)?;
    }
    Ok(())
}

// Tables of these nonterminals with no rows.
fn no_rows(alloc: Global, order: &[Ref]) -> Result<Vec<Table>, NoMemory>
    ensures names { IfOk result (λ tables. map table_name tables.items ≡ order.now) }
    ensures filled { IfOk result (λ tables. AreFilled 0 0 tables.items) }
    ensures tables { (L : Language) (P : List Tree) → IfOk result (λ tables. AreTables L P tables.items) }
{
    let mut tables = Vec::new(alloc);
    for name in order {
        tables.push(Table {
            name: name.share()?,
            terms: Vec::new(alloc),
            contexts: Vec::new(alloc),
        })?;
    }
    Ok(tables)
}

// The tables of all nonterminals up to the size `k`.
fn tables_up_to<M: Matcher>(
    alloc: Global,
    matcher: &mut M,
    language: &CheckedLang,
    pool: &[Term],
    k: usize,
) -> Result<Vec<Table>, NoMemory>
    requires small { k ≤ 40 }
    requires pool { HaveNodes 1 (map tree_of pool.now) }
    ensures tables { IfOk result (λ tables.
        AreTables (language_in language.now) (map tree_of pool.now) tables.items) }
    ensures there { IfOk result (λ tables. (x : AnyRef)
        → IsTrue (is_among x (defined (language_in language.now))) → IsThere tables.items x k) }
{
    let order = ordered(alloc, language)?;
    let mut tables = no_rows(alloc, &order)?;
    for n in 0..k + 1 {
        add_rows(alloc, matcher, language, pool, n, &mut tables)?;
    }
    Ok(tables)
}

// The terms of the nonterminal in the tables, up to the size `k`.
fn known_terms(alloc: Global, tables: &[Table], name: &Ref, k: usize) -> Result<Vec<Term>, NoMemory>
    requires small { k ≤ 40 }
    requires there { IsThere tables.now name.now k }
    ensures all { (L : Language) (P : List Tree) → AreTables L P tables.now
        → IfOk result (λ found. (t : Tree) → IsOver P t → tree_nodes t ≤ k
        → MatchesSome L (nt name.now) t → In t (row_of found)) }
    ensures only { (L : Language) (P : List Tree) → AreTables L P tables.now
        → IfOk result (λ found. (t : Tree) → In t (row_of found)
        → (tree_nodes t ≤ k) × MatchesSome L (nt name.now) t) }
{
    let Some(table) = table_of(tables, name) else {
        unreachable!()
    };
    let mut found = Vec::new(alloc);
    for m in 0..k + 1 {
        add_all(row(&table.terms, m), &mut found)?;
    }
    Ok(found)
}

// Those of the terms that are over the pool.
fn over_pool(alloc: Global, pool: &[Term], terms: &[Term]) -> Result<Vec<Term>, NoMemory>
    ensures { IfOk result (λ found. (t : Tree) → (In t (row_of found)
        ↔ (In t (map tree_of terms.now) × IsOver (map tree_of pool.now) t))) }
{
    let mut found = Vec::new(alloc);
    for t in terms {
        add_if(is_over(pool, t), t, &mut found)?;
    }
    Ok(found)
}

/// The terms of a nonterminal with at most `k` nodes, of those over the pool of the language, in the order of terms and each once.
pub fn terms_up_to<M: Matcher>(
    matcher: &mut M,
    language: &CheckedLang,
    nt: &Name,
    k: u32,
) -> Result<Vec<Term>, NoMemory>
    requires defined { IsTrue (is_among (Nt nt.now) (defined (language_in language.now))) }
    requires small { k ≤ 40 }
    ensures { IfOk result (λ found.
        TermsUpTo (language_in language.now) (Nt nt.now) k (map tree_of found.items)) }
{
    let alloc = *language.language().nts.allocator();
    let pool = pool(alloc, language.language())?;
    let name = Ref::Nt(nt.share()?);
    let tables = tables_up_to(alloc, matcher, language, &pool, k as usize)?;
    let known = known_terms(alloc, &tables, &name, k as usize)?;
    let found = over_pool(alloc, &pool, &known)?;
    listing(alloc, found)
}
