// Terms grown by patterns.
ghost use Rattle.std.specs.Prelude.{◌≡◌, ◌-◌, ◌≤◌, ◌<◌, ℕ, List, IfOk, IfSome, IfNone, [], ◌∷◌, map, length, get_or, Option};
ghost use Rattle.rdx_lang.specs.Checked.{language_in};
ghost use Rattle.rdx_lang.specs.Members.{In};
ghost use Rattle.rdx_lang.specs.Patterns as patterns;
ghost use Rattle.rdx_lang.specs.Patterns.{Pattern, Items, Language, nt, in_hole, nil, one, many};
ghost use Rattle.rdx_lang.specs.PatternView.{pattern_of, slot_of, items_of, Slot};
ghost use Rattle.rdx_term.specs.Tree.{Tree};
ghost use Rattle.rdx_term.specs.View.{tree_of};
ghost use Rattle.rdx_enum.specs.Inside.Growing.{IsGrown, AreGrown};
ghost use Rattle.rdx_enum.specs.Inside.Tables.{AreTables, IsThere, IsReady, AreReady};
ghost use Rattle.rdx_term.specs.Building.{list_of};
ghost use Rattle.rdx_term.specs.Tree.{nil as no_trees};
ghost use Rattle.rdx_enum.specs.Inside.Rows.{HaveNodes, AreSized};
ghost use Rattle.rdx_enum.specs.Inside.Sizes.{inner_bound, with_slot};

use crate::atoms::{at_one, atoms, is_any, is_list};
use crate::joining::empty_list;
use crate::rows::{combined, repeated, row, shared};
use crate::tables::Table;
use crate::trees::trees;
use crate::way::Way;
use rdx_lang::{CheckedLang, Item, Kind, Pat, Ref};
use rdx_term::{NoMemory, Term};
use std::alloc::Global;

/// Rows of terms that a pattern may match, and of contexts into which it may split terms.
#[derive(Drop)]
pub(crate) struct Grown {
    pub(crate) terms: Vec<Vec<Term>>,
    pub(crate) contexts: Vec<Vec<Term>>,
}

// The table of the nonterminal, if it is there.
pub(crate) fn table_of<'t>(tables: &'t [Table], name: &Ref) -> Option<&'t Table>
    ensures among { IfSome result (λ t. In t.now tables.now) }
    ensures name { IfSome result (λ t. t.now.name ≡ name.now) }
    ensures none { IfNone result ((t : Table) → In t tables.now → t.name ≡ name.now → ⊥) }
{
    for table in tables {
        if table.name.same(name) {
            return Some(table);
        }
    }
    None
}

// No items: the empty list.
fn none(alloc: Global) -> Result<Grown, NoMemory>
    ensures { (L : Language) (P : List Tree) (n : ℕ) → IfOk result (λ g. AreGrown L P nil n g.terms.items g.contexts.items) }
{
    let terms = at_one(alloc, empty_list(alloc)?)?;
    Ok(Grown {
        terms,
        contexts: Vec::new(alloc),
    })
}

// An item in front of others.
fn one_item(alloc: Global, first: &Grown, rest: &Grown, n: usize) -> Result<Grown, NoMemory>
    requires small { n ≤ 40 }
    requires first_terms { AreSized first.now.terms.items }
    requires first_contexts { AreSized first.now.contexts.items }
    requires rest_terms { AreSized rest.now.terms.items }
    requires rest_contexts { AreSized rest.now.contexts.items }
    ensures { (L : Language) (P : List Tree) (p : Pattern) (ps : Items)
        → IsGrown L P p (n - 1) first.now.terms.items first.now.contexts.items
        → AreGrown L P ps n rest.now.terms.items rest.now.contexts.items
        → IfOk result (λ g. AreGrown L P (one p ps) n g.terms.items g.contexts.items) }
{
    let terms = combined(alloc, Way::Item, 0, &[], &first.terms, &rest.terms, n)?;
    let here = combined(alloc, Way::Context, 0, &[], &first.contexts, &rest.terms, n)?;
    let contexts = combined(
        alloc,
        Way::Behind,
        0,
        &here,
        &first.terms,
        &rest.contexts,
        n,
    )?;
    Ok(Grown { terms, contexts })
}

// A repetition in front of others.
fn many_items(alloc: Global, first: &Grown, rest: &Grown, n: usize) -> Result<Grown, NoMemory>
    requires small { n ≤ 40 }
    requires first_terms { AreSized first.now.terms.items }
    requires first_contexts { AreSized first.now.contexts.items }
    requires rest_terms { AreSized rest.now.terms.items }
    requires rest_contexts { AreSized rest.now.contexts.items }
    ensures { (L : Language) (P : List Tree) (p : Pattern) (x : Option (List ℕ)) (ps : Items)
        → IsGrown L P p (n - 1) first.now.terms.items first.now.contexts.items
        → AreGrown L P ps n rest.now.terms.items rest.now.contexts.items
        → IfOk result (λ g. AreGrown L P (many p x ps) n g.terms.items g.contexts.items) }
{
    let terms = repeated(alloc, Way::Item, &rest.terms, &first.terms, n)?;
    let here = combined(
        alloc,
        Way::Context,
        0,
        &rest.contexts,
        &first.contexts,
        &terms,
        n,
    )?;
    let contexts = repeated(alloc, Way::Behind, &here, &first.terms, n)?;
    Ok(Grown { terms, contexts })
}

// How many nodes what stands in the hole has at most: all n where the hole itself is among the contexts, and else one less.
fn inner_size(outer: &Grown, n: usize) -> usize
    ensures value { result ≡ inner_bound outer.now.contexts.items n }
    ensures within { result ≤ n }
{
    if row(&outer.contexts, 1).is_empty() {
        n.saturating_sub(1)
    } else {
        n
    }
}

// A pattern in the hole of another.
fn with_inner(alloc: Global, outer: &Grown, inner: &Grown, n: usize) -> Result<Grown, NoMemory>
    requires small { n ≤ 40 }
    requires outer_contexts { AreSized outer.now.contexts.items }
    requires inner_terms { AreSized inner.now.terms.items }
    requires inner_contexts { AreSized inner.now.contexts.items }
    ensures { (L : Language) (P : List Tree) (q r : Pattern)
        → IsGrown L P q n outer.now.terms.items outer.now.contexts.items
        → IsGrown L P r (inner_bound outer.now.contexts.items n) inner.now.terms.items inner.now.contexts.items
        → IfOk result (λ g. IsGrown L P (in_hole q r) n g.terms.items g.contexts.items) }
{
    let terms = combined(alloc, Way::Filled, 1, &[], &outer.contexts, &inner.terms, n)?;
    let contexts = combined(alloc, Way::Put, 1, &[], &outer.contexts, &inner.contexts, n)?;
    Ok(Grown { terms, contexts })
}

/// What terms are grown from: the pool of a language, and a table for each of its nonterminals.
#[derive(Clone, Copy)]
pub(crate) struct Setting<'a> {
    pub(crate) alloc: Global,
    pub(crate) language: &'a CheckedLang,
    pub(crate) pool: &'a [Term],
    pub(crate) tables: &'a [Table],
}

impl<'a> Setting<'a> {
    // Nothing, as no term has no nodes.
    fn nothing(&self) -> Grown
        ensures terms { result.terms.items ≡ [] }
        ensures contexts { result.contexts.items ≡ [] }
    {
        Grown {
            terms: Vec::new(self.alloc),
            contexts: Vec::new(self.alloc),
        }
    }

    // No contexts beside these terms.
    fn terms_alone(&self, terms: Vec<Vec<Term>>) -> Grown
        ensures terms { result.terms ≡ terms }
        ensures contexts { result.contexts.items ≡ [] }
    {
        Grown {
            terms,
            contexts: Vec::new(self.alloc),
        }
    }

    // The hole, as a term and as a context.
    fn hole(&self) -> Result<Grown, NoMemory>
        ensures { (L : Language) (P : List Tree) (n : ℕ) → IfOk result (λ g. IsGrown L P patterns.hole n g.terms.items g.contexts.items) }
    {
        let mut hole = Vec::new(self.alloc);
        hole.push(Term::Hole)?;
        let mut again = Vec::new(self.alloc);
        again.push(Term::Hole)?;
        let terms = at_one(self.alloc, hole)?;
        let contexts = at_one(self.alloc, again)?;
        Ok(Grown { terms, contexts })
    }

    // A literal. One that is a list is looked for among all trees.
    fn literal(&self, literal: &Term, n: usize) -> Result<Grown, NoMemory>
        requires small { n ≤ 40 }
        requires pool { HaveNodes 1 (map tree_of self.now.pool.now) }
        ensures { (L : Language) → IfOk result (λ g. IsGrown L (map tree_of self.now.pool.now)
            (patterns.lit (tree_of literal.now)) n g.terms.items g.contexts.items) }
    {
        if is_list(literal) {
            let all = trees(self.alloc, self.pool, n)?;
            let grown = self.terms_alone(all);
            return Ok(grown);
        }
        let mut row = Vec::new(self.alloc);
        row.push(literal.share()?)?;
        let terms = at_one(self.alloc, row)?;
        let alone = self.terms_alone(terms);
        Ok(alone)
    }

    // What a built-in name may stand for.
    fn of_kind(&self, kind: Kind, n: usize) -> Result<Grown, NoMemory>
        requires small { n ≤ 40 }
        requires pool { HaveNodes 1 (map tree_of self.now.pool.now) }
        ensures { (L : Language) → IfOk result (λ g. IsGrown L (map tree_of self.now.pool.now)
            (patterns.of_kind kind) n g.terms.items g.contexts.items) }
    {
        if is_any(kind) {
            let all = trees(self.alloc, self.pool, n)?;
            let grown = self.terms_alone(all);
            return Ok(grown);
        }
        let terms = atoms(self.alloc, kind, self.pool)?;
        let alone = self.terms_alone(terms);
        Ok(alone)
    }

    // What is known of a nonterminal, whose row at `n` is there.
    fn known(&self, name: &Ref, n: usize) -> Result<Grown, NoMemory>
        requires small { n ≤ 40 }
        requires tables { AreTables (language_in self.now.language.now)
            (map tree_of self.now.pool.now) self.now.tables.now }
        requires there { IsThere self.now.tables.now name.now n }
        ensures { IfOk result (λ g. IsGrown (language_in self.now.language.now)
            (map tree_of self.now.pool.now) (nt name.now) n g.terms.items g.contexts.items) }
    {
        let Some(table) = table_of(self.tables, name) else {
            unreachable!()
        };
        let mut terms = Vec::new(self.alloc);
        let mut contexts = Vec::new(self.alloc);
        for m in 0..n + 1 {
            let more = shared(self.alloc, row(&table.terms, m))?;
            terms.push(more)?;
            let others = shared(self.alloc, row(&table.contexts, m))?;
            contexts.push(others)?;
        }
        Ok(Grown { terms, contexts })
    }

    // An item in front of others.
    #[cycle(grow)]
    fn prepended(&self, item: &Item, rest: &Grown, n: usize) -> Result<Grown, NoMemory>
        requires small { n ≤ 40 }
        requires some { 1 ≤ n }
        requires pool { HaveNodes 1 (map tree_of self.now.pool.now) }
        requires tables { AreTables (language_in self.now.language.now)
            (map tree_of self.now.pool.now) self.now.tables.now }
        requires ready { AreReady (language_in self.now.language.now) self.now.tables.now
            (with_slot (slot_of item.now) []) n }
        requires terms { AreSized rest.now.terms.items }
        requires contexts { AreSized rest.now.contexts.items }
        ensures { (slots : List Slot) → AreGrown (language_in self.now.language.now)
            (map tree_of self.now.pool.now) (items_of slots) n
            rest.now.terms.items rest.now.contexts.items
            → IfOk result (λ g. AreGrown (language_in self.now.language.now)
            (map tree_of self.now.pool.now) (with_slot (slot_of item.now) slots) n
            g.terms.items g.contexts.items) }
    {
        match item {
            Item::One(pat) => {
                let first = self.grow(pat, n - 1)?;
                one_item(self.alloc, &first, rest, n)
            }
            Item::Many(pat, _) => {
                let first = self.grow(pat, n - 1)?;
                many_items(self.alloc, &first, rest, n)
            }
        }
    }

    // How many nodes what stands in the hole has at most, at which the right part is ready.
    fn ready_size(&self, left: &Pat, right: &Pat, outer: &Grown, n: usize) -> usize
        requires some { 1 ≤ n }
        requires ready { IsReady (language_in self.now.language.now) self.now.tables.now
            (in_hole (pattern_of left.now) (pattern_of right.now)) n }
        requires outer { IsGrown (language_in self.now.language.now)
            (map tree_of self.now.pool.now) (pattern_of left.now) n
            outer.now.terms.items outer.now.contexts.items }
        ensures value { result ≡ inner_bound outer.now.contexts.items n }
        ensures within { result ≤ n }
        ensures ready { IsReady (language_in self.now.language.now) self.now.tables.now
            (pattern_of right.now) result }
    {
        inner_size(outer, n)
    }

    // The item at this place is ready where all items are.
    fn item_is_ready(&self, items: &[Item], i: usize, item: &Item, n: usize)
        requires place { i < length items.now }
        requires item { item.now ≡ get_or items.now i item.now }
        requires ready { AreReady (language_in self.now.language.now) self.now.tables.now
            (items_of (map slot_of items.now)) n }
        ensures { AreReady (language_in self.now.language.now) self.now.tables.now
            (with_slot (slot_of item.now) []) n }
    {}

    // The items of a list, from the last to the first.
    #[cycle(grow)]
    fn grow_items(&self, items: &[Item], n: usize) -> Result<Grown, NoMemory>
        requires small { n ≤ 40 }
        requires some { 1 ≤ n }
        requires pool { HaveNodes 1 (map tree_of self.now.pool.now) }
        requires tables { AreTables (language_in self.now.language.now)
            (map tree_of self.now.pool.now) self.now.tables.now }
        requires ready { AreReady (language_in self.now.language.now) self.now.tables.now
            (items_of (map slot_of items.now)) n }
        ensures { IfOk result (λ g. AreGrown (language_in self.now.language.now)
            (map tree_of self.now.pool.now) (items_of (map slot_of items.now)) n
            g.terms.items g.contexts.items) }
    {
        let mut rest = none(self.alloc)?;
        for k in 0..items.len() {
            let i = items.len() - 1 - k;
            let item = &items[i];
            self.item_is_ready(items, i, item, n);
            let more = self.prepended(item, &rest, n)?;
            rest = more;
        }
        Ok(rest)
    }

    /// The rows of a pattern, up to `n` nodes.
    #[cycle(grow)]
    pub(crate) fn grow(&self, pat: &Pat, n: usize) -> Result<Grown, NoMemory>
        requires small { n ≤ 40 }
        requires pool { HaveNodes 1 (map tree_of self.now.pool.now) }
        requires tables { AreTables (language_in self.now.language.now)
            (map tree_of self.now.pool.now) self.now.tables.now }
        requires ready { IsReady (language_in self.now.language.now) self.now.tables.now
            (pattern_of pat.now) n }
        ensures { IfOk result (λ g. IsGrown (language_in self.now.language.now)
            (map tree_of self.now.pool.now) (pattern_of pat.now) n
            g.terms.items g.contexts.items) }
    {
        if n == 0 {
            return Ok(self.nothing());
        }
        match pat {
            Pat::Wild => self.of_kind(Kind::Any, n),
            Pat::Kind(kind) => self.of_kind(*kind, n),
            Pat::Except(_) => self.of_kind(Kind::Variable, n),
            Pat::Prefix(_) => self.of_kind(Kind::Variable, n),
            Pat::Hole => self.hole(),
            Pat::Lit(literal) => self.literal(literal, n),
            Pat::Nt(name) => self.known(name, n),
            Pat::Named(_, inner) => self.grow(inner, n),
            Pat::Closed(inner) => self.grow(inner, n),
            Pat::Differ(_, inner) => self.grow(inner, n),
            Pat::HideHole(inner) => {
                let grown = self.grow(inner, n)?;
                Ok(self.terms_alone(grown.terms))
            }
            Pat::InHole(left, right) => {
                let outer = self.grow(left, n)?;
                let inner = self.grow(right, self.ready_size(left, right, &outer, n))?;
                with_inner(self.alloc, &outer, &inner, n)
            }
            Pat::Seq(items) => self.grow_items(items, n),
        }
    }
}
