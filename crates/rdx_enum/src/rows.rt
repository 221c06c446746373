// Rows of terms, by their nodes.
ghost use Rattle.std.specs.Prelude.{◌≡◌, ◌++◌, ◌+◌, ◌≤◌, ◌∷◌, [], IfOk, OnOk, IsTrue, Some, map};
ghost use Rattle.rdx_lang.specs.Collecting.{Adds, Combined, Arises};
ghost use Rattle.rdx_term.specs.Tree.{tree_nodes};
ghost use Rattle.rdx_term.specs.View.{tree_of};
ghost use Rattle.rdx_enum.specs.Inside.Ways as ways;
ghost use Rattle.rdx_enum.specs.Inside.Rows.{row_of, row_at, Fit, AreSized, Keeps, CombinesAt, Combines, HasOnly, AreCombined, AreRepeated};

use crate::joining::joined;
use crate::listing::listing;
use crate::way::Way;
use rdx_term::{NoMemory, Term};
use std::alloc::Global;

/// The row of this number.
pub(crate) fn row(rows: &[Vec<Term>], m: usize) -> &[Term]
    ensures { map tree_of result.now ≡ row_at rows.now m }
{
    if m < rows.len() {
        rows[m].as_slice()
    } else {
        &[]
    }
}

/// The same terms once more.
pub(crate) fn shared(alloc: Global, terms: &[Term]) -> Result<Vec<Term>, NoMemory>
    ensures { IfOk result (λ copies. row_of copies ≡ map tree_of terms.now) }
{
    let mut copies = Vec::new(alloc);
    for term in terms {
        copies.push(term.share()?)?;
    }
    Ok(copies)
}

/// Adds these terms.
pub(crate) fn add_all(terms: &[Term], out: &mut Vec<Term>) -> Result<(), NoMemory>
    ensures { OnOk result (row_of out.new ≡ row_of out.old ++ map tree_of terms.now) }
{
    for term in terms {
        out.push(term.share()?)?;
    }
    Ok(())
}

/// Adds what comes of the two terms in this way, if anything.
fn add_joined(
    alloc: Global,
    way: Way,
    t: &Term,
    u: &Term,
    out: &mut Vec<Term>,
) -> Result<(), NoMemory>
    requires { tree_nodes (tree_of t.now) + tree_nodes (tree_of u.now) ≤ 500 }
    ensures { OnOk result (Adds (λ x. ways.joined way (tree_of t.now) (tree_of u.now) ≡ Some x)
        (row_of out.old) (row_of out.new)) }
{
    if let Some(made) = joined(alloc, way, t, u)? {
        out.push(made)?;
    }
    Ok(())
}

/// Adds what comes of the term and one of the others.
fn add_with(
    alloc: Global,
    way: Way,
    t: &Term,
    others: &[Term],
    out: &mut Vec<Term>,
) -> Result<(), NoMemory>
    requires { Fit (tree_of t.now ∷ []) (map tree_of others.now) }
    ensures { OnOk result (Adds (Arises (λ u x. ways.joined way (tree_of t.now) u ≡ Some x)
        (map tree_of others.now)) (row_of out.old) (row_of out.new)) }
{
    for u in others {
        add_joined(alloc, way, t, u, out)?;
    }
    Ok(())
}

/// Adds what comes of one of the first and one of the others.
fn add_across(
    alloc: Global,
    way: Way,
    firsts: &[Term],
    others: &[Term],
    out: &mut Vec<Term>,
) -> Result<(), NoMemory>
    requires { Fit (map tree_of firsts.now) (map tree_of others.now) }
    ensures { OnOk result (Adds (Combined (λ t u x. ways.joined way t u ≡ Some x)
        (map tree_of firsts.now) (map tree_of others.now)) (row_of out.old) (row_of out.new)) }
{
    for t in firsts {
        add_with(alloc, way, t, others, out)?;
    }
    Ok(())
}

/// Adds the term where the flag says so.
pub(crate) fn add_if(flag: bool, t: &Term, out: &mut Vec<Term>) -> Result<(), NoMemory>
    ensures { OnOk result (Adds (λ x. IsTrue flag × (x ≡ tree_of t.now)) (row_of out.old) (row_of out.new)) }
{
    if flag {
        out.push(t.share()?)?;
    }
    Ok(())
}

// Adds what comes of each two terms that have so many nodes together, of which those of the first are `j`.
fn add_level(
    alloc: Global,
    way: Way,
    heads: &[Vec<Term>],
    tails: &[Vec<Term>],
    j: usize,
    total: usize,
    out: &mut Vec<Term>,
) -> Result<(), NoMemory>
    requires heads { AreSized heads.now }
    requires tails { AreSized tails.now }
    requires small { total ≤ 500 }
    ensures kept { OnOk result (Keeps (row_of out.old) (row_of out.new)) }
    ensures made { OnOk result (CombinesAt way heads.now tails.now j total (row_of out.new)) }
    ensures only { OnOk result (HasOnly way heads.now tails.now total
        (row_of out.old) (row_of out.new)) }
{
    if j > total {
        return Ok(());
    }
    add_across(alloc, way, row(heads, j), row(tails, total - j), out)?;
    Ok(())
}

/// Adds what comes of each two terms that have so many nodes together, of which those of the first are from some number on.
pub(crate) fn add_combined(
    alloc: Global,
    way: Way,
    heads: &[Vec<Term>],
    tails: &[Vec<Term>],
    from: usize,
    total: usize,
    out: &mut Vec<Term>,
) -> Result<(), NoMemory>
    requires heads { AreSized heads.now }
    requires tails { AreSized tails.now }
    requires small { total ≤ 500 }
    ensures kept { OnOk result (Keeps (row_of out.old) (row_of out.new)) }
    ensures made { OnOk result (Combines way heads.now tails.now from total (row_of out.new)) }
    ensures only { OnOk result (HasOnly way heads.now tails.now total
        (row_of out.old) (row_of out.new)) }
{
    for j in from..heads.len() {
        add_level(alloc, way, heads, tails, j, total, out)?;
    }
    Ok(())
}

/// Rows up to `n` with all that base has, and what comes of each two terms whose nodes are together as many and `more`.
pub(crate) fn combined(
    alloc: Global,
    way: Way,
    more: usize,
    base: &[Vec<Term>],
    heads: &[Vec<Term>],
    tails: &[Vec<Term>],
    n: usize,
) -> Result<Vec<Vec<Term>>, NoMemory>
    requires small { n ≤ 40 }
    requires more { more ≡ ways.spent way }
    requires base { AreSized base.now }
    requires heads { AreSized heads.now }
    requires tails { AreSized tails.now }
    ensures { IfOk result (λ rows.
        AreCombined way more base.now heads.now tails.now n rows.items) }
{
    let mut rows = Vec::new(alloc);
    for m in 0..n + 1 {
        let mut out = shared(alloc, row(base, m))?;
        add_combined(alloc, way, heads, tails, 0, m + more, &mut out)?;
        let listed = listing(alloc, out)?;
        rows.push(listed)?;
    }
    Ok(rows)
}

/// Rows up to `n` with all that base has, and what comes of one of heads, with one node at least, and what is in the rows.
pub(crate) fn repeated(
    alloc: Global,
    way: Way,
    base: &[Vec<Term>],
    heads: &[Vec<Term>],
    n: usize,
) -> Result<Vec<Vec<Term>>, NoMemory>
    requires small { n ≤ 40 }
    requires way { ways.spent way ≡ 0 }
    requires base { AreSized base.now }
    requires heads { AreSized heads.now }
    ensures { IfOk result (λ rows. AreRepeated way base.now heads.now n rows.items) }
{
    let mut rows = Vec::new(alloc);
    for m in 0..n + 1 {
        let mut out = shared(alloc, row(base, m))?;
        add_combined(alloc, way, heads, &rows, 1, m, &mut out)?;
        let listed = listing(alloc, out)?;
        rows.push(listed)?;
    }
    Ok(rows)
}
