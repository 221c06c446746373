// Terms that are found, compared with those that are wanted, marks forgotten.
ghost use Rattle.std.specs.Prelude.{◌≡◌, ◌∷◌, ◌++◌, [], ◌↔◌, IfOk, IsTrue, OnOk, map};
ghost use Rattle.rdx_term.specs.Bare.{bare};
ghost use Rattle.rdx_term.specs.Order.{tree_cmp};
ghost use Rattle.rdx_term.specs.Terms.{IsTerm};
ghost use Rattle.rdx_term.specs.Text.{tree_text};
ghost use Rattle.rdx_term.specs.View.{tree_of};
ghost use Rattle.rdx_lang.specs.Listing.{IsListing};
ghost use Rattle.rdx_lang.specs.Members.{In};
ghost use Rattle.rdx_eval.specs.Views.{terms_in};
ghost use Rattle.rdx_answer.specs.AnswerText.{lines_text};
ghost use Rattle.rdx_answer.specs.Inside.Appending.{Appends};
ghost use Rattle.rdx_answer.specs.Inside.Comparing.{AreTerms, AreTexts};
ghost use Rattle.rdx_answer.specs.Tests.{AreDistinct, Compares, SameTerms, failure_text, got_text, want_text};

use crate::step_answers::terms_of;
use crate::texts::write_verdict;
use rdx_term::{NoMemory, Term, text_of};
use std::alloc::Global;
use std::collections::BTreeSet;
use std::slice::from_ref;

// The text of a term, which has at least one byte for each node.
fn text(alloc: Global, term: &Term) -> Result<Vec<u8>, NoMemory>
    ensures text { IfOk result (λ text. text.items ≡ tree_text (tree_of term.now)) }
    ensures valid { IsTerm (tree_of term.now) }
{
    let nodes = term.nodes() as usize;
    let mut text = Vec::with_capacity(alloc, nodes)?;
    text_of(term, &mut text)?;
    Ok(text)
}

// The texts of terms, each once. Terms have one text exactly where they are the same, marks
// forgotten.
fn texts_of(alloc: Global, terms: &[Term]) -> Result<BTreeSet<Vec<u8>>, NoMemory>
    ensures texts { IfOk result (λ texts. AreTexts (map tree_of terms.now) texts) }
    ensures valid { OnOk result (AreTerms (map tree_of terms.now)) }
{
    let mut texts = BTreeSet::new(alloc);
    for term in terms {
        texts.insert(text(alloc, term)?)?;
    }
    Ok(texts)
}

// Whether both are the same terms, as sets, marks forgotten.
fn are_same(alloc: Global, found: &[Term], wanted: &[Term]) -> Result<bool, NoMemory>
    ensures { IfOk result (λ same. IsTrue same
        ↔ SameTerms (map tree_of found.now) (map tree_of wanted.now)) }
{
    Ok(texts_of(alloc, found)? == texts_of(alloc, wanted)?)
}

// The terms, ascending and each once.
fn ascending(alloc: Global, terms: &[Term]) -> Result<Vec<Term>, NoMemory>
    ensures { IfOk result (λ listed. IsListing tree_cmp (terms_in listed)
        (λ t. In t (map tree_of terms.now))) }
{
    let mut set = BTreeSet::new(alloc);
    for term in terms {
        set.insert(term.share()?)?;
    }
    terms_of(alloc, set)
}

// The terms, ascending; of those that are alike the least.
fn distinct(alloc: Global, terms: &[Term]) -> Result<Vec<Term>, NoMemory>
    ensures { IfOk result (λ kept. AreDistinct (map tree_of terms.now) (terms_in kept)) }
{
    let listed = ascending(alloc, terms)?;
    let mut seen = BTreeSet::new(alloc);
    let mut kept = Vec::new(alloc);
    for term in &listed {
        if seen.insert(text(alloc, term)?)? {
            kept.push(term.share()?)?;
        }
    }
    Ok(kept)
}

// A line for each term that was found.
fn write_got_lines(terms: &[Term], out: &mut Vec<u8>) -> Result<(), NoMemory>
    ensures { OnOk result (out.new.items ≡ out.old.items
        ++ lines_text (map got_text (map tree_of terms.now))) }
{
    for term in terms {
        out.extend_from_slice(b"  got ")?;
        text_of(term, out)?;
        out.push(b'\n')?;
    }
    Ok(())
}

// A line for each term that was wanted.
fn write_want_lines(terms: &[Term], out: &mut Vec<u8>) -> Result<(), NoMemory>
    ensures { OnOk result (out.new.items ≡ out.old.items
        ++ lines_text (map want_text (map tree_of terms.now))) }
{
    for term in terms {
        out.extend_from_slice(b"  want ")?;
        text_of(term, out)?;
        out.push(b'\n')?;
    }
    Ok(())
}

// That a test fails, what was found, and what was wanted.
fn write_failure(got: &[Term], want: &[Term], out: &mut Vec<u8>) -> Result<(), NoMemory>
    ensures { OnOk result (out.new.items ≡ out.old.items
        ++ failure_text (map tree_of got.now) (map tree_of want.now)) }
{
    write_verdict(false, out)?;
    write_got_lines(got, out)?;
    write_want_lines(want, out)
}

/// Appends whether the terms that were found are those that are wanted, or else both, and says
/// whether they are.
pub(crate) fn write_comparison(
    alloc: Global,
    found: &[Term],
    wanted: &[Term],
    out: &mut Vec<u8>,
) -> Result<bool, NoMemory>
    ensures { IfOk result (λ met. Appends
        (Compares (map tree_of found.now) (map tree_of wanted.now)) out.old.items out.new.items
        met) }
{
    if are_same(alloc, found, wanted)? {
        write_verdict(true, out)?;
        return Ok(true);
    }
    let got = distinct(alloc, found)?;
    let want = distinct(alloc, wanted)?;
    write_failure(&got, &want, out)?;
    Ok(false)
}

// Whether two terms are the same, marks forgotten.
fn are_alike(found: &Term, wanted: &Term) -> bool
    ensures { IsTrue result ↔ (bare (tree_of found.now) ≡ bare (tree_of wanted.now)) }
{
    found.same_bare(wanted)
}

/// The same of one term and another.
pub(crate) fn write_equality(
    found: &Term,
    wanted: &Term,
    out: &mut Vec<u8>,
) -> Result<bool, NoMemory>
    ensures { IfOk result (λ met. Appends
        (Compares (tree_of found.now ∷ []) (tree_of wanted.now ∷ [])) out.old.items out.new.items
        met) }
{
    if are_alike(found, wanted) {
        write_verdict(true, out)?;
        return Ok(true);
    }
    write_failure(from_ref(found), from_ref(wanted), out)?;
    Ok(false)
}
