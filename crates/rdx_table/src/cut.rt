// A list pattern at a list, in three parts: the entries before the first repetition, those from it
// to the last repetition, and those behind that, each with the ids of the terms that are theirs.
ghost use Rattle.std.specs.Prelude.{◌≡◌, ◌<◌, ◌≤◌, ◌+◌, true, length, take, drop, IfSome, IsNone};
ghost use Rattle.rdx_bind.specs.Parts as model;
ghost use Rattle.rdx_bind.specs.Parts.{IsCut};
ghost use Rattle.rdx_store.specs.Stored.{tree_by_id};
ghost use Rattle.rdx_nodes.specs.Nodes.{slots_at, AreEntries};
ghost use Rattle.rdx_nodes.specs.Settings.{patterns_at_hand, trees_at_hand};
ghost use Rattle.rdx_table.specs.Inside.Cuts as spec;
ghost use Rattle.rdx_table.specs.Inside.Cuts.{are_ones, part_at, IsPart};

use rdx_nodes::node::Entry;
use rdx_nodes::setting::Setting;
use rdx_store::TermId;
use rdx_term::Term;

/// Some entries of a list pattern, with the terms that they have to match.
#[derive(Clone, Copy)]
pub(crate) struct Part<'s, 'a> {
    /// The entries.
    pub(crate) entries: &'s [Entry<'a>],
    /// The ids of the terms, in their order.
    pub(crate) ids: &'s [TermId],
    /// The place of the first of the terms in the list.
    pub(crate) place: usize,
}

/// A list pattern at a list.
#[derive(Clone, Copy)]
pub(crate) struct Parts<'s, 'a> {
    /// The entries before the first repetition, each with one term.
    pub(crate) before: Part<'s, 'a>,
    /// From the first repetition to the last; neither entries nor terms where there is none.
    pub(crate) middle: Part<'s, 'a>,
    /// The entries behind the last repetition, each with one term.
    pub(crate) behind: Part<'s, 'a>,
}

// Whether the entry is one term's.
fn is_one(entry: &Entry<'_>) -> bool
    ensures { result ≡ spec.is_one entry.now }
{
    match entry {
        Entry::One(_) => true,
        Entry::Many(_) => false,
    }
}

// How many entries there are before the first repetition.
fn before_first(entries: &[Entry<'_>]) -> usize
    ensures within { result ≤ length entries.now }
    ensures single { are_ones (take result entries.now) ≡ true }
{
    let mut count = 0;
    while count < entries.len() && is_one(&entries[count]) {
        count += 1;
    }
    count
}

// The place behind the last repetition.
fn behind_last(entries: &[Entry<'_>]) -> usize
    ensures within { result ≤ length entries.now }
    ensures single { are_ones (drop result entries.now) ≡ true }
{
    let mut start = entries.len();
    while start > 0 && is_one(&entries[start - 1]) {
        start -= 1;
    }
    start
}

/// The parts of the entries of a list pattern with those of the list with this id; `None` where
/// the term is no list, or has too few items for the entries, or too many where none is repeated.
pub(crate) fn parts_of<'s, 'a>(
    setting: &'s Setting<'a>,
    entries: &'s [Entry<'a>],
    id: TermId,
) -> Option<Parts<'s, 'a>>
    requires id { id < length (trees_at_hand setting.now) }
    requires entries { AreEntries (patterns_at_hand setting.now)
        (length (patterns_at_hand setting.now)) entries.now }
    ensures some { IfSome result (λ parts. IsCut
        (slots_at (patterns_at_hand setting.now) entries.now)
        (tree_by_id (trees_at_hand setting.now) id)
        (part_at (patterns_at_hand setting.now) (trees_at_hand setting.now) parts.before)
        (part_at (patterns_at_hand setting.now) (trees_at_hand setting.now) parts.middle)
        (part_at (patterns_at_hand setting.now) (trees_at_hand setting.now) parts.behind)) }
    ensures before { IfSome result (λ parts. IsPart
        (patterns_at_hand setting.now) (trees_at_hand setting.now) parts.before) }
    ensures middle { IfSome result (λ parts. IsPart
        (patterns_at_hand setting.now) (trees_at_hand setting.now) parts.middle) }
    ensures behind { IfSome result (λ parts. IsPart
        (patterns_at_hand setting.now) (trees_at_hand setting.now) parts.behind) }
    ensures first_place { IfSome result (λ parts.
        parts.before.place + length parts.before.ids.now ≤ usize.MAX) }
    ensures middle_place { IfSome result (λ parts.
        parts.middle.place + length parts.middle.entries.now ≤ usize.MAX) }
    ensures last_place { IfSome result (λ parts.
        parts.behind.place + length parts.behind.ids.now ≤ usize.MAX) }
    ensures none { IsNone result → model.CannotFit
        (slots_at (patterns_at_hand setting.now) entries.now)
        (tree_by_id (trees_at_hand setting.now) id) }
{
    let ids = match setting.store.term(id) {
        Term::Hole | Term::Int(_) | Term::Bool(_) | Term::Str(_) | Term::Sym(_) => return None,
        Term::List(_) => setting.store.items(id),
    };
    let (before, others) = entries.split_at(before_first(entries));
    let (middle, behind) = others.split_at(behind_last(others));
    let singles = before.len() + behind.len();
    if ids.len() < singles {
        return None;
    }
    if middle.is_empty() && ids.len() > singles {
        return None;
    }
    let (firsts, rest) = ids.split_at(before.len());
    let (inner, lasts) = rest.split_at(rest.len() - behind.len());
    Some(Parts {
        before: Part {
            entries: before,
            ids: firsts,
            place: 0,
        },
        middle: Part {
            entries: middle,
            ids: inner,
            place: firsts.len(),
        },
        behind: Part {
            entries: behind,
            ids: lasts,
            place: firsts.len() + inner.len(),
        },
    })
}
