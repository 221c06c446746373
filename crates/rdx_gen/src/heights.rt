// The heights of patterns, where those of nonterminals are known.
ghost use Rattle.std.specs.Prelude.{◌≡◌, ℕ, true, IfOk, Some, map};
ghost use Rattle.rdx_lang.specs.Checked.{language_in};
ghost use Rattle.rdx_lang.specs.PatternView.{pattern_of, patterns_of, slot_of, items_of};
ghost use Rattle.rdx_gen.specs.Heights as model;
ghost use Rattle.rdx_gen.specs.Inside.Slots as slots;
ghost use Rattle.rdx_gen.specs.Inside.Waiting.{height_at};
ghost use Rattle.rdx_gen.specs.KnownView.{known_of};

use crate::height::Height;
use crate::known::Known;
use rdx_lang::{Item, Pat, Ref};
use rdx_term::NoMemory;
use std::alloc::Global;

/// The greater of two heights, where there are both.
pub(crate) fn greater(a: Option<usize>, b: Option<usize>) -> Option<usize>
    ensures { result ≡ model.greater a b }
{
    match (a, b) {
        (Some(m), Some(n)) => Some(m.max(n)),
        _ => None,
    }
}

// The lesser of two, where there are both, and else the one that there is.
pub(crate) fn lesser(a: Option<usize>, b: Option<usize>) -> Option<usize>
    ensures { result ≡ model.lesser a b }
{
    match (a, b) {
        (Some(m), Some(n)) => Some(m.min(n)),
        (Some(m), None) => Some(m),
        (None, b) => b,
    }
}

// Whether there is neither.
fn is_nothing(height: Height) -> bool
    ensures { result ≡ true → height ≡ model.no_height }
{
    height.as_term.is_none() && height.as_context.is_none()
}

// The heights of an `in-hole` of patterns with these.
fn filled_height(left: Height, right: Height) -> Height
    ensures as_term { result.as_term ≡ model.greater left.as_context right.as_term }
    ensures as_context { result.as_context ≡ model.greater left.as_context right.as_context }
{
    Height::new(
        greater(left.as_context, right.as_term),
        greater(left.as_context, right.as_context),
    )
}

// The heights of a list that begins with an item with these, where what is behind it has those.
fn with_item(item: Height, behind: Height) -> Height
    ensures as_term { result.as_term ≡ model.greater item.as_term behind.as_term }
    ensures as_context { result.as_context ≡ model.lesser
        (model.greater item.as_context behind.as_term)
        (model.greater item.as_term behind.as_context) }
{
    let here = greater(item.as_context, behind.as_term);
    let further = greater(item.as_term, behind.as_context);
    Height::new(greater(item.as_term, behind.as_term), lesser(here, further))
}

// Those of a list that begins with a repetition.
fn with_repetition(item: Height, behind: Height) -> Height
    ensures as_term { result.as_term ≡ behind.as_term }
    ensures as_context { result.as_context ≡ model.lesser
        (model.greater item.as_context behind.as_term) behind.as_context }
{
    let here = greater(item.as_context, behind.as_term);
    Height::new(behind.as_term, lesser(here, behind.as_context))
}

impl Known<'_> {
    // The heights of the nonterminal at this place, where it is known.
    fn height_there(&self, place: usize) -> Height
        ensures { result ≡ height_at self.now.heights.now place }
    {
        if place < self.heights.len() {
            self.heights[place]
        } else {
            Height::new(None, None)
        }
    }

    // The heights of a nonterminal.
    fn height(&self, name: &Ref) -> Height
        ensures { result ≡ model.height_in (known_of self.now) name.now }
    {
        let place = self.nonterminals.place(name);
        if place < self.nonterminals.count() {
            self.height_there(place)
        } else {
            Height::new(None, None)
        }
    }

    /// The heights of a pattern, as a term and as a context.
    #[cycle(heights)]
    pub(crate) fn pattern_heights(&self, pat: &Pat) -> Height
        ensures { result ≡ slots.pattern_heights (known_of self.now) (pattern_of pat.now) }
    {
        match pat {
            Pat::Wild | Pat::Kind(_) | Pat::Except(_) | Pat::Prefix(_) | Pat::Lit(_) => {
                Height::new(Some(0), None)
            }
            Pat::Hole => Height::new(Some(0), Some(0)),
            Pat::Nt(name) => self.height(name),
            Pat::Named(_, inner) | Pat::Differ(_, inner) => self.pattern_heights(inner),
            Pat::InHole(left, right) => {
                let left = self.pattern_heights(left);
                let right = self.pattern_heights(right);
                filled_height(left, right)
            }
            Pat::HideHole(inner) => Height::new(self.term_height(inner), None),
            Pat::Closed(_) => Height::new(None, None),
            Pat::Seq(items) => self.list_heights(items),
        }
    }

    // Those of a list: as a term the greatest of the items that stand under no ellipsis, and as a
    // context the least with the context at one of the items. Where the items behind one have none,
    // the whole list has none.
    #[cycle(heights)]
    fn list_heights(&self, items: &[Item]) -> Height
        ensures { result ≡ slots.list_heights (known_of self.now) (items_of (map slot_of items.now)) }
    {
        let mut behind = Height::new(Some(0), None);
        let mut k = items.len();
        while k > 0 && !is_nothing(behind) {
            k -= 1;
            behind = match &items[k] {
                Item::One(pat) => with_item(self.pattern_heights(pat), behind),
                Item::Many(pat, _) => with_repetition(self.pattern_heights(pat), behind),
            };
        }
        behind
    }

    /// The height of a pattern as a term.
    #[cycle(heights)]
    pub(crate) fn term_height(&self, pat: &Pat) -> Option<usize>
        ensures { result ≡ model.term_height (known_of self.now) (pattern_of pat.now) }
    {
        self.pattern_heights(pat).as_term
    }

    /// The height of a pattern as a context.
    pub(crate) fn context_height(&self, pat: &Pat) -> Option<usize>
        ensures { result ≡ model.context_height (known_of self.now) (pattern_of pat.now) }
    {
        self.pattern_heights(pat).as_context
    }

    /// The heights of patterns as terms.
    pub(crate) fn term_heights(
        &self,
        alloc: Global,
        pats: &[Pat],
    ) -> Result<Vec<Option<usize>>, NoMemory>
        ensures { IfOk result (λ v. v.items ≡ map (model.term_height (known_of self.now)) (patterns_of pats.now)) }
    {
        let mut heights = Vec::new(alloc);
        for pat in pats {
            heights.push(self.term_height(pat))?;
        }
        Ok(heights)
    }

    /// The heights of patterns as contexts.
    pub(crate) fn context_heights(
        &self,
        alloc: Global,
        pats: &[Pat],
    ) -> Result<Vec<Option<usize>>, NoMemory>
        ensures { IfOk result (λ v. v.items ≡ map (model.context_height (known_of self.now)) (patterns_of pats.now)) }
    {
        let mut heights = Vec::new(alloc);
        for pat in pats {
            heights.push(self.context_height(pat))?;
        }
        Ok(heights)
    }
}

/// The least of these heights.
pub(crate) fn least(heights: &[Option<usize>]) -> Option<usize>
    ensures { result ≡ model.least heights.now }
{
    let mut lowest = None;
    for height in heights {
        lowest = lesser(lowest, *height);
    }
    lowest
}
