// The shortcuts of a relation, found by their new arrows.
ghost use Rattle.std.specs.Prelude.{◌≡◌, IfOk};
ghost use Rattle.rdx_patterns.specs.Kinds.{is_among};
ghost use Rattle.rdx_relations.specs.Expansion.{new_arrows};
ghost use Rattle.rdx_relations.specs.Inside.Arrows as model;
ghost use Rattle.rdx_relations.specs.Inside.ShortcutViews.{shortcuts_in};

use crate::shorthand::forms::Shortcut;
use rdx_patterns::shape::text;
use rdx_term::NoMemory;
use std::alloc::Global;
use std::collections::BTreeMap;

/// Shortcuts, and for each new arrow the place of the first that has it.
#[derive(Drop)]
pub(crate) struct Arrows<'a> {
    pub(crate) shortcuts: Vec<Shortcut<'a>>,
    places: BTreeMap<&'a str, usize>,
    ghost exact: { model.FindsPlaces places 0 (shortcuts_in shortcuts.items) },
}

impl<'a> Arrows<'a> {
    /// These shortcuts.
    pub(crate) fn new(alloc: Global, shortcuts: Vec<Shortcut<'a>>) -> Result<Arrows<'a>, NoMemory>
        ensures { IfOk result (λ arrows. arrows.shortcuts.items ≡ shortcuts.entry.items) }
    {
        let mut places = BTreeMap::new(alloc);
        for place in (0..shortcuts.len()).rev() {
            places.insert(text(shortcuts[place].new), place)?;
        }
        Ok(Arrows { shortcuts, places })
    }

    /// The place of the first shortcut with this new arrow.
    pub(crate) fn place(&self, arrow: &str) -> Option<usize>
        ensures { result ≡ model.place_from 0 arrow.now (shortcuts_in self.now.shortcuts.items) }
    {
        self.places.get(arrow).copied()
    }

    /// Whether a shortcut has this new arrow.
    pub(crate) fn has(&self, arrow: &str) -> bool
        ensures { result ≡ is_among (new_arrows (shortcuts_in self.now.shortcuts.items))
            arrow.now }
    {
        self.place(arrow).is_some()
    }

    /// The place of the first shortcut with this new arrow, if it is below the limit.
    pub(crate) fn place_below(&self, limit: usize, arrow: &str) -> Option<usize>
        ensures { result ≡ model.below limit
            (model.place_from 0 arrow.now (shortcuts_in self.now.shortcuts.items)) }
    {
        let place = self.place(arrow)?;
        if place < limit { Some(place) } else { None }
    }
}
