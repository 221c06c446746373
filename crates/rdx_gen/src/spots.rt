// The heights of a list with a context at one of its items.
ghost use Rattle.std.specs.Prelude.{◌≡◌, IfOk, Some, map};
ghost use Rattle.rdx_lang.specs.PatternView.{slot_of, items_of};
ghost use Rattle.rdx_gen.specs.Heights as model;
ghost use Rattle.rdx_gen.specs.Inside.Spots as inside;
ghost use Rattle.rdx_gen.specs.KnownView.{known_of};

use crate::heights::greater;
use crate::known::Known;
use rdx_lang::Item;
use rdx_term::NoMemory;
use std::alloc::Global;

impl Known<'_> {
    // The greater of the item's height as a term and of another one; the other one where the item
    // stands under an ellipsis.
    fn with_item(&self, item: &Item, other: Option<usize>) -> Option<usize>
        ensures { result ≡ inside.with_slot (known_of self.now) (slot_of item.now) other }
    {
        match item {
            Item::One(pat) => greater(self.term_height(pat), other),
            Item::Many(_, _) => other,
        }
    }

    // The same behind that one.
    fn with_item_behind(&self, other: Option<usize>, item: &Item) -> Option<usize>
        ensures { result ≡ inside.behind_slot (known_of self.now) other (slot_of item.now) }
    {
        match item {
            Item::One(pat) => greater(other, self.term_height(pat)),
            Item::Many(_, _) => other,
        }
    }

    // The greater of the item's height as a context and of another one.
    fn around_item(&self, item: &Item, other: Option<usize>) -> Option<usize>
        ensures { result ≡ inside.around_slot (known_of self.now) (slot_of item.now) other }
    {
        let (Item::One(pat) | Item::Many(pat, _)) = item;
        greater(self.context_height(pat), other)
    }

    // For each item, from the last one on, the height of it as a context and of those behind it as
    // terms.
    fn backwards(&self, alloc: Global, items: &[Item]) -> Result<Vec<Option<usize>>, NoMemory>
        ensures { IfOk result (λ v. v.items ≡ inside.backwards (known_of self.now)
            (map slot_of items.now)) }
    {
        let mut heights = Vec::new(alloc);
        let mut behind = Some(0);
        let mut k = items.len();
        while k > 0 {
            k -= 1;
            let item = &items[k];
            heights.push(self.around_item(item, behind))?;
            behind = self.with_item(item, behind);
        }
        Ok(heights)
    }

    /// For each item, the height of the list with the context at it.
    pub(crate) fn place_heights(
        &self,
        alloc: Global,
        items: &[Item],
    ) -> Result<Vec<Option<usize>>, NoMemory>
        ensures { IfOk result (λ v. v.items ≡ model.place_heights (known_of self.now) (Some 0)
            (items_of (map slot_of items.now))) }
    {
        let mut behind = self.backwards(alloc, items)?;
        let mut heights = Vec::new(alloc);
        let mut before = Some(0);
        for item in items {
            let Some(here) = behind.pop() else {
                return Err(NoMemory);
            };
            heights.push(greater(before, here))?;
            before = self.with_item_behind(before, item);
        }
        Ok(heights)
    }
}
