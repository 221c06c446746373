// The nodes of patterns, made behind those that are there.
ghost use Rattle.std.specs.Prelude.{◌≡◌, ◌<◌, List, ℕ, IfOk, OnOk, length, map};
ghost use Rattle.rdx_lang.specs.Patterns.{closed, named, nt};
ghost use Rattle.rdx_lang.specs.PatternView.{pattern_of, patterns_of, slot_of, items_of};
ghost use Rattle.rdx_nodes.specs.Nodes.{
  pattern_at,
  patterns_at,
  pattern_by,
  slot_at,
  slots_at,
  AreBelow,
  AreEntries,
  DoAsWell,
  IsEntry,
  IsForm,
};
ghost use Rattle.rdx_nodes.specs.Settings.{language_at, patterns_at_hand, IsReady};
ghost use Rattle.rdx_nodes.specs.Inside.Forgetting.{Forgets, ForgetsItems, LeavesOut};
ghost use Rattle.rdx_nodes.specs.Inside.Numbering.{Adds, ForgetsSlot};
ghost use Rattle.rdx_nodes.specs.Inside.Once.{AreSomeTold, AreTold};

use crate::node::{Entry, Form, Node, Nonterminal, Turns};
use crate::once::{Once, places_of};
use crate::places::alternatives_at;
use crate::setting::Setting;
use rdx_bind::naming::{Naming, has_differ};
use rdx_lang::{Item, Pat, Ref};
use rdx_term::{Name, NoMemory};

impl<'a> Setting<'a> {
    // Adds a node whose parts are there, and gives its number.
    fn push(&mut self, form: Form<'a>, kept: bool) -> Result<usize, NoMemory>
        requires ready { IsReady self.old }
        requires form { IsForm (language_at self.old) (patterns_at_hand self.old)
            (length self.old.nodes.items) (length self.old.nodes.items) form }
        ensures adds { OnOk result (Adds self.old self.new) }
        ensures number { IfOk result (λ n. n < length self.new.nodes.items) }
        ensures pattern { IfOk result (λ n. pattern_at (patterns_at_hand self.new) n
            ≡ pattern_by (patterns_at_hand self.old) form.entry) }
    {
        let number = self.nodes.len();
        self.nodes.push(Node { form, kept })?;
        Ok(number)
    }

    // The number of a nonterminal's node, which is made where it has none yet.
    fn nonterminal(&mut self, name: &'a Ref) -> Result<usize, NoMemory>
        requires { IsReady self.old }
        ensures adds { OnOk result (Adds self.old self.new) }
        ensures number { IfOk result (λ n. n < length self.new.nodes.items) }
        ensures pattern { IfOk result (λ n.
            pattern_at (patterns_at_hand self.new) n ≡ nt name.now) }
    {
        if let Some(number) = self.index.get(name) {
            return Ok(number);
        }
        let form = Form::Nt(Nonterminal {
            name,
            alternatives: alternatives_at(self.language, self.places, name),
            opened: None,
        });
        let number = self.push(form, true)?;
        self.index.insert(name, number)?;
        Ok(number)
    }

    /// Adds the nodes of a pattern, each behind those of its parts, and gives the number of its own.
    /// Names that stand once are left out; mismatch names stay.
    #[cycle(numbering)]
    pub(crate) fn number(
        &mut self,
        pat: &'a Pat,
        once: &Once<'a>,
        kept: bool,
    ) -> Result<usize, NoMemory>
        requires ready { IsReady self.old }
        requires once { AreSomeTold once.now.told }
        ensures adds { OnOk result (Adds self.old self.new) }
        ensures number { IfOk result (λ n. n < length self.new.nodes.items) }
        ensures pattern { IfOk result (λ n. (xs : List (List ℕ)) → AreTold xs once.now.told
            → Forgets xs (pattern_of pat.now) (pattern_at (patterns_at_hand self.new) n)) }
    {
        match pat {
            Pat::Wild => self.push(Form::Wild, kept),
            Pat::Kind(kind) => self.push(Form::Kind(*kind), kept),
            Pat::Except(names) => self.push(Form::Except(names), kept),
            Pat::Prefix(start) => self.push(Form::Prefix(start), kept),
            Pat::Hole => self.push(Form::Hole, kept),
            Pat::Lit(term) => self.push(Form::Lit(term), kept),
            Pat::Nt(name) => self.nonterminal(name),
            Pat::Named(name, inner) => self.number_named(name, inner, once, kept),
            Pat::Differ(name, inner) => {
                let part = self.number(inner, once, false)?;
                self.push(Form::Named(Naming::Differs(name), part), kept)
            }
            Pat::InHole(left, right) => {
                let left = self.number(left, once, false)?;
                let right = self.number(right, once, true)?;
                self.push(Form::InHole(left, right), kept)
            }
            Pat::HideHole(inner) => {
                let part = self.number(inner, once, false)?;
                self.push(Form::HideHole(part), kept)
            }
            Pat::Closed(inner) => self.number_closed(inner, kept),
            Pat::Seq(items) => {
                let entries = self.entries(items, once)?;
                self.push(Form::Seq(entries), kept)
            }
        }
    }

    // Adds the nodes of a pattern with a name, and gives its number: that of the part itself, where
    // the name stands once.
    #[cycle(numbering)]
    fn number_named(
        &mut self,
        name: &'a Name,
        inner: &'a Pat,
        once: &Once<'a>,
        kept: bool,
    ) -> Result<usize, NoMemory>
        requires ready { IsReady self.old }
        requires once { AreSomeTold once.now.told }
        ensures adds { OnOk result (Adds self.old self.new) }
        ensures number { IfOk result (λ n. n < length self.new.nodes.items) }
        ensures pattern { IfOk result (λ n. (xs : List (List ℕ)) → AreTold xs once.now.told
            → Forgets xs (named name.now (pattern_of inner.now))
            (pattern_at (patterns_at_hand self.new) n)) }
    {
        if once.has(name.text()) {
            return self.number(inner, once, kept);
        }
        let part = self.number(inner, once, false)?;
        self.push(Form::Named(Naming::Binds(name), part), kept)
    }

    // Adds the nodes of a closed pattern with this part, in which names that stand once are left
    // out, and gives its number: that of the part itself, where no names are left and no mismatch
    // name stands in it.
    #[cycle(numbering)]
    fn number_closed(&mut self, inner: &'a Pat, kept: bool) -> Result<usize, NoMemory>
        requires ready { IsReady self.old }
        ensures adds { OnOk result (Adds self.old self.new) }
        ensures number { IfOk result (λ n. n < length self.new.nodes.items) }
        ensures pattern { IfOk result (λ n. (xs : List (List ℕ))
            → Forgets xs (closed (pattern_of inner.now))
            (pattern_at (patterns_at_hand self.new) n)) }
    {
        let places = places_of(self.alloc, inner)?;
        let once = Once::among(self.alloc, &places)?;
        if once.has_all(&places) && !has_differ(inner) {
            return self.number(inner, &once, kept);
        }
        let part = self.number(inner, &once, false)?;
        self.push(Form::Closed(part), kept)
    }

    // Adds the nodes of items, and gives the entries for them.
    #[cycle(numbering)]
    fn entries(&mut self, items: &'a [Item], once: &Once<'a>) -> Result<Vec<Entry<'a>>, NoMemory>
        requires ready { IsReady self.old }
        requires once { AreSomeTold once.now.told }
        ensures adds { OnOk result (Adds self.old self.new) }
        ensures entries { IfOk result (λ es.
            AreEntries (patterns_at_hand self.new) (length self.new.nodes.items) es.items) }
        ensures items { IfOk result (λ es. (xs : List (List ℕ)) → AreTold xs once.now.told
            → ForgetsItems xs (items_of (map slot_of items.now))
            (items_of (slots_at (patterns_at_hand self.new) es.items))) }
    {
        let mut entries = Vec::with_capacity(self.alloc, items.len())?;
        for item in items {
            let entry = self.entry(item, once)?;
            entries.push(entry)?;
        }
        Ok(entries)
    }

    // Adds the nodes of an item, and gives the entry for it.
    #[cycle(numbering)]
    fn entry(&mut self, item: &'a Item, once: &Once<'a>) -> Result<Entry<'a>, NoMemory>
        requires ready { IsReady self.old }
        requires once { AreSomeTold once.now.told }
        ensures adds { OnOk result (Adds self.old self.new) }
        ensures entry { IfOk result (λ e.
            IsEntry (patterns_at_hand self.new) (length self.new.nodes.items) e) }
        ensures slot { IfOk result (λ e. (xs : List (List ℕ)) → AreTold xs once.now.told
            → ForgetsSlot xs (slot_of item.now) (slot_at (patterns_at_hand self.new) e)) }
    {
        match item {
            Item::One(pat) => Ok(Entry::One(self.number(pat, once, false)?)),
            Item::Many(pat, length) => {
                let number = self.number(pat, once, false)?;
                let names = once.others(self.alloc, pat)?;
                let length = once.other_length(length);
                Ok(Entry::Many(Turns {
                    number,
                    names,
                    length,
                }))
            }
        }
    }

    // Adds the nodes of a pattern, and gives the number of its own. Names that stand once in it are
    // left out.
    fn number_alone(&mut self, pat: &'a Pat) -> Result<usize, NoMemory>
        requires { IsReady self.old }
        ensures adds { OnOk result (Adds self.old self.new) }
        ensures number { IfOk result (λ n. n < length self.new.nodes.items) }
        ensures pattern { IfOk result (λ n. LeavesOut (pattern_of pat.now)
            (pattern_at (patterns_at_hand self.new) n)) }
    {
        let places = places_of(self.alloc, pat)?;
        let once = Once::among(self.alloc, &places)?;
        self.number(pat, &once, false)
    }

    /// Adds the nodes of alternatives, and gives their numbers. In each, names that stand once are
    /// left out.
    pub(crate) fn number_all(&mut self, pats: &'a [Pat]) -> Result<Vec<usize>, NoMemory>
        requires { IsReady self.old }
        ensures adds { OnOk result (Adds self.old self.new) }
        ensures numbers { IfOk result (λ ns. AreBelow ns.items (length self.new.nodes.items)) }
        ensures patterns { IfOk result (λ ns. DoAsWell (language_at self.new)
            (patterns_at (patterns_at_hand self.new) ns.items) (patterns_of pats.now)) }
    {
        let mut numbers = Vec::with_capacity(self.alloc, pats.len())?;
        for pat in pats {
            let number = self.number_alone(pat)?;
            numbers.push(number)?;
        }
        Ok(numbers)
    }
}
