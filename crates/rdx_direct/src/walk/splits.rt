// Where a pattern splits a term, with what its names stand for then.
ghost use Rattle.std.specs.Prelude.{IfOk, IsTrue, map};
ghost use Rattle.rdx_term.specs.View.{tree_of, trees_of};
ghost use Rattle.rdx_lang.specs.Checked.{language_in};
ghost use Rattle.rdx_lang.specs.Collecting.{HasExactly};
ghost use Rattle.rdx_lang.specs.Listing.{SplitsVisibly};
ghost use Rattle.rdx_lang.specs.Patterns.{in_hole, seq};
ghost use Rattle.rdx_lang.specs.PatternView.{pattern_of, patterns_of, slot_of, items_of};
ghost use Rattle.rdx_lang.specs.Shown.{decompositions_of};
ghost use Rattle.rdx_bind.specs.Namings.{naming_of, under};
ghost use Rattle.rdx_bind.specs.Searching.{AnySplits};
ghost use Rattle.rdx_bind.specs.Spots.{ItemsSplitAt, PlacedAt, SplitsAt};
ghost use Rattle.rdx_bind.specs.Splitting.{Finds};
ghost use Rattle.rdx_direct.specs.Inside.Paths.{paths_in};
ghost use Rattle.rdx_direct.specs.Inside.Plain as model;
ghost use Rattle.rdx_direct.specs.Inside.Reaching.{Reached};
ghost use Rattle.rdx_direct.specs.Inside.Wanted.{Anything};

use crate::extending::with_contexts;
use crate::halt::Halt;
use crate::plainness::{are_plain, is_plain};
use crate::room::{Fuel, Room, spend};
use crate::splitting::{named_splits, plain_splits};
use crate::spots::{kept_and_more, spots_where};
use crate::walk::Walk;
use crate::wanted::Wanted;
use rdx_bind::extending::add_going_on;
use rdx_bind::naming::Naming;
use rdx_bind::rows::placed;
use rdx_bind::spots::{Gathered, Spot, whole};
use rdx_fill::part_at;
use rdx_lang::{Item, Pat, Split};
use rdx_term::Term;
use std::slice::from_ref;

impl<'a> Walk<'a> {
    // The spots of all of the patterns, with no names.
    #[cycle(walk)]
    #[inline(never)]
    fn any_splits(
        &self,
        pats: &[Pat],
        t: &Term,
        room: Room,
        fuel: &mut Fuel,
    ) -> Result<Vec<Spot>, Halt>
        ensures { Finds result (AnySplits (language_in self.now.language.now)
            (patterns_of pats.now) (tree_of t.now)) }
    {
        spend(fuel, 1)?;
        let mut gathered = Gathered::new(self.alloc);
        for pat in pats {
            let spots = self.splits(pat, t, room, fuel)?;
            gathered.add(spots)?;
        }
        Ok(gathered.nameless(self.alloc)?)
    }

    // A pattern with a name or a mismatch name: the spots of its part, with the name for the context.
    #[cycle(walk)]
    #[inline(never)]
    fn split_named(
        &self,
        name: Naming<'_>,
        part: &Pat,
        t: &Term,
        room: Room,
        fuel: &mut Fuel,
    ) -> Result<Vec<Spot>, Halt>
        ensures { Finds result (SplitsAt (language_in self.now.language.now)
            (under (naming_of name.entry) (pattern_of part.now)) (tree_of t.now)) }
    {
        let spots = self.splits(part, t, room, fuel)?;
        let found = with_contexts(self.alloc, spots, name, t)?;
        Ok(found)
    }

    // A pattern in the hole of another: for each spot of the left one, the spots of the right one
    // at the part, from there on.
    #[cycle(walk)]
    #[inline(never)]
    fn split_in_hole(
        &self,
        left: &Pat,
        right: &Pat,
        t: &Term,
        room: Room,
        fuel: &mut Fuel,
    ) -> Result<Vec<Spot>, Halt>
        ensures { Finds result (SplitsAt (language_in self.now.language.now)
            (in_hole (pattern_of left.now) (pattern_of right.now)) (tree_of t.now)) }
    {
        let spots = self.splits(left, t, room, fuel)?;
        let mut gathered = Gathered::new(self.alloc);
        for outer in &spots {
            let path = outer.trail.places(self.alloc)?;
            let inners = self.splits(right, part_at(t, &path), room, fuel)?;
            add_going_on(self.alloc, outer, inners, &mut gathered)?;
        }
        Ok(gathered.distinct(self.alloc)?)
    }

    // The spots of an item that may be the one that is split, as spots of the list that has its term
    // at this place.
    #[cycle(walk)]
    #[inline(never)]
    fn spots_at(
        &self,
        pat: &Pat,
        t: &Term,
        place: usize,
        may: bool,
        room: Room,
        fuel: &mut Fuel,
    ) -> Result<Vec<Spot>, Halt>
        ensures { Finds result (λ r. IsTrue may × PlacedAt (language_in self.now.language.now) place
            (pattern_of pat.now) (tree_of t.now) r) }
    {
        if !may {
            return Ok(Vec::new(self.alloc));
        }
        let spots = self.splits(pat, t, room, fuel)?;
        let found = placed(self.alloc, spots, place)?;
        Ok(found)
    }

    // The items of a list pattern that binds nothing, from the first on: where one is split and all
    // others match. What was found so far has the spots of an item before, where all others before match.
    #[cycle(walk)]
    #[inline(never)]
    fn split_items(
        &self,
        items: &[Item],
        ts: &[Term],
        room: Room,
        fuel: &mut Fuel,
    ) -> Result<Vec<Spot>, Halt>
        requires { IsTrue (model.are_plain (items_of (map slot_of items.now))) }
        ensures { Finds result (ItemsSplitAt (language_in self.now.language.now) 0
            (items_of (map slot_of items.now)) (trees_of ts.now)) }
    {
        let mut spots = Vec::new(self.alloc);
        let mut all = true;
        for i in 0..items.len() {
            match &items[i] {
                Item::One(pat) => {
                    if i >= ts.len() {
                        return Ok(Vec::new(self.alloc));
                    }
                    let term = &ts[i];
                    let so = self.fits(pat, term, room, fuel)?;
                    let more = self.spots_at(pat, term, i, all, room, fuel)?;
                    spots = kept_and_more(spots, so, more)?;
                    all &= so;
                    if spots.is_empty() && !all {
                        return Ok(spots);
                    }
                }
                Item::Many(_, _) => return Err(Halt::Spent),
            }
        }
        Ok(spots_where(self.alloc, spots, items.len() >= ts.len()))
    }

    // A list pattern, of which one item is split.
    #[cycle(walk)]
    #[inline(never)]
    fn split_list(
        &self,
        items: &[Item],
        t: &Term,
        room: Room,
        fuel: &mut Fuel,
    ) -> Result<Vec<Spot>, Halt>
        ensures { Finds result (SplitsAt (language_in self.now.language.now)
            (seq (items_of (map slot_of items.now))) (tree_of t.now)) }
    {
        match t {
            Term::Hole | Term::Int(_) | Term::Bool(_) | Term::Str(_) | Term::Sym(_) => {
                Ok(Vec::new(self.alloc))
            }
            Term::List(node) => {
                if !are_plain(items) {
                    return Err(Halt::Spent);
                }
                self.split_items(items, node.items(), room, fuel)
            }
        }
    }

    /// Exactly the spots at which the pattern splits the term.
    #[cycle(walk)]
    #[inline(never)]
    pub(crate) fn splits(
        &self,
        pat: &Pat,
        t: &Term,
        room: Room,
        fuel: &mut Fuel,
    ) -> Result<Vec<Spot>, Halt>
        ensures { Finds result (SplitsAt (language_in self.now.language.now) (pattern_of pat.now)
            (tree_of t.now)) }
    {
        let inside = room.inside()?;
        match pat {
            Pat::Wild
            | Pat::Kind(_)
            | Pat::Except(_)
            | Pat::Prefix(_)
            | Pat::Lit(_)
            | Pat::HideHole(_) => Ok(Vec::new(self.alloc)),
            Pat::Hole => Ok(whole(self.alloc)?),
            Pat::Nt(name) => self.any_splits(self.choices(name).pats, t, inside, fuel),
            Pat::Named(name, part) => {
                self.split_named(Naming::Binds(name), part, t, inside, fuel)
            }
            Pat::Differ(name, part) => {
                self.split_named(Naming::Differs(name), part, t, inside, fuel)
            }
            Pat::InHole(left, right) => self.split_in_hole(left, right, t, inside, fuel),
            Pat::Closed(part) => self.any_splits(from_ref::<Pat>(part), t, inside, fuel),
            Pat::Seq(items) => self.split_list(items, t, inside, fuel),
        }
    }

    // The paths at whose ends a pattern that binds nothing splits the term.
    #[inline(never)]
    fn paths(&self, pat: &Pat, t: &Term, fuel: &mut Fuel) -> Result<Vec<Vec<usize>>, Halt>
        ensures plain { IfOk result (λ found. IsTrue (model.is_plain (pattern_of pat.now))) }
        ensures paths { IfOk result (λ found. HasExactly (paths_in found.items)
            (Reached (language_in self.now.language.now) Anything (pattern_of pat.now)
            (tree_of t.now))) }
    {
        if !is_plain(pat) {
            return Err(Halt::Spent);
        }
        let anything = Pat::Wild;
        let wanted = Wanted {
            pat: &anything,
            nodes: None,
        };
        let reached = self.reach(pat, wanted, t, Room::whole(), fuel)?;
        Ok(reached.paths.listed(self.alloc)?)
    }

    /// Exactly what the pattern splits the term into, where it binds nothing, or only a name for the
    /// context.
    #[inline(never)]
    pub(crate) fn all_splits(
        &self,
        pat: &Pat,
        t: &Term,
        fuel: &mut Fuel,
    ) -> Result<Vec<Split>, Halt>
        ensures { IfOk result (λ found. HasExactly (decompositions_of found.items)
            (SplitsVisibly (language_in self.now.language.now) (pattern_of pat.now)
            (tree_of t.now))) }
    {
        if let Pat::Named(name, part) = pat {
            let paths = self.paths(part, t, fuel)?;
            return Ok(named_splits(self.alloc, t, &paths, name)?);
        }
        let paths = self.paths(pat, t, fuel)?;
        Ok(plain_splits(self.alloc, t, &paths)?)
    }
}
