// Whether a pattern that binds nothing matches, and where it splits the term, in one pass. Of the
// places at which it does only those count whose part another pattern may match.
ghost use Rattle.std.specs.Prelude.{◌≡◌, ◌↔◌, false, ℕ, List, IfOk, IsTrue, None, map};
ghost use Rattle.rdx_term.specs.View.{tree_of, trees_of};
ghost use Rattle.rdx_lang.specs.Bindings.{no_names};
ghost use Rattle.rdx_lang.specs.Checked.{language_in};
ghost use Rattle.rdx_lang.specs.Facts.{IsAtMost};
ghost use Rattle.rdx_lang.specs.Patterns.{hole, in_hole, many, named, nt, seq};
ghost use Rattle.rdx_term.specs.AtPaths.{IsPlace};
ghost use Rattle.rdx_lang.specs.PatternView.{pattern_of, slot_of, items_of};
ghost use Rattle.rdx_lang.specs.Rules.{Match, MatchItems};
ghost use Rattle.rdx_direct.specs.Inside.Going.{Fits, GoesOn, NamedAt};
ghost use Rattle.rdx_direct.specs.Inside.Known.{AreChoices};
ghost use Rattle.rdx_direct.specs.Inside.Paths.{Leads, NoPaths};
ghost use Rattle.rdx_direct.specs.Inside.Plain as model;
ghost use Rattle.rdx_direct.specs.Inside.Wanted.{AreItemsReached, AreItemsReachedWhere};
ghost use Rattle.rdx_direct.specs.Inside.Wanted.{ArePlacedWhere, AreReached};

use crate::choices::{Choices, Hint};
use crate::halt::Halt;
use crate::joined::add_all;
use crate::known::{hint_at, is_outside, may_of};
use crate::may::{is_apart, splits_nothing};
use crate::named::{has_name, part_nodes, with_context};
use crate::paths::Paths;
use crate::plainness::are_plain;
use crate::room::{Fuel, Room, further, grant, spend};
use crate::walk::Walk;
use crate::wanted::Wanted;
use crate::wanting::{is_too_small, may_be_wanted};
use rdx_bind::atoms::is_hole;
use rdx_bind::rows::shared_bindings;
use rdx_fill::part_at;
use rdx_lang::{Binding, Item, Pat, Ref};
use rdx_term::{Name, Term};
use std::alloc::Global;

/// Whether a pattern matches, and the paths at whose ends it splits the term.
#[derive(Drop)]
pub(crate) struct Reach {
    pub(crate) fits: bool,
    pub(crate) paths: Paths,
}

// No match, and no paths.
fn nothing(alloc: Global) -> Reach
    ensures fits { result.fits ≡ false }
    ensures paths { NoPaths result.paths }
{
    Reach {
        fits: false,
        paths: Paths::none(alloc),
    }
}

// Whether a pattern matches that splits nothing.
fn unsplit(alloc: Global, fits: bool) -> Reach
    ensures fits { result.fits ≡ fits }
    ensures paths { NoPaths result.paths }
{
    let paths = Paths::none(alloc);
    Reach { fits, paths }
}

/// A repetition without a name for its length, and the items behind it.
#[derive(Clone, Copy)]
struct Turns<'p> {
    // The pattern that is repeated.
    pat: &'p Pat,
    // The items behind it.
    rest: &'p [Item],
    // These with the repetition.
    from: &'p [Item],
}

impl<'a> Walk<'a> {
    // A nonterminal with these alternatives.
    #[cycle(walk)]
    #[inline(never)]
    fn reach_nt(
        &self,
        name: &Ref,
        choices: Choices<'_>,
        wanted: Wanted<'_>,
        t: &Term,
        room: Room,
        fuel: &mut Fuel,
    ) -> Result<Reach, Halt>
        requires { AreChoices (language_in self.now.language.now) name.now choices }
        ensures fits { IfOk result (λ r. IsTrue r.fits ↔ Fits (language_in self.now.language.now)
            (nt name.now) (tree_of t.now)) }
        ensures paths { IfOk result (λ r. AreReached (language_in self.now.language.now)
            wanted.entry (nt name.now) (tree_of t.now) r.paths) }
    {
        if !may_of(choices).split {
            let fits = self.fits_nt(name, choices, t, room, fuel)?;
            return Ok(unsplit(self.alloc, fits));
        }
        spend(fuel, 1)?;
        let mut fits = false;
        let mut paths = Paths::none(self.alloc);
        let pats = choices.pats;
        for i in 0..pats.len() {
            let pat = &pats[i];
            let hint = hint_at(choices, i);
            if is_outside(hint.may, t) {
                continue;
            }
            if is_apart(pat, t) {
                continue;
            }
            let reached = self.reach_choice(pat, hint, wanted, t, room, fuel)?;
            fits |= reached.fits;
            paths = paths.and(self.alloc, reached.paths, room, fuel)?;
        }
        Ok(Reach { fits, paths })
    }

    // An alternative, of which this is known.
    #[cycle(walk)]
    #[inline(never)]
    fn reach_choice(
        &self,
        pat: &Pat,
        hint: Hint,
        wanted: Wanted<'_>,
        t: &Term,
        room: Room,
        fuel: &mut Fuel,
    ) -> Result<Reach, Halt>
        requires { IsAtMost (language_in self.now.language.now) hint.may (pattern_of pat.now) }
        ensures fits { IfOk result (λ r. IsTrue r.fits ↔ Fits (language_in self.now.language.now)
            (pattern_of pat.now) (tree_of t.now)) }
        ensures paths { IfOk result (λ r. AreReached (language_in self.now.language.now)
            wanted.entry (pattern_of pat.now) (tree_of t.now) r.paths) }
    {
        if !hint.may.split || is_too_small(wanted, t) {
            let fits = self.fits_choice(pat, hint, t, room, fuel)?;
            return Ok(unsplit(self.alloc, fits));
        }
        match pat {
            Pat::Nt(name) => {
                let choices = self.choices_from(hint.to, name);
                self.reach_nt(name, choices, wanted, t, room.inside()?, fuel)
            }
            Pat::Seq(items) => self.reach_list(items, wanted, t, room, fuel),
            Pat::Wild
            | Pat::Kind(_)
            | Pat::Except(_)
            | Pat::Prefix(_)
            | Pat::Hole
            | Pat::Lit(_)
            | Pat::Named(_, _)
            | Pat::Differ(_, _)
            | Pat::InHole(_, _)
            | Pat::HideHole(_)
            | Pat::Closed(_) => self.reach(pat, wanted, t, room, fuel),
        }
    }

    // An item of a list pattern at the term that stands at this place of the list; no paths where this
    // is not asked.
    #[cycle(walk)]
    #[inline(never)]
    fn reach_at(
        &self,
        pat: &Pat,
        wanted: Wanted<'_>,
        t: &Term,
        place: usize,
        asked: bool,
        room: Room,
        fuel: &mut Fuel,
    ) -> Result<Reach, Halt>
        ensures fits { IfOk result (λ r. IsTrue r.fits ↔ Fits (language_in self.now.language.now)
            (pattern_of pat.now) (tree_of t.now)) }
        ensures paths { IfOk result (λ r. ArePlacedWhere asked
            (language_in self.now.language.now) wanted.entry place (pattern_of pat.now)
            (tree_of t.now) r.paths) }
    {
        if !asked {
            let fits = self.fits(pat, t, room, fuel)?;
            return Ok(unsplit(self.alloc, fits));
        }
        let Reach { fits, paths } = self.reach(pat, wanted, t, room, fuel)?;
        let paths = paths.within(self.alloc, place)?;
        Ok(Reach { fits, paths })
    }

    // The items of a list pattern that binds nothing, the first of whose terms stands at this place.
    #[cycle(walk)]
    #[inline(never)]
    fn reach_items(
        &self,
        items: &[Item],
        wanted: Wanted<'_>,
        ts: &[Term],
        place: usize,
        room: Room,
        fuel: &mut Fuel,
    ) -> Result<Reach, Halt>
        requires { IsTrue (model.are_plain (items_of (map slot_of items.now))) }
        ensures fits { IfOk result (λ r. IsTrue r.fits ↔ MatchItems
            (language_in self.now.language.now)
            (items_of (map slot_of items.now)) (trees_of ts.now) no_names) }
        ensures paths { IfOk result (λ r. AreItemsReached (language_in self.now.language.now)
            wanted.entry place (items_of (map slot_of items.now)) (trees_of ts.now) r.paths) }
    {
        let mut paths = Paths::none(self.alloc);
        let mut all = true;
        for i in 0..items.len() {
            let here = further(place, i)?;
            match &items[i] {
                Item::One(pat) => {
                    if i >= ts.len() {
                        return Ok(nothing(self.alloc));
                    }
                    let Reach { fits, paths: more } = self.reach_at(
                        pat, wanted, &ts[i], here, all, room, fuel,
                    )?;
                    paths = paths.kept_and(self.alloc, fits, more, room, fuel)?;
                    all &= fits;
                    if paths.is_empty() && !all {
                        return Ok(nothing(self.alloc));
                    }
                }
                Item::Many(pat, _) => {
                    let (_, from) = items.split_at(i);
                    let (_, rest) = items.split_at(i + 1);
                    let (_, others) = ts.split_at(i);
                    let turns = Turns { pat, rest, from };
                    let Reach { fits, paths: more } = self.reach_rest(
                        turns, wanted, others, here, all, room, fuel,
                    )?;
                    let paths = paths.kept_and(self.alloc, fits, more, room, fuel)?;
                    return Ok(Reach {
                        fits: all & fits,
                        paths,
                    });
                }
            }
        }
        let end = items.len() >= ts.len();
        if !end {
            return Ok(nothing(self.alloc));
        }
        Ok(Reach { fits: all, paths })
    }

    // The items from a repetition on; no paths where this is not asked.
    #[cycle(walk)]
    #[inline(never)]
    fn reach_rest(
        &self,
        turns: Turns<'_>,
        wanted: Wanted<'_>,
        ts: &[Term],
        place: usize,
        asked: bool,
        room: Room,
        fuel: &mut Fuel,
    ) -> Result<Reach, Halt>
        requires plain { IsTrue (model.are_plain (many (pattern_of turns.pat.now) None
            (items_of (map slot_of turns.rest.now)))) }
        requires from { items_of (map slot_of turns.from.now) ≡ many (pattern_of turns.pat.now)
            None (items_of (map slot_of turns.rest.now)) }
        ensures fits { IfOk result (λ r. IsTrue r.fits ↔ MatchItems
            (language_in self.now.language.now)
            (many (pattern_of turns.entry.pat.now) None (items_of (map slot_of
            turns.entry.rest.now))) (trees_of ts.now) no_names) }
        ensures paths { IfOk result (λ r. AreItemsReachedWhere asked
            (language_in self.now.language.now) wanted.entry place
            (many (pattern_of turns.entry.pat.now) None (items_of (map slot_of
            turns.entry.rest.now))) (trees_of ts.now) r.paths) }
    {
        if asked {
            return self.reach_many(turns, wanted, ts, place, room, fuel);
        }
        let fits = self.all_fit(turns.from, ts, room, fuel)?;
        Ok(unsplit(self.alloc, fits))
    }

    // Whether the items match, which bind nothing.
    #[cycle(walk)]
    #[inline(never)]
    fn all_fit(
        &self,
        items: &[Item],
        ts: &[Term],
        room: Room,
        fuel: &mut Fuel,
    ) -> Result<bool, Halt>
        requires { IsTrue (model.are_plain (items_of (map slot_of items.now))) }
        ensures { IfOk result (λ so. IsTrue so ↔ MatchItems (language_in self.now.language.now)
            (items_of (map slot_of items.now)) (trees_of ts.now) no_names) }
    {
        self.fit_all(items, ts, room, fuel)
    }

    // The paths, where the items match.
    #[cycle(walk)]
    #[inline(never)]
    fn kept_where(
        &self,
        paths: Paths,
        items: &[Item],
        ts: &[Term],
        room: Room,
        fuel: &mut Fuel,
    ) -> Result<Paths, Halt>
        requires { IsTrue (model.are_plain (items_of (map slot_of items.now))) }
        ensures { IfOk result (λ kept. (w : List ℕ) → Leads kept w ↔ (Leads paths w × MatchItems
            (language_in self.now.language.now)
            (items_of (map slot_of items.now)) (trees_of ts.now) no_names)) }
    {
        if paths.is_empty() {
            return Ok(paths);
        }
        if self.all_fit(items, ts, room, fuel)? {
            Ok(paths)
        } else {
            Ok(Paths::none(self.alloc))
        }
    }

    // A repetition and the items behind it, one more turn at a time.
    #[cycle(walk)]
    #[inline(never)]
    fn reach_many(
        &self,
        turns: Turns<'_>,
        wanted: Wanted<'_>,
        ts: &[Term],
        place: usize,
        room: Room,
        fuel: &mut Fuel,
    ) -> Result<Reach, Halt>
        requires plain { IsTrue (model.are_plain (many (pattern_of turns.pat.now) None
            (items_of (map slot_of turns.rest.now)))) }
        requires from { items_of (map slot_of turns.from.now) ≡ many (pattern_of turns.pat.now)
            None (items_of (map slot_of turns.rest.now)) }
        ensures fits { IfOk result (λ r. IsTrue r.fits ↔ MatchItems
            (language_in self.now.language.now)
            (many (pattern_of turns.entry.pat.now) None (items_of (map slot_of
            turns.entry.rest.now))) (trees_of ts.now) no_names) }
        ensures paths { IfOk result (λ r. AreItemsReached (language_in self.now.language.now)
            wanted.entry place (many (pattern_of turns.entry.pat.now) None (items_of (map slot_of
            turns.entry.rest.now))) (trees_of ts.now) r.paths) }
    {
        let inside = room.inside()?;
        let mut fits = false;
        let mut paths = Paths::none(self.alloc);
        for i in 0..ts.len() {
            spend(fuel, 1)?;
            let here = further(place, i)?;
            let (_, others) = ts.split_at(i);
            let end = self.reach_items(turns.rest, wanted, others, here, inside, fuel)?;
            fits |= end.fits;
            paths = paths.and(self.alloc, end.paths, inside, fuel)?;
            let turn = self.reach_at(turns.pat, wanted, &ts[i], here, true, inside, fuel)?;
            let (_, behind) = ts.split_at(i + 1);
            let more = self.kept_where(turn.paths, turns.from, behind, inside, fuel)?;
            paths = paths.and(self.alloc, more, inside, fuel)?;
            if !turn.fits {
                return Ok(Reach { fits, paths });
            }
        }
        let (_, others) = ts.split_at(ts.len());
        let here = further(place, ts.len())?;
        let end = self.reach_items(turns.rest, wanted, others, here, inside, fuel)?;
        fits |= end.fits;
        paths = paths.and(self.alloc, end.paths, inside, fuel)?;
        Ok(Reach { fits, paths })
    }

    // A list pattern.
    #[cycle(walk)]
    #[inline(never)]
    fn reach_list(
        &self,
        items: &[Item],
        wanted: Wanted<'_>,
        t: &Term,
        room: Room,
        fuel: &mut Fuel,
    ) -> Result<Reach, Halt>
        ensures fits { IfOk result (λ r. IsTrue r.fits ↔ Fits (language_in self.now.language.now)
            (seq (items_of (map slot_of items.now))) (tree_of t.now)) }
        ensures paths { IfOk result (λ r. AreReached (language_in self.now.language.now)
            wanted.entry (seq (items_of (map slot_of items.now))) (tree_of t.now) r.paths) }
    {
        match t {
            Term::Hole | Term::Int(_) | Term::Bool(_) | Term::Str(_) | Term::Sym(_) => {
                Ok(nothing(self.alloc))
            }
            Term::List(node) => {
                if !are_plain(items) {
                    return Err(Halt::Spent);
                }
                self.reach_items(items, wanted, node.items(), 0, room, fuel)
            }
        }
    }

    /// Whether the pattern matches the term, and the paths at whose ends it splits it, as far as the
    /// part may be as it is wanted.
    #[cycle(walk)]
    #[inline(never)]
    pub(crate) fn reach(
        &self,
        pat: &Pat,
        wanted: Wanted<'_>,
        t: &Term,
        room: Room,
        fuel: &mut Fuel,
    ) -> Result<Reach, Halt>
        ensures fits { IfOk result (λ r. IsTrue r.fits ↔ Fits (language_in self.now.language.now)
            (pattern_of pat.now) (tree_of t.now)) }
        ensures paths { IfOk result (λ r. AreReached (language_in self.now.language.now)
            wanted.entry (pattern_of pat.now) (tree_of t.now) r.paths) }
    {
        let inside = room.inside()?;
        if splits_nothing(pat) {
            let fits = self.fits(pat, t, inside, fuel)?;
            return Ok(unsplit(self.alloc, fits));
        }
        match pat {
            Pat::Hole => self.reach_hole(wanted, t),
            Pat::Nt(name) => self.reach_nt(name, self.choices(name), wanted, t, inside, fuel),
            Pat::Seq(items) => self.reach_list(items, wanted, t, inside, fuel),
            Pat::Wild
            | Pat::Kind(_)
            | Pat::Except(_)
            | Pat::Prefix(_)
            | Pat::Lit(_)
            | Pat::Named(_, _)
            | Pat::Differ(_, _)
            | Pat::InHole(_, _)
            | Pat::HideHole(_)
            | Pat::Closed(_) => Err(Halt::Spent),
        }
    }

    // The hole.
    #[inline(never)]
    fn reach_hole(&self, wanted: Wanted<'_>, t: &Term) -> Result<Reach, Halt>
        ensures fits { IfOk result (λ r. IsTrue r.fits ↔ Fits (language_in self.now.language.now)
            hole (tree_of t.now)) }
        ensures paths { IfOk result (λ r. AreReached (language_in self.now.language.now)
            wanted.entry hole (tree_of t.now) r.paths) }
    {
        let fits = is_hole(t);
        if !may_be_wanted(self.language, wanted, t) {
            return Ok(unsplit(self.alloc, fits));
        }
        let paths = Paths::root(self.alloc);
        Ok(Reach { fits, paths })
    }

    /// A pattern in the hole of one that binds nothing: for each place that the left one reaches, what
    /// the right one binds at the part.
    #[cycle(walk)]
    #[inline(never)]
    pub(crate) fn go_reached(
        &self,
        left: &Pat,
        right: &Pat,
        t: &Term,
        given: Vec<Binding>,
        room: Room,
        fuel: &mut Fuel,
    ) -> Result<Vec<Binding>, Halt>
        requires { IsTrue (model.is_plain (pattern_of left.now)) }
        ensures { GoesOn result given (Match (language_in self.now.language.now)
            (in_hole (pattern_of left.now) (pattern_of right.now)) (tree_of t.now)) }
    {
        let reached = self.reach(
            left,
            Wanted {
                pat: right,
                nodes: None,
            },
            t,
            room,
            fuel,
        )?;
        let mut found = Vec::new(self.alloc);
        let paths = reached.paths.listed(self.alloc)?;
        for path in &paths {
            let shared = shared_bindings(self.alloc, &given)?;
            let part = part_at(t, path);
            grant(fuel, part);
            let inners = self.go(right, part, shared, room, fuel)?;
            add_all(&mut found, inners)?;
        }
        Ok(found)
    }

    /// The same where the left one has a name.
    #[cycle(walk)]
    #[inline(never)]
    pub(crate) fn go_named_reached(
        &self,
        name: &Name,
        left: &Pat,
        right: &Pat,
        t: &Term,
        given: Vec<Binding>,
        room: Room,
        fuel: &mut Fuel,
    ) -> Result<Vec<Binding>, Halt>
        requires { IsTrue (model.is_plain (pattern_of left.now)) }
        ensures { GoesOn result given (Match (language_in self.now.language.now)
            (in_hole (named name.now (pattern_of left.now)) (pattern_of right.now))
            (tree_of t.now)) }
    {
        let nodes = part_nodes(&given, name, t);
        let reached = self.reach(left, Wanted { pat: right, nodes }, t, room, fuel)?;
        let mut found = Vec::new(self.alloc);
        let paths = reached.paths.listed(self.alloc)?;
        for path in &paths {
            let shared = shared_bindings(self.alloc, &given)?;
            grant(fuel, part_at(t, path));
            let both = self.go_with_context(name, right, t, path, shared, room, fuel)?;
            add_all(&mut found, both)?;
        }
        Ok(found)
    }

    // What the right pattern binds at the end of a path, with a name for the context. Where the right
    // one has this name too it is bound before, so that it finds the context there.
    #[cycle(walk)]
    #[inline(never)]
    fn go_with_context(
        &self,
        name: &Name,
        right: &Pat,
        t: &Term,
        path: &[usize],
        given: Vec<Binding>,
        room: Room,
        fuel: &mut Fuel,
    ) -> Result<Vec<Binding>, Halt>
        requires { IsPlace (tree_of t.now) path.now }
        ensures { GoesOn result given (NamedAt (language_in self.now.language.now)
            (pattern_of right.now) (tree_of t.now) name.now path.now) }
    {
        let part = part_at(t, path);
        if has_name(right, name) {
            let outers = with_context(self.alloc, given, name, t, path)?;
            return self.go(right, part, outers, room, fuel);
        }
        let inners = self.go(right, part, given, room, fuel)?;
        with_context(self.alloc, inners, name, t, path)
    }
}
