// The walk: one recursion over the term and the pattern.
ghost use Rattle.std.specs.Prelude.{◌≡◌, ◌↔◌, IfOk, IfSome, IfNone, IsTrue, None, map, true};
ghost use Rattle.rdx_term.specs.View.{tree_of, trees_of};
ghost use Rattle.rdx_lang.specs.Checked.{language_in};
ghost use Rattle.rdx_lang.specs.Ascending.{IsAscending};
ghost use Rattle.rdx_lang.specs.Bindings.{bound_names, name_cmp};
ghost use Rattle.rdx_lang.specs.Collecting.{HasExactly};
ghost use Rattle.rdx_lang.specs.Members.{In};
ghost use Rattle.rdx_lang.specs.Patterns.{in_hole, nt, seq, many, nil};
ghost use Rattle.rdx_lang.specs.PatternView.{pattern_of, patterns_of, slot_of, items_of};
ghost use Rattle.rdx_lang.specs.Facts.{IsAtMost};
ghost use Rattle.rdx_lang.specs.Rules.{Match, MatchItems};
ghost use Rattle.rdx_lang.specs.Shown.{binding_of, bindings_of};
ghost use Rattle.rdx_bind.specs.Namings.{naming_of, under};
ghost use Rattle.rdx_direct.specs.Inside.Going.{EndsAt, Fits, FitAll, Goes, GoesOn, Sole};
ghost use Rattle.rdx_direct.specs.Inside.Known.{AreChoices};
ghost use Rattle.rdx_direct.specs.Inside.Plain as model;
ghost use Rattle.rdx_direct.specs.Inside.Together.{Together, pairs_of};
ghost use Rattle.rdx_lang.specs.Singles as singles;

use crate::atoms::{decided, where_so};
use crate::choices::{Choices, Hint};
use crate::halt::Halt;
use crate::joined::{add_all, with_binding};
use crate::known::{choices_from, choices_of, hint_at, leaves_out, may_of};
use crate::later::Later;
use crate::named::with;
use crate::plainness::{are_plain, is_plain};
use crate::room::{Fuel, Room, spend};
use crate::turns::{are_single, is_hard, with_turns};
use rdx_bind::combining::empty_where;
use rdx_bind::naming::Naming;
use rdx_bind::parts::pattern_in;
use rdx_bind::rows::shared_bindings;
use rdx_fill::part_at;
use rdx_lang::{Binding, CheckedLang, Item, Pat, Ref};
use rdx_term::{Name, Term};
use std::alloc::Global;

// How many items a list pattern may have. The table joins what more items bind by halves.
const LONGEST: usize = 256;

mod reach;
mod splits;

/// A walk in a language.
#[derive(Clone, Copy)]
pub(crate) struct Walk<'a> {
    alloc: Global,
    language: &'a CheckedLang,
    // The places of the language's nonterminals in the order of their names: a hint.
    places: &'a [usize],
}

impl<'a> Walk<'a> {
    /// A walk in this language, with memory from here.
    pub(crate) fn new(alloc: Global, language: &'a CheckedLang, places: &'a [usize]) -> Walk<'a>
        ensures { language_in result.language.now ≡ language_in language.now }
    {
        Walk {
            alloc,
            language,
            places,
        }
    }

    // The alternatives of a nonterminal.
    fn choices(&self, name: &Ref) -> Choices<'a>
        ensures { AreChoices (language_in self.now.language.now) name.now result }
    {
        choices_of(self.language, self.places, name)
    }

    // The same of one that may stand at this place, if it is told.
    fn choices_from(&self, to: Option<usize>, name: &Ref) -> Choices<'a>
        ensures { AreChoices (language_in self.now.language.now) name.now result }
    {
        choices_from(self.language, self.places, to, name)
    }

    // Whether a nonterminal with these alternatives matches.
    #[cycle(walk)]
    #[inline(never)]
    fn fits_nt(
        &self,
        name: &Ref,
        choices: Choices<'_>,
        t: &Term,
        room: Room,
        fuel: &mut Fuel,
    ) -> Result<bool, Halt>
        requires { AreChoices (language_in self.now.language.now) name.now choices }
        ensures { IfOk result (λ any. IsTrue any ↔ Fits (language_in self.now.language.now)
            (nt name.now) (tree_of t.now)) }
    {
        spend(fuel, 1)?;
        if leaves_out(may_of(choices), t) {
            return Ok(false);
        }
        let pats = choices.pats;
        for i in 0..pats.len() {
            if self.fits_choice(&pats[i], hint_at(choices, i), t, room, fuel)? {
                return Ok(true);
            }
        }
        Ok(false)
    }

    // Whether an alternative matches, of which this is known.
    #[cycle(walk)]
    #[inline(always)]
    fn fits_choice(
        &self,
        pat: &Pat,
        hint: Hint,
        t: &Term,
        room: Room,
        fuel: &mut Fuel,
    ) -> Result<bool, Halt>
        requires { IsAtMost (language_in self.now.language.now) hint.may (pattern_of pat.now) }
        ensures { IfOk result (λ any. IsTrue any ↔ Fits (language_in self.now.language.now)
            (pattern_of pat.now) (tree_of t.now)) }
    {
        if leaves_out(hint.may, t) {
            return Ok(false);
        }
        match pat {
            Pat::Nt(name) => {
                let choices = self.choices_from(hint.to, name);
                self.fits_nt(name, choices, t, room.inside()?, fuel)
            }
            Pat::Seq(items) => {
                if hint.may.bind {
                    return self.fits_list(items, t, room, fuel);
                }
                self.fits_nameless(items, t, room, fuel)
            }
            Pat::Wild
            | Pat::Kind(_)
            | Pat::Except(_)
            | Pat::Prefix(_)
            | Pat::Hole
            | Pat::Lit(_)
            | Pat::Named(_, _)
            | Pat::Differ(_, _)
            | Pat::InHole(_, _)
            | Pat::HideHole(_)
            | Pat::Closed(_) => self.fits(pat, t, room, fuel),
        }
    }

    // Whether the pattern matches, found by what it binds.
    #[cycle(walk)]
    #[inline(never)]
    fn some(&self, pat: &Pat, t: &Term, room: Room, fuel: &mut Fuel) -> Result<bool, Halt>
        ensures { IfOk result (λ any. IsTrue any ↔ Fits (language_in self.now.language.now)
            (pattern_of pat.now) (tree_of t.now)) }
    {
        let given = empty_where(self.alloc, true)?;
        let found = self.go(pat, t, given, room, fuel)?;
        Ok(!found.is_empty())
    }

    // Whether each item has a match by itself.
    #[cycle(walk)]
    #[inline(never)]
    fn fit_all(
        &self,
        items: &[Item],
        ts: &[Term],
        room: Room,
        fuel: &mut Fuel,
    ) -> Result<bool, Halt>
        ensures { IfOk result (λ all. FitAll (language_in self.now.language.now)
            (items_of (map slot_of items.now)) (trees_of ts.now) all) }
    {
        for i in 0..items.len() {
            match &items[i] {
                Item::One(pat) => {
                    if i >= ts.len() {
                        return Ok(false);
                    }
                    if !self.fits(pat, &ts[i], room, fuel)? {
                        return Ok(false);
                    }
                }
                Item::Many(pat, length) => {
                    let (_, rest) = items.split_at(i + 1);
                    let (_, others) = ts.split_at(i);
                    return self.fit_end(pat, length, rest, others, room, fuel);
                }
            }
        }
        Ok(items.len() >= ts.len())
    }

    // The same of a repetition and the items behind it.
    #[cycle(walk)]
    #[inline(never)]
    fn fit_end(
        &self,
        pat: &Pat,
        length: &Option<Name>,
        rest: &[Item],
        ts: &[Term],
        room: Room,
        fuel: &mut Fuel,
    ) -> Result<bool, Halt>
        ensures { IfOk result (λ all. FitAll (language_in self.now.language.now)
            (many (pattern_of pat.now) length.now (items_of (map slot_of rest.now)))
            (trees_of ts.now) all) }
    {
        if length.is_none() && rest.is_empty() {
            return self.fit_run(pat, ts, room, fuel);
        }
        let given = empty_where(self.alloc, true)?;
        let found = self.go_many(pat, length, rest, ts, given, room, fuel)?;
        Ok(!found.is_empty())
    }

    // Whether the pattern matches each of the terms.
    #[cycle(walk)]
    #[inline(never)]
    fn fit_run(&self, pat: &Pat, ts: &[Term], room: Room, fuel: &mut Fuel) -> Result<bool, Halt>
        ensures { IfOk result (λ all. FitAll (language_in self.now.language.now)
            (many (pattern_of pat.now) None nil) (trees_of ts.now) all) }
    {
        for t in ts {
            if !self.fits(pat, t, room, fuel)? {
                return Ok(false);
            }
        }
        Ok(true)
    }

    // Whether a list pattern matches that binds nothing.
    #[cycle(walk)]
    #[inline(always)]
    fn fits_plain(
        &self,
        items: &[Item],
        t: &Term,
        room: Room,
        fuel: &mut Fuel,
    ) -> Result<bool, Halt>
        requires { IsTrue (model.are_plain (items_of (map slot_of items.now))) }
        ensures { IfOk result (λ any. IsTrue any ↔ Fits (language_in self.now.language.now)
            (seq (items_of (map slot_of items.now))) (tree_of t.now)) }
    {
        match t {
            Term::Hole | Term::Int(_) | Term::Bool(_) | Term::Str(_) | Term::Sym(_) => Ok(false),
            Term::List(node) => self.fit_all(items, node.items(), room, fuel),
        }
    }

    // Whether a list pattern matches of which it is known that it has no names. What is known says
    // nothing of mismatch names; they are looked for where all items match.
    #[cycle(walk)]
    #[inline(always)]
    fn fits_nameless(
        &self,
        items: &[Item],
        t: &Term,
        room: Room,
        fuel: &mut Fuel,
    ) -> Result<bool, Halt>
        ensures { IfOk result (λ any. IsTrue any ↔ Fits (language_in self.now.language.now)
            (seq (items_of (map slot_of items.now))) (tree_of t.now)) }
    {
        match t {
            Term::Hole | Term::Int(_) | Term::Bool(_) | Term::Str(_) | Term::Sym(_) => Ok(false),
            Term::List(node) => {
                if !self.fit_all(items, node.items(), room, fuel)? {
                    return Ok(false);
                }
                if are_plain(items) {
                    return Ok(true);
                }
                self.some_list(items, t, room, fuel)
            }
        }
    }

    // Whether a list pattern matches.
    #[cycle(walk)]
    #[inline(never)]
    fn fits_list(&self, items: &[Item], t: &Term, room: Room, fuel: &mut Fuel) -> Result<bool, Halt>
        ensures { IfOk result (λ any. IsTrue any ↔ Fits (language_in self.now.language.now)
            (seq (items_of (map slot_of items.now))) (tree_of t.now)) }
    {
        if are_plain(items) {
            return self.fits_plain(items, t, room, fuel);
        }
        self.some_list(items, t, room, fuel)
    }

    // The same, found by what it binds.
    #[cycle(walk)]
    #[inline(never)]
    fn some_list(&self, items: &[Item], t: &Term, room: Room, fuel: &mut Fuel) -> Result<bool, Halt>
        ensures { IfOk result (λ any. IsTrue any ↔ Fits (language_in self.now.language.now)
            (seq (items_of (map slot_of items.now))) (tree_of t.now)) }
    {
        let given = empty_where(self.alloc, true)?;
        let found = self.go_list(items, t, given, room, fuel)?;
        Ok(!found.is_empty())
    }

    // Whether the pattern matches the term.
    #[cycle(walk)]
    #[inline(always)]
    fn fits(&self, pat: &Pat, t: &Term, room: Room, fuel: &mut Fuel) -> Result<bool, Halt>
        ensures { IfOk result (λ any. IsTrue any ↔ Fits (language_in self.now.language.now)
            (pattern_of pat.now) (tree_of t.now)) }
    {
        if let Pat::Nt(name) = pat {
            return self.fits_nt(name, self.choices(name), t, room.inside()?, fuel);
        }
        match decided(self.language, pat, t) {
            Some(so) => Ok(so),
            None => self.fits_inside(pat, t, room, fuel),
        }
    }

    // The same of a pattern about which the term alone does not decide.
    #[cycle(walk)]
    #[inline(never)]
    fn fits_inside(&self, pat: &Pat, t: &Term, room: Room, fuel: &mut Fuel) -> Result<bool, Halt>
        ensures { IfOk result (λ any. IsTrue any ↔ Fits (language_in self.now.language.now)
            (pattern_of pat.now) (tree_of t.now)) }
    {
        let inside = room.inside()?;
        match pat {
            Pat::Wild | Pat::Kind(_) | Pat::Except(_) | Pat::Prefix(_) | Pat::Hole | Pat::Lit(_) =>
                Err(Halt::Spent),
            Pat::Nt(name) => self.fits_nt(name, self.choices(name), t, inside, fuel),
            Pat::Named(name, part) => self.fits_named(Naming::Binds(name), part, t, inside, fuel),
            Pat::Differ(name, part) => {
                self.fits_named(Naming::Differs(name), part, t, inside, fuel)
            }
            Pat::InHole(_, _) => self.some(pat, t, inside, fuel),
            Pat::HideHole(part) => self.fits(part, t, inside, fuel),
            Pat::Closed(part) => self.fits(part, t, inside, fuel),
            Pat::Seq(items) => self.fits_list(items, t, inside, fuel),
        }
    }

    // Whether a pattern with a name or a mismatch name matches: where its part binds nothing, whether
    // that does.
    #[cycle(walk)]
    #[inline(never)]
    fn fits_named(
        &self,
        name: Naming<'_>,
        part: &Pat,
        t: &Term,
        room: Room,
        fuel: &mut Fuel,
    ) -> Result<bool, Halt>
        ensures { IfOk result (λ any. IsTrue any ↔ Fits (language_in self.now.language.now)
            (under (naming_of name.entry) (pattern_of part.now)) (tree_of t.now)) }
    {
        if is_plain(part) {
            return self.fits(part, t, room, fuel);
        }
        let given = empty_where(self.alloc, true)?;
        let found = self.go_named(name, part, t, given, room, fuel)?;
        Ok(!found.is_empty())
    }

    // A pattern with a name or a mismatch name: what its part binds, and the name for the term.
    #[cycle(walk)]
    #[inline(never)]
    fn go_named(
        &self,
        name: Naming<'_>,
        part: &Pat,
        t: &Term,
        given: Vec<Binding>,
        room: Room,
        fuel: &mut Fuel,
    ) -> Result<Vec<Binding>, Halt>
        ensures { GoesOn result given (Match (language_in self.now.language.now)
            (under (naming_of name.entry) (pattern_of part.now)) (tree_of t.now)) }
    {
        let found = self.go(part, t, given, room, fuel)?;
        with(self.alloc, found, name, t)
    }

    // The items of a list pattern, from the first on.
    #[cycle(walk)]
    #[inline(never)]
    fn go_items(
        &self,
        items: &[Item],
        ts: &[Term],
        given: Vec<Binding>,
        room: Room,
        fuel: &mut Fuel,
    ) -> Result<Vec<Binding>, Halt>
        ensures { GoesOn result given (MatchItems (language_in self.now.language.now)
            (items_of (map slot_of items.now)) (trees_of ts.now)) }
    {
        let mut found = given;
        for i in 0..items.len() {
            match &items[i] {
                Item::One(pat) => {
                    if i >= ts.len() {
                        return Ok(Vec::new(self.alloc));
                    }
                    found = self.go(pat, &ts[i], found, room, fuel)?;
                    if found.is_empty() {
                        return Ok(found);
                    }
                }
                Item::Many(pat, length) => {
                    let (_, rest) = items.split_at(i + 1);
                    let (_, others) = ts.split_at(i);
                    return self.go_many(pat, length, rest, others, found, room, fuel);
                }
            }
        }
        Ok(where_so(self.alloc, found, items.len() >= ts.len()))
    }

    // What a turn of a repetition binds; none where it does not match. Gives up where it matches in
    // several ways.
    #[cycle(walk)]
    #[inline(never)]
    fn turn(
        &self,
        pat: &Pat,
        t: &Term,
        room: Room,
        fuel: &mut Fuel,
    ) -> Result<Option<Binding>, Halt>
        ensures some { IfOk result (λ r. IfSome r (λ c. Sole (Match
            (language_in self.now.language.now)
            (pattern_of pat.now) (tree_of t.now)) (binding_of c))) }
        ensures none { IfOk result (λ r. IfNone r ((b : _) → ¬ Match
            (language_in self.now.language.now)
            (pattern_of pat.now) (tree_of t.now) b)) }
    {
        spend(fuel, 12)?;
        if is_plain(pat) {
            if !self.fits(pat, t, room, fuel)? {
                return Ok(None);
            }
            return Ok(Some(Binding::new(Vec::new(self.alloc))));
        }
        let given = empty_where(self.alloc, true)?;
        let mut found = self.go(pat, t, given, room, fuel)?;
        let Some(binding) = found.pop() else {
            return Ok(None);
        };
        if !found.is_empty() {
            return Err(Halt::Spent);
        }
        Ok(Some(binding))
    }

    // What comes of a repetition with these turns, and the items behind it.
    #[cycle(walk)]
    #[inline(never)]
    fn go_end(
        &self,
        names: &[Name],
        length: &Option<Name>,
        turns: &[Binding],
        rest: &[Item],
        ts: &[Term],
        given: &[Binding],
        room: Room,
        fuel: &mut Fuel,
    ) -> Result<Vec<Binding>, Halt>
        requires ascending { IsAscending name_cmp names.now }
        requires bound { (b : _) → In b (bindings_of turns.now) → bound_names b ≡ names.now }
        ensures { IfOk result (λ found. HasExactly (bindings_of found.items)
            (Goes (EndsAt (language_in self.now.language.now) names.now length.now
            (items_of (map slot_of rest.now)) (trees_of ts.now) (bindings_of turns.now))
            (bindings_of given.now))) }
    {
        if are_single(rest) && rest.len() != ts.len() {
            return Ok(Vec::new(self.alloc));
        }
        spend(fuel, given.len())?;
        let shared = shared_bindings(self.alloc, given)?;
        let behind = self.go_items(rest, ts, shared, room, fuel)?;
        if behind.is_empty() {
            return Ok(behind);
        }
        spend(
            fuel,
            turns.len().saturating_mul(2).saturating_mul(behind.len()),
        )?;
        let found = with_turns(self.alloc, behind, names, length, turns)?;
        Ok(found)
    }

    // A repetition and the items behind it, one more turn at a time.
    #[cycle(walk)]
    #[inline(never)]
    fn go_many(
        &self,
        pat: &Pat,
        length: &Option<Name>,
        rest: &[Item],
        ts: &[Term],
        given: Vec<Binding>,
        room: Room,
        fuel: &mut Fuel,
    ) -> Result<Vec<Binding>, Halt>
        ensures { GoesOn result given (MatchItems (language_in self.now.language.now)
            (many (pattern_of pat.now) length.now (items_of (map slot_of rest.now)))
            (trees_of ts.now)) }
    {
        let inside = room.inside()?;
        spend(fuel, 1)?;
        let names = pat.names(self.alloc)?;
        let mut turns = Vec::new(self.alloc);
        let mut found = Vec::new(self.alloc);
        for i in 0..ts.len() {
            let (_, others) = ts.split_at(i);
            let more = self.go_end(&names, length, &turns, rest, others, &given, inside, fuel)?;
            add_all(&mut found, more)?;
            let Some(turn) = self.turn(pat, &ts[i], inside, fuel)? else {
                return Ok(found);
            };
            turns.push(turn)?;
        }
        let (_, others) = ts.split_at(ts.len());
        let more = self.go_end(&names, length, &turns, rest, others, &given, inside, fuel)?;
        add_all(&mut found, more)?;
        Ok(found)
    }

    // The items of a list pattern, each one term's. Those that may match in many ways come last, and
    // so find the names of the others bound.
    #[cycle(walk)]
    #[inline(never)]
    fn go_singles(
        &self,
        items: &[Item],
        ts: &[Term],
        given: Vec<Binding>,
        room: Room,
        fuel: &mut Fuel,
    ) -> Result<Vec<Binding>, Halt>
        requires { singles.are_single (map slot_of items.now) ≡ true }
        ensures { GoesOn result given (MatchItems (language_in self.now.language.now)
            (items_of (map slot_of items.now)) (trees_of ts.now)) }
    {
        if items.len() != ts.len() {
            return Ok(Vec::new(self.alloc));
        }
        let mut later = Vec::new(self.alloc);
        let mut found = given;
        for i in 0..items.len() {
            let pat = pattern_in(&items[i]);
            let term = &ts[i];
            if is_hard(pat) {
                later.push(Later { pat, term })?;
                continue;
            }
            found = self.go(pat, term, found, room, fuel)?;
            if found.is_empty() {
                return Ok(found);
            }
        }
        self.go_later(later, found, room, fuel)
    }

    // The patterns that were left for later, each at its term.
    #[cycle(walk)]
    #[inline(never)]
    fn go_later(
        &self,
        later: Vec<Later<'_>>,
        given: Vec<Binding>,
        room: Room,
        fuel: &mut Fuel,
    ) -> Result<Vec<Binding>, Halt>
        ensures { GoesOn result given (Together (language_in self.now.language.now)
            (pairs_of later.entry.items)) }
    {
        let mut rest = later;
        let mut found = given;
        while let Some(next) = rest.pop() {
            found = self.go(next.pat, next.term, found, room, fuel)?;
        }
        Ok(found)
    }

    // A list pattern.
    #[cycle(walk)]
    #[inline(never)]
    fn go_list(
        &self,
        items: &[Item],
        t: &Term,
        given: Vec<Binding>,
        room: Room,
        fuel: &mut Fuel,
    ) -> Result<Vec<Binding>, Halt>
        ensures { GoesOn result given (Match (language_in self.now.language.now)
            (seq (items_of (map slot_of items.now))) (tree_of t.now)) }
    {
        match t {
            Term::Hole | Term::Int(_) | Term::Bool(_) | Term::Str(_) | Term::Sym(_) => {
                Ok(Vec::new(self.alloc))
            }
            Term::List(node) => {
                if items.len() > LONGEST {
                    return Err(Halt::Spent);
                }
                let ts = node.items();
                if are_single(items) {
                    self.go_singles(items, ts, given, room, fuel)
                } else {
                    self.go_items(items, ts, given, room, fuel)
                }
            }
        }
    }

    /// Exactly the joins of those given with the bindings by which the pattern matches the term.
    #[cycle(walk)]
    #[inline(never)]
    pub(crate) fn go(
        &self,
        pat: &Pat,
        t: &Term,
        given: Vec<Binding>,
        room: Room,
        fuel: &mut Fuel,
    ) -> Result<Vec<Binding>, Halt>
        ensures { GoesOn result given (Match (language_in self.now.language.now)
            (pattern_of pat.now) (tree_of t.now)) }
    {
        let inside = room.inside()?;
        match pat {
            Pat::Wild | Pat::Kind(_) | Pat::Except(_) | Pat::Prefix(_) | Pat::Hole | Pat::Lit(_) =>
                match decided(self.language, pat, t) {
                    Some(so) => Ok(where_so(self.alloc, given, so)),
                    None => Err(Halt::Spent),
                },
            Pat::Nt(name) => {
                let any = self.fits_nt(name, self.choices(name), t, inside, fuel)?;
                Ok(where_so(self.alloc, given, any))
            }
            Pat::Closed(part) => {
                let any = self.fits(part, t, inside, fuel)?;
                Ok(where_so(self.alloc, given, any))
            }
            Pat::Named(name, part) => {
                self.go_named(Naming::Binds(name), part, t, given, inside, fuel)
            }
            Pat::Differ(name, part) => {
                self.go_named(Naming::Differs(name), part, t, given, inside, fuel)
            }
            Pat::InHole(left, right) => self.go_in_hole(left, right, t, given, inside, fuel),
            Pat::HideHole(part) => self.go(part, t, given, inside, fuel),
            Pat::Seq(items) => self.go_list(items, t, given, inside, fuel),
        }
    }

    // A pattern in the hole of another: for each spot of the left one, what the right one binds at
    // the part.
    #[cycle(walk)]
    #[inline(never)]
    fn go_in_hole(
        &self,
        left: &Pat,
        right: &Pat,
        t: &Term,
        given: Vec<Binding>,
        room: Room,
        fuel: &mut Fuel,
    ) -> Result<Vec<Binding>, Halt>
        ensures { GoesOn result given (Match (language_in self.now.language.now)
            (in_hole (pattern_of left.now) (pattern_of right.now)) (tree_of t.now)) }
    {
        if is_plain(left) {
            return self.go_reached(left, right, t, given, room, fuel);
        }
        if let Pat::Named(name, part) = left {
            if is_plain(part) {
                return self.go_named_reached(name, part, right, t, given, room, fuel);
            }
        }
        self.go_split(left, right, t, given, room, fuel)
    }

    // The same by all spots of the left one.
    #[cycle(walk)]
    #[inline(never)]
    fn go_split(
        &self,
        left: &Pat,
        right: &Pat,
        t: &Term,
        given: Vec<Binding>,
        room: Room,
        fuel: &mut Fuel,
    ) -> Result<Vec<Binding>, Halt>
        ensures { GoesOn result given (Match (language_in self.now.language.now)
            (in_hole (pattern_of left.now) (pattern_of right.now)) (tree_of t.now)) }
    {
        let spots = self.splits(left, t, room, fuel)?;
        let mut found = Vec::new(self.alloc);
        for spot in &spots {
            let path = spot.trail.places(self.alloc)?;
            let shared = shared_bindings(self.alloc, &given)?;
            let outers = with_binding(self.alloc, shared, &spot.binding)?;
            let inners = self.go(right, part_at(t, &path), outers, room, fuel)?;
            add_all(&mut found, inners)?;
        }
        Ok(found)
    }
}
