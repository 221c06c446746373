// A look at a goal whose pattern is no list: what its parts bind and split, put together.
ghost use Rattle.std.specs.Prelude.{◌≡◌, ◌∷◌, [], ◌<◌, ◌≤◌, IfOk, OnOk, length, None};
ghost use Rattle.std.specs.Prelude.{if◌then◌else◌};
ghost use Rattle.rdx_term.specs.AtPaths.{tree_at, IsPlace};
ghost use Rattle.rdx_lang.specs.Bindings.{no_names};
ghost use Rattle.rdx_lang.specs.Collecting.{Adds, Arises, HasExactly};
ghost use Rattle.rdx_lang.specs.Listing.{IsListing};
ghost use Rattle.rdx_lang.specs.Members.{In};
ghost use Rattle.rdx_lang.specs.Order.{binding_cmp};
ghost use Rattle.rdx_lang.specs.Patterns.{in_hole, hide_hole, closed, nt};
ghost use Rattle.rdx_lang.specs.PatternView.{patterns_of};
ghost use Rattle.rdx_lang.specs.Rules.{AreAlternatives};
ghost use Rattle.rdx_lang.specs.Shown.{bindings_of};
ghost use Rattle.rdx_bind.specs.Columns.{HasAsked};
ghost use Rattle.rdx_bind.specs.Combining.{AddsBindings, JoinsWith};
ghost use Rattle.rdx_bind.specs.Namings.{naming_of, under};
ghost use Rattle.rdx_bind.specs.Rows.{split_row_of};
ghost use Rattle.rdx_bind.specs.Searching.{AnyMatches, AnySplits};
ghost use Rattle.rdx_bind.specs.Spots.{spot_of, spots_of};
ghost use Rattle.rdx_bind.specs.Splitting.{gathered_spots, GoesOn, IsNameless};
ghost use Rattle.rdx_store.specs.Stored.{tree_by_id};
ghost use Rattle.rdx_nodes.specs.Asked.{asked_where};
ghost use Rattle.rdx_nodes.specs.Nodes.{opened_in, pattern_at, patterns_at, AreBelow, AreOpened};
ghost use Rattle.rdx_nodes.specs.Settings.{IsClosedDoor};
ghost use Rattle.rdx_table.specs.Inside.Looks.{aim_pattern, aim_tree, AreAsked, IsAim, IsLook};
ghost use Rattle.rdx_table.specs.Inside.Looks.{language_of_look, patterns_of_look, trees_of_look};
ghost use Rattle.rdx_table.specs.Inside.Looks.{Meets, Stops};

use crate::look::Look;
use crate::task::{Goal, Stop, Task};
use rdx_bind::combining::{add_all_joins, empty_where, with_name};
use rdx_bind::extending::add_going_on;
use rdx_bind::listing;
use rdx_bind::naming::Naming;
use rdx_bind::rows::Row;
use rdx_bind::spots::{Gathered, Spot};
use rdx_lang::Binding;
use rdx_nodes::node::Nonterminal;
use rdx_nodes::splitting::{part_id, with_contexts};
use rdx_term::NoMemory;
use std::alloc::Global;
use std::slice::from_ref;

// Puts what the row of the part at a spot gives, together with the spot, to what was found.
fn add_inside(
    alloc: Global,
    spot: &Spot,
    row: Row,
    found: &mut Vec<Binding>,
    gathered: &mut Gathered,
) -> Result<(), NoMemory>
    ensures found { OnOk result (AddsBindings
        (JoinsWith (bindings_of row.matches.items) (spot_of spot.now).binding)
        found.old found.new) }
    ensures gathered { OnOk result (Adds
        (Arises (GoesOn (spot_of spot.now)) (spots_of row.spots.items))
        (gathered_spots gathered.old) (gathered_spots gathered.new)) }
{
    add_all_joins(alloc, &spot.binding, row.matches, found)?;
    add_going_on(alloc, spot, row.spots, gathered)
}

// The row of what was found and gathered, all of it once.
fn distinct_row(alloc: Global, found: Vec<Binding>, gathered: Gathered) -> Result<Row, NoMemory>
    ensures matches { IfOk result (λ row. IsListing binding_cmp (bindings_of row.matches.items)
        (λ b. In b (bindings_of found.items))) }
    ensures spots { IfOk result (λ row. HasExactly (spots_of row.spots.items)
        (λ s. In s (gathered_spots gathered))) }
{
    let matches = listing(alloc, found)?;
    let spots = gathered.distinct(alloc)?;
    Ok(Row { matches, spots })
}

impl<'s, 'a> Look<'s, 'a> {
    // The row of a part, which is asked for where it is not there yet.
    fn part(&self, goal: Goal, next: &mut usize) -> Result<Row, Stop>
        requires look { IsLook self.now }
        requires goal { IsAim self.now goal }
        ensures found { IfOk result (λ row. Meets self.now goal row) }
        ensures stop { Stops self.now.setting.now result }
    {
        match self.row(goal, next)? {
            Some(row) => Ok(row),
            None => Err(Stop::Asks(self.asks_of(from_ref(&goal.number), goal, 1)?)),
        }
    }

    // The goals of the patterns with these numbers at the term of the goal, as tasks: as many as
    // answers were read, but one at least and all at most. The first one comes last.
    fn asks_of(&self, numbers: &[usize], goal: Goal, answered: usize) -> Result<Vec<Task>, NoMemory>
        requires goal { IsAim self.now goal }
        requires some { 1 ≤ length numbers.now }
        requires numbers { AreBelow numbers.now (length (patterns_of_look self.now)) }
        ensures { IfOk result (λ tasks. AreAsked self.now.setting.now tasks.items) }
    {
        let count = numbers.len().min(answered.max(1));
        let mut tasks = Vec::with_capacity(self.setting.alloc, count)?;
        for i in (0..count).rev() {
            tasks.push(Task::Goal(Goal {
                number: numbers[i],
                ..goal
            }))?;
        }
        Ok(tasks)
    }

    // The row of a goal. Where it is not there yet, it is asked for with those of other patterns at
    // its term: the numbers are that of its own pattern and those of the others behind it.
    fn row_of_first(&self, goal: Goal, numbers: &[usize], next: &mut usize) -> Result<Row, Stop>
        requires look { IsLook self.now }
        requires goal { IsAim self.now goal }
        requires some { 1 ≤ length numbers.now }
        requires numbers { AreBelow numbers.now (length (patterns_of_look self.now)) }
        ensures found { IfOk result (λ row. Meets self.now goal row) }
        ensures stop { Stops self.now.setting.now result }
    {
        match self.row(goal, next)? {
            Some(row) => Ok(row),
            None => Err(Stop::Asks(self.asks_of(numbers, goal, *next)?)),
        }
    }

    // The row with the empty binding, or none, and with these spots without names.
    fn nameless_row(&self, any: bool, gathered: Gathered) -> Result<Row, NoMemory>
        ensures matches { IfOk result (λ row. bindings_of row.matches.items
            ≡ (if any then no_names ∷ [] else [])) }
        ensures spots { IfOk result (λ row. HasExactly (spots_of row.spots.items)
            (Arises IsNameless (gathered_spots gathered))) }
    {
        let alloc = self.setting.alloc;
        let matches = empty_where(alloc, any)?;
        let spots = gathered.nameless(alloc)?;
        Ok(Row { matches, spots })
    }

    // Whether one of the patterns with these numbers matches the term of the goal, and where they
    // split it, with no names; the matches of the row are the empty binding, or none.
    fn any_of(&self, numbers: &[usize], goal: Goal) -> Result<Row, Stop>
        requires look { IsLook self.now }
        requires numbers { AreBelow numbers.now (length (patterns_of_look self.now)) }
        requires goal { IsAim self.now goal }
        ensures found { IfOk result (λ row. HasAsked
            (λ b. (b ≡ no_names) × AnyMatches (language_of_look self.now)
            (patterns_at (patterns_of_look self.now) numbers.now) (aim_tree self.now goal))
            (AnySplits (language_of_look self.now)
            (patterns_at (patterns_of_look self.now) numbers.now) (aim_tree self.now goal))
            (asked_where goal.splits) (split_row_of row)) }
        ensures stop { Stops self.now.setting.now result }
    {
        let alloc = self.setting.alloc;
        let mut next = 0;
        let mut any = false;
        let mut gathered = Gathered::new(alloc);
        for i in 0..numbers.len() {
            let part = Goal {
                number: numbers[i],
                ..goal
            };
            let row = self.row_of_first(part, &numbers[i..], &mut next)?;
            any |= !row.matches.is_empty();
            if any && !goal.splits {
                let matches = empty_where(alloc, any)?;
                let spots = Vec::new(alloc);
                return Ok(Row { matches, spots });
            }
            gathered.add(row.spots)?;
        }
        Ok(self.nameless_row(any, gathered)?)
    }

    /// The row of a goal whose pattern is this nonterminal.
    pub(crate) fn nonterminal(&self, it: &Nonterminal<'a>, goal: Goal) -> Result<Row, Stop>
        requires look { IsLook self.now }
        requires goal { IsAim self.now goal }
        requires pattern { aim_pattern self.now goal ≡ nt it.now.name.now }
        requires alternatives { AreAlternatives (language_of_look self.now) it.now.name.now
            (patterns_of it.now.alternatives.now) }
        requires opened { AreOpened (language_of_look self.now) (patterns_of_look self.now)
            (length (patterns_of_look self.now)) (patterns_of it.now.alternatives.now)
            (opened_in it.now) }
        requires door { opened_in it.now ≡ None → IsClosedDoor self.now.setting.now goal.number }
        ensures found { IfOk result (λ row. Meets self.now goal row) }
        ensures stop { Stops self.now.setting.now result }
    {
        let Some(numbers) = &it.opened else {
            return Err(Stop::Opens(goal.number));
        };
        self.any_of(numbers, goal)
    }

    /// The row of a goal whose pattern is the closed one of this part.
    pub(crate) fn closed(&self, part: usize, goal: Goal) -> Result<Row, Stop>
        requires look { IsLook self.now }
        requires goal { IsAim self.now goal }
        requires part { part < length (patterns_of_look self.now) }
        requires pattern { aim_pattern self.now goal
            ≡ closed (pattern_at (patterns_of_look self.now) part) }
        ensures found { IfOk result (λ row. Meets self.now goal row) }
        ensures stop { Stops self.now.setting.now result }
    {
        self.any_of(from_ref(&part), goal)
    }

    /// The row of a goal whose pattern is this part with a name.
    pub(crate) fn named(&self, name: Naming<'_>, part: usize, goal: Goal) -> Result<Row, Stop>
        requires look { IsLook self.now }
        requires goal { IsAim self.now goal }
        requires part { part < length (patterns_of_look self.now) }
        requires pattern { aim_pattern self.now goal
            ≡ under (naming_of name) (pattern_at (patterns_of_look self.now) part) }
        ensures found { IfOk result (λ row. Meets self.now goal row) }
        ensures stop { Stops self.now.setting.now result }
    {
        let inside = Goal {
            number: part,
            ..goal
        };
        let row = self.part(inside, &mut 0)?;
        let t = self.setting.store.term(goal.id);
        let matches = with_name(self.setting.alloc, &row.matches, name, t)?;
        let spots = with_contexts(self.setting.alloc, row.spots, name, t)?;
        Ok(Row { matches, spots })
    }

    /// The row of a goal whose pattern hides the hole of this part.
    pub(crate) fn hide_hole(&self, part: usize, goal: Goal) -> Result<Row, Stop>
        requires look { IsLook self.now }
        requires goal { IsAim self.now goal }
        requires part { part < length (patterns_of_look self.now) }
        requires pattern { aim_pattern self.now goal
            ≡ hide_hole (pattern_at (patterns_of_look self.now) part) }
        ensures found { IfOk result (λ row. Meets self.now goal row) }
        ensures stop { Stops self.now.setting.now result }
    {
        let hidden = Goal {
            number: part,
            id: goal.id,
            splits: false,
        };
        self.part(hidden, &mut 0)
    }

    // The goal that asks the same of this pattern at the part at a spot.
    fn goal_of_spot(&self, spot: &Spot, number: usize, goal: Goal) -> Goal
        requires goal { IsAim self.now goal }
        requires number { number < length (patterns_of_look self.now) }
        requires place { IsPlace (aim_tree self.now goal) (spot_of spot.now).path }
        ensures number { result.number ≡ number }
        ensures id { result.id < length (trees_of_look self.now) }
        ensures part { tree_by_id (trees_of_look self.now) result.id
            ≡ tree_at (aim_tree self.now goal) (spot_of spot.now).path }
        ensures splits { result.splits ≡ goal.splits }
    {
        let id = part_id(self.setting.store, goal.id, &spot.trail);
        Goal { number, id, ..goal }
    }

    // The goals of this pattern at the parts at these spots, as tasks: as many as answers were read,
    // but one at least and all at most. The first one comes last.
    fn asks_at(
        &self,
        spots: &[Spot],
        number: usize,
        goal: Goal,
        answered: usize,
    ) -> Result<Vec<Task>, NoMemory>
        requires goal { IsAim self.now goal }
        requires number { number < length (patterns_of_look self.now) }
        requires some { 1 ≤ length spots.now }
        requires places { (s : _) → In s (spots_of spots.now)
            → IsPlace (aim_tree self.now goal) s.path }
        ensures { IfOk result (λ tasks. AreAsked self.now.setting.now tasks.items) }
    {
        let count = spots.len().min(answered.max(1));
        let mut tasks = Vec::with_capacity(self.setting.alloc, count)?;
        for i in (0..count).rev() {
            tasks.push(Task::Goal(self.goal_of_spot(&spots[i], number, goal)))?;
        }
        Ok(tasks)
    }

    // The row of a goal at a part. Where it is not there yet, it is asked for with those of its
    // pattern at other parts: the spots are that of its own part and those of the others behind it.
    fn row_at_first(
        &self,
        inner: Goal,
        spots: &[Spot],
        goal: Goal,
        next: &mut usize,
    ) -> Result<Row, Stop>
        requires look { IsLook self.now }
        requires inner { IsAim self.now inner }
        requires goal { IsAim self.now goal }
        requires some { 1 ≤ length spots.now }
        requires places { (s : _) → In s (spots_of spots.now)
            → IsPlace (aim_tree self.now goal) s.path }
        ensures found { IfOk result (λ row. Meets self.now inner row) }
        ensures stop { Stops self.now.setting.now result }
    {
        match self.row(inner, next)? {
            Some(row) => Ok(row),
            None => Err(Stop::Asks(self.asks_at(spots, inner.number, goal, *next)?)),
        }
    }

    /// The row of a goal whose pattern is the right part in the hole of the left one.
    pub(crate) fn in_hole(&self, left: usize, right: usize, goal: Goal) -> Result<Row, Stop>
        requires look { IsLook self.now }
        requires goal { IsAim self.now goal }
        requires left { left < length (patterns_of_look self.now) }
        requires right { right < length (patterns_of_look self.now) }
        requires pattern { aim_pattern self.now goal
            ≡ in_hole (pattern_at (patterns_of_look self.now) left)
            (pattern_at (patterns_of_look self.now) right) }
        ensures found { IfOk result (λ row. Meets self.now goal row) }
        ensures stop { Stops self.now.setting.now result }
    {
        let alloc = self.setting.alloc;
        let mut next = 0;
        let outer = Goal {
            number: left,
            id: goal.id,
            splits: true,
        };
        let spots = self.part(outer, &mut next)?.spots;
        let mut found = Vec::new(alloc);
        let mut gathered = Gathered::new(alloc);
        for i in 0..spots.len() {
            let spot = &spots[i];
            let inner = self.goal_of_spot(spot, right, goal);
            let row = self.row_at_first(inner, &spots[i..], goal, &mut next)?;
            add_inside(alloc, spot, row, &mut found, &mut gathered)?;
        }
        Ok(distinct_row(alloc, found, gathered)?)
    }
}
