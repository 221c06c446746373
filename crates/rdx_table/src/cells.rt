// The cells of an item of a column: what its pattern binds at each of the terms, and where it
// splits it, as far as it is asked. They come of goals, and an answer is found by its goal.
ghost use Rattle.std.specs.Prelude.{◌≡◌, ◌<◌, ◌≤◌, ◌+◌, ◌++◌, ◌∷◌, [], length};
ghost use Rattle.std.specs.Prelude.{IfNone, IfOk, IfSome, OnOk};
ghost use Rattle.rdx_bind.specs.Columns.{carried};
ghost use Rattle.rdx_bind.specs.Rows.{split_row_of, split_rows_of};
ghost use Rattle.rdx_nodes.specs.Settings.{language_at, patterns_at_hand, trees_at_hand};
ghost use Rattle.rdx_table.specs.Inside.Cells.{AddsGoal, AreCellsAt, AreFor, AreReadable};
ghost use Rattle.rdx_table.specs.Inside.Cells.{IsCell, IsCellGoal};
ghost use Rattle.rdx_table.specs.Inside.Looks.{IsAim, IsLook, IsStop, Meets, Stops};
ghost use Rattle.rdx_table.specs.Inside.Tasks.{IsTask};

use crate::look::Look;
use crate::task::{Answer, Goal, Stop, Task};
use rdx_bind::asks::Ask;
use rdx_bind::columns::empty_row;
use rdx_bind::rows::{Row, placed};
use rdx_store::TermId;
use rdx_term::NoMemory;
use std::alloc::Global;
use std::collections::{HashMap, HashSet};

// What tells goals apart: the node, the term, and whether splits are asked for.
type Key = (usize, TermId, bool);

fn key_of(goal: Goal) -> Key {
    (goal.number, goal.id, goal.splits)
}

// The places of the answers to goals.
fn places_of(alloc: Global, answers: &[Answer]) -> Result<HashMap<Key, usize>, NoMemory> {
    let mut places = HashMap::new(alloc);
    for i in 0..answers.len() {
        match &answers[i].task {
            Task::Goal(goal) => {
                places.insert(key_of(*goal), i)?;
            }
            Task::Column(_) => {}
        }
    }
    Ok(places)
}

// Puts it behind the others.
fn push<T: Drop>(list: &mut Vec<T>, x: T) -> Result<(), NoMemory>
    ensures { OnOk result (list.new.items ≡ list.old.items ++ x ∷ []) }
{
    list.push(x)?;
    Ok(())
}

/// Asks for this task alone.
pub(crate) fn ask_for(alloc: Global, task: Task) -> Stop
    ensures { (s : _) → IsTask (language_at s) (patterns_at_hand s) (trees_at_hand s) task
        → IsStop s result }
{
    match vec![in alloc; task] {
        Ok(tasks) => Stop::Asks(tasks),
        Err(_) => Stop::NoMemory,
    }
}

// Goals that have no answer yet, each once.
#[derive(Drop)]
struct Missing {
    tasks: Vec<Task>,
    keys: HashSet<Key>,
}

impl Missing {
    fn new(alloc: Global) -> Missing
        ensures { result.tasks.items ≡ [] }
    {
        Missing {
            tasks: Vec::new(alloc),
            keys: HashSet::new(alloc),
        }
    }

    // Adds the goal, if it isn't there.
    fn add(&mut self, goal: Goal) -> Result<(), NoMemory>
        ensures { OnOk result (AddsGoal goal self.old.tasks.items self.new.tasks.items) }
    {
        if self.keys.insert(key_of(goal))? {
            self.tasks.push(Task::Goal(goal))?;
        }
        Ok(())
    }

    // Stops where there are any, and asks for the first of them first.
    fn stop(self) -> Result<(), Stop>
        ensures { (s : _) → AreFor s self.tasks.items → Stops s result }
    {
        let mut tasks = self.tasks;
        if tasks.is_empty() {
            return Ok(());
        }
        tasks.reverse();
        Err(Stop::Asks(tasks))
    }
}

// What is carried on from place to place in a repetition of which cells are missing. The places
// since nothing was carried are a run. It is followed beyond a missing cell as if what is asked
// went on, for as many places as it has had so far, and one at least. So a run is found out in as
// many rounds as it can be doubled.
#[derive(Drop)]
struct Run {
    // What is carried to the next place.
    carried: Ask,
    // The first place.
    first: usize,
    // The last place to which it is followed, where a cell of it is missing.
    last: Option<usize>,
}

impl Run {
    // A run that begins at this place.
    fn from_place(first: usize) -> Run {
        Run {
            carried: Ask::Nothing,
            first,
            last: None,
        }
    }

    // Goes on to the next place, where this is asked behind the place.
    fn go_on(&mut self, place: usize, behind: Ask) {
        if behind.is_nothing() || self.last == Some(place) {
            *self = Run::from_place(place.saturating_add(1));
        } else {
            self.carried = behind;
        }
    }

    // The same where the cell at the place is missing, of which this is asked.
    fn guess(&mut self, place: usize, ask: Ask) {
        if self.last.is_none() {
            let had = place.saturating_sub(self.first).max(1);
            self.last = Some(place.saturating_add(had));
        }
        self.go_on(place, ask);
    }
}

/// Where the cells of an item are found.
#[derive(Drop)]
pub(crate) struct Cells<'s, 'a> {
    look: Look<'s, 'a>,
    /// The number of the node of the item's pattern.
    number: usize,
    /// The terms.
    ids: &'s [TermId],
    /// The place of the first of them in their list.
    place: usize,
    /// The places of the answers to goals.
    places: HashMap<Key, usize>,
}

impl<'s, 'a> Cells<'s, 'a> {
    /// Those of this pattern, at these terms of a list from this place on.
    pub(crate) fn new(
        look: Look<'s, 'a>,
        number: usize,
        ids: &'s [TermId],
        place: usize,
    ) -> Result<Cells<'s, 'a>, NoMemory>
        ensures look { IfOk result (λ c. c.look ≡ look.entry) }
        ensures number { IfOk result (λ c. c.number ≡ number) }
        ensures ids { IfOk result (λ c. c.ids.now ≡ ids.now) }
        ensures place { IfOk result (λ c. c.place ≡ place) }
    {
        let places = places_of(look.setting.alloc, look.answers)?;
        Ok(Cells {
            look,
            number,
            ids,
            place,
            places,
        })
    }

    // The goal of which the cell at the i-th term comes; none where nothing is asked.
    fn goal(&self, i: usize, ask: Ask) -> Option<Goal>
        requires { i < length self.now.ids.now }
        ensures some { IfSome result (λ g. IsCellGoal self.now i ask g) }
        ensures none { IfNone result (ask ≡ Ask.Nothing) }
    {
        let (number, id) = (self.number, self.ids[i]);
        match ask {
            Ask::Nothing => None,
            Ask::Matches => Some(Goal {
                number,
                id,
                splits: false,
            }),
            Ask::Splits => Some(Goal {
                number,
                id,
                splits: true,
            }),
        }
    }

    // What was found for the goal, if anything was.
    fn read(&self, goal: Goal) -> Result<Option<Row>, NoMemory>
        requires look { IsLook self.now.look }
        requires goal { IsAim self.now.look goal }
        ensures { IfOk result (λ r. IfSome r (λ row. Meets self.now.look goal row)) }
    {
        let mut place = match self.places.get(&key_of(goal)) {
            Some(place) => *place,
            None => self.look.answers.len(),
        };
        self.look.row(goal, &mut place)
    }

    // The cell at the i-th term, of which this is asked.
    fn cell(&self, i: usize, ask: Ask) -> Result<Row, Stop>
        requires ready { AreReadable self.now }
        requires i { i < length self.now.ids.now }
        requires within { self.now.place + length self.now.ids.now ≤ usize.MAX }
        ensures found { IfOk result (λ row. IsCell self.now i ask (split_row_of row)) }
        ensures stop { Stops self.now.look.setting.now result }
    {
        let alloc = self.look.setting.alloc;
        let Some(goal) = self.goal(i, ask) else {
            return Ok(empty_row(alloc));
        };
        let Some(row) = self.read(goal)? else {
            return Err(ask_for(alloc, Task::Goal(goal)));
        };
        let spots = placed(alloc, row.spots, self.place + i)?;
        Ok(Row {
            matches: row.matches,
            spots,
        })
    }

    // What is asked behind the i-th term, of which this is asked; `None` where its cell is missing.
    fn behind(&self, i: usize, ask: Ask, missing: &mut Missing) -> Result<Option<Ask>, NoMemory>
        requires ready { AreReadable self.now }
        requires i { i < length self.now.ids.now }
        requires missing { AreFor self.now.look.setting.now missing.old.tasks.items }
        ensures { OnOk result (AreFor self.now.look.setting.now missing.new.tasks.items) }
    {
        let Some(goal) = self.goal(i, ask) else {
            return Ok(Some(Ask::Nothing));
        };
        if let Some(row) = self.read(goal)? {
            return Ok(Some(ask.behind(&row)));
        }
        missing.add(goal)?;
        Ok(None)
    }

    // Stops where cells that are asked for are missing, and asks for them all.
    fn need(&self, asks: &[Ask]) -> Result<(), Stop>
        requires ready { AreReadable self.now }
        requires places { length asks.now ≡ length self.now.ids.now + 1 }
        ensures { Stops self.now.look.setting.now result }
    {
        let mut missing = Missing::new(self.look.setting.alloc);
        for i in 0..self.ids.len() {
            self.behind(i, asks[i], &mut missing)?;
        }
        missing.stop()
    }

    // The same, where what is asked is carried on from place to place.
    fn need_turns(&self, asks: &[Ask]) -> Result<(), Stop>
        requires ready { AreReadable self.now }
        requires places { length asks.now ≡ length self.now.ids.now + 1 }
        ensures { Stops self.now.look.setting.now result }
    {
        let mut missing = Missing::new(self.look.setting.alloc);
        let mut run = Run::from_place(0);
        for i in 0..self.ids.len() {
            let ask = run.carried.and(asks[i]);
            match self.behind(i, ask, &mut missing)? {
                Some(behind) => run.go_on(i, behind),
                None => run.guess(i, ask),
            }
        }
        missing.stop()
    }

    /// The cells: one for each term, as is asked of its place.
    pub(crate) fn cells(&self, asks: &[Ask]) -> Result<Vec<Row>, Stop>
        requires ready { AreReadable self.now }
        requires places { length asks.now ≡ length self.now.ids.now + 1 }
        requires within { self.now.place + length self.now.ids.now ≤ usize.MAX }
        ensures found { IfOk result (λ cells.
            AreCellsAt self.now asks.now (split_rows_of cells.items)) }
        ensures stop { Stops self.now.look.setting.now result }
    {
        self.need(asks)?;
        let mut cells = Vec::new(self.look.setting.alloc);
        for i in 0..self.ids.len() {
            let cell = self.cell(i, asks[i])?;
            push(&mut cells, cell)?;
        }
        Ok(cells)
    }

    /// The same for a repetition: at each place, what is asked there and behind the cell before it
    /// is asked of the cell, and of the items behind.
    pub(crate) fn turns(&self, asks: &[Ask]) -> Result<(Vec<Ask>, Vec<Row>), Stop>
        requires ready { AreReadable self.now }
        requires places { length asks.now ≡ length self.now.ids.now + 1 }
        requires within { self.now.place + length self.now.ids.now ≤ usize.MAX }
        ensures asked { IfOk result (λ found.
            found.0.items ≡ carried Ask.Nothing asks.now (split_rows_of found.1.items)) }
        ensures cells { IfOk result (λ found.
            AreCellsAt self.now found.0.items (split_rows_of found.1.items)) }
        ensures stop { Stops self.now.look.setting.now result }
    {
        self.need_turns(asks)?;
        let alloc = self.look.setting.alloc;
        let mut asked = Vec::new(alloc);
        let mut cells = Vec::new(alloc);
        let mut before = Ask::Nothing;
        for i in 0..self.ids.len() {
            let ask = before.and(asks[i]);
            let cell = self.cell(i, ask)?;
            before = ask.behind(&cell);
            push(&mut asked, ask)?;
            push(&mut cells, cell)?;
        }
        push(&mut asked, before.and(asks[self.ids.len()]))?;
        Ok((asked, cells))
    }
}
