// A look at a task: what is found for it, once what it asks for was found.
ghost use Rattle.std.specs.Prelude.{◌≡◌, ◌∷◌, [], ◌<◌, IfOk, IfSome, IsTrue, None, length};
ghost use Rattle.rdx_bind.specs.Rows.{split_row_of};
ghost use Rattle.rdx_nodes.specs.ByTerm.{has_parts};
ghost use Rattle.rdx_nodes.specs.Settings.{language_at, patterns_at_hand, trees_at_hand, IsReady};
ghost use Rattle.rdx_table.specs.Inside.LookForms.{entries_in, IsFormOf};
ghost use Rattle.rdx_table.specs.Inside.Looks.{patterns_of_look, IsAim, IsLook};
ghost use Rattle.rdx_table.specs.Inside.Looks.{Meets, MeetsColumn, Stops};
ghost use Rattle.rdx_table.specs.Inside.SameColumns.{IsSameColumn};
ghost use Rattle.rdx_table.specs.Inside.Tasks.{AreAnswers, IsFound, IsTask};

use crate::task::{Answer, Column, Goal, Stop, Task};
use rdx_bind::rows::{Row, shared_bindings, shared_spots};
use rdx_nodes::by_term::row_by_term;
use rdx_nodes::node::{Entry, Form};
use rdx_nodes::setting::Setting;
use rdx_term::NoMemory;
use std::alloc::Global;

// The same row.
fn shared_row(alloc: Global, row: &Row) -> Result<Row, NoMemory>
    ensures { IfOk result (λ copy. split_row_of copy ≡ split_row_of row.now) }
{
    let matches = shared_bindings(alloc, &row.matches)?;
    let spots = shared_spots(alloc, &row.spots)?;
    Ok(Row { matches, spots })
}

// The row alone.
fn one_row(alloc: Global, row: Row) -> Result<Vec<Row>, NoMemory>
    ensures { IfOk result (λ rows. rows.items ≡ row ∷ []) }
{
    let mut rows = Vec::with_capacity(alloc, 1)?;
    rows.push(row)?;
    Ok(rows)
}

// Whether the two columns are the same.
fn is_same_column(a: &Column, b: &Column) -> bool
    ensures { IsTrue result → IsSameColumn a.now b.now }
{
    [a.number, a.id, a.first, a.last, a.place] == [b.number, b.id, b.first, b.last, b.place]
        && a.asks == b.asks
}

// The entries of a list pattern; none of another form.
fn entries_of<'s, 'a>(form: &'s Form<'a>) -> &'s [Entry<'a>]
    ensures { result.now ≡ entries_in form.now }
{
    match form {
        Form::Wild
        | Form::Kind(_)
        | Form::Except(_)
        | Form::Prefix(_)
        | Form::Hole
        | Form::Lit(_)
        | Form::Nt(_)
        | Form::Named(_, _)
        | Form::InHole(_, _)
        | Form::HideHole(_)
        | Form::Closed(_) => &[],
        Form::Seq(entries) => entries,
    }
}

/// What a look has at hand.
#[derive(Clone, Copy)]
pub(crate) struct Look<'s, 'a> {
    pub(crate) setting: &'s Setting<'a>,
    /// What was found for the tasks that were asked for, in the order in which they were.
    pub(crate) answers: &'s [Answer],
}

impl<'s, 'a> Look<'s, 'a> {
    // The form of the pattern with this number.
    fn form(&self, number: usize) -> &'s Form<'a>
        requires look { IsLook self.now }
        requires number { number < length (patterns_of_look self.now) }
        ensures { IsFormOf self.now number result.now }
    {
        &self.setting.nodes[number].form
    }

    // The row of a goal whose pattern has this form, where the term alone decides.
    fn row_at_once(&self, form: &Form<'a>, goal: Goal) -> Option<Result<Row, NoMemory>>
        requires goal { IsAim self.now goal }
        requires form { IsFormOf self.now goal.number form.now }
        ensures row { IfSome result (λ r. IfOk r (λ row. Meets self.now goal row)) }
        ensures parts { result ≡ None → IsTrue (has_parts form.now) }
    {
        let setting = self.setting;
        let t = setting.store.term(goal.id);
        row_by_term(setting.alloc, setting.language, form, t, goal.splits)
    }

    // The row of a goal, if the answer at this place is of it.
    fn answered(&self, goal: Goal, next: usize) -> Option<&'s Row>
        requires look { IsLook self.now }
        ensures row { IfSome result (λ row. Meets self.now goal row.now) }
        ensures place { IfSome result (λ row. next < length self.now.answers.now) }
    {
        let answer = self.answers.get(next)?;
        match &answer.task {
            Task::Goal(other) if *other == goal => Some(&answer.rows[0]),
            Task::Goal(_) | Task::Column(_) => None,
        }
    }

    /// The row of a goal: at once where the term alone decides, else of the first answer to it from
    /// the next one on; `None` where that is not there yet. An answer that is passed by is of a goal
    /// that the term alone decides, or of which less is asked by now.
    pub(crate) fn row(&self, goal: Goal, next: &mut usize) -> Result<Option<Row>, NoMemory>
        requires look { IsLook self.now }
        requires goal { IsAim self.now goal }
        ensures { IfOk result (λ r. IfSome r (λ row. Meets self.now goal row)) }
    {
        if let Some(row) = self.row_at_once(self.form(goal.number), goal) {
            return Ok(Some(row?));
        }
        for place in *next..self.answers.len() {
            if let Some(row) = self.answered(goal, place) {
                *next = place + 1;
                return Ok(Some(shared_row(self.setting.alloc, row)?));
            }
        }
        Ok(None)
    }

    /// The rows of a column, if the answer at this place is of it; else `None`.
    pub(crate) fn rows(&self, column: &Column, next: usize) -> Option<&'s [Row]>
        requires look { IsLook self.now }
        ensures { IfSome result (λ rows. MeetsColumn self.now column.now rows.now) }
    {
        let answer = self.answers.get(next)?;
        match &answer.task {
            Task::Column(other) if is_same_column(other, column) => Some(&answer.rows),
            Task::Goal(_) | Task::Column(_) => None,
        }
    }

    // The row of a goal whose pattern has this form, which has parts.
    fn row_by_parts(&self, form: &Form<'a>, goal: Goal) -> Result<Row, Stop>
        requires look { IsLook self.now }
        requires goal { IsAim self.now goal }
        requires form { IsFormOf self.now goal.number form.now }
        requires parts { IsTrue (has_parts form.now) }
        ensures found { IfOk result (λ row. Meets self.now goal row) }
        ensures stop { Stops self.now.setting.now result }
    {
        match form {
            Form::Nt(it) => self.nonterminal(it, goal),
            Form::Closed(part) => self.closed(*part, goal),
            Form::Named(name, part) => self.named(*name, *part, goal),
            Form::HideHole(part) => self.hide_hole(*part, goal),
            Form::InHole(left, right) => self.in_hole(*left, *right, goal),
            Form::Seq(entries) => self.list(entries, goal),
            Form::Wild
            | Form::Kind(_)
            | Form::Except(_)
            | Form::Prefix(_)
            | Form::Hole
            | Form::Lit(_) => unreachable!(),
        }
    }

    // The row of a goal.
    fn goal(&self, goal: Goal) -> Result<Row, Stop>
        requires look { IsLook self.now }
        requires goal { IsAim self.now goal }
        ensures found { IfOk result (λ row. Meets self.now goal row) }
        ensures stop { Stops self.now.setting.now result }
    {
        let form = self.form(goal.number);
        match self.row_at_once(form, goal) {
            Some(row) => Ok(row?),
            None => self.row_by_parts(form, goal),
        }
    }
}

/// A look at a task: its rows, or what is to be found first.
pub(crate) fn look_at(
    setting: &Setting<'_>,
    task: &Task,
    answers: &[Answer],
) -> Result<Vec<Row>, Stop>
    requires ready { IsReady setting.now }
    requires task { IsTask (language_at setting.now) (patterns_at_hand setting.now)
        (trees_at_hand setting.now) task.now }
    requires answers { AreAnswers (language_at setting.now) (patterns_at_hand setting.now)
        (trees_at_hand setting.now) answers.now }
    ensures found { IfOk result (λ rows. IsFound (language_at setting.now)
        (patterns_at_hand setting.now) (trees_at_hand setting.now) task.now rows.items) }
    ensures stop { Stops setting.now result }
{
    let look = Look { setting, answers };
    match task {
        Task::Goal(goal) => {
            let row = look.goal(*goal)?;
            Ok(one_row(setting.alloc, row)?)
        }
        Task::Column(column) => look.column(entries_of(look.form(column.number)), column),
    }
}
