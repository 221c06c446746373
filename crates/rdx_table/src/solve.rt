// The loop over what is pending.
ghost use Rattle.std.specs.Prelude.{◌≡◌, ◌∷◌, [], IfOk, OnOk, length};
ghost use Rattle.rdx_nodes.specs.Settings.{language_at, patterns_at_hand, trees_at_hand, IsReady};
ghost use Rattle.rdx_table.specs.Inside.Frames.{TakesUp};
ghost use Rattle.rdx_table.specs.Inside.Looks.{Heeds, IsStop};
ghost use Rattle.rdx_table.specs.Inside.Memos.{IsMemo};
ghost use Rattle.rdx_table.specs.Inside.Tasks.{IsGoal, IsRow, IsTask};

use crate::frame::Frame;
use crate::look::look_at;
use crate::memo::{Memo, recall, remember};
use crate::task::{Goal, Stop, Task};
use rdx_bind::rows::Row;
use rdx_nodes::setting::Setting;
use rdx_term::NoMemory;
use std::collections::HashMap;

// The row that stands alone.
fn only_row(rows: Vec<Row>) -> Row
    requires { length rows.items ≡ 1 }
    ensures { rows.items ≡ result ∷ [] }
{
    let mut rows = rows;
    rows.swap_remove(0)
}

// The frame on top, where the one that was wants this task: with the rows that are recalled for it
// as an answer, or else a new one, which goes above it.
fn take_up(
    setting: &Setting<'_>,
    memo: &Memo,
    below: &mut Vec<Frame>,
    top: Frame,
    task: Task,
) -> Result<Frame, NoMemory>
    requires task { IsTask (language_at setting.now) (patterns_at_hand setting.now)
        (trees_at_hand setting.now) task }
    requires memo { IsMemo (language_at setting.now) (patterns_at_hand setting.now)
        (trees_at_hand setting.now) memo.now }
    ensures { IfOk result (TakesUp (language_at setting.now) (patterns_at_hand setting.now)
        (trees_at_hand setting.now) top task below.old.items below.new.items) }
{
    match recall(setting, memo, &task)? {
        Some(rows) => top.answered(task, rows),
        None => {
            below.push(top)?;
            Ok(Frame::new(setting.alloc, task))
        }
    }
}

// Does what is to be done first where a look at the top stops.
fn heed(setting: &mut Setting<'_>, top: &mut Frame, stop: Stop) -> Result<(), NoMemory>
    requires ready { IsReady setting.old }
    requires stop { IsStop setting.old stop }
    ensures { OnOk result (Heeds setting.old top.old stop setting.new top.new) }
{
    match stop {
        Stop::Asks(tasks) => {
            top.wanted = tasks;
            Ok(())
        }
        Stop::Opens(number) => setting.open(number),
        Stop::NoMemory => Err(NoMemory),
    }
}

// The row of a goal, with no frames below. The task on top is looked at. What it asks for is
// recalled, or goes on top of it as a task of its own. What is found for the top is an answer for
// the task below.
fn find_row(
    setting: &mut Setting<'_>,
    memo: &mut Memo,
    below: &mut Vec<Frame>,
    goal: Goal,
) -> Result<Row, NoMemory>
    requires ready { IsReady setting.old }
    requires memo { IsMemo (language_at setting.old) (patterns_at_hand setting.old)
        (trees_at_hand setting.old) memo.old }
    requires below { below.old.items ≡ [] }
    requires goal { IsGoal (language_at setting.old) (patterns_at_hand setting.old)
        (trees_at_hand setting.old) goal }
    ensures { IfOk result (λ row. IsRow (language_at setting.old)
        (patterns_at_hand setting.old) (trees_at_hand setting.old) goal row) }
{
    let alloc = setting.alloc;
    let mut top = Frame::new(alloc, Task::Goal(goal));
    loop {
        if let Some(task) = top.wanted.pop() {
            top = take_up(setting, memo, below, top, task)?;
        } else {
            match look_at(setting, &top.task, &top.answers) {
                Ok(rows) => {
                    remember(setting, memo, &top.task, &rows)?;
                    let Some(frame) = below.pop() else {
                        return Ok(only_row(rows));
                    };
                    top = frame.answered(top.into_task(), rows)?;
                }
                Err(stop) => heed(setting, &mut top, stop)?,
            }
        }
    }
}

/// The row of a goal.
pub(crate) fn solve(setting: Setting<'_>, goal: Goal) -> Result<Row, NoMemory>
    requires ready { IsReady setting }
    requires goal { IsGoal (language_at setting) (patterns_at_hand setting)
        (trees_at_hand setting) goal }
    ensures { IfOk result (λ row. IsRow (language_at setting.entry)
        (patterns_at_hand setting.entry) (trees_at_hand setting.entry) goal row) }
{
    let alloc = setting.alloc;
    let mut setting = setting;
    let mut memo: Memo = HashMap::new(alloc);
    let mut below: Vec<Frame> = Vec::new(alloc);
    find_row(&mut setting, &mut memo, &mut below, goal)
}
