// What was found for kept nodes.
ghost use Rattle.std.specs.Prelude.{◌≡◌, ◌∷◌, [], IfOk, IfSome, OnOk};
ghost use Rattle.rdx_nodes.specs.Settings.{language_at, patterns_at_hand, trees_at_hand};
ghost use Rattle.rdx_table.specs.Inside.Memos.{IsMemo};
ghost use Rattle.rdx_table.specs.Inside.Tasks.{IsFound, IsGoal, IsRow, IsTask};

use crate::task::{Goal, Task};
use rdx_bind::rows::Row;
use rdx_nodes::entry::Entry;
use rdx_nodes::setting::Setting;
use rdx_term::NoMemory;
use std::alloc::Global;
use std::collections::HashMap;

/// What was found for a node and a term, by the number of the node and the id of the term.
pub(crate) type Memo = HashMap<(usize, usize), Entry>;

// This row alone.
fn alone(alloc: Global, row: Row) -> Result<Vec<Row>, NoMemory>
    ensures { IfOk result (λ rows. rows.items ≡ row ∷ []) }
{
    let mut rows = Vec::with_capacity(alloc, 1)?;
    rows.push(row)?;
    Ok(rows)
}

// The row of the goal, if there is an entry with what it asks for.
fn known(setting: &Setting<'_>, memo: &Memo, goal: Goal) -> Result<Option<Row>, NoMemory>
    requires goal { IsGoal (language_at setting.now) (patterns_at_hand setting.now)
        (trees_at_hand setting.now) goal }
    requires memo { IsMemo (language_at setting.now) (patterns_at_hand setting.now)
        (trees_at_hand setting.now) memo.now }
    ensures { IfOk result (λ r. IfSome r (IsRow (language_at setting.now)
        (patterns_at_hand setting.now) (trees_at_hand setting.now) goal)) }
{
    if !setting.nodes[goal.number].kept {
        return Ok(None);
    }
    let Some(entry) = memo.get(&(goal.number, goal.id)) else {
        return Ok(None);
    };
    if !entry.serves(goal.splits) {
        return Ok(None);
    }
    let row = entry.row(setting.alloc, goal.splits)?;
    Ok(Some(row))
}

/// The rows of the task, if it is a goal that has an entry with what it asks for.
pub(crate) fn recall(
    setting: &Setting<'_>,
    memo: &Memo,
    task: &Task,
) -> Result<Option<Vec<Row>>, NoMemory>
    requires task { IsTask (language_at setting.now) (patterns_at_hand setting.now)
        (trees_at_hand setting.now) task.now }
    requires memo { IsMemo (language_at setting.now) (patterns_at_hand setting.now)
        (trees_at_hand setting.now) memo.now }
    ensures { IfOk result (λ r. IfSome r (λ rows. IsFound (language_at setting.now)
        (patterns_at_hand setting.now) (trees_at_hand setting.now) task.now rows.items)) }
{
    let Task::Goal(goal) = task else {
        return Ok(None);
    };
    match known(setting, memo, *goal)? {
        Some(row) => {
            let rows = alone(setting.alloc, row)?;
            Ok(Some(rows))
        }
        None => Ok(None),
    }
}

// Makes the row the entry of the goal, if its node is kept.
fn keep(setting: &Setting<'_>, memo: &mut Memo, goal: Goal, row: &Row) -> Result<(), NoMemory>
    requires goal { IsGoal (language_at setting.now) (patterns_at_hand setting.now)
        (trees_at_hand setting.now) goal }
    requires row { IsRow (language_at setting.now) (patterns_at_hand setting.now)
        (trees_at_hand setting.now) goal row.now }
    requires memo { IsMemo (language_at setting.now) (patterns_at_hand setting.now)
        (trees_at_hand setting.now) memo.old }
    ensures { OnOk result (IsMemo (language_at setting.now) (patterns_at_hand setting.now)
        (trees_at_hand setting.now) memo.new) }
{
    if setting.nodes[goal.number].kept {
        let entry = Entry::new(setting.alloc, goal.splits, row)?;
        memo.insert((goal.number, goal.id), entry)?;
    }
    Ok(())
}

/// Keeps what was found for the task, if it is a goal whose node is kept.
pub(crate) fn remember(
    setting: &Setting<'_>,
    memo: &mut Memo,
    task: &Task,
    rows: &[Row],
) -> Result<(), NoMemory>
    requires task { IsTask (language_at setting.now) (patterns_at_hand setting.now)
        (trees_at_hand setting.now) task.now }
    requires found { IsFound (language_at setting.now) (patterns_at_hand setting.now)
        (trees_at_hand setting.now) task.now rows.now }
    requires memo { IsMemo (language_at setting.now) (patterns_at_hand setting.now)
        (trees_at_hand setting.now) memo.old }
    ensures { OnOk result (IsMemo (language_at setting.now) (patterns_at_hand setting.now)
        (trees_at_hand setting.now) memo.new) }
{
    match task {
        Task::Goal(goal) => keep(setting, memo, *goal, &rows[0]),
        Task::Column(_) => Ok(()),
    }
}
