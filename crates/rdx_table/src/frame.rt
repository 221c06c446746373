// Pending tasks.
ghost use Rattle.std.specs.Prelude.{◌≡◌, ◌++◌, ◌∷◌, [], IfOk};

use crate::task::{Answer, Task};
use rdx_bind::rows::Row;
use rdx_term::NoMemory;
use std::alloc::Global;

/// A pending task.
#[derive(Drop)]
pub(crate) struct Frame {
    pub(crate) task: Task,
    /// What was found for the tasks that its looks asked for, in the order in which they did.
    pub(crate) answers: Vec<Answer>,
    /// What is to be found before the next look, the first of it last.
    pub(crate) wanted: Vec<Task>,
}

impl Frame {
    /// A task at which nobody has looked yet.
    pub(crate) fn new(alloc: Global, task: Task) -> Frame
        ensures task { result.task ≡ task }
        ensures answers { result.answers.items ≡ [] }
        ensures wanted { result.wanted.items ≡ [] }
    {
        Frame {
            task,
            answers: Vec::new(alloc),
            wanted: Vec::new(alloc),
        }
    }

    /// The frame with one answer more.
    pub(crate) fn answered(self, task: Task, rows: Vec<Row>) -> Result<Frame, NoMemory>
        ensures task { IfOk result (λ f. f.task ≡ self.task) }
        ensures answers { IfOk result (λ f. f.answers.items
            ≡ self.answers.items ++ record { task = task; rows = rows } ∷ []) }
        ensures wanted { IfOk result (λ f. f.wanted ≡ self.wanted) }
    {
        let mut frame = self;
        frame.answers.push(Answer { task, rows })?;
        Ok(frame)
    }

    /// Its task; the rest is given up.
    pub(crate) fn into_task(self) -> Task
        ensures { result ≡ self.task }
    {
        self.task
    }
}
