//! Tasks that were taken out of the table.
ghost use Rattle.std.specs.Prelude.{◌≡◌, MatchResult};
ghost use Rattle.jd_plain.specs.Held.{task_of};
ghost use Rattle.jd_plain.specs.Steps.{ready_task, calling_task, IsNotReady, IsNotCalled};

use crate::task::Task;
use jd_model::{Life, Stage};
use jd_task::{Closure, Place, TaskId};
use jd_value::{Outcome, RefId, Value};
use sqlite_items::Items;

/// A task in its step, whose life is still to be put in.
#[derive(Clone, Copy)]
pub struct Going {
    pub task: TaskId,
    pub home: u32,
    pub cell: Option<RefId>,
}

/// A task that can go on.
#[derive(Drop)]
pub struct Ready {
    pub home: u32,
    pub cell: Option<RefId>,
    pub place: Place,
    pub answer: Outcome,
}

/// A task that was called.
#[derive(Drop)]
pub struct Calling {
    pub home: u32,
    pub cell: Option<RefId>,
    pub code: Closure,
    pub args: Items<Value>,
}

/// The task as one that can go on, or else as it is.
pub fn as_ready(task: Task) -> Result<Ready, Task>
    ensures { MatchResult result (λ r. ready_task r ≡ task_of task) (λ k. (k ≡ task) × IsNotReady task.life) }
{
    let Task { home, cell, life } = task;
    match life {
        Life::Running { place, stage } => match stage {
            Stage::Ready(answer) => Ok(Ready {
                home,
                cell,
                place,
                answer,
            }),
            stage => Err(Task {
                home,
                cell,
                life: Life::Running { place, stage },
            }),
        },
        life => Err(Task { home, cell, life }),
    }
}

/// The task as one that was called, or else as it is.
pub fn as_called(task: Task) -> Result<Calling, Task>
    ensures { MatchResult result (λ r. calling_task r ≡ task_of task) (λ k. (k ≡ task) × IsNotCalled task.life) }
{
    let Task { home, cell, life } = task;
    match life {
        Life::Called { code, args } => Ok(Calling {
            home,
            cell,
            code,
            args,
        }),
        life => Err(Task { home, cell, life }),
    }
}
