//! The record of effects.

use jd_task::TaskId;
use jd_value::Ask;

/// An effect of a run.
#[derive(Clone, Copy, Debug, PartialEq, Eq, Drop)]
pub enum Effect {
    /// The task went on to its next operation or its end.
    Ran(TaskId),
    /// The task that was called may run.
    Started(TaskId),
    /// The owner of a cell answered the request.
    Took(Ask),
    /// That answer is back at the task.
    Returned(TaskId),
    /// The task's request was answered by what its process had fetched.
    Local(TaskId),
    /// Main's line is printed.
    Printed,
}

/// An effect, with the process that made it.
#[derive(Clone, Copy, Debug, PartialEq, Eq, Drop)]
pub struct Mark {
    pub effect: Effect,
    pub by: u32,
}
