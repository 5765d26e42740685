//! Requests as the machine holds them.

use jd_model::Answer;
use jd_task::TaskId;
use jd_value::RefId;

/// A task's request for the outcome of a cell.
#[derive(Drop)]
pub struct Request {
    pub task: TaskId,
    pub cell: RefId,
    /// The task's process had fetched that outcome before.
    pub is_here: bool,
    /// Whether it was answered, and whether that answer is back at the task.
    pub answer: Answer,
}
