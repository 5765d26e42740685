//! How far a task has come.

use jd_task::{Closure, Place};
use jd_value::{Outcome, RefId, Value};
use sqlite_items::Items;

/// What a task that has started is to wait for.
#[derive(Drop)]
pub enum Stage {
    /// Nothing: it can go on, with this answer to what it asked.
    Ready(Outcome),
    /// The answer to its process's request of this number.
    Waits(u64),
    /// That its line is printed. Main alone prints.
    Prints(Items<Value>),
}

/// The life of a task.
#[derive(Drop)]
pub enum Life {
    /// It was called with these arguments, and hasn't started.
    Called { code: Closure, args: Items<Value> },
    Running { place: Place, stage: Stage },
    Over,
}

/// How far a request for a cell's outcome has come.
#[derive(Drop)]
pub enum Answer {
    Asked,
    /// The owner answered it, and the answer isn't back at the task.
    Kept(Outcome),
    Given,
}
