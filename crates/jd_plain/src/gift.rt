//! What tasks get.

use jd_value::{Ask, Outcome, RefId};

/// Where the answer to a request is taken from.
#[derive(Clone, Copy)]
pub enum Source {
    /// The answer that the owner gave, which was kept.
    Kept,
    /// The cell itself.
    Cell,
}

/// What a task gets.
#[derive(Drop)]
pub struct Gift {
    /// The request that is answered, which the task's own process asked.
    pub ask: Ask,
    pub cell: RefId,
    pub outcome: Outcome,
}
