//! How a cluster is started.

use sqlite_items::Items;

/// A worker that is lost in place of the event of that number or a later one.
#[derive(Clone, Copy, Debug, PartialEq, Eq, Drop)]
pub struct Loss {
    pub worker: u32,
    pub event: u64,
}

/// How a cluster is started.
#[derive(Drop)]
pub struct Start {
    /// How many workers there are, from process 2 on: at most 16.
    pub workers: u32,
    /// The number of the schedule.
    pub seed: u64,
    pub losses: Items<Loss>,
}
