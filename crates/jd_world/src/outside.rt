//! The world outside process 1.

use crate::workers::Workers;
use jd_model::Mark;
use jd_node::Mail;

/// The workers and the links, the number of events, and the record of effects. Process 1 itself stands outside of it.
#[derive(Drop)]
pub struct Outside {
    pub(crate) workers: Workers,
    /// The messages on the links to process 1, by the process that they come from.
    pub(crate) to_main: Mail,
    /// How many events there were.
    pub(crate) events: u64,
    pub(crate) marks: Vec<Mark>,
}
