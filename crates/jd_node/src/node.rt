//! The node.
ghost use Rattle.std.specs.Prelude.{◌+◌, ◌<◌, ◌^◌};

use crate::asks::Asks;
use crate::cells::Cells;
use crate::mail::Mail;
use crate::tasks::Tasks;
use crate::waits::Waits;
use jd_model::Effect;
use jd_task::TaskId;
use jd_value::Outcome;
use std::alloc::Global;
use std::collections::VecDeque;

/// A process of the cluster.
///
/// After a step that answered `OutOfMemory` it is used no more.
#[derive(Drop)]
pub struct Node {
    pub(crate) alloc: Global,
    pub(crate) id: u32,
    pub(crate) workers: u32,
    pub(crate) tasks: Tasks,
    /// The tasks that can go on, the oldest first.
    pub(crate) ready: VecDeque<TaskId>,
    /// The cells that are stored here.
    pub(crate) cells: Cells<Option<Outcome>>,
    /// The requests that wait here.
    pub(crate) waits: Waits,
    /// The requests of this process.
    pub(crate) asks: Asks,
    /// The outcomes that were fetched here.
    pub(crate) cache: Cells<Outcome>,
    /// How many tasks were called here, requests asked, and cells made.
    pub(crate) called: u64,
    pub(crate) asked: u64,
    pub(crate) made: u64,
    /// The processes whose loss was noticed here.
    pub(crate) noticed: Vec<u32>,
    pub(crate) outbox: Mail,
    /// How main ended.
    pub(crate) main_end: Option<Outcome>,
    /// The effects of the last step, in their order.
    pub(crate) effects: Vec<Effect>,
    ghost numbered: { workers + 1 < 2 ^ 32 },
}
