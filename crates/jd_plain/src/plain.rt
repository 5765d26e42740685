//! The machine's state.
ghost use Rattle.std.specs.Prelude.{◌≡◌, ◌+◌, ◌<◌, ◌^◌, IfOk, false};

use crate::cells::Cells;
use crate::counts::Counts;
use crate::fetched::Fetched;
use crate::requests::Requests;
use crate::tasks::Tasks;
use jd_model::{Ending, Loss, Start};
use jd_task::TaskId;
use jd_value::{OutOfMemory, Program, Txt};
use sqlite_items::Items;
use std::alloc::Global;

/// Main's name.
pub(crate) const MAIN: TaskId = TaskId {
    process: 1,
    number: 0,
};

/// The reference machine: one thread, which takes the recorded effects of a run in their order.
#[derive(Drop)]
pub struct Plain {
    pub(crate) alloc: Global,
    pub(crate) workers: u32,
    pub(crate) losses: Items<Loss>,
    pub(crate) tasks: Tasks,
    pub(crate) requests: Requests,
    pub(crate) cells: Cells,
    /// How many tasks each process called.
    pub(crate) called: Counts,
    /// How many requests each process asked.
    pub(crate) asked: Counts,
    /// How many cells each process made.
    pub(crate) made: Counts,
    /// The tasks that have started and haven't ended, in the order of their starts.
    pub(crate) running: Vec<TaskId>,
    pub(crate) fetched: Fetched,
    pub(crate) lines: Items<Txt>,
    pub(crate) ending: Option<Ending>,
    /// A mark was begun and not done, for want of memory.
    pub(crate) broken: bool,
    ghost numbered: { workers + 1 < 2 ^ 32 },
}

impl Plain {
    ghost use Rattle.jd_model.specs.Machine.{first};
    ghost use Rattle.jd_plain.specs.State.{state_of, is_broken};

    /// The machine at the beginning of a run. Processes are numbered with 32 bits.
    pub fn start(alloc: Global, program: &Program, start: &Start) -> Result<Plain, OutOfMemory>
        requires { start.now.workers + 1 < 2 ^ 32 }
        ensures state { IfOk result (λ plain. state_of plain ≡ first program.now start.now) }
        ensures whole { IfOk result (λ plain. is_broken plain ≡ false) }
    {
        let losses = Items::from_slice(alloc, start.losses.as_slice())?;
        let running = [MAIN].to_vec(alloc)?;
        let tasks = Tasks::with_main(alloc, program)?;
        Ok(Plain {
            alloc,
            workers: start.workers,
            losses,
            tasks,
            requests: Requests::new(alloc),
            cells: Cells::new(alloc),
            called: Counts::new(alloc),
            asked: Counts::new(alloc),
            made: Counts::new(alloc),
            running,
            fetched: Fetched::new(alloc),
            lines: Items::new(alloc),
            ending: None,
            broken: false,
        })
    }
}
