//! Jobs: tasks that are to go on.
ghost use Rattle.std.specs.Prelude.{◌≡◌, IfOk};
ghost use Rattle.jd_expr.specs.Action.{Ran, Gives};
ghost use Rattle.jd_task.specs.declared.doing.Doing.{Doing as TheDoing};
ghost use Rattle.jd_task.specs.declared.reached.Reached.{Reached as TheReached};
ghost use Rattle.jd_task.specs.Running.{advance, left_by};

use crate::doing::Doing;
use crate::op::Op;
use crate::place::Place;
use crate::reached::Reached;
use crate::running::resume;
use jd_expr::{Budget, Stop};
use jd_value::{OutOfMemory, Outcome, RefId};
use sqlite_items::Items;
use std::alloc::Global;

/// So many units has a task for each step, from an answer to the next operation or the end.
pub const STEP_UNITS: u64 = 10_000_000;

/// The name of a task: the process that called it, and which of the tasks called there it is, from 1. Main is task 0
/// of process 1.
#[derive(Clone, Copy, Debug, PartialEq, Eq, PartialOrd, Ord, Hash)]
pub struct TaskId {
    pub process: u32,
    pub number: u64,
}

/// What a task came to.
#[derive(Drop)]
pub enum Turn {
    /// It asks an operation, and waits for the answer.
    Asks(Op),
    Ended(Outcome),
}

/// A task that is to go on.
#[derive(Drop)]
pub struct Job {
    pub task: TaskId,
    /// The cell that gets its outcome, if there is one.
    pub cell: Option<RefId>,
    pub place: Place,
    /// What the operation before was answered; `nothing` where there was none.
    pub answer: Outcome,
}

/// A task that went on to its next operation or to its end.
#[derive(Drop)]
pub struct Evaluated {
    pub task: TaskId,
    pub cell: Option<RefId>,
    pub place: Place,
    pub turn: Turn,
}

/// The place and the turn that a step leaves, by what it came to.
fn left_by(
    alloc: Global,
    reached: Result<Reached, Stop>,
    doing: Doing,
) -> Result<(Place, Turn), OutOfMemory>
    ensures { (ran : Ran TheDoing TheReached) → Gives ran reached doing → IfOk result (λ left. left ≡ left_by ran) }
{
    let (frames, turn) = match reached {
        Ok(Reached::Went(flow)) => (Items::new(alloc), Turn::Ended(Ok(flow.into_value()))),
        Ok(Reached::Asks(op, frames)) => (frames, Turn::Asks(op)),
        Err(Stop::Faulted(fault)) => (Items::new(alloc), Turn::Ended(Err(fault))),
        Err(Stop::OutOfMemory) => return Err(OutOfMemory),
    };
    let variables = doing.variables;
    Ok((Place { frames, variables }, turn))
}

/// The place and the turn that a step leaves.
#[tactic(auto, unfolding(crate::specs::Running::advance))]
fn advance(alloc: Global, place: Place, answer: Outcome) -> Result<(Place, Turn), OutOfMemory>
    ensures { IfOk result (λ left. left ≡ advance place answer) }
{
    let Place { frames, variables } = place;
    let mut doing = Doing {
        variables,
        left: Budget::new(STEP_UNITS),
    };
    let reached = resume(alloc, STEP_UNITS, frames.as_slice(), answer, &mut doing);
    left_by(alloc, reached, doing)
}

impl Job {
    /// The task goes on to its next operation or to its end, with `STEP_UNITS` units.
    pub fn evaluate(self, alloc: Global) -> Result<Evaluated, OutOfMemory>
        ensures went { IfOk result (λ done. (done.place, done.turn) ≡ advance self.place self.answer) }
        ensures task { IfOk result (λ done. done.task ≡ self.task) }
        ensures cell { IfOk result (λ done. done.cell ≡ self.cell) }
    {
        let (place, turn) = advance(alloc, self.place, self.answer)?;
        Ok(Evaluated {
            task: self.task,
            cell: self.cell,
            place,
            turn,
        })
    }
}
