//! From an answer on, to the next operation or the end.
ghost use Rattle.jd_expr.specs.Action.{Gives};
ghost use Rattle.jd_task.specs.Running as spec;
ghost use Rattle.jd_task.specs.Running.{given, steps};

use crate::doing::Doing;
use crate::frame::Frame;
use crate::level::Level;
use crate::reached::Reached;
use jd_expr::Stop;
use jd_value::{Arm, Fault, Outcome, Shared, Stmt};
use std::alloc::Global;

/// A statement, which takes a unit, with `fuel` levels at most.
#[cycle(execution)]
#[tactic(auto, unfolding(crate::specs::Running::steps))]
fn exec_to(alloc: Global, fuel: u64, stmt: &Stmt, doing: &mut Doing) -> Result<Reached, Stop>
    ensures { Gives ((steps fuel).exec stmt.now doing.old) result doing.new }
{
    if fuel == 0 {
        return Err(Stop::Faulted(Fault::Budget));
    }
    doing.left.spend()?;
    Level {
        alloc,
        fuel: fuel - 1,
        exec: exec_to,
        again: again_to,
    }
    .statement(stmt, doing)
}

/// The turns of a `while` whose condition has held, each of which takes a unit and a level.
#[cycle(execution)]
#[tactic(auto, unfolding(crate::specs::Running::steps, crate::specs::Running::turns))]
fn again_to(alloc: Global, fuel: u64, arm: &Shared<Arm>, doing: &mut Doing) -> Result<Reached, Stop>
    ensures { Gives ((steps fuel).again arm.now doing.old) result doing.new }
{
    let mut turns = fuel;
    while turns > 0 {
        turns -= 1;
        doing.left.spend()?;
        let level = Level {
            alloc,
            fuel: turns,
            exec: exec_to,
            again: again_to,
        };
        if let Some(reached) = level.turn(arm, doing)? {
            return Ok(reached);
        }
    }
    Err(Stop::Faulted(Fault::Budget))
}

/// From an answer on, out through the frames, with `fuel` levels of statements at most. It recurses once for each
/// level that statements nest.
pub(crate) fn resume(
    alloc: Global,
    fuel: u64,
    frames: &[Frame],
    answer: Outcome,
    doing: &mut Doing,
) -> Result<Reached, Stop>
    ensures { Gives (spec.resume (steps fuel) frames.now (given answer doing.old)) result doing.new }
{
    Level {
        alloc,
        fuel,
        exec: exec_to,
        again: again_to,
    }
    .resume(frames, answer, doing)
}
