//! How far statements came.
ghost use Rattle.std.specs.Prelude.{◌≡◌, MatchResult, Ok, Err, Some};
ghost use Rattle.jd_expr.specs.declared.stop.Stop.TheVariants.{OutOfMemory as Refused};
ghost use Rattle.jd_task.specs.declared.reached.Reached.TheVariants.{Asks};

use crate::flow::Flow;
use crate::frame::Frame;
use crate::op::Op;
use jd_expr::Stop;
use jd_value::OutOfMemory;
use sqlite_items::Items;

/// How far statements came.
#[derive(Drop)]
pub(crate) enum Reached {
    /// To their end.
    Went(Flow),
    /// To an operation, with what is to be done once it is answered, the innermost first.
    Asks(Op, Items<Frame>),
}

/// An operation is asked, where there was memory for what stands round it.
pub(crate) fn asks(op: Op, frames: Result<Items<Frame>, OutOfMemory>) -> Result<Reached, Stop>
    ensures { MatchResult frames (λ all. result ≡ Ok (Asks op all)) (λ _. result ≡ Err Refused) }
{
    match frames {
        Ok(frames) => Ok(Reached::Asks(op, frames)),
        Err(_) => Err(Stop::OutOfMemory),
    }
}

/// The same in a part of a loop or a branch, which ends with it.
pub(crate) fn asks_in_part(
    op: Op,
    frames: Result<Items<Frame>, OutOfMemory>,
) -> Result<Option<Reached>, Stop>
    ensures { MatchResult frames (λ all. result ≡ Ok (Some (Asks op all))) (λ _. result ≡ Err Refused) }
{
    match frames {
        Ok(frames) => Ok(Some(Reached::Asks(op, frames))),
        Err(_) => Err(Stop::OutOfMemory),
    }
}
