//! Ends what stands open behind an operand.
ghost use Rattle.std.specs.Prelude.{◌≡◌, ◌∷◌, IfOk, OnOk};
ghost use Rattle.jd_precedence.specs.State.{Closes};

use crate::frames::Frame;
use crate::stack::Stack;
use jd_tree::build::ending_of;
use jd_tree::heads::level_of;
use jd_tree::measured::Measured;
use std::alloc::{AllocError, Global};

/// Puts the innermost frame back, behind which the operand stands.
fn put_back(
    frames: &mut Stack<Frame>,
    frame: Frame,
    operand: Measured,
) -> Result<Measured, AllocError>
    ensures frames { OnOk result (frames.new ≡ frame ∷ frames.old) }
    ensures operand { IfOk result (λ e. e ≡ operand) }
{
    match frames.push(frame) {
        Ok(()) => Ok(operand),
        Err(error) => {
            drop(operand);
            Err(error)
        }
    }
}

/// Ends what binds at least as tightly as `bound`; 0 ends all but what a token of its own ends.
pub fn close_all(
    alloc: Global,
    frames: &mut Stack<Frame>,
    bound: u8,
    operand: Measured,
) -> Result<Measured, AllocError>
    ensures { IfOk result (λ e. Closes bound frames.old operand frames.new e) }
{
    let mut operand = operand;
    while let Some(top) = frames.pop() {
        match top {
            Frame::OpenEnd(head) => {
                if bound > level_of(&head) {
                    return put_back(frames, Frame::OpenEnd(head), operand);
                }
                operand = ending_of(alloc, head, operand)?;
            }
            Frame::Fixed(fixed) => return put_back(frames, Frame::Fixed(fixed), operand),
        }
    }
    Ok(operand)
}
