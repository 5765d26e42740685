//! What stands round a place in a body.
ghost use Rattle.std.specs.Prelude.{◌≡◌, ◌++◌, ◌∷◌, [], IfOk};
ghost use Rattle.jd_task.specs.declared.frame.Frame.TheVariants.{Answer};
ghost use Rattle.jd_task.specs.declared.frame.Frame.TheVariants as frame;

use jd_value::{Arm, Block, OutOfMemory, Shared, Txt, Value};
use sqlite_items::Items;
use std::alloc::Global;

/// A part of what is still to do.
#[derive(Drop)]
pub enum Frame {
    /// The answer of the operation goes to the variable of this name.
    Answer(Shared<Txt>),
    /// The statements of a block from this place on, which counts from 0.
    Seq(Shared<Block>, u64),
    /// The arms of an `if` from the test of the arm at this place on, and the block behind `else`.
    Branch(Shared<Items<Arm>>, u64, Shared<Block>),
    /// A `while` from its test on.
    Condition(Shared<Arm>),
    /// A `while` behind its block.
    Loop(Shared<Arm>),
    /// A `for`, by its variable and its block: the elements of a collection from this place on, which counts from 0.
    Each(Shared<Txt>, Shared<Block>, Value, u128),
    /// A `catch`: the variable that gets the fault, if there is one, and the block.
    Catch(Option<Shared<Txt>>, Shared<Block>),
}

/// The same name once more, if there is one.
pub(crate) fn copy_name(name: &Option<Shared<Txt>>) -> Result<Option<Shared<Txt>>, OutOfMemory>
    ensures { IfOk result (λ n. n ≡ name.now) }
{
    match name {
        Some(name) => Ok(Some(name.share()?)),
        None => Ok(None),
    }
}

impl Frame {
    pub(crate) fn of_answer(name: &Shared<Txt>) -> Result<Frame, OutOfMemory>
        ensures { IfOk result (λ f. f ≡ frame.Answer name.now) }
    {
        Ok(Frame::Answer(name.share()?))
    }

    pub(crate) fn of_block(block: &Shared<Block>, at: u64) -> Result<Frame, OutOfMemory>
        ensures { IfOk result (λ f. f ≡ frame.Seq block.now at) }
    {
        Ok(Frame::Seq(block.share()?, at))
    }

    pub(crate) fn of_branch(
        arms: &Shared<Items<Arm>>,
        at: u64,
        other: &Shared<Block>,
    ) -> Result<Frame, OutOfMemory>
        ensures { IfOk result (λ f. f ≡ frame.Branch arms.now at other.now) }
    {
        Ok(Frame::Branch(arms.share()?, at, other.share()?))
    }

    pub(crate) fn of_condition(arm: &Shared<Arm>) -> Result<Frame, OutOfMemory>
        ensures { IfOk result (λ f. f ≡ frame.Condition arm.now) }
    {
        Ok(Frame::Condition(arm.share()?))
    }

    pub(crate) fn of_loop(arm: &Shared<Arm>) -> Result<Frame, OutOfMemory>
        ensures { IfOk result (λ f. f ≡ frame.Loop arm.now) }
    {
        Ok(Frame::Loop(arm.share()?))
    }

    pub(crate) fn of_each(
        name: &Shared<Txt>,
        block: &Shared<Block>,
        collection: &Value,
        at: u128,
    ) -> Result<Frame, OutOfMemory>
        ensures { IfOk result (λ f. f ≡ frame.Each name.now block.now collection.now at) }
    {
        Ok(Frame::Each(name.share()?, block.share()?, collection.copy()?, at))
    }

    pub(crate) fn of_catch(
        name: &Option<Shared<Txt>>,
        handler: &Shared<Block>,
    ) -> Result<Frame, OutOfMemory>
        ensures { IfOk result (λ f. f ≡ frame.Catch name.now handler.now) }
    {
        Ok(Frame::Catch(copy_name(name)?, handler.share()?))
    }

    /// The same frame once more. It takes constant time.
    pub fn copy(&self) -> Result<Frame, OutOfMemory>
        ensures { IfOk result (λ f. f ≡ self.now) }
    {
        match self {
            Frame::Answer(name) => Frame::of_answer(name),
            Frame::Seq(block, at) => Frame::of_block(block, *at),
            Frame::Branch(arms, at, other) => Frame::of_branch(arms, *at, other),
            Frame::Condition(arm) => Frame::of_condition(arm),
            Frame::Loop(arm) => Frame::of_loop(arm),
            Frame::Each(name, block, collection, at) => {
                Frame::of_each(name, block, collection, *at)
            }
            Frame::Catch(name, handler) => Frame::of_catch(name, handler),
        }
    }
}

/// The frames, inside the statements of a block from this place on.
pub(crate) fn in_block(
    mut frames: Items<Frame>,
    block: &Shared<Block>,
    at: u64,
) -> Result<Items<Frame>, OutOfMemory>
    ensures { IfOk result (λ all. all ≡ frames ++ frame.Seq block.now at ∷ []) }
{
    frames.push(Frame::of_block(block, at)?)?;
    Ok(frames)
}

/// The frames, inside what stands before the test of an arm.
pub(crate) fn in_branch(
    mut frames: Items<Frame>,
    arms: &Shared<Items<Arm>>,
    at: u64,
    other: &Shared<Block>,
) -> Result<Items<Frame>, OutOfMemory>
    ensures { IfOk result (λ all. all ≡ frames ++ frame.Branch arms.now at other.now ∷ []) }
{
    frames.push(Frame::of_branch(arms, at, other)?)?;
    Ok(frames)
}

/// The frames, inside what stands before the test of a `while`.
pub(crate) fn in_condition(
    mut frames: Items<Frame>,
    arm: &Shared<Arm>,
) -> Result<Items<Frame>, OutOfMemory>
    ensures { IfOk result (λ all. all ≡ frames ++ frame.Condition arm.now ∷ []) }
{
    frames.push(Frame::of_condition(arm)?)?;
    Ok(frames)
}

/// The frames, inside the block of a `while`.
pub(crate) fn in_loop(
    mut frames: Items<Frame>,
    arm: &Shared<Arm>,
) -> Result<Items<Frame>, OutOfMemory>
    ensures { IfOk result (λ all. all ≡ frames ++ frame.Loop arm.now ∷ []) }
{
    frames.push(Frame::of_loop(arm)?)?;
    Ok(frames)
}

/// The frames, inside the block of a `for`.
pub(crate) fn in_each(
    mut frames: Items<Frame>,
    name: &Shared<Txt>,
    block: &Shared<Block>,
    collection: &Value,
    next: u128,
) -> Result<Items<Frame>, OutOfMemory>
    ensures { IfOk result (λ all. all ≡ frames ++ frame.Each name.now block.now collection.now next ∷ []) }
{
    frames.push(Frame::of_each(name, block, collection, next)?)?;
    Ok(frames)
}

/// The frames, inside the block of a `try`.
pub(crate) fn in_try(
    mut frames: Items<Frame>,
    name: &Option<Shared<Txt>>,
    handler: &Shared<Block>,
) -> Result<Items<Frame>, OutOfMemory>
    ensures { IfOk result (λ all. all ≡ frames ++ frame.Catch name.now handler.now ∷ []) }
{
    frames.push(Frame::of_catch(name, handler)?)?;
    Ok(frames)
}

/// The frame in which an answer is waited for.
pub(crate) fn answer_in(alloc: Global, name: &Shared<Txt>) -> Result<Items<Frame>, OutOfMemory>
    ensures { IfOk result (λ all. all ≡ Answer name.now ∷ []) }
{
    let mut frames = Items::new(alloc);
    frames.push(Frame::Answer(name.share()?))?;
    Ok(frames)
}

/// The frames with more further out.
pub(crate) fn inside(mut frames: Items<Frame>, outer: &[Frame]) -> Result<Items<Frame>, OutOfMemory>
    ensures { IfOk result (λ all. all ≡ frames ++ outer.now) }
{
    for frame in outer {
        frames.push(frame.copy()?)?;
    }
    Ok(frames)
}
