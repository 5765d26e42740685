//! From an answer on, out through the frames.
ghost use Rattle.std.specs.Prelude.{◌≡◌, ◌∷◌, []};
ghost use Rattle.jd_expr.specs.Action.{Ran, Gives};
ghost use Rattle.jd_task.specs.Executes.{Executes, Repeats};
ghost use Rattle.jd_task.specs.Running as spec;
ghost use Rattle.jd_task.specs.Running.{Steps, begun, given, steps};
ghost use Rattle.jd_task.specs.Passes.{Passed, Passes};
ghost use Rattle.jd_task.specs.declared.doing.Doing.{Doing as TheDoing};
ghost use Rattle.jd_task.specs.declared.reached.Reached.{Reached as TheReached};
ghost use Rattle.jd_task.specs.declared.frame.Frame.TheVariants.{Seq};

use crate::doing::Doing;
use crate::flow::Flow;
use crate::frame::{Frame, inside};
use crate::level::Level;
use crate::reached::{Reached, asks};
use crate::statement::{next_or, set};
use jd_expr::Stop;
use jd_value::{Arm, Block, Fault, Outcome, Shared, Stmt, Txt};
use std::alloc::Global;

/// How that ended which stands further in, where it asked nothing.
type Ended = Result<Flow, Fault>;

/// What came of a frame, for those further out: how it ended, or the operation that waits inside them all.
#[tactic(auto, using(crate::proofs::Passing::asks_out))]
fn passed(came: Result<Reached, Stop>, outer: &[Frame]) -> Result<Result<Ended, Reached>, Stop>
    ensures { (s : Steps) (ran : Ran TheDoing TheReached) (st : TheDoing) → Gives ran came st → Passed s outer.now ran st result }
{
    match came {
        Ok(Reached::Went(flow)) => Ok(Ok(Ok(flow))),
        Ok(Reached::Asks(op, frames)) => Ok(Err(asks(op, inside(frames, outer))?)),
        Err(Stop::Faulted(fault)) => Ok(Ok(Err(fault))),
        Err(Stop::OutOfMemory) => Err(Stop::OutOfMemory),
    }
}

/// The answer of an operation goes to its variable.
fn answered(name: &Txt, flow: Flow, doing: &mut Doing) -> Result<Reached, Stop>
    ensures { Gives (spec.answered name.now flow doing.old) result doing.new }
{
    match flow {
        Flow::Next(value) => {
            let was_set = set(name, &value, doing);
            next_or(value, was_set)
        }
        Flow::Break => Ok(Reached::Went(Flow::Break)),
        Flow::Continue => Ok(Reached::Went(Flow::Continue)),
    }
}

/// What came at the end of the frames.
fn ended(ran: Ended) -> Result<Reached, Stop>
    ensures { (st : TheDoing) → Gives (begun ran st) result st }
{
    match ran {
        Ok(flow) => Ok(Reached::Went(flow)),
        Err(fault) => Err(Stop::Faulted(fault)),
    }
}

impl<
    X: Fn(Global, u64, &Stmt, &mut Doing) -> Result<Reached, Stop>,
    A: Fn(Global, u64, &Shared<Arm>, &mut Doing) -> Result<Reached, Stop>,
> Level<X, A> {
    /// The statements of a block behind one that ended so.
    fn behind_statement(
        &self,
        block: &Shared<Block>,
        at: u64,
        flow: Flow,
        doing: &mut Doing,
    ) -> Result<Reached, Stop>
        requires { Executes self.now.fuel (X.pre self.now.exec) (X.post self.now.exec) }
        ensures { Gives (spec.step (steps self.now.fuel) (Seq block.now at) flow doing.old) result doing.new }
    {
        match flow {
            Flow::Next(value) => self.run_from(block, at, value, doing),
            Flow::Break => Ok(Reached::Went(Flow::Break)),
            Flow::Continue => Ok(Reached::Went(Flow::Continue)),
        }
    }

    /// From a frame on, by how that ended which stood further in.
    fn step(&self, frame: &Frame, flow: Flow, doing: &mut Doing) -> Result<Reached, Stop>
        requires executes { Executes self.now.fuel (X.pre self.now.exec) (X.post self.now.exec) }
        requires repeats { Repeats self.now.fuel (A.pre self.now.again) (A.post self.now.again) }
        ensures { Gives (spec.step (steps self.now.fuel) frame.now flow doing.old) result doing.new }
    {
        match frame {
            Frame::Answer(name) => answered(name.get(), flow, doing),
            Frame::Seq(block, at) => self.behind_statement(block, *at, flow, doing),
            Frame::Branch(arms, at, other) => self.behind_effects(flow, arms, *at, other, doing),
            Frame::Condition(arm) => self.from_test(flow, arm, doing),
            Frame::Loop(arm) => self.behind_turn(flow, arm, doing),
            Frame::Each(name, block, collection, at) => {
                self.behind_element(flow, name, block, collection, *at, doing)
            }
            Frame::Catch(_, _) => Ok(Reached::Went(flow)),
        }
    }

    /// From a frame on, where a fault comes from further in.
    fn throw_at(&self, frame: &Frame, fault: Fault, doing: &mut Doing) -> Result<Reached, Stop>
        requires { Executes self.now.fuel (X.pre self.now.exec) (X.post self.now.exec) }
        ensures { Gives (spec.throw_at (steps self.now.fuel) frame.now fault doing.old) result doing.new }
    {
        match frame {
            Frame::Catch(name, handler) => self.caught(name, handler, fault, doing),
            Frame::Answer(_)
            | Frame::Seq(_, _)
            | Frame::Branch(_, _, _)
            | Frame::Condition(_)
            | Frame::Loop(_)
            | Frame::Each(_, _, _, _) => Err(Stop::Faulted(fault)),
        }
    }

    /// One frame further out.
    fn further(&self, frame: &Frame, ran: Ended, doing: &mut Doing) -> Result<Reached, Stop>
        requires executes { Executes self.now.fuel (X.pre self.now.exec) (X.post self.now.exec) }
        requires repeats { Repeats self.now.fuel (A.pre self.now.again) (A.post self.now.again) }
        ensures { Gives (spec.resume (steps self.now.fuel) (frame.now ∷ []) (begun ran doing.old)) result doing.new }
    {
        match ran {
            Ok(flow) => self.step(frame, flow, doing),
            Err(fault) => self.throw_at(frame, fault, doing),
        }
    }

    /// One frame further out, inside the others.
    fn pass(
        &self,
        frame: &Frame,
        outer: &[Frame],
        ran: Ended,
        doing: &mut Doing,
    ) -> Result<Result<Ended, Reached>, Stop>
        requires executes { Executes self.now.fuel (X.pre self.now.exec) (X.post self.now.exec) }
        requires repeats { Repeats self.now.fuel (A.pre self.now.again) (A.post self.now.again) }
        ensures { Passes (steps self.now.fuel) (frame.now ∷ outer.now) outer.now (begun ran doing.old) doing.new result }
    {
        passed(self.further(frame, ran, doing), outer)
    }

    /// Out through the frames, the innermost first.
    fn resume_with(
        &self,
        frames: &[Frame],
        first: Ended,
        doing: &mut Doing,
    ) -> Result<Reached, Stop>
        requires executes { Executes self.now.fuel (X.pre self.now.exec) (X.post self.now.exec) }
        requires repeats { Repeats self.now.fuel (A.pre self.now.again) (A.post self.now.again) }
        ensures { Gives (spec.resume (steps self.now.fuel) frames.now (begun first doing.old)) result doing.new }
    {
        let mut ran = first;
        let mut all = frames;
        while let [frame, rest @ ..] = all {
            match self.pass(frame, rest, ran, doing)? {
                Ok(next) => ran = next,
                Err(reached) => return Ok(reached),
            }
            all = rest;
        }
        ended(ran)
    }

    /// From an answer on, out through the frames.
    pub fn resume(
        &self,
        frames: &[Frame],
        answer: Outcome,
        doing: &mut Doing,
    ) -> Result<Reached, Stop>
        requires executes { Executes self.now.fuel (X.pre self.now.exec) (X.post self.now.exec) }
        requires repeats { Repeats self.now.fuel (A.pre self.now.again) (A.post self.now.again) }
        ensures { Gives (spec.resume (steps self.now.fuel) frames.now (given answer doing.old)) result doing.new }
    {
        match answer {
            Ok(value) => self.resume_with(frames, Ok(Flow::Next(value)), doing),
            Err(fault) => self.resume_with(frames, Err(fault), doing),
        }
    }
}
