//! One level of statements, where function values do the statements below it. So each construct is proved by itself,
//! and the recursion is two functions.
ghost use Rattle.std.specs.Prelude.{◌≡◌, ◌+◌, ◌<◌, ◌^◌, drop, length, MatchResult, Ok, Err};
ghost use Rattle.jd_expr.specs.Action.{Gives, pure};
ghost use Rattle.jd_expr.specs.declared.stop.Stop.TheVariants.{OutOfMemory as Refused};
ghost use Rattle.jd_task.specs.declared.doing.Doing.{Doing as TheDoing};
ghost use Rattle.jd_task.specs.Executes.{Executes, Repeats};
ghost use Rattle.jd_task.specs.Running as spec;
ghost use Rattle.jd_task.specs.Running.{steps, next_in};
ghost use Rattle.jd_task.specs.declared.frame.Frame.TheVariants.{Seq};
ghost use Rattle.jd_task.specs.declared.reached.Reached.TheVariants.{Asks};
ghost use Rattle.jd_value.specs.declared.tree.Block.{out-Block};

use crate::doing::Doing;
use crate::flow::Flow;
use crate::frame::{Frame, in_block};
use crate::op::Op;
use crate::push::push;
use crate::reached::Reached;
use crate::statement::{assign, effect, expression};
use jd_expr::Stop;
use jd_value::{Arm, Block, OutOfMemory, Shared, Stmt, Value};
use sqlite_items::Items;
use std::alloc::Global;

/// How the statements below are done: by `exec`, and the turns of a `while` by `again`, with `fuel` levels at most.
#[derive(Clone, Copy)]
pub(crate) struct Level<X, A> {
    pub alloc: Global,
    pub fuel: u64,
    pub exec: X,
    pub again: A,
}

/// The statements of a block from this place on.
fn rest_from(block: &Block, at: u64) -> &[Stmt]
    ensures rest { result.now ≡ drop at (out-Block block.now).stmts }
    ensures fits { at + length result.now < 2 ^ 64 }
{
    let stmts = block.stmts.as_slice();
    if at < stmts.len() as u64 {
        &stmts[at as usize..]
    } else {
        &[]
    }
}

/// The value of a statement, where the next one of its block comes, or how the block ends with it.
fn next_in(reached: Reached, block: &Shared<Block>, at: u64) -> Result<Result<Value, Reached>, Stop>
    ensures { (st : TheDoing) → Gives (pure (next_in (Seq block.now at) reached) st) result st }
{
    match reached {
        Reached::Went(flow) => match flow {
            Flow::Next(value) => Ok(Ok(value)),
            Flow::Break => Ok(Err(Reached::Went(Flow::Break))),
            Flow::Continue => Ok(Err(Reached::Went(Flow::Continue))),
        },
        Reached::Asks(op, frames) => asks_in_block(op, in_block(frames, block, at)),
    }
}

/// An operation is asked by a statement of a block, where there was memory for what stands round it.
fn asks_in_block(
    op: Op,
    frames: Result<Items<Frame>, OutOfMemory>,
) -> Result<Result<Value, Reached>, Stop>
    ensures { MatchResult frames (λ all. result ≡ Ok (Err (Asks op all))) (λ _. result ≡ Err Refused) }
{
    match frames {
        Ok(frames) => Ok(Err(Reached::Asks(op, frames))),
        Err(_) => Err(Stop::OutOfMemory),
    }
}

impl<
    X: Fn(Global, u64, &Stmt, &mut Doing) -> Result<Reached, Stop>,
    A: Fn(Global, u64, &Shared<Arm>, &mut Doing) -> Result<Reached, Stop>,
> Level<X, A> {
    /// A statement of the level below.
    fn execute(&self, stmt: &Stmt, doing: &mut Doing) -> Result<Reached, Stop>
        requires { Executes self.now.fuel (X.pre self.now.exec) (X.post self.now.exec) }
        ensures { Gives ((steps self.now.fuel).exec stmt.now doing.old) result doing.new }
    {
        (self.exec)(self.alloc, self.fuel, stmt, doing)
    }

    /// A statement of a block, behind which this place comes.
    #[tactic(auto, unfolding(crate::specs::Running::next))]
    fn next(
        &self,
        stmt: &Stmt,
        block: &Shared<Block>,
        at: u64,
        doing: &mut Doing,
    ) -> Result<Result<Value, Reached>, Stop>
        requires { Executes self.now.fuel (X.pre self.now.exec) (X.post self.now.exec) }
        ensures { Gives (spec.next (steps self.now.fuel) (Seq block.now at) stmt.now doing.old) result doing.new }
    {
        next_in(self.execute(stmt, doing)?, block, at)
    }

    /// The turns of a `while` whose condition has held.
    pub fn repeat(&self, arm: &Shared<Arm>, doing: &mut Doing) -> Result<Reached, Stop>
        requires { Repeats self.now.fuel (A.pre self.now.again) (A.post self.now.again) }
        ensures { Gives ((steps self.now.fuel).again arm.now doing.old) result doing.new }
    {
        (self.again)(self.alloc, self.fuel, arm, doing)
    }

    /// The statements of a block from a place on, behind one with the value `last`.
    pub fn run_from(
        &self,
        block: &Shared<Block>,
        from: u64,
        last: Value,
        doing: &mut Doing,
    ) -> Result<Reached, Stop>
        requires { Executes self.now.fuel (X.pre self.now.exec) (X.post self.now.exec) }
        ensures { Gives (spec.run_from (steps self.now.fuel) block.now from last (drop from (out-Block block.now).stmts) doing.old) result doing.new }
    {
        let mut at = from;
        let mut value = last;
        let mut all = rest_from(block.get(), from);
        while let [stmt, rest @ ..] = all {
            at += 1;
            drop(value);
            match self.next(stmt, block, at, doing)? {
                Ok(next) => value = next,
                Err(reached) => return Ok(reached),
            }
            all = rest;
        }
        Ok(Reached::Went(Flow::Next(value)))
    }

    /// A block.
    #[tactic(auto, unfolding(crate::specs::Running::run))]
    pub fn run(&self, block: &Shared<Block>, doing: &mut Doing) -> Result<Reached, Stop>
        requires { Executes self.now.fuel (X.pre self.now.exec) (X.post self.now.exec) }
        ensures { Gives (spec.run (steps self.now.fuel) block.now doing.old) result doing.new }
    {
        self.run_from(block, 0, Value::Nothing, doing)
    }

    /// What stands in a statement, of which the unit is spent.
    #[tactic(auto, unfolding(crate::specs::Running::statement))]
    pub fn statement(&self, stmt: &Stmt, doing: &mut Doing) -> Result<Reached, Stop>
        requires executes { Executes self.now.fuel (X.pre self.now.exec) (X.post self.now.exec) }
        requires repeats { Repeats self.now.fuel (A.pre self.now.again) (A.post self.now.again) }
        ensures { Gives (spec.statement (steps self.now.fuel) stmt.now doing.old) result doing.new }
    {
        match stmt {
            Stmt::Set(name, x) => assign(self.alloc, name.get(), x, doing),
            Stmt::Value(x) => expression(self.alloc, x, doing),
            Stmt::Effect(name, operation, body, args) => effect(
                self.alloc,
                name,
                *operation,
                body,
                args.as_slice(),
                doing,
            ),
            Stmt::If(arms, other) => self.branch_from(arms, 0, other, doing),
            Stmt::While(arm) => self.while_holds(arm, doing),
            Stmt::For(name, x, block) => self.for_in(name, x, block, doing),
            Stmt::Try(block, name, handler) => self.attempt(block, name, handler, doing),
            Stmt::Break => Ok(Reached::Went(Flow::Break)),
            Stmt::Continue => Ok(Reached::Went(Flow::Continue)),
            Stmt::Push(name, x) => push(self.alloc, name, x, doing),
        }
    }
}
