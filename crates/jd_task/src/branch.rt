//! `if`.
ghost use Rattle.std.specs.Prelude.{◌≡◌, ◌+◌, ◌<◌, ◌^◌, drop, length};
ghost use Rattle.jd_expr.specs.Action.{Gives};
ghost use Rattle.jd_task.specs.Executes.{Executes};
ghost use Rattle.jd_task.specs.Running as spec;
ghost use Rattle.jd_task.specs.Running.{steps};
ghost use Rattle.jd_task.specs.declared.frame.Frame.TheVariants.{Branch};

use crate::condition::test;
use crate::doing::Doing;
use crate::flow::Flow;
use crate::frame::in_branch;
use crate::level::Level;
use crate::reached::{Reached, asks_in_part};
use jd_expr::Stop;
use jd_value::{Arm, Block, Shared, Stmt};
use sqlite_items::Items;
use std::alloc::Global;

/// The arms from this place on.
fn rest_from(arms: &Items<Arm>, at: u64) -> &[Arm]
    ensures rest { result.now ≡ drop at arms.now }
    ensures fits { at + length result.now < 2 ^ 64 }
{
    let arms = arms.as_slice();
    if at < arms.len() as u64 {
        &arms[at as usize..]
    } else {
        &[]
    }
}

impl<
    X: Fn(Global, u64, &Stmt, &mut Doing) -> Result<Reached, Stop>,
    A: Fn(Global, u64, &Shared<Arm>, &mut Doing) -> Result<Reached, Stop>,
> Level<X, A> {
    /// An arm from its test on, or none where its condition doesn't hold.
    #[tactic(auto, unfolding(crate::specs::Running::taken))]
    fn taken(&self, arm: &Arm, doing: &mut Doing) -> Result<Option<Reached>, Stop>
        requires { Executes self.now.fuel (X.pre self.now.exec) (X.post self.now.exec) }
        ensures { Gives (spec.taken (steps self.now.fuel) arm.now doing.old) result doing.new }
    {
        if test(self.alloc, &arm.test, doing)? {
            Ok(Some(self.run(&arm.block, doing)?))
        } else {
            Ok(None)
        }
    }

    /// The arm at this place.
    #[tactic(auto, unfolding(crate::specs::Running::arm_at))]
    fn arm_at(
        &self,
        arms: &Shared<Items<Arm>>,
        at: u64,
        other: &Shared<Block>,
        arm: &Arm,
        doing: &mut Doing,
    ) -> Result<Option<Reached>, Stop>
        requires { Executes self.now.fuel (X.pre self.now.exec) (X.post self.now.exec) }
        ensures { Gives (spec.arm_at (steps self.now.fuel) arms.now at other.now arm.now doing.old) result doing.new }
    {
        match self.run(&arm.effects, doing)? {
            Reached::Went(flow) => {
                drop(flow);
                self.taken(arm, doing)
            }
            Reached::Asks(op, frames) => asks_in_part(op, in_branch(frames, arms, at, other)),
        }
    }

    /// The block of the first arm from a place on whose condition holds, or the other one.
    pub fn branch_from(
        &self,
        arms: &Shared<Items<Arm>>,
        from: u64,
        other: &Shared<Block>,
        doing: &mut Doing,
    ) -> Result<Reached, Stop>
        requires { Executes self.now.fuel (X.pre self.now.exec) (X.post self.now.exec) }
        ensures { Gives (spec.branch_from (steps self.now.fuel) arms.now from other.now (drop from arms.now) doing.old) result doing.new }
    {
        let mut at = from;
        let mut all = rest_from(arms.get(), from);
        while let [arm, rest @ ..] = all {
            if let Some(reached) = self.arm_at(arms, at, other, arm, doing)? {
                return Ok(reached);
            }
            at += 1;
            all = rest;
        }
        self.run(other, doing)
    }

    /// The same from the test of the arm at that place on.
    pub fn tested_from(
        &self,
        arms: &Shared<Items<Arm>>,
        from: u64,
        other: &Shared<Block>,
        doing: &mut Doing,
    ) -> Result<Reached, Stop>
        requires { Executes self.now.fuel (X.pre self.now.exec) (X.post self.now.exec) }
        ensures { Gives (spec.tested_from (steps self.now.fuel) arms.now from other.now (drop from arms.now) doing.old) result doing.new }
    {
        let [arm, ..] = rest_from(arms.get(), from) else {
            return self.run(other, doing);
        };
        match self.taken(arm, doing)? {
            Some(reached) => Ok(reached),
            None => self.branch_from(arms, from + 1, other, doing),
        }
    }

    /// An `if` behind what is done before the test of that arm.
    pub fn behind_effects(
        &self,
        flow: Flow,
        arms: &Shared<Items<Arm>>,
        at: u64,
        other: &Shared<Block>,
        doing: &mut Doing,
    ) -> Result<Reached, Stop>
        requires { Executes self.now.fuel (X.pre self.now.exec) (X.post self.now.exec) }
        ensures { Gives (spec.step (steps self.now.fuel) (Branch arms.now at other.now) flow doing.old) result doing.new }
    {
        drop(flow);
        self.tested_from(arms, at, other, doing)
    }
}
