//! `while`.
ghost use Rattle.std.specs.Prelude.{◌≡◌};
ghost use Rattle.jd_expr.specs.Action.{Gives};
ghost use Rattle.jd_task.specs.Executes.{Executes, Repeats};
ghost use Rattle.jd_task.specs.Running as spec;
ghost use Rattle.jd_task.specs.Running.{steps, left, stays, otherwise};
ghost use Rattle.jd_task.specs.declared.frame.Frame.TheVariants.{Condition, Loop};

use crate::condition::test;
use crate::doing::Doing;
use crate::flow::Flow;
use crate::frame::{in_condition, in_loop};
use crate::level::Level;
use crate::reached::{Reached, asks_in_part};
use jd_expr::Stop;
use jd_value::{Arm, Shared, Stmt, Value};
use std::alloc::Global;

impl<
    X: Fn(Global, u64, &Stmt, &mut Doing) -> Result<Reached, Stop>,
    A: Fn(Global, u64, &Shared<Arm>, &mut Doing) -> Result<Reached, Stop>,
> Level<X, A> {
    /// The test, or none where the condition holds.
    #[tactic(auto, unfolding(crate::specs::Running::held))]
    fn held(&self, arm: &Arm, doing: &mut Doing) -> Result<Option<Reached>, Stop>
        ensures { Gives (spec.held (steps self.now.fuel) arm.now doing.old) result doing.new }
    {
        if test(self.alloc, &arm.test, doing)? {
            Ok(None)
        } else {
            Ok(Some(Reached::Went(Flow::Next(Value::Nothing))))
        }
    }

    /// What is done before the test, and the test.
    #[tactic(auto, unfolding(crate::specs::Running::condition))]
    fn condition(&self, arm: &Shared<Arm>, doing: &mut Doing) -> Result<Option<Reached>, Stop>
        requires { Executes self.now.fuel (X.pre self.now.exec) (X.post self.now.exec) }
        ensures { Gives (spec.condition (steps self.now.fuel) arm.now doing.old) result doing.new }
    {
        match self.run(&arm.get().effects, doing)? {
            Reached::Went(flow) => {
                drop(flow);
                self.held(arm.get(), doing)
            }
            Reached::Asks(op, frames) => asks_in_part(op, in_condition(frames, arm)),
        }
    }

    /// The condition behind a turn that ended so.
    fn stays(
        &self,
        flow: Flow,
        arm: &Shared<Arm>,
        doing: &mut Doing,
    ) -> Result<Option<Reached>, Stop>
        requires { Executes self.now.fuel (X.pre self.now.exec) (X.post self.now.exec) }
        ensures { Gives (stays (left flow) (spec.condition (steps self.now.fuel) arm.now) doing.old) result doing.new }
    {
        if flow.leaves() {
            Ok(Some(Reached::Went(Flow::Next(Value::Nothing))))
        } else {
            self.condition(arm, doing)
        }
    }

    /// A turn whose unit is spent, and the condition behind it; none where there is one more turn.
    #[tactic(auto, unfolding(crate::specs::Running::once))]
    pub fn turn(&self, arm: &Shared<Arm>, doing: &mut Doing) -> Result<Option<Reached>, Stop>
        requires { Executes self.now.fuel (X.pre self.now.exec) (X.post self.now.exec) }
        ensures { Gives (spec.once (steps self.now.fuel) arm.now doing.old) result doing.new }
    {
        match self.run(&arm.get().block, doing)? {
            Reached::Went(flow) => self.stays(flow, arm, doing),
            Reached::Asks(op, frames) => asks_in_part(op, in_loop(frames, arm)),
        }
    }

    /// The turns that are left behind this part of a `while`.
    fn otherwise(
        &self,
        part: Option<Reached>,
        arm: &Shared<Arm>,
        doing: &mut Doing,
    ) -> Result<Reached, Stop>
        requires { Repeats self.now.fuel (A.pre self.now.again) (A.post self.now.again) }
        ensures { Gives (otherwise part ((steps self.now.fuel).again arm.now) doing.old) result doing.new }
    {
        match part {
            Some(reached) => Ok(reached),
            None => self.repeat(arm, doing),
        }
    }

    #[tactic(auto, unfolding(crate::specs::Running::while_holds))]
    pub fn while_holds(&self, arm: &Shared<Arm>, doing: &mut Doing) -> Result<Reached, Stop>
        requires executes { Executes self.now.fuel (X.pre self.now.exec) (X.post self.now.exec) }
        requires repeats { Repeats self.now.fuel (A.pre self.now.again) (A.post self.now.again) }
        ensures { Gives (spec.while_holds (steps self.now.fuel) arm.now doing.old) result doing.new }
    {
        let part = self.condition(arm, doing)?;
        self.otherwise(part, arm, doing)
    }

    /// A `while` behind what is done before its test.
    pub fn from_test(
        &self,
        flow: Flow,
        arm: &Shared<Arm>,
        doing: &mut Doing,
    ) -> Result<Reached, Stop>
        requires { Repeats self.now.fuel (A.pre self.now.again) (A.post self.now.again) }
        ensures { Gives (spec.step (steps self.now.fuel) (Condition arm.now) flow doing.old) result doing.new }
    {
        drop(flow);
        let part = self.held(arm.get(), doing)?;
        self.otherwise(part, arm, doing)
    }

    /// A `while` behind its block, which ended so.
    pub fn behind_turn(
        &self,
        flow: Flow,
        arm: &Shared<Arm>,
        doing: &mut Doing,
    ) -> Result<Reached, Stop>
        requires executes { Executes self.now.fuel (X.pre self.now.exec) (X.post self.now.exec) }
        requires repeats { Repeats self.now.fuel (A.pre self.now.again) (A.post self.now.again) }
        ensures { Gives (spec.step (steps self.now.fuel) (Loop arm.now) flow doing.old) result doing.new }
    {
        let part = self.stays(flow, arm, doing)?;
        self.otherwise(part, arm, doing)
    }
}
