//! `for`.
ghost use Rattle.std.specs.Prelude.{◌≡◌, drop, if◌then◌else◌};
ghost use Rattle.jd_expr.specs.Action.{Gives, fail};
ghost use Rattle.jd_task.specs.Executes.{Executes};
ghost use Rattle.jd_task.specs.Running as spec;
ghost use Rattle.jd_task.specs.Running.{steps, left};
ghost use Rattle.jd_task.specs.Elements.{elements, is_collection};
ghost use Rattle.jd_task.specs.declared.frame.Frame.TheVariants.{Each};
ghost use Rattle.jd_value.specs.declared.fault.Fault.TheVariants.{BadType};

use crate::collection::{element, is_collection};
use crate::doing::Doing;
use crate::flow::Flow;
use crate::frame::in_each;
use crate::level::Level;
use crate::reached::{Reached, asks_in_part};
use jd_expr::{Stop, eval};
use jd_value::{Arm, Block, Expr, Fault, Shared, Stmt, Txt, Value};
use std::alloc::Global;

/// How a loop ends behind its block, which ended so; none where it goes on.
fn left(flow: Flow) -> Option<Reached>
    ensures { result ≡ left flow }
{
    if flow.leaves() {
        Some(Reached::Went(Flow::Next(Value::Nothing)))
    } else {
        None
    }
}

/// The unit of a turn, and its element for the variable.
#[tactic(auto, unfolding(crate::specs::Running::begin_turn))]
fn begin_turn(name: &Txt, x: Value, doing: &mut Doing) -> Result<(), Stop>
    ensures { Gives (spec.begin_turn name.now x doing.old) result doing.new }
{
    if let Err(stop) = doing.left.spend() {
        drop(x);
        return Err(stop);
    }
    Ok(doing.variables.set(name, x)?)
}

impl<
    X: Fn(Global, u64, &Stmt, &mut Doing) -> Result<Reached, Stop>,
    A: Fn(Global, u64, &Shared<Arm>, &mut Doing) -> Result<Reached, Stop>,
> Level<X, A> {
    /// A turn with this element, where the place of the next one is `next`; none where the loop goes on.
    #[tactic(auto, unfolding(crate::specs::Running::with_element))]
    fn with_element(
        &self,
        name: &Shared<Txt>,
        block: &Shared<Block>,
        collection: &Value,
        next: u128,
        x: Value,
        doing: &mut Doing,
    ) -> Result<Option<Reached>, Stop>
        requires { Executes self.now.fuel (X.pre self.now.exec) (X.post self.now.exec) }
        ensures { Gives (spec.with_element (steps self.now.fuel) name.now block.now collection.now next x doing.old) result doing.new }
    {
        begin_turn(name.get(), x, doing)?;
        match self.run(block, doing)? {
            Reached::Went(flow) => Ok(left(flow)),
            Reached::Asks(op, frames) => {
                asks_in_part(op, in_each(frames, name, block, collection, next))
            }
        }
    }

    /// The elements from a place on.
    fn over(
        &self,
        name: &Shared<Txt>,
        block: &Shared<Block>,
        collection: &Value,
        from: u128,
        doing: &mut Doing,
    ) -> Result<Reached, Stop>
        requires { Executes self.now.fuel (X.pre self.now.exec) (X.post self.now.exec) }
        ensures { Gives (spec.over (steps self.now.fuel) name.now block.now collection.now from (drop from (elements collection.now)) doing.old) result doing.new }
    {
        let mut at = from;
        while let Some(x) = element(collection, at)? {
            at += 1;
            if let Some(reached) = self.with_element(name, block, collection, at, x, doing)? {
                return Ok(reached);
            }
        }
        Ok(Reached::Went(Flow::Next(Value::Nothing)))
    }

    /// All elements of what is to be a collection.
    fn over_all(
        &self,
        name: &Shared<Txt>,
        block: &Shared<Block>,
        collection: &Value,
        doing: &mut Doing,
    ) -> Result<Reached, Stop>
        requires { Executes self.now.fuel (X.pre self.now.exec) (X.post self.now.exec) }
        ensures { Gives ((if is_collection collection.now then spec.over (steps self.now.fuel) name.now block.now collection.now 0 (elements collection.now) else fail BadType) doing.old) result doing.new }
    {
        if is_collection(collection) {
            self.over(name, block, collection, 0, doing)
        } else {
            Err(Stop::Faulted(Fault::BadType))
        }
    }

    #[tactic(auto, unfolding(crate::specs::Running::for_in))]
    pub fn for_in(
        &self,
        name: &Shared<Txt>,
        x: &Expr,
        block: &Shared<Block>,
        doing: &mut Doing,
    ) -> Result<Reached, Stop>
        requires { Executes self.now.fuel (X.pre self.now.exec) (X.post self.now.exec) }
        ensures { Gives (spec.for_in (steps self.now.fuel) name.now x.now block.now doing.old) result doing.new }
    {
        let collection = eval(self.alloc, x, &doing.variables, &mut doing.left)?;
        let came = self.over_all(name, block, &collection, doing);
        drop(collection);
        came
    }

    /// A `for` behind its block, which ended so.
    pub fn behind_element(
        &self,
        flow: Flow,
        name: &Shared<Txt>,
        block: &Shared<Block>,
        collection: &Value,
        at: u128,
        doing: &mut Doing,
    ) -> Result<Reached, Stop>
        requires { Executes self.now.fuel (X.pre self.now.exec) (X.post self.now.exec) }
        ensures { Gives (spec.step (steps self.now.fuel) (Each name.now block.now collection.now at) flow doing.old) result doing.new }
    {
        match left(flow) {
            Some(reached) => Ok(reached),
            None => self.over(name, block, collection, at, doing),
        }
    }
}
