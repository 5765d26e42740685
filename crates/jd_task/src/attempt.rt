//! `try`.
ghost use Rattle.std.specs.Prelude.{◌≡◌, Option};
ghost use Rattle.jd_expr.specs.Action.{Gives};
ghost use Rattle.jd_task.specs.Executes.{Executes};
ghost use Rattle.jd_task.specs.Running as spec;
ghost use Rattle.jd_task.specs.Running.{steps};
ghost use Rattle.jd_task.specs.Elements.{is_budget};
ghost use Rattle.jd_value.specs.declared.value.Value.TheVariants.{Exception};

use crate::doing::Doing;
use crate::frame::in_try;
use crate::level::Level;
use crate::reached::{Reached, asks};
use jd_expr::Stop;
use jd_value::{Arm, Block, Fault, Shared, Stmt, Txt, Value};
use std::alloc::Global;

/// Whether a fault is that of the units, which no `catch` takes.
fn is_budget(fault: &Fault) -> bool
    ensures { result ≡ is_budget fault.now }
{
    matches!(fault, Fault::Budget)
}

/// The variable of this name gets the fault.
fn keep_in(alloc: Global, name: &Txt, fault: Fault, doing: &mut Doing) -> Result<(), Stop>
    ensures { Gives (spec.set name.now (Exception fault) doing.old) result doing.new }
{
    let fault = Shared::new(alloc, fault)?;
    Ok(doing.variables.set(name, Value::Exception(fault))?)
}

/// The variable of a `catch`, if it has one, gets the fault.
fn keep(
    alloc: Global,
    name: &Option<Shared<Txt>>,
    fault: Fault,
    doing: &mut Doing,
) -> Result<(), Stop>
    ensures { Gives (spec.keep name.now (Exception fault) doing.old) result doing.new }
{
    match name {
        Some(name) => keep_in(alloc, name.get(), fault, doing),
        None => {
            drop(fault);
            Ok(())
        }
    }
}

impl<
    X: Fn(Global, u64, &Stmt, &mut Doing) -> Result<Reached, Stop>,
    A: Fn(Global, u64, &Shared<Arm>, &mut Doing) -> Result<Reached, Stop>,
> Level<X, A> {
    /// A fault that comes to a `catch`.
    #[tactic(auto, unfolding(crate::specs::Running::caught))]
    pub fn caught(
        &self,
        name: &Option<Shared<Txt>>,
        handler: &Shared<Block>,
        fault: Fault,
        doing: &mut Doing,
    ) -> Result<Reached, Stop>
        requires { Executes self.now.fuel (X.pre self.now.exec) (X.post self.now.exec) }
        ensures { Gives (spec.caught (steps self.now.fuel) name.now handler.now fault doing.old) result doing.new }
    {
        if is_budget(&fault) {
            return Err(Stop::Faulted(fault));
        }
        keep(self.alloc, name, fault, doing)?;
        self.run(handler, doing)
    }

    #[tactic(auto, unfolding(crate::specs::Running::attempt))]
    pub fn attempt(
        &self,
        block: &Shared<Block>,
        name: &Option<Shared<Txt>>,
        handler: &Shared<Block>,
        doing: &mut Doing,
    ) -> Result<Reached, Stop>
        requires { Executes self.now.fuel (X.pre self.now.exec) (X.post self.now.exec) }
        ensures { Gives (spec.attempt (steps self.now.fuel) block.now name.now handler.now doing.old) result doing.new }
    {
        match self.run(block, doing) {
            Ok(Reached::Went(flow)) => Ok(Reached::Went(flow)),
            Ok(Reached::Asks(op, frames)) => asks(op, in_try(frames, name, handler)),
            Err(Stop::Faulted(fault)) => self.caught(name, handler, fault, doing),
            Err(Stop::OutOfMemory) => Err(Stop::OutOfMemory),
        }
    }
}
