//! Statements with no statements inside, of which the unit is spent.
ghost use Rattle.std.specs.Prelude.{◌≡◌, IfOk, MatchResult, Ok, Err};
ghost use Rattle.jd_task.specs.declared.flow.Flow.TheVariants.{Next};
ghost use Rattle.jd_task.specs.declared.reached.Reached.TheVariants.{Went};
ghost use Rattle.jd_expr.specs.Action.{Gives};
ghost use Rattle.jd_task.specs.Running as spec;

use crate::closure::captured;
use crate::doing::Doing;
use crate::flow::Flow;
use crate::frame::answer_in;
use crate::op::Op;
use crate::reached::{Reached, asks};
use jd_expr::{Env, Stop, eval, eval_all};
use jd_value::{Body, Expr, Operation, OutOfMemory, Shared, Txt, Value};
use sqlite_items::Items;
use std::alloc::Global;

pub(crate) fn set(name: &Txt, value: &Value, doing: &mut Doing) -> Result<(), Stop>
    ensures { Gives (spec.set name.now value.now doing.old) result doing.new }
{
    doing.variables.set(name, value.copy()?)?;
    Ok(())
}

/// A statement ends with this value, unless what was done with it stopped.
pub(crate) fn next_or(value: Value, done: Result<(), Stop>) -> Result<Reached, Stop>
    ensures { MatchResult done (λ _. result ≡ Ok (Went (Next value))) (λ stop. result ≡ Err stop) }
{
    match done {
        Ok(()) => Ok(Reached::Went(Flow::Next(value))),
        Err(stop) => {
            drop(value);
            Err(stop)
        }
    }
}

#[tactic(auto, unfolding(crate::specs::Running::assignment))]
pub(crate) fn assign(
    alloc: Global,
    name: &Txt,
    x: &Expr,
    doing: &mut Doing,
) -> Result<Reached, Stop>
    ensures { Gives (spec.assignment name.now x.now doing.old) result doing.new }
{
    let value = eval(alloc, x, &doing.variables, &mut doing.left)?;
    let was_set = set(name, &value, doing);
    next_or(value, was_set)
}

#[tactic(auto, unfolding(crate::specs::Running::expression))]
pub(crate) fn expression(alloc: Global, x: &Expr, doing: &mut Doing) -> Result<Reached, Stop>
    ensures { Gives (spec.expression x.now doing.old) result doing.new }
{
    let value = eval(alloc, x, &doing.variables, &mut doing.left)?;
    Ok(Reached::Went(Flow::Next(value)))
}

/// The operation with the closure of its body.
fn op_of(
    alloc: Global,
    operation: Operation,
    body: &Option<Body>,
    args: Items<Value>,
    variables: &Env,
) -> Result<Op, OutOfMemory>
    ensures { IfOk result (λ op. op ≡ spec.op_of operation body.now args variables.now) }
{
    Ok(Op {
        operation,
        body: captured(alloc, body, variables)?,
        args,
    })
}

#[tactic(auto, unfolding(crate::specs::Running::effect))]
pub(crate) fn effect(
    alloc: Global,
    name: &Shared<Txt>,
    operation: Operation,
    body: &Option<Body>,
    args: &[Expr],
    doing: &mut Doing,
) -> Result<Reached, Stop>
    ensures { Gives (spec.effect name.now operation body.now args.now doing.old) result doing.new }
{
    let args = eval_all(alloc, args, &doing.variables, &mut doing.left)?;
    let op = op_of(alloc, operation, body, args, &doing.variables)?;
    asks(op, answer_in(alloc, name))
}
