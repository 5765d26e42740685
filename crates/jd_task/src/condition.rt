//! Conditions.
ghost use Rattle.std.specs.Prelude.{◌≡◌, MatchResult, Err};
ghost use Rattle.jd_expr.specs.Action.{Gives};
ghost use Rattle.jd_task.specs.Elements.{truth};
ghost use Rattle.jd_task.specs.Running as spec;

use crate::doing::Doing;
use jd_expr::{Stop, eval};
use jd_value::{Expr, Fault, Value};
use std::alloc::Global;

/// The truth value that a condition is to have.
fn truth(value: &Value) -> Result<bool, Fault>
    ensures { result ≡ truth value.now }
{
    match value {
        Value::True => Ok(true),
        Value::False => Ok(false),
        _ => Err(Fault::BadType),
    }
}

/// The condition of a branch or a loop.
#[tactic(auto, unfolding(crate::specs::Running::decision))]
pub(crate) fn test(alloc: Global, x: &Expr, doing: &mut Doing) -> Result<bool, Stop>
    ensures { Gives (spec.decision x.now doing.old) result doing.new }
{
    let value = eval(alloc, x, &doing.variables, &mut doing.left)?;
    let holds = truth(&value);
    drop(value);
    holds.map_err(Stop::Faulted)
}
