//! Evaluation.
ghost use Rattle.std.specs.Prelude.{◌≡◌};
ghost use Rattle.jd_expr.specs.Action.{Gives};
ghost use Rattle.jd_expr.specs.Meaning.{meaning, evaluated, all_evaluated};

use crate::budget::Budget;
use crate::env::Env;
use crate::level::Level;
use crate::stop::Stop;
use jd_value::{Expr, Fault, Value};
use sqlite_items::Items;
use std::alloc::Global;

/// So many calls of functions may nest.
pub const MAX_CALLS: u64 = 20;

#[cycle(evaluation)]
fn eval_to(
    alloc: Global,
    fuel: u64,
    calls: u64,
    vars: &Env,
    x: &Expr,
    budget: &mut Budget,
) -> Result<Value, Stop>
    ensures { Gives ((meaning fuel).eval calls vars.now x.now budget.old) result budget.new }
{
    if fuel == 0 {
        return Err(Stop::Faulted(Fault::Budget));
    }
    budget.spend()?;
    Level {
        alloc,
        fuel: fuel - 1,
        eval: eval_to,
    }
    .node(calls, vars, x, budget)
}

/// The value of an expression, or its fault. The budget is left with what its evaluation didn't spend. It recurses once
/// for each level of the expression.
pub fn eval(alloc: Global, expr: &Expr, env: &Env, budget: &mut Budget) -> Result<Value, Stop>
    ensures { Gives (evaluated expr.now env.now budget.old) result budget.new }
{
    eval_to(alloc, budget.left(), MAX_CALLS, env, expr, budget)
}

/// The values of the expressions, from left to right, or the first fault.
pub fn eval_all(
    alloc: Global,
    exprs: &[Expr],
    env: &Env,
    budget: &mut Budget,
) -> Result<Items<Value>, Stop>
    ensures { Gives (all_evaluated exprs.now env.now budget.old) result budget.new }
{
    Level {
        alloc,
        fuel: budget.left(),
        eval: eval_to,
    }
    .each(MAX_CALLS, env, exprs, budget)
}
