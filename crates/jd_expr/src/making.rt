//! Builtins that make collections.
ghost use Rattle.std.specs.Prelude.{◌≡◌, replicate, IfOk};
ghost use Rattle.jd_expr.specs.Action.{Gives};
ghost use Rattle.jd_expr.specs.Making as spec;

use crate::budget::Budget;
use crate::limits::{MAX_ELEMENTS, made};
use crate::stop::Stop;
use jd_value::{Fault, OutOfMemory, Shared, Value};
use sqlite_items::Items;
use std::alloc::Global;

/// The same values once more, in a list of their own.
pub(crate) fn copied(alloc: Global, values: &[Value]) -> Result<Items<Value>, OutOfMemory>
    ensures { IfOk result (λ items. items ≡ values.now) }
{
    let mut items = Items::new(alloc);
    for value in values {
        items.push(value.copy()?)?;
    }
    Ok(items)
}

/// `[a, b, ..]`
pub(crate) fn list_of(alloc: Global, args: &[Value], budget: &mut Budget) -> Result<Value, Stop>
    ensures { Gives (spec.list_of args.now budget.old) result budget.new }
{
    let items = Shared::new(alloc, copied(alloc, args)?)?;
    made(Value::List(items), budget)
}

/// `(a, b, ..)`
pub(crate) fn tuple_of(alloc: Global, args: &[Value], budget: &mut Budget) -> Result<Value, Stop>
    ensures { Gives (spec.tuple_of args.now budget.old) result budget.new }
{
    let items = Shared::new(alloc, copied(alloc, args)?)?;
    made(Value::Tuple(items), budget)
}

/// The same value so many times.
fn repeated(alloc: Global, value: &Value, count: u64) -> Result<Items<Value>, OutOfMemory>
    ensures { IfOk result (λ items. items ≡ replicate count value.now) }
{
    let mut items = Items::new(alloc);
    for _ in 0..count {
        items.push(value.copy()?)?;
    }
    Ok(items)
}

/// The list of so many of the same value.
#[tactic(auto, using(crate::proofs::Limited::too_many_copies))]
fn copies_made(alloc: Global, value: &Value, count: u64, budget: &mut Budget) -> Result<Value, Stop>
    ensures { Gives (spec.copies_made value.now count budget.old) result budget.new }
{
    if count > MAX_ELEMENTS {
        return Err(Stop::Faulted(Fault::Argument));
    }
    let items = Shared::new(alloc, repeated(alloc, value, count)?)?;
    made(Value::List(items), budget)
}

/// `fill(x, n)`
pub(crate) fn filled(alloc: Global, args: &[Value], budget: &mut Budget) -> Result<Value, Stop>
    ensures { Gives (spec.filled args.now budget.old) result budget.new }
{
    match args {
        [value, Value::Int(count)] => {
            if *count < 0 {
                return Err(Stop::Faulted(Fault::Argument));
            }
            copies_made(alloc, value, count.unsigned_abs(), budget)
        }
        _ => Err(Stop::Faulted(Fault::BadType)),
    }
}
