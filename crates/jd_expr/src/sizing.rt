//! How large collections are, and what stands at their ends.
ghost use Rattle.std.specs.Prelude.{◌≡◌, ℕ, ◌∷◌, [], map, IfOk};
ghost use Rattle.jd_value.specs.declared.value.Value.TheVariants.{Tuple};
ghost use Rattle.jd_expr.specs.Action.{Gives, Done};
ghost use Rattle.jd_expr.specs.Collections as spec;

use crate::arithmetic::truth;
use crate::budget::Budget;
use crate::limits::answered;
use crate::stop::Stop;
use jd_value::{Fault, OutOfMemory, Shared, Value};
use sqlite_items::Items;
use std::alloc::Global;

/// `isempty(x)`
pub(crate) fn emptiness(_alloc: Global, args: &[Value], _budget: &mut Budget) -> Result<Value, Stop>
    ensures { Gives (spec.emptiness args.now _budget.old) result _budget.new }
{
    match args {
        [Value::List(items)] => Ok(truth(items.get().is_empty())),
        [Value::Range(span)] => Ok(truth(span.get().is_empty())),
        _ => Err(Stop::Faulted(Fault::BadType)),
    }
}

/// `first(x)`
pub(crate) fn first_item(_alloc: Global, args: &[Value], budget: &mut Budget) -> Result<Value, Stop>
    ensures { Gives (spec.first_item args.now budget.old) result budget.new }
{
    match args {
        [Value::List(items)] => match items.get().as_slice().first() {
            Some(item) => answered(item.copy()?, budget),
            None => Err(Stop::Faulted(Fault::Bounds)),
        },
        [Value::Range(span)] => answered(Value::Int(span.get().first()), budget),
        _ => Err(Stop::Faulted(Fault::BadType)),
    }
}

/// `last(x)`
pub(crate) fn last_item(_alloc: Global, args: &[Value], budget: &mut Budget) -> Result<Value, Stop>
    ensures { Gives (spec.last_item args.now budget.old) result budget.new }
{
    match args {
        [Value::List(items)] => match items.get().as_slice().last() {
            Some(item) => answered(item.copy()?, budget),
            None => Err(Stop::Faulted(Fault::Bounds)),
        },
        [Value::Range(span)] => answered(Value::Int(span.get().last()), budget),
        _ => Err(Stop::Faulted(Fault::BadType)),
    }
}

/// The lower 64 bits of a count as a number.
fn count_value(count: u128) -> Value
    ensures { result ≡ spec.count_value count }
{
    Value::Int(((count % (1 << 64)) as u64).cast_signed())
}

/// `length(x)`; that of a range wraps.
pub(crate) fn length_of(_alloc: Global, args: &[Value], _budget: &mut Budget) -> Result<Value, Stop>
    ensures { Gives (spec.length_of args.now _budget.old) result _budget.new }
{
    match args {
        [Value::List(items)] => Ok(count_value(items.get().len() as u128)),
        [Value::Range(span)] => Ok(count_value(span.get().len())),
        [Value::Tuple(items)] => Ok(count_value(items.get().len() as u128)),
        [Value::Grid(array)] => Ok(count_value(array.get().cells().len() as u128)),
        _ => Err(Stop::Faulted(Fault::BadType)),
    }
}

/// One count.
fn one_count(alloc: Global, count: u128) -> Result<Items<Value>, OutOfMemory>
    ensures { IfOk result (λ items. items ≡ spec.count_value count ∷ []) }
{
    let mut items = Items::new(alloc);
    items.push(count_value(count))?;
    Ok(items)
}

/// Counts.
fn counts(alloc: Global, sizes: &[u64]) -> Result<Items<Value>, OutOfMemory>
    ensures { IfOk result (λ items. items ≡ map spec.count_value sizes.now) }
{
    let mut items = Items::new(alloc);
    for size in sizes {
        items.push(count_value(u128::from(*size)))?;
    }
    Ok(items)
}

/// The tuple of one count.
fn one_dimension(alloc: Global, count: u128) -> Result<Value, Stop>
    ensures { (units : ℕ) → Gives (Done (Tuple (spec.count_value count ∷ [])) units) result units }
{
    Ok(Value::Tuple(Shared::new(alloc, one_count(alloc, count)?)?))
}

/// The tuple of counts.
fn dimensions(alloc: Global, sizes: &[u64]) -> Result<Value, Stop>
    ensures { (units : ℕ) → Gives (Done (Tuple (map spec.count_value sizes.now)) units) result units }
{
    Ok(Value::Tuple(Shared::new(alloc, counts(alloc, sizes)?)?))
}

/// `size(x)`: the tuple of the lengths of the dimensions; that of a range wraps.
pub(crate) fn dimensions_of(
    alloc: Global,
    args: &[Value],
    _budget: &mut Budget,
) -> Result<Value, Stop>
    ensures { Gives (spec.dimensions_of args.now _budget.old) result _budget.new }
{
    match args {
        [Value::List(items)] => one_dimension(alloc, items.get().len() as u128),
        [Value::Range(span)] => one_dimension(alloc, span.get().len()),
        [Value::Tuple(items)] => one_dimension(alloc, items.get().len() as u128),
        [Value::Grid(array)] => dimensions(alloc, array.get().dims().as_slice()),
        _ => Err(Stop::Faulted(Fault::BadType)),
    }
}
