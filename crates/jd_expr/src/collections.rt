//! Builtins over the elements of collections.
ghost use Rattle.std.specs.Prelude.{◌≡◌, ◌++◌, ◌<◌, ◌^◌, length, IfOk, OnOk};
ghost use Rattle.jd_value.specs.declared.value.Value.TheVariants.{Grid};
ghost use Rattle.jd_value.specs.Span.{span_length as numbers};
ghost use Rattle.jd_expr.specs.Action.{Gives, and_then, units};
ghost use Rattle.jd_expr.specs.Collections as spec;
ghost use Rattle.jd_expr.specs.Limits as limit;
ghost use Rattle.jd_expr.specs.Ranges as spans;

use crate::budget::Budget;
use crate::limits::{MAX_ELEMENTS, made};
use crate::ranges::range_items;
use crate::stop::Stop;
use jd_value::{Array, Fault, OutOfMemory, Shared, Span, Value};
use sqlite_items::Items;
use std::alloc::Global;

/// The list of the numbers of a range.
#[tactic(auto, using(crate::proofs::Limited::too_many_numbers))]
pub(crate) fn span_made(alloc: Global, span: &Span, budget: &mut Budget) -> Result<Value, Stop>
    ensures { Gives (spec.list_made (spans.range_items span.now) budget.old) result budget.new }
{
    if span.len() > u128::from(MAX_ELEMENTS) {
        return Err(Stop::Faulted(Fault::Argument));
    }
    let items = Shared::new(alloc, range_items(alloc, span)?)?;
    made(Value::List(items), budget)
}

/// The same list, for a unit each element.
fn list_collected(items: &Shared<Items<Value>>, budget: &mut Budget) -> Result<Value, Stop>
    ensures { Gives (and_then (units (length items.now) budget.old) (λ _. spec.list_made items.now)) result budget.new }
{
    budget.spend_all(items.get().len() as u128)?;
    made(Value::List(items.share()?), budget)
}

/// The list of the numbers of a range, for a unit each number.
fn span_collected(alloc: Global, span: &Span, budget: &mut Budget) -> Result<Value, Stop>
    ensures { Gives (and_then (units (numbers span.now) budget.old) (λ _. spec.list_made (spans.range_items span.now))) result budget.new }
{
    budget.spend_all(span.len())?;
    span_made(alloc, span, budget)
}

/// The same grid, for a unit each cell.
fn grid_collected(grid: &Shared<Array>, budget: &mut Budget) -> Result<Value, Stop>
    ensures { Gives (and_then (units (length grid.now.cells) budget.old) (λ _. limit.made (Grid grid.now))) result budget.new }
{
    budget.spend_all(grid.get().cells().len() as u128)?;
    made(Value::Grid(grid.share()?), budget)
}

/// `collect(x)`
pub(crate) fn collected(alloc: Global, args: &[Value], budget: &mut Budget) -> Result<Value, Stop>
    ensures { Gives (spec.collected args.now budget.old) result budget.new }
{
    match args {
        [Value::List(items)] => list_collected(items, budget),
        [Value::Range(span)] => span_collected(alloc, span.get(), budget),
        _ => Err(Stop::Faulted(Fault::BadType)),
    }
}

/// `Array(x)`
pub(crate) fn array_of(alloc: Global, args: &[Value], budget: &mut Budget) -> Result<Value, Stop>
    ensures { Gives (spec.array_of args.now budget.old) result budget.new }
{
    match args {
        [Value::Grid(grid)] => grid_collected(grid, budget),
        _ => collected(alloc, args, budget),
    }
}

/// Whether a value is a list or range.
#[tactic(auto, unfolding(crate::specs::Ranges::is_listed))]
fn is_listed(value: &Value) -> bool
    ensures { result ≡ spans.is_listed value.now }
{
    match value {
        Value::List(_) | Value::Range(_) => true,
        Value::Int(_)
        | Value::True
        | Value::False
        | Value::Nothing
        | Value::Text(_)
        | Value::Tuple(_)
        | Value::Grid(_)
        | Value::Exception(_)
        | Value::Future(_) => false,
    }
}

/// How many elements a list or range has.
#[tactic(auto, unfolding(crate::specs::Ranges::listed), using(crate::proofs::Spanned::length_items))]
fn listed_length(value: &Value) -> u128
    ensures count { result ≡ length (spans.listed value.now) }
    ensures bound { result < 2 ^ 65 }
{
    match value {
        Value::List(items) => items.get().len() as u128,
        Value::Range(span) => span_length(span.get()),
        Value::Int(_)
        | Value::True
        | Value::False
        | Value::Nothing
        | Value::Text(_)
        | Value::Tuple(_)
        | Value::Grid(_)
        | Value::Exception(_)
        | Value::Future(_) => 0,
    }
}

/// How many numbers a range has.
fn span_length(span: &Span) -> u128
    ensures count { result ≡ numbers span.now }
    ensures bound { result < 2 ^ 65 }
{
    prove!(i128::from(span.last()) - i128::from(span.first()) < 1 << 64);
    span.len()
}

/// Adds values at the end.
fn push_values(items: &mut Items<Value>, more: &[Value]) -> Result<(), OutOfMemory>
    ensures { OnOk result (items.new ≡ items.old ++ more.now) }
{
    for value in more {
        items.push(value.copy()?)?;
    }
    Ok(())
}

/// Adds the elements of a list or range at the end.
#[tactic(auto, unfolding(crate::specs::Ranges::listed), using(crate::proofs::Limited::nothing_added))]
fn push_listed(alloc: Global, items: &mut Items<Value>, value: &Value) -> Result<(), OutOfMemory>
    ensures { OnOk result (items.new ≡ items.old ++ spans.listed value.now) }
{
    match value {
        Value::List(more) => push_values(items, more.get().as_slice()),
        Value::Range(span) => push_numbers(alloc, items, span.get()),
        Value::Int(_)
        | Value::True
        | Value::False
        | Value::Nothing
        | Value::Text(_)
        | Value::Tuple(_)
        | Value::Grid(_)
        | Value::Exception(_)
        | Value::Future(_) => Ok(()),
    }
}

/// Adds the numbers of a range at the end.
fn push_numbers(alloc: Global, items: &mut Items<Value>, span: &Span) -> Result<(), OutOfMemory>
    ensures { OnOk result (items.new ≡ items.old ++ spans.range_items span.now) }
{
    let more = range_items(alloc, span)?;
    items.append(more)?;
    Ok(())
}

/// The elements of two lists or ranges.
fn both(alloc: Global, x: &Value, y: &Value) -> Result<Items<Value>, OutOfMemory>
    ensures { IfOk result (λ items. items ≡ spans.listed x.now ++ spans.listed y.now) }
{
    let mut items = Items::new(alloc);
    push_listed(alloc, &mut items, x)?;
    push_listed(alloc, &mut items, y)?;
    Ok(items)
}

/// The list of the elements of two lists or ranges.
#[tactic(auto, using(crate::proofs::Limited::too_many_both))]
fn both_made(alloc: Global, x: &Value, y: &Value, budget: &mut Budget) -> Result<Value, Stop>
    ensures { Gives (spec.list_made (spans.listed x.now ++ spans.listed y.now) budget.old) result budget.new }
{
    if listed_length(x) + listed_length(y) > u128::from(MAX_ELEMENTS) {
        return Err(Stop::Faulted(Fault::Argument));
    }
    let items = Shared::new(alloc, both(alloc, x, y)?)?;
    made(Value::List(items), budget)
}

/// `vcat(x, y)`
pub(crate) fn concatenated(
    alloc: Global,
    args: &[Value],
    budget: &mut Budget,
) -> Result<Value, Stop>
    ensures { Gives (spec.concatenated args.now budget.old) result budget.new }
{
    match args {
        [x, y] => {
            if !is_listed(x) || !is_listed(y) {
                return Err(Stop::Faulted(Fault::BadType));
            }
            both_made(alloc, x, y, budget)
        }
        _ => Err(Stop::Faulted(Fault::BadType)),
    }
}
