//! Sums, products and extremes of the numbers of a collection.
ghost use Rattle.std.specs.Prelude.{◌≡◌, fold, length, map};
ghost use Rattle.jd_array.specs.Fold.{combined, folded};
ghost use Rattle.jd_value.specs.Span.{span_items, span_length};
ghost use Rattle.jd_expr.specs.Action.{Gives};
ghost use Rattle.jd_expr.specs.Collections as spec;

use crate::budget::Budget;
use crate::ranges::number_at;
use crate::stop::Stop;
use jd_array::{Reducer, fold_op};
use jd_value::{Fault, Span, Value};
use std::alloc::Global;

/// Whether a value is a number.
fn is_number(value: &Value) -> bool
    ensures { result ≡ spec.is_number value.now }
{
    match value {
        Value::Int(_) => true,
        Value::True
        | Value::False
        | Value::Nothing
        | Value::Text(_)
        | Value::Range(_)
        | Value::List(_)
        | Value::Tuple(_)
        | Value::Grid(_)
        | Value::Exception(_)
        | Value::Future(_) => false,
    }
}

/// A number, or 0 for any other value.
pub(crate) fn number_of(value: &Value) -> i64
    ensures { result ≡ spec.number_of value.now }
{
    match value {
        Value::Int(number) => *number,
        Value::True
        | Value::False
        | Value::Nothing
        | Value::Text(_)
        | Value::Range(_)
        | Value::List(_)
        | Value::Tuple(_)
        | Value::Grid(_)
        | Value::Exception(_)
        | Value::Future(_) => 0,
    }
}

/// Whether all values are numbers.
pub(crate) fn are_numbers(mut values: &[Value]) -> bool
    ensures { result ≡ spec.are_numbers values.entry.now }
{
    while let [value, rest @ ..] = values {
        if !is_number(value) {
            return false;
        }
        values = rest;
    }
    true
}

/// The total, combined with the numbers from left to right.
fn fold_values(op: Reducer, start: i64, mut values: &[Value]) -> i64
    ensures { result ≡ fold (combined op) start (map spec.number_of values.entry.now) }
{
    let mut total = start;
    while let [value, rest @ ..] = values {
        total = op.combine(total, number_of(value));
        values = rest;
    }
    total
}

/// The fold of the numbers from the first one on.
fn folded_values(op: Reducer, values: &[Value]) -> Option<i64>
    ensures { result ≡ folded op (map spec.number_of values.now) }
{
    match values {
        [] => op.identity(),
        [value, rest @ ..] => Some(fold_values(op, number_of(value), rest)),
    }
}

/// The fold of the numbers of a range.
fn folded_span(op: Reducer, span: &Span) -> Option<i64>
    ensures { result ≡ folded op (span_items span.now) }
{
    if span.is_empty() {
        return op.identity();
    }
    let mut total = span.first();
    for place in 0..span.len() - 1 {
        total = op.combine(total, number_at(span, place + 1));
    }
    Some(total)
}

/// The fold of the cells of a grid.
fn folded_cells(op: Reducer, cells: &[i64]) -> Option<i64>
    ensures { result ≡ folded op cells.now }
{
    match fold_op(op, cells) {
        Ok(total) => Some(total),
        Err(_) => None,
    }
}

/// An answer, where there is one, else the fault `Argument`.
fn as_answer(total: Option<i64>) -> Result<Value, Fault>
    ensures { result ≡ spec.as_answer total }
{
    match total {
        Some(number) => Ok(Value::Int(number)),
        None => Err(Fault::Argument),
    }
}

#[tactic(auto, unfolding(crate::specs::Collections::totalled))]
fn values_reduced(op: Reducer, values: &[Value], budget: &mut Budget) -> Result<Value, Stop>
    ensures { Gives (spec.values_reduced op values.now budget.old) result budget.new }
{
    if !are_numbers(values) {
        return Err(Stop::Faulted(Fault::BadType));
    }
    budget.spend_all(values.len() as u128)?;
    as_answer(folded_values(op, values)).map_err(Stop::Faulted)
}

#[tactic(auto, unfolding(crate::specs::Collections::totalled))]
fn span_reduced(op: Reducer, span: &Span, budget: &mut Budget) -> Result<Value, Stop>
    ensures { Gives (spec.totalled op (span_length span.now) (span_items span.now) budget.old) result budget.new }
{
    budget.spend_all(span.len())?;
    as_answer(folded_span(op, span)).map_err(Stop::Faulted)
}

#[tactic(auto, unfolding(crate::specs::Collections::totalled))]
fn cells_reduced(op: Reducer, cells: &[i64], budget: &mut Budget) -> Result<Value, Stop>
    ensures { Gives (spec.totalled op (length cells.now) cells.now budget.old) result budget.new }
{
    budget.spend_all(cells.len() as u128)?;
    as_answer(folded_cells(op, cells)).map_err(Stop::Faulted)
}

fn reduced_by(op: Reducer, args: &[Value], budget: &mut Budget) -> Result<Value, Stop>
    ensures { Gives (spec.reduced_by op args.now budget.old) result budget.new }
{
    match args {
        [Value::List(items)] => values_reduced(op, items.get().as_slice(), budget),
        [Value::Range(span)] => span_reduced(op, span.get(), budget),
        [Value::Tuple(items)] => values_reduced(op, items.get().as_slice(), budget),
        [Value::Grid(array)] => cells_reduced(op, array.get().cells(), budget),
        _ => Err(Stop::Faulted(Fault::BadType)),
    }
}

/// `sum(x)`, which wraps; of nothing 0.
pub(crate) fn sum_of(_alloc: Global, args: &[Value], budget: &mut Budget) -> Result<Value, Stop>
    ensures { Gives (spec.sum_of args.now budget.old) result budget.new }
{
    reduced_by(Reducer::Add, args, budget)
}

/// `prod(x)`, which wraps; of nothing 1.
pub(crate) fn product_of(_alloc: Global, args: &[Value], budget: &mut Budget) -> Result<Value, Stop>
    ensures { Gives (spec.product_of args.now budget.old) result budget.new }
{
    reduced_by(Reducer::Mul, args, budget)
}

/// `maximum(x)`; of nothing it is `Argument`.
pub(crate) fn maximum_of(_alloc: Global, args: &[Value], budget: &mut Budget) -> Result<Value, Stop>
    ensures { Gives (spec.maximum_of args.now budget.old) result budget.new }
{
    reduced_by(Reducer::Max, args, budget)
}

/// `minimum(x)`; of nothing it is `Argument`.
pub(crate) fn minimum_of(_alloc: Global, args: &[Value], budget: &mut Budget) -> Result<Value, Stop>
    ensures { Gives (spec.minimum_of args.now budget.old) result budget.new }
{
    reduced_by(Reducer::Min, args, budget)
}
