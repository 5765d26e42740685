//! Indexing of collections, from 1.
ghost use Rattle.std.specs.Prelude.{◌≡◌, length, IsTrue};
ghost use Rattle.std.specs.Option.{option_copied, option_map};
ghost use Rattle.jd_value.specs.declared.value.Value.{out-Value};
ghost use Rattle.jd_value.specs.declared.value.Value.TheOpen as v;
ghost use Rattle.jd_value.specs.declared.value.Value.TheVariants.{Int};
ghost use Rattle.jd_value.specs.Span.{span_length};
ghost use Rattle.jd_expr.specs.Action.{Gives};
ghost use Rattle.jd_expr.specs.Indexing as spec;
ghost use Rattle.jd_expr.specs.Ranges as spans;

use crate::budget::Budget;
use crate::cells::grid_indexed;
use crate::collections::span_made;
use crate::limits::{answered, made};
use crate::making::copied;
use crate::numbers::are_numbers;
use crate::ranges::number_at;
use crate::stop::Stop;
use jd_value::{Array, Fault, Shared, Span, Value};
use sqlite_items::at;
use std::alloc::Global;

/// Whether a value is a number or a range.
fn is_index(value: &Value) -> bool
    ensures { result ≡ spec.is_index value.now }
{
    match value {
        Value::Int(_) | Value::Range(_) => true,
        Value::True
        | Value::False
        | Value::Nothing
        | Value::Text(_)
        | Value::List(_)
        | Value::Tuple(_)
        | Value::Grid(_)
        | Value::Exception(_)
        | Value::Future(_) => false,
    }
}

/// Whether all values are numbers or ranges.
pub(crate) fn are_indexes(mut values: &[Value]) -> bool
    ensures { result ≡ spec.are_indexes values.entry.now }
{
    while let [value, rest @ ..] = values {
        if !is_index(value) {
            return false;
        }
        values = rest;
    }
    true
}

/// The item at a number, where there is one.
fn item_at(i: i64, items: &[Value]) -> Option<&Value>
    ensures { option_copied result ≡ spec.item_at i items.now }
{
    if i < 1 {
        return None;
    }
    at(items, (i - 1) as usize)
}

/// The item at a number; `Bounds` where there is none.
fn item_answered(i: i64, items: &[Value], budget: &mut Budget) -> Result<Value, Stop>
    ensures { Gives (spec.item_answered i items.now budget.old) result budget.new }
{
    match item_at(i, items) {
        Some(item) => answered(item.copy()?, budget),
        None => Err(Stop::Faulted(Fault::Bounds)),
    }
}

/// Whether a range is empty, or has numbers from 1 to the size alone.
pub(crate) fn is_within(span: &Span, size: u128) -> bool
    ensures { result ≡ spec.is_within span.now size }
{
    span.is_empty() || (span.first() >= 1 && span.last() as u128 <= size)
}

/// The items from the first to the last number of a range that is within them.
fn part_of<'a>(span: &Span, items: &'a [Value]) -> &'a [Value]
    requires { IsTrue (spec.is_within span.now (length items.now)) }
    ensures { result.now ≡ spec.part span.now items.now }
{
    if span.is_empty() {
        return &items[..0];
    }
    let start = (span.first() - 1) as usize;
    &items[start..start + span.len() as usize]
}

/// The items at the numbers of a range; `Bounds` where one is outside.
#[tactic(auto, unfolding(crate::specs::Indexing::part_made))]
fn part_made(
    alloc: Global,
    span: &Span,
    items: &[Value],
    budget: &mut Budget,
) -> Result<Value, Stop>
    ensures { Gives (spec.part_made span.now items.now budget.old) result budget.new }
{
    if !is_within(span, items.len() as u128) {
        return Err(Stop::Faulted(Fault::Bounds));
    }
    let part = Shared::new(alloc, copied(alloc, part_of(span, items))?)?;
    made(Value::List(part), budget)
}

fn items_indexed(
    alloc: Global,
    items: &[Value],
    indexes: &[Value],
    budget: &mut Budget,
) -> Result<Value, Stop>
    ensures { Gives (spec.items_indexed items.now indexes.now budget.old) result budget.new }
{
    match indexes {
        [Value::Int(i)] => item_answered(*i, items, budget),
        [Value::Range(span)] => part_made(alloc, span.get(), items, budget),
        _ => Err(Stop::Faulted(Fault::Bounds)),
    }
}

fn tuple_indexed(items: &[Value], indexes: &[Value], budget: &mut Budget) -> Result<Value, Stop>
    ensures { Gives (spec.tuple_indexed items.now indexes.now budget.old) result budget.new }
{
    match indexes {
        [Value::Int(i)] => item_answered(*i, items, budget),
        _ => Err(Stop::Faulted(Fault::Bounds)),
    }
}

/// The number at a number of a range, where there is one.
#[tactic(auto, using(crate::proofs::Spanned::number_in, crate::proofs::Spanned::none_in))]
fn number_in(i: i64, span: &Span) -> Option<i64>
    ensures { option_map Int result ≡ spec.item_at i (spans.range_items span.now) }
{
    if i < 1 {
        return None;
    }
    let place = (i - 1) as u128;
    if place >= span.len() {
        return None;
    }
    Some(number_at(span, place))
}

/// The number at a number of a range; `Bounds` where there is none.
fn number_answered(i: i64, span: &Span, budget: &mut Budget) -> Result<Value, Stop>
    ensures { Gives (spec.item_answered i (spans.range_items span.now) budget.old) result budget.new }
{
    match number_in(i, span) {
        Some(number) => answered(Value::Int(number), budget),
        None => Err(Stop::Faulted(Fault::Bounds)),
    }
}

/// The numbers at the numbers of a range; `Bounds` where one is outside.
#[tactic(auto, unfolding(crate::specs::Indexing::part_made))]
fn numbers_made(alloc: Global, part: &Span, span: &Span, budget: &mut Budget) -> Result<Value, Stop>
    ensures { Gives (spec.part_made part.now (spans.range_items span.now) budget.old) result budget.new }
{
    if !is_within(part, span.len()) {
        return Err(Stop::Faulted(Fault::Bounds));
    }
    span_made(alloc, &span_part(part, span), budget)
}

/// The part of a range from the first to the last of these numbers.
fn span_part(part: &Span, span: &Span) -> Span
    requires { IsTrue (spec.is_within part.now (span_length span.now)) }
    ensures { spans.range_items result ≡ spec.part part.now (spans.range_items span.now) }
{
    if part.is_empty() {
        return Span::new(1, 0);
    }
    let first = number_at(span, (part.first() - 1) as u128);
    let last = number_at(span, (part.last() - 1) as u128);
    Span::new(first, last)
}

fn span_indexed(
    alloc: Global,
    span: &Span,
    indexes: &[Value],
    budget: &mut Budget,
) -> Result<Value, Stop>
    ensures { Gives (spec.items_indexed (spans.range_items span.now) indexes.now budget.old) result budget.new }
{
    match indexes {
        [Value::Int(i)] => number_answered(*i, span, budget),
        [Value::Range(part)] => numbers_made(alloc, part.get(), span, budget),
        _ => Err(Stop::Faulted(Fault::Bounds)),
    }
}

/// A list at numbers and ranges.
fn list_indexed(
    alloc: Global,
    items: &[Value],
    indexes: &[Value],
    budget: &mut Budget,
) -> Result<Value, Stop>
    ensures { Gives (spec.indexed_at (v.List items.now) indexes.now budget.old) result budget.new }
{
    if !are_indexes(indexes) {
        return Err(Stop::Faulted(Fault::BadType));
    }
    items_indexed(alloc, items, indexes, budget)
}

/// A range at numbers and ranges.
fn range_indexed(
    alloc: Global,
    span: &Span,
    indexes: &[Value],
    budget: &mut Budget,
) -> Result<Value, Stop>
    ensures { Gives (spec.indexed_at (v.Range span.now) indexes.now budget.old) result budget.new }
{
    if !are_indexes(indexes) {
        return Err(Stop::Faulted(Fault::BadType));
    }
    span_indexed(alloc, span, indexes, budget)
}

/// A tuple at numbers.
fn tuple_at(items: &[Value], indexes: &[Value], budget: &mut Budget) -> Result<Value, Stop>
    ensures { Gives (spec.indexed_at (v.Tuple items.now) indexes.now budget.old) result budget.new }
{
    if !are_numbers(indexes) {
        return Err(Stop::Faulted(Fault::BadType));
    }
    tuple_indexed(items, indexes, budget)
}

/// A grid at numbers and ranges.
fn grid_at(
    alloc: Global,
    array: &Array,
    indexes: &[Value],
    budget: &mut Budget,
) -> Result<Value, Stop>
    ensures { Gives (spec.indexed_at (v.Grid array.now) indexes.now budget.old) result budget.new }
{
    if !are_indexes(indexes) {
        return Err(Stop::Faulted(Fault::BadType));
    }
    grid_indexed(alloc, array, indexes, budget)
}

/// A collection at indexes.
fn indexed_at(
    alloc: Global,
    collection: &Value,
    indexes: &[Value],
    budget: &mut Budget,
) -> Result<Value, Stop>
    ensures { Gives (spec.indexed_at (out-Value collection.now) indexes.now budget.old) result budget.new }
{
    match collection {
        Value::List(items) => list_indexed(alloc, items.get().as_slice(), indexes, budget),
        Value::Range(span) => range_indexed(alloc, span.get(), indexes, budget),
        Value::Tuple(items) => tuple_at(items.get().as_slice(), indexes, budget),
        Value::Grid(array) => grid_at(alloc, array.get(), indexes, budget),
        Value::Int(_)
        | Value::True
        | Value::False
        | Value::Nothing
        | Value::Text(_)
        | Value::Exception(_)
        | Value::Future(_) => Err(Stop::Faulted(Fault::BadType)),
    }
}

/// `x[i, ..]`
pub(crate) fn indexed(alloc: Global, args: &[Value], budget: &mut Budget) -> Result<Value, Stop>
    ensures { Gives (spec.indexed args.now budget.old) result budget.new }
{
    match args {
        [collection, indexes @ ..] => indexed_at(alloc, collection, indexes, budget),
        [] => Err(Stop::Faulted(Fault::BadType)),
    }
}
