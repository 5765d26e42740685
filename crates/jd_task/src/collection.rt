//! What a `for` goes over.
ghost use Rattle.std.specs.Prelude.{◌≡◌, ◌<◌, ◌≤◌, ◌^◌, ◌+ℤ◌, pos, map, IfOk};
ghost use Rattle.jd_task.specs.Elements.{IsElement, elements, is_collection};
ghost use Rattle.jd_value.specs.Span.{span_items, span_length};
ghost use Rattle.jd_value.specs.declared.value.Value.TheVariants.{Int};

use jd_value::{OutOfMemory, Span, Value};

/// Whether a `for` goes over it.
pub(crate) fn is_collection(value: &Value) -> bool
    ensures { result ≡ is_collection value.now }
{
    match value {
        Value::List(_) | Value::Tuple(_) | Value::Range(_) | Value::Grid(_) => true,
        Value::Int(_)
        | Value::True
        | Value::False
        | Value::Nothing
        | Value::Text(_)
        | Value::Exception(_)
        | Value::Future(_) => false,
    }
}

fn item(items: &[Value], at: u128) -> Result<Option<Value>, OutOfMemory>
    ensures { IfOk result (λ x. IsElement items.now at x) }
{
    if at < items.len() as u128 {
        Ok(Some(items[at as usize].copy()?))
    } else {
        Ok(None)
    }
}

/// The number at a place of a range, from 0.
fn number_at(span: &Span, at: u128) -> i64
    requires { at < span_length span.now }
    ensures { result ≡ span.now.first +ℤ pos at }
{
    let last = i128::from(span.last());
    let number = i128::from(span.first()) + at as i128;
    prove!(number <= last);
    number as i64
}

/// How many numbers a range has.
fn count(span: &Span) -> u128
    ensures count { result ≡ span_length span.now }
    ensures fits { result ≤ 2 ^ 64 }
{
    prove!(i128::from(span.last()) - i128::from(span.first()) < 1 << 64);
    span.len()
}

fn number(span: &Span, at: u128) -> Option<Value>
    ensures { IsElement (map Int (span_items span.now)) at result }
{
    if at < count(span) {
        Some(Value::Int(number_at(span, at)))
    } else {
        None
    }
}

fn cell(cells: &[i64], at: u128) -> Option<Value>
    ensures { IsElement (map Int cells.now) at result }
{
    if at < cells.len() as u128 {
        Some(Value::Int(cells[at as usize]))
    } else {
        None
    }
}

/// The element at this place, which counts from 0, or none behind the last one.
pub(crate) fn element(collection: &Value, at: u128) -> Result<Option<Value>, OutOfMemory>
    ensures { IfOk result (λ x. IsElement (elements collection.now) at x) }
{
    match collection {
        Value::List(items) => item(items.get().as_slice(), at),
        Value::Tuple(items) => item(items.get().as_slice(), at),
        Value::Range(span) => Ok(number(span.get(), at)),
        Value::Grid(array) => Ok(cell(array.get().cells(), at)),
        Value::Int(_)
        | Value::True
        | Value::False
        | Value::Nothing
        | Value::Text(_)
        | Value::Exception(_)
        | Value::Future(_) => Ok(None),
    }
}
