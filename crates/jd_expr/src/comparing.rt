//! Whether two values are equal.
ghost use Rattle.std.specs.Prelude.{◌≡◌, ℤ, pos, map};
ghost use Rattle.std.specs.Ordering.{int_eq};
ghost use Rattle.jd_value.specs.Span.{span_items};
ghost use Rattle.jd_value.specs.declared.fault.Fault.{out-Fault};
ghost use Rattle.jd_value.specs.declared.value.Value.{out-Value};
ghost use Rattle.jd_value.specs.declared.value.Value.TheVariants.{Int as TheInt};
ghost use Rattle.jd_expr.specs.Comparing as spec;

use jd_value::{Array, Fault, RefId, Shared, Span, Txt, Value};

fn is_error(text: &Txt, fault: &Fault) -> bool
    ensures { result ≡ spec.is_error text.now (out-Fault fault.now) }
{
    match fault {
        Fault::Error(other) => *text == *other.get(),
        _ => false,
    }
}

fn is_undef(name: &Txt, fault: &Fault) -> bool
    ensures { result ≡ spec.is_undef name.now (out-Fault fault.now) }
{
    match fault {
        Fault::Undef(other) => *name == *other.get(),
        _ => false,
    }
}

fn is_exited(process: u32, fault: &Fault) -> bool
    ensures { result ≡ spec.is_exited process (out-Fault fault.now) }
{
    match fault {
        Fault::Exited(other) => process == *other,
        _ => false,
    }
}

#[cycle(faults)]
fn is_remote(process: u32, inner: &Fault, fault: &Fault) -> bool
    ensures { result ≡ spec.is_remote process (spec.same_fault inner.now) (out-Fault fault.now) }
{
    match fault {
        Fault::Remote(other, fault) => process == *other && same_fault(inner, fault.get()),
        _ => false,
    }
}

/// Whether two faults are of one cause, with the same texts and numbers. It recurses once for each fault inside them.
#[cycle(faults)]
fn same_fault(a: &Fault, b: &Fault) -> bool
    ensures { result ≡ spec.same_fault a.now b.now }
{
    match a {
        Fault::Divide => matches!(b, Fault::Divide),
        Fault::Error(text) => is_error(text.get(), b),
        Fault::Bounds => matches!(b, Fault::Bounds),
        Fault::BadType => matches!(b, Fault::BadType),
        Fault::Argument => matches!(b, Fault::Argument),
        Fault::Undef(name) => is_undef(name.get(), b),
        Fault::Invalid => matches!(b, Fault::Invalid),
        Fault::Exited(process) => is_exited(*process, b),
        Fault::Remote(process, inner) => is_remote(*process, inner.get(), b),
        Fault::Budget => matches!(b, Fault::Budget),
        Fault::Deep => matches!(b, Fault::Deep),
    }
}

/// Whether a value is this number, or the truth value that counts as it.
fn is_number(n: i128, value: &Value) -> bool
    ensures { result ≡ spec.is_number n (out-Value value.now) }
{
    match value {
        Value::Int(m) => n == i128::from(*m),
        Value::True => n == 1,
        Value::False => n == 0,
        _ => false,
    }
}

fn is_text(text: &Txt, value: &Value) -> bool
    ensures { result ≡ spec.is_text text.now (out-Value value.now) }
{
    match value {
        Value::Text(other) => *text == *other.get(),
        _ => false,
    }
}

fn is_grid(array: &Array, value: &Value) -> bool
    ensures { result ≡ spec.is_grid array.now (out-Value value.now) }
{
    match value {
        Value::Grid(other) => same_array(array, other.get()),
        _ => false,
    }
}

fn same_array(array: &Array, other: &Array) -> bool
    ensures { result ≡ spec.same_array array.now other.now }
{
    array.dims().as_slice() == other.dims().as_slice() && array.cells() == other.cells()
}

fn is_exception(fault: &Fault, value: &Value) -> bool
    ensures { result ≡ spec.is_exception fault.now (out-Value value.now) }
{
    match value {
        Value::Exception(other) => same_fault(fault, other.get()),
        _ => false,
    }
}

fn is_future(reference: &RefId, value: &Value) -> bool
    ensures { result ≡ spec.is_future reference.now (out-Value value.now) }
{
    match value {
        Value::Future(other) => *reference == *other.get(),
        _ => false,
    }
}

/// Whether the values are the numbers of the range.
fn numbers_are(span: &Span, mut items: &[Value]) -> bool
    ensures { result ≡ spec.each_passes (spec.number_tests span.now) items.entry.now }
{
    if span.len() != items.len() as u128 {
        return false;
    }
    let first = i128::from(span.first());
    let mut place: u64 = 0;
    while let [item, rest @ ..] = items {
        if !is_number(first + i128::from(place), item) {
            return false;
        }
        place += 1;
        items = rest;
    }
    true
}

fn same_first(span: &Span, other: &Span) -> bool
    ensures { result ≡ int_eq span.now.first other.now.first }
{
    span.first() == other.first()
}

/// Whether two ranges have the same numbers.
fn same_span(span: &Span, other: &Span) -> bool
    ensures { result ≡ spec.each_passes (spec.number_tests span.now) (map TheInt (span_items other.now)) }
{
    if span.len() != other.len() {
        return false;
    }
    span.is_empty() || same_first(span, other)
}

fn range_equals(span: &Span, value: &Value) -> bool
    ensures { result ≡ spec.has_elements (spec.number_tests span.now) (out-Value value.now) }
{
    match value {
        Value::List(items) => numbers_are(span, items.get().as_slice()),
        Value::Range(other) => same_span(span, other.get()),
        _ => false,
    }
}

/// Whether the values are the numbers of the range.
fn are_numbers(items: &[Value], span: &Span) -> bool
    ensures { result ≡ spec.each_passes (map spec.equal items.now) (map TheInt (span_items span.now)) }
{
    numbers_are(span, items)
}

#[cycle(equality)]
fn all_equal(items: &[Value], mut others: &[Value]) -> bool
    ensures { result ≡ spec.each_passes (map spec.equal items.now) others.entry.now }
{
    for item in items {
        match others {
            [other, rest @ ..] => {
                if !equal(item, other) {
                    return false;
                }
                others = rest;
            }
            [] => return false,
        }
    }
    others.is_empty()
}

#[cycle(equality)]
fn list_equals(items: &[Value], value: &Value) -> bool
    ensures { result ≡ spec.has_elements (map spec.equal items.now) (out-Value value.now) }
{
    match value {
        Value::List(others) => all_equal(items, others.get().as_slice()),
        Value::Range(span) => are_numbers(items, span.get()),
        _ => false,
    }
}

#[cycle(equality)]
fn tuple_equals(items: &[Value], value: &Value) -> bool
    ensures { result ≡ spec.is_tuple (map spec.equal items.now) (out-Value value.now) }
{
    match value {
        Value::Tuple(others) => all_equal(items, others.get().as_slice()),
        _ => false,
    }
}

/// Whether two values are equal: they are of one kind and have equal parts. A truth value is also equal to the number 1
/// or 0, and a range to a list of its numbers. It recurses once for each level of the values.
#[cycle(equality)]
pub(crate) fn equal(a: &Value, b: &Value) -> bool
    ensures { result ≡ spec.equal a.now b.now }
{
    match a {
        Value::Int(n) => is_number(i128::from(*n), b),
        Value::True => is_number(1, b),
        Value::False => is_number(0, b),
        Value::Nothing => matches!(b, Value::Nothing),
        Value::Text(text) => is_text(text.get(), b),
        Value::Range(span) => range_equals(span.get(), b),
        Value::List(items) => list_equals(items.get().as_slice(), b),
        Value::Tuple(items) => tuple_equals(items.get().as_slice(), b),
        Value::Grid(array) => is_grid(array.get(), b),
        Value::Exception(fault) => is_exception(fault.get(), b),
        Value::Future(reference) => is_future(reference.get(), b),
    }
}
