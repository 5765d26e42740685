//! How large a value is, and how deep it nests.
ghost use Rattle.std.specs.Prelude.{◌≡◌, ◌-◌, ◌^◌, min, map, sum};
ghost use Rattle.jd_value.specs.Sizes.{
  depth,
  fault_depth,
  fault_words,
  greatest,
  text_words,
  words,
};

use crate::fault::Fault;
use crate::txt::Txt;
use crate::value::Value;

/// One word for every 8 bytes that are begun.
fn text_words(text: &Txt) -> u64
    ensures { result ≡ text_words text.now }
{
    text.as_bytes().len().div_ceil(8) as u64
}

fn fault_words(fault: &Fault) -> u64
    ensures { result ≡ min (fault_words fault.now) (2 ^ 64 - 1) }
{
    let mut at = fault;
    let mut outside = 0u64;
    while let Fault::Remote(_, inner) = at {
        outside = outside.saturating_add(1);
        at = inner.get();
    }
    let innermost = match at {
        Fault::Error(text) | Fault::Undef(text) => text_words(text.get()).saturating_add(1),
        _ => 1,
    };
    outside.saturating_add(innermost)
}

#[cycle(words)]
fn words_of_all(values: &[Value]) -> u64
    ensures { result ≡ min (sum (map words values.now)) (2 ^ 64 - 1) }
{
    let mut total = 0u64;
    for value in values {
        total = total.saturating_add(words(value));
    }
    total
}

/// How large the value is: 1, the words of its parts, 1 for each cell of a grid, and 1 for every 8 begun bytes of a
/// text, or `u64::MAX` where that is more. It recurses once for each level of the value.
#[cycle(words)]
pub fn words(value: &Value) -> u64
    ensures { result ≡ min (words value.now) (2 ^ 64 - 1) }
{
    match value {
        Value::Text(text) => text_words(text.get()).saturating_add(1),
        Value::List(items) => words_of_all(items.get().as_slice()).saturating_add(1),
        Value::Tuple(items) => words_of_all(items.get().as_slice()).saturating_add(1),
        Value::Grid(array) => (array.get().cells().len() as u64).saturating_add(1),
        Value::Exception(fault) => fault_words(fault.get()).saturating_add(1),
        _ => 1,
    }
}

fn fault_depth(fault: &Fault) -> u32
    ensures { result ≡ min (fault_depth fault.now) (2 ^ 32 - 1) }
{
    let mut at = fault;
    let mut outside = 0u32;
    while let Fault::Remote(_, inner) = at {
        outside = outside.saturating_add(1);
        at = inner.get();
    }
    outside.saturating_add(1)
}

#[cycle(depth)]
fn greatest_depth(values: &[Value]) -> u32
    ensures { result ≡ min (greatest (map depth values.now)) (2 ^ 32 - 1) }
{
    let mut greatest = 0u32;
    for value in values {
        greatest = greatest.max(depth(value));
    }
    greatest
}

/// How deep the value nests: 1 for a value without parts, else 1 more than the greatest depth of its parts, or
/// `u32::MAX` where that is more. Parts are the elements of a list or tuple, the fault of an exception and the fault
/// inside `Remote`. It recurses once for each level of the value.
#[cycle(depth)]
pub fn depth(value: &Value) -> u32
    ensures { result ≡ min (depth value.now) (2 ^ 32 - 1) }
{
    match value {
        Value::List(items) => greatest_depth(items.get().as_slice()).saturating_add(1),
        Value::Tuple(items) => greatest_depth(items.get().as_slice()).saturating_add(1),
        Value::Exception(fault) => fault_depth(fault.get()).saturating_add(1),
        _ => 1,
    }
}
