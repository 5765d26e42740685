//! How large the answer of a builtin may be, and what it costs.
ghost use Rattle.std.specs.Prelude.{◌≡◌, ◌+◌, map, nat_lt, sum};
ghost use Rattle.jd_value.specs.Sizes as size;
ghost use Rattle.jd_expr.specs.Action.{Gives};
ghost use Rattle.jd_expr.specs.Limits as spec;

use crate::budget::Budget;
use crate::stop::Stop;
use jd_value::{Fault, Value, depth, words};

/// The most elements of a list or grid.
pub(crate) const MAX_ELEMENTS: u64 = 262_144;

/// The most words of a value.
pub(crate) const MAX_WORDS: u64 = 1_048_576;

/// The most levels of a value.
pub(crate) const MAX_DEPTH: u32 = 64;

/// How many elements a list or grid has; other values count none.
#[tactic(auto, unfolding(crate::specs::Limits::element_count))]
fn element_count(value: &Value) -> u64
    ensures { result ≡ spec.element_count value.now }
{
    match value {
        Value::List(items) => items.get().len() as u64,
        Value::Grid(array) => array.get().cells().len() as u64,
        Value::Int(_)
        | Value::True
        | Value::False
        | Value::Nothing
        | Value::Text(_)
        | Value::Range(_)
        | Value::Tuple(_)
        | Value::Exception(_)
        | Value::Future(_) => 0,
    }
}

/// Whether a list or tuple of these elements has too many words. It stops at the first element where it has.
fn are_too_large(mut items: &[Value]) -> bool
    ensures { result ≡ nat_lt spec.max_words (1 + sum (map size.words items.entry.now)) }
{
    let mut total = 1u64;
    while let [item, rest @ ..] = items {
        total = total.saturating_add(words(item));
        if total > MAX_WORDS {
            return true;
        }
        items = rest;
    }
    false
}

/// Whether a value has too many words.
#[tactic(auto, using(crate::proofs::Sized::words_list, crate::proofs::Sized::words_tuple))]
fn is_too_large(value: &Value) -> bool
    ensures { result ≡ nat_lt spec.max_words (size.words value.now) }
{
    match value {
        Value::List(items) => are_too_large(items.get().as_slice()),
        Value::Tuple(items) => are_too_large(items.get().as_slice()),
        Value::Int(_)
        | Value::True
        | Value::False
        | Value::Nothing
        | Value::Text(_)
        | Value::Range(_)
        | Value::Grid(_)
        | Value::Exception(_)
        | Value::Future(_) => words(value) > MAX_WORDS,
    }
}

/// Whether a value is within the limits: `Argument` for too many elements or words, `Deep` for too many levels.
#[tactic(auto, unfolding(crate::specs::Limits::within_limits))]
fn within_limits(value: &Value) -> Result<(), Fault>
    ensures { result ≡ spec.within_limits value.now }
{
    if element_count(value) > MAX_ELEMENTS || is_too_large(value) {
        return Err(Fault::Argument);
    }
    if depth(value) > MAX_DEPTH {
        return Err(Fault::Deep);
    }
    Ok(())
}

/// An answer, which costs a unit for each element of a list or grid.
#[tactic(auto, unfolding(crate::specs::Limits::answered))]
pub(crate) fn answered(value: Value, budget: &mut Budget) -> Result<Value, Stop>
    ensures { Gives (spec.answered value budget.old) result budget.new }
{
    budget.spend_all(u128::from(element_count(&value)))?;
    Ok(value)
}

/// An answer that is made, and wasn't there before.
#[tactic(auto, unfolding(crate::specs::Limits::made))]
pub(crate) fn made(value: Value, budget: &mut Budget) -> Result<Value, Stop>
    ensures { Gives (spec.made value budget.old) result budget.new }
{
    within_limits(&value).map_err(Stop::Faulted)?;
    answered(value, budget)
}
