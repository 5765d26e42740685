//! Ranges, and their numbers as values.
ghost use Rattle.std.specs.Prelude.{◌≡◌, ◌<◌, ◌+ℤ◌, pos, IfOk};
ghost use Rattle.jd_value.specs.Span.{span_length};
ghost use Rattle.jd_expr.specs.Action.{Gives};
ghost use Rattle.jd_expr.specs.Ranges as spec;

use crate::budget::Budget;
use crate::stop::Stop;
use jd_value::{Fault, OutOfMemory, Shared, Span, Value};
use sqlite_items::Items;
use std::alloc::Global;

/// `first:last`: an empty range ends directly before its first number.
pub(crate) fn range_of(alloc: Global, args: &[Value], _budget: &mut Budget) -> Result<Value, Stop>
    ensures { Gives (spec.range_of args.now _budget.old) result _budget.new }
{
    match args {
        [Value::Int(first), Value::Int(last)] => {
            let span = Span::between(*first, *last);
            Ok(Value::Range(Shared::new(alloc, span)?))
        }
        _ => Err(Stop::Faulted(Fault::BadType)),
    }
}

/// The number at a place of a range, from 0.
pub(crate) fn number_at(span: &Span, place: u128) -> i64
    requires { place < span_length span.now }
    ensures { result ≡ span.now.first +ℤ pos place }
{
    let last = i128::from(span.last());
    let number = i128::from(span.first()) + place as i128;
    prove!(number <= last);
    number as i64
}

/// The numbers of a range as values.
#[tactic(auto, unfolding(crate::specs::Ranges::range_items))]
pub(crate) fn range_items(alloc: Global, span: &Span) -> Result<Items<Value>, OutOfMemory>
    ensures { IfOk result (λ items. items ≡ spec.range_items span.now) }
{
    let mut items = Items::new(alloc);
    for place in 0..span.len() {
        items.push(Value::Int(number_at(span, place)))?;
    }
    Ok(items)
}
