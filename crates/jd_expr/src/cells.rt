//! Indexing of grids, with an index for each dimension.
ghost use Rattle.std.specs.Prelude.{◌≡◌, ◌≤◌, length, map, IfOk};
ghost use Rattle.jd_value.specs.declared.value.Value.TheVariants.{Int, Grid, List as Listed};
ghost use Rattle.jd_array.specs.Places.{pick_first};
ghost use Rattle.jd_array.specs.Slice.{picked_dims};
ghost use Rattle.jd_expr.specs.Action.{Gives};
ghost use Rattle.jd_expr.specs.Cells as spec;

use crate::budget::Budget;
use crate::limits::made;
use crate::stop::Stop;
use jd_array::{ArrayFault, Pick, at, slice};
use jd_value::{Array, Fault, OutOfMemory, Shared, Value};
use sqlite_items::Items;
use std::alloc::{AllocError, Global};

/// What an index takes of its dimension.
fn pick_of(index: &Value) -> Pick
    ensures { result ≡ spec.pick_of index.now }
{
    match index {
        Value::Int(i) => Pick::One(*i),
        Value::Range(span) => Pick::Many(*span.get()),
        Value::True
        | Value::False
        | Value::Nothing
        | Value::Text(_)
        | Value::List(_)
        | Value::Tuple(_)
        | Value::Grid(_)
        | Value::Exception(_)
        | Value::Future(_) => Pick::One(0),
    }
}

/// What the indexes take of their dimensions.
fn picks_of(alloc: Global, indexes: &[Value]) -> Result<Vec<Pick>, AllocError>
    ensures { IfOk result (λ all. all.items ≡ map spec.pick_of indexes.now) }
{
    let mut all = Vec::new(alloc);
    for index in indexes {
        all.push(pick_of(index))?;
    }
    Ok(all)
}

/// Whether a range is among the picks.
fn has_range(mut picks: &[Pick]) -> bool
    ensures { result ≡ spec.has_range picks.entry.now }
{
    while let [pick, rest @ ..] = picks {
        match pick {
            Pick::One(_) => {}
            Pick::Many(_) => return true,
        }
        picks = rest;
    }
    false
}

/// The first number that a pick takes.
fn first_number(pick: &Pick) -> i64
    ensures { result ≡ pick_first pick.now }
{
    match pick {
        Pick::One(i) => *i,
        Pick::Many(span) => span.first(),
    }
}

/// The numbers that picks take, which take one each.
fn numbers_of(alloc: Global, picks: &[Pick]) -> Result<Vec<i64>, AllocError>
    ensures { IfOk result (λ all. all.items ≡ map pick_first picks.now) }
{
    let mut all = Vec::new(alloc);
    for pick in picks {
        all.push(first_number(pick))?;
    }
    Ok(all)
}

/// The cell at an index; `Bounds` where it is outside.
#[tactic(auto, unfolding(crate::specs::Cells::cell_answered), using(crate::proofs::Picks::cell_is, crate::proofs::Picks::no_cell))]
fn cell_answered(array: &Array, index: &[i64], _budget: &mut Budget) -> Result<Value, Stop>
    ensures { Gives (spec.cell_answered array.now index.now _budget.old) result _budget.new }
{
    match at(array, index) {
        Ok(cell) => Ok(Value::Int(cell)),
        Err(_) => Err(Stop::Faulted(Fault::Bounds)),
    }
}

/// Cells as values.
fn cell_values(alloc: Global, cells: &[i64]) -> Result<Items<Value>, OutOfMemory>
    ensures { IfOk result (λ items. items ≡ map Int cells.now) }
{
    let mut items = Items::new(alloc);
    for cell in cells {
        items.push(Value::Int(*cell))?;
    }
    Ok(items)
}

/// The list of cells.
fn list_value(alloc: Global, cells: &[i64]) -> Result<Value, OutOfMemory>
    ensures { IfOk result (λ value. value ≡ Listed (map Int cells.now)) }
{
    let items = cell_values(alloc, cells)?;
    Ok(Value::List(Shared::new(alloc, items)?))
}

/// A grid as a value.
fn grid_value(alloc: Global, array: &Array) -> Result<Value, OutOfMemory>
    ensures { IfOk result (λ value. value ≡ Grid array.now) }
{
    Ok(Value::Grid(Shared::new(alloc, array.copy()?)?))
}

/// An array as a value: with one dimension it is a list.
fn array_value(alloc: Global, array: &Array) -> Result<Value, OutOfMemory>
    ensures { IfOk result (λ value. value ≡ spec.array_value array.now) }
{
    match array.dims().as_slice() {
        [_] => list_value(alloc, array.cells()),
        _ => grid_value(alloc, array),
    }
}

/// The cells that picks take; `Bounds` where one is outside.
#[tactic(auto, unfolding(crate::specs::Cells::slice_made), using(crate::proofs::Picks::slice_is, crate::proofs::Picks::no_slice))]
fn slice_made(
    alloc: Global,
    array: &Array,
    picks: &[Pick],
    budget: &mut Budget,
) -> Result<Value, Stop>
    requires { 1 ≤ length (picked_dims picks.now) }
    ensures { Gives (spec.slice_made array.now picks.now budget.old) result budget.new }
{
    match slice(alloc, array, picks) {
        Ok(part) => made(array_value(alloc, &part)?, budget),
        Err(ArrayFault::OutOfMemory) => Err(Stop::OutOfMemory),
        Err(_) => Err(Stop::Faulted(Fault::Bounds)),
    }
}

/// What picks take of an array: numbers alone a cell, and a range among them a copy.
#[tactic(auto, using(crate::proofs::Picks::some_dimension))]
fn picks_answered(
    alloc: Global,
    array: &Array,
    picks: &[Pick],
    budget: &mut Budget,
) -> Result<Value, Stop>
    ensures { Gives (spec.picks_answered array.now picks.now budget.old) result budget.new }
{
    if has_range(picks) {
        return slice_made(alloc, array, picks, budget);
    }
    let index = numbers_of(alloc, picks)?;
    cell_answered(array, index.as_slice(), budget)
}

/// `x[i, j]` and `x[i, j, k]` of a grid, whose indexes are numbers and ranges.
#[tactic(auto, unfolding(crate::specs::Cells::grid_indexed))]
pub(crate) fn grid_indexed(
    alloc: Global,
    array: &Array,
    indexes: &[Value],
    budget: &mut Budget,
) -> Result<Value, Stop>
    ensures { Gives (spec.grid_indexed array.now indexes.now budget.old) result budget.new }
{
    let picks = picks_of(alloc, indexes)?;
    picks_answered(alloc, array, picks.as_slice(), budget)
}
