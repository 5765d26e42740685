//! Grids, which are made of rows.
ghost use Rattle.std.specs.Prelude.{◌≡◌, ◌≤◌, ◌*◌, ◌++◌, ◌∷◌, [], length, slice_get, IfOk, OnOk};
ghost use Rattle.jd_expr.specs.Action.{Gives};
ghost use Rattle.jd_expr.specs.Collections as cells;
ghost use Rattle.jd_expr.specs.Grids as spec;

use crate::budget::Budget;
use crate::limits::{MAX_ELEMENTS, made};
use crate::numbers::{are_numbers, number_of};
use crate::stop::Stop;
use jd_value::{Array, Dims, Fault, OutOfMemory, Shared, Value};
use sqlite_items::at;
use std::alloc::{AllocError, Global};

/// How many cells a row has, which is a tuple; other values have none.
#[tactic(auto, unfolding(crate::specs::Grids::row))]
fn row_length(value: &Value) -> u64
    ensures { result ≡ length (spec.row value.now) }
{
    match value {
        Value::Tuple(items) => items.get().len() as u64,
        Value::Int(_)
        | Value::True
        | Value::False
        | Value::Nothing
        | Value::Text(_)
        | Value::Range(_)
        | Value::List(_)
        | Value::Grid(_)
        | Value::Exception(_)
        | Value::Future(_) => 0,
    }
}

/// Whether all cells of a row are numbers.
#[tactic(auto, unfolding(crate::specs::Grids::row))]
fn has_numbers(value: &Value) -> bool
    ensures { result ≡ cells.are_numbers (spec.row value.now) }
{
    match value {
        Value::Tuple(items) => are_numbers(items.get().as_slice()),
        Value::Int(_)
        | Value::True
        | Value::False
        | Value::Nothing
        | Value::Text(_)
        | Value::Range(_)
        | Value::List(_)
        | Value::Grid(_)
        | Value::Exception(_)
        | Value::Future(_) => true,
    }
}

/// Whether all values are rows of so many numbers.
fn are_rows(width: u64, mut rows: &[Value]) -> bool
    ensures { result ≡ spec.are_rows width rows.entry.now }
{
    while let [row, rest @ ..] = rows {
        if row_length(row) != width || !has_numbers(row) {
            return false;
        }
        rows = rest;
    }
    true
}

fn number_at(items: &[Value], place: usize) -> i64
    ensures { result ≡ spec.as_number (slice_get items.now place) }
{
    match at(items, place) {
        Some(item) => number_of(item),
        None => 0,
    }
}

/// The cell of a row at a place, from 0.
#[tactic(auto, unfolding(crate::specs::Grids::row))]
fn cell_in(place: usize, value: &Value) -> i64
    ensures { result ≡ spec.cell_in place value.now }
{
    match value {
        Value::Tuple(items) => number_at(items.get().as_slice(), place),
        Value::Int(_)
        | Value::True
        | Value::False
        | Value::Nothing
        | Value::Text(_)
        | Value::Range(_)
        | Value::List(_)
        | Value::Grid(_)
        | Value::Exception(_)
        | Value::Future(_) => 0,
    }
}

/// Adds the cells of a column, the first row first.
#[tactic(auto, unfolding(crate::specs::Grids::column))]
fn push_column(all: &mut Vec<i64>, rows: &[Value], place: usize) -> Result<(), AllocError>
    ensures { OnOk result (all.new.items ≡ all.old.items ++ spec.column rows.now place) }
{
    for row in rows {
        all.push(cell_in(place, row))?;
    }
    Ok(())
}

/// The cells of the rows, column by column.
#[tactic(auto, unfolding(crate::specs::Grids::cells_of))]
fn cells_of(alloc: Global, rows: &[Value], width: usize) -> Result<Vec<i64>, AllocError>
    ensures { IfOk result (λ all. all.items ≡ spec.cells_of rows.now width) }
{
    let mut all = Vec::new(alloc);
    for place in 0..width {
        push_column(&mut all, rows, place)?;
    }
    Ok(all)
}

/// The grid of rows of so many cells.
#[tactic(auto, using(crate::proofs::Gridded::too_many_cells, crate::proofs::Gridded::length_cells))]
fn grid_made(alloc: Global, rows: &[Value], width: u64, budget: &mut Budget) -> Result<Value, Stop>
    requires some { 1 ≤ length rows.now }
    requires wide { 1 ≤ width }
    ensures { Gives (spec.grid_made rows.now width budget.old) result budget.new }
{
    if rows.len() as u128 * u128::from(width) > u128::from(MAX_ELEMENTS) {
        return Err(Stop::Faulted(Fault::Argument));
    }
    let grid = grid_array(alloc, rows, width)?;
    made(Value::Grid(Shared::new(alloc, grid)?), budget)
}

fn grid_array(alloc: Global, rows: &[Value], width: u64) -> Result<Array, OutOfMemory>
    requires some { 1 ≤ length rows.now }
    requires wide { 1 ≤ width }
    requires few { length rows.now * width ≤ 262144 }
    ensures { IfOk result (λ grid. grid ≡ record { dims = length rows.now ∷ width ∷ []; cells = spec.cells_of rows.now width }) }
{
    let dims = Dims::new(&[rows.len() as u64, width]).unwrap();
    let cells = cells_of(alloc, rows, width as usize)?;
    Array::new(alloc, dims, cells)
}

/// `[a b; c d]`, whose arguments are the rows as tuples of numbers of one positive length.
pub(crate) fn grid_of(alloc: Global, args: &[Value], budget: &mut Budget) -> Result<Value, Stop>
    ensures { Gives (spec.grid_of args.now budget.old) result budget.new }
{
    let [row, ..] = args else {
        return Err(Stop::Faulted(Fault::BadType));
    };
    let width = row_length(row);
    if width == 0 || !are_rows(width, args) {
        return Err(Stop::Faulted(Fault::BadType));
    }
    grid_made(alloc, args, width, budget)
}
