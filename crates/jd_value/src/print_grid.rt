//! The printed form of grids: rows of the first slab, then those of the next one. Cells are in column-major order, so
//! the cells of a row stand apart by the length of a column.
ghost use Rattle.std.specs.Prelude.{◌≡◌, ◌++◌, ◌≤◌, OnOk, decimal, map};
ghost use Rattle.jd_value.specs.Joined.{joined, separator};
ghost use Rattle.jd_value.specs.ShownGrid.{
  cell_of,
  cell_text,
  cells_text,
  dims_text,
  grid_text,
  length_of,
  row_text,
  slab_text,
  slabs_text,
};
ghost use Rattle.jd_value.specs.Words.{mark_text};
ghost use Rattle.jd_value.specs.declared.mark.Mark.TheVariants as m;

use crate::array::Array;
use crate::mark::{Mark, push_mark};
use crate::memory::OutOfMemory;
use crate::txt::Txt;
use crate::word::{Word, push_count, push_int, push_word};

/// Adds the separator, but before the first piece.
fn push_separator(between: Mark, number: u64, out: &mut Txt) -> Result<(), OutOfMemory>
    ensures { OnOk result (out.new ≡ out.old ++ separator (mark_text between) number) }
{
    if number == 0 {
        return Ok(());
    }
    push_mark(between, out)
}

/// The length of a dimension, the first one being 0, and 1 where there is no such dimension.
fn length_of(array: &Array, axis: usize) -> u64
    ensures value { result ≡ length_of array.now.dims axis }
    ensures short { result ≤ 262144 }
{
    let dims = array.dims();
    let lengths = dims.as_slice();
    if axis < lengths.len() {
        lengths[axis]
    } else {
        1
    }
}

/// The cell in a row and a column of a slab, all from 0.
fn cell(array: &Array, slab: u64, row: u64, column: u64) -> i64
    requires slab { slab ≤ 262144 }
    requires row { row ≤ 262144 }
    requires column { column ≤ 262144 }
    ensures { result ≡ cell_of array.now slab row column }
{
    let before = column + length_of(array, 1) * slab;
    let place = (row + length_of(array, 0) * before) as usize;
    let cells = array.cells();
    if place < cells.len() { cells[place] } else { 0 }
}

fn push_cell(
    array: &Array,
    slab: u64,
    row: u64,
    column: u64,
    out: &mut Txt,
) -> Result<(), OutOfMemory>
    requires slab { slab ≤ 262144 }
    requires row { row ≤ 262144 }
    requires column { column ≤ 262144 }
    ensures { OnOk result (out.new ≡ out.old ++ cell_text array.now slab row column) }
{
    push_int(cell(array, slab, row, column), out)
}

fn push_row(array: &Array, slab: u64, row: u64, out: &mut Txt) -> Result<(), OutOfMemory>
    requires slab { slab ≤ 262144 }
    requires row { row ≤ 262144 }
    ensures { OnOk result (out.new ≡ out.old ++ row_text array.now slab row) }
{
    for column in 0..length_of(array, 1) {
        push_separator(Mark::Blank, column, out)?;
        push_cell(array, slab, row, column, out)?;
    }
    Ok(())
}

fn push_slab(array: &Array, slab: u64, out: &mut Txt) -> Result<(), OutOfMemory>
    requires { slab ≤ 262144 }
    ensures { OnOk result (out.new ≡ out.old ++ slab_text array.now slab) }
{
    for row in 0..length_of(array, 0) {
        push_separator(Mark::NextRow, row, out)?;
        push_row(array, slab, row, out)?;
    }
    Ok(())
}

fn push_slabs(array: &Array, out: &mut Txt) -> Result<(), OutOfMemory>
    ensures { OnOk result (out.new ≡ out.old ++ slabs_text array.now) }
{
    for slab in 0..length_of(array, 2) {
        push_separator(Mark::NextSlab, slab, out)?;
        push_slab(array, slab, out)?;
    }
    Ok(())
}

fn push_lengths(lengths: &[u64], out: &mut Txt) -> Result<(), OutOfMemory>
    ensures { OnOk result (out.new ≡ out.old ++ joined (mark_text m.Comma) (map decimal lengths.now)) }
{
    match lengths {
        [] => Ok(()),
        [first, others @ ..] => {
            push_count(*first, out)?;
            for length in others {
                push_mark(Mark::Comma, out)?;
                push_count(*length, out)?;
            }
            Ok(())
        }
    }
}

fn push_dims(dims: &[u64], out: &mut Txt) -> Result<(), OutOfMemory>
    ensures { OnOk result (out.new ≡ out.old ++ dims_text dims.now) }
{
    push_word(Word::Array, out)?;
    push_lengths(dims, out)?;
    push_mark(Mark::Close, out)
}

fn push_cells(array: &Array, out: &mut Txt) -> Result<(), OutOfMemory>
    ensures { OnOk result (out.new ≡ out.old ++ cells_text array.now) }
{
    push_mark(Mark::OpenBracket, out)?;
    push_slabs(array, out)?;
    push_mark(Mark::CloseBracket, out)
}

/// Adds the printed form of a grid.
pub(crate) fn push_grid(array: &Array, out: &mut Txt) -> Result<(), OutOfMemory>
    ensures { OnOk result (out.new ≡ out.old ++ grid_text array.now) }
{
    if !array.cells().is_empty() {
        return push_cells(array, out);
    }
    let dims = array.dims();
    push_dims(dims.as_slice(), out)
}
