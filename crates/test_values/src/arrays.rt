//! What no contract says: that calls with enough memory succeed.
use jd_array::{ArrayFault, Pick, Reducer, at, fold_op, slice};
use jd_value::{Array, Dims, Span};
use std::alloc::Global;
use std::test::Fail;

fn two_by_two(alloc: Global) -> Result<Array, Fail> {
    let dims = Dims::new(&[2, 2]).ok_or("dims")?;
    let cells = Vec::from_slice(alloc, &[11, 21, 12, 22])?;
    if cells.len() != 4 {
        return Err(Fail::from("cells"));
    }
    Ok(Array::new(alloc, dims, cells)?)
}

#[test]
fn a_grid_is_read(rt: HostRuntime) -> Result<(), Fail> {
    let grid = two_by_two(rt.alloc())?;
    assert!(rt; at(&grid, &[2, 1]) == Ok(21));
    assert!(rt; at(&grid, &[0, 1]) == Err(ArrayFault::Bounds));
    drop(grid);
    Ok(())
}

/// The second row of the copy of a grid.
fn second_row(alloc: Global, grid: &Array) -> Result<Array, Fail> {
    let copy = grid.copy()?;
    let picks = [Pick::One(2), Pick::Many(Span::between(1, 2))];
    let row = slice(alloc, &copy, &picks);
    drop(copy);
    Ok(row?)
}

#[test]
fn a_grid_is_sliced(rt: HostRuntime) -> Result<(), Fail> {
    let alloc = rt.alloc();
    let grid = two_by_two(alloc)?;
    let row = second_row(alloc, &grid);
    drop(grid);
    let row = row?;
    assert!(rt; row.cells() == [21, 22].as_slice());
    drop(row);
    Ok(())
}

#[test]
fn cells_are_folded(rt: HostRuntime) -> Result<(), Fail> {
    assert!(rt; fold_op(Reducer::Add, &[i64::MAX, 1]) == Ok(i64::MIN));
    assert!(rt; fold_op(Reducer::Xor, &[6, -3, 7]) == Ok(-4));
    Ok(())
}
