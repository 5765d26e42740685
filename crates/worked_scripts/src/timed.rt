//! The calls that are timed.

use jd_array::{Pick, slice};
use jd_layout::Layout;
use jd_value::{Array, Dims, Span};
use std::alloc::Global;

pub const INDEXES: u64 = 1_000_000;

pub const SLICES: u64 = 64;

/// A layout of 64 by 64 by 64 cells over six processes.
pub fn cube_layout(alloc: Global) -> anyhow::Result<Layout> {
    let procs = [2, 3, 4, 5, 6, 7];
    Ok(Layout::new(alloc, &[64, 64, 64], &procs, &[1, 2, 3], &procs)?)
}

/// The wrapping sum of the parts and places of so many indexes of an array of 64 by 64 by 64.
pub fn sum_of_places(layout: &Layout, indexes: u64) -> u64 {
    let mut sum: u64 = 0;
    for n in 0..indexes {
        let index = [n % 64 + 1, n / 64 % 64 + 1, n / 4096 % 64 + 1];
        if let Ok((part, place)) = layout.locate(&index) {
            sum = sum.wrapping_add(u64::from(part)).wrapping_add(place);
        }
    }
    sum
}

/// An array of 64 by 64 by 64 cells.
pub fn cube(alloc: Global) -> anyhow::Result<Array> {
    let mut cells = Vec::new(alloc);
    for n in 0..262_144 {
        cells.push(n)?;
    }
    let Some(dims) = Dims::new(&[64, 64, 64]) else {
        anyhow::bail!("the dimensions are too long");
    };
    if cells.len() != 262_144 {
        anyhow::bail!("the cells are too few");
    }
    Ok(Array::new(alloc, dims, cells)?)
}

/// How many cells the inner part of the array has, which is copied for that.
fn inner_cells(alloc: Global, array: &Array) -> anyhow::Result<u64> {
    let first = Pick::Many(Span::between(2, 63));
    let second = Pick::Many(Span::between(2, 63));
    let third = Pick::Many(Span::between(2, 63));
    let part = slice(alloc, array, &[first, second, third])?;
    Ok(part.cells().len() as u64)
}

/// How many cells so many slices of the array have together.
pub fn sliced_cells(alloc: Global, array: &Array, slices: u64) -> anyhow::Result<u64> {
    let mut count: u64 = 0;
    for _ in 0..slices {
        count = count.wrapping_add(inner_cells(alloc, array)?);
    }
    Ok(count)
}
