//! Slices of an array.
ghost use Rattle.std.specs.Prelude.{◌≡◌, ◌+◌, ◌*◌, ◌^◌, ◌<◌, ◌≤◌, ◌↔◌, ◌++◌, ◌∷◌, [], pos, ◌≤ℤ◌, map, drop, length, slice_index, slice_index_or, All, IsTrue, IfOk, OnOk, MatchResult, vec_len};
ghost use Rattle.std.specs.List.{flat_map, range_with_len};
ghost use Rattle.jd_value.specs.Span.{span_items};
ghost use Rattle.jd_value.specs.Array.{IsDims, cell_at, offset, product};
ghost use Rattle.jd_array.specs.Places.{pick_first, pick_length, IsWindow, AreWindows, places, places_along};
ghost use Rattle.jd_array.specs.Slice.{picked, picked_dims, picked_indexes, AreInside, IsSliceByIndex, IsSliceOf, IsUnsliced};

use crate::fault::ArrayFault;
use crate::index::{is_within, offset_of};
use jd_value::{Array, Dims, Span};
use std::alloc::{AllocError, Global};

/// What is taken of a dimension: one index, which drops the dimension, or those of a range.
#[derive(Clone, Copy, Debug)]
pub enum Pick {
    One(i64),
    Many(Span),
}

impl Pick {
    /// Whether it takes numbers of a dimension of this length alone.
    fn is_inside(&self, size: u64) -> bool
        ensures { IsTrue result ↔ All (λ i. (pos 1 ≤ℤ i) × (i ≤ℤ pos size)) (picked self.now) }
    {
        match self {
            Pick::One(i) => is_within(*i, size),
            Pick::Many(span) => is_span_inside(span, size),
        }
    }

    /// Whether it takes a number.
    fn is_some(&self) -> bool
        ensures { IsTrue result ↔ (1 ≤ pick_length self.now) }
    {
        match self {
            Pick::One(_) => true,
            Pick::Many(span) => !span.is_empty(),
        }
    }

    /// How many numbers lie before the first one that it takes.
    fn start(&self) -> u64
        requires { pos 1 ≤ℤ pick_first self.now }
        ensures { result ≡ offset (pick_first self.now) }
    {
        match self {
            Pick::One(i) => offset_of(*i),
            Pick::Many(span) => offset_of(span.first()),
        }
    }

    /// How many numbers it takes.
    fn len(&self) -> u64
        requires { pick_length self.now < 2 ^ 64 }
        ensures { result ≡ pick_length self.now }
    {
        match self {
            Pick::One(_) => 1,
            Pick::Many(span) => span.len() as u64,
        }
    }
}

fn is_span_inside(span: &Span, size: u64) -> bool
    ensures { IsTrue result ↔ All (λ i. (pos 1 ≤ℤ i) × (i ≤ℤ pos size)) (span_items span.now) }
{
    if span.is_empty() {
        return true;
    }
    is_within(span.first(), size) && is_within(span.last(), size)
}

/// Adds the numbers from `first` on, so many.
fn push_range(all: &mut Vec<u64>, first: u64, len: u64) -> Result<(), AllocError>
    requires { first + len < 2 ^ 64 }
    ensures { OnOk result (all.new.items ≡ all.old.items ++ range_with_len first len) }
{
    for place in first..first + len {
        all.push(place)?;
    }
    Ok(())
}

/// The places that a pick of a dimension gives, for each place of the dimensions behind it.
fn spread(alloc: Global, behind: &[u64], size: u64, pick: &Pick) -> Result<Vec<u64>, AllocError>
    requires window { IsWindow size pick.now }
    requires fits { All (λ place. (place + 1) * size < 2 ^ 63) behind.now }
    ensures { IfOk result (λ all. all.items ≡ flat_map (places_along size pick.now) behind.now) }
{
    let start = pick.start();
    let len = pick.len();
    let mut all = Vec::new(alloc);
    for place in behind {
        push_range(&mut all, *place * size + start, len)?;
    }
    Ok(all)
}

/// The places of the picked rows: those of the dimensions behind the first one.
fn row_places(alloc: Global, dims: &[u64], picks: &[Pick]) -> Result<Vec<u64>, AllocError>
    requires some { 1 ≤ length dims.now }
    requires few { length dims.now ≤ 3 }
    requires windows { AreWindows dims.now picks.now }
    requires fits { product dims.now < 2 ^ 63 }
    ensures { IfOk result (λ all. all.items ≡ places (drop 1 dims.now) (drop 1 picks.now) (0 ∷ [])) }
{
    let mut all = Vec::from_slice(alloc, &[0])?;
    for axis in (1..dims.len()).rev() {
        all = spread(alloc, all.as_slice(), dims[axis], &picks[axis])?;
    }
    Ok(all)
}

/// The cells of the rows at these places, of each row those that a pick of the first dimension takes.
fn picked_cells(
    alloc: Global,
    cells: &[i64],
    rows: &[u64],
    size: u64,
    pick: &Pick,
) -> Result<Vec<i64>, AllocError>
    requires window { IsWindow size pick.now }
    requires inside { All (λ row. (row + 1) * size ≤ length cells.now) rows.now }
    ensures { IfOk result
        (λ out.
        out.items ≡
        map (λ place. slice_index_or cells.now place (pos 0))
        (flat_map (places_along size pick.now) rows.now)) }
{
    let start = pick.start();
    let len = pick.len();
    let mut out = Vec::new(alloc);
    for row in rows {
        let first = (*row * size + start) as usize;
        out.extend_from_slice(&cells[first..first + len as usize])?;
    }
    Ok(out)
}

/// The array of the picked cells, the first dimension running fastest.
///
/// There is one pick for each dimension, and one at least is a range. `Bounds` comes exactly where the number of picks
/// isn't that of the dimensions, or a pick takes an index outside; an empty range takes none. Touches no cell but
/// those that it copies. That a range copies is Julia's rule for indexing, and that one index for each dimension is
/// wanted is this project's own.
pub fn slice(alloc: Global, array: &Array, picks: &[Pick]) -> Result<Array, ArrayFault>
    requires { 1 ≤ length (picked_dims picks.now) }
    ensures { MatchResult result (IsSliceOf array.now picks.now) (IsUnsliced array.now picks.now) }
{
    let dims = array.dims();
    if !are_inside(dims.as_slice(), picks) {
        return Err(ArrayFault::Bounds);
    }
    let cells = cells_at(alloc, array, picks)?;
    Ok(Array::new(alloc, dims_of(dims.as_slice(), picks), cells)?)
}

/// Whether there is a pick for each dimension, and it takes numbers of the dimension alone.
fn are_inside(dims: &[u64], picks: &[Pick]) -> bool
    ensures { IsTrue result ↔ AreInside dims.now picks.now }
{
    if dims.len() != picks.len() {
        return false;
    }
    for (axis, size) in dims.iter().enumerate() {
        if !picks[axis].is_inside(*size) {
            return false;
        }
    }
    true
}

/// Whether each pick takes a number.
fn are_some(picks: &[Pick]) -> bool
    ensures { IsTrue result ↔ All (λ pick. 1 ≤ pick_length pick) picks.now }
{
    picks.iter().all(|pick| pick.is_some())
}

/// The picked cells.
fn cells_at(alloc: Global, array: &Array, picks: &[Pick]) -> Result<Vec<i64>, AllocError>
    requires { AreInside array.now.dims picks.now }
    ensures { IfOk result (λ cells. cells.items ≡ map (cell_at array.now) (picked_indexes picks.now)) }
{
    if !are_some(picks) {
        return Ok(Vec::new(alloc));
    }
    window_cells(alloc, array.cells(), array.dims().as_slice(), picks)
}

/// The picked cells, where each pick takes a number.
fn window_cells(
    alloc: Global,
    cells: &[i64],
    dims: &[u64],
    picks: &[Pick],
) -> Result<Vec<i64>, AllocError>
    requires dims { IsDims dims.now }
    requires whole { product dims.now ≡ length cells.now }
    requires windows { AreWindows dims.now picks.now }
    ensures { IfOk result
        (λ out.
        out.items ≡
        map (λ place. slice_index_or cells.now place (pos 0))
        (places dims.now picks.now (0 ∷ []))) }
{
    let rows = row_places(alloc, dims, picks)?;
    picked_cells(alloc, cells, rows.as_slice(), dims[0], &picks[0])
}

/// The lengths of the dimensions that are left.
fn dims_of(dims: &[u64], picks: &[Pick]) -> Dims
    requires dims { IsDims dims.now }
    requires inside { AreInside dims.now picks.now }
    requires some { 1 ≤ length (picked_dims picks.now) }
    ensures { result ≡ picked_dims picks.now }
{
    let mut sizes = [0; 3];
    let mut count = 0;
    for pick in picks {
        match pick {
            Pick::One(_) => {}
            Pick::Many(span) => {
                sizes[count] = span.len() as u64;
                count += 1;
            }
        }
    }
    Dims::new(&sizes[..count]).unwrap()
}

/// The law of slices: cell by cell, a slice is the array at the indexes that the picks make of its own.
pub fn slice_is_by_index(_array: &Array, _picks: &[Pick])
    requires { AreInside _array.now.dims _picks.now }
    ensures { IsSliceByIndex _array.now _picks.now }
{}
