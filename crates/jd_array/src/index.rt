//! The cell of an index.
ghost use Rattle.std.specs.Prelude.{◌≡◌, ◌<◌, ◌^◌, ◌↔◌, ◌≤ℤ◌, pos, IsTrue, MatchResult};
ghost use Rattle.jd_value.specs.Array.{IsInside, offset, place_of, product};
ghost use Rattle.jd_array.specs.Index.{IsCellAt, IsOutside};

use crate::fault::ArrayFault;
use jd_value::Array;

/// The cell at an index, which has one number for each dimension, from 1 to the length of the dimension.
///
/// `Bounds` comes exactly where the index has another number of dimensions or is outside, as Julia's `BoundsError`
/// for an index of every dimension. Takes no memory and a constant time.
pub fn at(array: &Array, index: &[i64]) -> Result<i64, ArrayFault>
    ensures { MatchResult result (IsCellAt array.now index.now) (IsOutside array.now index.now) }
{
    let dims = array.dims();
    if !is_inside(dims.as_slice(), index) {
        return Err(ArrayFault::Bounds);
    }
    let cells = array.cells();
    Ok(cells[place_in(dims.as_slice(), index) as usize])
}

/// Whether an index is one of an array of these dimensions.
pub fn is_inside(dims: &[u64], index: &[i64]) -> bool
    ensures { IsTrue result ↔ IsInside dims.now index.now }
{
    if dims.len() != index.len() {
        return false;
    }
    for (axis, size) in dims.iter().enumerate() {
        if !is_within(index[axis], *size) {
            return false;
        }
    }
    true
}

/// Whether a number of an index is one of a dimension of this length.
pub fn is_within(i: i64, size: u64) -> bool
    ensures { IsTrue result ↔ ((pos 1 ≤ℤ i) × (i ≤ℤ pos size)) }
{
    i >= 1 && offset_of(i) < size
}

/// How far a number of an index is from the first one.
pub fn offset_of(i: i64) -> u64
    requires { pos 1 ≤ℤ i }
    ensures { result ≡ offset i }
{
    (i - 1) as u64
}

/// The place of the cell of an index, from 0.
pub fn place_in(dims: &[u64], index: &[i64]) -> u64
    requires inside { IsInside dims.now index.now }
    requires fits { product dims.now < 2 ^ 64 }
    ensures value { result ≡ place_of dims.now index.now }
    ensures below { result < product dims.now }
{
    let mut place = 0;
    for axis in (0..dims.len()).rev() {
        place = place * dims[axis] + offset_of(index[axis]);
    }
    place
}
