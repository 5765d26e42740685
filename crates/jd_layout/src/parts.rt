//! The part of an index, and its place there.
ghost use Rattle.std.specs.Prelude.{◌≡◌, ◌+◌, ◌<◌, ◌≤◌, ◌↔◌, ◌^◌, length, IsTrue, All};
ghost use Rattle.jd_value.specs.Array.{product};
ghost use Rattle.jd_array.specs.Cut.{piece_length, piece_start, HoldsIndex};
ghost use Rattle.jd_layout.specs.Blocks.{IsIndex, IsLocated};

use jd_array::{cut, piece_with};

/// Where a number of an index lies in its dimension.
#[derive(Clone, Copy, Debug)]
struct Along {
    /// the piece that holds it
    piece: u32,
    /// how many indexes that piece holds
    len: u64,
    /// how many of them lie before it
    before: u64,
}

impl Along {
    /// Where the number `i` lies in a dimension of `size` indexes, which is cut into `pieces`.
    fn find(size: u64, pieces: u32, i: u64) -> Along
        requires some { 1 ≤ pieces }
        requires from { 1 ≤ i }
        requires to { i ≤ size }
        ensures piece { result.piece < pieces }
        ensures len { result.len ≡ piece_length size pieces result.piece }
        ensures before { piece_start size pieces result.piece + result.before + 1 ≡ i }
        ensures inside { result.before < result.len }
        ensures whole { result.len ≤ size }
    {
        let piece = piece_with(size, pieces, i - 1);
        let held = cut(size, pieces, piece);
        Along {
            piece,
            len: held.len,
            before: i - 1 - held.start,
        }
    }
}

fn is_within(i: u64, size: u64) -> bool
    ensures { IsTrue result ↔ ((1 ≤ i) × (i ≤ size)) }
{
    1 <= i && i <= size
}

/// Whether an index is one of an array of these dimensions.
pub fn is_index(dims: &[u64], index: &[u64]) -> bool
    ensures { IsTrue result ↔ IsIndex dims.now index.now }
{
    if dims.len() != index.len() {
        return false;
    }
    for (axis, size) in dims.iter().enumerate() {
        if !is_within(index[axis], *size) {
            return false;
        }
    }
    true
}

/// The part of an index, and its place there.
pub fn located(dims: &[u64], dist: &[u32], index: &[u64]) -> (u32, u64)
    requires index { IsIndex dims.now index.now }
    requires lengths { length dist.now ≡ length dims.now }
    requires counts { All (λ pieces. 1 ≤ pieces) dist.now }
    requires parts { product dist.now ≤ 2 ^ 32 }
    requires cells { product dims.now ≤ 262144 }
    ensures { IsLocated dims.now dist.now index.now result.0 result.1 }
{
    let mut part: u64 = 0;
    let mut place = 0;
    for axis in (0..dims.len()).rev() {
        let found = Along::find(dims[axis], dist[axis], index[axis]);
        part = part * dist[axis] as u64 + found.piece as u64;
        place = place * found.len + found.before;
    }
    (part as u32, place)
}
