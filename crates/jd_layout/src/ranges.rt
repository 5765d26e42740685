//! The ranges of a part.
ghost use Rattle.std.specs.Prelude.{◌≡◌, ◌+◌, ◌<◌, ◌≤◌, length, pos, ◌+ℤ◌, ◌-ℤ◌, ◌≤ℤ◌, All};
ghost use Rattle.jd_value.specs.Array.{IsDims, product};
ghost use Rattle.jd_value.specs.Span.{Ends};
ghost use Rattle.jd_layout.specs.Blocks.{piece_range, part_ranges};

use jd_array::cut;
use jd_value::{MAX_LENGTH, Span};
use std::marker::Model;

/// One to three ranges, one for each dimension, in place.
#[derive(Clone, Copy, Debug)]
pub struct Ranges {
    spans: [Span; 3],
    count: usize,
}

impl Model for Ranges {
    ghost use Rattle.std.specs.Prelude.{List, ◌≡◌, ◌++◌, length, take};
    ghost use Rattle.jd_value.specs.Span.{Ends};
    ghost use Rattle.jd_layout.specs.Places.{padded, LieIn};

    ghost Value = { List Ends };

    ghost view = { λ r. take r.count r.spans };

    ghost invariant = { λ r. LieIn r.spans r.count };

    ghost inverse = { λ ranges. record { spans = padded ranges; count = length ranges } };

    ghost inverse_ok = { λ a h i. record { spans = h.padding i; count = h.counted i } };
}

impl Ranges {
    /// The ranges, that of the first dimension first.
    pub fn as_slice(&self) -> &[Span]
        ensures value { result.now ≡ self.now }
        ensures some { 1 ≤ length self.now }
        ensures few { length self.now ≤ 3 }
    {
        &self.spans[..self.count]
    }
}

/// The indexes of a piece of a dimension, which count from 1.
fn range_of(size: u64, pieces: u32, piece: u32) -> Span
    requires size { size ≤ 262144 }
    requires piece { piece < pieces }
    ensures { result ≡ piece_range size pieces piece }
{
    let held = cut(size, pieces, piece);
    Span::new(held.start as i64 + 1, (held.start + held.len) as i64)
}

/// The ranges of a part of an array of these dimensions.
pub fn ranges_of(dims: &[u64], dist: &[u32], part: u32) -> Ranges
    requires dims { IsDims dims.now }
    requires lengths { length dist.now ≡ length dims.now }
    requires counts { All (λ pieces. 1 ≤ pieces) dist.now }
    ensures { result ≡ part_ranges dims.now dist.now part }
{
    let mut spans = [Span::new(1, 0); 3];
    let mut rest = part;
    for (axis, size) in dims.iter().enumerate() {
        spans[axis] = range_of(*size, dist[axis], rest % dist[axis]);
        rest /= dist[axis];
    }
    Ranges {
        spans,
        count: dims.len(),
    }
}
