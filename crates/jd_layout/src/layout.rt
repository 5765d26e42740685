//! Layouts.
ghost use Rattle.std.specs.Prelude.{◌≡◌, ◌<◌, ◌≤◌, ◌↔◌, IsSome, IfSome, MatchResult, length, take};
ghost use Rattle.jd_value.specs.Array.{IsDims, product};
ghost use Rattle.jd_layout.specs.Blocks.{IsSize, IsIndex, IsLayout, IsFound, IsPartOf, part_ranges};
ghost use Rattle.jd_layout.specs.Refused.{IsMade, IsRefusal};

use crate::counts::is_dist;
use crate::fault::{Bounds, LayoutFault};
use crate::ids::are_procs;
use crate::parts::{is_index, located};
use crate::ranges::{Ranges, ranges_of};
use jd_value::{Dims, MAX_LENGTH};
use std::alloc::Global;
use std::marker::Model;

/// How the indexes of an array lie in parts, one part for each process.
///
/// Each dimension is cut into as many pieces as `dist` says, and a part is one piece of each dimension. Parts are
/// numbered from 0 and column-major over `dist`, as the DistributedArrays documentation lays chunks over processes.
#[derive(Drop)]
pub struct Layout {
    dims: Dims,
    dist: [u32; 3],
    procs: Vec<u32>,
}

impl Model for Layout {
    ghost use Rattle.std.specs.Prelude.{length, take};
    ghost use Rattle.jd_layout.specs.Blocks.{Blocks, IsLayout};

    ghost Value = { Blocks };

    ghost view = { λ l. record { dims = l.dims; dist = take (length l.dims) l.dist; procs = l.procs.items } };

    ghost invariant = { λ l. IsLayout (record { dims = l.dims; dist = take (length l.dims) l.dist; procs = l.procs.items }) };
}

impl Layout {
    /// The layout of an array of these dimensions over these processes.
    ///
    /// `dist` has the number of pieces of each dimension. The faults are tested in the order of `LayoutFault`.
    pub fn new(
        alloc: Global,
        dims: &[u64],
        procs: &[u32],
        dist: &[u32],
        known: &[u32],
    ) -> Result<Layout, LayoutFault>
        ensures { MatchResult result (IsMade dims.now procs.now dist.now known.now)
            (IsRefusal dims.now procs.now dist.now known.now) }
    {
        let Some(sizes) = sizes_of(dims) else {
            return Err(LayoutFault::BadSize);
        };
        if !is_dist(dims, dist, procs) {
            return Err(LayoutFault::BadDist);
        }
        if !are_procs(alloc, procs, known)? {
            return Err(LayoutFault::BadProcs);
        }
        Ok(Layout {
            dims: sizes,
            dist: placed(dist),
            procs: Vec::from_slice(alloc, procs)?,
        })
    }

    /// The lengths of the dimensions.
    pub fn dims(&self) -> Dims
        ensures value { result ≡ self.now.dims }
        ensures valid { IsLayout self.now }
    {
        self.dims
    }

    /// How many pieces each dimension is cut into.
    pub fn dist(&self) -> &[u32]
        ensures value { result.now ≡ self.now.dist }
        ensures valid { IsLayout self.now }
    {
        &self.dist[..self.dims.as_slice().len()]
    }

    /// The process of each part.
    pub fn procs(&self) -> &[u32]
        ensures value { result.now ≡ self.now.procs }
        ensures valid { IsLayout self.now }
    {
        self.procs.as_slice()
    }

    /// The ranges of a part.
    pub fn ranges(&self, part: u32) -> Ranges
        requires { part < product self.now.dist }
        ensures { result ≡ part_ranges self.now.dims self.now.dist part }
    {
        ranges_of(self.dims.as_slice(), self.dist(), part)
    }

    /// The part in which an index lies. `Bounds` comes exactly where the index is outside. Takes no memory and a
    /// constant time.
    pub fn part_of(&self, index: &[u64]) -> Result<u32, Bounds>
        ensures { MatchResult result (IsPartOf self.now index.now) (λ _. ¬ IsIndex self.now.dims index.now) }
    {
        let (part, _) = self.locate(index)?;
        Ok(part)
    }

    /// The part in which an index lies, and the place of its cell there, from 0. `Bounds` comes exactly where the
    /// index is outside. Takes no memory and a constant time.
    pub fn locate(&self, index: &[u64]) -> Result<(u32, u64), Bounds>
        ensures { MatchResult result (λ found. IsFound self.now index.now found.0 found.1)
            (λ _. ¬ IsIndex self.now.dims index.now) }
    {
        let dims = self.dims.as_slice();
        if !is_index(dims, index) {
            return Err(Bounds);
        }
        Ok(located(dims, self.dist(), index))
    }
}

/// The lengths of the dimensions of an array that may be laid out.
fn sizes_of(dims: &[u64]) -> Option<Dims>
    ensures valid { IsSome result ↔ IsSize dims.now }
    ensures value { IfSome result (λ sizes. sizes ≡ dims.now) }
{
    let sizes = Dims::new(dims)?;
    if cells_in(dims) > MAX_LENGTH {
        return None;
    }
    Some(sizes)
}

/// How many cells there are.
fn cells_in(dims: &[u64]) -> u64
    requires { IsDims dims.now }
    ensures { result ≡ product dims.now }
{
    let mut cells = 1;
    for size in dims {
        cells *= *size;
    }
    cells
}

/// The counts in their places.
fn placed(dist: &[u32]) -> [u32; 3]
    requires { length dist.now ≤ 3 }
    ensures { take (length dist.now) result ≡ dist.now }
{
    let mut places = [1; 3];
    for (axis, pieces) in dist.iter().enumerate() {
        places[axis] = *pieces;
    }
    places
}
