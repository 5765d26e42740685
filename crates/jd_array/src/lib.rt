//! Cuts, cells, slices and folds of arrays of whole numbers.
//!
//! The layer above gets `cut` and `piece_with`, which are a partition of a dimension into balanced pieces; `at` and
//! `slice`, which answer by coordinates; and `fold_op`, the fold by one of seven operations. Each refusal comes exactly
//! where its contract says. Laws stand beside them as functions that do nothing: the pieces are the whole, a slice is
//! the array at the indexes that its picks make, and neither order nor grouping matters to the seven operations. The
//! crate stands on jd_value's arrays and ranges.
#![tactic(auto)]

mod fault;
mod fold;
mod index;
mod pieces;
mod slices;

pub use fault::ArrayFault;
pub use fold::{Reducer, fold_op, reducer_is_commutative};
pub use index::{at, is_inside, place_in};
pub use pieces::{Piece, cut, cut_is_partition, piece_with};
pub use slices::{Pick, slice, slice_is_by_index};
