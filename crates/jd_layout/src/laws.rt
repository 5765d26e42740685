//! The laws of layouts.
ghost use Rattle.std.specs.Prelude.{◌≡◌, ℕ, List};
ghost use Rattle.jd_value.specs.Array.{Shaped};
ghost use Rattle.jd_array.specs.Fold.{folded};
ghost use Rattle.jd_layout.specs.Blocks.{IsIndex, IsLocated};
ghost use Rattle.jd_layout.specs.Partition.{IsPartition, HasCell, IsGathered, folds_of_parts};

use crate::layout::Layout;
use jd_array::Reducer;
use jd_value::Array;

/// Each index of the array lies in exactly one part, and no part reaches outside the array.
pub fn layout_is_partition(layout: &Layout)
    ensures { IsPartition layout.now.dims layout.now.dist }
{
    let _ = layout.dims();
}

/// A part, which is the slice of the array by the part's ranges, has the cell of each of its indexes at the place that
/// `Layout::locate` gives.
pub fn parts_have_cells(_layout: &Layout, _whole: &Array)
    requires { _layout.now.dims ≡ _whole.now.dims }
    ensures { (index : List ℕ) (part place : ℕ) →
        IsLocated _whole.now.dims _layout.now.dist index part place →
        HasCell _whole.now _layout.now.dist index part place }
{}

/// Gathering the parts cell by cell gives the whole array back.
pub fn gathered_is_whole(layout: &Layout, whole: &Array)
    requires { layout.now.dims ≡ whole.now.dims }
    ensures { (gathered : Shaped) →
        IsGathered whole.now layout.now.dist gathered → gathered ≡ whole.now }
{
    let _ = layout.dims();
    let _ = whole.dims();
}

/// Folding the folds of the parts gives the fold of the whole array, by each of the seven operations. Parts without a
/// cell are left out.
pub fn parts_fold_to_whole(layout: &Layout, whole: &Array, _op: Reducer)
    requires { layout.now.dims ≡ whole.now.dims }
    ensures { folded _op (folds_of_parts _op whole.now layout.now.dist) ≡ folded _op whole.now.cells }
{
    let _ = layout.dims();
    let _ = whole.dims();
}
