//! Why there is no layout, or no part for an index.
ghost use Rattle.std.specs.Prelude.{◌≡◌};
ghost use Rattle.jd_layout.specs.declared.fault.LayoutFault.TheVariants.{OutOfMemory};

use std::alloc::AllocError;
use thiserror::Error;

/// Why there is no layout, by the first test that fails. The rules are this project's own.
#[derive(Clone, Copy, Debug, PartialEq, Eq, Error)]
pub enum LayoutFault {
    /// There aren't one to three dimensions, or one of them or their product is above 262,144.
    #[error("bad dimensions")]
    BadSize,
    /// There isn't one count for each dimension, one is 0, or their product isn't the number of processes.
    #[error("bad counts of pieces")]
    BadDist,
    /// A process isn't known or stands twice.
    #[error("bad processes")]
    BadProcs,
    /// No memory was left.
    #[error("out of memory")]
    OutOfMemory,
}

impl From<AllocError> for LayoutFault {
    ghost from_gives = { λ _ fault. fault ≡ OutOfMemory };

    fn from(_: AllocError) -> Self {
        LayoutFault::OutOfMemory
    }
}

/// An index is outside the array, or has another number of dimensions: Julia's `BoundsError`.
#[derive(Clone, Copy, Debug, PartialEq, Eq, Error)]
#[error("index out of bounds")]
pub struct Bounds;
