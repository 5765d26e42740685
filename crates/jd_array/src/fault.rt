//! Why a call on an array gave no answer.
ghost use Rattle.jd_array.specs.declared.fault.ArrayFault.TheVariants.{OutOfMemory as NoMemory};
ghost use Rattle.std.specs.Prelude.{◌≡◌};

use jd_value::OutOfMemory;
use std::alloc::{AllocError, AllocFailed};
use thiserror::Error;

/// Why a call on an array gave no answer.
#[derive(Clone, Copy, Debug, PartialEq, Eq, Error)]
pub enum ArrayFault {
    /// An index is outside the array, or has another number of dimensions: Julia's `BoundsError`.
    #[error("index out of bounds")]
    Bounds,
    /// A fold of no cells by an operation without an identity: Julia's `ArgumentError`.
    #[error("no cells to reduce")]
    Argument,
    /// No memory was left.
    #[error("out of memory")]
    OutOfMemory,
}

impl From<OutOfMemory> for ArrayFault {
    ghost from_gives = { λ _ fault. fault ≡ NoMemory };

    fn from(_: OutOfMemory) -> Self {
        ArrayFault::OutOfMemory
    }
}

impl From<AllocError> for ArrayFault {
    ghost from_gives = { λ _ fault. fault ≡ NoMemory };

    fn from(_: AllocError) -> Self {
        ArrayFault::OutOfMemory
    }
}

impl<T: Drop> From<AllocFailed<T>> for ArrayFault {
    ghost from_gives = { λ _ fault. fault ≡ NoMemory };

    fn from(_: AllocFailed<T>) -> Self {
        ArrayFault::OutOfMemory
    }
}
