//! Why a step of a node was not done.

use thiserror::Error;

/// Why a node made no step.
#[derive(Clone, Copy, Debug, PartialEq, Eq, Drop, Error)]
pub enum NodeFault {
    /// A number of the process would have to rise above the greatest of 64 bits.
    #[error("a limit of the process was reached")]
    Limit,
    #[error("out of memory")]
    OutOfMemory,
}
