//! Why a mark wasn't taken.

use thiserror::Error;

/// Why a mark wasn't taken.
#[derive(Clone, Copy, Debug, PartialEq, Eq, Error)]
pub enum NotTaken {
    /// The mark isn't legal. `clause` is the row of the table of marks that it has: Ran 1, Started 2, Took 3, Returned 4,
    /// Local 5, Printed 13.
    #[error("a mark of row {clause} isn't legal here")]
    NotLegal { clause: u8 },
    /// No memory was left, at this mark or at one before it.
    #[error("out of memory")]
    OutOfMemory,
}
