//! Why an event did not happen.

/// Why an event did not happen.
#[derive(Clone, Copy, Debug, PartialEq, Eq, Drop)]
pub enum StepFault {
    /// It isn't possible.
    NotPossible,
    /// The record or the world is full: 1,000,000 marks, or 10,000,000 events.
    Limit,
    /// A message goes to a process that the cluster doesn't have, or comes to process 1 from one that is no worker.
    Stranger,
    /// A number of a process would have to rise above the greatest of 64 bits.
    Spent,
    OutOfMemory,
}
