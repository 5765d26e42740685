//! The events of a cluster.

/// An event. Processes are numbered from 1.
#[derive(Clone, Copy, Debug, PartialEq, Eq, Drop)]
pub enum Event {
    /// The oldest message of the first process to the second leaves.
    Emit(u32, u32),
    /// The first message on the link from the first process to the second arrives.
    Deliver(u32, u32),
    /// The oldest task of this process that can go on goes on, to its next operation or its end.
    Run(u32),
}
