//! What a run means: the reference machine, the cluster, and what they have in common.
//!
//! The crate has the types that the layers above match on (marks, events, stages of a task) and, in `specs/`, the
//! definitions that their contracts cite: `Machine` is a machine with one thread and no messages that takes a run's
//! recorded effects in their order, `Node` a process of the cluster and its steps, `World` the processes with their
//! links and events, `Refines` what a cluster and the machine of its record have in common. It stands on jd_task.
#![tactic(auto)]

mod asking;
mod ending;
mod event;
mod life;
mod mark;
mod start;

pub use asking::Asking;
pub use ending::Ending;
pub use event::Event;
pub use life::{Answer, Life, Stage};
pub use mark::{Effect, Mark};
pub use start::{Loss, Start};
