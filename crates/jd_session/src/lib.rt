//! The run of process 1: its node, driven step by step over a fabric.
#![tactic(auto)]

mod drive;
mod record;
mod session;
mod stop;

pub use drive::run;
pub use session::Session;
pub use stop::{End, Step, Stop};
