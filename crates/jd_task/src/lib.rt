//! Tasks: how they go on from one operation to the next, and the messages by which processes call one another.
//!
//! The layer above gets places, which say what a task has still to do, as plain data; `Job::evaluate`, whose contract
//! says that it takes a task exactly as far as `specs/Running` does; and messages. Texts, blocks and bodies are shared,
//! so that copies take time in proportion to the lists of values alone. The crate stands on jd_value and jd_expr.
#![tactic(auto)]

mod attempt;
mod branch;
mod closure;
mod collection;
mod condition;
mod doing;
mod each;
mod flow;
mod frame;
mod job;
mod laws;
mod level;
mod msg;
mod names;
mod op;
mod place;
mod push;
mod reached;
mod repeat;
mod resume;
mod running;
mod statement;

pub use closure::Closure;
pub use frame::Frame;
pub use job::{Evaluated, Job, STEP_UNITS, TaskId, Turn};
pub use laws::{more_fuel_changes_no_step, resuming_is_recursion};
pub use msg::Msg;
pub use op::Op;
pub use place::Place;
