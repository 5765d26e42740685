//! The reference machine in code, beside its definition.
//!
//! `Plain` holds the state of jd_model's `Machine` in maps and lists, and takes the recorded effects of a run in their
//! order. The layer above gets `Plain::take`, which takes a mark exactly where it is legal, and leaves the state that the
//! definition says, and `Plain::stopped`, which says exactly whether no mark is legal. A mark costs time in proportion to
//! the running tasks and their variables. The crate stands on jd_task, by which tasks go on, and on jd_model.
#![tactic(auto)]

mod cells;
mod counts;
mod fetched;
mod gift;
mod give;
mod going;
mod legal;
mod not_taken;
mod occurs;
mod plain;
mod print;
mod request;
mod requests;
mod run;
mod stopped;
mod take;
mod task;
mod tasks;
mod want;

pub use not_taken::NotTaken;
pub use plain::Plain;
