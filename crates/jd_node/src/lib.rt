//! A process of the cluster: its tasks, the cells that it stores, what it has asked and what is asked of it, and the
//! messages to other processes that haven't left.
//!
//! The layer above gets `Node`. Each of its steps is the step that jd_model's `Node` defines: a message arrives, a task
//! is handed out and goes on, a message leaves. The tables are hash maps, so a step takes constant time, and logarithmic
//! time where it sends; the end of a task alone looks through all requests that wait at this process. The crate stands
//! on jd_task and jd_model.
#![tactic(auto)]

mod asks;
mod call;
mod cells;
mod deliver;
mod ends;
mod fault;
mod fetch;
mod finish;
mod mail;
mod node;
mod parts;
mod rows;
mod run;
mod show;
mod tasks;
mod waits;

pub use fault::NodeFault;
pub use mail::Mail;
pub use node::Node;
