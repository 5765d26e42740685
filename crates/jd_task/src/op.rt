//! Operations that are asked.

use crate::closure::Closure;
use jd_value::{Operation, Value};
use sqlite_items::Items;

/// An operation that a task asks.
#[derive(Drop)]
pub struct Op {
    pub operation: Operation,
    /// What the operation is to run, where it takes that.
    pub body: Option<Closure>,
    /// Its operands, from left to right.
    pub args: Items<Value>,
}
