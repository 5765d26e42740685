//! Messages between processes.
ghost use Rattle.std.specs.Prelude.{◌≡◌, IfOk};
ghost use Rattle.jd_task.specs.declared.msg.Msg.TheVariants.{Call};

use crate::closure::Closure;
use crate::job::TaskId;
use jd_value::{OutOfMemory, Outcome, RefId, Value, copy_outcome};
use sqlite_items::Items;
use std::alloc::Global;

/// A message from one process to another.
#[derive(Drop)]
pub enum Msg {
    /// A cell is to be made for this reference.
    Begin {
        cell: RefId,
    },
    /// A task is to run this code on these arguments, and its outcome is to go into the cell.
    Call {
        cell: RefId,
        task: TaskId,
        code: Closure,
        args: Items<Value>,
    },
    /// The sender asks for the outcome of the cell. It numbers its requests from 1.
    Fetch {
        ask: u64,
        cell: RefId,
    },
    /// The answer to the receiver's request of this number.
    Reply {
        ask: u64,
        outcome: Outcome,
    },
}

/// The same values once more.
pub(crate) fn copy_values(alloc: Global, values: &[Value]) -> Result<Items<Value>, OutOfMemory>
    ensures { IfOk result (λ all. all ≡ values.now) }
{
    let mut all = Items::new(alloc);
    for value in values {
        all.push(value.copy()?)?;
    }
    Ok(all)
}

/// The same call once more.
fn copy_call(
    alloc: Global,
    cell: RefId,
    task: TaskId,
    code: &Closure,
    args: &[Value],
) -> Result<Msg, OutOfMemory>
    ensures { IfOk result (λ m. m ≡ Call cell task code.now args.now) }
{
    Ok(Msg::Call {
        cell,
        task,
        code: code.copy(alloc)?,
        args: copy_values(alloc, args)?,
    })
}

impl Msg {
    /// The same message once more. It takes time in proportion to the number of its values.
    pub fn copy(&self, alloc: Global) -> Result<Msg, OutOfMemory>
        ensures { IfOk result (λ m. m ≡ self.now) }
    {
        match self {
            Msg::Begin { cell } => Ok(Msg::Begin { cell: *cell }),
            Msg::Call {
                cell,
                task,
                code,
                args,
            } => copy_call(alloc, *cell, *task, code, args.as_slice()),
            Msg::Fetch { ask, cell } => Ok(Msg::Fetch {
                ask: *ask,
                cell: *cell,
            }),
            Msg::Reply { ask, outcome } => Ok(Msg::Reply {
                ask: *ask,
                outcome: copy_outcome(outcome)?,
            }),
        }
    }
}
