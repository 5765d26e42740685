//! What an operation wants.
ghost use Rattle.std.specs.Prelude.{◌≡◌, ◌+◌, ◌<◌, ◌^◌, ◌∷◌, Some};
ghost use Rattle.jd_value.specs.declared.value.Value.TheVariants.{Int};
ghost use Rattle.jd_model.specs.Asking as spec;
ghost use Rattle.jd_model.specs.Noticed.{noticed_in};

use jd_task::{Closure, Op};
use jd_value::{Fault, Operation, Outcome, RefId, Value};
use sqlite_items::Items;

/// What an operation wants, as the process sees it that asks.
#[derive(Drop)]
pub enum Asking {
    /// It is answered at once.
    Answers(Outcome),
    /// These values are to be printed as main's next line.
    Prints(Items<Value>),
    /// The outcome of this cell.
    Fetches(RefId),
    /// A new task on that process.
    Calls {
        process: u32,
        code: Closure,
        args: Items<Value>,
    },
}

/// Whether a process has noticed the loss of that one.
fn has_noticed(noticed: &[u32], process: u32) -> bool
    ensures { result ≡ noticed_in noticed.now process }
{
    noticed.iter().any(|worker| *worker == process)
}

/// Whether the cluster has a process of that number.
fn is_known(workers: u32, process: u32) -> bool
    ensures { result ≡ spec.is_known workers process }
{
    process >= 1 && u64::from(process) <= u64::from(workers) + 1
}

/// What a fetch wants.
fn fetching(workers: u32, mut args: Items<Value>) -> Asking
    ensures { result ≡ spec.fetching workers args }
{
    if args.len() != 1 {
        return Asking::Answers(Err(Fault::BadType));
    }
    match args.remove(0) {
        Value::Future(reference) => {
            let cell = *reference.get();
            if is_known(workers, cell.owner) {
                Asking::Fetches(cell)
            } else {
                Asking::Answers(Err(Fault::Argument))
            }
        }
        value => Asking::Answers(Ok(value)),
    }
}

/// What a call on that process wants.
fn calling_at(
    workers: u32,
    noticed: &[u32],
    process: u32,
    code: Closure,
    args: Items<Value>,
) -> Asking
    ensures { result ≡ spec.calling_at workers (noticed_in noticed.now) process code args }
{
    if !is_known(workers, process) {
        return Asking::Answers(Err(Fault::Argument));
    }
    if has_noticed(noticed, process) {
        return Asking::Answers(Err(Fault::Exited(process)));
    }
    Asking::Calls {
        process,
        code,
        args,
    }
}

/// What a call on the process of that number wants.
fn calling_on(
    workers: u32,
    noticed: &[u32],
    process: i64,
    code: Closure,
    args: Items<Value>,
) -> Asking
    requires { workers + 1 < 2 ^ 32 }
    ensures { result ≡ spec.calling workers (noticed_in noticed.now) (Some code) (Int process ∷ args) }
{
    match u32::try_from(process) {
        Ok(process) => calling_at(workers, noticed, process, code, args),
        Err(_) => {
            drop((code, args));
            Asking::Answers(Err(Fault::Argument))
        }
    }
}

/// What a call of this code wants.
fn calling_code(workers: u32, noticed: &[u32], code: Closure, mut args: Items<Value>) -> Asking
    requires { workers + 1 < 2 ^ 32 }
    ensures { result ≡ spec.calling workers (noticed_in noticed.now) (Some code) args }
{
    if args.is_empty() {
        drop((code, args));
        return Asking::Answers(Err(Fault::BadType));
    }
    match args.remove(0) {
        Value::Int(process) => calling_on(workers, noticed, process, code, args),
        first => {
            drop((first, code, args));
            Asking::Answers(Err(Fault::BadType))
        }
    }
}

/// What a call wants.
fn calling(workers: u32, noticed: &[u32], body: Option<Closure>, args: Items<Value>) -> Asking
    requires { workers + 1 < 2 ^ 32 }
    ensures { result ≡ spec.calling workers (noticed_in noticed.now) body args }
{
    match body {
        Some(code) => calling_code(workers, noticed, code, args),
        None => {
            drop(args);
            Asking::Answers(Err(Fault::BadType))
        }
    }
}

/// What a line of main wants.
fn printing(is_main: bool, args: Items<Value>) -> Asking
    ensures { result ≡ spec.printing is_main args }
{
    if is_main {
        Asking::Prints(args)
    } else {
        Asking::Answers(Err(Fault::Argument))
    }
}

impl Asking {
    /// What an operation wants, in a cluster of so many workers, of a process that has noticed these losses. Processes
    /// are numbered with 32 bits.
    #[tactic(auto, unfolding(crate::specs::Asking::asking))]
    pub fn of(workers: u32, noticed: &[u32], is_main: bool, op: Op) -> Asking
        requires { workers + 1 < 2 ^ 32 }
        ensures { result ≡ spec.asking workers (noticed_in noticed.now) is_main op }
    {
        let Op {
            operation,
            body,
            args,
        } = op;
        match operation {
            Operation::RemoteCall => calling(workers, noticed, body, args),
            Operation::Fetch => fetching(workers, args),
            Operation::Print => printing(is_main, args),
        }
    }
}
