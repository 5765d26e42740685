//! Events of the workers and the links.
ghost use Rattle.std.specs.Prelude.{◌≡◌, ◌≢◌, ◌⊎◌, ◌==◌, ◌<◌, ◌≤◌, ◌+◌, ◌^◌, length, IfErr, OnOk, true, false};
ghost use Rattle.jd_model.specs.declared.event.Event.TheVariants.{Emit, Deliver, Run};
ghost use Rattle.jd_world.specs.Fabric.{IsFull, max_events, max_marks};
ghost use Rattle.jd_world.specs.Outside as spec;
ghost use Rattle.jd_world.specs.Outside.{told_of, told_first, linked, CanHappen, IsSpentBy, LeavesCluster, Tries, Steps};
ghost use Rattle.jd_world.specs.declared.step_fault.StepFault.TheVariants.{Spent, Stranger};

use crate::outside::Outside;
use crate::step_fault::StepFault;
use crate::workers::Workers;
use jd_model::Event;
use jd_node::{Mail, NodeFault};
use jd_task::Msg;
use jd_value::OutOfMemory;
use std::alloc::Global;

/// How many marks a record holds.
pub(crate) const MAX_MARKS: usize = 1_000_000;

/// How many events a simulated world makes.
pub(crate) const MAX_EVENTS: u64 = 10_000_000;

/// The fault of a world in which a step of a process failed.
pub(crate) fn broken_by(fault: NodeFault) -> StepFault
    ensures { result ≡ spec.broken_by fault }
{
    match fault {
        NodeFault::Limit => StepFault::Spent,
        NodeFault::OutOfMemory => StepFault::OutOfMemory,
    }
}

impl Outside {
    /// So many workers, before any event.
    pub fn new(alloc: Global, workers: u32) -> Outside
        requires { workers + 1 < 2 ^ 32 }
        ensures told { told_of result ≡ told_first workers }
        ensures count { result.workers.count ≡ workers }
    {
        Outside {
            workers: Workers::new(alloc, workers),
            to_main: Mail::new(alloc),
            events: 0,
            marks: Vec::new(alloc),
        }
    }

    /// Whether a limit of the run is reached.
    pub(crate) fn is_full(&self) -> bool
        ensures full { result ≡ true → IsFull (told_of self.now) }
        ensures room { result ≡ false → self.now.events < max_events }
        ensures marks { result ≡ false → length self.now.marks.items < max_marks }
    {
        self.events >= MAX_EVENTS || self.marks.len() >= MAX_MARKS
    }

    /// Whether the cluster has that process.
    pub(crate) fn has(&self, process: u32) -> bool
        ensures process { result ≡ true → (1 ≤ process) × (process ≤ self.now.workers.count + 1) }
        ensures other { result ≡ false → (process ≡ 0) ⊎ (self.now.workers.count + 1 < process) }
    {
        process == 1 || self.workers.is_worker(process)
    }

    /// The message stands at the end of the link between these processes.
    pub(crate) fn send(&mut self, from: u32, to: u32, msg: Msg) -> Result<(), OutOfMemory>
        ensures sent { OnOk result (told_of self.new ≡ linked (told_of self.old) from to msg) }
        ensures marks { self.new.marks.items ≡ self.old.marks.items }
        ensures events { self.new.events ≡ self.old.events }
        ensures count { self.new.workers.count ≡ self.old.workers.count }
    {
        if to == 1 {
            return self.to_main.push(from, msg);
        }
        self.workers.send(from, to, msg)
    }

    /// The oldest message of a worker to that process leaves.
    fn emit_from(&mut self, from: u32, to: u32) -> Result<(), StepFault>
        requires { (from == 1) ≡ false }
        ensures tries { Tries (Emit from to) (told_of self.old) (told_of self.new) result }
        ensures cause { IfErr result (λ e. (e ≢ Spent) × (e ≢ Stranger)) }
        ensures events { self.new.events ≡ self.old.events }
        ensures count { self.new.workers.count ≡ self.old.workers.count }
    {
        let msg = match self.workers.emit(from, to) {
            None => return Err(StepFault::NotPossible),
            Some(msg) => msg,
        };
        match self.send(from, to, msg) {
            Ok(()) => Ok(()),
            Err(_) => Err(StepFault::OutOfMemory),
        }
    }

    /// The oldest message of the first process to the second leaves.
    fn emit(&mut self, from: u32, to: u32) -> Result<(), StepFault>
        ensures tries { Tries (Emit from to) (told_of self.old) (told_of self.new) result }
        ensures spent { IfErr result (λ e. e ≡ Spent → IsSpentBy (told_of self.old) (Emit from to)) }
        ensures stranger { IfErr result (λ e. e ≡ Stranger → LeavesCluster self.old.workers.count (Emit from to)) }
        ensures events { self.new.events ≡ self.old.events }
        ensures count { self.new.workers.count ≡ self.old.workers.count }
    {
        if from == 1 {
            return Err(StepFault::NotPossible);
        }
        if self.has(to) {
            return self.emit_from(from, to);
        }
        if self.workers.has_mail(from, to) {
            return Err(StepFault::Stranger);
        }
        Err(StepFault::NotPossible)
    }

    /// The first message on the link between these processes arrives.
    fn arrive(&mut self, from: u32, to: u32) -> Result<(), StepFault>
        ensures tries { Tries (Deliver from to) (told_of self.old) (told_of self.new) result }
        ensures spent { IfErr result (λ e. e ≡ Spent → IsSpentBy (told_of self.old) (Deliver from to)) }
        ensures stranger { IfErr result (λ e. e ≡ Stranger → LeavesCluster self.old.workers.count (Deliver from to)) }
        ensures events { self.new.events ≡ self.old.events }
        ensures count { self.new.workers.count ≡ self.old.workers.count }
    {
        if to == 1 {
            return Err(StepFault::NotPossible);
        }
        match self.workers.arrive(from, to, &mut self.marks) {
            Ok(true) => Ok(()),
            Ok(false) => Err(StepFault::NotPossible),
            Err(fault) => Err(broken_by(fault)),
        }
    }

    /// The oldest task of a worker that can go on goes on.
    fn go_on(&mut self, number: u32) -> Result<(), StepFault>
        ensures tries { Tries (Run number) (told_of self.old) (told_of self.new) result }
        ensures spent { IfErr result (λ e. e ≡ Spent → IsSpentBy (told_of self.old) (Run number)) }
        ensures stranger { IfErr result (λ e. e ≡ Stranger → LeavesCluster self.old.workers.count (Run number)) }
        ensures events { self.new.events ≡ self.old.events }
        ensures count { self.new.workers.count ≡ self.old.workers.count }
    {
        if number == 1 {
            return Err(StepFault::NotPossible);
        }
        match self.workers.go_on(number, &mut self.marks) {
            Ok(true) => Ok(()),
            Ok(false) => Err(StepFault::NotPossible),
            Err(fault) => Err(broken_by(fault)),
        }
    }

    /// An event, but that it isn't counted.
    pub(crate) fn go(&mut self, event: &Event) -> Result<(), StepFault>
        ensures tries { Tries event.now (told_of self.old) (told_of self.new) result }
        ensures spent { IfErr result (λ e. e ≡ Spent → IsSpentBy (told_of self.old) event.now) }
        ensures stranger { IfErr result (λ e. e ≡ Stranger → LeavesCluster self.old.workers.count event.now) }
        ensures events { self.new.events ≡ self.old.events }
        ensures count { self.new.workers.count ≡ self.old.workers.count }
    {
        match event {
            Event::Emit(from, to) => self.emit(*from, *to),
            Event::Deliver(from, to) => self.arrive(*from, *to),
            Event::Run(number) => self.go_on(*number),
        }
    }
}

/// An event of the workers or the links. `NotPossible` and `Limit` leave the world as it was, `Limit` exactly where the
/// record has 1,000,000 marks or the world made 10,000,000 events; after another fault the world is used no more.
/// `Spent` comes only where the event is a worker's step that would have to raise a number of it above the greatest, and
/// `Stranger` only where the event's message goes to a process that the cluster doesn't have.
pub fn outside_step(outside: &mut Outside, event: &Event) -> Result<(), StepFault>
    ensures steps { Steps event.now (told_of outside.old) (told_of outside.new) result }
    ensures spent { IfErr result (λ e. e ≡ Spent → CanHappen (told_of outside.old) event.now × IsSpentBy (told_of outside.old) event.now) }
    ensures stranger { IfErr result (λ e. e ≡ Stranger → CanHappen (told_of outside.old) event.now × LeavesCluster outside.old.workers.count event.now) }
    ensures count { outside.new.workers.count ≡ outside.old.workers.count }
{
    if outside.is_full() {
        return Err(StepFault::Limit);
    }
    match outside.go(event) {
        Ok(()) => {}
        Err(fault) => return Err(fault),
    }
    outside.events += 1;
    Ok(())
}
