//! A fabric over lists of messages.
ghost use Rattle.std.specs.Prelude.{◌≡◌, IfOk, None, Some};
ghost use Rattle.std.specs.Option.{ForSome};

use crate::fabric::{Arrival, Fabric, FabricFault};
use crate::outside::Outside;
use crate::step::MAX_MARKS;
use crate::step_fault::StepFault;
use jd_model::{Mark, Start};
use jd_task::Msg;
use jd_value::OutOfMemory;
use sqlite_items::Items;
use std::alloc::Global;

/// A fabric in one process, whose links are lists of messages. It tells its world, and takes the first possible event
/// that it finds.
///
/// It fails where a message goes to a process that the cluster doesn't have, and where a number of a worker would have
/// to rise above the greatest of 64 bits.
#[derive(Drop)]
pub struct ListFabric {
    alloc: Global,
    outside: Outside,
    begun: Option<Start>,
    faults: u64,
    limits: u64,
    ghost counted: { ForSome begun (λ start. outside.workers.count ≡ start.workers) },
}

/// The same start once more.
fn copy_start(alloc: Global, start: &Start) -> Result<Start, OutOfMemory>
    ensures { IfOk result (λ copy. copy ≡ start.now) }
{
    let mut losses = Items::new(alloc);
    for loss in start.losses.as_slice() {
        losses.push(*loss)?;
    }
    Ok(Start {
        workers: start.workers,
        seed: start.seed,
        losses,
    })
}

impl ListFabric {
    /// A fabric that isn't begun.
    pub fn new(alloc: Global) -> ListFabric
        ensures begun { result.begun ≡ None }
        ensures faults { result.faults ≡ 0 }
        ensures limits { result.limits ≡ 0 }
    {
        ListFabric {
            alloc,
            outside: Outside::new(alloc, 0),
            begun: None,
            faults: 0,
            limits: 0,
        }
    }
}

impl Fabric for ListFabric {
    ghost use Rattle.jd_world.specs.Outside.{told_of};

    ghost told = { λ f. Some (told_of f.outside) };

    ghost begun = { λ f. f.begun };

    ghost faults = { λ f. f.faults };

    ghost limits = { λ f. f.limits };

    fn begin(&mut self, start: &Start) -> Result<(), FabricFault> {
        if start.workers == u32::MAX {
            self.faults = self.faults.saturating_add(1);
            return Err(FabricFault::Failed);
        }
        let copy = match copy_start(self.alloc, start) {
            Ok(copy) => copy,
            Err(_) => return Err(FabricFault::OutOfMemory),
        };
        self.outside = Outside::new(self.alloc, start.workers);
        self.begun = Some(copy);
        Ok(())
    }

    fn send(&mut self, to: u32, msg: Msg) -> Result<(), FabricFault> {
        match self.outside.workers.send(1, to, msg) {
            Ok(()) => Ok(()),
            Err(_) => Err(FabricFault::OutOfMemory),
        }
    }

    fn receive(&mut self) -> Result<Arrival, FabricFault> {
        match self.outside.receive() {
            Ok(arrival) => Ok(arrival),
            Err(StepFault::OutOfMemory) => Err(FabricFault::OutOfMemory),
            Err(StepFault::Limit) => {
                self.limits = self.limits.saturating_add(1);
                Err(FabricFault::Limit)
            }
            Err(StepFault::NotPossible | StepFault::Stranger | StepFault::Spent) => {
                self.faults = self.faults.saturating_add(1);
                Err(FabricFault::Failed)
            }
        }
    }

    fn tell(&mut self, mark: Mark) -> Result<(), FabricFault> {
        if self.outside.marks.len() >= MAX_MARKS {
            self.limits = self.limits.saturating_add(1);
            return Err(FabricFault::Limit);
        }
        match self.outside.marks.push(mark) {
            Ok(()) => Ok(()),
            Err(_) => Err(FabricFault::OutOfMemory),
        }
    }
}
