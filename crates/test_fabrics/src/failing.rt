//! A fabric that fails at one call.
ghost use Rattle.std.specs.Prelude.{◌≡◌, ◌+◌, ◌≤◌, None, MatchBool, is_some, true};
ghost use Rattle.jd_source.specs.Counts.{Rose};

use jd_model::{Mark, Start};
use jd_task::Msg;
use jd_world::{Arrival, Fabric, FabricFault, ListFabric};
use std::alloc::Global;

/// A `ListFabric` whose calls are numbered from 1, over all methods, and the call of one number fails.
#[derive(Drop)]
pub struct FailingFabric {
    inner: ListFabric,
    failing: u64,
    calls: u64,
    faults: u64,
}

impl FailingFabric {
    /// A fabric that isn't begun, and will fail at the call of that number.
    pub fn new(alloc: Global, failing: u64) -> FailingFabric
        ensures begun { ⟦<FailingFabric as Fabric>⟧.begun result ≡ None }
        ensures tells { is_some (⟦<FailingFabric as Fabric>⟧.told result) ≡ true }
    {
        FailingFabric {
            inner: ListFabric::new(alloc),
            failing,
            calls: 0,
            faults: 0,
        }
    }

    /// Counts a call, and a fault where it is the one that fails.
    fn call_fails(&mut self) -> bool
        ensures inner { self.new.inner ≡ self.old.inner }
        ensures faults { MatchBool result (Rose self.old.faults self.new.faults × (self.old.faults ≤ self.new.faults)) (self.new.faults ≡ self.old.faults) }
    {
        self.calls = self.calls.saturating_add(1);
        if self.calls == self.failing {
            self.faults = self.faults.saturating_add(1);
            return true;
        }
        false
    }
}

impl Fabric for FailingFabric {
    ghost told = { λ f. ⟦<ListFabric as Fabric>⟧.told f.inner };

    ghost begun = { λ f. ⟦<ListFabric as Fabric>⟧.begun f.inner };

    ghost faults = { λ f. f.faults + ⟦<ListFabric as Fabric>⟧.faults f.inner };

    ghost limits = { λ f. ⟦<ListFabric as Fabric>⟧.limits f.inner };

    fn begin(&mut self, start: &Start) -> Result<(), FabricFault> {
        if self.call_fails() {
            return Err(FabricFault::Failed);
        }
        self.inner.begin(start)
    }

    fn send(&mut self, to: u32, msg: Msg) -> Result<(), FabricFault> {
        if self.call_fails() {
            return Err(FabricFault::Failed);
        }
        self.inner.send(to, msg)
    }

    fn receive(&mut self) -> Result<Arrival, FabricFault> {
        if self.call_fails() {
            return Err(FabricFault::Failed);
        }
        self.inner.receive()
    }

    fn tell(&mut self, mark: Mark) -> Result<(), FabricFault> {
        if self.call_fails() {
            return Err(FabricFault::Failed);
        }
        self.inner.tell(mark)
    }
}
