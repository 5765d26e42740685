//! A fabric whose limit is reached before it is begun.
ghost use Rattle.std.specs.Prelude.{◌≡◌, ◌≤◌, None, Some, is_some, true};
ghost use Rattle.jd_source.specs.Counts.{Rose};
ghost use Rattle.test_fabrics.specs.Full.{full_told};

use jd_model::{Mark, Start};
use jd_task::Msg;
use jd_world::{Arrival, Fabric, FabricFault};

/// It tells a world that has made its last event. Every call answers `Limit`, so it is never begun.
#[derive(Drop)]
pub struct FullFabric {
    start: Option<Start>,
    limits: u64,
}

impl FullFabric {
    /// No call has reached the limit yet.
    pub fn new() -> FullFabric
        ensures begun { ⟦<FullFabric as Fabric>⟧.begun result ≡ None }
        ensures tells { is_some (⟦<FullFabric as Fabric>⟧.told result) ≡ true }
    {
        FullFabric {
            start: None,
            limits: 0,
        }
    }

    fn limit(&mut self) -> FabricFault
        ensures fault { result ≡ FabricFault.Limit }
        ensures rose { Rose self.old.limits self.new.limits }
        ensures later { self.old.limits ≤ self.new.limits }
        ensures start { self.new.start ≡ self.old.start }
    {
        self.limits = self.limits.saturating_add(1);
        FabricFault::Limit
    }
}

impl Fabric for FullFabric {
    ghost told = { λ _. Some full_told };

    ghost begun = { λ f. f.start };

    ghost faults = { λ _. 0 };

    ghost limits = { λ f. f.limits };

    fn begin(&mut self, _: &Start) -> Result<(), FabricFault> {
        Err(self.limit())
    }

    fn send(&mut self, _: u32, _: Msg) -> Result<(), FabricFault> {
        Err(self.limit())
    }

    fn receive(&mut self) -> Result<Arrival, FabricFault> {
        Err(self.limit())
    }

    fn tell(&mut self, _: Mark) -> Result<(), FabricFault> {
        Err(self.limit())
    }
}
