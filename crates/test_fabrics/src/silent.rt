//! A fabric that tells nothing.
ghost use Rattle.std.specs.Prelude.{◌≡◌, None};

use jd_model::{Mark, Start};
use jd_task::Msg;
use jd_world::{Arrival, Fabric, FabricFault, ListFabric};
use std::alloc::Global;

/// A `ListFabric` that tells contracts neither its world nor its record.
#[derive(Drop)]
pub struct SilentFabric {
    inner: ListFabric,
}

impl SilentFabric {
    /// A fabric that isn't begun.
    pub fn new(alloc: Global) -> SilentFabric
        ensures begun { ⟦<SilentFabric as Fabric>⟧.begun result ≡ None }
        ensures silent { ⟦<SilentFabric as Fabric>⟧.told result ≡ None }
    {
        SilentFabric {
            inner: ListFabric::new(alloc),
        }
    }
}

impl Fabric for SilentFabric {
    ghost told = { λ _. None };

    ghost begun = { λ f. ⟦<ListFabric as Fabric>⟧.begun f.inner };

    ghost faults = { λ f. ⟦<ListFabric as Fabric>⟧.faults f.inner };

    ghost limits = { λ f. ⟦<ListFabric as Fabric>⟧.limits f.inner };

    fn begin(&mut self, start: &Start) -> Result<(), FabricFault> {
        self.inner.begin(start)
    }

    fn send(&mut self, to: u32, msg: Msg) -> Result<(), FabricFault> {
        self.inner.send(to, msg)
    }

    fn receive(&mut self) -> Result<Arrival, FabricFault> {
        self.inner.receive()
    }

    fn tell(&mut self, mark: Mark) -> Result<(), FabricFault> {
        self.inner.tell(mark)
    }
}
