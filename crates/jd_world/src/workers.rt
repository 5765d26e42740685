//! The workers of the simulated cluster, by number.
ghost use Rattle.std.specs.Prelude.{◌+◌, ◌<◌, ◌^◌};
ghost use Rattle.jd_world.specs.Rows.{AreKeyed};

use crate::worker::Worker;
use std::alloc::Global;
use std::collections::BTreeMap;

#[derive(Drop)]
pub(crate) struct Workers {
    pub alloc: Global,
    pub count: u32,
    /// Those that something was sent to: the others are as they began.
    pub rows: BTreeMap<u32, Worker>,
    ghost numbered: { count + 1 < 2 ^ 32 },
    ghost keyed: { AreKeyed rows },
}
