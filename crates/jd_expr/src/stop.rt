//! Why an evaluation gave no value.
ghost use Rattle.std.specs.Prelude.{◌≡◌};
ghost use Rattle.jd_expr.specs.declared.stop.Stop.TheVariants.{OutOfMemory as Refused};

use jd_value::{Fault, OutOfMemory};
use std::alloc::AllocError;

/// Why an evaluation stopped.
#[derive(Drop)]
pub enum Stop {
    /// The fault is what the expression means.
    Faulted(Fault),
    OutOfMemory,
}

impl From<OutOfMemory> for Stop {
    ghost from_gives = { λ _ e. e ≡ Refused };

    fn from(_: OutOfMemory) -> Self {
        Stop::OutOfMemory
    }
}

impl From<AllocError> for Stop {
    ghost from_gives = { λ _ e. e ≡ Refused };

    fn from(_: AllocError) -> Self {
        Stop::OutOfMemory
    }
}
