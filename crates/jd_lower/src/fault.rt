//! Why a script has no program.
ghost use Rattle.std.specs.Prelude.{◌≡◌};
ghost use Rattle.jd_lower.specs.declared.fault.LowerFault.TheVariants.{OutOfMemory as Refused};

use jd_value::OutOfMemory;
use std::alloc::AllocError;

/// Why a script wasn't lowered.
#[derive(Clone, Copy, Debug, PartialEq, Eq)]
pub enum LowerFault {
    /// The program can't run the script yet.
    NotBuilt,
    OutOfMemory,
}

impl From<OutOfMemory> for LowerFault {
    ghost from_gives = { λ _ e. e ≡ Refused };

    fn from(_: OutOfMemory) -> Self {
        LowerFault::OutOfMemory
    }
}

impl From<AllocError> for LowerFault {
    ghost from_gives = { λ _ e. e ≡ Refused };

    fn from(_: AllocError) -> Self {
        LowerFault::OutOfMemory
    }
}
