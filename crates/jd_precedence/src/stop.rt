//! Why reading ends early.
ghost use Rattle.std.specs.Prelude.{◌≡◌, Err};
ghost use Rattle.jd_precedence.specs.declared.stop.Stop.TheVariants as reason;

use std::alloc::AllocError;

/// Why a token isn't read.
#[derive(Debug, Drop)]
pub enum Stop {
    /// It has no place there.
    Refused,
    OutOfMemory,
}

impl From<AllocError> for Stop {
    ghost use Rattle.std.specs.Prelude.{◌≡◌};
    ghost use Rattle.jd_precedence.specs.declared.stop.Stop.TheVariants.{OutOfMemory};

    ghost from_gives = { λ _ e. e ≡ OutOfMemory };

    fn from(_: AllocError) -> Stop {
        Stop::OutOfMemory
    }
}

/// Lets go of what was read, and stops.
pub fn stopped<T: Drop, U>(_read: T, stop: Stop) -> Result<U, Stop>
    ensures { result ≡ Err stop }
{
    Err(stop)
}

/// Lets go of what was read, and refuses.
pub fn refuse<T: Drop, U>(_read: T) -> Result<U, Stop>
    ensures { result ≡ Err reason.Refused }
{
    Err(Stop::Refused)
}
