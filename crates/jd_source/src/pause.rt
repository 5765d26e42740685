//! Pauses, by the seconds that were asked for.
ghost use Rattle.std.specs.Prelude.{◌≡◌, ℕ, Option, None, Some};
ghost use Rattle.jd_source.specs.Counts.{Pauses};

use std::rt::Clock;
use std::thread;
use std::time::Duration;

/// Something that lets time pass. It can't fail.
pub trait Pause {
    /// The seconds that were asked for so far, up to `u64::MAX`, where they are told.
    ghost paused: { Self → Option ℕ };

    /// Returns once so many seconds have passed, as far as it lets time pass at all.
    fn pause(&mut self, seconds: u64)
        ensures told { Pauses (paused self.old) (paused self.new) seconds };
}

/// No time passes, and nothing is told.
#[derive(Debug, Drop)]
pub struct NoPause;

/// No time passes; the seconds that were asked for are told.
#[derive(Debug, Drop)]
pub struct MemPause {
    seconds: u64,
}

/// The host's time passes. It tells nothing and is trusted.
#[derive(Drop)]
pub struct StdPause<R> {
    rt: R,
}

impl Pause for NoPause {
    ghost paused = { λ _. None };

    fn pause(&mut self, _: u64) {}
}

impl MemPause {
    /// No second was asked for yet.
    pub fn new() -> MemPause
        ensures { ⟦<MemPause as Pause>⟧.paused result ≡ Some 0 }
    {
        MemPause { seconds: 0 }
    }

    /// The seconds that were asked for so far, up to `u64::MAX`.
    pub fn seconds(&self) -> u64
        ensures { ⟦<MemPause as Pause>⟧.paused self.now ≡ Some result }
    {
        self.seconds
    }
}

impl Pause for MemPause {
    ghost paused = { λ p. Some p.seconds };

    fn pause(&mut self, seconds: u64) {
        self.seconds = self.seconds.saturating_add(seconds);
    }
}

impl<R: Clock> StdPause<R> {
    /// Pauses by the clock of `rt`.
    pub fn new(rt: R) -> StdPause<R> {
        StdPause { rt }
    }
}

impl<R: Clock> Pause for StdPause<R> {
    ghost paused = { λ _. None };

    fn pause(&mut self, seconds: u64) {
        thread::sleep(&self.rt, Duration::from_secs(seconds));
    }
}
