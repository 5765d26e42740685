//! Sources and sinks, by what they tell of their bytes and by their counts of faults.
ghost use Rattle.std.specs.Prelude.{◌≡◌, ◌<◌, ℕ, List, Option, IfOk, OnOk, length};
ghost use Rattle.std.specs.Io.{ReadsAtMost, WritesAtMost};
ghost use Rattle.std.specs.Io.KnownBytes.{ReadConsumes, WriteAppends};
ghost use Rattle.jd_source.specs.Counts.{HasCause, EndsOnly};
ghost use Rattle.jd_source.specs.Content.{Opens, Asks};

/// The object couldn't do what was asked, and has counted it.
#[derive(Clone, Copy, Debug, PartialEq, Eq)]
pub struct Failed;

/// Bytes that come one piece after the other.
///
/// A source may tell its bytes, files and questions to contracts, or none of them. Its counts stop at `u64::MAX`.
pub trait Source {
    /// The bytes that are still to come, where they are told.
    ghost left: { Self → Option (List ℕ) };

    /// The names that can be begun, each with its bytes, where they are told. No call changes them.
    ghost files: { Self → Option (List (List ℕ × List ℕ)) };

    /// The names that were asked for so far, the first one first, where they are told.
    ghost asked: { Self → Option (List (List ℕ)) };

    /// How many calls have failed.
    ghost faults: { Self → ℕ };

    /// How many reads have found the end.
    ghost ends: { Self → ℕ };

    /// Puts the first bytes that are left at the front of the buffer and answers how many these are: 0 only where
    /// none is left or the buffer is empty.
    fn read(&mut self, buf: &mut [u8]) -> Result<usize, Failed>
        ensures bound { ReadsAtMost result buf.new }
        ensures bytes { ReadConsumes (left self.old) (left self.new) result buf.new }
        ensures files { files self.new ≡ files self.old }
        ensures asked { asked self.new ≡ asked self.old }
        ensures cause { HasCause (faults self.old) (faults self.new) result }
        ensures end { EndsOnly (ends self.old) (ends self.new) result buf.new };
}

/// A source that goes to the front of the bytes under a name.
pub trait Opener: Source {
    /// Begins the bytes under a name. Where it fails, what is left to read is not known.
    fn begin(&mut self, name: &str) -> Result<(), Failed>
        ensures opens { OnOk result (Opens (Self.files self.old) name.now (Self.left self.new)) }
        ensures files { Self.files self.new ≡ Self.files self.old }
        ensures asked { Asks (Self.asked self.old) (Self.asked self.new) name.now result }
        ensures cause { HasCause (Self.faults self.old) (Self.faults self.new) result }
        ensures end { Self.ends self.new ≡ Self.ends self.old };
}

/// A place that takes bytes. Its count stops at `u64::MAX`.
pub trait Sink {
    /// The bytes that were taken so far, where they are told.
    ghost written: { Self → Option (List ℕ) };

    /// How many calls have failed.
    ghost faults: { Self → ℕ };

    /// Takes a front part of the piece, at least one byte of a piece that isn't empty, and answers how many bytes
    /// it took. Where it fails it took none.
    fn write(&mut self, piece: &[u8]) -> Result<usize, Failed>
        ensures bound { WritesAtMost result piece.now }
        ensures some { IfOk result (λ n. 0 < length piece.now → 0 < n) }
        ensures bytes { WriteAppends (written self.old) (written self.new) result piece.now }
        ensures cause { HasCause (faults self.old) (faults self.new) result };
}

/// A sink at the end of a link, which can say that nothing more comes.
pub trait LinkSink: Sink {
    /// Says that nothing more is written, so that the reader at the other end comes to its end. It can't fail, and a
    /// `write` after it still keeps the rule of `write`.
    fn close(&mut self)
        ensures written { Self.written self.new ≡ Self.written self.old }
        ensures faults { Self.faults self.new ≡ Self.faults self.old };
}
