//! The host's files, and std's writers. They tell nothing of their bytes and are trusted.
ghost use Rattle.std.specs.Prelude.{None, IfSome, ◌≤◌, ◌<◌, length};
ghost use Rattle.std.specs.Io.{ReadsAtMost};

use crate::traits::{Failed, Opener, Sink, Source};
use std::fs;
use std::io::{ErrorKind, Read, Write};
use std::rt::Files;

// A call of the host that was interrupted is made again, this often at most.
const TURNS: u32 = 1000;

/// The host's files.
pub struct StdSource<R: Files> {
    rt: R,
    file: Option<R::File>,
    faults: u64,
    ends: u64,
}

impl<R: Files> StdSource<R> {
    /// The files that `rt` opens, of which none is begun.
    pub fn new(rt: R) -> StdSource<R> {
        StdSource {
            rt,
            file: None,
            faults: 0,
            ends: 0,
        }
    }
}

impl<R: Files + Drop> Drop for StdSource<R> {
    fn drop(self) {
        let StdSource {
            rt: _,
            file: _,
            faults: _,
            ends: _,
        } = self;
    }
}

fn read_some<F: Read>(file: &mut F, buf: &mut [u8]) -> Result<usize, Failed>
    ensures { ReadsAtMost result buf.new }
{
    for _ in 0..TURNS {
        match file.read(buf) {
            Ok(count) => return Ok(count),
            Err(error) => {
                if error.kind() != ErrorKind::Interrupted {
                    return Err(Failed);
                }
            }
        }
    }
    Err(Failed)
}

impl<R: Files> Source for StdSource<R> {
    ghost left = { λ s. None };

    ghost files = { λ s. None };

    ghost asked = { λ s. None };

    ghost faults = { λ s. s.faults };

    ghost ends = { λ s. s.ends };

    fn read(&mut self, buf: &mut [u8]) -> Result<usize, Failed> {
        let some = match &mut self.file {
            Some(file) => read_some(file, buf),
            None => Err(Failed),
        };
        match some {
            Ok(count) => {
                if count == 0 {
                    self.ends = self.ends.saturating_add(1);
                }
                Ok(count)
            }
            Err(_) => {
                self.faults = self.faults.saturating_add(1);
                Err(Failed)
            }
        }
    }
}

impl<R: Files> Opener for StdSource<R> {
    fn begin(&mut self, name: &str) -> Result<(), Failed> {
        match fs::open(&self.rt, name) {
            Ok(file) => {
                self.file = Some(file);
                Ok(())
            }
            Err(_) => {
                self.faults = self.faults.saturating_add(1);
                Err(Failed)
            }
        }
    }
}

/// A writer of std, each of whose writes has reached the system as it answers.
#[derive(Drop)]
pub struct StdSink<W: Write> {
    writer: W,
    faults: u64,
}

impl<W: Write> StdSink<W> {
    /// Writes to `writer`.
    pub fn new(writer: W) -> StdSink<W> {
        StdSink { writer, faults: 0 }
    }
}

fn write_some<W: Write>(writer: &mut W, piece: &[u8]) -> Option<usize>
    ensures { IfSome result (λ n. (n ≤ length piece.now) × (0 < length piece.now → 0 < n)) }
{
    for _ in 0..TURNS {
        match writer.write(piece) {
            Ok(count) => {
                if count > 0 || piece.is_empty() {
                    return Some(count);
                }
            }
            Err(error) => {
                if error.kind() != ErrorKind::Interrupted {
                    return None;
                }
            }
        }
    }
    None
}

fn is_flushed<W: Write>(writer: &mut W) -> bool {
    for _ in 0..TURNS {
        match writer.flush() {
            Ok(()) => return true,
            Err(error) => {
                if error.kind() != ErrorKind::Interrupted {
                    return false;
                }
            }
        }
    }
    false
}

impl<W: Write> Sink for StdSink<W> {
    ghost written = { λ s. None };

    ghost faults = { λ s. s.faults };

    fn write(&mut self, piece: &[u8]) -> Result<usize, Failed> {
        if let Some(count) = write_some(&mut self.writer, piece) {
            if is_flushed(&mut self.writer) {
                return Ok(count);
            }
        }
        self.faults = self.faults.saturating_add(1);
        Err(Failed)
    }
}
