//! Sources and sinks in memory, which tell their bytes and fail at the calls of a list.
ghost use Rattle.std.specs.Prelude.{◌≡◌, ◌≤◌, ◌+◌, ◌-◌, [], None, true, false, MatchBool, IfSome, OnOk, OnErr, ◌++◌, ◌∷◌, Some, length, drop, take, min, slice_get, string_bytes};
ghost use Rattle.std.specs.Option.{option_copied};
ghost use Rattle.jd_source.specs.Counts.{Rose};
ghost use Rattle.jd_source.specs.Content.{content_of};
ghost use Rattle.jd_source.specs.Memory.{file_pairs, bytes_at, begun_bytes, texts_of};

use crate::traits::{Failed, LinkSink, Opener, Sink, Source};
use std::alloc::{AllocError, Global};

/// A file of a `MemSource`.
#[derive(Drop)]
pub struct MemFile {
    pub name: String,
    pub bytes: Vec<u8>,
}

/// Named files in memory. Its calls of `begin` and `read` are numbered from 1, and those of a list fail.
#[derive(Drop)]
pub struct MemSource {
    alloc: Global,
    files: Vec<MemFile>,
    begun: Option<usize>,
    at: usize,
    asked: Vec<String>,
    failing: Vec<u64>,
    calls: u64,
    faults: u64,
    ends: u64,
}

/// The bytes that were written. Its calls of `write` are numbered from 1, and those of a list fail.
#[derive(Drop)]
pub struct MemSink {
    bytes: Vec<u8>,
    failing: Vec<u64>,
    calls: u64,
    faults: u64,
    closed: bool,
}

impl MemSource {
    /// The files, of which none is begun. The calls whose numbers are in `failing` will fail.
    pub fn new(alloc: Global, files: Vec<MemFile>, failing: Vec<u64>) -> MemSource
        ensures files { ⟦<MemSource as Source>⟧.files result ≡ Some (file_pairs files.items) }
        ensures left { ⟦<MemSource as Source>⟧.left result ≡ Some [] }
        ensures asked { ⟦<MemSource as Source>⟧.asked result ≡ Some [] }
        ensures faults { ⟦<MemSource as Source>⟧.faults result ≡ 0 }
        ensures ends { ⟦<MemSource as Source>⟧.ends result ≡ 0 }
    {
        MemSource {
            alloc,
            files,
            begun: None,
            at: 0,
            asked: Vec::new(alloc),
            failing,
            calls: 0,
            faults: 0,
            ends: 0,
        }
    }

    /// How many calls have failed.
    pub fn faults(&self) -> u64
        ensures { result ≡ ⟦<MemSource as Source>⟧.faults self.now }
    {
        self.faults
    }

    fn add_question(&mut self, name: &str) -> Result<(), AllocError>
        ensures asked { OnOk result (texts_of self.new.asked.items ≡ texts_of self.old.asked.items ++ name.now ∷ []) }
        ensures same { OnErr result (self.new.asked.items ≡ self.old.asked.items) }
        ensures files { self.new.files.items ≡ self.old.files.items }
        ensures faults { self.new.faults ≡ self.old.faults }
        ensures ends { self.new.ends ≡ self.old.ends }
    {
        let text = String::from_str(self.alloc, name)?;
        self.asked.push(text)?;
        Ok(())
    }
}

impl MemSink {
    /// No bytes yet. The calls whose numbers are in `failing` will fail.
    pub fn new(alloc: Global, failing: Vec<u64>) -> MemSink
        ensures written { ⟦<MemSink as Sink>⟧.written result ≡ Some [] }
        ensures faults { ⟦<MemSink as Sink>⟧.faults result ≡ 0 }
        ensures open { result.closed ≡ false }
    {
        MemSink {
            bytes: Vec::new(alloc),
            failing,
            calls: 0,
            faults: 0,
            closed: false,
        }
    }

    /// Whether `close` was called.
    pub fn is_closed(&self) -> bool
        ensures { result ≡ self.now.closed }
    {
        self.closed
    }

    /// What was written.
    pub fn bytes(&self) -> &[u8]
        ensures { ⟦<MemSink as Sink>⟧.written self.now ≡ Some result.now }
    {
        self.bytes.as_slice()
    }

    /// How many calls have failed.
    pub fn faults(&self) -> u64
        ensures { result ≡ ⟦<MemSink as Sink>⟧.faults self.now }
    {
        self.faults
    }
}

// Counts a call, and a fault where its number is in the list.
fn call_fails(calls: &mut u64, faults: &mut u64, failing: &[u64]) -> bool
    ensures { MatchBool result (Rose faults.old faults.new × (faults.old ≤ faults.new)) (faults.new ≡ faults.old) }
{
    *calls = calls.saturating_add(1);
    if failing.contains(calls) {
        *faults = faults.saturating_add(1);
        return true;
    }
    false
}

fn place_of(files: &[MemFile], name: &str) -> Option<usize>
    ensures { IfSome result (λ k. content_of (file_pairs files.now) name.now ≡ Some (bytes_at files.now k)) }
{
    for (i, file) in files.iter().enumerate() {
        if file.name.as_str() == name {
            return Some(i);
        }
    }
    None
}

fn file_at(files: &[MemFile], place: usize) -> Option<&MemFile>
    ensures { option_copied result ≡ slice_get files.now place }
{
    files.get(place)
}

fn rest_from(bytes: &[u8], at: usize) -> &[u8]
    ensures { result.now ≡ drop at bytes.now }
{
    if at < bytes.len() { &bytes[at..] } else { &[] }
}

fn bytes_of(files: &[MemFile], place: usize) -> &[u8]
    ensures { result.now ≡ bytes_at files.now place }
{
    match file_at(files, place) {
        Some(file) => file.bytes.as_slice(),
        None => &[],
    }
}

fn begun_file(files: &[MemFile], begun: Option<usize>) -> &[u8]
    ensures { result.now ≡ begun_bytes files.now begun }
{
    match begun {
        Some(place) => bytes_of(files, place),
        None => &[],
    }
}

fn copy_front(rest: &[u8], buf: &mut [u8]) -> usize
    ensures count { result ≡ min (length rest.now) (length buf.old) }
    ensures front { take result buf.new ≡ take result rest.now }
{
    let count = rest.len().min(buf.len());
    buf[..count].copy_from_slice(&rest[..count]);
    count
}

fn copy_from(files: &[MemFile], begun: Option<usize>, at: usize, buf: &mut [u8]) -> usize
    ensures count { result ≡ min (length (begun_bytes files.now begun) - at) (length buf.old) }
    ensures front { take result buf.new ≡ take result (drop at (begun_bytes files.now begun)) }
{
    let rest = rest_from(begun_file(files, begun), at);
    copy_front(rest, buf)
}

impl Source for MemSource {
    ghost left = { λ s. Some (drop s.at (begun_bytes s.files.items s.begun)) };

    ghost files = { λ s. Some (file_pairs s.files.items) };

    ghost asked = { λ s. Some (texts_of s.asked.items) };

    ghost faults = { λ s. s.faults };

    ghost ends = { λ s. s.ends };

    fn read(&mut self, buf: &mut [u8]) -> Result<usize, Failed> {
        if call_fails(&mut self.calls, &mut self.faults, &self.failing) {
            return Err(Failed);
        }
        let count = copy_from(&self.files, self.begun, self.at, buf);
        if count == 0 {
            self.ends = self.ends.saturating_add(1);
        } else {
            self.at += count;
        }
        Ok(count)
    }
}

impl Opener for MemSource {
    fn begin(&mut self, name: &str) -> Result<(), Failed> {
        if self.add_question(name).is_err() {
            self.faults = self.faults.saturating_add(1);
            return Err(Failed);
        }
        if call_fails(&mut self.calls, &mut self.faults, &self.failing) {
            return Err(Failed);
        }
        match place_of(&self.files, name) {
            Some(place) => {
                self.begun = Some(place);
                self.at = 0;
                Ok(())
            }
            None => {
                self.faults = self.faults.saturating_add(1);
                Err(Failed)
            }
        }
    }
}

impl Sink for MemSink {
    ghost written = { λ s. Some s.bytes.items };

    ghost faults = { λ s. s.faults };

    fn write(&mut self, piece: &[u8]) -> Result<usize, Failed> {
        if call_fails(&mut self.calls, &mut self.faults, &self.failing) {
            return Err(Failed);
        }
        if self.bytes.extend_from_slice(piece).is_err() {
            self.faults = self.faults.saturating_add(1);
            return Err(Failed);
        }
        Ok(piece.len())
    }
}

impl LinkSink for MemSink {
    fn close(&mut self)
        ensures written { ⟦<MemSink as Sink>⟧.written self.new ≡ ⟦<MemSink as Sink>⟧.written self.old }
        ensures faults { ⟦<MemSink as Sink>⟧.faults self.new ≡ ⟦<MemSink as Sink>⟧.faults self.old }
        ensures closed { self.new.closed ≡ true }
    {
        self.closed = true;
    }
}
