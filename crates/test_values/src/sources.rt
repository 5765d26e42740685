//! What no contract says: that calls with enough memory succeed, and which listed calls fail.
use jd_source::{
    LinkSink, MemFile, MemPause, MemSink, MemSource, NoPause, Opener, Pause, ReadFault, Sink,
    Source, StdPause, read_up_to, write_whole,
};
use std::alloc::{AllocError, Global};
use std::test::Fail;

fn file(alloc: Global, name: &str, bytes: &[u8]) -> Result<MemFile, AllocError> {
    let name = String::from_str(alloc, name)?;
    let bytes = Vec::from_slice(alloc, bytes)?;
    Ok(MemFile { name, bytes })
}

fn files(alloc: Global) -> Result<Vec<MemFile>, AllocError> {
    let mut files = Vec::new(alloc);
    files.push(file(alloc, "first", b"one")?)?;
    files.push(file(alloc, "second", b"two and more")?)?;
    Ok(files)
}

fn source(alloc: Global, failing: &[u64]) -> Result<MemSource, AllocError> {
    let failing = Vec::from_slice(alloc, failing)?;
    Ok(MemSource::new(alloc, files(alloc)?, failing))
}

fn sink(alloc: Global, failing: &[u64]) -> Result<MemSink, AllocError> {
    Ok(MemSink::new(alloc, Vec::from_slice(alloc, failing)?))
}

/// Whether these bytes are read, where at most so many are asked for.
fn reads(alloc: Global, from: &mut MemSource, most: usize, bytes: &[u8]) -> bool {
    match read_up_to(alloc, from, most) {
        Ok(read) => read.as_slice() == bytes,
        Err(_) => false,
    }
}

#[test]
fn reads_a_file_to_its_end_or_the_limit(rt: HostRuntime) -> Result<(), Fail> {
    let alloc = rt.alloc();
    let mut from = source(alloc, &[])?;
    assert!(rt; from.begin("third").is_err());
    assert!(rt; from.begin("second").is_ok());
    assert!(rt; reads(alloc, &mut from, 7, b"two and"));
    assert!(rt; reads(alloc, &mut from, 100, b" more"));
    assert!(rt; from.faults() == 1);
    drop(from);
    Ok(())
}

#[test]
fn listed_reads_fail(rt: HostRuntime) -> Result<(), Fail> {
    let mut from = source(rt.alloc(), &[2])?;
    assert!(rt; from.begin("first").is_ok());
    let mut buf = [0u8; 8];
    assert!(rt; from.read(&mut buf).is_err());
    assert!(rt; from.read(&mut buf) == Ok(3));
    drop(from);
    Ok(())
}

#[test]
fn listed_writes_fail(rt: HostRuntime) -> Result<(), Fail> {
    let mut sink = sink(rt.alloc(), &[2])?;
    assert!(rt; write_whole(&mut sink, b"kept").is_ok());
    assert!(rt; write_whole(&mut sink, b"lost").is_err());
    assert!(rt; sink.write(b" on") == Ok(3));
    assert!(rt; sink.bytes() == b"kept on".as_slice());
    assert!(rt; sink.faults() == 1);
    drop(sink);
    Ok(())
}

fn has_failed(outcome: &Result<Vec<u8>, ReadFault>) -> bool {
    match outcome {
        Ok(_) => false,
        Err(fault) => *fault == ReadFault::Failed,
    }
}

#[test]
fn a_failed_read_is_told_from_want_of_memory(rt: HostRuntime) -> Result<(), Fail> {
    let alloc = rt.alloc();
    let mut from = source(alloc, &[1])?;
    let outcome = read_up_to(alloc, &mut from, 7);
    drop(from);
    assert!(rt; has_failed(&outcome));
    drop(outcome);
    Ok(())
}

#[test]
fn a_closed_link_goes_on(rt: HostRuntime) -> Result<(), Fail> {
    let mut link = sink(rt.alloc(), &[])?;
    assert!(rt; !link.is_closed());
    link.close();
    assert!(rt; link.is_closed());
    assert!(rt; write_whole(&mut link, b"late").is_ok());
    drop(link);
    Ok(())
}

#[test]
fn pauses_go_on(rt: HostRuntime) -> Result<(), Fail> {
    let mut told = MemPause::new();
    told.pause(3);
    told.pause(4);
    assert!(rt; told.seconds() == 7);
    NoPause.pause(3600);
    StdPause::new(rt).pause(0);
    Ok(())
}
