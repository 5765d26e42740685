//! Runs the scripts of the file `scripts`, each over objects in memory, and prints what each wrote and how it ended.
//!
//! A line `$ WORDS`, or `$` alone for no words, begins a script, which the words call FILE; the lines behind it are the
//! script. What goes to standard error is printed behind `! `.
use anyhow::{Error, anyhow};
use jd_engine::{Status, sim};
use jd_source::{MemFile, MemSink, MemSource, NoPause, Opener, StdSource, read_up_to};
use jd_world::ListFabric;
use std::alloc::Global;
use std::io::{self, Write};

/// A script with the words that run it.
#[derive(Drop)]
struct Row {
    words: Vec<String>,
    script: Vec<u8>,
}

/// How a row ended.
#[derive(Drop)]
struct Ran {
    out: MemSink,
    err: MemSink,
    status: Status,
}

const MAX_ROWS: usize = 1 << 20;

fn file(rt: &HostRuntime, alloc: Global) -> Result<Vec<u8>, Error> {
    let mut source = StdSource::new(rt);
    if source.begin("scripts").is_err() {
        return Err(anyhow!("no file `scripts`"));
    }
    match read_up_to(alloc, &mut source, MAX_ROWS) {
        Ok(bytes) => Ok(bytes),
        Err(_) => Err(anyhow!("the file `scripts` can't be read")),
    }
}

/// The words, each behind a blank.
fn words_of(alloc: Global, line: &str) -> Result<Vec<String>, Error> {
    let mut words = Vec::new(alloc);
    for word in line.split(' ').skip(1) {
        words.push(String::from_str(alloc, word)?)?;
    }
    Ok(words)
}

fn rows_of(alloc: Global, text: &str) -> Result<Vec<Row>, Error> {
    let mut rows: Vec<Row> = Vec::new(alloc);
    for line in text.lines() {
        if let Some(words) = line.strip_prefix("$") {
            rows.push(Row {
                words: words_of(alloc, words)?,
                script: Vec::new(alloc),
            })?;
        } else if let Some(row) = rows.last_mut() {
            row.script.extend_from_slice(line.as_bytes())?;
            row.script.push(b'\n')?;
        }
    }
    Ok(rows)
}

fn run(alloc: Global, row: Row) -> Result<Ran, Error> {
    let mut files = Vec::new(alloc);
    files.push(MemFile {
        name: String::from_str(alloc, "FILE")?,
        bytes: row.script,
    })?;
    let mut script = MemSource::new(alloc, files, Vec::new(alloc));
    let mut out = MemSink::new(alloc, Vec::new(alloc));
    let mut err = MemSink::new(alloc, Vec::new(alloc));
    let mut fabric = ListFabric::new(alloc);
    let status = sim(
        alloc,
        row.words.as_slice(),
        &mut script,
        &mut out,
        &mut err,
        &mut fabric,
        &mut NoPause,
    );
    Ok(Ran { out, err, status })
}

fn print(rt: &HostRuntime, ran: &Ran) -> Result<(), Error> {
    let mut writer = io::writer(rt);
    writer.write_all(ran.out.bytes())?;
    if !ran.err.bytes().is_empty() {
        writer.write_all(b"! ")?;
        writer.write_all(ran.err.bytes())?;
    }
    writer.flush()?;
    println!(rt; "status {}", ran.status as u8)?;
    Ok(())
}

pub fn run_all(rt: &HostRuntime) -> Result<(), Error> {
    let alloc = rt.alloc();
    let bytes = file(rt, alloc)?;
    let text = str::from_utf8(bytes.as_slice())?;
    for row in rows_of(alloc, text)? {
        print(rt, &run(alloc, row)?)?;
    }
    Ok(())
}
