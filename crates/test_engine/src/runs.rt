//! Whole runs over sources, sinks and fabrics that fail: which statuses come, and that a run is cut off between two lines.
//! Runs where nothing fails are those of `worked_scripts`.
ghost use Rattle.std.specs.Prelude.{◌≡◌, None, is_some, true};

use jd_engine::{Status, sim};
use jd_source::{MemFile, MemSink, MemSource, NoPause};
use jd_world::{Fabric, ListFabric};
use std::alloc::{AllocError, Global};
use std::test::Fail;
use test_fabrics::{FailingFabric, FullFabric};

/// The numbers of the calls that fail.
#[derive(Drop)]
struct Fails {
    script: &'static [u64],
    out: &'static [u64],
    err: &'static [u64],
}

const NOTHING: Fails = Fails {
    script: &[],
    out: &[],
    err: &[],
};

#[derive(Drop)]
struct Run {
    fails: Fails,
    script: &'static [u8],
    out: &'static [u8],
    err: &'static [u8],
    status: Status,
}

const FAILING: [Run; 2] = [
    // A sink fails at its second call, and the other at its first.
    Run {
        fails: Fails {
            script: &[],
            out: &[2],
            err: &[1],
        },
        script: b"println(1); println(2)",
        out: b"1\n",
        err: b"",
        status: Status::WriteFault,
    },
    // The source fails at its second call.
    Run {
        fails: Fails {
            script: &[2],
            out: &[],
            err: &[],
        },
        script: b"println(1)",
        out: b"",
        err: b"READ FAULT\n",
        status: Status::ReadFault,
    },
];

fn source(alloc: Global, script: &[u8], failing: &[u64]) -> Result<MemSource, AllocError> {
    let name = String::from_str(alloc, "FILE")?;
    let bytes = Vec::from_slice(alloc, script)?;
    let files = vec![in alloc; MemFile { name, bytes }]?;
    Ok(MemSource::new(alloc, files, Vec::from_slice(alloc, failing)?))
}

fn sink(alloc: Global, failing: &[u64]) -> Result<MemSink, AllocError> {
    Ok(MemSink::new(alloc, Vec::from_slice(alloc, failing)?))
}

fn words_of(alloc: Global, all: &[&str]) -> Result<Vec<String>, AllocError> {
    let mut words = Vec::new(alloc);
    for word in all {
        words.push(String::from_str(alloc, word)?)?;
    }
    Ok(words)
}

/// What a call wrote, and its status.
#[derive(Drop)]
struct Ran {
    out: MemSink,
    err: MemSink,
    status: Status,
}

/// The call over that fabric, with the failures of that row.
fn called<F: Fabric>(
    alloc: Global,
    words: &[String],
    row: &Run,
    fabric: &mut F,
) -> Result<Ran, AllocError>
    requires fresh { F.begun fabric.old ≡ None }
    requires tells { is_some (F.told fabric.old) ≡ true }
{
    let mut out = sink(alloc, row.fails.out)?;
    let mut err = sink(alloc, row.fails.err)?;
    let mut script = source(alloc, row.script, row.fails.script)?;
    let status = sim(
        alloc,
        words,
        &mut script,
        &mut out,
        &mut err,
        fabric,
        &mut NoPause,
    );
    drop(script);
    Ok(Ran { out, err, status })
}

fn is_row(ran: &Ran, row: &Run) -> bool {
    ran.out.bytes() == row.out && ran.err.bytes() == row.err && ran.status == row.status
}

/// Whether the call over that fabric is as the row says.
fn agrees<F: Fabric>(
    alloc: Global,
    words: &[&str],
    row: &Run,
    fabric: &mut F,
) -> Result<bool, AllocError>
    requires fresh { F.begun fabric.old ≡ None }
    requires tells { is_some (F.told fabric.old) ≡ true }
{
    let words = words_of(alloc, words)?;
    let ran = called(alloc, words.as_slice(), row, fabric);
    drop(words);
    let ran = ran?;
    let agrees = is_row(&ran, row);
    drop(ran);
    Ok(agrees)
}

fn agrees_over_lists(alloc: Global, words: &[&str], row: &Run) -> Result<bool, AllocError> {
    let mut fabric = ListFabric::new(alloc);
    let agrees = agrees(alloc, words, row, &mut fabric);
    drop(fabric);
    agrees
}

#[test]
fn a_failing_sink_or_source_ends_the_run(rt: HostRuntime) -> Result<(), Fail> {
    for (i, row) in FAILING.iter().enumerate() {
        let agrees = agrees_over_lists(rt.alloc(), &["sim", "FILE"], row)?;
        assert!(&rt; agrees, "row {i}");
    }
    Ok(())
}

const LIMIT: Run = Run {
    fails: NOTHING,
    script: b"println(1)",
    out: b"",
    err: b"LIMIT\n",
    status: Status::Limit,
};

#[test]
fn a_full_fabric_is_a_limit(rt: HostRuntime) -> Result<(), Fail> {
    let mut fabric = FullFabric::new();
    let agrees = agrees(rt.alloc(), &["sim", "-p", "1", "FILE"], &LIMIT, &mut fabric);
    drop(fabric);
    assert!(rt; agrees?);
    Ok(())
}

/// A call whose outcome is printed twice, where no call of the fabric fails.
const SQUARE_TWICE: Run = Run {
    fails: NOTHING,
    script: b"r = remotecall(x -> x * x, 2, 12); println(fetch(r)); println(fetch(r))",
    out: b"144\n144\n",
    err: b"",
    status: Status::Done,
};

/// What a run over a fabric whose call of some number fails came to.
#[derive(Clone, Copy, PartialEq)]
enum Cut {
    /// The fabric failed, behind so many bytes of lines.
    Off(usize),
    /// Main ended, and all lines were written.
    Ended,
    Wrong,
}

/// Whether these are the first of the lines, whole ones.
fn are_first(bytes: &[u8], lines: &[u8]) -> bool {
    lines.starts_with(bytes) && (bytes.is_empty() || bytes.ends_with(b"\n"))
}

fn cut_of(ran: &Ran) -> Cut {
    let bytes = ran.out.bytes();
    match ran.status {
        Status::Done if is_row(ran, &SQUARE_TWICE) => Cut::Ended,
        Status::FabricFault
            if are_first(bytes, SQUARE_TWICE.out)
                && ran.err.bytes() == b"FABRIC FAULT\n".as_slice() => { Cut::Off(bytes.len()) }
        _ => Cut::Wrong,
    }
}

fn run_failing(alloc: Global, words: &[String], failing: u64) -> Result<Cut, AllocError> {
    let mut fabric = FailingFabric::new(alloc, failing);
    let ran = called(alloc, words, &SQUARE_TWICE, &mut fabric);
    drop(fabric);
    let ran = ran?;
    let cut = cut_of(&ran);
    drop(ran);
    Ok(cut)
}

/// The number of the first call whose failure doesn't cut the run off. None where a run is wrong, or wrote less than one
/// that was cut off earlier.
fn first_whole(alloc: Global, words: &[String]) -> Result<Option<u64>, AllocError> {
    let mut before = 0;
    for failing in 1..100 {
        match run_failing(alloc, words, failing)? {
            Cut::Off(length) => {
                if length < before {
                    return Ok(None);
                }
                before = length;
            }
            Cut::Ended => return Ok(Some(failing)),
            Cut::Wrong => return Ok(None),
        }
    }
    Ok(None)
}

#[test]
fn a_fabric_that_fails_at_any_call_cuts_the_run_off(rt: HostRuntime) -> Result<(), Fail> {
    let alloc = rt.alloc();
    let words = words_of(alloc, &["sim", "-p", "1", "FILE"])?;
    let whole = first_whole(alloc, words.as_slice());
    drop(words);
    // The first call at least cuts it off.
    assert!(rt; whole?.is_some_and(|failing| failing > 1));
    Ok(())
}
