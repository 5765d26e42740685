//! The program `jd`: it makes the host's objects and hands them to the top call.
#![tactic(auto)]

use jd_engine::{Ending, Status, report, sim};
use jd_source::{NoPause, StdSink, StdSource};
use jd_world::ListFabric;
use std::alloc::AllocError;
use std::process::ExitCode;
use std::{env, io};

/// The words behind the program's name: none where one isn't UTF-8, since no command has such a word.
fn words(rt: &HostRuntime) -> Result<Vec<String>, AllocError> {
    let mut words = Vec::new(rt.alloc());
    match env::args(rt) {
        Ok(mut args) => {
            let _program = args.next();
            for word in args {
                words.push(word)?;
            }
        }
        Err(error) => {
            if error.kind() == io::ErrorKind::OutOfMemory {
                return Err(AllocError);
            }
        }
    }
    Ok(words)
}

fn main(rt: HostRuntime) -> ExitCode {
    let alloc = rt.alloc();
    let mut err = StdSink::new(rt.stderr());
    let Ok(words) = words(&rt) else {
        report(&mut err, &Ending::OutOfMemory);
        return ExitCode::from(Status::OutOfMemory as u8);
    };
    let mut out = StdSink::new(io::writer(&rt));
    let mut script = StdSource::new(&rt);
    let mut fabric = ListFabric::new(alloc);
    let status = sim(
        alloc,
        words.as_slice(),
        &mut script,
        &mut out,
        &mut err,
        &mut fabric,
        &mut NoPause,
    );
    ExitCode::from(status as u8)
}
