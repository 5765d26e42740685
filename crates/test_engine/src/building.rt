//! Programs from their scripts, clusters, and the numbers that the first call of a run has.
ghost use Rattle.std.specs.Prelude.{◌≡◌};

use jd_lower::lower;
use jd_model::Start;
use jd_syntax::parse;
use jd_task::TaskId;
use jd_value::{Ask, Program, RefId, Shared, Txt};
use sqlite_items::Items;
use std::alloc::Global;
use std::test::Fail;

pub const MAIN: TaskId = TaskId {
    process: 1,
    number: 0,
};

/// The first task that main calls.
pub const CALLED: TaskId = TaskId {
    process: 1,
    number: 1,
};

/// Main's first request.
pub const ASKED: Ask = Ask {
    process: 1,
    number: 1,
};

/// The future of main's first call, on process 2.
pub const FUTURE: RefId = RefId {
    maker: 1,
    number: 1,
    owner: 2,
};

/// Main prints what a call on process 2 comes to.
pub const FETCHED_SEVEN: &str = "f = remotecall(x -> 7, 2, 0)\nf = fetch(f)\nprintln(f)\n";

pub fn name(alloc: Global, bytes: &[u8]) -> Result<Shared<Txt>, Fail> {
    Ok(Shared::new(alloc, Txt::from_bytes(alloc, bytes)?)?)
}

pub fn program(alloc: Global, text: &str) -> Result<Program, Fail> {
    let Ok(script) = parse(alloc, text.as_bytes()) else {
        return Err(Fail::from("the text is no script"));
    };
    let program = lower(alloc, &script);
    drop(script);
    match program {
        Ok(program) => Ok(program),
        Err(_) => Err(Fail::from("the script has no program")),
    }
}

/// A cluster of so many workers, of which none is lost.
pub fn cluster(alloc: Global, workers: u32) -> Start
    ensures { result.workers ≡ workers }
{
    Start {
        workers,
        seed: 0,
        losses: Items::new(alloc),
    }
}
