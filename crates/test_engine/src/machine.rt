//! What no contract says: that marks with enough memory are taken. The runs are those of small scripts.
use crate::building::{ASKED, CALLED, MAIN, cluster, program};
use jd_model::{Effect, Ending, Mark};
use jd_plain::{NotTaken, Plain};
use jd_value::{Ask, Fault};
use std::alloc::Global;
use std::test::Fail;

/// A mark by a letter, with its row: main runs, prints, has its answer back, and has it from what was fetched; the
/// called task starts, runs, and starts elsewhere; and its process answers main's first request and its second.
fn mark_of(letter: u8) -> (Mark, u8) {
    let (effect, by, row) = match letter {
        b'r' => (Effect::Ran(MAIN), 1, 1),
        b'p' => (Effect::Printed, 1, 13),
        b'b' => (Effect::Returned(MAIN), 1, 4),
        b'l' => (Effect::Local(MAIN), 1, 5),
        b's' => (Effect::Started(CALLED), 2, 2),
        b'c' => (Effect::Ran(CALLED), 2, 1),
        b'e' => (Effect::Started(CALLED), 1, 2),
        b't' => (Effect::Took(ASKED), 2, 3),
        _ => (Effect::Took(Ask { number: 2, ..ASKED }), 2, 3),
    };
    (Mark { effect, by }, row)
}

fn agrees(plain: &mut Plain, letter: u8, refused: bool) -> bool {
    let (mark, row) = mark_of(letter);
    match plain.take(&mark) {
        Ok(()) => !refused,
        Err(NotTaken::NotLegal { clause }) => refused && clause == row,
        Err(NotTaken::OutOfMemory) => false,
    }
}

/// Whether each of these marks is taken in its turn, but those behind a `!`, which are refused with their rows.
fn follows(plain: &mut Plain, marks: &[u8]) -> bool {
    let mut refused = false;
    for letter in marks {
        if *letter == b'!' {
            refused = true;
        } else if agrees(plain, *letter, refused) {
            refused = false;
        } else {
            return false;
        }
    }
    true
}

/// The machine at the beginning of a run of the script with two workers.
fn machine(alloc: Global, text: &str) -> Result<Plain, Fail> {
    let program = program(alloc, text)?;
    let start = cluster(alloc, 2);
    let plain = Plain::start(alloc, &program, &start);
    drop(start);
    drop(program);
    Ok(plain?)
}

/// How main stands.
#[derive(Clone, Copy, PartialEq)]
enum Stands {
    GoesOn,
    Stopped,
    /// It has ended with the fault of a division on process 2.
    RemoteDivision,
    /// It has ended with a fault of its own argument.
    Argument,
    Otherwise,
}

fn standing(plain: &Plain) -> Stands {
    match plain.ended() {
        None if !plain.stopped() => Stands::GoesOn,
        Some(Ending::Normal) if plain.stopped() => Stands::Stopped,
        Some(Ending::Fault(Fault::Argument)) => Stands::Argument,
        Some(Ending::Fault(Fault::Remote(2, fault))) if matches!(fault.get(), Fault::Divide) => {
            Stands::RemoteDivision
        }
        _ => Stands::Otherwise,
    }
}

/// A script with the marks that its run takes, the lines that it has then, and how main stands.
#[derive(Drop)]
struct Row {
    script: &'static str,
    marks: &'static [u8],
    lines: &'static [&'static [u8]],
    stands: Stands,
}

const SUM: &[&[u8]] = &[b"-9223372036854775808"];

const ROWS: [Row; 5] = [
    // A sum wraps.
    Row {
        script: "println(typemax(Int) + 1)\n",
        marks: b"!prp!p",
        lines: SUM,
        stands: Stands::GoesOn,
    },
    Row {
        script: "println(typemax(Int) + 1)\n",
        marks: b"rpr!r",
        lines: SUM,
        stands: Stands::Stopped,
    },
    // The outcome of a call is fetched from its owner, and then at home.
    Row {
        script: "f = remotecall(x -> 42, 2, 0)\nx = fetch(f)\nprintln(x)\nx = fetch(f)\nprintln(x)\n",
        marks: b"!trr!r!c!t!l!esc!s!e!btbrpr!u!p!blrpr",
        lines: &[b"42", b"42"],
        stands: Stands::Stopped,
    },
    // The fault of a call reaches main with its process.
    Row {
        script: "f = remotecall(x -> div(1, 0), 2, 0)\nx = fetch(f)\n",
        marks: b"rscrtbr",
        lines: &[],
        stands: Stands::RemoteDivision,
    },
    // A process that there is not ends main.
    Row {
        script: "f = remotecall(x -> 42, 4, 0)\n",
        marks: b"rr",
        lines: &[],
        stands: Stands::Argument,
    },
];

fn has_lines(plain: &Plain, lines: &[&[u8]]) -> bool {
    if plain.lines().len() != lines.len() {
        return false;
    }
    for (line, text) in plain.lines().iter().zip(lines) {
        if line.as_bytes() != *text {
            return false;
        }
    }
    true
}

fn is_row(plain: &mut Plain, row: &Row) -> bool {
    follows(plain, row.marks) && has_lines(plain, row.lines) && standing(plain) == row.stands
}

#[test]
fn marks_are_taken_in_their_turns(rt: HostRuntime) -> Result<(), Fail> {
    for (i, row) in ROWS.iter().enumerate() {
        let mut plain = machine(rt.alloc(), row.script)?;
        let agrees = is_row(&mut plain, row);
        drop(plain);
        assert!(&rt; agrees, "row {i}");
    }
    Ok(())
}
