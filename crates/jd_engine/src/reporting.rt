//! The line on standard error. It is written in pieces, so that it wants no memory.
ghost use Rattle.std.specs.Prelude.{◌≡◌, ◌≤◌, ◌++◌, ◌∷◌, [], OnOk, OnErr, codes, decimal};
ghost use Rattle.std.specs.Io.KnownBytes.{Appends};
ghost use Rattle.jd_source.specs.Counts.{HasCause};
ghost use Rattle.jd_source.specs.Content.{AppendsFront};
ghost use Rattle.jd_engine.specs.Endings.{line_of, refusal_line, Reports};

use crate::status::Ending;
use itoa::Buffer;
use jd_source::{Failed, Sink, write_whole};
use jd_syntax::ParseKind;

fn two<E: Sink>(err: &mut E, a: &[u8], b: &[u8]) -> Result<(), Failed>
    ensures ok { OnOk result (Appends (E.written err.old) (E.written err.new) (a.now ++ b.now)) }
    ensures err { OnErr result (AppendsFront (E.written err.old) (E.written err.new) (a.now ++ b.now)) }
    ensures cause { HasCause (E.faults err.old) (E.faults err.new) result }
{
    write_whole(err, a)?;
    write_whole(err, b)
}

fn three<E: Sink>(err: &mut E, a: &[u8], b: &[u8], c: &[u8]) -> Result<(), Failed>
    ensures ok { OnOk result (Appends (E.written err.old) (E.written err.new) (a.now ++ b.now ++ c.now)) }
    ensures err { OnErr result (AppendsFront (E.written err.old) (E.written err.new) (a.now ++ b.now ++ c.now)) }
    ensures cause { HasCause (E.faults err.old) (E.faults err.new) result }
{
    two(err, a, b)?;
    write_whole(err, c)
}

fn five<E: Sink>(
    err: &mut E,
    a: &[u8],
    b: &[u8],
    c: &[u8],
    d: &[u8],
    e: &[u8],
) -> Result<(), Failed>
    ensures ok { OnOk result (Appends (E.written err.old) (E.written err.new) ((a.now ++ b.now ++ c.now) ++ (d.now ++ e.now))) }
    ensures err { OnErr result (AppendsFront (E.written err.old) (E.written err.new) ((a.now ++ b.now ++ c.now) ++ (d.now ++ e.now))) }
    ensures cause { HasCause (E.faults err.old) (E.faults err.new) result }
{
    three(err, a, b, c)?;
    two(err, d, e)
}

fn refusal<E: Sink>(err: &mut E, line: u32, kind: ParseKind) -> Result<(), Failed>
    ensures ok { OnOk result (Appends (E.written err.old) (E.written err.new) (refusal_line line kind)) }
    ensures err { OnErr result (AppendsFront (E.written err.old) (E.written err.new) (refusal_line line kind)) }
    ensures cause { HasCause (E.faults err.old) (E.faults err.new) result }
{
    let mut buffer = Buffer::new();
    let digits = buffer.format(line).as_bytes();
    five(
        err,
        b"REFUSED line ",
        digits,
        b": ",
        kind.name().as_bytes(),
        b"\n",
    )
}

fn line<E: Sink>(err: &mut E, ending: &Ending) -> Result<(), Failed>
    ensures ok { OnOk result (Appends (E.written err.old) (E.written err.new) (line_of ending.now)) }
    ensures err { OnErr result (AppendsFront (E.written err.old) (E.written err.new) (line_of ending.now)) }
    ensures cause { HasCause (E.faults err.old) (E.faults err.new) result }
{
    match ending {
        Ending::Done => Ok(()),
        Ending::ScriptError(text) => three(err, b"ERROR: ", text.as_bytes(), b"\n"),
        Ending::Usage => two(err, b"usage: jd sim, run or gen, see the manual", b"\n"),
        Ending::ScriptRefused { line, kind } => refusal(err, *line, *kind),
        Ending::ReadFault => two(err, b"READ FAULT", b"\n"),
        Ending::WriteFault => two(err, b"WRITE FAULT", b"\n"),
        Ending::FabricFault => two(err, b"FABRIC FAULT", b"\n"),
        Ending::Limit => two(err, b"LIMIT", b"\n"),
        Ending::Stalled => two(err, b"STALLED", b"\n"),
        Ending::OutOfMemory => two(err, b"OUT OF MEMORY", b"\n"),
    }
}

/// Writes the line of the ending, and nothing at `Done`. A sink that fails takes a front part of it.
pub fn report<E: Sink>(err: &mut E, ending: &Ending)
    ensures { Reports (E.written err.old) (E.written err.new) (E.faults err.old) (E.faults err.new) (line_of ending.now) }
{
    let _ = line(err, ending);
}
