//! Texts in double quotes.
ghost use Rattle.std.specs.Prelude.{◌≡◌, ◌++◌, OnOk};
ghost use Rattle.jd_value.specs.Quoted.{escaped, quoted};

use crate::mark::{Mark, push_mark};
use crate::memory::OutOfMemory;
use crate::txt::Txt;

/// Adds a byte of a text, with a `\` before it where quotes want one.
fn push_escaped(byte: u8, out: &mut Txt) -> Result<(), OutOfMemory>
    ensures { OnOk result (out.new ≡ out.old ++ escaped byte) }
{
    match byte {
        b'"' => push_mark(Mark::EscapedQuote, out),
        b'\\' => push_mark(Mark::EscapedBackslash, out),
        b'\n' => push_mark(Mark::EscapedNewline, out),
        b'\t' => push_mark(Mark::EscapedTab, out),
        b'$' => push_mark(Mark::EscapedDollar, out),
        _ => out.push_byte(byte),
    }
}

/// Adds the text in double quotes.
pub(crate) fn push_quoted(text: &Txt, out: &mut Txt) -> Result<(), OutOfMemory>
    ensures { OnOk result (out.new ≡ out.old ++ quoted text.now) }
{
    push_mark(Mark::Quote, out)?;
    for byte in text.as_bytes() {
        push_escaped(*byte, out)?;
    }
    push_mark(Mark::Quote, out)
}
