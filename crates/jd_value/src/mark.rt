//! The marks of printed forms: brackets, separators and what stands for a byte inside quotes.
ghost use Rattle.std.specs.Prelude.{◌≡◌, ◌++◌, OnOk};
ghost use Rattle.jd_value.specs.Words.{mark_text};

use crate::memory::OutOfMemory;
use crate::txt::Txt;

/// A mark of a printed form.
#[derive(Clone, Copy)]
pub enum Mark {
    Open,
    Close,
    CommaClose,
    OpenBracket,
    CloseBracket,
    Comma,
    Colon,
    Blank,
    NextRow,
    NextSlab,
    Quote,
    EscapedQuote,
    EscapedBackslash,
    EscapedNewline,
    EscapedTab,
    EscapedDollar,
}

impl Mark {
    /// The bytes of the mark.
    #[tactic(auto, unfolding(crate::specs::Words::mark_text))]
    pub fn text(self) -> &'static [u8]
        ensures { result.now ≡ mark_text self }
    {
        match self {
            Mark::Open => b"(",
            Mark::Close => b")",
            Mark::CommaClose => b",)",
            Mark::OpenBracket => b"[",
            Mark::CloseBracket => b"]",
            Mark::Comma => b", ",
            Mark::Colon => b":",
            Mark::Blank => b" ",
            Mark::NextRow => b"; ",
            Mark::NextSlab => b";;; ",
            Mark::Quote => b"\"",
            Mark::EscapedQuote => b"\\\"",
            Mark::EscapedBackslash => b"\\\\",
            Mark::EscapedNewline => b"\\n",
            Mark::EscapedTab => b"\\t",
            Mark::EscapedDollar => b"\\$",
        }
    }
}

pub(crate) fn push_mark(mark: Mark, out: &mut Txt) -> Result<(), OutOfMemory>
    ensures { OnOk result (out.new ≡ out.old ++ mark_text mark) }
{
    out.push_bytes(mark.text())
}
