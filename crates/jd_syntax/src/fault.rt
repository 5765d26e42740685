//! Why there is no script.
ghost use Rattle.std.specs.Prelude.{◌≡◌, Some};
ghost use Rattle.jd_syntax.specs.Kinds.{kind_name};

use std::fmt;
use thiserror::Error;

/// Why a script is refused.
#[derive(Clone, Copy, Debug, PartialEq, Eq)]
pub enum ParseKind {
    /// The bytes are no UTF-8.
    Bytes = 1,
    /// No token begins there.
    Token = 2,
    /// With the token there what was read is no beginning of a script, or the script ends where it may not.
    Form = 3,
    /// A number of 2^63 or more, but 2^63 directly behind a `-`.
    WideNumber = 4,
    /// The script has more bytes than a script may have.
    TooLong = 5,
    /// Too many constructs stand round the token there.
    TooDeep = 6,
}

impl ParseKind {
    /// The name of the kind, as the line of a refusal has it.
    pub fn name(self) -> &'static str
        ensures { result.now ≡ kind_name self }
    {
        match self {
            ParseKind::Bytes => "Bytes",
            ParseKind::Token => "Token",
            ParseKind::Form => "Form",
            ParseKind::WideNumber => "WideNumber",
            ParseKind::TooLong => "TooLong",
            ParseKind::TooDeep => "TooDeep",
        }
    }
}

impl fmt::Display for ParseKind {
    ghost output = { λ kind. Some (kind_name kind) };

    fn fmt<W: fmt::Write>(&self, f: &mut fmt::Formatter<W>) -> fmt::Result {
        f.write_str(self.name())
    }
}

/// Why there is no script.
#[derive(Debug, Drop, PartialEq, Eq, Error)]
pub enum ParseFault {
    /// The line is counted from 1.
    #[error("line {line}: {kind}")]
    Refused { line: u32, kind: ParseKind },
    #[error("out of memory")]
    OutOfMemory,
}
