//! Why tokens are no script.
ghost use Rattle.std.specs.Prelude.{ℕ, ◌≡◌};
ghost use Rattle.jd_reader.specs.Answers.{fault_from, refusal_at};

use jd_grammar::token::Token;
use jd_precedence::stop::Stop;
use jd_tree::kinds::is_wide;

/// Why a token is refused.
#[derive(Clone, Copy, Debug, PartialEq, Eq)]
pub enum Refusal {
    /// It has no place there, or the tokens end where they may not.
    Misplaced,
    /// More constructs would stand round it than may.
    TooDeep,
    /// It is a number of 2^63 or more where none may stand.
    TooLarge,
}

/// Why no script was read.
#[derive(Clone, Copy, Debug, PartialEq, Eq)]
pub enum Fault {
    /// The tokens before the place, counted from 0, may become a script, and with the one at the place they may not. The
    /// place behind the last token stands for the end.
    Refused { place: usize, refusal: Refusal },
    OutOfMemory,
}

/// The reason for a token that might be refused for another one: a number that is too large is named as such.
pub fn refusal_of(token: Token, other: Refusal) -> Refusal
    ensures { result ≡ refusal_at token.kind other }
{
    if is_wide(token.kind) {
        Refusal::TooLarge
    } else {
        other
    }
}

/// What ended the reading, at a place.
pub fn fault_of(stop: Stop, place: usize, refusal: Refusal) -> Fault
    ensures { result ≡ fault_from stop place refusal }
{
    match stop {
        Stop::Refused => Fault::Refused { place, refusal },
        Stop::OutOfMemory => Fault::OutOfMemory,
    }
}
