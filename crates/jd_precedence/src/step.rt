//! Reads one token of an expression.
ghost use Rattle.std.specs.Prelude.{◌≡◌, ◌∷◌};
ghost use Rattle.jd_grammar.specs.Frames.{fixed, in_bracket, operator};
ghost use Rattle.jd_grammar.specs.Machine as machine;
ghost use Rattle.jd_tree.specs.Code.{plain_arguments, plain_bracket};
ghost use Rattle.jd_precedence.specs.State.{plain_frames, plain_now, plain_words, Steps};

use crate::brackets::bracket_step;
use crate::frames::{Fixed, Frame, Listing, Now, Words};
use crate::operands::want_step;
use crate::operators::have_step;
use crate::parts::{
    atoms_step, element_type_step, generator_in_step, generator_name_step, minus_step,
    place_begin_step, size_begin_step, type_end_step,
};
use crate::stack::Stack;
use crate::stop::{Stop, refuse};
use jd_grammar::token::Token;
use jd_tree::build::sign_of;
use jd_tree::measured::Bracket;
use std::alloc::Global;

/// Reads a token behind an operator in parentheses or brackets: it is an argument in a call alone.
fn behind_argument(
    alloc: Global,
    frames: &mut Stack<Frame>,
    listing: Listing,
    sign: Token,
    token: Token,
) -> Result<Now, Stop>
    ensures { let item = fixed (in_bracket (plain_bracket listing.bracket) listing.opens (plain_arguments listing.most)) in
        Steps (machine.words_step (operator sign) token (item ∷ plain_frames frames.old)) frames.new result }
{
    match &listing.bracket {
        Bracket::Called(_) => bracket_step(alloc, frames, listing, token, sign_of(sign)),
        Bracket::Grouped | Bracket::Itemed | Bracket::Indexed(_) => refuse(listing),
    }
}

/// Reads a token behind an operator that is an argument.
fn behind_operator(
    alloc: Global,
    frames: &mut Stack<Frame>,
    sign: Token,
    token: Token,
) -> Result<Now, Stop>
    ensures { Steps (machine.words_step (operator sign) token (plain_frames frames.old)) frames.new result }
{
    match frames.pop() {
        Some(Frame::Fixed(fixed)) => match fixed {
            Fixed::InBracket(listing) => behind_argument(alloc, frames, listing, sign, token),
            fixed => refuse(fixed),
        },
        Some(Frame::OpenEnd(head)) => refuse(head),
        None => Err(Stop::Refused),
    }
}

/// Reads a token behind what only some tokens may follow.
fn words_step(
    alloc: Global,
    frames: &mut Stack<Frame>,
    words: Words,
    token: Token,
) -> Result<Now, Stop>
    ensures { Steps (machine.words_step (plain_words words) token (plain_frames frames.old)) frames.new result }
{
    match words {
        Words::Operator(sign) => behind_operator(alloc, frames, sign, token),
        Words::Atoms(hold) => atoms_step(alloc, frames, hold, token),
        Words::Minus(hold, minus) => minus_step(alloc, frames, hold, minus, token),
        Words::GeneratorName(comprehension, begins) => generator_name_step(
            frames,
            comprehension,
            begins,
            token,
        ),
        Words::GeneratorIn(comprehension, begins, name) => generator_in_step(
            frames,
            comprehension,
            begins,
            name,
            token,
        ),
        Words::ElementType(channel) => element_type_step(frames, channel, token),
        Words::TypeEnd(channel, element) => type_end_step(frames, channel, element, token),
        Words::SizeBegin(channel, element, shut) => size_begin_step(
            alloc, frames, channel, element, shut, token,
        ),
        Words::PlaceBegin(typed, size, closes) => place_begin_step(
            alloc, frames, typed, size, closes, token,
        ),
    }
}

/// Reads one token of an expression.
pub fn step(alloc: Global, frames: &mut Stack<Frame>, now: Now, token: Token) -> Result<Now, Stop>
    ensures { Steps (machine.step_at token (plain_frames frames.old) (plain_now now)) frames.new result }
{
    match now {
        Now::Wanted => want_step(alloc, frames, token),
        Now::Got(operand) => have_step(alloc, frames, token, operand),
        Now::Pending(words) => words_step(alloc, frames, words, token),
    }
}
