//! Reads a token where an expression is read, which the expression or its statement takes.
ghost use Rattle.std.specs.Prelude.{◌≡◌, ◌&&◌, true};
ghost use Rattle.jd_grammar.specs.Frames.{want, have};
ghost use Rattle.jd_grammar.specs.Machine as expression;
ghost use Rattle.jd_grammar.specs.Reader as machine;
ghost use Rattle.jd_tree.specs.Code.{plain_measured};
ghost use Rattle.jd_precedence.specs.State.{plain_frames, plain_now, state};
ghost use Rattle.jd_reader.specs.Routes.{is_ending as ends, is_beginning as begins, is_assigning as assigns, is_inner as inner, are_none_open, goes};
ghost use Rattle.jd_reader.specs.Reading.{plain_bottom, plain_context, Leads};

use crate::blocks::{ending_step, with_expression};
use crate::context::{Bottom, Config, Context, Mode};
use crate::statements::{assigning_step, first_step, is_assigning, is_beginning, is_ending};
use jd_grammar::token::{Kind, Token};
use jd_precedence::close::close_all;
use jd_precedence::frames::{Frame, Now};
use jd_precedence::operators::at_end;
use jd_precedence::stack::Stack;
use jd_precedence::step::step;
use jd_precedence::stop::{Stop, stopped};
use jd_tree::measured::Measured;
use std::alloc::Global;

/// Whether nothing of an expression is open.
pub fn none_open(frames: &Stack<Frame>) -> bool
    ensures { result ≡ are_none_open (plain_frames frames.now) }
{
    match frames.top() {
        None => true,
        Some(_) => false,
    }
}

/// Whether a statement takes a token, where an operand is wanted.
fn statement_begins(frames: &Stack<Frame>, kind: Kind) -> bool
    ensures { result ≡ (are_none_open (plain_frames frames.now) && begins kind) }
{
    none_open(frames) && is_beginning(kind)
}

/// Whether a statement takes a sign of an assignment behind an operand.
fn statement_assigns(frames: &Stack<Frame>, kind: Kind) -> bool
    ensures { result ≡ (are_none_open (plain_frames frames.now) && assigns kind) }
{
    none_open(frames) && is_assigning(kind)
}

/// Whether the statement takes nothing at a token, so that the expression alone goes on or nothing does.
pub fn is_inner(frames: &Stack<Frame>, now: &Now, kind: Kind) -> bool
    ensures { result ≡ inner kind (plain_frames frames.now) (plain_now now.now) }
{
    match now {
        Now::Wanted => !statement_begins(frames, kind),
        Now::Got(_) => !is_ending(kind) && !statement_assigns(frames, kind),
        Now::Pending(_) => true,
    }
}

/// Reads a token that only the expression takes.
fn inner_step(
    alloc: Global,
    context: Context,
    bottom: Bottom,
    frames: Stack<Frame>,
    now: Now,
    token: Token,
) -> Result<Config, Stop>
    ensures { Leads (goes (expression.step_at token (plain_frames frames) (plain_now now)) (plain_context context) (plain_bottom bottom)) result }
{
    let mut frames = frames;
    match step(alloc, &mut frames, now, token) {
        Ok(now) => Ok(Config {
            context,
            mode: Mode::Expression(bottom, frames, now),
        }),
        Err(stop) => stopped((context, bottom, frames), stop),
    }
}

/// Reads a token where an operand is wanted.
fn wanted_step(
    alloc: Global,
    context: Context,
    bottom: Bottom,
    frames: Stack<Frame>,
    token: Token,
) -> Result<Config, Stop>
    ensures { Leads (machine.mode_step (machine.at_expression (plain_bottom bottom) (want (plain_frames frames))) token (plain_context context)) result }
{
    if statement_begins(&frames, token.kind) {
        first_step(alloc, context, bottom, token)
    } else {
        inner_step(alloc, context, bottom, frames, Now::Wanted, token)
    }
}

/// Reads the end of a construct that is open behind an operand.
fn inner_end(
    alloc: Global,
    context: Context,
    bottom: Bottom,
    frames: Stack<Frame>,
    operand: Measured,
    token: Token,
) -> Result<Config, Stop>
    ensures { Leads (goes (expression.at_end token.kind token (plain_frames frames, plain_measured operand)) (plain_context context) (plain_bottom bottom)) result }
{
    let mut frames = frames;
    match at_end(alloc, &mut frames, token, operand) {
        Ok(now) => Ok(Config {
            context,
            mode: Mode::Expression(bottom, frames, now),
        }),
        Err(stop) => stopped((context, bottom, frames), stop),
    }
}

/// Reads the end of a statement or a block behind an operand.
fn end_step(
    alloc: Global,
    context: Context,
    bottom: Bottom,
    frames: Stack<Frame>,
    operand: Measured,
    token: Token,
) -> Result<Config, Stop>
    requires { ends token.kind ≡ true }
    ensures { Leads (machine.mode_step (machine.at_expression (plain_bottom bottom) (have (plain_frames frames) (plain_measured operand))) token (plain_context context)) result }
{
    let mut frames = frames;
    let operand = match close_all(alloc, &mut frames, 0, operand) {
        Ok(operand) => operand,
        Err(_) => return stopped((context, bottom, frames), Stop::OutOfMemory),
    };
    if none_open(&frames) {
        ending_step(alloc, context, token, with_expression(bottom, operand))
    } else {
        inner_end(alloc, context, bottom, frames, operand, token)
    }
}

/// Reads a token behind an operand.
fn got_step(
    alloc: Global,
    context: Context,
    bottom: Bottom,
    frames: Stack<Frame>,
    operand: Measured,
    token: Token,
) -> Result<Config, Stop>
    ensures { Leads (machine.mode_step (machine.at_expression (plain_bottom bottom) (have (plain_frames frames) (plain_measured operand))) token (plain_context context)) result }
{
    if is_ending(token.kind) {
        end_step(alloc, context, bottom, frames, operand, token)
    } else if statement_assigns(&frames, token.kind) {
        assigning_step(alloc, context, bottom, token, operand)
    } else {
        inner_step(alloc, context, bottom, frames, Now::Got(operand), token)
    }
}

/// Reads a token where an expression is read.
pub fn expression_step(
    alloc: Global,
    context: Context,
    bottom: Bottom,
    frames: Stack<Frame>,
    now: Now,
    token: Token,
) -> Result<Config, Stop>
    ensures { Leads (machine.mode_step (machine.at_expression (plain_bottom bottom) (state frames now)) token (plain_context context)) result }
{
    match now {
        Now::Wanted => wanted_step(alloc, context, bottom, frames, token),
        Now::Got(operand) => got_step(alloc, context, bottom, frames, operand, token),
        Now::Pending(words) => inner_step(
            alloc,
            context,
            bottom,
            frames,
            Now::Pending(words),
            token,
        ),
    }
}
