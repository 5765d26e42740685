//! Reads the tokens of an expression, one after the other, where it stands.
ghost use Rattle.std.specs.Prelude.{◌≡◌, ◌≤◌, length, IfOk, IfErr};
ghost use Rattle.jd_reader.specs.Answers.{Refuses};
ghost use Rattle.jd_reader.specs.Reading.{plain_config, plain_reading, HasRead};

use crate::context::{Bottom, Config, Context, Mode};
use crate::expressions::is_inner;
use crate::limits::{NESTING_LIMIT, expression_needs};
use crate::refusal::{Fault, Refusal, fault_of, refusal_of};
use jd_grammar::token::Token;
use jd_precedence::frames::{Frame, Now};
use jd_precedence::stack::Stack;
use jd_precedence::step::step;
use std::alloc::Global;

/// Reads the tokens from a place on up to one that the statement may take, and tells what was read last and the place of
/// that token.
fn stretch(
    alloc: Global,
    context: &Context,
    bottom: &Bottom,
    frames: &mut Stack<Frame>,
    now: Now,
    tokens: &[Token],
    from: usize,
) -> Result<(Now, usize), Fault>
    requires { HasRead tokens.now from (plain_reading context.now bottom.now frames.old now) }
    ensures read { IfOk result (λ r. HasRead tokens.now r.1 (plain_reading context.now bottom.now frames.new r.0)) }
    ensures further { IfOk result (λ r. from ≤ r.1) }
    ensures refused { IfErr result (Refuses tokens.now) }
{
    let mut now = now;
    let mut place = from;
    while place < tokens.len() {
        let token = tokens[place];
        if !is_inner(frames, &now, token.kind) {
            return Ok((now, place));
        }
        match step(alloc, frames, now, token) {
            Ok(next) => now = next,
            Err(stop) => return Err(fault_of(stop, place, refusal_of(token, Refusal::Misplaced))),
        }
        if expression_needs(context, bottom, frames, &now) > NESTING_LIMIT {
            return Err(Fault::Refused {
                place,
                refusal: refusal_of(token, Refusal::TooDeep),
            });
        }
        place += 1;
    }
    Ok((now, place))
}

/// Reads the tokens from a place on that only an expression takes, if one is read, and tells the place behind them.
///
/// Most tokens are such. What is read of the expression changes where it stands, and nothing round it is moved.
pub fn read_stretch(
    alloc: Global,
    config: Config,
    tokens: &[Token],
    from: usize,
) -> Result<(Config, usize), Fault>
    requires { HasRead tokens.now from (plain_config config) }
    ensures read { IfOk result (λ r. HasRead tokens.now r.1 (plain_config r.0)) }
    ensures further { IfOk result (λ r. from ≤ r.1) }
    ensures refused { IfErr result (Refuses tokens.now) }
{
    let Config { context, mode } = config;
    match mode {
        Mode::Expression(bottom, mut frames, now) => {
            match stretch(alloc, &context, &bottom, &mut frames, now, tokens, from) {
                Ok((now, place)) => {
                    let mode = Mode::Expression(bottom, frames, now);
                    Ok((Config { context, mode }, place))
                }
                Err(fault) => {
                    drop((context, bottom, frames));
                    Err(fault)
                }
            }
        }
        other => Ok((
            Config {
                context,
                mode: other,
            },
            from,
        )),
    }
}
