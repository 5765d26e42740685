//! Reads the tokens of a script, one after the other.
ghost use Rattle.std.specs.Prelude.{ℕ, ◌≡◌, IfOk, IfErr};
ghost use Rattle.jd_grammar.specs.Script as grammar;
ghost use Rattle.jd_grammar.specs.Reader as machine;
ghost use Rattle.jd_grammar.specs.Promise.{IsRefusedAt, SpellsWithin};
ghost use Rattle.jd_script.specs.PlainScript.{plain_block};
ghost use Rattle.jd_reader.specs.declared.refusal.Refusal.{Refusal};
ghost use Rattle.jd_precedence.specs.State.{plain_frames, plain_now};
ghost use Rattle.jd_reader.specs.Reading.{plain_bottom, plain_config, plain_mode, plain_whole, Ends, Leads};
ghost use Rattle.jd_reader.specs.Answers.{IsRefusal, Reads, Refuses, RefusesAt, RefusesFor};

use crate::blocks::{expression_in, nothing, with_expression, without_expression};
use crate::context::{Bottom, Config, Context, Mode, Whole};
use crate::expressions::{expression_step, none_open};
use crate::limits::{NESTING_LIMIT, script_needs};
use crate::refusal::{Fault, Refusal, fault_of, refusal_of};
use crate::stretch::read_stretch;
use crate::words::{complete_step, words_step};
use jd_grammar::token::Token;
use jd_precedence::close::close_all;
use jd_precedence::frames::{Frame, Now};
use jd_precedence::stack::Stack;
use jd_precedence::stop::{Stop, refuse, stopped};
use jd_script::blocks::{block_of, no_lines};
use jd_script::tree::{Block, Lead};
use std::alloc::{AllocError, Global};

/// Reads one token.
fn step(alloc: Global, config: Config, token: Token) -> Result<Config, Stop>
    ensures { Leads (machine.step token (plain_config config)) result }
{
    let Config { context, mode } = config;
    match mode {
        Mode::Expression(bottom, frames, now) => expression_step(
            alloc, context, bottom, frames, now, token,
        ),
        Mode::Words(awaited) => words_step(alloc, context, awaited.into_inner(), token),
        Mode::Complete(statement) => complete_step(alloc, context, statement, token),
    }
}

/// Before the first token.
fn start(alloc: Global) -> Config
    ensures { plain_config result ≡ machine.start }
{
    Config {
        context: Context {
            outer: Stack::new(alloc),
            lines: no_lines(alloc),
        },
        mode: expression_in(alloc, Bottom::Lead(Lead::Bare)),
    }
}

// ---- the end

/// What is whole at the end of an expression.
fn whole_at(
    alloc: Global,
    bottom: Bottom,
    frames: Stack<Frame>,
    now: Now,
) -> Result<Whole, AllocError>
    ensures { IfOk result (λ w. plain_whole w ≡ machine.whole_at (plain_bottom bottom) (plain_frames frames) (plain_now now)) }
{
    let mut frames = frames;
    match now {
        Now::Wanted => {
            if none_open(&frames) {
                drop(frames);
                Ok(without_expression(bottom))
            } else {
                Ok(nothing((bottom, frames)))
            }
        }
        Now::Got(operand) => {
            let operand = match close_all(alloc, &mut frames, 0, operand) {
                Ok(operand) => operand,
                Err(error) => {
                    drop((bottom, frames));
                    return Err(error);
                }
            };
            if none_open(&frames) {
                drop(frames);
                Ok(with_expression(bottom, operand))
            } else {
                Ok(nothing((bottom, frames, operand)))
            }
        }
        Now::Pending(words) => Ok(nothing((bottom, frames, words))),
    }
}

/// What is whole at the end.
fn whole_of(alloc: Global, mode: Mode) -> Result<Whole, AllocError>
    ensures { IfOk result (λ w. plain_whole w ≡ machine.whole_of (plain_mode mode)) }
{
    match mode {
        Mode::Expression(bottom, frames, now) => whole_at(alloc, bottom, frames, now),
        Mode::Words(awaited) => Ok(nothing(awaited)),
        Mode::Complete(statement) => Ok(Whole::Place(Some(statement))),
    }
}

/// The script, where it may end.
fn finish(alloc: Global, config: Config) -> Result<Block, Stop>
    ensures { Ends (machine.finish (plain_config config)) result }
{
    let Config { context, mode } = config;
    let whole = match whole_of(alloc, mode) {
        Ok(whole) => whole,
        Err(_) => return stopped(context, Stop::OutOfMemory),
    };
    let Context { outer, lines } = context;
    match outer.top() {
        Some(_) => refuse((outer, lines, whole)),
        None => {
            drop(outer);
            match whole {
                Whole::Place(place) => Ok(block_of(alloc, lines, place)?.block),
                other => refuse((lines, other)),
            }
        }
    }
}

// ---- the whole list

/// The tokens up to the end, or where they are refused.
fn read_all(alloc: Global, tokens: &[Token]) -> Result<Block, Fault>
    ensures found { IfOk result (λ s. SpellsWithin tokens.now (plain_block s)) }
    ensures refused { IfErr result (Refuses tokens.now) }
{
    let mut config = start(alloc);
    let mut place = 0;
    while place < tokens.len() {
        let token = tokens[place];
        match step(alloc, config, token) {
            Ok(next) => config = next,
            Err(stop) => return Err(fault_of(stop, place, refusal_of(token, Refusal::Misplaced))),
        }
        if script_needs(&config) > NESTING_LIMIT {
            drop(config);
            return Err(Fault::Refused {
                place,
                refusal: refusal_of(token, Refusal::TooDeep),
            });
        }
        let (next, behind) = read_stretch(alloc, config, tokens, place + 1)?;
        config = next;
        place = behind;
    }
    match finish(alloc, config) {
        Ok(block) => Ok(block),
        Err(stop) => Err(fault_of(stop, tokens.len(), Refusal::Misplaced)),
    }
}

/// The script that the tokens are written for, within the nesting limit.
///
/// It takes time in proportion to the number of tokens, and no more stack for a longer script.
pub fn read(alloc: Global, tokens: &[Token]) -> Result<Block, Fault>
    // What is read is spelled so.
    ensures found { IfOk result (λ s. SpellsWithin tokens.now (plain_block s)) }
    // What is spelled so is read, unless memory runs out.
    ensures only { (s : grammar.Block) → SpellsWithin tokens.now s → Reads result s }

    // A refusal has its place and its reason.
    ensures refused { IfErr result (Refuses tokens.now) }
    // What is refused at a place is refused there, unless memory runs out.
    ensures place { (k : ℕ) → IsRefusedAt tokens.now k → RefusesAt result k }
    // And for the reason that it has there.
    ensures reason { (k : ℕ) (r : Refusal) → IsRefusal tokens.now k r → RefusesFor result k r }
{
    read_all(alloc, tokens)
}
