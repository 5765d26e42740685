//! How deep the shallowest script nests that begins with what was read.
ghost use Rattle.std.specs.Prelude.{◌≡◌, ◌+◌, max, if◌then◌else◌};
ghost use Rattle.jd_grammar.specs.Reader as machine;
ghost use Rattle.jd_grammar.specs.ScriptDepth as grammar;
ghost use Rattle.jd_tree.specs.Measures.{height_up_to};
ghost use Rattle.jd_script.specs.CodeScript.{plain_lines};
ghost use Rattle.jd_script.specs.PlainScript.{plain_lead, plain_target};
ghost use Rattle.jd_precedence.specs.State.{plain_frames, plain_now, state};
ghost use Rattle.jd_reader.specs.Rounds.{round_at};
ghost use Rattle.jd_reader.specs.Reading.{plain_awaited, plain_bottom, plain_config, plain_mode, plain_outer, plain_outers, plain_reading};

use crate::context::{Awaited, Bottom, Config, Context, Mode, Outer};
use crate::expressions::none_open;
use jd_precedence::depth::needs_of;
use jd_precedence::frames::{Frame, Now};
use jd_precedence::stack::Stack;
use jd_script::blocks::{header_weight_of, lead_weight_of, weight_of};
use jd_script::nested::Lines;
use jd_script::tree::{Lead, Target};

/// How many constructs may stand round a token.
pub const NESTING_LIMIT: u8 = 100;

fn target_weight(target: &Option<Target>) -> u8
    ensures { result ≡ grammar.target_weight (plain_target target.now) }
{
    match target {
        None => 1,
        Some(_) => 2,
    }
}

/// What only some tokens may follow.
fn awaited_needs(awaited: &Awaited) -> u8
    ensures { result ≡ height_up_to (grammar.awaited_needs (plain_awaited awaited.now)) }
{
    match awaited {
        Awaited::DistributedOpen(distributing)
        | Awaited::DistributedReducer(distributing, _)
        | Awaited::DistributedClose(distributing, _, _)
        | Awaited::DistributedFor(distributing, _, _, _)
        | Awaited::DistributedName(distributing, _, _, _, _)
        | Awaited::DistributedIn(distributing, _, _, _, _, _) => target_weight(
            &distributing.target,
        ),
        Awaited::Everywhere(_)
        | Awaited::EverywherePackage(_, _)
        | Awaited::PackageFirst(_)
        | Awaited::PackageNext(_, _) => 0,
        Awaited::CatchWords(before, _) | Awaited::CatchNamed(before, _, _) => {
            before.nesting.saturating_add(1)
        }
        Awaited::ForName(_)
        | Awaited::ForIn(_, _)
        | Awaited::FunctionName(_, _)
        | Awaited::SignatureOpen(_, _)
        | Awaited::SignatureFirst(_)
        | Awaited::SignatureNext(_, _)
        | Awaited::SignatureName(_, _, _)
        | Awaited::SignatureEnd(_, _) => 1,
    }
}

/// Whether nothing of an expression was read.
fn is_fresh(frames: &Stack<Frame>, now: &Now) -> bool
    ensures { result ≡ grammar.is_fresh (plain_frames frames.now) (plain_now now.now) }
{
    match now {
        Now::Wanted => none_open(frames),
        Now::Got(_) | Now::Pending(_) => false,
    }
}

/// A statement that ends with the expression.
fn lead_needs(lead: &Lead, frames: &Stack<Frame>, now: &Now) -> u8
    ensures { result ≡ height_up_to (grammar.lead_needs (plain_lead lead.now) (state frames.now now.now)) }
{
    match lead {
        Lead::Returned(_) => {
            if is_fresh(frames, now) {
                0
            } else {
                needs_of(frames, now).saturating_add(1)
            }
        }
        other => lead_weight_of(other).saturating_add(needs_of(frames, now)),
    }
}

/// A statement of which an expression is read now, without its block.
fn bottom_needs(bottom: &Bottom, frames: &Stack<Frame>, now: &Now) -> u8
    ensures { result ≡ height_up_to (grammar.mode_needs (machine.at_expression (plain_bottom bottom.now) (state frames.now now.now))) }
{
    match bottom {
        Bottom::Lead(lead) => lead_needs(lead, frames, now),
        Bottom::Header(before, header) => {
            let deepest = before.nesting.max(needs_of(frames, now));
            header_weight_of(header.get()).saturating_add(deepest)
        }
    }
}

/// The statement that is read now, without its block.
fn mode_needs(mode: &Mode) -> u8
    ensures { result ≡ height_up_to (grammar.mode_needs (plain_mode mode.now)) }
{
    match mode {
        Mode::Expression(bottom, frames, now) => bottom_needs(bottom, frames, now),
        Mode::Words(awaited) => awaited_needs(awaited.get()),
        Mode::Complete(statement) => statement.nesting,
    }
}

/// Whether a statement of which an expression is read now has begun.
fn expression_begun(bottom: &Bottom, frames: &Stack<Frame>, now: &Now) -> bool
    ensures { result ≡ grammar.has_begun (machine.at_expression (plain_bottom bottom.now) (state frames.now now.now)) }
{
    match bottom {
        Bottom::Lead(Lead::Bare) => !is_fresh(frames, now),
        _ => true,
    }
}

/// Whether a statement has begun.
fn has_begun(mode: &Mode) -> bool
    ensures { result ≡ grammar.has_begun (plain_mode mode.now) }
{
    match mode {
        Mode::Expression(bottom, frames, now) => expression_begun(bottom, frames, now),
        Mode::Words(_) | Mode::Complete(_) => true,
    }
}

/// A statement whose innermost block nests so deep.
fn outer_needs(outer: &Outer, inner: u8) -> u8
    ensures { result ≡ height_up_to (grammar.outer_needs (plain_outer outer.now) inner) }
{
    let deepest = outer.before.nesting.max(outer.opening.nesting).max(inner);
    weight_of(&outer.opening.opening).saturating_add(deepest)
}

/// The innermost block, whose lines and statement nest so deep: one without a token is none.
fn inner_needs(has_token: bool, lines: u8, height: u8) -> u8
    ensures { result ≡ height_up_to (if has_token then 1 + max lines height else 0) }
{
    if has_token {
        lines.max(height).saturating_add(1)
    } else {
        0
    }
}

/// Whether a block has a token.
fn has_token_in(lines: &Lines, begun: bool) -> bool
    ensures { result ≡ grammar.has_token (plain_lines lines.now) begun }
{
    if lines.items.is_empty() { begun } else { true }
}

/// What stands round lines that nest so deep, and a statement of this depth, where one of them has a token.
fn round_needs(outer: &Stack<Outer>, lines: u8, has_token: bool, height: u8) -> u8
    ensures { result ≡ height_up_to (round_at (plain_outers outer.now) lines has_token height) }
{
    let mut deepest = lines;
    let mut has_token = has_token;
    let mut height = height;
    let mut depth = 0;
    while let Some(statement) = outer.below(depth) {
        let inner = inner_needs(has_token, deepest, height);
        height = outer_needs(statement, inner);
        deepest = statement.lines.nesting;
        has_token = true;
        depth += 1;
    }
    deepest.max(height)
}

/// The least depth of a script in which that expression is read, up to 255.
pub fn expression_needs(context: &Context, bottom: &Bottom, frames: &Stack<Frame>, now: &Now) -> u8
    ensures { result ≡ height_up_to (grammar.needs (plain_reading context.now bottom.now frames.now now.now)) }
{
    let begun = expression_begun(bottom, frames, now);
    let has_token = has_token_in(&context.lines, begun);
    let height = bottom_needs(bottom, frames, now);
    round_needs(&context.outer, context.lines.nesting, has_token, height)
}

/// The least depth of a script that begins with what was read, up to 255.
pub fn script_needs(config: &Config) -> u8
    ensures { result ≡ height_up_to (grammar.needs (plain_config config.now)) }
{
    let context = &config.context;
    let begun = has_begun(&config.mode);
    let has_token = has_token_in(&context.lines, begun);
    let height = mode_needs(&config.mode);
    round_needs(&context.outer, context.lines.nesting, has_token, height)
}
