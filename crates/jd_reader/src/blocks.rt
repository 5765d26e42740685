//! Reads what ends a statement or a block.
ghost use Rattle.std.specs.Prelude.{◌≡◌, [], Some};
ghost use Rattle.jd_grammar.specs.Frames.{want};
ghost use Rattle.jd_grammar.specs.Script as grammar;
ghost use Rattle.jd_grammar.specs.Reader as machine;
ghost use Rattle.jd_tree.specs.Code.{plain_measured};
ghost use Rattle.jd_script.specs.PlainScript.{plain_block, plain_opening};
ghost use Rattle.jd_script.specs.CodeScript.{plain_arms, plain_lines, plain_place};
ghost use Rattle.jd_reader.specs.Routes.{block_step};
ghost use Rattle.jd_reader.specs.Reading.{plain_bottom, plain_context, plain_mode, plain_outers, plain_whole, Leads};

use crate::context::{Awaited, Bottom, Config, Context, Mode, Outer, Whole};
use jd_grammar::token::{Kind, Token};
use jd_precedence::frames::Now;
use jd_precedence::stack::Stack;
use jd_precedence::stop::{Stop, refuse, stopped};
use jd_script::blocks::{
    alone_of, block_of, blocks_of, else_of, ended_of, headed_of, no_lines, with_arm, with_line,
};
use jd_script::nested::{Arms, NestedBlock, NestedOpening, NestedStmt};
use jd_script::tree::{Header, Lead, Opening};
use jd_tree::measured::Measured;
use sqlite_items::Boxed;
use std::alloc::Global;

// ---- where statements begin and blocks open

/// Where an expression begins.
pub fn expression_in(alloc: Global, bottom: Bottom) -> Mode
    ensures { plain_mode result ≡ machine.at_expression (plain_bottom bottom) (want []) }
{
    Mode::Expression(bottom, Stack::new(alloc), Now::Wanted)
}

/// Where a statement may begin, behind what stands at a place and its separator.
fn at_line(
    alloc: Global,
    context: Context,
    place: Option<NestedStmt>,
    token: Token,
) -> Result<Config, Stop>
    ensures { let lines = grammar.line (plain_lines context.lines) (plain_place place) token in
        Leads (Some (machine.at_line (plain_context context) lines)) result }
{
    let Context { outer, lines } = context;
    let lines = with_line(alloc, lines, place, token)?;
    Ok(Config {
        context: Context { outer, lines },
        mode: expression_in(alloc, Bottom::Lead(Lead::Bare)),
    })
}

/// A block that opens.
pub fn open_block(
    alloc: Global,
    context: Context,
    before: Arms,
    opening: NestedOpening,
) -> Result<Config, Stop>
    ensures { Leads (Some (machine.open_block (plain_context context) (plain_arms before) (plain_opening opening.opening))) result }
{
    let Context { mut outer, lines } = context;
    outer.push(Outer {
        lines,
        before,
        opening,
    })?;
    Ok(Config {
        context: Context {
            outer,
            lines: no_lines(alloc),
        },
        mode: expression_in(alloc, Bottom::Lead(Lead::Bare)),
    })
}

// ---- what is whole

/// What is whole where an operand was read and nothing else is open.
pub fn with_expression(bottom: Bottom, operand: Measured) -> Whole
    ensures { plain_whole result ≡ machine.with_expression (plain_bottom bottom) ([], plain_measured operand) }
{
    match bottom {
        Bottom::Lead(lead) => Whole::Place(Some(ended_of(lead, operand))),
        Bottom::Header(before, header) => Whole::Header(before, header.into_inner(), operand),
    }
}

/// What is whole where an expression may begin.
pub fn without_expression(bottom: Bottom) -> Whole
    ensures { plain_whole result ≡ machine.without_expression (plain_bottom bottom) [] }
{
    match bottom {
        Bottom::Lead(lead) => match lead {
            Lead::Bare => Whole::Place(None),
            Lead::Returned(token) => Whole::Place(Some(alone_of(token))),
            lead => nothing(lead),
        },
        header => nothing(header),
    }
}

/// Lets go of what is not whole.
pub fn nothing<T: Drop>(_read: T) -> Whole
    ensures { plain_whole result ≡ machine.nothing_whole }
{
    Whole::Nothing
}

// ---- separators, and words that end a block

/// Reads a `;` or the end of a line.
fn separator_step(
    alloc: Global,
    context: Context,
    token: Token,
    whole: Whole,
) -> Result<Config, Stop>
    ensures { Leads (machine.separator_step token (plain_context context) (plain_whole whole)) result }
{
    match whole {
        Whole::Nothing => refuse(context),
        Whole::Place(place) => at_line(alloc, context, place, token),
        Whole::Header(before, header, operand) => {
            let opening = headed_of(alloc, header, operand, token)?;
            open_block(alloc, context, before, opening)
        }
    }
}

fn is_conditional(opening: &Opening) -> bool
    ensures { result ≡ machine.is_conditional (grammar.role_of (plain_opening opening.now)) }
{
    match opening {
        Opening::Headed(header, _, _) => matches!(header, Header::If(_) | Header::Elseif(_)),
        _ => false,
    }
}

fn is_trying(opening: &Opening) -> bool
    ensures { result ≡ machine.is_trying (grammar.role_of (plain_opening opening.now)) }
{
    matches!(opening, Opening::Try(_))
}

fn may_end(opening: &Opening) -> bool
    ensures { result ≡ grammar.may_end (grammar.role_of (plain_opening opening.now)) }
{
    !is_trying(opening)
}

/// Reads `end`.
fn end_block(
    alloc: Global,
    token: Token,
    outer: Stack<Outer>,
    statement: Outer,
    inner: NestedBlock,
) -> Result<Config, Stop>
    ensures { let next = machine.end_block token (plain_outers outer) (plain_lines statement.lines) (plain_arms statement.before) in
        Leads (next (plain_opening statement.opening.opening) (plain_block inner.block)) result }
{
    if !may_end(&statement.opening.opening) {
        return refuse((outer, statement, inner));
    }
    let Outer {
        lines,
        before,
        opening,
    } = statement;
    Ok(Config {
        context: Context { outer, lines },
        mode: Mode::Complete(blocks_of(alloc, before, opening, inner, token)?),
    })
}

/// Reads `elseif`.
fn elseif_block(
    alloc: Global,
    token: Token,
    outer: Stack<Outer>,
    statement: Outer,
    inner: NestedBlock,
) -> Result<Config, Stop>
    ensures { let next = machine.elseif_block token (plain_outers outer) (plain_lines statement.lines) (plain_arms statement.before) in
        Leads (next (plain_opening statement.opening.opening) (plain_block inner.block)) result }
{
    if !is_conditional(&statement.opening.opening) {
        return refuse((outer, statement, inner));
    }
    let Outer {
        lines,
        before,
        opening,
    } = statement;
    let arms = match with_arm(before, opening, inner) {
        Ok(arms) => arms,
        Err(_) => return stopped((outer, lines), Stop::OutOfMemory),
    };
    let header = match Boxed::new(alloc, Header::Elseif(token)) {
        Ok(header) => header,
        Err(_) => return stopped((outer, lines, arms), Stop::OutOfMemory),
    };
    Ok(Config {
        context: Context { outer, lines },
        mode: expression_in(alloc, Bottom::Header(arms, header)),
    })
}

/// Reads `else`.
fn else_block(
    alloc: Global,
    token: Token,
    outer: Stack<Outer>,
    statement: Outer,
    inner: NestedBlock,
) -> Result<Config, Stop>
    ensures { let next = machine.else_block token (plain_outers outer) (plain_lines statement.lines) (plain_arms statement.before) in
        Leads (next (plain_opening statement.opening.opening) (plain_block inner.block)) result }
{
    if !is_conditional(&statement.opening.opening) {
        return refuse((outer, statement, inner));
    }
    let Outer {
        lines,
        before,
        opening,
    } = statement;
    let arms = with_arm(before, opening, inner)?;
    open_block(alloc, Context { outer, lines }, arms, else_of(token))
}

/// Reads `catch`.
fn catch_block(
    alloc: Global,
    token: Token,
    outer: Stack<Outer>,
    statement: Outer,
    inner: NestedBlock,
) -> Result<Config, Stop>
    ensures { let next = machine.catch_block token (plain_outers outer) (plain_lines statement.lines) (plain_arms statement.before) in
        Leads (next (plain_opening statement.opening.opening) (plain_block inner.block)) result }
{
    if !is_trying(&statement.opening.opening) {
        return refuse((outer, statement, inner));
    }
    let Outer {
        lines,
        before,
        opening,
    } = statement;
    let arms = match with_arm(before, opening, inner) {
        Ok(arms) => arms,
        Err(_) => return stopped((outer, lines), Stop::OutOfMemory),
    };
    let words = match Boxed::new(alloc, Awaited::CatchWords(arms, token)) {
        Ok(words) => words,
        Err(_) => return stopped((outer, lines), Stop::OutOfMemory),
    };
    Ok(Config {
        context: Context { outer, lines },
        mode: Mode::Words(words),
    })
}

/// Reads a word that ends the innermost block.
fn end_word(
    alloc: Global,
    context: Context,
    token: Token,
    place: Option<NestedStmt>,
) -> Result<Config, Stop>
    ensures { Leads (machine.leave (plain_context context) (plain_place place) (block_step token.kind token)) result }
{
    let Context { mut outer, lines } = context;
    match outer.pop() {
        None => refuse((outer, lines, place)),
        Some(statement) => {
            let inner = match block_of(alloc, lines, place) {
                Ok(inner) => inner,
                Err(_) => return stopped((outer, statement), Stop::OutOfMemory),
            };
            match token.kind {
                Kind::End => end_block(alloc, token, outer, statement, inner),
                Kind::Elseif => elseif_block(alloc, token, outer, statement, inner),
                Kind::Else => else_block(alloc, token, outer, statement, inner),
                Kind::Catch => catch_block(alloc, token, outer, statement, inner),
                _ => refuse((outer, statement, inner)),
            }
        }
    }
}

/// Reads what ends a statement or a block.
pub fn ending_step(
    alloc: Global,
    context: Context,
    token: Token,
    whole: Whole,
) -> Result<Config, Stop>
    ensures { Leads (machine.ending_step token.kind token (plain_context context) (plain_whole whole)) result }
{
    match token.kind {
        Kind::Semicolon | Kind::LineEnd => separator_step(alloc, context, token, whole),
        Kind::End | Kind::Elseif | Kind::Else | Kind::Catch => match whole {
            Whole::Place(place) => end_word(alloc, context, token, place),
            other => refuse((context, other)),
        },
        _ => refuse((context, whole)),
    }
}
