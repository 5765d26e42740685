//! Reads a token at the beginning of a statement, and behind the expression at its end.
ghost use Rattle.std.specs.Prelude.{◌≡◌, [], IsTrue, true, None, Some};
ghost use Rattle.jd_grammar.specs.Frames.{wanted, got, want};
ghost use Rattle.jd_grammar.specs.Reader as machine;
ghost use Rattle.jd_grammar.specs.Script as grammar;
ghost use Rattle.jd_tree.specs.Code.{plain_measured};
ghost use Rattle.jd_script.specs.PlainScript.{plain_header};
ghost use Rattle.jd_precedence.specs.Parts.{leaf_token_in};
ghost use Rattle.jd_reader.specs.Routes.{is_ending as ends, is_beginning as begins, is_assigning as assigns, is_top_word};
ghost use Rattle.jd_reader.specs.Reading.{plain_awaited, plain_bottom, plain_config, plain_context, Leads};

use crate::blocks::{ending_step, expression_in, open_block, without_expression};
use crate::context::{Awaited, Bottom, Config, Context, Distributing, Mode, Whole};
use crate::scopes::scope_of;
use jd_grammar::token::{Kind, Token};
use jd_precedence::operators::leaf_token;
use jd_precedence::stop::{Stop, refuse, stopped};
use jd_script::blocks::{alone_of, defined_of, no_arms, try_of};
use jd_script::tree::{Header, Lead, Target};
use jd_tree::kinds::is_name;
use jd_tree::measured::Measured;
use jd_tree::names::is_signature;
use sqlite_items::Boxed;
use std::alloc::Global;

/// Whether it ends a statement or a block.
pub fn is_ending(kind: Kind) -> bool
    ensures { result ≡ ends kind }
{
    matches!(
        kind,
        Kind::Semicolon | Kind::LineEnd | Kind::End | Kind::Elseif | Kind::Else | Kind::Catch
    )
}

/// Whether it begins a statement and no expression, or ends one.
pub fn is_beginning(kind: Kind) -> bool
    ensures { result ≡ begins kind }
{
    match kind {
        Kind::While
        | Kind::If
        | Kind::For
        | Kind::Try
        | Kind::DistributedFor
        | Kind::Function
        | Kind::Everywhere
        | Kind::Using
        | Kind::Return
        | Kind::Break
        | Kind::Continue => true,
        _ => is_ending(kind),
    }
}

/// Whether it stands behind the target of an assignment.
pub fn is_assigning(kind: Kind) -> bool
    ensures { result ≡ assigns kind }
{
    matches!(
        kind,
        Kind::Assign | Kind::PlusAssign | Kind::MinusAssign | Kind::StarAssign
    )
}

/// What goes on with such words.
pub fn go(alloc: Global, context: Context, words: Awaited) -> Result<Config, Stop>
    ensures { Leads (Some (machine.go (plain_context context) (machine.at_words (plain_awaited words)))) result }
{
    let words = Boxed::new(alloc, words)?;
    Ok(Config {
        context,
        mode: Mode::Words(words),
    })
}

/// What goes on with an expression.
pub fn go_in(alloc: Global, context: Context, bottom: Bottom) -> Config
    ensures { plain_config result ≡ machine.go (plain_context context) (machine.at_expression (plain_bottom bottom) (want [])) }
{
    Config {
        context,
        mode: expression_in(alloc, bottom),
    }
}

/// What goes on with the expression of a header, which no block stands before.
pub fn header_step(alloc: Global, context: Context, header: Header) -> Result<Config, Stop>
    ensures { Leads (Some (machine.go (plain_context context) (machine.at_expression (machine.in_header grammar.fresh (plain_header header)) (want [])))) result }
{
    let header = Boxed::new(alloc, header)?;
    Ok(go_in(alloc, context, Bottom::Header(no_arms(alloc), header)))
}

// ---- the beginning of a statement

/// Reads `function`, `@everywhere` or `using`, which stand at the top of a script alone.
fn begin_top(alloc: Global, context: Context, token: Token) -> Result<Config, Stop>
    requires { is_top_word token.kind ≡ true }
    ensures { Leads (machine.begin_step token.kind token (plain_context context) (machine.a_place grammar.empty)) result }
{
    if !scope_of(&context.outer).top {
        return refuse(context);
    }
    match token.kind {
        Kind::Function => go(alloc, context, Awaited::FunctionName(None, token)),
        Kind::Everywhere => go(alloc, context, Awaited::Everywhere(token)),
        _ => go(alloc, context, Awaited::PackageFirst(token)),
    }
}

/// Reads `return`, which stands in a function alone.
fn begin_return(alloc: Global, context: Context, token: Token) -> Result<Config, Stop>
    ensures { Leads (machine.only_if (machine.scope (plain_context context).outer).function
        (machine.go (plain_context context) (machine.at_expression (machine.in_lead (grammar.returned token)) (want [])))) result }
{
    if !scope_of(&context.outer).in_function {
        return refuse(context);
    }
    Ok(go_in(alloc, context, Bottom::Lead(Lead::Returned(token))))
}

/// Reads `break` or `continue`, which stand in a loop alone.
fn begin_jump(context: Context, token: Token) -> Result<Config, Stop>
    ensures { Leads (machine.only_if (machine.scope (plain_context context).outer).loop
        (machine.go (plain_context context) (machine.complete (grammar.alone token)))) result }
{
    if !scope_of(&context.outer).in_loop {
        return refuse(context);
    }
    Ok(Config {
        context,
        mode: Mode::Complete(alone_of(token)),
    })
}

/// Reads the first token of a statement that begins with no expression, or what ends an empty one.
fn begin_step(alloc: Global, context: Context, token: Token) -> Result<Config, Stop>
    ensures { Leads (machine.begin_step token.kind token (plain_context context) (machine.a_place grammar.empty)) result }
{
    match token.kind {
        Kind::While => header_step(alloc, context, Header::While(token)),
        Kind::If => header_step(alloc, context, Header::If(token)),
        Kind::For => go(alloc, context, Awaited::ForName(token)),
        Kind::Try => open_block(alloc, context, no_arms(alloc), try_of(token)),
        Kind::DistributedFor => go(
            alloc,
            context,
            Awaited::DistributedOpen(Distributing {
                target: None,
                word: token,
            }),
        ),
        Kind::Function | Kind::Everywhere | Kind::Using => begin_top(alloc, context, token),
        Kind::Return => begin_return(alloc, context, token),
        Kind::Break | Kind::Continue => begin_jump(context, token),
        _ => ending_step(alloc, context, token, Whole::Place(None)),
    }
}

/// Reads a token where an expression may begin that belongs to a statement or a header.
pub fn first_step(
    alloc: Global,
    context: Context,
    bottom: Bottom,
    token: Token,
) -> Result<Config, Stop>
    ensures { Leads (machine.statement_step token.kind token (plain_context context) (plain_bottom bottom) [] wanted) result }
{
    match bottom {
        Bottom::Lead(Lead::Bare) => begin_step(alloc, context, token),
        Bottom::Lead(Lead::Assigned(name, assign)) => value_step(
            alloc, context, name, assign, token,
        ),
        other => ending_step(alloc, context, token, without_expression(other)),
    }
}

/// Reads a token behind `x =`.
fn value_step(
    alloc: Global,
    context: Context,
    name: Token,
    assign: Token,
    token: Token,
) -> Result<Config, Stop>
    ensures { Leads (machine.value_step name assign token.kind token (plain_context context) machine.nothing_whole) result }
{
    match token.kind {
        Kind::DistributedFor => {
            let target = Some(Target { name, assign });
            go(
                alloc,
                context,
                Awaited::DistributedOpen(Distributing {
                    target,
                    word: token,
                }),
            )
        }
        _ => ending_step(alloc, context, token, Whole::Nothing),
    }
}

// ---- behind an operand

/// Reads `=` behind a target.
fn assign_step(
    alloc: Global,
    context: Context,
    token: Token,
    operand: Measured,
) -> Result<Config, Stop>
    ensures { Leads (machine.assign_step token (plain_context context) (plain_measured operand)) result }
{
    match leaf_token(&operand) {
        Some(name) => {
            if !is_name(name.kind) {
                return refuse((context, operand));
            }
            drop(operand);
            Ok(go_in(alloc, context, Bottom::Lead(Lead::Assigned(name, token))))
        }
        None => define(alloc, context, token, operand),
    }
}

/// Reads `=` behind a name and parameters in parentheses.
fn define(alloc: Global, context: Context, token: Token, operand: Measured) -> Result<Config, Stop>
    requires { leaf_token_in (plain_measured operand) ≡ None }
    ensures { Leads (machine.assign_step token (plain_context context) (plain_measured operand)) result }
{
    if !scope_of(&context.outer).top {
        return refuse((context, operand));
    }
    let stands = match is_signature(alloc, &operand) {
        Ok(stands) => stands,
        Err(_) => return stopped((context, operand), Stop::OutOfMemory),
    };
    if !stands {
        return refuse((context, operand));
    }
    let lead = match defined_of(alloc, operand, token) {
        Ok(lead) => lead,
        Err(_) => return stopped(context, Stop::OutOfMemory),
    };
    Ok(go_in(alloc, context, Bottom::Lead(lead)))
}

/// Reads `+=`, `-=` or `*=` behind a target.
fn update_step(
    alloc: Global,
    context: Context,
    token: Token,
    operand: Measured,
) -> Result<Config, Stop>
    ensures { Leads (machine.update_step token (plain_context context) (plain_measured operand)) result }
{
    match leaf_token(&operand) {
        Some(name) => {
            if !is_name(name.kind) {
                return refuse((context, operand));
            }
            drop(operand);
            Ok(go_in(alloc, context, Bottom::Lead(Lead::Updated(name, token))))
        }
        None => refuse((context, operand)),
    }
}

/// Reads what stands behind the target of an assignment.
pub fn assigning_step(
    alloc: Global,
    context: Context,
    bottom: Bottom,
    token: Token,
    operand: Measured,
) -> Result<Config, Stop>
    requires { assigns token.kind ≡ true }
    ensures { Leads (machine.statement_step token.kind token (plain_context context) (plain_bottom bottom) [] (got (plain_measured operand))) result }
{
    match bottom {
        Bottom::Lead(lead) => match lead {
            Lead::Bare => match token.kind {
                Kind::Assign => assign_step(alloc, context, token, operand),
                _ => update_step(alloc, context, token, operand),
            },
            lead => refuse((context, lead, operand)),
        },
        header => refuse((context, header, operand)),
    }
}
