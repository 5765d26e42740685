//! Reads what only some tokens may follow: the heads of loops, signatures, packages and `catch`.
ghost use Rattle.std.specs.Prelude.{◌≡◌, Some};
ghost use Rattle.jd_grammar.specs.Reader as machine;
ghost use Rattle.jd_script.specs.PlainScript.{plain_packages, plain_parameters, plain_signature, plain_stmt, plain_target};
ghost use Rattle.jd_script.specs.CodeScript.{plain_arms};
ghost use Rattle.jd_reader.specs.Reading.{plain_awaited, plain_context, plain_owner, Leads};

use crate::blocks::{ending_step, open_block};
use crate::context::{Awaited, Bottom, Config, Context, Distributing, Mode, Owner, Signing, Whole};
use crate::statements::{go, go_in, header_step};
use jd_grammar::token::{Kind, Token};
use jd_precedence::stop::{Stop, refuse};
use jd_script::blocks::{
    catch_name_of, catch_of, defined_everywhere_of, function_of, no_arms, packages_everywhere_of,
    packages_of,
};
use jd_script::nested::{Arms, NestedStmt};
use jd_script::parameters::{
    NamedParameters, first_package, first_parameter, is_fresh, no_parameters, signature_of,
    with_package, with_parameter,
};
use jd_script::tree::{Distributed, Header, Packages, Signature, Stmt};
use jd_tree::kinds::{is_in, is_name, is_package, is_reducer, is_separator};
use sqlite_items::Boxed;
use std::alloc::Global;

/// Goes on with such words where the token may stand there.
fn go_if(alloc: Global, context: Context, stands: bool, words: Awaited) -> Result<Config, Stop>
    ensures { Leads (machine.only_if stands (machine.go (plain_context context) (machine.at_words (plain_awaited words)))) result }
{
    if !stands {
        return refuse((context, words));
    }
    go(alloc, context, words)
}

// ---- loops

/// Reads the `in` of a loop.
fn for_in_step(
    alloc: Global,
    context: Context,
    loops: Token,
    name: Token,
    token: Token,
) -> Result<Config, Stop>
    ensures { Leads (machine.words_step (machine.for_in loops name) token (plain_context context)) result }
{
    if !is_in(token.kind) {
        return refuse(context);
    }
    let header = Header::For(loops, name, token);
    header_step(alloc, context, header)
}

/// The signs of a loop with `@distributed` before its name.
#[derive(Clone, Copy)]
struct Reduction {
    opens: Token,
    reducer: Token,
    closes: Token,
    loops: Token,
}

/// Reads the `in` of a loop with `@distributed`.
fn distributed_in_step(
    alloc: Global,
    context: Context,
    distributing: Distributing,
    reduction: Reduction,
    name: Token,
    token: Token,
) -> Result<Config, Stop>
    ensures { let before = machine.distributed_in (plain_target distributing.target) distributing.word reduction.opens reduction.reducer reduction.closes reduction.loops in
        Leads (machine.words_step (before name) token (plain_context context)) result }
{
    if !is_in(token.kind) {
        return refuse(context);
    }
    let header = Boxed::new(
        alloc,
        Distributed {
            target: distributing.target,
            word: distributing.word,
            opens: reduction.opens,
            reducer: reduction.reducer,
            closes: reduction.closes,
            loops: reduction.loops,
            name,
            within: token,
        },
    )?;
    let header = Header::Distributed(header);
    header_step(alloc, context, header)
}

// ---- signatures

/// What goes on behind a signature.
fn close_signature(
    alloc: Global,
    context: Context,
    owner: Owner,
    signature: Signature,
) -> Result<Config, Stop>
    ensures { Leads (Some (machine.close_signature (plain_owner owner) (plain_signature signature) (plain_context context))) result }
{
    match owner {
        Owner::Function(every, word) => {
            let opening = function_of(alloc, every, word, signature)?;
            open_block(alloc, context, no_arms(alloc), opening)
        }
        Owner::Everywhere(every) => go(alloc, context, Awaited::SignatureEnd(every, signature)),
    }
}

/// Reads a token behind the parenthesis of a signature.
fn first_step(
    alloc: Global,
    context: Context,
    signing: Signing,
    token: Token,
) -> Result<Config, Stop>
    ensures { let next = machine.first_step (plain_owner signing.owner) signing.name signing.opens in
        Leads (next token.kind token (plain_context context)) result }
{
    match token.kind {
        Kind::Name(_) => {
            let parameters = first_parameter(alloc, token)?;
            go(alloc, context, Awaited::SignatureNext(signing, parameters))
        }
        Kind::CloseParen => {
            let parameters = no_parameters(alloc);
            let signature = signature_of(signing.name, signing.opens, parameters, token);
            close_signature(alloc, context, signing.owner, signature)
        }
        _ => refuse(context),
    }
}

/// Reads a token behind a parameter.
fn next_step(
    alloc: Global,
    context: Context,
    signing: Signing,
    parameters: NamedParameters,
    token: Token,
) -> Result<Config, Stop>
    ensures { let next = machine.next_step (plain_owner signing.owner) signing.name signing.opens (plain_parameters parameters.parameters) in
        Leads (next token.kind token (plain_context context)) result }
{
    match token.kind {
        Kind::Comma => go(
            alloc,
            context,
            Awaited::SignatureName(signing, parameters, token),
        ),
        Kind::CloseParen => {
            let signature = signature_of(signing.name, signing.opens, parameters, token);
            close_signature(alloc, context, signing.owner, signature)
        }
        _ => refuse((context, parameters)),
    }
}

/// Reads a parameter behind a comma.
fn parameter_step(
    alloc: Global,
    context: Context,
    signing: Signing,
    parameters: NamedParameters,
    comma: Token,
    token: Token,
) -> Result<Config, Stop>
    ensures { let before = machine.signature_name (plain_owner signing.owner) signing.name signing.opens (plain_parameters parameters.parameters) comma in
        Leads (machine.words_step before token (plain_context context)) result }
{
    if !is_name(token.kind) || !is_fresh(&parameters, token.kind) {
        return refuse((context, parameters));
    }
    let parameters = with_parameter(parameters, comma, token)?;
    go(alloc, context, Awaited::SignatureNext(signing, parameters))
}

/// Reads `=` behind a signature.
fn signature_end_step(
    alloc: Global,
    context: Context,
    every: Token,
    signature: Signature,
    token: Token,
) -> Result<Config, Stop>
    ensures { Leads (machine.words_step (machine.signature_end every (plain_signature signature)) token (plain_context context)) result }
{
    if !matches!(token.kind, Kind::Assign) {
        return refuse((context, signature));
    }
    let lead = defined_everywhere_of(alloc, every, signature, token)?;
    Ok(go_in(alloc, context, Bottom::Lead(lead)))
}

// ---- `@everywhere` and packages

/// Reads a token behind `@everywhere`.
fn everywhere_step(
    alloc: Global,
    context: Context,
    every: Token,
    token: Token,
) -> Result<Config, Stop>
    ensures { Leads (machine.everywhere_step every token.kind token (plain_context context)) result }
{
    match token.kind {
        Kind::Using => go(alloc, context, Awaited::EverywherePackage(every, token)),
        Kind::Function => go(alloc, context, Awaited::FunctionName(Some(every), token)),
        Kind::Name(_) => go(
            alloc,
            context,
            Awaited::SignatureOpen(Owner::Everywhere(every), token),
        ),
        _ => refuse(context),
    }
}

/// A statement that is whole, where the token may stand there.
fn complete_if(context: Context, stands: bool, statement: NestedStmt) -> Result<Config, Stop>
    ensures { Leads (machine.only_if stands (machine.go (plain_context context) (machine.complete (plain_stmt statement.stmt)))) result }
{
    if !stands {
        return refuse((context, statement));
    }
    Ok(Config {
        context,
        mode: Mode::Complete(statement),
    })
}

/// Reads a further package.
fn package_next_step(
    context: Context,
    packages: Packages,
    comma: Token,
    token: Token,
) -> Result<Config, Stop>
    ensures { Leads (machine.words_step (machine.package_next (plain_packages packages) comma) token (plain_context context)) result }
{
    let packages = with_package(packages, comma, token)?;
    complete_if(context, is_package(token.kind), packages_of(packages))
}

/// Reads a token behind a statement that is whole.
pub fn complete_step(
    alloc: Global,
    context: Context,
    statement: NestedStmt,
    token: Token,
) -> Result<Config, Stop>
    ensures { Leads (machine.complete_step token.kind token (plain_context context) (plain_stmt statement.stmt)) result }
{
    match token.kind {
        Kind::Comma => {
            let NestedStmt { stmt, nesting: _ } = statement;
            match stmt {
                Stmt::Packages(packages) => go(
                    alloc,
                    context,
                    Awaited::PackageNext(packages, token),
                ),
                other => refuse((context, other)),
            }
        }
        _ => ending_step(alloc, context, token, Whole::Place(Some(statement))),
    }
}

// ---- `catch`

/// Reads a token behind `catch`.
fn catch_step(
    alloc: Global,
    context: Context,
    before: Arms,
    word: Token,
    token: Token,
) -> Result<Config, Stop>
    ensures { Leads (machine.catch_step (plain_arms before) word token.kind token (plain_context context)) result }
{
    match token.kind {
        Kind::Name(_) => go(alloc, context, Awaited::CatchNamed(before, word, token)),
        Kind::Semicolon | Kind::LineEnd => open_block(
            alloc,
            context,
            before,
            catch_of(word, token),
        ),
        _ => refuse((context, before)),
    }
}

/// Reads the separator behind the name of what is caught.
fn catch_named_step(
    alloc: Global,
    context: Context,
    before: Arms,
    signs: (Token, Token),
    token: Token,
) -> Result<Config, Stop>
    ensures { Leads (machine.words_step (machine.catch_named (plain_arms before) signs.0 signs.1) token (plain_context context)) result }
{
    if !is_separator(token.kind) {
        return refuse((context, before));
    }
    open_block(
        alloc,
        context,
        before,
        catch_name_of(signs.0, signs.1, token),
    )
}

// ---- all of them

/// Reads a token behind what only some tokens may follow.
pub fn words_step(
    alloc: Global,
    context: Context,
    awaited: Awaited,
    token: Token,
) -> Result<Config, Stop>
    ensures { Leads (machine.words_step (plain_awaited awaited) token (plain_context context)) result }
{
    let kind = token.kind;
    match awaited {
        Awaited::ForName(loops) => go_if(
            alloc,
            context,
            is_name(kind),
            Awaited::ForIn(loops, token),
        ),
        Awaited::ForIn(loops, name) => for_in_step(alloc, context, loops, name, token),
        Awaited::DistributedOpen(distributing) => {
            let opens = matches!(kind, Kind::OpenParen);
            go_if(
                alloc,
                context,
                opens,
                Awaited::DistributedReducer(distributing, token),
            )
        }
        Awaited::DistributedReducer(distributing, opens) => {
            let words = Awaited::DistributedClose(distributing, opens, token);
            go_if(alloc, context, is_reducer(kind), words)
        }
        Awaited::DistributedClose(distributing, opens, reducer) => {
            let words = Awaited::DistributedFor(distributing, opens, reducer, token);
            go_if(alloc, context, matches!(kind, Kind::CloseParen), words)
        }
        Awaited::DistributedFor(distributing, opens, reducer, closes) => {
            let words = Awaited::DistributedName(distributing, opens, reducer, closes, token);
            go_if(alloc, context, matches!(kind, Kind::For), words)
        }
        Awaited::DistributedName(distributing, opens, reducer, closes, loops) => {
            let words = Awaited::DistributedIn(distributing, opens, reducer, closes, loops, token);
            go_if(alloc, context, is_name(kind), words)
        }
        Awaited::DistributedIn(distributing, opens, reducer, closes, loops, name) => {
            let reduction = Reduction {
                opens,
                reducer,
                closes,
                loops,
            };
            distributed_in_step(alloc, context, distributing, reduction, name, token)
        }
        Awaited::FunctionName(every, word) => {
            let words = Awaited::SignatureOpen(Owner::Function(every, word), token);
            go_if(alloc, context, is_name(kind), words)
        }
        Awaited::SignatureOpen(owner, name) => {
            let signing = Signing {
                owner,
                name,
                opens: token,
            };
            let opens = matches!(kind, Kind::OpenParen);
            go_if(alloc, context, opens, Awaited::SignatureFirst(signing))
        }
        Awaited::SignatureFirst(signing) => first_step(alloc, context, signing, token),
        Awaited::SignatureNext(signing, parameters) => next_step(
            alloc, context, signing, parameters, token,
        ),
        Awaited::SignatureName(signing, parameters, comma) => parameter_step(
            alloc, context, signing, parameters, comma, token,
        ),
        Awaited::SignatureEnd(every, signature) => signature_end_step(
            alloc, context, every, signature, token,
        ),
        Awaited::Everywhere(every) => everywhere_step(alloc, context, every, token),
        Awaited::EverywherePackage(every, word) => {
            let statement = packages_everywhere_of(every, word, token);
            complete_if(context, is_package(kind), statement)
        }
        Awaited::PackageFirst(word) => {
            let packages = first_package(alloc, word, token);
            complete_if(context, is_package(kind), packages_of(packages))
        }
        Awaited::PackageNext(packages, comma) => package_next_step(context, packages, comma, token),
        Awaited::CatchWords(before, word) => catch_step(alloc, context, before, word, token),
        Awaited::CatchNamed(before, word, name) => catch_named_step(
            alloc,
            context,
            before,
            (word, name),
            token,
        ),
    }
}
