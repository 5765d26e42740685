//! Statements and blocks that know how deep they nest, each made from its parts.
ghost use Rattle.std.specs.Prelude.{◌≡◌, map, option_map, IfOk};
ghost use Rattle.jd_grammar.specs.Script as grammar;
ghost use Rattle.jd_grammar.specs.ScriptDepth.{lead_weight, weight, header_weight, height_opening, height_before, depth_stmt, depth_inner, depth_lines, depth_place};
ghost use Rattle.jd_tree.specs.Measures.{height_up_to};
ghost use Rattle.jd_tree.specs.Code.{plain_measured};
ghost use Rattle.jd_script.specs.PlainScript.{plain_signature, plain_packages, plain_lead, plain_header, plain_opening, plain_stmt, plain_block, plain_line, plain_arm, lines_from, before_from, place_of};
ghost use Rattle.jd_script.specs.CodeScript.{plain_lines, plain_arms, plain_place};

use crate::nested::{Arms, Lines, NestedBlock, NestedOpening, NestedStmt};
use crate::tree::{Arm, Block, Blocks, Header, Lead, Line, Opening, Packages, Signature, Stmt};
use jd_grammar::token::Token;
use jd_tree::measured::Measured;
use sqlite_items::{Boxed, Items};
use std::alloc::{AllocError, Global};

// ---- what stands before an expression

/// `f(a, b) =`.
pub fn defined_of(alloc: Global, head: Measured, assign: Token) -> Result<Lead, AllocError>
    ensures { IfOk result (λ l. plain_lead l ≡ grammar.defined (plain_measured head) assign) }
{
    Ok(Lead::Defined(Boxed::new(alloc, head.expr)?, assign))
}

/// `@everywhere f(a, b) =`.
pub fn defined_everywhere_of(
    alloc: Global,
    every: Token,
    signature: Signature,
    assign: Token,
) -> Result<Lead, AllocError>
    ensures { IfOk result (λ l. plain_lead l ≡ grammar.defined_everywhere every (plain_signature signature) assign) }
{
    Ok(Lead::DefinedEverywhere(every, Boxed::new(alloc, signature)?, assign))
}

/// How many constructs it is round its expression.
pub fn lead_weight_of(lead: &Lead) -> u8
    ensures { result ≡ lead_weight (plain_lead lead.now) }
{
    match lead {
        Lead::Bare => 0,
        Lead::Assigned(_, _) => 1,
        Lead::Updated(_, _) => 1,
        Lead::Defined(_, _) => 1,
        Lead::DefinedEverywhere(_, _, _) => 1,
        Lead::Returned(_) => 1,
    }
}

// ---- statements of one line

pub fn ended_of(lead: Lead, operand: Measured) -> NestedStmt
    ensures { plain_stmt result.stmt ≡ grammar.ended (plain_lead lead) (plain_measured operand) }
{
    let nesting = lead_weight_of(&lead).saturating_add(operand.profile.nesting);
    NestedStmt {
        stmt: Stmt::Ended(lead, operand.expr),
        nesting,
    }
}

/// `return`, `break` or `continue`.
pub fn alone_of(word: Token) -> NestedStmt
    ensures { plain_stmt result.stmt ≡ grammar.alone word }
{
    NestedStmt {
        stmt: Stmt::Alone(word),
        nesting: 0,
    }
}

pub fn packages_of(packages: Packages) -> NestedStmt
    ensures { plain_stmt result.stmt ≡ grammar.packages (plain_packages packages) }
{
    NestedStmt {
        stmt: Stmt::Packages(packages),
        nesting: 0,
    }
}

/// `@everywhere using A`.
pub fn packages_everywhere_of(every: Token, word: Token, name: Token) -> NestedStmt
    ensures { plain_stmt result.stmt ≡ grammar.packages_everywhere every word name }
{
    NestedStmt {
        stmt: Stmt::PackagesEverywhere(every, word, name),
        nesting: 0,
    }
}

// ---- what stands before a block

/// How many constructs a block's header is round its blocks.
pub fn header_weight_of(header: &Header) -> u8
    ensures { result ≡ header_weight (plain_header header.now) }
{
    match header {
        Header::Distributed(distributed) => match distributed.get().target {
            None => 1,
            Some(_) => 2,
        },
        Header::While(_) => 1,
        Header::If(_) => 1,
        Header::Elseif(_) => 1,
        Header::For(_, _, _) => 1,
    }
}

/// How many constructs an opening is round its blocks.
pub fn weight_of(opening: &Opening) -> u8
    ensures { result ≡ weight (plain_opening opening.now) }
{
    match opening {
        Opening::Headed(header, _, _) => header_weight_of(header),
        Opening::Else(_) => 1,
        Opening::Try(_) => 1,
        Opening::Catch(_, _) => 1,
        Opening::CatchName(_, _, _) => 1,
        Opening::Function(_, _, _) => 1,
    }
}

/// A header, its expression and a separator.
pub fn headed_of(
    alloc: Global,
    header: Header,
    condition: Measured,
    separator: Token,
) -> Result<NestedOpening, AllocError>
    ensures { IfOk result (λ o. plain_opening o.opening ≡ grammar.headed (plain_header header) (plain_measured condition) separator) }
{
    let nesting = condition.profile.nesting;
    let condition = Boxed::new(alloc, condition.expr)?;
    Ok(NestedOpening {
        opening: Opening::Headed(header, condition, separator),
        nesting,
    })
}

pub fn else_of(word: Token) -> NestedOpening
    ensures { plain_opening result.opening ≡ grammar.else_open word }
{
    NestedOpening {
        opening: Opening::Else(word),
        nesting: 0,
    }
}

pub fn try_of(word: Token) -> NestedOpening
    ensures { plain_opening result.opening ≡ grammar.try_open word }
{
    NestedOpening {
        opening: Opening::Try(word),
        nesting: 0,
    }
}

pub fn catch_of(word: Token, separator: Token) -> NestedOpening
    ensures { plain_opening result.opening ≡ grammar.catch_open word separator }
{
    NestedOpening {
        opening: Opening::Catch(word, separator),
        nesting: 0,
    }
}

pub fn catch_name_of(word: Token, name: Token, separator: Token) -> NestedOpening
    ensures { plain_opening result.opening ≡ grammar.catch_name word name separator }
{
    NestedOpening {
        opening: Opening::CatchName(word, name, separator),
        nesting: 0,
    }
}

/// `function f(a, b)`, behind `@everywhere` or nothing.
pub fn function_of(
    alloc: Global,
    every: Option<Token>,
    word: Token,
    signature: Signature,
) -> Result<NestedOpening, AllocError>
    ensures { IfOk result (λ o. plain_opening o.opening ≡ grammar.function_open every word (plain_signature signature)) }
{
    Ok(NestedOpening {
        opening: Opening::Function(every, word, Boxed::new(alloc, signature)?),
        nesting: 0,
    })
}

// ---- lines

pub fn no_lines(alloc: Global) -> Lines
    ensures { plain_lines result ≡ grammar.no_lines }
{
    Lines {
        items: Items::new(alloc),
        nesting: 0,
    }
}

/// How deep a statement nests that may be left out, up to 255.
pub fn nesting_of(place: &Option<NestedStmt>) -> u8
    ensures { result ≡ height_up_to (depth_place (plain_place place.now)) }
{
    match place {
        None => 0,
        Some(stmt) => stmt.nesting,
    }
}

fn boxed_stmt(alloc: Global, place: Option<NestedStmt>) -> Result<Option<Boxed<Stmt>>, AllocError>
    ensures { IfOk result (λ s. place_of (option_map plain_stmt s) ≡ plain_place place) }
{
    match place {
        None => Ok(None),
        Some(stmt) => Ok(Some(Boxed::new(alloc, stmt.stmt)?)),
    }
}

/// One line more: a statement or none, and the separator behind it.
pub fn with_line(
    alloc: Global,
    lines: Lines,
    place: Option<NestedStmt>,
    separator: Token,
) -> Result<Lines, AllocError>
    ensures { IfOk result (λ all. plain_lines all ≡ grammar.line (plain_lines lines) (plain_place place) separator) }
{
    let Lines { mut items, nesting } = lines;
    let nesting = nesting.max(nesting_of(&place));
    let stmt = boxed_stmt(alloc, place)?;
    items.push(Line {
        stmt,
        ends: separator,
    })?;
    Ok(Lines { items, nesting })
}

// ---- blocks

/// How deep a block nests inside a statement, up to 255: one without a token is no construct.
fn block_nesting(lines: &Lines, last: &Option<NestedStmt>) -> u8
    ensures { result ≡ height_up_to (depth_inner (grammar.block (plain_lines lines.now) (plain_place last.now))) }
{
    match last {
        Some(stmt) => lines.nesting.max(stmt.nesting).saturating_add(1),
        None => {
            if lines.items.is_empty() {
                0
            } else {
                lines.nesting.saturating_add(1)
            }
        }
    }
}

/// Lines, and the statement behind the last separator, if there is one.
pub fn block_of(
    alloc: Global,
    lines: Lines,
    last: Option<NestedStmt>,
) -> Result<NestedBlock, AllocError>
    ensures { IfOk result (λ b. plain_block b.block ≡ grammar.block (plain_lines lines) (plain_place last)) }
{
    let nesting = block_nesting(&lines, &last);
    let last = boxed_stmt(alloc, last)?;
    let block = Block {
        lines: lines.items,
        last,
    };
    Ok(NestedBlock { block, nesting })
}

pub fn no_arms(alloc: Global) -> Arms
    ensures { plain_arms result ≡ grammar.fresh }
{
    Arms {
        items: Items::new(alloc),
        nesting: 0,
    }
}

/// One block more, behind its opening.
pub fn with_arm(arms: Arms, opening: NestedOpening, block: NestedBlock) -> Result<Arms, AllocError>
    ensures { IfOk result (λ all. plain_arms all
        ≡ grammar.behind (grammar.begun (plain_arms arms) (plain_opening opening.opening)) (plain_block block.block)) }
{
    let Arms { mut items, nesting } = arms;
    let nesting = nesting.max(opening.nesting).max(block.nesting);
    items.push(Arm {
        opening: opening.opening,
        block: block.block,
    })?;
    Ok(Arms { items, nesting })
}

/// Blocks, the last one behind its opening, and `end`.
pub fn blocks_of(
    alloc: Global,
    before: Arms,
    opening: NestedOpening,
    block: NestedBlock,
    ends: Token,
) -> Result<NestedStmt, AllocError>
    ensures { IfOk result (λ s. plain_stmt s.stmt
        ≡ grammar.blocks (grammar.begun (plain_arms before) (plain_opening opening.opening)) (plain_block block.block) ends) }
{
    let nesting = before
        .nesting
        .max(opening.nesting)
        .max(block.nesting)
        .saturating_add(weight_of(&opening.opening));
    let last = Arm {
        opening: opening.opening,
        block: block.block,
    };
    let blocks = Blocks {
        before: before.items,
        last,
        ends,
    };
    let blocks = Boxed::new(alloc, blocks)?;
    Ok(NestedStmt {
        stmt: Stmt::Blocks(blocks),
        nesting,
    })
}
