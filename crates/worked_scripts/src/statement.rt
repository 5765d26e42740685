//! Writes statements and blocks: a `;` stands behind each that a separator ends, and `{ }` round each block.

use crate::expression::{put, show_expr, show_token};
use jd_script::tree::{
    Arm, Block, Distributed, Header, Lead, Line, Opening, Packages, Parameters, Signature, Stmt,
};
use std::alloc::AllocError;

fn show_parameters(
    out: &mut Vec<u8>,
    source: &[u8],
    parameters: &Parameters,
) -> Result<(), AllocError> {
    if let Some(first) = parameters.first {
        show_token(out, source, first)?;
    }
    for next in parameters.others.as_slice() {
        put(out, ", ")?;
        show_token(out, source, next.name)?;
    }
    Ok(())
}

fn show_signature(
    out: &mut Vec<u8>,
    source: &[u8],
    signature: &Signature,
) -> Result<(), AllocError> {
    show_token(out, source, signature.name)?;
    put(out, "(")?;
    show_parameters(out, source, &signature.parameters)?;
    put(out, ")")
}

fn show_packages(out: &mut Vec<u8>, source: &[u8], packages: &Packages) -> Result<(), AllocError> {
    put(out, "using ")?;
    show_token(out, source, packages.first)?;
    for next in packages.others.as_slice() {
        put(out, ", ")?;
        show_token(out, source, next.name)?;
    }
    Ok(())
}

fn show_lead(out: &mut Vec<u8>, source: &[u8], lead: &Lead) -> Result<(), AllocError> {
    match lead {
        Lead::Bare => Ok(()),
        Lead::Assigned(name, operator) | Lead::Updated(name, operator) => {
            show_token(out, source, *name)?;
            put(out, " ")?;
            show_token(out, source, *operator)?;
            put(out, " ")
        }
        Lead::Defined(head, _) => {
            put(out, "define ")?;
            show_expr(out, source, head.get())?;
            put(out, " = ")
        }
        Lead::DefinedEverywhere(_, signature, _) => {
            put(out, "define everywhere ")?;
            show_signature(out, source, signature.get())?;
            put(out, " = ")
        }
        Lead::Returned(_) => put(out, "return "),
    }
}

fn show_distributed(
    out: &mut Vec<u8>,
    source: &[u8],
    header: &Distributed,
) -> Result<(), AllocError> {
    if let Some(target) = header.target {
        show_token(out, source, target.name)?;
        put(out, " = ")?;
    }
    put(out, "distributed ")?;
    show_token(out, source, header.reducer)?;
    put(out, " for ")?;
    show_token(out, source, header.name)
}

fn show_header(out: &mut Vec<u8>, source: &[u8], header: &Header) -> Result<(), AllocError> {
    match header {
        Header::While(_) => put(out, "while"),
        Header::If(_) => put(out, "if"),
        Header::Elseif(_) => put(out, "elseif"),
        Header::For(_, name, _) => {
            put(out, "for ")?;
            show_token(out, source, *name)
        }
        Header::Distributed(header) => show_distributed(out, source, header.get()),
    }
}

fn show_opening(out: &mut Vec<u8>, source: &[u8], opening: &Opening) -> Result<(), AllocError> {
    match opening {
        Opening::Headed(header, expr, _) => {
            show_header(out, source, header)?;
            put(out, " ")?;
            show_expr(out, source, expr.get())
        }
        Opening::Else(_) => put(out, "else"),
        Opening::Try(_) => put(out, "try"),
        Opening::Catch(_, _) => put(out, "catch"),
        Opening::CatchName(_, name, _) => {
            put(out, "catch ")?;
            show_token(out, source, *name)
        }
        Opening::Function(every, _, signature) => {
            if every.is_some() {
                put(out, "everywhere ")?;
            }
            put(out, "function ")?;
            show_signature(out, source, signature.get())
        }
    }
}

#[cycle(statements)]
fn show_arm(out: &mut Vec<u8>, source: &[u8], arm: &Arm) -> Result<(), AllocError> {
    show_opening(out, source, &arm.opening)?;
    put(out, " {")?;
    show_block(out, source, &arm.block)?;
    put(out, "} ")
}

#[cycle(statements)]
fn show_arms(out: &mut Vec<u8>, source: &[u8], arms: &[Arm]) -> Result<(), AllocError> {
    for arm in arms {
        show_arm(out, source, arm)?;
    }
    Ok(())
}

#[cycle(statements)]
fn show_stmt(out: &mut Vec<u8>, source: &[u8], stmt: &Stmt) -> Result<(), AllocError> {
    match stmt {
        Stmt::Ended(lead, expr) => {
            show_lead(out, source, lead)?;
            show_expr(out, source, expr)
        }
        Stmt::Alone(word) => show_token(out, source, *word),
        Stmt::Packages(packages) => show_packages(out, source, packages),
        Stmt::PackagesEverywhere(_, _, name) => {
            put(out, "using everywhere ")?;
            show_token(out, source, *name)
        }
        Stmt::Blocks(blocks) => {
            let blocks = blocks.get();
            show_arms(out, source, blocks.before.as_slice())?;
            show_arm(out, source, &blocks.last)?;
            put(out, "end")
        }
    }
}

#[cycle(statements)]
fn show_lines(out: &mut Vec<u8>, source: &[u8], lines: &[Line]) -> Result<(), AllocError> {
    for line in lines {
        if let Some(stmt) = &line.stmt {
            show_stmt(out, source, stmt.get())?;
        }
        put(out, ";")?;
    }
    Ok(())
}

#[cycle(statements)]
pub fn show_block(out: &mut Vec<u8>, source: &[u8], block: &Block) -> Result<(), AllocError> {
    show_lines(out, source, block.lines.as_slice())?;
    match &block.last {
        Some(stmt) => show_stmt(out, source, stmt.get()),
        None => Ok(()),
    }
}
