//! Writes expressions with the nesting that the grammar gives them.

use jd_grammar::token::Token;
use jd_tree::tree::{Application, Cell, Expr, Generator, Item, Listing, Operation};
use std::alloc::AllocError;

pub fn put(out: &mut Vec<u8>, text: &str) -> Result<(), AllocError> {
    out.extend_from_slice(text.as_bytes())
}

/// The text at the token's span.
pub fn show_token(out: &mut Vec<u8>, source: &[u8], token: Token) -> Result<(), AllocError> {
    let start = token.start as usize;
    let end = token.end as usize;
    if start <= end && end <= source.len() {
        out.extend_from_slice(&source[start..end])
    } else {
        Ok(())
    }
}

#[cycle(show)]
fn show_items(out: &mut Vec<u8>, source: &[u8], items: &[Item]) -> Result<(), AllocError> {
    for item in items {
        show_expr(out, source, &item.expr)?;
        show_token(out, source, item.separator)?;
        put(out, " ")?;
    }
    Ok(())
}

#[cycle(show)]
fn show_listing(out: &mut Vec<u8>, source: &[u8], listing: &Listing) -> Result<(), AllocError> {
    show_items(out, source, listing.items.as_slice())?;
    match &listing.last {
        Some(last) => show_expr(out, source, last),
        None => Ok(()),
    }
}

#[cycle(show)]
fn show_call(out: &mut Vec<u8>, source: &[u8], listing: &Listing) -> Result<(), AllocError> {
    put(out, "(")?;
    show_listing(out, source, listing)?;
    put(out, ")")
}

#[cycle(show)]
fn show_index(out: &mut Vec<u8>, source: &[u8], listing: &Listing) -> Result<(), AllocError> {
    put(out, "[")?;
    show_listing(out, source, listing)?;
    put(out, "]")
}

#[cycle(show)]
fn show_applications(
    out: &mut Vec<u8>,
    source: &[u8],
    applications: &[Application],
) -> Result<(), AllocError> {
    for application in applications {
        match application {
            Application::Arguments(listing) => show_call(out, source, listing.get())?,
            Application::Indexes(listing) => show_index(out, source, listing.get())?,
        }
    }
    Ok(())
}

#[cycle(show)]
fn show_operation(
    out: &mut Vec<u8>,
    source: &[u8],
    operation: &Operation,
) -> Result<(), AllocError> {
    put(out, " ")?;
    show_token(out, source, operation.operator)?;
    put(out, " ")?;
    show_expr(out, source, &operation.operand)?;
    put(out, ")")
}

#[cycle(show)]
fn show_operations(
    out: &mut Vec<u8>,
    source: &[u8],
    operations: &[Operation],
) -> Result<(), AllocError> {
    for operation in operations {
        show_operation(out, source, operation)?;
    }
    Ok(())
}

fn open_each(out: &mut Vec<u8>, operations: &[Operation]) -> Result<(), AllocError> {
    for _ in operations {
        put(out, "(")?;
    }
    put(out, "(")
}

#[cycle(show)]
fn show_cells(out: &mut Vec<u8>, source: &[u8], cells: &[Cell]) -> Result<(), AllocError> {
    for cell in cells {
        match cell.semicolon {
            Some(_) => put(out, "; ")?,
            None => put(out, " ")?,
        }
        show_expr(out, source, &cell.atom)?;
    }
    Ok(())
}

#[cycle(show)]
fn show_generators(
    out: &mut Vec<u8>,
    source: &[u8],
    generators: &[Generator],
) -> Result<(), AllocError> {
    for generator in generators {
        put(out, " ")?;
        show_token(out, source, generator.begins)?;
        put(out, " ")?;
        show_token(out, source, generator.name)?;
        put(out, " in ")?;
        show_expr(out, source, &generator.collection)?;
    }
    Ok(())
}

/// Operations stand in parentheses; `paren`, `list`, `matrix`, `comprehension` and `channel` name what brackets are.
#[cycle(show)]
pub fn show_expr(out: &mut Vec<u8>, source: &[u8], expr: &Expr) -> Result<(), AllocError> {
    match expr {
        Expr::Leaf(token) | Expr::Sign(token) => show_token(out, source, *token),
        Expr::Unary(token, operand) => {
            put(out, "(")?;
            show_token(out, source, *token)?;
            show_expr(out, source, operand.get())?;
            put(out, ")")
        }
        Expr::Binary(first, operations, last) => {
            open_each(out, operations.as_slice())?;
            show_expr(out, source, first.get())?;
            show_operations(out, source, operations.as_slice())?;
            show_operation(out, source, last.get())
        }
        Expr::Choice(choice) => {
            let choice = choice.get();
            put(out, "(")?;
            show_expr(out, source, &choice.condition)?;
            put(out, " ? ")?;
            show_expr(out, source, &choice.chosen)?;
            put(out, " : ")?;
            show_expr(out, source, &choice.other)?;
            put(out, ")")
        }
        Expr::Lambda(names, _, body) => {
            put(out, "(")?;
            show_expr(out, source, names.get())?;
            put(out, " -> ")?;
            show_expr(out, source, body.get())?;
            put(out, ")")
        }
        Expr::Spawn(word, place, body) => {
            put(out, "(")?;
            show_token(out, source, *word)?;
            put(out, " ")?;
            show_expr(out, source, place.get())?;
            put(out, " ")?;
            show_expr(out, source, body.get())?;
            put(out, ")")
        }
        Expr::Keyword(keyword) => {
            let keyword = keyword.get();
            put(out, "(")?;
            show_token(out, source, keyword.name)?;
            put(out, " = ")?;
            show_expr(out, source, &keyword.value)?;
            put(out, ")")
        }
        Expr::Group(listing) => {
            put(out, "paren")?;
            show_call(out, source, listing.get())
        }
        Expr::List(listing) => {
            put(out, "list")?;
            show_index(out, source, listing.get())
        }
        Expr::Call(callee, before, listing) => {
            show_expr(out, source, callee.get())?;
            show_applications(out, source, before.as_slice())?;
            show_call(out, source, listing.get())
        }
        Expr::Index(indexed, before, listing) => {
            show_expr(out, source, indexed.get())?;
            show_applications(out, source, before.as_slice())?;
            show_index(out, source, listing.get())
        }
        Expr::Matrix(matrix) => {
            let matrix = matrix.get();
            put(out, "matrix[")?;
            show_expr(out, source, &matrix.first)?;
            show_cells(out, source, matrix.cells.as_slice())?;
            put(out, "]")
        }
        Expr::Comprehension(comprehension) => {
            let comprehension = comprehension.get();
            put(out, "comprehension[")?;
            show_expr(out, source, &comprehension.element)?;
            show_generators(out, source, comprehension.generators.as_slice())?;
            put(out, "]")
        }
        Expr::Remote(remote) => {
            let remote = remote.get();
            put(out, "channel{")?;
            show_token(out, source, remote.element)?;
            put(out, "}(")?;
            show_expr(out, source, &remote.size)?;
            put(out, ", ")?;
            show_expr(out, source, &remote.place)?;
            put(out, ")")
        }
    }
}
