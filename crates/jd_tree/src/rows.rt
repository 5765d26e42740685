//! Rows of atoms in brackets.
ghost use Rattle.std.specs.Prelude.{◌≡◌, ◌&&◌, nat_eq, if◌then◌else◌, map, IfOk, Some, None, true};
ghost use Rattle.jd_grammar.specs.Trees.{matrix};
ghost use Rattle.jd_grammar.specs.Rows as rows;
ghost use Rattle.jd_grammar.specs.Rows.{most_atoms};
ghost use Rattle.jd_tree.specs.Plain.{plain_cell, cells_at};
ghost use Rattle.jd_tree.specs.Peeling.{taken};
ghost use Rattle.jd_tree.specs.Code.{plain_measured, plain_first, plain_atoms};

use crate::measured::{Atoms, Measured};
use crate::peel::take_all;
use crate::profile::round_profile;
use crate::tree::{Cell, Expr, Matrix};
use jd_grammar::token::Token;
use sqlite_items::{Boxed, Items};
use std::alloc::{AllocError, Global};

/// How many atoms a matrix may have.
pub const MOST_ATOMS: usize = 262_144;

/// The first row's width with an atom more in the last row, where there are so many then.
fn first_with_atom(single: bool, count: usize, first: usize) -> usize
    ensures { result ≡ (if single then count else first) }
{
    if single { count } else { first }
}

/// Whether the rows are even where one more begins.
fn even_with_row(even: bool, last: usize, first: usize) -> bool
    ensures { result ≡ (even && nat_eq last first) }
{
    even && last == first
}

/// One atom more in the last row.
fn in_row(atoms: Atoms, atom: Measured) -> Result<Atoms, AllocError>
    ensures first { IfOk result (λ all. plain_first all ≡ plain_first atoms) }
    ensures others { IfOk result (λ all. plain_atoms all ≡ rows.with_cell (plain_atoms atoms) None (plain_measured atom)) }
{
    let Atoms {
        first,
        mut items,
        nesting,
        first_more,
        last_more,
        single,
        even,
    } = atoms;
    let cell = Cell {
        semicolon: None,
        atom: atom.expr,
    };
    match items.push(cell) {
        Ok(()) => {
            let count = items.len();
            Ok(Atoms {
                first,
                items,
                nesting: nesting.max(atom.profile.nesting),
                first_more: first_with_atom(single, count, first_more),
                last_more: last_more + 1,
                single,
                even,
            })
        }
        Err(refusal) => {
            drop(first);
            Err(refusal)
        }
    }
}

/// An atom that begins a row.
fn in_next_row(atoms: Atoms, semicolon: Token, atom: Measured) -> Result<Atoms, AllocError>
    ensures first { IfOk result (λ all. plain_first all ≡ plain_first atoms) }
    ensures others { IfOk result (λ all. plain_atoms all ≡ rows.with_cell (plain_atoms atoms) (Some semicolon) (plain_measured atom)) }
{
    let Atoms {
        first,
        mut items,
        nesting,
        first_more,
        last_more,
        single: _,
        even,
    } = atoms;
    let cell = Cell {
        semicolon: Some(semicolon),
        atom: atom.expr,
    };
    match items.push(cell) {
        Ok(()) => Ok(Atoms {
            first,
            items,
            nesting: nesting.max(atom.profile.nesting),
            first_more,
            last_more: 0,
            single: false,
            even: even_with_row(even, last_more, first_more),
        }),
        Err(refusal) => {
            drop(first);
            Err(refusal)
        }
    }
}

/// One atom more, behind the `;` that begins its row or in the last row.
pub fn with_atom(
    atoms: Atoms,
    semicolon: Option<Token>,
    atom: Measured,
) -> Result<Atoms, AllocError>
    ensures first { IfOk result (λ all. plain_first all ≡ plain_first atoms) }
    ensures others { IfOk result (λ all. plain_atoms all ≡ rows.with_cell (plain_atoms atoms) semicolon (plain_measured atom)) }
{
    match semicolon {
        None => in_row(atoms, atom),
        Some(semicolon) => in_next_row(atoms, semicolon, atom),
    }
}

/// Whether the rows behind a first atom are of one width, and not too many.
pub fn is_full(atoms: &Atoms) -> bool
    ensures { result ≡ rows.is_full (plain_atoms atoms.now) }
{
    atoms.even && (atoms.last_more == atoms.first_more && atoms.items.len() < MOST_ATOMS)
}

/// Whether rows may be so far: the last one is no longer than the first, and there is room to fill it.
pub fn are_begun(atoms: &Atoms) -> bool
    ensures { result ≡ rows.are_begun (plain_atoms atoms.now) }
{
    atoms.last_more <= atoms.first_more
        && atoms
            .items
            .len()
            .saturating_add(atoms.first_more - atoms.last_more)
            < MOST_ATOMS
}

/// Whether a further row may begin: the last one is as long as the first, and there is room for one more.
pub fn may_go_on(atoms: &Atoms) -> bool
    ensures { result ≡ rows.may_go_on (plain_atoms atoms.now) }
{
    atoms.last_more == atoms.first_more
        && atoms
            .items
            .len()
            .saturating_add(1)
            .saturating_add(atoms.first_more)
            < MOST_ATOMS
}

/// Rows of atoms in brackets.
pub fn matrix_of(
    alloc: Global,
    opens: Token,
    atoms: Atoms,
    closes: Token,
) -> Result<Measured, AllocError>
    ensures { IfOk result (λ m. plain_measured m ≡ matrix opens (plain_first atoms) (plain_atoms atoms) closes) }
{
    let profile = round_profile(atoms.nesting);
    let matrix = Matrix {
        opens,
        first: atoms.first,
        cells: atoms.items,
        closes,
    };
    let matrix = Boxed::new(alloc, matrix)?;
    Ok(Measured {
        expr: Expr::Matrix(matrix),
        profile,
    })
}

/// Puts atoms that were taken off, the last one first, behind a first one.
fn in_order(alloc: Global, taken_off: Items<Expr>) -> Result<Items<Cell>, AllocError>
    ensures { IfOk result (λ cells. cells_at (map plain_cell cells) ≡ taken taken_off) }
{
    let mut cells = Items::new(alloc);
    let mut taken_off = taken_off;
    while let Some(atom) = taken_off.pop() {
        cells.push(Cell {
            semicolon: None,
            atom,
        })?;
    }
    Ok(cells)
}

/// The atoms that an expression is written as.
pub fn split(alloc: Global, row: Measured) -> Result<Atoms, AllocError>
    requires { rows.is_chain (plain_measured row) ≡ true }
    ensures first { IfOk result (λ r. plain_first r ≡ rows.first_of (plain_measured row)) }
    ensures others { IfOk result (λ r. plain_atoms r ≡ rows.cells_of (plain_measured row)) }
{
    let nesting = row.profile.row;
    let mut taken_off = Items::new(alloc);
    let first = take_all(alloc, &mut taken_off, row.expr)?;
    match in_order(alloc, taken_off) {
        Ok(items) => {
            let count = items.len();
            Ok(Atoms {
                first,
                items,
                nesting,
                first_more: count,
                last_more: count,
                single: true,
                even: true,
            })
        }
        Err(refusal) => {
            drop(first);
            Err(refusal)
        }
    }
}
