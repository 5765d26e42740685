//! Rows of atoms, as they are read.
ghost use Rattle.std.specs.Prelude.{◌≡◌, ◌∷◌, ◌++◌, [], IfOk, OnOk};
ghost use Rattle.jd_value.specs.declared.builtin.Builtin.TheVariants as builtin;
ghost use Rattle.jd_value.specs.declared.expr.Expr.TheVariants.{Apply};
ghost use Rattle.jd_lower.specs.Rows.{with_atom};

use crate::operators::one_item;
use jd_grammar::token::Token;
use jd_value::{Builtin, Expr, OutOfMemory};
use sqlite_items::Items;
use std::alloc::Global;
use std::mem::replace;

/// The rows so far as tuples, and the atoms of the last one.
#[derive(Drop)]
pub struct Rows {
    pub rows: Items<Expr>,
    pub begun: Items<Expr>,
}

impl Rows {
    /// A row that begins with this atom.
    pub fn of(alloc: Global, first: Expr) -> Result<Rows, OutOfMemory>
        ensures { IfOk result (λ r. r ≡ record { rows = []; begun = first ∷ [] }) }
    {
        let begun = one_item(alloc, first)?;
        Ok(Rows {
            rows: Items::new(alloc),
            begun,
        })
    }

    /// An atom that begins the next row.
    fn begin_row(&mut self, alloc: Global, atom: Expr) -> Result<(), OutOfMemory>
        ensures { OnOk result (self.new ≡ record { rows = self.old.rows ++ Apply builtin.Tuple self.old.begun ∷ []; begun = atom ∷ [] }) }
    {
        let begun = one_item(alloc, atom)?;
        let ended = replace(&mut self.begun, begun);
        self.rows.push(Expr::Apply(Builtin::Tuple, ended))?;
        Ok(())
    }

    /// One more atom, of the last row or behind a `;`, which begins the next row.
    pub fn push(
        &mut self,
        alloc: Global,
        semicolon: Option<Token>,
        atom: Expr,
    ) -> Result<(), OutOfMemory>
        ensures { OnOk result (self.new ≡ with_atom self.old semicolon atom) }
    {
        match semicolon {
            None => {
                self.begun.push(atom)?;
                Ok(())
            }
            Some(_) => self.begin_row(alloc, atom),
        }
    }

    /// The grid of all rows.
    pub fn into_grid(self) -> Result<Expr, OutOfMemory>
        ensures { IfOk result (λ e. e ≡ Apply builtin.Grid (self.rows ++ Apply builtin.Tuple self.begun ∷ [])) }
    {
        let Rows { rows, begun } = self;
        let mut rows = rows;
        rows.push(Expr::Apply(Builtin::Tuple, begun))?;
        Ok(Expr::Apply(Builtin::Grid, rows))
    }
}
