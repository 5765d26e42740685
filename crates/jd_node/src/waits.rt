//! The requests that wait here until their cells are set.
ghost use Rattle.std.specs.Prelude.{◌≡◌, OnOk, IfOk, [], ◌∷◌, ◌++◌, map, filter, not};
ghost use Rattle.jd_model.specs.Machine.{is_same};
ghost use Rattle.jd_node.specs.Waits.{waits_of, asks_at};

use crate::rows::Waiting;
use jd_value::{Ask, OutOfMemory, RefId};
use std::alloc::Global;

#[derive(Drop)]
pub struct Waits {
    /// In the order of their arrival.
    rows: Vec<Waiting>,
}

#[tactic(auto, unfolding(crate::specs::Waits::waits_of))]
impl Waits {
    pub fn new(alloc: Global) -> Waits
        ensures { waits_of result ≡ [] }
    {
        Waits {
            rows: Vec::new(alloc),
        }
    }

    pub fn push(&mut self, row: Waiting) -> Result<(), OutOfMemory>
        ensures { OnOk result (waits_of self.new ≡ waits_of self.old ++ row ∷ []) }
    {
        self.rows.push(row)?;
        Ok(())
    }

    /// Those that wait for this cell, in the order of their arrival.
    pub fn asks_at(&self, alloc: Global, cell: RefId) -> Result<Vec<Ask>, OutOfMemory>
        ensures { IfOk result (λ asks. asks.items ≡ asks_at cell (waits_of self.now)) }
    {
        let asks = self
            .rows
            .iter()
            .filter(|row| row.cell == cell)
            .map(|row| row.ask)
            .collect(alloc)?;
        Ok(asks)
    }

    /// Forgets those that wait for this cell.
    pub fn forget(&mut self, cell: RefId)
        ensures { waits_of self.new ≡ filter (λ w. not (is_same cell w.cell)) (waits_of self.old) }
    {
        self.rows.retain(|row| row.cell != cell);
    }
}
