//! The cells of the machine.
ghost use Rattle.std.specs.Prelude.{◌≡◌, None, Some, OnOk};
ghost use Rattle.std.specs.Option.{option_copied};
ghost use Rattle.jd_model.specs.Machine.{joined, settled};
ghost use Rattle.jd_model.specs.Table.{put3};
ghost use Rattle.jd_plain.specs.Tables.{cells_of};

use jd_value::{OutOfMemory, Outcome, RefId};
use std::alloc::Global;
use std::collections::HashMap;

/// The cells that were made, each with its outcome once that is set.
#[derive(Drop)]
pub struct Cells {
    pub held: HashMap<RefId, Option<Outcome>>,
}

impl Cells {
    /// No cell.
    pub fn new(alloc: Global) -> Cells
        ensures { cells_of result ≡ (λ m n o. None) }
    {
        Cells {
            held: HashMap::new(alloc),
        }
    }

    /// The outcome of a cell, where it is set.
    pub fn outcome(&self, cell: RefId) -> Option<&Outcome>
        ensures { option_copied result ≡ joined (cells_of self.now cell.maker cell.number cell.owner) }
    {
        match self.held.get(&cell) {
            Some(Some(outcome)) => Some(outcome),
            _ => None,
        }
    }

    /// Makes a cell that isn't set.
    pub fn make(&mut self, cell: RefId) -> Result<(), OutOfMemory>
        ensures { OnOk result (cells_of self.new ≡ put3 (cells_of self.old) cell.maker cell.number cell.owner (Some None)) }
    {
        drop(self.held.insert(cell, None)?);
        Ok(())
    }

    /// Sets a cell, unless it is set.
    pub fn settle(&mut self, cell: RefId, outcome: Outcome) -> Result<(), OutOfMemory>
        ensures { OnOk result (cells_of self.new ≡ put3 (cells_of self.old) cell.maker cell.number cell.owner (settled (cells_of self.old cell.maker cell.number cell.owner) outcome)) }
    {
        if self.outcome(cell).is_some() {
            drop(outcome);
            return Ok(());
        }
        drop(self.held.insert(cell, Some(outcome))?);
        Ok(())
    }
}
