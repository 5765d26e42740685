//! What a process keeps by reference.
ghost use Rattle.std.specs.Prelude.{◌≡◌, OnOk, None, Some};
ghost use Rattle.std.specs.Option.{option_copied};
ghost use Rattle.jd_model.specs.Table.{put3};
ghost use Rattle.jd_node.specs.Tables.{cells_of, no_cells};

use jd_value::{OutOfMemory, RefId};
use std::alloc::Global;
use std::collections::HashMap;

#[derive(Drop)]
pub struct Cells<V> {
    rows: HashMap<RefId, V>,
}

#[tactic(auto, unfolding(crate::specs::Tables::cells_of))]
impl<V: Drop> Cells<V> {
    pub fn new(alloc: Global) -> Cells<V>
        ensures { cells_of result ≡ no_cells }
    {
        Cells {
            rows: HashMap::new(alloc),
        }
    }

    pub fn at(&self, cell: RefId) -> Option<&V>
        ensures { option_copied result ≡ cells_of self.now cell.maker cell.number cell.owner }
    {
        self.rows.get(&cell)
    }

    pub fn put(&mut self, cell: RefId, row: V) -> Result<(), OutOfMemory>
        ensures { OnOk result (cells_of self.new ≡ put3 (cells_of self.old) cell.maker cell.number cell.owner (Some row)) }
    {
        self.rows.insert(cell, row)?;
        Ok(())
    }
}
