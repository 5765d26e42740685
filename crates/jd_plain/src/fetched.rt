//! What each process has fetched.
ghost use Rattle.std.specs.Prelude.{◌≡◌, [], OnOk, filter};
ghost use Rattle.std.specs.HashSet.{contains};
ghost use Rattle.jd_model.specs.Machine.{has, add_once};
ghost use Rattle.jd_model.specs.Table.{put};
ghost use Rattle.jd_plain.specs.Tables.{fetched_of, same_cell};

use jd_value::{OutOfMemory, RefId};
use std::alloc::Global;
use std::collections::{HashMap, HashSet};

/// The futures that each process has fetched: none where nothing is held.
#[derive(Drop)]
pub struct Fetched {
    pub held: HashMap<u32, Vec<RefId>>,
}

impl Fetched {
    /// Nothing anywhere.
    pub fn new(alloc: Global) -> Fetched
        ensures { fetched_of result ≡ (λ p. []) }
    {
        Fetched {
            held: HashMap::new(alloc),
        }
    }

    /// Whether a process has fetched a cell.
    pub fn has(&self, process: u32, cell: RefId) -> bool
        ensures { result ≡ has (fetched_of self.now process) cell }
    {
        match self.held.get(&process) {
            Some(cells) => cells.iter().any(|held| *held == cell),
            None => false,
        }
    }

    /// Takes the list of a process out.
    fn take(&mut self, alloc: Global, process: u32) -> Vec<RefId>
        ensures list { result.items ≡ fetched_of self.old process }
        ensures rest { fetched_of self.new ≡ put (fetched_of self.old) process [] }
    {
        match self.held.remove(&process) {
            Some(cells) => cells,
            None => Vec::new(alloc),
        }
    }

    /// Puts the list of a process in.
    fn put(&mut self, process: u32, cells: Vec<RefId>) -> Result<(), OutOfMemory>
        ensures { OnOk result (fetched_of self.new ≡ put (fetched_of self.old) process cells.items) }
    {
        self.held.insert(process, cells)?;
        Ok(())
    }

    /// Adds a cell to those that a process has fetched, where it isn't there.
    pub fn add(&mut self, alloc: Global, process: u32, cell: RefId) -> Result<(), OutOfMemory>
        ensures { OnOk result (fetched_of self.new ≡ put (fetched_of self.old) process (add_once (fetched_of self.old process) cell)) }
    {
        if self.has(process, cell) {
            return Ok(());
        }
        let mut cells = self.take(alloc, process);
        cells.push(cell)?;
        self.put(process, cells)?;
        Ok(())
    }

    /// Keeps, of the cells that a process has fetched, those of this set.
    pub fn keep(
        &mut self,
        alloc: Global,
        process: u32,
        kept: &HashSet<RefId>,
    ) -> Result<(), OutOfMemory>
        ensures { OnOk result (fetched_of self.new ≡ put (fetched_of self.old) process (filter (contains same_cell kept.now) (fetched_of self.old process))) }
    {
        let mut cells = self.take(alloc, process);
        cells.retain(|cell| kept.contains(cell));
        self.put(process, cells)?;
        Ok(())
    }
}
