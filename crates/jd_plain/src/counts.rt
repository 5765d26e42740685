//! Counts by process.
ghost use Rattle.std.specs.Prelude.{◌≡◌, OnOk};
ghost use Rattle.jd_model.specs.Table.{put};
ghost use Rattle.jd_plain.specs.Tables.{counts_of};

use jd_value::OutOfMemory;
use std::alloc::Global;
use std::collections::HashMap;

/// How many of something each process has: 0 where nothing is held.
#[derive(Drop)]
pub struct Counts {
    pub held: HashMap<u32, u64>,
}

impl Counts {
    /// None anywhere.
    pub fn new(alloc: Global) -> Counts
        ensures { counts_of result ≡ (λ p. 0) }
    {
        Counts {
            held: HashMap::new(alloc),
        }
    }

    /// The count of a process.
    pub fn get(&self, process: u32) -> u64
        ensures { result ≡ counts_of self.now process }
    {
        self.held.get(&process).copied().unwrap_or(0)
    }

    /// Puts the count of a process.
    pub fn put(&mut self, process: u32, count: u64) -> Result<(), OutOfMemory>
        ensures { OnOk result (counts_of self.new ≡ put (counts_of self.old) process count) }
    {
        self.held.insert(process, count)?;
        Ok(())
    }
}
