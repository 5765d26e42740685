//! The requests of this process that weren't answered yet, by number.
ghost use Rattle.std.specs.Prelude.{◌≡◌, OnOk, IfNone, None, Some};
ghost use Rattle.jd_model.specs.Table.{put};
ghost use Rattle.jd_node.specs.Tables.{asks_of, no_asks};

use crate::rows::OpenAsk;
use jd_value::OutOfMemory;
use std::alloc::Global;
use std::collections::HashMap;

#[derive(Drop)]
pub struct Asks {
    rows: HashMap<u64, OpenAsk>,
}

#[tactic(auto, unfolding(crate::specs::Tables::asks_of))]
impl Asks {
    pub fn new(alloc: Global) -> Asks
        ensures { asks_of result ≡ no_asks }
    {
        Asks {
            rows: HashMap::new(alloc),
        }
    }

    pub fn put(&mut self, ask: u64, row: OpenAsk) -> Result<(), OutOfMemory>
        ensures { OnOk result (asks_of self.new ≡ put (asks_of self.old) ask (Some row)) }
    {
        self.rows.insert(ask, row)?;
        Ok(())
    }

    pub fn take(&mut self, ask: u64) -> Option<OpenAsk>
        ensures row { result ≡ asks_of self.old ask }
        ensures gone { asks_of self.new ≡ put (asks_of self.old) ask None }
        ensures same { IfNone result (asks_of self.new ≡ asks_of self.old) }
    {
        self.rows.remove(&ask)
    }
}
