//! The requests of the machine.
ghost use Rattle.std.specs.Prelude.{◌≡◌, None, Some, OnOk, option_map};
ghost use Rattle.std.specs.Option.{option_copied};
ghost use Rattle.jd_model.specs.Table.{put2};
ghost use Rattle.jd_plain.specs.Held.{request_of, answered_with};
ghost use Rattle.jd_plain.specs.Tables.{requests_of};

use crate::request::Request;
use jd_model::Answer;
use jd_value::{Ask, OutOfMemory};
use std::alloc::Global;
use std::collections::HashMap;
use std::mem::replace;

/// The requests by the process that asked them and their numbers there.
#[derive(Drop)]
pub struct Requests {
    pub held: HashMap<Ask, Request>,
}

impl Requests {
    /// No request.
    pub fn new(alloc: Global) -> Requests
        ensures { requests_of result ≡ (λ p a. None) }
    {
        Requests {
            held: HashMap::new(alloc),
        }
    }

    /// The request of this name.
    pub fn get(&self, ask: Ask) -> Option<&Request>
        ensures { option_map request_of (option_copied result) ≡ requests_of self.now ask.process ask.number }
    {
        self.held.get(&ask)
    }

    /// Puts a request in.
    pub fn put(&mut self, ask: Ask, request: Request) -> Result<(), OutOfMemory>
        ensures { OnOk result (requests_of self.new ≡ put2 (requests_of self.old) ask.process ask.number (Some (request_of request))) }
    {
        drop(self.held.insert(ask, request)?);
        Ok(())
    }

    /// Changes how far a request has come.
    pub fn set_answer(&mut self, ask: Ask, answer: Answer)
        ensures { requests_of self.new ≡ put2 (requests_of self.old) ask.process ask.number (option_map (answered_with answer) (requests_of self.old ask.process ask.number)) }
    {
        match self.held.get_mut(&ask) {
            Some(held) => drop(replace(&mut held.answer, answer)),
            None => drop(answer),
        }
    }
}
