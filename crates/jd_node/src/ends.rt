//! A task ends.
ghost use Rattle.std.specs.Prelude.{◌≡◌, OnOk, IfOk, is_some, Some};
ghost use Rattle.jd_model.specs.Machine as machine;
ghost use Rattle.jd_model.specs.Node as spec;
ghost use Rattle.jd_node.specs.View.{node_of, effects_of, id_of, stepped_of, Makes};
ghost use Rattle.jd_node.specs.Steps.{all_woken};

use crate::node::Node;
use jd_model::Effect;
use jd_task::Msg;
use jd_value::{Ask, Fault, OutOfMemory, Outcome, RefId, Shared, copy_outcome};
use std::alloc::Global;
use std::mem::replace;

/// A fault of a task, as others see it: it came from that process.
fn passed_on(alloc: Global, process: u32, outcome: Outcome) -> Result<Outcome, OutOfMemory>
    ensures { IfOk result (λ o. o ≡ machine.passed_on process outcome) }
{
    match outcome {
        Ok(value) => Ok(Ok(value)),
        Err(fault) => Ok(Err(Fault::Remote(process, Shared::new(alloc, fault)?))),
    }
}

impl Node {
    /// A task came to its end. That of main is kept, that of another sets the task's cell.
    pub(crate) fn end(&mut self, cell: Option<RefId>, outcome: Outcome) -> Result<(), OutOfMemory>
        ensures step { OnOk result (Makes self.old (spec.ended (id_of self.old) (node_of self.old) cell outcome) self.new) }
        ensures id { id_of self.new ≡ id_of self.old }
    {
        match cell {
            None => {
                drop(replace(&mut self.main_end, Some(outcome)));
                Ok(())
            }
            Some(cell) => self.end_called(cell, outcome),
        }
    }

    /// A task that was called came to its end.
    fn end_called(&mut self, cell: RefId, outcome: Outcome) -> Result<(), OutOfMemory>
        ensures step { OnOk result (Makes self.old (spec.ended (id_of self.old) (node_of self.old) (Some cell) outcome) self.new) }
        ensures id { id_of self.new ≡ id_of self.old }
    {
        let outcome = passed_on(self.alloc, self.id, outcome)?;
        let set = self.set_once(cell, &outcome);
        drop(outcome);
        set
    }

    fn is_set(&self, cell: RefId) -> bool
        ensures { result ≡ is_some (spec.stored_at (node_of self.now) cell) }
    {
        match self.cells.at(cell) {
            Some(Some(_)) => true,
            Some(None) | None => false,
        }
    }

    fn put_copy(&mut self, cell: RefId, outcome: &Outcome) -> Result<(), OutOfMemory>
        ensures node { OnOk result (node_of self.new ≡ spec.with_cell (node_of self.old) cell (Some (Some outcome.now))) }
        ensures effects { effects_of self.new ≡ effects_of self.old }
        ensures id { id_of self.new ≡ id_of self.old }
    {
        self.put_cell(cell, Some(copy_outcome(outcome)?))
    }

    /// A cell that isn't set gets its outcome, and those that wait for it are answered.
    fn set_once(&mut self, cell: RefId, outcome: &Outcome) -> Result<(), OutOfMemory>
        ensures step { OnOk result (Makes self.old (spec.set_once_at (id_of self.old) (node_of self.old) cell outcome.now (spec.stored_at (node_of self.old) cell)) self.new) }
        ensures id { id_of self.new ≡ id_of self.old }
    {
        if self.is_set(cell) {
            return Ok(());
        }
        let asks = self.waits.asks_at(self.alloc, cell)?;
        self.waits.forget(cell);
        self.put_copy(cell, outcome)?;
        self.wake_all(asks.as_slice(), outcome)
    }

    /// These requests have this answer, in their order.
    fn wake_all(&mut self, asks: &[Ask], outcome: &Outcome) -> Result<(), OutOfMemory>
        ensures step { OnOk result (stepped_of self.new ≡ all_woken (id_of self.old) outcome.now asks.now (stepped_of self.old)) }
        ensures id { id_of self.new ≡ id_of self.old }
    {
        for ask in asks {
            let answer = copy_outcome(outcome)?;
            self.wake(*ask, answer)?;
        }
        Ok(())
    }

    /// A waiting request has its answer: one of this process itself at once, another by a reply.
    fn wake(&mut self, ask: Ask, answer: Outcome) -> Result<(), OutOfMemory>
        ensures step { OnOk result (Makes self.old (spec.woken (id_of self.old) (node_of self.old) ask answer) self.new) }
        ensures id { id_of self.new ≡ id_of self.old }
    {
        if let Err(refused) = self.note(Effect::Took(ask)) {
            drop(answer);
            return Err(refused);
        }
        if ask.process == self.id {
            return self.answer(ask.number, answer);
        }
        self.send(
            ask.process,
            Msg::Reply {
                ask: ask.number,
                outcome: answer,
            },
        )
    }
}
