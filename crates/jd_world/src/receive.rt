//! What comes to process 1.
ghost use Rattle.std.specs.Prelude.{◌≡◌, ℕ, ◌<◌, IfOk, IfErr, MatchOption, true, false};
ghost use Rattle.jd_world.specs.Fabric.{max_events};
ghost use Rattle.jd_world.specs.declared.fabric.Arrival.TheVariants.{Message};
ghost use Rattle.jd_world.specs.declared.step_fault.StepFault.TheVariants.{Spent, Stranger};
ghost use Rattle.jd_world.specs.Workers.{IsIdle, CanMove};
ghost use Rattle.jd_world.specs.Outside.{told_of, Finds, IsStill, CanHappen, ComesToSpent, ComesToStranger, TakesOff, IsFromWorker, IsEmptyToMain};

use crate::fabric::Arrival;
use crate::outside::Outside;
use crate::step::outside_step;
use crate::step_fault::StepFault;
use crate::worker::Worker;
use jd_model::Event;
use jd_task::Msg;

/// A message for process 1, which comes from a worker.
fn arrival(is_worker: bool, from: u32, msg: Msg) -> Result<Arrival, StepFault>
    ensures ok { IfOk result (λ a. (is_worker ≡ true) × (a ≡ Message from msg)) }
    ensures err { IfErr result (λ e. (is_worker ≡ false) × (e ≡ Stranger)) }
{
    if is_worker {
        Ok(Arrival::Message { from, msg })
    } else {
        drop(msg);
        Err(StepFault::Stranger)
    }
}

/// A possible event of the worker of this number or a link to it. None exactly where there is none.
fn event_of(worker: &Worker, number: u32) -> Option<Event>
    ensures { MatchOption result (IsIdle worker.now) (CanMove worker.now number) }
{
    if let Some(to) = worker.node.first_mail() {
        return Some(Event::Emit(number, to));
    }
    if let Some(from) = worker.links.first() {
        return Some(Event::Deliver(from, number));
    }
    if worker.node.ready() {
        return Some(Event::Run(number));
    }
    None
}

impl Outside {
    /// Takes the first message off a link to process 1, which is an event. None exactly where there is none.
    fn take(&mut self) -> Option<(u32, Msg)>
        requires { self.old.events < max_events }
        ensures taken { MatchOption result (IsEmptyToMain (told_of self.old) × (told_of self.new ≡ told_of self.old)) (λ m. TakesOff m.0 m.1 (told_of self.old) (told_of self.new)) }
        ensures count { self.new.workers.count ≡ self.old.workers.count }
    {
        let from = match self.to_main.first() {
            None => return None,
            Some(from) => from,
        };
        match self.to_main.pop(from) {
            None => None,
            Some(msg) => {
                self.events += 1;
                Some((from, msg))
            }
        }
    }

    /// A possible event of a worker or a link to it. None exactly where there is none.
    pub(crate) fn possible(&self) -> Option<Event>
        ensures { MatchOption result ((p : ℕ) → IsStill (told_of self.now) p) (λ event. CanHappen (told_of self.now) event) }
    {
        for number in self.workers.rows.keys() {
            match self.possible_at(*number) {
                None => {}
                Some(event) => return Some(event),
            }
        }
        None
    }

    /// A possible event of this process or a link to it. None exactly where there is none.
    fn possible_at(&self, number: u32) -> Option<Event>
        ensures { MatchOption result (IsStill (told_of self.now) number) (λ event. CanHappen (told_of self.now) event) }
    {
        if number == 1 {
            return None;
        }
        match self.workers.rows.get(&number) {
            None => None,
            Some(worker) => event_of(worker, number),
        }
    }

    /// Possible events of the workers and the links, until a message for process 1 is there or nothing is possible.
    /// `Spent` comes only where such events lead to a possible step that would have to raise a number of its process
    /// above the greatest, and `Stranger` only where they lead to a message that can leave for a process that the cluster
    /// doesn't have, or to one for process 1 from a process that is no worker.
    pub(crate) fn receive(&mut self) -> Result<Arrival, StepFault>
        ensures found { Finds (told_of self.old) (told_of self.new) result }
        ensures spent { IfErr result (λ e. e ≡ Spent → ComesToSpent (told_of self.old)) }
        ensures stranger { IfErr result (λ e. e ≡ Stranger → ComesToStranger self.old.workers.count (told_of self.old)) }
        ensures from { IfOk result (IsFromWorker self.old.workers.count) }
        ensures count { self.new.workers.count ≡ self.old.workers.count }
    {
        while !self.is_full() {
            match self.take() {
                None => {}
                Some((from, msg)) => return arrival(self.workers.is_worker(from), from, msg),
            }
            let event = match self.possible() {
                None => return Ok(Arrival::Quiet),
                Some(event) => event,
            };
            match outside_step(self, &event) {
                Ok(()) => {}
                Err(fault) => return Err(fault),
            }
        }
        Err(StepFault::Limit)
    }
}
