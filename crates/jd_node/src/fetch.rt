//! A task asks for the outcome of a cell.
ghost use Rattle.std.specs.Prelude.{◌≡◌, OnOk, IfOk, ◌≢◌, ◌+◌, ◌∷◌, [], Some, None};
ghost use Rattle.jd_model.specs.declared.mark.Effect.TheVariants.{Local, Took, Returned};
ghost use Rattle.jd_model.specs.Node as spec;
ghost use Rattle.jd_node.specs.View.{node_of, effects_of, id_of, Makes};
ghost use Rattle.jd_node.specs.Steps.{greatest};

use crate::finish::Asker;
use crate::node::Node;
use crate::rows::{OpenAsk, Waiting};
use jd_model::{Effect, Stage};
use jd_task::{Msg, TaskId};
use jd_value::{Ask, Fault, OutOfMemory, Outcome, RefId, copy_outcome};

impl Node {
    /// A request for the outcome of a cell: what was fetched before is at hand, the rest is asked of the owner, unless
    /// its loss was noticed here.
    pub(crate) fn fetch(&mut self, asker: Asker, wanted: RefId) -> Result<(), OutOfMemory>
        requires { (node_of self.old).asked ≢ greatest }
        ensures step { OnOk result (Makes self.old (spec.asks_for (id_of self.old) (node_of self.old) asker.task asker.cell asker.place wanted ((node_of self.old).asked + 1)) self.new) }
        ensures id { id_of self.new ≡ id_of self.old }
    {
        let ask = self.asked + 1;
        self.asked = ask;
        match self.cached(wanted) {
            Ok(Some(outcome)) => self.fetch_cached(asker, outcome),
            Ok(None) => self.fetch_at_owner(asker, wanted, ask),
            Err(refused) => {
                drop(asker);
                Err(refused)
            }
        }
    }

    /// The outcome was fetched here before.
    fn fetch_cached(&mut self, asker: Asker, outcome: Outcome) -> Result<(), OutOfMemory>
        ensures step { OnOk result (Makes self.old (record { node = spec.readied (node_of self.old) asker.task asker.cell asker.place outcome; effects = Local asker.task ∷ [] }) self.new) }
        ensures id { id_of self.new ≡ id_of self.old }
    {
        let Asker { task, cell, place } = asker;
        self.make_ready(task, cell, place, outcome)?;
        self.note(Effect::Local(task))
    }

    fn cached(&self, cell: RefId) -> Result<Option<Outcome>, OutOfMemory>
        ensures { IfOk result (λ o. o ≡ spec.cached_at (node_of self.now) cell) }
    {
        match self.cache.at(cell) {
            Some(outcome) => Ok(Some(copy_outcome(outcome)?)),
            None => Ok(None),
        }
    }

    /// A request for an outcome that isn't cached.
    fn fetch_at_owner(&mut self, asker: Asker, wanted: RefId, ask: u64) -> Result<(), OutOfMemory>
        ensures step { OnOk result (Makes self.old (spec.fetched (id_of self.old) (node_of self.old) asker.task asker.cell asker.place wanted ask None) self.new) }
        ensures id { id_of self.new ≡ id_of self.old }
    {
        if self.has_noticed(wanted.owner) {
            let gone = Err(Fault::Exited(wanted.owner));
            return self.make_ready(asker.task, asker.cell, asker.place, gone);
        }
        if wanted.owner != self.id {
            return self.fetch_there(asker, wanted, ask);
        }
        self.fetch_here(asker, wanted, ask)
    }

    /// The owner is this process.
    fn fetch_here(&mut self, asker: Asker, wanted: RefId, ask: u64) -> Result<(), OutOfMemory>
        ensures step { OnOk result (Makes self.old (spec.fetched_own (id_of self.old) (node_of self.old) asker.task asker.cell asker.place wanted ask (spec.stored_at (node_of self.old) wanted)) self.new) }
        ensures id { id_of self.new ≡ id_of self.old }
    {
        match self.stored(wanted) {
            Ok(Some(outcome)) => self.fetch_stored(asker, wanted, ask, outcome),
            Ok(None) => self.fetch_later(asker, wanted, ask),
            Err(refused) => {
                drop(asker);
                Err(refused)
            }
        }
    }

    /// The owner is another process.
    fn fetch_there(&mut self, asker: Asker, wanted: RefId, ask: u64) -> Result<(), OutOfMemory>
        ensures step { OnOk result (Makes self.old (spec.fetched_there (node_of self.old) asker.task asker.cell asker.place wanted ask) self.new) }
        ensures id { id_of self.new ≡ id_of self.old }
    {
        let Asker { task, cell, place } = asker;
        self.rest(task, cell, place, Stage::Waits(ask))?;
        self.asks.put(ask, OpenAsk { task, cell: wanted })?;
        self.send(wanted.owner, Msg::Fetch { ask, cell: wanted })
    }

    /// The cell is set here.
    fn fetch_stored(
        &mut self,
        asker: Asker,
        wanted: RefId,
        ask: u64,
        outcome: Outcome,
    ) -> Result<(), OutOfMemory>
        ensures step { OnOk result (Makes self.old (spec.fetched_own (id_of self.old) (node_of self.old) asker.task asker.cell asker.place wanted ask (Some outcome)) self.new) }
        ensures id { id_of self.new ≡ id_of self.old }
    {
        let task = asker.task;
        match self.make_ready_with(asker, &outcome) {
            Ok(()) => self.learn_own(task, wanted, ask, outcome),
            Err(refused) => {
                drop(outcome);
                Err(refused)
            }
        }
    }

    /// A task can go on with that outcome.
    fn make_ready_with(&mut self, asker: Asker, outcome: &Outcome) -> Result<(), OutOfMemory>
        ensures node { OnOk result (node_of self.new ≡ spec.readied (node_of self.old) asker.task asker.cell asker.place outcome.now) }
        ensures effects { effects_of self.new ≡ effects_of self.old }
        ensures id { id_of self.new ≡ id_of self.old }
    {
        match copy_outcome(outcome) {
            Ok(answer) => self.make_ready(asker.task, asker.cell, asker.place, answer),
            Err(refused) => {
                drop(asker);
                Err(refused)
            }
        }
    }

    /// The outcome of a cell of this process is learnt, and a task has it.
    fn learn_own(
        &mut self,
        task: TaskId,
        wanted: RefId,
        ask: u64,
        outcome: Outcome,
    ) -> Result<(), OutOfMemory>
        ensures step { OnOk result (Makes self.old (record { node = spec.learnt (node_of self.old) wanted outcome; effects = Took (record { process = id_of self.old; number = ask }) ∷ Returned task ∷ [] }) self.new) }
        ensures id { id_of self.new ≡ id_of self.old }
    {
        self.learn(wanted, outcome)?;
        let process = self.id;
        self.note(Effect::Took(Ask {
            process,
            number: ask,
        }))?;
        self.note(Effect::Returned(task))
    }

    /// The cell is to be set here.
    fn fetch_later(&mut self, asker: Asker, wanted: RefId, ask: u64) -> Result<(), OutOfMemory>
        ensures step { OnOk result (Makes self.old (spec.fetched_own (id_of self.old) (node_of self.old) asker.task asker.cell asker.place wanted ask None) self.new) }
        ensures id { id_of self.new ≡ id_of self.old }
    {
        let Asker { task, cell, place } = asker;
        self.rest(task, cell, place, Stage::Waits(ask))?;
        self.asks.put(ask, OpenAsk { task, cell: wanted })?;
        let who = Ask {
            process: self.id,
            number: ask,
        };
        self.waits.push(Waiting {
            ask: who,
            cell: wanted,
        })
    }
}
