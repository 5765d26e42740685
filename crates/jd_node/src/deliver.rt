//! A message arrives.
ghost use Rattle.std.specs.Prelude.{◌≡◌, OnOk, IfErr, IfOk, ◌++◌, ◌∷◌, [], Some, Ok, is_some};
ghost use Rattle.jd_model.specs.Node as spec;
ghost use Rattle.jd_node.specs.declared.fault.NodeFault.TheVariants.{OutOfMemory};
ghost use Rattle.jd_value.specs.declared.value.Value.TheVariants.{Nothing};
ghost use Rattle.jd_task.specs.Places.{called_place};
ghost use Rattle.jd_model.specs.declared.mark.Effect.TheVariants.{Started, Returned};
ghost use Rattle.jd_node.specs.Steps.{given_to};
ghost use Rattle.jd_node.specs.View.{node_of, effects_of, id_of, stepped_of, Makes};

use crate::fault::NodeFault;
use crate::node::Node;
use crate::rows::Waiting;
use jd_model::Effect;
use jd_task::{Closure, Msg, Place, TaskId};
use jd_value::{Ask, OutOfMemory as NoMemory, Outcome, RefId, Value, copy_outcome};
use sqlite_items::Items;

impl Node {
    /// A message arrives that came from that process.
    pub fn deliver(&mut self, from: u32, msg: Msg) -> Result<(), NodeFault>
        ensures step { OnOk result (stepped_of self.new ≡ spec.delivered from msg (node_of self.old)) }
        ensures memory { IfErr result (λ e. e ≡ OutOfMemory) }
        ensures id { id_of self.new ≡ id_of self.old }
    {
        self.effects.clear();
        match self.take_in(from, msg) {
            Ok(()) => Ok(()),
            Err(_) => Err(NodeFault::OutOfMemory),
        }
    }

    fn take_in(&mut self, from: u32, msg: Msg) -> Result<(), NoMemory>
        ensures step { OnOk result (Makes self.old (spec.delivered from msg (node_of self.old)) self.new) }
        ensures id { id_of self.new ≡ id_of self.old }
    {
        match msg {
            Msg::Begin { cell } => self.begin(cell),
            Msg::Call {
                cell,
                task,
                code,
                args,
            } => self.start(cell, task, code, args),
            Msg::Fetch { ask, cell } => self.fetched_by(from, ask, cell),
            Msg::Reply { ask, outcome } => self.answer(ask, outcome),
        }
    }

    /// A cell is made, where it isn't there.
    fn begin(&mut self, cell: RefId) -> Result<(), NoMemory>
        ensures node { OnOk result (node_of self.new ≡ spec.with_cell (node_of self.old) cell (spec.begun ((node_of self.old).cells cell.maker cell.number cell.owner))) }
        ensures effects { effects_of self.new ≡ effects_of self.old }
        ensures id { id_of self.new ≡ id_of self.old }
    {
        if self.cells.at(cell).is_some() {
            return Ok(());
        }
        self.put_cell(cell, None)
    }

    /// A task that was called starts.
    pub(crate) fn start(
        &mut self,
        cell: RefId,
        task: TaskId,
        code: Closure,
        args: Items<Value>,
    ) -> Result<(), NoMemory>
        ensures node { OnOk result (node_of self.new ≡ spec.readied (node_of self.old) task (Some cell) (called_place code args) (Ok Nothing)) }
        ensures effects { OnOk result (effects_of self.new ≡ effects_of self.old ++ Started task ∷ []) }
        ensures id { id_of self.new ≡ id_of self.old }
    {
        let place = Place::of_call(self.alloc, code, args)?;
        self.make_ready(task, Some(cell), place, Ok(Value::Nothing))?;
        self.note(Effect::Started(task))
    }

    /// The outcome of a cell, where it is set.
    pub(crate) fn stored(&self, cell: RefId) -> Result<Option<Outcome>, NoMemory>
        ensures { IfOk result (λ o. o ≡ spec.stored_at (node_of self.now) cell) }
    {
        match self.cells.at(cell) {
            Some(Some(outcome)) => Ok(Some(copy_outcome(outcome)?)),
            Some(None) | None => Ok(None),
        }
    }

    /// Another process asks for the outcome of a cell.
    fn fetched_by(&mut self, from: u32, ask: u64, cell: RefId) -> Result<(), NoMemory>
        ensures step { OnOk result (Makes self.old (spec.fetch_answered from ask cell (node_of self.old) (spec.stored_at (node_of self.old) cell)) self.new) }
        ensures id { id_of self.new ≡ id_of self.old }
    {
        let who = Ask {
            process: from,
            number: ask,
        };
        match self.stored(cell)? {
            Some(outcome) => {
                self.send(from, Msg::Reply { ask, outcome })?;
                self.note(Effect::Took(who))
            }
            None => self.waits.push(Waiting { ask: who, cell }),
        }
    }

    /// The answer of this request has come.
    pub(crate) fn answer(&mut self, ask: u64, outcome: Outcome) -> Result<(), NoMemory>
        ensures step { OnOk result (Makes self.old (spec.answered_ask (node_of self.old) ask outcome ((node_of self.old).asks ask)) self.new) }
        ensures id { id_of self.new ≡ id_of self.old }
    {
        match self.asks.take(ask) {
            None => {
                drop(outcome);
                Ok(())
            }
            Some(open) => self.answer_task(open.task, open.cell, outcome),
        }
    }

    /// The answer of a task's request for that cell has come.
    fn answer_task(&mut self, task: TaskId, cell: RefId, outcome: Outcome) -> Result<(), NoMemory>
        ensures step { OnOk result (Makes self.old (spec.answered_task (node_of self.old) task cell outcome ((node_of self.old).tasks task.process task.number)) self.new) }
        ensures id { id_of self.new ≡ id_of self.old }
    {
        match self.give_copy(task, &outcome) {
            Ok(true) => self.learn_returned(task, cell, outcome),
            Ok(false) => {
                drop(outcome);
                Ok(())
            }
            Err(refused) => {
                drop(outcome);
                Err(refused)
            }
        }
    }

    /// A task that waits can go on with this outcome. Answers whether it runs here.
    fn give_copy(&mut self, task: TaskId, outcome: &Outcome) -> Result<bool, NoMemory>
        ensures here { IfOk result (λ here. here ≡ is_some ((node_of self.old).tasks task.process task.number)) }
        ensures node { OnOk result (node_of self.new ≡ given_to (node_of self.old) task outcome.now ((node_of self.old).tasks task.process task.number)) }
        ensures effects { effects_of self.new ≡ effects_of self.old }
        ensures id { id_of self.new ≡ id_of self.old }
    {
        let answer = copy_outcome(outcome)?;
        self.give(task, answer)
    }

    /// The outcome that was returned to a task is learnt.
    fn learn_returned(
        &mut self,
        task: TaskId,
        cell: RefId,
        outcome: Outcome,
    ) -> Result<(), NoMemory>
        ensures step { OnOk result (Makes self.old (record { node = spec.learnt (node_of self.old) cell outcome; effects = Returned task ∷ [] }) self.new) }
        ensures id { id_of self.new ≡ id_of self.old }
    {
        self.learn(cell, outcome)?;
        self.note(Effect::Returned(task))
    }
}
