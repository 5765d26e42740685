//! The parts of steps.
ghost use Rattle.std.specs.Prelude.{◌≡◌, OnOk, IfOk, [], ◌∷◌, ◌++◌, is_some, Some};
ghost use Rattle.jd_model.specs.declared.life.Stage.TheVariants.{Ready};
ghost use Rattle.jd_model.specs.Node as spec;
ghost use Rattle.jd_model.specs.Noticed.{noticed_in};
ghost use Rattle.jd_node.specs.View.{node_of, effects_of, id_of};
ghost use Rattle.jd_node.specs.Steps.{given_to};

use crate::node::Node;
use crate::rows::Running;
use jd_model::{Effect, Stage};
use jd_task::{Msg, Place, TaskId};
use jd_value::{OutOfMemory, Outcome, RefId};

impl Node {
    /// An effect happens.
    pub(crate) fn note(&mut self, effect: Effect) -> Result<(), OutOfMemory>
        ensures effects { OnOk result (effects_of self.new ≡ effects_of self.old ++ effect ∷ []) }
        ensures node { node_of self.new ≡ node_of self.old }
        ensures id { id_of self.new ≡ id_of self.old }
    {
        self.effects.push(effect)?;
        Ok(())
    }

    /// A message goes behind the others to that process.
    pub(crate) fn send(&mut self, to: u32, msg: Msg) -> Result<(), OutOfMemory>
        ensures node { OnOk result (node_of self.new ≡ spec.send (node_of self.old) to msg) }
        ensures effects { effects_of self.new ≡ effects_of self.old }
        ensures id { id_of self.new ≡ id_of self.old }
    {
        self.outbox.push(to, msg)
    }

    /// A task waits at this stage.
    pub(crate) fn rest(
        &mut self,
        task: TaskId,
        cell: Option<RefId>,
        place: Place,
        stage: Stage,
    ) -> Result<(), OutOfMemory>
        ensures node { OnOk result (node_of self.new ≡ spec.rests (node_of self.old) task cell place stage) }
        ensures effects { effects_of self.new ≡ effects_of self.old }
        ensures id { id_of self.new ≡ id_of self.old }
    {
        self.tasks.put(task, Running { cell, place, stage })
    }

    /// A task can go on with this answer.
    pub(crate) fn make_ready(
        &mut self,
        task: TaskId,
        cell: Option<RefId>,
        place: Place,
        answer: Outcome,
    ) -> Result<(), OutOfMemory>
        ensures node { OnOk result (node_of self.new ≡ spec.readied (node_of self.old) task cell place answer) }
        ensures effects { effects_of self.new ≡ effects_of self.old }
        ensures id { id_of self.new ≡ id_of self.old }
    {
        self.rest(task, cell, place, Stage::Ready(answer))?;
        self.ready.push_back(task)?;
        Ok(())
    }

    /// A task that waits can go on with this answer. Answers whether it runs here.
    pub(crate) fn give(&mut self, task: TaskId, answer: Outcome) -> Result<bool, OutOfMemory>
        ensures here { IfOk result (λ here. here ≡ is_some ((node_of self.old).tasks task.process task.number)) }
        ensures node { OnOk result (node_of self.new ≡ given_to (node_of self.old) task answer ((node_of self.old).tasks task.process task.number)) }
        ensures effects { effects_of self.new ≡ effects_of self.old }
        ensures id { id_of self.new ≡ id_of self.old }
    {
        if !self.tasks.set_stage(task, Stage::Ready(answer)) {
            return Ok(false);
        }
        self.ready.push_back(task)?;
        Ok(true)
    }

    /// An outcome was fetched here; one that is cached stays.
    pub(crate) fn learn(&mut self, cell: RefId, outcome: Outcome) -> Result<(), OutOfMemory>
        ensures node { OnOk result (node_of self.new ≡ spec.learnt (node_of self.old) cell outcome) }
        ensures effects { effects_of self.new ≡ effects_of self.old }
        ensures id { id_of self.new ≡ id_of self.old }
    {
        if self.cache.at(cell).is_some() {
            drop(outcome);
            return Ok(());
        }
        self.cache.put(cell, outcome)
    }

    /// A cell is stored here.
    pub(crate) fn put_cell(
        &mut self,
        cell: RefId,
        outcome: Option<Outcome>,
    ) -> Result<(), OutOfMemory>
        ensures node { OnOk result (node_of self.new ≡ spec.with_cell (node_of self.old) cell (Some outcome)) }
        ensures effects { effects_of self.new ≡ effects_of self.old }
        ensures id { id_of self.new ≡ id_of self.old }
    {
        self.cells.put(cell, outcome)
    }

    /// Whether the loss of that process was noticed here.
    pub(crate) fn has_noticed(&self, process: u32) -> bool
        ensures { result ≡ (node_of self.now).noticed process }
    {
        self.noticed.iter().any(|worker| *worker == process)
    }
}
