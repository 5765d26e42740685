//! A task has gone on to its next operation or to its end.
ghost use Rattle.std.specs.Prelude.{◌≡◌, OnOk, IfErr, ◌↔◌, Err, ◌++◌, ◌∷◌, [], ◌<◌, ◌+◌, ◌^◌, Some, None, Ok, true, false};
ghost use Rattle.jd_model.specs.declared.mark.Effect.TheVariants.{Ran};
ghost use Rattle.jd_model.specs.Asking.{asking};
ghost use Rattle.jd_model.specs.Machine.{is_main};
ghost use Rattle.jd_model.specs.Node as spec;
ghost use Rattle.jd_node.specs.declared.fault.NodeFault.TheVariants as fault;
ghost use Rattle.jd_node.specs.View.{node_of, effects_of, id_of, stepped_of, Makes};
ghost use Rattle.jd_node.specs.Steps.{passes, passes_at, greatest};

use crate::fault::NodeFault;
use crate::node::Node;
use jd_model::{Asking, Effect, Stage};
use jd_task::{Evaluated, Op, Place, TaskId, Turn};
use jd_value::{OutOfMemory, Outcome, RefId};

/// A task that asks an operation, at the place where it asks.
#[derive(Drop)]
pub(crate) struct Asker {
    pub task: TaskId,
    pub cell: Option<RefId>,
    pub place: Place,
}

impl Node {
    /// A task that was handed out has gone on. It answers `Limit` exactly where a number of the process would have to
    /// rise above the greatest; the node is then as it was without the task.
    pub fn finish(&mut self, done: Evaluated) -> Result<(), NodeFault>
        ensures step { OnOk result (stepped_of self.new ≡ spec.finished (id_of self.old) (node_of self.old) done.task done.cell done.place done.turn) }
        ensures limit { (result ≡ Err fault.Limit) ↔ (passes (node_of self.old) done.task done.turn ≡ true) }
        ensures unchanged { IfErr result (λ e. e ≡ fault.Limit → node_of self.new ≡ node_of self.old) }
        ensures id { id_of self.new ≡ id_of self.old }
    {
        self.effects.clear();
        let Evaluated {
            task,
            cell,
            place,
            turn,
        } = done;
        match turn {
            Turn::Ended(outcome) => {
                drop(place);
                match self.end_of(task, cell, outcome) {
                    Ok(()) => Ok(()),
                    Err(_) => Err(NodeFault::OutOfMemory),
                }
            }
            Turn::Asks(op) => self.ask(Asker { task, cell, place }, op),
        }
    }

    /// A step of a task is done, at an operation, unless a number of the process would have to rise above the greatest.
    fn ask(&mut self, asker: Asker, op: Op) -> Result<(), NodeFault>
        ensures step { OnOk result (Makes self.old (spec.behind (Ran asker.task ∷ []) (spec.wants (id_of self.old) (node_of self.old) asker.task asker.cell asker.place (asking (node_of self.old).workers (node_of self.old).noticed (is_main asker.task) op))) self.new) }
        ensures limit { (result ≡ Err fault.Limit) ↔ (passes_at (node_of self.old) (asking (node_of self.old).workers (node_of self.old).noticed (is_main asker.task) op) ≡ true) }
        ensures unchanged { IfErr result (λ e. e ≡ fault.Limit → node_of self.new ≡ node_of self.old) }
        ensures id { id_of self.new ≡ id_of self.old }
    {
        let is_main = asker.task.process == 1 && asker.task.number == 0;
        let asking = Asking::of(self.workers, self.noticed.as_slice(), is_main, op);
        if self.passes(&asking) {
            drop((asker, asking));
            return Err(NodeFault::Limit);
        }
        match self.want_of(asker, asking) {
            Ok(()) => Ok(()),
            Err(_) => Err(NodeFault::OutOfMemory),
        }
    }

    /// A step of a task is done, at its end.
    fn end_of(
        &mut self,
        task: TaskId,
        cell: Option<RefId>,
        outcome: Outcome,
    ) -> Result<(), OutOfMemory>
        ensures step { OnOk result (Makes self.old (spec.behind (Ran task ∷ []) (spec.ended (id_of self.old) (node_of self.old) cell outcome)) self.new) }
        ensures id { id_of self.new ≡ id_of self.old }
    {
        match self.note(Effect::Ran(task)) {
            Ok(()) => self.end(cell, outcome),
            Err(refused) => {
                drop(outcome);
                Err(refused)
            }
        }
    }

    /// A step of a task is done, at an operation.
    fn want_of(&mut self, asker: Asker, asking: Asking) -> Result<(), OutOfMemory>
        requires { passes_at (node_of self.old) asking ≡ false }
        ensures step { OnOk result (Makes self.old (spec.behind (Ran asker.task ∷ []) (spec.wants (id_of self.old) (node_of self.old) asker.task asker.cell asker.place asking)) self.new) }
        ensures id { id_of self.new ≡ id_of self.old }
    {
        match self.note(Effect::Ran(asker.task)) {
            Ok(()) => self.want(asker, asking),
            Err(refused) => {
                drop((asker, asking));
                Err(refused)
            }
        }
    }

    /// Whether a number of the process would have to rise above the greatest.
    fn passes(&self, asking: &Asking) -> bool
        ensures { result ≡ passes_at (node_of self.now) asking.now }
    {
        match asking {
            Asking::Fetches(_) => self.asked == u64::MAX,
            Asking::Calls { .. } => self.called == u64::MAX || self.made == u64::MAX,
            Asking::Answers(_) | Asking::Prints(_) => false,
        }
    }

    /// What a task asks is done, sent or parked.
    fn want(&mut self, asker: Asker, asking: Asking) -> Result<(), OutOfMemory>
        requires { passes_at (node_of self.old) asking ≡ false }
        ensures step { OnOk result (Makes self.old (spec.wants (id_of self.old) (node_of self.old) asker.task asker.cell asker.place asking) self.new) }
        ensures id { id_of self.new ≡ id_of self.old }
    {
        match asking {
            Asking::Answers(answer) => {
                self.make_ready(asker.task, asker.cell, asker.place, answer)
            }
            Asking::Prints(values) => {
                self.rest(asker.task, asker.cell, asker.place, Stage::Prints(values))
            }
            Asking::Fetches(wanted) => self.fetch(asker, wanted),
            Asking::Calls {
                process,
                code,
                args,
            } => self.call(asker, process, code, args),
        }
    }
}
