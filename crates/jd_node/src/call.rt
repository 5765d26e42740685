//! A task calls another.
ghost use Rattle.std.specs.Prelude.{◌≡◌, OnOk, Ok, ◌≢◌, ◌+◌, ◌==◌, if◌then◌else◌};
ghost use Rattle.jd_value.specs.declared.value.Value.TheVariants.{Future};
ghost use Rattle.jd_model.specs.Node as spec;
ghost use Rattle.jd_node.specs.View.{node_of, effects_of, id_of, Makes};
ghost use Rattle.jd_node.specs.Steps.{greatest};

use crate::finish::Asker;
use crate::node::Node;
use jd_task::{Closure, Msg, TaskId};
use jd_value::{OutOfMemory, RefId, Shared, Value};
use sqlite_items::Items;

impl Node {
    /// A task calls another on that process, and has the future of its cell at once.
    pub(crate) fn call(
        &mut self,
        asker: Asker,
        process: u32,
        code: Closure,
        args: Items<Value>,
    ) -> Result<(), OutOfMemory>
        requires called { (node_of self.old).called ≢ greatest }
        requires made { (node_of self.old).made ≢ greatest }
        ensures step { OnOk result (Makes self.old (spec.calls (id_of self.old) (node_of self.old) asker.task asker.cell asker.place (record { maker = id_of self.old; number = (node_of self.old).made + 1; owner = process }) (record { process = id_of self.old; number = (node_of self.old).called + 1 }) code args) self.new) }
        ensures id { id_of self.new ≡ id_of self.old }
    {
        let cell = RefId {
            maker: self.id,
            number: self.made + 1,
            owner: process,
        };
        let task = TaskId {
            process: self.id,
            number: self.called + 1,
        };
        self.made = cell.number;
        self.called = task.number;
        match self.give_future(asker, cell) {
            Ok(()) => self.call_at(cell, task, code, args),
            Err(refused) => {
                drop((code, args));
                Err(refused)
            }
        }
    }

    /// A task can go on with the future of that cell.
    fn give_future(&mut self, asker: Asker, cell: RefId) -> Result<(), OutOfMemory>
        ensures node { OnOk result (node_of self.new ≡ spec.readied (node_of self.old) asker.task asker.cell asker.place (Ok (Future cell))) }
        ensures effects { effects_of self.new ≡ effects_of self.old }
        ensures id { id_of self.new ≡ id_of self.old }
    {
        match Shared::new(self.alloc, cell) {
            Ok(future) => self.make_ready(
                asker.task,
                asker.cell,
                asker.place,
                Ok(Value::Future(future)),
            ),
            Err(refused) => {
                drop(asker);
                Err(refused)
            }
        }
    }

    /// The task is called where its cell is.
    fn call_at(
        &mut self,
        cell: RefId,
        task: TaskId,
        code: Closure,
        args: Items<Value>,
    ) -> Result<(), OutOfMemory>
        ensures step { OnOk result (Makes self.old (if cell.owner == id_of self.old then spec.called_here (node_of self.old) cell task code args else spec.called_there (node_of self.old) cell task code args) self.new) }
        ensures id { id_of self.new ≡ id_of self.old }
    {
        if cell.owner == self.id {
            return self.call_here(cell, task, code, args);
        }
        self.call_there(cell, task, code, args)
    }

    /// The task is to run on another process.
    fn call_there(
        &mut self,
        cell: RefId,
        task: TaskId,
        code: Closure,
        args: Items<Value>,
    ) -> Result<(), OutOfMemory>
        ensures step { OnOk result (Makes self.old (spec.called_there (node_of self.old) cell task code args) self.new) }
        ensures id { id_of self.new ≡ id_of self.old }
    {
        match self.send(cell.owner, Msg::Begin { cell }) {
            Ok(()) => self.send(
                cell.owner,
                Msg::Call {
                    cell,
                    task,
                    code,
                    args,
                },
            ),
            Err(refused) => {
                drop((code, args));
                Err(refused)
            }
        }
    }

    /// The task runs on this process, and starts at once.
    fn call_here(
        &mut self,
        cell: RefId,
        task: TaskId,
        code: Closure,
        args: Items<Value>,
    ) -> Result<(), OutOfMemory>
        ensures step { OnOk result (Makes self.old (spec.called_here (node_of self.old) cell task code args) self.new) }
        ensures id { id_of self.new ≡ id_of self.old }
    {
        self.put_cell(cell, None)?;
        self.start(cell, task, code, args)
    }
}
