//! The tasks that run here, by their names.
ghost use Rattle.std.specs.Prelude.{◌≡◌, OnOk, IfNone, None, Some, is_some};
ghost use Rattle.std.specs.Option.{option_copied};
ghost use Rattle.jd_model.specs.Table.{put2};
ghost use Rattle.jd_node.specs.Tables.{tasks_of, no_tasks, staged};

use crate::rows::Running;
use jd_model::Stage;
use jd_task::TaskId;
use jd_value::OutOfMemory;
use std::alloc::Global;
use std::collections::HashMap;
use std::mem::replace;

#[derive(Drop)]
pub struct Tasks {
    rows: HashMap<TaskId, Running>,
}

#[tactic(auto, unfolding(crate::specs::Tables::tasks_of))]
impl Tasks {
    pub fn new(alloc: Global) -> Tasks
        ensures { tasks_of result ≡ no_tasks }
    {
        Tasks {
            rows: HashMap::new(alloc),
        }
    }

    pub fn at(&self, task: TaskId) -> Option<&Running>
        ensures { option_copied result ≡ tasks_of self.now task.process task.number }
    {
        self.rows.get(&task)
    }

    pub fn put(&mut self, task: TaskId, row: Running) -> Result<(), OutOfMemory>
        ensures { OnOk result (tasks_of self.new ≡ put2 (tasks_of self.old) task.process task.number (Some row)) }
    {
        drop(self.rows.insert(task, row)?);
        Ok(())
    }

    pub fn take(&mut self, task: TaskId) -> Option<Running>
        ensures row { result ≡ tasks_of self.old task.process task.number }
        ensures gone { tasks_of self.new ≡ put2 (tasks_of self.old) task.process task.number None }
        ensures same { IfNone result (tasks_of self.new ≡ tasks_of self.old) }
    {
        self.rows.remove(&task)
    }

    /// The task is at this stage from now on. Answers whether it is there.
    pub fn set_stage(&mut self, task: TaskId, stage: Stage) -> bool
        ensures here { result ≡ is_some (tasks_of self.old task.process task.number) }
        ensures set { tasks_of self.new ≡ staged (tasks_of self.old) task stage (tasks_of self.old task.process task.number) }
    {
        match self.rows.get_mut(&task) {
            None => {
                drop(stage);
                false
            }
            Some(row) => {
                drop(replace(&mut row.stage, stage));
                true
            }
        }
    }
}
