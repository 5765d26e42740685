//! The tasks of the machine.
ghost use Rattle.std.specs.Prelude.{◌≡◌, None, Some, Ok, IfOk, OnOk, OnErr, option_map};
ghost use Rattle.std.specs.Option.{option_copied};
ghost use Rattle.jd_value.specs.declared.value.Value.TheVariants.{Nothing};
ghost use Rattle.jd_task.specs.Places.{main_place};
ghost use Rattle.jd_model.specs.declared.life.Life.TheVariants.{Running};
ghost use Rattle.jd_model.specs.declared.life.Stage.TheVariants.{Ready};
ghost use Rattle.jd_model.specs.Table.{put2};
ghost use Rattle.jd_plain.specs.Held.{task_of, task_at};
ghost use Rattle.jd_plain.specs.Tables.{tasks_of};

use crate::plain::MAIN;
use crate::task::Task;
use jd_model::{Life, Stage};
use jd_task::{Place, TaskId};
use jd_value::{OutOfMemory, Program, Value};
use std::alloc::Global;
use std::collections::HashMap;
use std::mem::replace;

/// The tasks by the process that called them and their numbers there.
#[derive(Drop)]
pub struct Tasks {
    pub held: HashMap<TaskId, Task>,
}

/// Main, which can go on.
fn main_task(alloc: Global, program: &Program) -> Result<Task, OutOfMemory>
    ensures { IfOk result (λ main. task_of main ≡ record { home = 1; cell = None; life = Running (main_place program.now) (Ready (Ok Nothing)) }) }
{
    Ok(Task {
        home: 1,
        cell: None,
        life: Life::Running {
            place: Place::of_main(alloc, program)?,
            stage: Stage::Ready(Ok(Value::Nothing)),
        },
    })
}

impl Tasks {
    /// Main alone, which can go on.
    pub fn with_main(alloc: Global, program: &Program) -> Result<Tasks, OutOfMemory>
        ensures { IfOk result (λ tasks. tasks_of tasks ≡ put2 (λ p n. None) 1 0 (Some (record { home = 1; cell = None; life = Running (main_place program.now) (Ready (Ok Nothing)) }))) }
    {
        let main = main_task(alloc, program)?;
        let mut tasks = Tasks::new(alloc);
        match tasks.put(MAIN, main) {
            Ok(()) => Ok(tasks),
            Err(refused) => {
                drop(tasks);
                Err(refused)
            }
        }
    }

    /// No task.
    pub fn new(alloc: Global) -> Tasks
        ensures { tasks_of result ≡ (λ p n. None) }
    {
        Tasks {
            held: HashMap::new(alloc),
        }
    }

    /// The task of this name.
    pub fn get(&self, task: TaskId) -> Option<&Task>
        ensures { option_map task_of (option_copied result) ≡ tasks_of self.now task.process task.number }
    {
        self.held.get(&task)
    }

    /// Puts a task in.
    pub fn put(&mut self, task: TaskId, held: Task) -> Result<(), OutOfMemory>
        ensures ok { OnOk result (tasks_of self.new ≡ put2 (tasks_of self.old) task.process task.number (Some (task_of held))) }
        ensures err { OnErr result (tasks_of self.new ≡ tasks_of self.old) }
    {
        drop(self.held.insert(task, held)?);
        Ok(())
    }

    /// Takes a task out.
    pub fn take(&mut self, task: TaskId) -> Option<Task>
        ensures value { option_map task_of result ≡ tasks_of self.old task.process task.number }
        ensures rest { tasks_of self.new ≡ put2 (tasks_of self.old) task.process task.number None }
    {
        self.held.remove(&task)
    }

    /// Puts a task that runs at another stage.
    pub fn set_stage(&mut self, task: TaskId, stage: Stage)
        ensures { tasks_of self.new ≡ put2 (tasks_of self.old) task.process task.number (option_map (task_at stage) (tasks_of self.old task.process task.number)) }
    {
        match self.held.get_mut(&task) {
            Some(held) => match &mut held.life {
                Life::Running { stage: old, .. } => drop(replace(old, stage)),
                _ => drop(stage),
            },
            None => drop(stage),
        }
    }
}
