//! Steps of tasks.
ghost use Rattle.std.specs.Prelude.{◌≡◌, OnOk};
ghost use Rattle.jd_task.specs.Running.{advance};
ghost use Rattle.jd_model.specs.Machine as machine;
ghost use Rattle.jd_model.specs.declared.mark.Effect.TheVariants as effect;
ghost use Rattle.jd_plain.specs.State.{state_of};
ghost use Rattle.jd_plain.specs.Steps as step;

use crate::going::{Calling, Going, Ready, as_called, as_ready};
use crate::plain::Plain;
use crate::task::Task;
use jd_model::{Life, Stage};
use jd_task::{Job, Place, TaskId};
use jd_value::{OutOfMemory, Value};

impl Plain {
    /// A task that isn't in the table goes on to its next operation or its end.
    fn advance(&mut self, task: TaskId, ready: Ready) -> Result<(), OutOfMemory>
        ensures { OnOk result (state_of self.new ≡ step.advanced (state_of self.old) task ready) }
    {
        let going = Going {
            task,
            home: ready.home,
            cell: ready.cell,
        };
        let job = Job {
            task,
            cell: ready.cell,
            place: ready.place,
            answer: ready.answer,
        };
        let done = job.evaluate(self.alloc)?;
        self.turn(going, done.place, done.turn)?;
        self.refresh(going.home)?;
        Ok(())
    }

    /// A task that can go on does.
    pub(crate) fn run(&mut self, task: TaskId) -> Result<(), OutOfMemory>
        ensures { OnOk result (state_of self.new ≡ machine.does (state_of self.old) (effect.Ran task)) }
    {
        match self.tasks.take(task) {
            Some(held) => match as_ready(held) {
                Ok(ready) => {
                    self.advance(task, ready)?;
                    Ok(())
                }
                Err(held) => {
                    self.tasks.put(task, held)?;
                    Ok(())
                }
            },
            None => Ok(()),
        }
    }

    /// A task that isn't in the table starts.
    fn begin(&mut self, task: TaskId, calling: Calling) -> Result<(), OutOfMemory>
        ensures { OnOk result (state_of self.new ≡ step.begun (state_of self.old) task calling) }
    {
        let place = Place::of_call(self.alloc, calling.code, calling.args)?;
        let life = Life::Running {
            place,
            stage: Stage::Ready(Ok(Value::Nothing)),
        };
        self.tasks.put(
            task,
            Task {
                home: calling.home,
                cell: calling.cell,
                life,
            },
        )?;
        self.running.push(task)?;
        Ok(())
    }

    /// A task that was called starts.
    pub(crate) fn start_task(&mut self, task: TaskId) -> Result<(), OutOfMemory>
        ensures { OnOk result (state_of self.new ≡ machine.does (state_of self.old) (effect.Started task)) }
    {
        match self.tasks.take(task) {
            Some(held) => match as_called(held) {
                Ok(calling) => {
                    self.begin(task, calling)?;
                    Ok(())
                }
                Err(held) => {
                    self.tasks.put(task, held)?;
                    Ok(())
                }
            },
            None => Ok(()),
        }
    }
}
