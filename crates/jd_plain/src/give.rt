//! Answers on their way to tasks.
ghost use Rattle.std.specs.Prelude.{◌≡◌, IfOk, OnOk, Some, option_map};
ghost use Rattle.std.specs.Option.{option_copied};
ghost use Rattle.jd_model.specs.Machine as machine;
ghost use Rattle.jd_model.specs.declared.mark.Effect.TheVariants as effect;
ghost use Rattle.jd_plain.specs.Held.{task_of, request_of};
ghost use Rattle.jd_plain.specs.State.{state_of};
ghost use Rattle.jd_plain.specs.Steps as step;

use crate::gift::{Gift, Source};
use crate::occurs::occurring;
use crate::plain::Plain;
use crate::request::Request;
use crate::task::Task;
use jd_model::{Answer, Life, Stage};
use jd_task::TaskId;
use jd_value::{Ask, OutOfMemory, Outcome, copy_outcome};

/// The same outcome once more, where there is one.
pub(crate) fn copied(outcome: Option<&Outcome>) -> Result<Option<Outcome>, OutOfMemory>
    ensures { IfOk result (λ o. o ≡ option_copied outcome.entry) }
{
    match outcome {
        Some(outcome) => Ok(Some(copy_outcome(outcome)?)),
        None => Ok(None),
    }
}

/// The answer to a request, where there is one.
fn gift_with(ask: Ask, request: &Request, outcome: Option<Outcome>) -> Option<Gift>
    ensures { result ≡ step.gift_with ask.process ask.number (request_of request.now) outcome }
{
    match outcome {
        Some(outcome) => Some(Gift {
            ask,
            cell: request.cell,
            outcome,
        }),
        None => None,
    }
}

impl Plain {
    /// The answer that this source has for a request.
    fn outcome_from(
        &self,
        source: Source,
        request: &Request,
    ) -> Result<Option<Outcome>, OutOfMemory>
        ensures { IfOk result (λ o. o ≡ step.outcome_from source (state_of self.now) (request_of request.now)) }
    {
        match source {
            Source::Kept => match &request.answer {
                Answer::Kept(outcome) => copied(Some(outcome)),
                _ => Ok(None),
            },
            Source::Cell => copied(self.cells.outcome(request.cell)),
        }
    }

    fn gift_for(
        &self,
        source: Source,
        ask: Ask,
        request: Option<&Request>,
    ) -> Result<Option<Gift>, OutOfMemory>
        ensures { IfOk result (λ gift. gift ≡ step.gift_for source (state_of self.now) ask.process ask.number (option_map request_of (option_copied request.entry))) }
    {
        match request {
            Some(request) => Ok(gift_with(ask, request, self.outcome_from(source, request)?)),
            None => Ok(None),
        }
    }

    fn gift_in(
        &self,
        source: Source,
        process: u32,
        life: &Life,
    ) -> Result<Option<Gift>, OutOfMemory>
        ensures { IfOk result (λ gift. gift ≡ step.gift_in source (state_of self.now) process life.now) }
    {
        match life {
            Life::Running {
                stage: Stage::Waits(number),
                ..
            } => {
                let ask = Ask {
                    process,
                    number: *number,
                };
                self.gift_for(source, ask, self.requests.get(ask))
            }
            _ => Ok(None),
        }
    }

    /// What a task that waits gets.
    fn gift_of(&self, source: Source, task: Option<&Task>) -> Result<Option<Gift>, OutOfMemory>
        ensures { IfOk result (λ gift. gift ≡ step.gift_of source (state_of self.now) (option_map task_of (option_copied task.entry))) }
    {
        match task {
            Some(task) => self.gift_in(source, task.home, &task.life),
            None => Ok(None),
        }
    }

    /// Keeps, of what a process has fetched, what still occurs in a variable there.
    pub(crate) fn refresh(&mut self, process: u32) -> Result<(), OutOfMemory>
        ensures { OnOk result (state_of self.new ≡ machine.refreshed (state_of self.old) process) }
    {
        let kept = occurring(self.alloc, &self.tasks, self.running.as_slice(), process)?;
        self.fetched.keep(self.alloc, process, &kept)?;
        Ok(())
    }

    /// The task has the answer, and its process has fetched it.
    fn give(&mut self, task: TaskId, gift: Gift) -> Result<(), OutOfMemory>
        ensures { OnOk result (state_of self.new ≡ step.given_by (state_of self.old) task (Some gift)) }
    {
        let process = gift.ask.process;
        self.tasks.set_stage(task, Stage::Ready(gift.outcome));
        self.requests.set_answer(gift.ask, Answer::Given);
        self.fetched.add(self.alloc, process, gift.cell)?;
        self.refresh(process)?;
        Ok(())
    }

    /// A task that waits gets its answer.
    fn give_from(&mut self, source: Source, task: TaskId) -> Result<(), OutOfMemory>
        ensures { OnOk result (state_of self.new ≡ step.given_by (state_of self.old) task (step.gift_of source (state_of self.old) ((state_of self.old).tasks task.process task.number))) }
    {
        match self.gift_of(source, self.tasks.get(task))? {
            Some(gift) => self.give(task, gift),
            None => Ok(()),
        }
    }

    /// The answer to the task's request is back.
    pub(crate) fn give_kept(&mut self, task: TaskId) -> Result<(), OutOfMemory>
        ensures { OnOk result (state_of self.new ≡ machine.does (state_of self.old) (effect.Returned task)) }
    {
        self.give_from(Source::Kept, task)?;
        Ok(())
    }

    /// The task's request is answered by what its process had fetched.
    pub(crate) fn give_local(&mut self, task: TaskId) -> Result<(), OutOfMemory>
        ensures { OnOk result (state_of self.new ≡ machine.does (state_of self.old) (effect.Local task)) }
    {
        self.give_from(Source::Cell, task)?;
        Ok(())
    }
}
