//! Where marks are legal.
ghost use Rattle.std.specs.Prelude.{◌≡◌, option_map, is_some};
ghost use Rattle.std.specs.Option.{option_copied};
ghost use Rattle.jd_model.specs.Machine as machine;
ghost use Rattle.jd_plain.specs.Held.{task_of, request_of};
ghost use Rattle.jd_plain.specs.State.{state_of};

use crate::plain::{MAIN, Plain};
use crate::request::Request;
use crate::task::Task;
use jd_model::{Answer, Effect, Life, Mark, Stage};
use jd_value::Ask;

/// Whether main wants to print.
pub(crate) fn has_line(task: Option<&Task>) -> bool
    ensures { result ≡ is_some (machine.line_of_task (option_map task_of (option_copied task.entry))) }
{
    match task {
        Some(task) => matches!(
            task.life,
            Life::Running {
                stage: Stage::Prints(_),
                ..
            }
        ),
        None => false,
    }
}

impl Plain {
    /// Whether the mark is legal.
    pub(crate) fn is_legal(&self, mark: &Mark) -> bool
        ensures { result ≡ machine.legal (state_of self.now) mark.now }
    {
        self.ending.is_none() && self.allows(mark.effect, mark.by)
    }

    /// Whether the effect may be the next one of that process, while main hasn't ended.
    fn allows(&self, effect: Effect, by: u32) -> bool
        ensures { result ≡ machine.legal_at (state_of self.now) effect by }
    {
        match effect {
            Effect::Ran(task) => self.may_run(by, self.tasks.get(task)),
            Effect::Started(task) => self.may_start(by, task.process, self.tasks.get(task)),
            Effect::Took(ask) => self.may_take(by, ask.process, self.requests.get(ask)),
            Effect::Returned(task) => self.may_return(by, self.tasks.get(task)),
            Effect::Local(task) => self.may_look(by, self.tasks.get(task)),
            Effect::Printed => by == 1 && has_line(self.tasks.get(MAIN)),
        }
    }

    fn may_run(&self, by: u32, task: Option<&Task>) -> bool
        ensures { result ≡ machine.may_run (state_of self.now) by (option_map task_of (option_copied task.entry)) }
    {
        match task {
            Some(task) => by == task.home && self.goes_on(task.home, &task.life),
            None => false,
        }
    }

    pub(crate) fn goes_on(&self, process: u32, life: &Life) -> bool
        ensures { result ≡ machine.goes_on (state_of self.now) process life.now }
    {
        matches!(
            life,
            Life::Running {
                stage: Stage::Ready(_),
                ..
            }
        )
    }

    fn may_start(&self, by: u32, caller: u32, task: Option<&Task>) -> bool
        ensures { result ≡ machine.may_start (state_of self.now) by caller (option_map task_of (option_copied task.entry)) }
    {
        match task {
            Some(task) => by == task.home && matches!(task.life, Life::Called { .. }),
            None => false,
        }
    }

    fn may_take(&self, by: u32, process: u32, request: Option<&Request>) -> bool
        ensures { result ≡ machine.may_take (state_of self.now) by process (option_map request_of (option_copied request.entry)) }
    {
        match request {
            Some(request) => {
                by == request.cell.owner
                    && (matches!(request.answer, Answer::Asked)
                        && (!request.is_here && self.cells.outcome(request.cell).is_some()))
            }
            None => false,
        }
    }

    /// The request that a task waits for.
    pub(crate) fn request_of(&self, process: u32, life: &Life) -> Option<&Request>
        ensures { option_map request_of (option_copied result) ≡ machine.request_of (state_of self.now) process life.now }
    {
        match life {
            Life::Running {
                stage: Stage::Waits(number),
                ..
            } => self.requests.get(Ask {
                process,
                number: *number,
            }),
            _ => None,
        }
    }

    pub(crate) fn has_come(&self, process: u32, request: Option<&Request>) -> bool
        ensures { result ≡ machine.has_come (state_of self.now) process (option_map request_of (option_copied request.entry)) }
    {
        match request {
            Some(request) => matches!(request.answer, Answer::Kept(_)),
            None => false,
        }
    }

    fn may_return(&self, by: u32, task: Option<&Task>) -> bool
        ensures { result ≡ machine.may_return (state_of self.now) by (option_map task_of (option_copied task.entry)) }
    {
        match task {
            Some(task) => {
                by == task.home && self.has_come(task.home, self.request_of(task.home, &task.life))
            }
            None => false,
        }
    }

    pub(crate) fn is_set(&self, request: Option<&Request>) -> bool
        ensures { result ≡ machine.is_set (state_of self.now) (option_map request_of (option_copied request.entry)) }
    {
        match request {
            Some(request) => {
                matches!(request.answer, Answer::Asked)
                    && self.cells.outcome(request.cell).is_some()
            }
            None => false,
        }
    }

    fn may_look(&self, by: u32, task: Option<&Task>) -> bool
        ensures { result ≡ machine.may_look (state_of self.now) by (option_map task_of (option_copied task.entry)) }
    {
        match task {
            Some(task) => by == task.home && self.is_set(self.request_of(task.home, &task.life)),
            None => false,
        }
    }
}
