//! Whether anything can go on.
ghost use Rattle.std.specs.Prelude.{◌≡◌, ◌↔◌, IsTrue, option_map};
ghost use Rattle.std.specs.Option.{option_copied};
ghost use Rattle.jd_model.specs.Machine.{IsStopped};
ghost use Rattle.jd_plain.specs.Held.{task_of, request_of};
ghost use Rattle.jd_plain.specs.State.{state_of};
ghost use Rattle.jd_plain.specs.Stopped.{moves_task, moves_request, has_moving_task, has_moving_request, has_moving};

use crate::legal::has_line;
use crate::plain::{MAIN, Plain};
use crate::request::Request;
use crate::task::Task;
use jd_model::{Answer, Life};

impl Plain {
    /// Whether a mark of this task is legal.
    fn moves_task(&self, task: Option<&Task>) -> bool
        ensures { result ≡ moves_task (state_of self.now) (option_map task_of (option_copied task.entry)) }
    {
        match task {
            Some(task) => {
                let (home, life) = (task.home, &task.life);
                self.goes_on(home, life)
                    || (matches!(life, Life::Called { .. })
                        || (self.has_come(home, self.request_of(home, life))
                            || self.is_set(self.request_of(home, life))))
            }
            None => false,
        }
    }

    /// Whether this request can be answered.
    fn moves_request(&self, request: Option<&Request>) -> bool
        ensures { result ≡ moves_request (state_of self.now) (option_map request_of (option_copied request.entry)) }
    {
        match request {
            Some(request) => {
                matches!(request.answer, Answer::Asked)
                    && (!request.is_here && self.cells.outcome(request.cell).is_some())
            }
            None => false,
        }
    }

    fn has_moving_task(&self) -> bool
        ensures { result ≡ has_moving_task self.now }
    {
        self.tasks
            .held
            .keys()
            .any(|task| self.moves_task(self.tasks.get(*task)))
    }

    fn has_moving_request(&self) -> bool
        ensures { result ≡ has_moving_request self.now }
    {
        self.requests
            .held
            .keys()
            .any(|ask| self.moves_request(self.requests.get(*ask)))
    }

    /// Whether a mark is legal while main hasn't ended.
    fn has_moving(&self) -> bool
        ensures { result ≡ has_moving self.now }
    {
        self.has_moving_task() || (self.has_moving_request() || has_line(self.tasks.get(MAIN)))
    }

    /// Whether no mark is legal. It looks at each task and each request once.
    pub fn stopped(&self) -> bool
        ensures { IsTrue result ↔ IsStopped (state_of self.now) }
    {
        if self.ending.is_some() {
            return true;
        }
        !self.has_moving()
    }
}
