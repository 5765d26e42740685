//! What tasks come to: operations that they ask, and ends.
ghost use Rattle.std.specs.Prelude.{◌≡◌, ◌+◌, IfOk, OnOk, None, Some, Ok, filter, not};
ghost use Rattle.jd_value.specs.declared.value.Value.TheVariants.{Future};
ghost use Rattle.jd_model.specs.Machine as machine;
ghost use Rattle.jd_model.specs.declared.life.Life.TheVariants as running;
ghost use Rattle.jd_model.specs.declared.life.Stage.TheVariants as stage;
ghost use Rattle.jd_model.specs.Table.{put, put2, put3};
ghost use Rattle.jd_plain.specs.State.{state_of};
ghost use Rattle.jd_plain.specs.Steps.{going_task};

use crate::going::Going;
use crate::plain::Plain;
use crate::request::Request;
use crate::task::Task;
use jd_model::{Answer, Asking, Ending, Life, Stage};
use jd_task::{Closure, Place, TaskId, Turn};
use jd_value::{Ask, Fault, OutOfMemory, Outcome, RefId, Shared, Value};
use sqlite_items::Items;
use std::alloc::Global;

/// The next number behind a count. A number of 64 bits always suffices: no run has that many effects.
fn next(count: u64) -> Result<u64, OutOfMemory>
    ensures { IfOk result (λ n. n ≡ count + 1) }
{
    match count.checked_add(1) {
        Some(number) => Ok(number),
        None => Err(OutOfMemory),
    }
}

/// Whether a task is main.
fn is_main(task: TaskId) -> bool
    ensures { result ≡ machine.is_main task }
{
    task.process == 1 && task.number == 0
}

/// An outcome as others have it: a fault reaches them as `RemoteException` of its process.
fn passed_on(alloc: Global, process: u32, outcome: Outcome) -> Result<Outcome, OutOfMemory>
    ensures { IfOk result (λ o. o ≡ machine.passed_on process outcome) }
{
    match outcome {
        Ok(value) => Ok(Ok(value)),
        Err(fault) => Ok(Err(Fault::Remote(process, Shared::new(alloc, fault)?))),
    }
}

/// How main's outcome ends the run.
fn ending_of(outcome: Outcome) -> Ending
    ensures { result ≡ machine.ending_of outcome }
{
    match outcome {
        Ok(_) => Ending::Normal,
        Err(fault) => Ending::Fault(fault),
    }
}

/// The tasks without this one.
fn remove(running: &mut Vec<TaskId>, task: TaskId)
    ensures { running.new.items ≡ filter (λ u. not (machine.is_task task u)) running.old.items }
{
    running.retain(|other| !(*other == task));
}

impl Plain {
    /// Puts a task back, with that life.
    fn put_life(&mut self, going: Going, life: Life) -> Result<(), OutOfMemory>
        ensures { OnOk result (state_of self.new ≡ machine.with_life (state_of self.old) going.task (going_task going) life) }
    {
        self.tasks.put(
            going.task,
            Task {
                home: going.home,
                cell: going.cell,
                life,
            },
        )?;
        Ok(())
    }

    /// Puts a task back at that place and stage.
    fn put_stage(&mut self, going: Going, place: Place, stage: Stage) -> Result<(), OutOfMemory>
        ensures { OnOk result (state_of self.new ≡ machine.with_life (state_of self.old) going.task (going_task going) (running.Running place stage)) }
    {
        self.put_life(going, Life::Running { place, stage })
    }

    /// Puts a task back at that place, where it goes on with the future of that cell.
    fn put_future(&mut self, going: Going, place: Place, cell: RefId) -> Result<(), OutOfMemory>
        ensures { OnOk result (state_of self.new ≡ machine.with_life (state_of self.old) going.task (going_task going) (running.Running place (stage.Ready (Ok (Future cell))))) }
    {
        match Shared::new(self.alloc, cell) {
            Ok(future) => self.put_stage(going, place, Stage::Ready(Ok(Value::Future(future)))),
            Err(refused) => {
                drop(place);
                Err(refused)
            }
        }
    }

    /// Sets the cell of a task that has ended on that process.
    fn settle(&mut self, process: u32, cell: RefId, outcome: Outcome) -> Result<(), OutOfMemory>
        ensures { OnOk result (state_of self.new ≡ machine.set_cell (state_of self.old) cell (machine.passed_on process outcome)) }
    {
        let passed = passed_on(self.alloc, process, outcome)?;
        self.cells.settle(cell, passed)?;
        Ok(())
    }

    /// A task has ended: main's end ends the run, and another's sets its cell.
    fn end_with(
        &mut self,
        process: u32,
        cell: Option<RefId>,
        outcome: Outcome,
    ) -> Result<(), OutOfMemory>
        ensures { OnOk result (state_of self.new ≡ machine.set_by_end (state_of self.old) process cell outcome) }
    {
        match cell {
            None => {
                self.ending = Some(ending_of(outcome));
                Ok(())
            }
            Some(cell) => self.settle(process, cell, outcome),
        }
    }

    /// A task is over.
    fn end(&mut self, going: Going, outcome: Outcome) -> Result<(), OutOfMemory>
        ensures { OnOk result (state_of self.new ≡ machine.over (state_of self.old) going.task (going_task going) outcome) }
    {
        match self.put_life(going, Life::Over) {
            Ok(()) => {
                remove(&mut self.running, going.task);
                self.end_with(going.home, going.cell, outcome)
            }
            Err(refused) => {
                drop(outcome);
                Err(refused)
            }
        }
    }

    /// A task asks for a cell's outcome.
    fn ask(&mut self, going: Going, place: Place, cell: RefId) -> Result<(), OutOfMemory>
        ensures { OnOk result (state_of self.new ≡ machine.asks_for (state_of self.old) going.task (going_task going) place cell ((state_of self.old).asked going.home + 1)) }
    {
        match next(self.asked.get(going.home)) {
            Ok(number) => self.ask_as(going, place, cell, number),
            Err(refused) => {
                drop(place);
                Err(refused)
            }
        }
    }

    /// A task asks for a cell's outcome, by a request of this number.
    fn ask_as(
        &mut self,
        going: Going,
        place: Place,
        cell: RefId,
        number: u64,
    ) -> Result<(), OutOfMemory>
        ensures { OnOk result (state_of self.new ≡ machine.asks_for (state_of self.old) going.task (going_task going) place cell number) }
    {
        let is_here = self.fetched.has(going.home, cell);
        self.put_stage(going, place, Stage::Waits(number))?;
        let request = Request {
            task: going.task,
            cell,
            is_here,
            answer: Answer::Asked,
        };
        self.requests.put(
            Ask {
                process: going.home,
                number,
            },
            request,
        )?;
        self.asked.put(going.home, number)?;
        Ok(())
    }

    /// A task calls another, and has the future of its cell at once.
    fn call(
        &mut self,
        going: Going,
        place: Place,
        process: u32,
        code: Closure,
        args: Items<Value>,
    ) -> Result<(), OutOfMemory>
        ensures { OnOk result (state_of self.new ≡ machine.calls (state_of self.old) going.task (going_task going) place
            (record { maker = going.home; number = (state_of self.old).made going.home + 1; owner = process })
            (record { process = going.home; number = (state_of self.old).called going.home + 1 }) code args) }
    {
        match self.next_names(going.home, process) {
            Ok((cell, called)) => self.call_as(going, place, cell, called, code, args),
            Err(refused) => {
                drop((place, code, args));
                Err(refused)
            }
        }
    }

    /// The names of the next cell that a process makes for that owner, and of the next task that it calls.
    fn next_names(&self, home: u32, owner: u32) -> Result<(RefId, TaskId), OutOfMemory>
        ensures cell { IfOk result (λ names. names.0 ≡ record { maker = home; number = (state_of self.now).made home + 1; owner = owner }) }
        ensures task { IfOk result (λ names. names.1 ≡ record { process = home; number = (state_of self.now).called home + 1 }) }
    {
        let cell = RefId {
            maker: home,
            number: next(self.made.get(home))?,
            owner,
        };
        let called = TaskId {
            process: home,
            number: next(self.called.get(home))?,
        };
        Ok((cell, called))
    }

    /// A task calls another of that name, and has the future of its cell at once.
    fn call_as(
        &mut self,
        going: Going,
        place: Place,
        cell: RefId,
        called: TaskId,
        code: Closure,
        args: Items<Value>,
    ) -> Result<(), OutOfMemory>
        ensures { OnOk result (state_of self.new ≡ machine.calls (state_of self.old) going.task (going_task going) place cell called code args) }
    {
        match self.put_future(going, place, cell) {
            Ok(()) => self.put_called(going.home, cell, called, code, args),
            Err(refused) => {
                drop((code, args));
                Err(refused)
            }
        }
    }

    /// Puts a task in that this process called, and its cell.
    fn put_called(
        &mut self,
        home: u32,
        cell: RefId,
        called: TaskId,
        code: Closure,
        args: Items<Value>,
    ) -> Result<(), OutOfMemory>
        ensures { OnOk result (state_of self.new ≡ record (state_of self.old) {
          tasks = put2 (state_of self.old).tasks called.process called.number (Some (record { home = cell.owner; cell = Some cell; life = running.Called code args }));
          cells = put3 (state_of self.old).cells cell.maker cell.number cell.owner (Some None);
          made = put (state_of self.old).made home cell.number;
          called = put (state_of self.old).called home called.number;
        }) }
    {
        self.tasks.put(
            called,
            Task {
                home: cell.owner,
                cell: Some(cell),
                life: Life::Called { code, args },
            },
        )?;
        self.cells.make(cell)?;
        self.count(home, cell.number, called.number)
    }

    /// A process has made its cell and called its task of these numbers.
    fn count(&mut self, home: u32, made: u64, called: u64) -> Result<(), OutOfMemory>
        ensures { OnOk result (state_of self.new ≡ record (state_of self.old) {
          made = put (state_of self.old).made home made;
          called = put (state_of self.old).called home called;
        }) }
    {
        self.made.put(home, made)?;
        self.called.put(home, called)?;
        Ok(())
    }

    /// A task wants this.
    fn want(&mut self, going: Going, place: Place, asking: Asking) -> Result<(), OutOfMemory>
        ensures { OnOk result (state_of self.new ≡ machine.wants (state_of self.old) going.task (going_task going) place asking) }
    {
        match asking {
            Asking::Answers(outcome) => self.put_stage(going, place, Stage::Ready(outcome)),
            Asking::Prints(values) => self.put_stage(going, place, Stage::Prints(values)),
            Asking::Fetches(cell) => self.ask(going, place, cell),
            Asking::Calls {
                process,
                code,
                args,
            } => self.call(going, place, process, code, args),
        }
    }

    /// A task came to this.
    pub(crate) fn turn(&mut self, going: Going, place: Place, turn: Turn) -> Result<(), OutOfMemory>
        ensures { OnOk result (state_of self.new ≡ machine.turned (state_of self.old) going.task (going_task going) place turn) }
    {
        match turn {
            Turn::Ended(outcome) => self.end(going, outcome),
            Turn::Asks(op) => {
                let asking = Asking::of(self.workers, &[], is_main(going.task), op);
                self.want(going, place, asking)
            }
        }
    }
}
