//! Answers of owners, and main's lines.
ghost use Rattle.std.specs.Prelude.{◌≡◌, ◌++◌, IfOk, OnOk, Some, option_map};
ghost use Rattle.std.specs.Option.{option_copied};
ghost use Rattle.jd_model.specs.Machine as machine;
ghost use Rattle.jd_model.specs.declared.mark.Effect.TheVariants as effect;
ghost use Rattle.jd_plain.specs.Held.{task_of, request_of};
ghost use Rattle.jd_plain.specs.State.{state_of};
ghost use Rattle.jd_plain.specs.Steps as step;

use crate::give::copied;
use crate::plain::{MAIN, Plain};
use crate::request::Request;
use crate::task::Task;
use jd_model::{Answer, Life, Stage};
use jd_value::{Ask, OutOfMemory, Txt, Value, print_value};
use std::alloc::Global;

/// The text of a line: the printed forms of its values, with nothing between them.
fn text_of(alloc: Global, values: &[Value]) -> Result<Txt, OutOfMemory>
    ensures { IfOk result (λ text. text ≡ machine.line values.now) }
{
    let mut text = Txt::new(alloc);
    for value in values {
        print_value(value, &mut text)?;
    }
    Ok(text)
}

/// The text of the line that a task wants to print.
fn text_of_task(alloc: Global, task: Option<&Task>) -> Result<Option<Txt>, OutOfMemory>
    ensures { IfOk result (λ text. text ≡ option_map machine.line (machine.line_of_task (option_map task_of (option_copied task.entry)))) }
{
    match task {
        Some(
            Task {
                life: Life::Running {
                    stage: Stage::Prints(values),
                    ..
                },
                ..
            },
        ) => Ok(Some(text_of(alloc, values.as_slice())?)),
        _ => Ok(None),
    }
}

impl Plain {
    /// The answer that the owner has for a request.
    fn answer_for(&self, request: Option<&Request>) -> Result<Option<Answer>, OutOfMemory>
        ensures { IfOk result (λ answer. answer ≡ option_map (step.answer_of (state_of self.now)) (option_map request_of (option_copied request.entry))) }
    {
        match request {
            Some(request) => match copied(self.cells.outcome(request.cell))? {
                Some(outcome) => Ok(Some(Answer::Kept(outcome))),
                None => Ok(Some(Answer::Asked)),
            },
            None => Ok(None),
        }
    }

    /// The owner answers a request.
    pub(crate) fn answer(&mut self, ask: Ask) -> Result<(), OutOfMemory>
        ensures { OnOk result (state_of self.new ≡ machine.does (state_of self.old) (effect.Took ask)) }
    {
        if let Some(answer) = self.answer_for(self.requests.get(ask))? {
            self.requests.set_answer(ask, answer);
        }
        Ok(())
    }

    /// Main's line is printed.
    pub(crate) fn print(&mut self) -> Result<(), OutOfMemory>
        ensures { OnOk result (state_of self.new ≡ machine.does (state_of self.old) effect.Printed) }
    {
        if let Some(text) = text_of_task(self.alloc, self.tasks.get(MAIN))? {
            self.lines.push(text)?;
            self.tasks.set_stage(MAIN, Stage::Ready(Ok(Value::Nothing)));
        }
        Ok(())
    }
}
