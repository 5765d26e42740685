//! The machine takes marks.
ghost use Rattle.std.specs.Prelude.{◌≡◌, ◌↔◌, ℕ, OnOk, IsTrue, Err, true, false, None};
ghost use Rattle.std.specs.Option.{option_copied};
ghost use Rattle.jd_model.specs.Machine.{legal, does};
ghost use Rattle.jd_plain.specs.State.{state_of, is_broken};
ghost use Rattle.jd_plain.specs.Taken.{row_of, IfNotLegal};
ghost use Rattle.jd_plain.specs.declared.not_taken.NotTaken.TheVariants as reason;

use crate::not_taken::NotTaken;
use crate::plain::Plain;
use jd_model::{Effect, Ending, Mark};
use jd_value::{OutOfMemory, Txt};

/// The row of the table of marks that an effect has.
fn row_of(effect: Effect) -> u8
    ensures { result ≡ row_of effect }
{
    match effect {
        Effect::Ran(_) => 1,
        Effect::Started(_) => 2,
        Effect::Took(_) => 3,
        Effect::Returned(_) => 4,
        Effect::Local(_) => 5,
        Effect::Printed => 13,
    }
}

impl Plain {
    /// Does what an effect does.
    fn follow(&mut self, effect: Effect) -> Result<(), OutOfMemory>
        ensures { OnOk result (state_of self.new ≡ does (state_of self.old) effect) }
    {
        match effect {
            Effect::Ran(task) => self.run(task),
            Effect::Started(task) => self.start_task(task),
            Effect::Took(ask) => self.answer(ask),
            Effect::Returned(task) => self.give_kept(task),
            Effect::Local(task) => self.give_local(task),
            Effect::Printed => self.print(),
        }
    }

    /// Takes a mark where it is legal, and does what its effect does. Where it isn't legal the machine stays as it was.
    /// Without memory the machine is broken, and takes no mark any more.
    pub fn take(&mut self, mark: &Mark) -> Result<(), NotTaken>
        ensures legal { OnOk result (legal (state_of self.old) mark.now ≡ true) }
        ensures done { OnOk result (state_of self.new ≡ does (state_of self.old) mark.now.effect) }

        // A mark that isn't legal is refused, with its row, and changes nothing.
        ensures illegal { is_broken self.old ≡ false → legal (state_of self.old) mark.now ≡ false → result ≡ Err (reason.NotLegal (row_of mark.now.effect)) }
        ensures not_legal { IfNotLegal result (λ clause. legal (state_of self.old) mark.now ≡ false) }
        ensures row { IfNotLegal result (λ clause. clause ≡ row_of mark.now.effect) }
        ensures unchanged { IfNotLegal result (λ clause. self.new ≡ self.old) }

        // Want of memory breaks the machine, and a broken one answers nothing else.
        ensures broken { is_broken self.old ≡ true → result ≡ Err reason.OutOfMemory }
        ensures breaks { result ≡ Err reason.OutOfMemory → is_broken self.new ≡ true }
        ensures whole { OnOk result (is_broken self.new ≡ false) }
    {
        if self.broken {
            return Err(NotTaken::OutOfMemory);
        }
        if !self.is_legal(mark) {
            return Err(NotTaken::NotLegal {
                clause: row_of(mark.effect),
            });
        }
        match self.follow(mark.effect) {
            Ok(()) => {
                self.broken = false;
                Ok(())
            }
            Err(OutOfMemory) => {
                self.broken = true;
                Err(NotTaken::OutOfMemory)
            }
        }
    }

    /// The printed lines, without their ends.
    pub fn lines(&self) -> &[Txt]
        ensures { result.now ≡ (state_of self.now).lines }
    {
        self.lines.as_slice()
    }

    /// How main ended; None while it hasn't.
    pub fn ended(&self) -> Option<&Ending>
        ensures { option_copied result ≡ (state_of self.now).ending }
    {
        self.ending.as_ref()
    }
}
