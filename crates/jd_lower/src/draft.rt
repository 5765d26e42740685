//! What is written so far.
ghost use Rattle.std.specs.Prelude.{◌≡◌, ◌∷◌, IfOk, decimal};
ghost use Rattle.jd_lower.specs.Steps as steps;
ghost use Rattle.jd_lower.specs.Steps.{Gives};

use crate::fault::LowerFault;
use itoa::Buffer;
use jd_value::{OutOfMemory, Shared, Stmt, Txt};
use sqlite_items::Items;
use std::alloc::Global;

/// The statements of a body, and the numbers that were given so far.
#[derive(Drop)]
pub struct Draft {
    /// The last number of a variable for an effect's answer.
    pub effects: u64,
    /// The last number of a body.
    pub bodies: u64,
    pub stmts: Items<Stmt>,
}

/// How the variable of this number is spelled.
fn variable_name(alloc: Global, number: u64) -> Result<Txt, OutOfMemory>
    ensures { IfOk result (λ name. name ≡ 37 ∷ decimal number) }
{
    let mut buffer = Buffer::new();
    let mut name = Txt::new(alloc);
    name.push_byte(b'%')?;
    name.push_bytes(buffer.format(number).as_bytes())?;
    Ok(name)
}

impl Draft {
    pub fn new(alloc: Global) -> Draft
        ensures { result ≡ steps.nothing_written }
    {
        Draft {
            effects: 0,
            bodies: 0,
            stmts: Items::new(alloc),
        }
    }

    /// The next variable for the answer of an effect.
    pub fn variable(&mut self, alloc: Global) -> Result<Shared<Txt>, LowerFault>
        ensures { Gives (steps.variable self.old) result self.new }
    {
        if self.effects == u64::MAX {
            return Err(LowerFault::OutOfMemory);
        }
        self.effects += 1;
        Ok(Shared::new(alloc, variable_name(alloc, self.effects)?)?)
    }

    /// The next number of a body.
    pub fn body_number(&mut self) -> Result<u64, LowerFault>
        ensures { Gives (steps.body_number self.old) result self.new }
    {
        if self.bodies == u64::MAX {
            return Err(LowerFault::OutOfMemory);
        }
        self.bodies += 1;
        Ok(self.bodies)
    }

    /// Adds a statement at the end.
    pub fn write(&mut self, stmt: Stmt) -> Result<(), LowerFault>
        ensures { Gives (steps.write stmt self.old) result self.new }
    {
        self.stmts.push(stmt)?;
        Ok(())
    }
}
