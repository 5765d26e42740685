//! The units of a step.
ghost use Rattle.std.specs.Prelude.{◌≡◌};
ghost use Rattle.jd_expr.specs.Action.{Gives, unit, units};

use crate::stop::Stop;
use jd_value::Fault;
use std::marker::Model;

/// The units that a step may still spend, which contracts see as their number.
#[derive(Debug, Drop)]
pub struct Budget {
    left: u64,
}

impl Model for Budget {
    ghost use Rattle.std.specs.Prelude.{ℕ};
    ghost use Rattle.std.specs.Coded.{coded_ℕ};

    ghost Value = { ℕ };

    ghost coded = { coded_ℕ };

    ghost view = { λ b. b.left };
}

impl Budget {
    /// So many units.
    pub fn new(units: u64) -> Budget
        ensures { result ≡ units }
    {
        Budget { left: units }
    }

    /// How many are left.
    pub fn left(&self) -> u64
        ensures { result ≡ self.now }
    {
        self.left
    }

    /// Spends a unit. Where none is left that is the fault `Budget`.
    pub fn spend(&mut self) -> Result<(), Stop>
        ensures { Gives (unit self.old) result self.new }
    {
        if self.left == 0 {
            return Err(Stop::Faulted(Fault::Budget));
        }
        self.left -= 1;
        Ok(())
    }

    /// Spends so many units at once. Where fewer are left, they are gone, and that is the fault `Budget`.
    pub(crate) fn spend_all(&mut self, count: u128) -> Result<(), Stop>
        ensures { Gives (units count self.old) result self.new }
    {
        if u128::from(self.left) < count {
            self.left = 0;
            return Err(Stop::Faulted(Fault::Budget));
        }
        self.left -= count as u64;
        Ok(())
    }
}
