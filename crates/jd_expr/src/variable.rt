//! Variables with their values.
ghost use Rattle.std.specs.Prelude.{◌≡◌, IfOk};

use jd_value::{OutOfMemory, Shared, Txt, Value};

/// A variable with its value.
#[derive(Drop)]
pub struct Variable {
    pub name: Shared<Txt>,
    pub value: Value,
}

impl Variable {
    /// The same variable once more. It takes constant time.
    pub fn copy(&self) -> Result<Variable, OutOfMemory>
        ensures { IfOk result (λ v. v ≡ self.now) }
    {
        Ok(Variable {
            name: self.name.share()?,
            value: self.value.copy()?,
        })
    }
}
