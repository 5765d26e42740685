//! What a name gives.
ghost use Rattle.std.specs.Prelude.{ℕ};
ghost use Rattle.jd_expr.specs.Action.{Gives, lift_to};
ghost use Rattle.jd_expr.specs.Variables.{named};

use crate::env::Env;
use crate::stop::Stop;
use jd_value::{Fault, Shared, Txt, Value};

/// The value of the variable of this name, or the fault that it has none.
pub(crate) fn named(vars: &Env, name: &Shared<Txt>) -> Result<Value, Stop>
    ensures { (units : ℕ) → Gives (lift_to units (named name.now vars.now)) result units }
{
    match vars.get(name.get()) {
        Some(Value::Int(n)) => Ok(Value::Int(*n)),
        Some(value) => Ok(value.copy()?),
        None => Err(Stop::Faulted(Fault::Undef(name.share()?))),
    }
}
