//! Builtins that throw, and those that give what they got or nothing.
ghost use Rattle.std.specs.Prelude.{◌≡◌};
ghost use Rattle.jd_expr.specs.Action.{Gives};
ghost use Rattle.jd_expr.specs.Throwing as spec;

use crate::budget::Budget;
use crate::limits::answered;
use crate::stop::Stop;
use jd_value::{Fault, Value};
use std::alloc::Global;

/// `identity(x)`
pub(crate) fn identity_of(
    _alloc: Global,
    args: &[Value],
    budget: &mut Budget,
) -> Result<Value, Stop>
    ensures { Gives (spec.identity_of args.now budget.old) result budget.new }
{
    match args {
        [value] => answered(value.copy()?, budget),
        _ => Err(Stop::Faulted(Fault::BadType)),
    }
}

/// `error(text)`, which is the fault `Error` of the text.
pub(crate) fn error_of(_alloc: Global, args: &[Value], _budget: &mut Budget) -> Result<Value, Stop>
    ensures { Gives (spec.error_of args.now _budget.old) result _budget.new }
{
    match args {
        [Value::Text(text)] => Err(Stop::Faulted(Fault::Error(text.share()?))),
        _ => Err(Stop::Faulted(Fault::BadType)),
    }
}

/// `throw(e)`, which is the fault of the exception.
pub(crate) fn thrown(_alloc: Global, args: &[Value], _budget: &mut Budget) -> Result<Value, Stop>
    ensures { Gives (spec.thrown args.now _budget.old) result _budget.new }
{
    match args {
        [Value::Exception(fault)] => Err(Stop::Faulted(fault.get().copy()?)),
        _ => Err(Stop::Faulted(Fault::BadType)),
    }
}

/// `typemax` and `typemin` of anything but the name `Int`: `BadType`.
pub(crate) fn limit_of(_alloc: Global, _args: &[Value], _budget: &mut Budget) -> Result<Value, Stop>
    ensures { Gives (spec.limit_of _args.now _budget.old) result _budget.new }
{
    Err(Stop::Faulted(Fault::BadType))
}
