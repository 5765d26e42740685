//! How statements end.
ghost use Rattle.std.specs.Prelude.{◌≡◌, if◌then◌else◌, None, Some};
ghost use Rattle.jd_task.specs.Running.{left, value_of_flow};
ghost use Rattle.jd_task.specs.declared.flow.Flow.TheVariants.{Next};
ghost use Rattle.jd_task.specs.declared.reached.Reached.TheVariants.{Went};
ghost use Rattle.jd_value.specs.declared.value.Value.TheVariants.{Nothing};

use jd_value::Value;

/// How a statement or a block ended.
#[derive(Drop)]
pub(crate) enum Flow {
    /// With a value: what stands behind it is next.
    Next(Value),
    /// By `break`, which leaves the innermost loop.
    Break,
    /// By `continue`, which goes on with the next turn of the innermost loop.
    Continue,
}

impl Flow {
    /// Whether a loop ends behind its block, which ended so.
    pub fn leaves(self) -> bool
        ensures { left self ≡ (if result then Some (Went (Next Nothing)) else None) }
    {
        match self {
            Flow::Next(value) => {
                drop(value);
                false
            }
            Flow::Break => true,
            Flow::Continue => false,
        }
    }

    /// The value of a body whose last statement ended so.
    pub fn into_value(self) -> Value
        ensures { result ≡ value_of_flow self }
    {
        match self {
            Flow::Next(value) => value,
            Flow::Break | Flow::Continue => Value::Nothing,
        }
    }
}
