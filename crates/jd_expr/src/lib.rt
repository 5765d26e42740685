//! The meaning of expressions.
//!
//! The layer above gets `eval` and `eval_all`, whose contracts say that what they answer is the plain meaning of
//! `specs/Meaning`, with the units that it leaves, and `apply_builtin` for the functions of the table in
//! `specs/Builtins`. A step of a task may spend a number of units: one for each expression that it begins, and those
//! that a builtin takes for the elements of collections. Where one is wanted and none is left, the step faults. The crate
//! stands on jd_value and jd_array.
#![tactic(auto)]

mod arithmetic;
mod budget;
mod builtins;
mod cells;
mod collections;
mod comparing;
mod drops;
mod env;
mod evaluate;
mod grids;
mod indexing;
mod laws;
mod level;
mod limits;
mod making;
mod named;
mod numbers;
mod ranges;
mod sizing;
mod stop;
mod throwing;
mod variable;

pub use budget::Budget;
pub use builtins::apply_builtin;
pub use env::Env;
pub use evaluate::{MAX_CALLS, eval, eval_all};
pub use laws::more_fuel_changes_nothing;
pub use stop::Stop;
pub use variable::Variable;
