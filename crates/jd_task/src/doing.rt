//! The state of a step.

use jd_expr::{Budget, Env};

/// The variables, and the units that the step may still spend.
#[derive(Drop)]
pub(crate) struct Doing {
    pub variables: Env,
    pub left: Budget,
}
