//! Tasks and requests as the machine holds them.

use jd_model::Life;
use jd_value::RefId;

/// A task that was called.
#[derive(Drop)]
pub struct Task {
    /// The process that it runs on.
    pub home: u32,
    /// The cell that its end sets; main has none.
    pub cell: Option<RefId>,
    pub life: Life,
}
