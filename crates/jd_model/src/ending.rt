//! How a run ends.

use jd_value::Fault;

/// How main ended.
#[derive(Drop)]
pub enum Ending {
    Normal,
    /// With a fault that nothing caught.
    Fault(Fault),
}
