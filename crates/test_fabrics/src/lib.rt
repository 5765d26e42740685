//! Fabrics for the tests of the crates above: one that fails at a call, one that is full from the beginning, and one that
//! tells nothing. Each keeps every clause of the trait. The crate stands on jd_world.
#![tactic(auto)]

mod failing;
mod full;
mod silent;

pub use failing::FailingFabric;
pub use full::FullFabric;
pub use silent::SilentFabric;
