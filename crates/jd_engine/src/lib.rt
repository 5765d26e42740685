//! The top call of the program: it runs a script on a cluster and says how that ended.
//!
//! `sim` reads the file that the words name, parses and lowers it, runs the program on a simulated cluster and writes
//! what it prints. Its contract is the headline: what is written are the lines of the reference machine that takes the
//! run's recorded effects in their order, and each status has its cause. The crate stands on jd_session, jd_syntax
//! and what these stand on.
#![tactic(auto)]

mod load;
mod reporting;
mod simulate;
mod status;
mod words;

pub use reporting::report;
pub use simulate::sim;
pub use status::{Ending, Status};
