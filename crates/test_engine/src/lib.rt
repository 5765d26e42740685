//! Tests of the language, of processes and of whole runs: what no contract says, as that calls with enough memory succeed,
//! in what order things come, and what scripts print. The crate has nothing for others.
//!
//! One crate, since the whole engine is loaded once for each.
#![tactic(auto)]

#[cfg(test)]
mod building;
#[cfg(test)]
mod lowering;
#[cfg(test)]
mod machine;
#[cfg(test)]
mod nodes;
#[cfg(test)]
mod runs;
#[cfg(test)]
mod sessions;
#[cfg(test)]
mod tasks;
#[cfg(test)]
mod tokens;
#[cfg(test)]
mod trees;
#[cfg(test)]
mod worlds;
