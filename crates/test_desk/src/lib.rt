//! Tests of desks: threads that take turns, run to their end. The crate has nothing for others.
#![tactic(auto)]

#[cfg(test)]
mod turns;
