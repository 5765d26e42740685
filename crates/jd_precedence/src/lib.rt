//! Reads expressions by operator precedence, a token at a time, over the trees of `jd_tree`.
//!
//! What has been begun stands on a stack of frames, and an operand is closed into those that bind at least as tightly as
//! the operator behind it. `step` does what the expression machine of `jd_grammar` does at one token (spec `State`):
//! it goes on as the machine does, and refuses exactly where it does, unless memory runs out. `needs_of` says how deep the
//! shallowest expression nests that begins with what was read. It stands on the grammar and on the trees' builders;
//! `jd_reader` above it reads statements and blocks.
#![tactic(auto)]

mod brackets;
pub mod close;
pub mod depth;
pub mod frames;
mod operands;
pub mod operators;
mod parts;
pub mod stack;
pub mod step;
pub mod stop;
