//! From the tree of a script to the program that runs it.
//!
//! `lower` answers the program of a script that the program can run, and `NotBuilt` for any other. The rule behind it:
//! the effects of a statement run first, from left to right; each has a variable of its own, `%1`, `%2` and so on in its
//! body, unless it is the whole right side of an assignment. The definition is `specs/Lowering`, by plain recursion on the
//! grammar's tree. The crate stands on jd_syntax, with the trees and tokens below it, and on jd_value.
#![tactic(auto)]

mod builtins;
mod calls;
mod draft;
mod expressions;
mod fault;
pub mod laws;
mod lines;
mod literals;
mod names;
mod operators;
mod rows;
mod scope;
mod script;
mod shapes;

pub use fault::LowerFault;
pub use script::lower;
