//! The grammar of scripts, and the machine that reads it a token at a time.
//!
//! The tokens are plain data (`token`). The grammar is a predicate by cases on trees that keep every token
//! (specs `Trees`, `Rows`, `Grammar` for expressions, `Script` for statements and blocks), the machine a function on
//! plain stacks of frames (specs `Frames`, `Machine`, `Reader`), and the nesting limit a height of trees (`Depth`,
//! `ScriptDepth`). `laws` says what they add up to: tokens have one tree, the machine reads exactly what is spelled,
//! and a refusal has one place. All this is of definitions: no code here reads a script. A parser above is promised
//! that if each of its steps is the machine's, it reads exactly the scripts of the grammar, and its refusals are exact.
//! It stands on nothing but std.
#![tactic(auto)]

pub mod laws;
pub mod token;
