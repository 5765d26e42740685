//! The parser of scripts: from bytes to trees that keep every token.
//!
//! `parse` answers the one script that the bytes spell. Where they spell none, it tells the line of the first place up
//! to which they are no beginning of a script, and why. Both are exact. The tokens are cut by `jd_lexer`, and
//! `jd_reader` reads them into the trees of `jd_tree` and `jd_script` by the grammar of `jd_grammar`.
#![tactic(auto)]

mod fault;
pub mod laws;
mod lines;
mod parsing;
mod script;

pub use fault::{ParseFault, ParseKind};
pub use parsing::{MAX_SCRIPT, parse};
pub use script::Script;
