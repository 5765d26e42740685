//! The reading machine of the whole grammar, over the trees of `jd_tree`.
//!
//! `read` answers the one script that a list of tokens is written for, within the nesting limit, and else the place of
//! the token that ends what may become a script, and why it is refused there. It does what the machine of `jd_grammar`
//! does, a token at a time: each step's contract is the machine's step (spec `Reading`), and what that adds up to is the
//! grammar's own (`Promise` there, `Answers` here). Expressions are read by `jd_precedence`; statements, blocks and what
//! may stand in them are read here.
#![tactic(auto)]

mod blocks;
mod context;
mod expressions;
mod limits;
mod reading;
mod refusal;
mod scopes;
mod statements;
mod stretch;
mod words;

pub use limits::NESTING_LIMIT;
pub use reading::read;
pub use refusal::{Fault, Refusal};
