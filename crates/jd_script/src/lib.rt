//! The trees of statements and blocks, which keep every token of their text.
//!
//! Each tree is one of `jd_grammar`'s, written as Rust enums (spec `PlainScript` says which), over the expressions of
//! `jd_tree`. Whoever reads tokens makes them from their parts (`blocks`, `parameters`): each function is promised to
//! make exactly the grammar's constructor over the parts it was given. Beside statements and lines stands how deep they
//! nest, under a rule that ties it to the tree (`nested`). It stands on `jd_grammar`, `jd_tree` and `sqlite_items`.
#![tactic(auto)]

pub mod blocks;
pub mod nested;
pub mod parameters;
pub mod tree;
