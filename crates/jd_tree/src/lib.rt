//! The trees of expressions, which keep every token of their text.
//!
//! Each tree is one of `jd_grammar`'s, written as Rust enums (spec `Plain` says which). Whoever reads tokens makes them
//! from their parts (`build`, `brackets`, `rows`, `parts`): each function is promised to make exactly the grammar's
//! constructor over the parts it was given. Beside each tree stands what is asked of it while tokens are read, under a
//! rule that ties it to the tree (`profile`, `measured`): how deep it nests, whether it is written as atoms, what the
//! rows of a matrix are like. So each question takes constant time, except whether names differ (`names`), which is
//! asked once of a list and takes n log n. Lists are flat, and so are calls behind calls and operators behind operators:
//! a tree is only as deep as its constructs stand in one another, and may be dropped whatever the length of a row. It
//! stands on `jd_grammar` and `sqlite_items`.
#![tactic(auto)]

pub mod brackets;
pub mod build;
pub mod heads;
pub mod kinds;
pub mod measured;
pub mod names;
pub mod parts;
mod peel;
pub mod profile;
pub mod rows;
pub mod tree;
