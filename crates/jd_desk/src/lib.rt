//! A shared log: a value that threads take turns at, and seats that say which entries of its list each of them made.
//!
//! What it promises to the layer above: a turn gives the caller's seat exactly the entries that the turn appended, each
//! with its place in the list; and once one seat has taken in all others, its entries are the whole list, each place
//! once. A seat also keeps the lists that it saw, and the final list begins with each of them: so what a thread found
//! out in a turn stays a fact about a beginning of the history.
//!
//! It stands on std's `Mutex` and on the kit's `atomic_table`. Shares, entries and lists seen take no bytes: they exist
//! in the proofs alone. Nothing is promised of progress, fairness or time.
#![tactic(auto)]

mod desk;
pub mod laws;
mod logged;
mod rule;
mod seat;

pub use desk::{Desk, UnnamedDesk};
pub use logged::Logged;
pub use rule::SHARES;
pub use seat::{DeskName, Holding, Seat};
