//! Layouts: how the indexes of an array lie in parts, one part for each process.
//!
//! The layer above gets `Layout`, whose parts are numbered column-major over `dist`. Each index lies in exactly one
//! part, and `Layout::locate` gives that part and the place in it by arithmetic alone. Each refusal comes exactly where
//! its contract says. Laws stand beside it as functions that do nothing: the parts are a partition, gathering them cell
//! by cell gives the whole array back, and folding their folds gives the fold of the whole by each of the seven
//! operations. The crate stands on jd_value's arrays and ranges and on jd_array's cuts and slices.
#![tactic(auto)]

mod counts;
mod fault;
mod ids;
mod laws;
mod layout;
mod parts;
mod ranges;

pub use fault::{Bounds, LayoutFault};
pub use laws::{gathered_is_whole, layout_is_partition, parts_fold_to_whole, parts_have_cells};
pub use layout::Layout;
pub use ranges::Ranges;
