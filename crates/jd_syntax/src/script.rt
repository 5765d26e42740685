//! A script as it is written.

use jd_lexer::Text;
use jd_script::tree::Block;
use sqlite_items::Items;

/// A script: its tree, which keeps every token, and what the tokens name by a number alone.
#[derive(Drop)]
pub struct Script {
    pub block: Block,
    /// The texts with their escapes read, in the order of the script: `Kind::Text(n)` is the one at `n`.
    pub texts: Items<Text>,
    /// The names that the language gives no meaning, each once, in the order in which they first occur:
    /// `Name::Other(n)` is the one at `n`.
    pub names: Items<Text>,
}
