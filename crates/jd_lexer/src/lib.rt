//! The lexer of scripts: from bytes to tokens.
//!
//! `lex` knows every token of the language. It promises the layer above that its tokens, texts and names are those of
//! the definition `lexed`, and that they are cut from the bytes: how far a token goes is told by its beginning, blanks and
//! comments stand between, and reading stops at the first place where no token begins. Names are numbered, so that two tokens
//! are one name exactly where their texts are equal. The tokens are those of `jd_grammar`; besides it stands on
//! `sqlite_items` and `indexmap`.
#![tactic(auto)]

pub mod laws;
mod lexeme;
mod lexer;
mod names;
pub mod words;

pub use lexeme::Text;
pub use lexer::{Lexer, lex};
