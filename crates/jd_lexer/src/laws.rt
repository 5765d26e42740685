//! Laws of the definitions, each the contract of a function that does nothing.
ghost use Rattle.std.specs.Prelude.{ℕ, List};
ghost use Rattle.jd_lexer.specs.Lexical.{lexed};
ghost use Rattle.jd_lexer.specs.Cutting.{IsCut};

/// What is read of a script cuts it: each token goes as far as its beginning says, and its text is the slice at its span;
/// blanks and comments stand between; and reading stops at the first place where neither begins.
pub fn reading_cuts_the_script()
    ensures { (bytes : List ℕ) → IsCut bytes (lexed bytes) }
{}
