//! Statements as they are written: a tree keeps every token of its text.
//!
//! Lines, the arms of a statement, parameters and packages are held flat, so that a tree is only as deep as blocks stand
//! in one another.

use jd_grammar::token::Token;
use jd_tree::tree::Expr;
use sqlite_items::{Boxed, Items};

/// A comma and the name behind it.
#[derive(Clone, Copy)]
pub struct NextName {
    pub comma: Token,
    pub name: Token,
}

/// `a, b, c`.
#[derive(Drop)]
pub struct Parameters {
    pub first: Option<Token>,
    pub others: Items<NextName>,
}

/// `f(a, b)` of a definition.
#[derive(Drop)]
pub struct Signature {
    pub name: Token,
    pub opens: Token,
    pub parameters: Parameters,
    pub closes: Token,
}

/// `using A, B`.
#[derive(Drop)]
pub struct Packages {
    pub word: Token,
    pub first: Token,
    pub others: Items<NextName>,
}

/// What stands before the expression that a statement ends with.
#[derive(Drop)]
pub enum Lead {
    Bare,
    /// `x =`.
    Assigned(Token, Token),
    /// `x +=`, `x -=` or `x *=`.
    Updated(Token, Token),
    /// `f(a, b) =`.
    Defined(Boxed<Expr>, Token),
    /// `@everywhere f(a, b) =`.
    DefinedEverywhere(Token, Boxed<Signature>, Token),
    /// `return`.
    Returned(Token),
}

/// `x =` before `@distributed`.
#[derive(Clone, Copy)]
pub struct Target {
    pub name: Token,
    pub assign: Token,
}

/// `x = @distributed (+) for name in`.
#[derive(Clone, Copy)]
pub struct Distributed {
    pub target: Option<Target>,
    pub word: Token,
    pub opens: Token,
    pub reducer: Token,
    pub closes: Token,
    pub loops: Token,
    pub name: Token,
    pub within: Token,
}

/// What stands before the expression that a block's header ends with.
#[derive(Drop)]
pub enum Header {
    While(Token),
    If(Token),
    Elseif(Token),
    /// `for name in`.
    For(Token, Token, Token),
    Distributed(Boxed<Distributed>),
}

/// What stands before a block.
#[derive(Drop)]
pub enum Opening {
    /// A header, its expression and a separator.
    Headed(Header, Boxed<Expr>, Token),
    Else(Token),
    Try(Token),
    /// `catch` and a separator.
    Catch(Token, Token),
    /// `catch`, a name and a separator.
    CatchName(Token, Token, Token),
    /// `@everywhere` or nothing, `function`, and the signature.
    Function(Option<Token>, Token, Boxed<Signature>),
}

/// A statement.
#[cycle(script)]
#[derive(Drop)]
pub enum Stmt {
    Ended(Lead, Expr),
    /// `return`, `break` or `continue`.
    Alone(Token),
    Packages(Packages),
    /// `@everywhere using A`.
    PackagesEverywhere(Token, Token, Token),
    Blocks(Boxed<Blocks>),
}

/// Blocks, each behind its opening, and `end`.
#[cycle(script)]
#[derive(Drop)]
pub struct Blocks {
    /// The blocks before the last one.
    pub before: Items<Arm>,
    pub last: Arm,
    pub ends: Token,
}

/// A block behind its opening.
#[cycle(script)]
#[derive(Drop)]
pub struct Arm {
    pub opening: Opening,
    pub block: Block,
}

/// Lines, and what stands behind the last separator.
#[cycle(script)]
#[derive(Drop)]
pub struct Block {
    pub lines: Items<Line>,
    /// The statement there, where there is one.
    pub last: Option<Boxed<Stmt>>,
}

/// What stands before a `;` or the end of a line, and that token.
#[cycle(script)]
#[derive(Drop)]
pub struct Line {
    /// None where nothing stands there.
    pub stmt: Option<Boxed<Stmt>>,
    pub ends: Token,
}
