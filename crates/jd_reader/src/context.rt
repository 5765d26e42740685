//! What is open while a script is read.

use jd_grammar::token::Token;
use jd_precedence::frames::{Frame, Now};
use jd_precedence::stack::Stack;
use jd_script::nested::{Arms, Lines, NestedOpening, NestedStmt};
use jd_script::parameters::NamedParameters;
use jd_script::tree::{Header, Lead, Packages, Signature, Target};
use jd_tree::measured::Measured;
use sqlite_items::Boxed;

/// A statement whose block is open, with the lines before the statement.
#[derive(Drop)]
pub struct Outer {
    pub lines: Lines,
    pub before: Arms,
    pub opening: NestedOpening,
}

/// The open blocks, and the lines of the innermost.
#[derive(Drop)]
pub struct Context {
    pub outer: Stack<Outer>,
    pub lines: Lines,
}

/// What an expression that is read now belongs to.
#[derive(Drop)]
pub enum Bottom {
    /// The end of a statement.
    Lead(Lead),
    /// The header of a block, behind the blocks before it.
    Header(Arms, Boxed<Header>),
}

/// Whose name and parameters are read.
#[derive(Clone, Copy)]
pub enum Owner {
    /// A function with a block: `@everywhere` or nothing, and `function`.
    Function(Option<Token>, Token),
    /// A function with an expression behind `@everywhere`.
    Everywhere(Token),
}

/// The beginning of a loop with `@distributed`: a target, and the word.
#[derive(Clone, Copy)]
pub struct Distributing {
    pub target: Option<Target>,
    pub word: Token,
}

/// The tokens of a signature up to its parenthesis.
#[derive(Clone, Copy)]
pub struct Signing {
    pub owner: Owner,
    pub name: Token,
    pub opens: Token,
}

/// What only some tokens may follow.
#[derive(Drop)]
pub enum Awaited {
    ForName(Token),
    ForIn(Token, Token),
    DistributedOpen(Distributing),
    DistributedReducer(Distributing, Token),
    DistributedClose(Distributing, Token, Token),
    DistributedFor(Distributing, Token, Token, Token),
    DistributedName(Distributing, Token, Token, Token, Token),
    DistributedIn(Distributing, Token, Token, Token, Token, Token),
    FunctionName(Option<Token>, Token),
    SignatureOpen(Owner, Token),
    SignatureFirst(Signing),
    SignatureNext(Signing, NamedParameters),
    SignatureName(Signing, NamedParameters, Token),
    SignatureEnd(Token, Signature),
    Everywhere(Token),
    EverywherePackage(Token, Token),
    PackageFirst(Token),
    PackageNext(Packages, Token),
    CatchWords(Arms, Token),
    CatchNamed(Arms, Token, Token),
}

/// What is read now.
#[derive(Drop)]
pub enum Mode {
    Expression(Bottom, Stack<Frame>, Now),
    Words(Boxed<Awaited>),
    /// A statement that is whole.
    Complete(NestedStmt),
}

/// What was read.
#[derive(Drop)]
pub struct Config {
    pub context: Context,
    pub mode: Mode,
}

/// What is whole at a place.
#[derive(Drop)]
pub enum Whole {
    Nothing,
    Place(Option<NestedStmt>),
    Header(Arms, Header, Measured),
}
