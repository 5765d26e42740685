//! Expressions as they are written: a tree keeps every token of its text.
//!
//! What may be long is held flat: items, generators, cells, the arguments and indexes behind an operand, and the
//! operators that take all before them as their left operand. So a tree is only as deep as its constructs stand in one
//! another, however long a row of atoms was read before it was known to be one.

use jd_grammar::token::Token;
use sqlite_items::{Boxed, Items};

/// An expression.
#[cycle(tree)]
#[derive(Drop)]
pub enum Expr {
    /// A number, a text, a name, `true`, `false` or `nothing`.
    Leaf(Token),
    /// An operator as an argument.
    Sign(Token),
    /// An operator in front of its operand.
    Unary(Token, Boxed<Expr>),
    /// An operand, the operators behind it but the last one, and the last one: each takes all before it as its left
    /// operand.
    Binary(Boxed<Expr>, Items<Operation>, Boxed<Operation>),
    Choice(Boxed<Choice>),
    /// A name or names in parentheses, `->`, and the body.
    Lambda(Boxed<Expr>, Token, Boxed<Expr>),
    /// `@spawnat` or `@fetchfrom`, an atom, and the expression that runs there.
    Spawn(Token, Boxed<Expr>, Boxed<Expr>),
    Keyword(Boxed<Keyword>),
    /// An expression in parentheses, or a tuple.
    Group(Boxed<Listing>),
    List(Boxed<Listing>),
    /// A call: an operand, the arguments and indexes behind it but the last ones, and the arguments of the call. Each
    /// takes all before it.
    Call(Boxed<Expr>, Items<Application>, Boxed<Listing>),
    /// The same with indexes in brackets as the last ones.
    Index(Boxed<Expr>, Items<Application>, Boxed<Listing>),
    Matrix(Boxed<Matrix>),
    Comprehension(Boxed<Comprehension>),
    Remote(Boxed<Remote>),
}

/// A binary operator and its right operand.
#[cycle(tree)]
#[derive(Drop)]
pub struct Operation {
    pub operator: Token,
    pub operand: Expr,
}

/// `condition ? chosen : other`.
#[cycle(tree)]
#[derive(Drop)]
pub struct Choice {
    pub condition: Expr,
    pub question: Token,
    pub chosen: Expr,
    pub colon: Token,
    pub other: Expr,
}

/// `name = value` among arguments.
#[cycle(tree)]
#[derive(Drop)]
pub struct Keyword {
    pub name: Token,
    pub assign: Token,
    pub value: Expr,
}

/// Parentheses or brackets, and the expressions between them.
#[cycle(tree)]
#[derive(Drop)]
pub struct Listing {
    pub opens: Token,
    /// The expressions that have a separator behind them.
    pub items: Items<Item>,
    /// The expression directly before the closing token, where there is one.
    pub last: Option<Expr>,
    pub closes: Token,
}

/// An expression and the separator behind it.
#[cycle(tree)]
#[derive(Drop)]
pub struct Item {
    pub expr: Expr,
    pub separator: Token,
}

/// What stands behind an operand.
#[cycle(tree)]
#[derive(Drop)]
pub enum Application {
    /// In parentheses.
    Arguments(Boxed<Listing>),
    /// In brackets.
    Indexes(Boxed<Listing>),
}

/// Rows of atoms in brackets.
#[cycle(tree)]
#[derive(Drop)]
pub struct Matrix {
    pub opens: Token,
    pub first: Expr,
    pub cells: Items<Cell>,
    pub closes: Token,
}

/// An atom behind others: the `;` before it, where it begins a row, and the atom.
#[cycle(tree)]
#[derive(Drop)]
pub struct Cell {
    pub semicolon: Option<Token>,
    pub atom: Expr,
}

/// `[element for name in collection, ..]`.
#[cycle(tree)]
#[derive(Drop)]
pub struct Comprehension {
    pub opens: Token,
    pub element: Expr,
    pub generators: Items<Generator>,
    pub closes: Token,
}

/// `for name in collection`, and behind the first one `, name in collection`.
#[cycle(tree)]
#[derive(Drop)]
pub struct Generator {
    /// `for` or the comma.
    pub begins: Token,
    pub name: Token,
    pub within: Token,
    pub collection: Expr,
}

/// `RemoteChannel(() -> Channel{`: the tokens before the type of a channel's elements.
#[derive(Clone, Copy)]
pub struct Channel {
    pub callee: Token,
    pub opens: Token,
    pub none_opens: Token,
    pub none_closes: Token,
    pub arrow: Token,
    pub word: Token,
    pub brace: Token,
}

/// `RemoteChannel(() -> Channel{type}(size), place)`.
#[cycle(tree)]
#[derive(Drop)]
pub struct Remote {
    pub channel: Channel,
    pub element: Token,
    pub shut: Token,
    pub opens: Token,
    pub size: Expr,
    pub closes: Token,
    pub comma: Token,
    pub place: Expr,
    pub last: Token,
}
