//! What has been begun while an expression is read.

use jd_grammar::token::Token;
use jd_tree::measured::{Arguments, Atoms, Bracket, Generators, Head, Measured};
use jd_tree::tree::Channel;
use sqlite_items::Boxed;

/// Open parentheses or brackets, and the items that have a separator behind them.
#[derive(Drop)]
pub struct Listing {
    pub bracket: Bracket,
    pub opens: Token,
    pub most: Arguments,
}

/// An open bracket that can only be a matrix.
#[derive(Drop)]
pub struct Rows {
    pub opens: Token,
    pub atoms: Atoms,
    /// A `;` that wants an atom.
    pub pending: Option<Token>,
}

/// What wants an atom.
#[derive(Drop)]
pub enum Hold {
    /// `@spawnat` or `@fetchfrom`.
    Spawning(Token),
    Rows(Boxed<Rows>),
}

/// An open bracket, its first element, and the generators so far.
#[derive(Drop)]
pub struct Comprehension {
    pub opens: Token,
    pub element: Measured,
    pub generators: Generators,
}

/// `for` or a comma, the variable, and `in`.
#[derive(Drop)]
pub struct Variable {
    pub begins: Token,
    pub name: Token,
    pub within: Token,
}

/// The signs of a channel's beginning.
#[derive(Clone, Copy)]
pub struct Signs {
    pub opens: Token,
    pub arrow: Token,
    pub brace: Token,
}

/// A channel up to the parenthesis before its size.
#[derive(Drop)]
pub struct Typed {
    pub channel: Boxed<Channel>,
    pub element: Token,
    pub shut: Token,
    pub opens: Token,
}

/// The size of a channel, the parenthesis behind it, and the comma before its place.
#[derive(Drop)]
pub struct Sized {
    pub size: Measured,
    pub closes: Token,
    pub comma: Token,
}

/// A construct whose end is a token of its own, without the operand that is read now.
#[derive(Drop)]
pub enum Fixed {
    InBracket(Listing),
    /// Between `?` and its `:`.
    InMiddle(Measured, Token),
    /// An atom in parentheses.
    InGroup(Hold, Token),
    /// The collection of a comprehension's generator.
    InGenerator(Boxed<Comprehension>, Variable),
    /// The size of a channel.
    InSize(Boxed<Typed>),
    /// Its place.
    InPlace(Boxed<Typed>, Boxed<Sized>),
}

/// A construct that has been begun.
#[derive(Drop)]
pub enum Frame {
    OpenEnd(Head),
    Fixed(Fixed),
}

/// What only some tokens may follow.
#[derive(Drop)]
pub enum Words {
    /// An operator as an argument.
    Operator(Token),
    Atoms(Hold),
    /// The `-` of an atom.
    Minus(Hold, Token),
    GeneratorName(Boxed<Comprehension>, Token),
    GeneratorIn(Boxed<Comprehension>, Token, Token),
    ElementType(Boxed<Channel>),
    TypeEnd(Boxed<Channel>, Token),
    SizeBegin(Boxed<Channel>, Token, Token),
    PlaceBegin(Boxed<Typed>, Boxed<Measured>, Token),
}

/// What was read last.
#[derive(Drop)]
pub enum Now {
    /// Nothing that stands by itself: an operand is wanted.
    Wanted,
    Got(Measured),
    Pending(Words),
}
