//! What tokens are good for.
ghost use Rattle.std.specs.Prelude.{◌≡◌};
ghost use Rattle.jd_grammar.specs.Kinds as kinds;
ghost use Rattle.jd_grammar.specs.Rows as rows;
ghost use Rattle.jd_grammar.specs.Grammar as grammar;
ghost use Rattle.jd_grammar.specs.Script as script;

use jd_grammar::token::{Kind, Name, Token, Word};

// ---- operands

/// Whether a token of this kind is an operand by itself.
pub fn is_leaf(kind: Kind) -> bool
    ensures { result ≡ kinds.is_leaf kind }
{
    matches!(
        kind,
        Kind::Number(_) | Kind::Text(_) | Kind::Name(_) | Kind::True | Kind::False | Kind::Nothing
    )
}

pub fn is_number(kind: Kind) -> bool
    ensures { result ≡ kinds.is_number kind }
{
    matches!(kind, Kind::Number(_))
}

pub fn is_name(kind: Kind) -> bool
    ensures { result ≡ kinds.is_name kind }
{
    matches!(kind, Kind::Name(_))
}

/// Whether it is 2^63 with no blank before it.
pub fn is_least(kind: Kind, spaced: bool) -> bool
    ensures { result ≡ kinds.is_least kind spaced }
{
    match kind {
        Kind::Wide(least) => least && !spaced,
        _ => false,
    }
}

/// Whether it is a number that is no operand by itself.
pub fn is_wide(kind: Kind) -> bool
    ensures { result ≡ kinds.is_wide kind }
{
    matches!(kind, Kind::Wide(_))
}

/// Whether it is a number with no blank before it.
pub fn is_tight(token: Token) -> bool
    ensures { result ≡ rows.is_tight token }
{
    if token.spaced {
        false
    } else if is_number(token.kind) {
        true
    } else {
        is_least(token.kind, token.spaced)
    }
}

// ---- operators

pub fn is_unary(kind: Kind) -> bool
    ensures { result ≡ kinds.is_unary kind }
{
    matches!(
        kind,
        Kind::Plus | Kind::Minus | Kind::Not | Kind::Complement
    )
}

pub fn is_minus(kind: Kind) -> bool
    ensures { result ≡ kinds.is_minus kind }
{
    matches!(kind, Kind::Minus)
}

/// Whether it is an operator that may stand as an argument.
pub fn is_argument(kind: Kind) -> bool
    ensures { result ≡ kinds.is_argument kind }
{
    matches!(
        kind,
        Kind::Plus | Kind::Star | Kind::And | Kind::Or | Kind::Xor
    )
}

/// Whether it is `@spawnat` or `@fetchfrom`.
pub fn is_spawn(kind: Kind) -> bool
    ensures { result ≡ kinds.is_spawn kind }
{
    matches!(kind, Kind::SpawnAt | Kind::FetchFrom)
}

/// How tightly a binary operator binds, and 0 for any other token.
pub fn strength_of(kind: Kind) -> u8
    ensures { result ≡ kinds.strength kind }
{
    match kind {
        Kind::OrElse => 3,
        Kind::AndAlso => 4,
        Kind::Equal
        | Kind::Unequal
        | Kind::Less
        | Kind::LessEqual
        | Kind::Greater
        | Kind::GreaterEqual => 5,
        Kind::Colon => 6,
        Kind::Plus | Kind::Minus | Kind::Or | Kind::Xor => 7,
        Kind::Star | Kind::Divide | Kind::Percent | Kind::And => 8,
        _ => 0,
    }
}

/// How tightly the left operand of a binary operator binds.
pub fn left_of(kind: Kind) -> u8
    ensures { result ≡ kinds.left kind }
{
    match kind {
        Kind::OrElse => 3,
        Kind::AndAlso => 4,
        Kind::Colon | Kind::Plus | Kind::Minus | Kind::Or | Kind::Xor => 7,
        Kind::Star | Kind::Divide | Kind::Percent | Kind::And => 8,
        _ => 6,
    }
}

/// Whether a binary operator may stand where ranges may, or may not, stand.
pub fn stands(kind: Kind, ranges: bool) -> bool
    ensures { result ≡ kinds.stands kind ranges }
{
    match kind {
        Kind::Colon => ranges,
        _ => true,
    }
}

pub fn is_comma(kind: Kind) -> bool
    ensures { result ≡ kinds.is_comma kind }
{
    matches!(kind, Kind::Comma)
}

// ---- names

/// The number of a word among all, from 0.
pub fn word_number(word: Word) -> u8
    ensures { result ≡ kinds.word_number word }
{
    match word {
        Word::Any => 0,
        Word::Channel => 1,
        Word::Distributed => 2,
        Word::DistributedArrays => 3,
        Word::Div => 4,
        Word::Finalize => 5,
        Word::Int => 6,
        Word::Max => 7,
        Word::Min => 8,
        Word::Mod => 9,
        Word::Println => 10,
        Word::Push => 11,
        Word::Rem => 12,
        Word::RemoteChannel => 13,
        Word::Typemax => 14,
        Word::Typemin => 15,
        Word::Xor => 16,
    }
}

fn same_name(one: Name, other: Name) -> bool
    ensures { result ≡ kinds.same_name one other }
{
    match (one, other) {
        (Name::Word(one), Name::Word(other)) => word_number(one) == word_number(other),
        (Name::Other(one), Name::Other(other)) => one == other,
        _ => false,
    }
}

/// Whether it is this name.
pub fn is_named(name: Name, kind: Kind) -> bool
    ensures { result ≡ kinds.is_named name kind }
{
    match kind {
        Kind::Name(other) => same_name(name, other),
        _ => false,
    }
}

/// Whether it is this word.
pub fn is_word(word: Word, kind: Kind) -> bool
    ensures { result ≡ kinds.is_word word kind }
{
    is_named(Name::Word(word), kind)
}

/// Whether both are one name.
pub fn are_same(one: Kind, other: Kind) -> bool
    ensures { result ≡ grammar.are_same one other }
{
    match one {
        Kind::Name(name) => is_named(name, other),
        _ => false,
    }
}

/// Whether it is the type of a channel's elements.
pub fn is_element_type(kind: Kind) -> bool
    ensures { result ≡ kinds.is_element_type kind }
{
    if is_word(Word::Int, kind) {
        true
    } else {
        is_word(Word::Any, kind)
    }
}

// ---- statements

/// Whether it ends a statement.
pub fn is_separator(kind: Kind) -> bool
    ensures { result ≡ script.is_separator kind }
{
    matches!(kind, Kind::Semicolon | Kind::LineEnd)
}

/// Whether it is `+=`, `-=` or `*=`.
pub fn is_update(kind: Kind) -> bool
    ensures { result ≡ script.is_update kind }
{
    matches!(
        kind,
        Kind::PlusAssign | Kind::MinusAssign | Kind::StarAssign
    )
}

/// Whether it may stand before a loop's collection.
pub fn is_in(kind: Kind) -> bool
    ensures { result ≡ script.is_in kind }
{
    matches!(kind, Kind::In | Kind::Assign)
}

/// Whether `@distributed` may reduce with it.
pub fn is_reducer(kind: Kind) -> bool
    ensures { result ≡ script.is_reducer kind }
{
    if is_argument(kind) {
        true
    } else if is_word(Word::Min, kind) {
        true
    } else if is_word(Word::Max, kind) {
        true
    } else {
        is_word(Word::Xor, kind)
    }
}

/// Whether `using` may name it.
pub fn is_package(kind: Kind) -> bool
    ensures { result ≡ script.is_package kind }
{
    if is_word(Word::Distributed, kind) {
        true
    } else {
        is_word(Word::DistributedArrays, kind)
    }
}
