//! Parentheses and brackets round expressions.
ghost use Rattle.std.specs.Prelude.{◌≡◌, ◌↔◌, ◌+◌, IfOk, max, map, option_map, false};
ghost use Rattle.jd_grammar.specs.declared.token.Token.{Token};
ghost use Rattle.jd_grammar.specs.Depth.{height_items, height_maybe};
ghost use Rattle.jd_grammar.specs.Trees as grammar;
ghost use Rattle.jd_grammar.specs.Trees.{Syntax, none, Maybe, just};
ghost use Rattle.jd_grammar.specs.Grammar as rules;
ghost use Rattle.jd_grammar.specs.Machine as machine;
ghost use Rattle.jd_tree.specs.Measures.{measure, height_up_to, is_one};
ghost use Rattle.jd_tree.specs.Plain as plain;
ghost use Rattle.jd_tree.specs.Code.{plain_measured, plain_maybe, plain_arguments, plain_bracket};

use crate::measured::{Arguments, Bracket, Measured};
use crate::profile::{Profile, call_profile, group_profile, round_profile, single_call_profile};
use crate::tree::{Application, Expr, Item, Listing};
use jd_grammar::token::{Kind, Token};
use sqlite_items::{Boxed, Items};
use std::alloc::{AllocError, Global};

// ---- what is asked of brackets

/// The kind of the token that opens it.
pub fn opening_kind(bracket: &Bracket) -> Kind
    ensures { result ≡ rules.opens (plain_bracket bracket.now) }
{
    match bracket {
        Bracket::Grouped | Bracket::Called(_) => Kind::OpenParen,
        Bracket::Itemed | Bracket::Indexed(_) => Kind::OpenBracket,
    }
}

/// The kind of the token that closes it.
pub fn closing_kind(bracket: &Bracket) -> Kind
    ensures { result ≡ rules.closes (plain_bracket bracket.now) }
{
    match bracket {
        Bracket::Grouped | Bracket::Called(_) => Kind::CloseParen,
        Bracket::Itemed | Bracket::Indexed(_) => Kind::CloseBracket,
    }
}

/// How tightly an item has to bind: 0 where it is an argument, 1 where it is an expression.
pub fn item_level(bracket: &Bracket) -> u8
    ensures { result ≡ rules.item_level (plain_bracket bracket.now) }
{
    match bracket {
        Bracket::Called(_) => 0,
        Bracket::Grouped | Bracket::Itemed | Bracket::Indexed(_) => 1,
    }
}

/// Whether it may stand between the items.
pub fn is_separator(bracket: &Bracket, kind: Kind) -> bool
    ensures { result ≡ rules.is_separator (plain_bracket bracket.now) kind }
{
    match kind {
        Kind::Comma => true,
        Kind::Semicolon => match bracket {
            Bracket::Called(_) => true,
            Bracket::Grouped | Bracket::Itemed | Bracket::Indexed(_) => false,
        },
        _ => false,
    }
}

/// Whether a token of this kind closes it.
pub fn is_closer(bracket: &Bracket, kind: Kind) -> bool
    ensures { result ≡ machine.is_closer (plain_bracket bracket.now) kind }
{
    match kind {
        Kind::CloseParen => match bracket {
            Bracket::Grouped | Bracket::Called(_) => true,
            Bracket::Itemed | Bracket::Indexed(_) => false,
        },
        Kind::CloseBracket => match bracket {
            Bracket::Grouped | Bracket::Called(_) => false,
            Bracket::Itemed | Bracket::Indexed(_) => true,
        },
        _ => false,
    }
}

/// Whether it is one row of atoms.
pub fn is_row(expr: &Measured) -> bool
    ensures { result ≡ rules.is_row (plain_measured expr.now) }
{
    expr.profile.chain && expr.profile.long
}

/// Whether its places may be filled and left out so.
pub fn is_shape(bracket: &Bracket, most: &Arguments, last: &Option<Measured>) -> bool
    ensures { result ≡ rules.is_shape (plain_bracket bracket.now) (plain_arguments most.now) (plain_maybe last.now) }
{
    let count = most.items.len();
    match last {
        Some(last) => match bracket {
            Bracket::Itemed => { if count > 0 { true } else { !is_row(last) } }
            Bracket::Grouped | Bracket::Called(_) | Bracket::Indexed(_) => true,
        },
        None => match bracket {
            Bracket::Grouped => count <= 1,
            Bracket::Called(_) => count == 0,
            Bracket::Itemed => count == 0,
            Bracket::Indexed(_) => false,
        },
    }
}

/// Whether a token may stand directly behind it: an operator as an argument has no blank behind it.
pub fn touches(expr: &Measured, token: Token) -> bool
    ensures { result ≡ rules.touches (plain_measured expr.now) token }
{
    let sign = !expr.profile.plain && expr.profile.nesting == 0;
    !(sign && token.spaced)
}

// ---- items

pub fn no_arguments(alloc: Global) -> Arguments
    ensures { plain_arguments result ≡ none }
{
    Arguments {
        items: Items::new(alloc),
        nesting: 0,
    }
}

/// One expression more, and the separator behind it.
pub fn with_item(
    most: Arguments,
    operand: Measured,
    separator: Token,
) -> Result<Arguments, AllocError>
    ensures { IfOk result (λ all. plain_arguments all ≡ machine.with_item (plain_arguments most) (plain_measured operand) separator) }
{
    let Arguments { mut items, nesting } = most;
    let nesting = nesting.max(operand.profile.nesting);
    items.push(Item {
        expr: operand.expr,
        separator,
    })?;
    Ok(Arguments { items, nesting })
}

// ---- brackets

/// How deep an expression nests that may be left out, up to 255.
pub fn nesting_of(expr: &Option<Measured>) -> u8
    ensures { result ≡ height_up_to (height_maybe (plain_maybe expr.now)) }
{
    match expr {
        None => 0,
        Some(expr) => expr.profile.nesting,
    }
}

fn expr_of(expr: Option<Measured>) -> Option<Expr>
    ensures { option_map plain.plain result ≡ option_map plain_measured expr }
{
    match expr {
        None => None,
        Some(expr) => Some(expr.expr),
    }
}

fn listing_of(opens: Token, most: Arguments, last: Option<Measured>, closes: Token) -> Listing
    ensures { plain.plain_listing result
        ≡ record { opens = opens; most = plain_arguments most; last = plain_maybe last; closes = closes } }
{
    Listing {
        opens,
        items: most.items,
        last: expr_of(last),
        closes,
    }
}

/// Brackets round one expression with no separator behind it.
fn single_profile(bracket: &Bracket, opens: Token, inner: Profile) -> Profile
    ensures { (e : Syntax) (c : Token) → inner ≡ measure e → result ≡ measure (grammar.bracket (plain_bracket bracket.now) opens none (just e) c) }
{
    match bracket {
        Bracket::Grouped => group_profile(inner),
        Bracket::Called(callee) => single_call_profile(callee.profile, opens.spaced, inner),
        Bracket::Itemed => round_profile(inner.nesting),
        Bracket::Indexed(indexed) => round_profile(indexed.profile.nesting.max(inner.nesting)),
    }
}

/// Brackets round anything else that nests so deep.
fn several_profile(bracket: &Bracket, parts: u8) -> Profile
    ensures { (o : Token) (es : grammar.Items) (last : Maybe) (c : Token) → is_one es last ≡ false → parts ≡ height_up_to (max (height_items es) (height_maybe last))
        → result ≡ measure (grammar.bracket (plain_bracket bracket.now) o es last c) }
{
    match bracket {
        Bracket::Grouped => round_profile(parts),
        Bracket::Called(callee) => call_profile(callee.profile, parts),
        Bracket::Itemed => round_profile(parts),
        Bracket::Indexed(indexed) => round_profile(indexed.profile.nesting.max(parts)),
    }
}

fn bracket_profile(
    bracket: &Bracket,
    opens: Token,
    most: &Arguments,
    last: &Option<Measured>,
) -> Profile
    ensures { (c : Token) → result ≡ measure (grammar.bracket (plain_bracket bracket.now) opens (plain_arguments most.now) (plain_maybe last.now) c) }
{
    match last {
        None => several_profile(bracket, most.nesting),
        Some(last) => {
            if most.items.is_empty() {
                single_profile(bracket, opens, last.profile)
            } else {
                several_profile(bracket, most.nesting.max(last.profile.nesting))
            }
        }
    }
}

/// One more behind those that stand behind an operand.
fn with_application(
    first: Boxed<Expr>,
    applications: Items<Application>,
    last: Application,
) -> Result<(Boxed<Expr>, Items<Application>), AllocError>
    ensures { IfOk result (λ r. plain.applied (plain.plain r.0) (map plain.plain_application r.1)
        ≡ plain.apply (plain.applied (plain.plain first) (map plain.plain_application applications)) (plain.plain_application last)) }
{
    let mut applications = applications;
    applications.push(last)?;
    Ok((first, applications))
}

/// What stands before further arguments or indexes: the first operand, and those behind it.
fn applied(alloc: Global, left: Expr) -> Result<(Boxed<Expr>, Items<Application>), AllocError>
    ensures { IfOk result (λ r. plain.applied (plain.plain r.0) (map plain.plain_application r.1) ≡ plain.plain left) }
{
    match left {
        Expr::Call(first, applications, arguments) => {
            with_application(first, applications, Application::Arguments(arguments))
        }
        Expr::Index(first, applications, indexes) => {
            with_application(first, applications, Application::Indexes(indexes))
        }
        left => Ok((Boxed::new(alloc, left)?, Items::new(alloc))),
    }
}

fn bracket_expr(
    alloc: Global,
    bracket: Bracket,
    listing: Boxed<Listing>,
) -> Result<Expr, AllocError>
    ensures { let inside = plain.plain_listing listing in
        IfOk result (λ e. plain.plain e ≡ grammar.bracket (plain_bracket bracket) inside.opens inside.most inside.last inside.closes) }
{
    match bracket {
        Bracket::Grouped => Ok(Expr::Group(listing)),
        Bracket::Called(callee) => {
            let (first, applications) = applied(alloc, callee.expr)?;
            Ok(Expr::Call(first, applications, listing))
        }
        Bracket::Itemed => Ok(Expr::List(listing)),
        Bracket::Indexed(indexed) => {
            let (first, applications) = applied(alloc, indexed.expr)?;
            Ok(Expr::Index(first, applications, listing))
        }
    }
}

/// What stands in parentheses or brackets.
pub fn bracket_of(
    alloc: Global,
    bracket: Bracket,
    opens: Token,
    most: Arguments,
    last: Option<Measured>,
    closes: Token,
) -> Result<Measured, AllocError>
    ensures { IfOk result (λ m. plain_measured m ≡ grammar.bracket (plain_bracket bracket) opens (plain_arguments most) (plain_maybe last) closes) }
{
    let profile = bracket_profile(&bracket, opens, &most, &last);
    match Boxed::new(alloc, listing_of(opens, most, last, closes)) {
        Ok(listing) => {
            let expr = bracket_expr(alloc, bracket, listing)?;
            Ok(Measured { expr, profile })
        }
        Err(refusal) => {
            drop(bracket);
            Err(refusal)
        }
    }
}
