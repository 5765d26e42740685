//! What the reader of tokens asks of an expression, in constant time.
ghost use Rattle.std.specs.Prelude.{ℕ, ◌≡◌, ◌+◌, ◌&&◌, min, max, true, false};
ghost use Rattle.jd_grammar.specs.declared.token.Token.{Token};
ghost use Rattle.jd_grammar.specs.Kinds.{is_minus};
ghost use Rattle.jd_grammar.specs.Trees.{Syntax, leaf, sign, ending, bracket, unary, binary, keyword, choice, lambda, spawn, grouped, called, none, just};
ghost use Rattle.jd_grammar.specs.Rows.{begins_tight};
ghost use Rattle.jd_grammar.specs.Depth.{height};
ghost use Rattle.jd_grammar.specs.Profile.{flat, row_profile};
ghost use Rattle.jd_tree.specs.Measures.{capped, measure, height_up_to, most_count};

use crate::kinds;
use crate::kinds::{is_least, is_name, is_number, is_tight};
use jd_grammar::token::Token;

/// An expression without its tree. Heights are counted up to 255.
#[derive(Clone, Copy)]
pub struct Profile {
    /// How deep it nests.
    pub nesting: u8,
    /// Whether it is an expression, and no argument of another form.
    pub plain: bool,
    /// Whether its first token is a number with no blank before it.
    pub tight: bool,
    /// Whether it is written as atoms which blanks separate.
    pub chain: bool,
    /// Whether those are two or more.
    pub long: bool,
    /// How deep those atoms nest, and 0 where there are none.
    pub row: u8,
    /// How many of them stand behind the first, up to the greatest number of the type.
    pub atoms: u32,
}

/// What is written as no atoms.
pub fn flat_profile(nesting: u8, plain: bool, tight: bool, long: bool) -> Profile
    ensures { (tall : ℕ) → nesting ≡ height_up_to tall → result ≡ capped (flat tall plain tight long) }
{
    Profile {
        nesting,
        plain,
        tight,
        chain: false,
        long,
        row: 0,
        atoms: 0,
    }
}

/// What may be written as atoms.
pub fn chain_profile(
    nesting: u8,
    tight: bool,
    chain: bool,
    long: bool,
    row: u8,
    atoms: u32,
) -> Profile
    ensures { (tall deep count : ℕ) → nesting ≡ height_up_to tall → row ≡ height_up_to deep → atoms ≡ min count most_count
        → result ≡ capped (row_profile tall tight chain long deep count) }
{
    Profile {
        nesting,
        plain: true,
        tight,
        chain,
        long,
        row: if chain { row } else { 0 },
        atoms: if chain { atoms } else { 0 },
    }
}

pub fn leaf_profile(token: Token) -> Profile
    ensures { result ≡ measure (leaf token) }
{
    let chain = if is_number(token.kind) {
        true
    } else if is_name(token.kind) {
        true
    } else {
        is_least(token.kind, token.spaced)
    };
    chain_profile(0, is_tight(token), chain, false, 0, 0)
}

pub fn sign_profile(token: Token) -> Profile
    ensures { result ≡ measure (sign token) }
{
    flat_profile(0, false, false, false)
}

// ---- what ends with an operand

/// Whether an operator and the operand behind it are written as atoms: a `-` before a number.
fn is_negative(token: Token, operand: Profile) -> bool
    ensures { result ≡ (is_minus token.kind && (operand.tight && operand.chain)) }
{
    kinds::is_minus(token.kind) && (operand.tight && operand.chain)
}

/// An operator in front of an operand.
pub fn unary_profile(token: Token, operand: Profile) -> Profile
    ensures { (e : Syntax) → operand ≡ measure e → result ≡ measure (ending (unary token) e) }
{
    let chain = is_negative(token, operand);
    chain_profile(
        operand.nesting.saturating_add(1),
        false,
        chain,
        operand.long,
        operand.row.max(1),
        operand.atoms,
    )
}

/// Whether an operator and what stands round it are written as atoms: a `-` behind a blank and before a number.
fn is_difference(left: Profile, token: Token, operand: Profile) -> bool
    ensures { result ≡ ((is_minus token.kind && token.spaced) && ((operand.tight && operand.chain) && left.chain)) }
{
    (kinds::is_minus(token.kind) && token.spaced)
        && ((operand.tight && operand.chain) && left.chain)
}

/// An operator between operands.
pub fn binary_profile(left: Profile, token: Token, operand: Profile) -> Profile
    ensures { (l e : Syntax) → left ≡ measure l → operand ≡ measure e → result ≡ measure (ending (binary l token) e) }
{
    let chain = is_difference(left, token, operand);
    chain_profile(
        left.nesting.max(operand.nesting).saturating_add(1),
        false,
        chain,
        true,
        left.row.max(operand.row.max(1)),
        left.atoms.saturating_add(1).saturating_add(operand.atoms),
    )
}

/// What is no row, round parts that nest so deep.
pub fn round_profile(parts: u8) -> Profile
    ensures { (tall : ℕ) → parts ≡ height_up_to tall → result ≡ capped (flat (1 + tall) true false false) }
{
    flat_profile(parts.saturating_add(1), true, false, false)
}

pub fn choice_profile(condition: Profile, chosen: Profile, other: Profile) -> Profile
    ensures { (c x e : Syntax) (q t : Token) → condition ≡ measure c → chosen ≡ measure x → other ≡ measure e
        → result ≡ measure (ending (choice c q x t) e) }
{
    round_profile(condition.nesting.max(chosen.nesting).max(other.nesting))
}

pub fn lambda_profile(names: Profile, body: Profile) -> Profile
    ensures { (ns e : Syntax) (t : Token) → names ≡ measure ns → body ≡ measure e → result ≡ measure (ending (lambda ns t) e) }
{
    round_profile(names.nesting.max(body.nesting))
}

pub fn spawn_profile(place: Profile, body: Profile) -> Profile
    ensures { (a e : Syntax) (t : Token) → place ≡ measure a → body ≡ measure e → result ≡ measure (ending (spawn t a) e) }
{
    round_profile(place.nesting.max(body.nesting))
}

pub fn keyword_profile(value: Profile) -> Profile
    ensures { (e : Syntax) (n t : Token) → value ≡ measure e → result ≡ measure (ending (keyword n t) e) }
{
    flat_profile(value.nesting.saturating_add(1), false, false, false)
}

// ---- brackets

/// One expression in parentheses.
pub fn group_profile(inner: Profile) -> Profile
    ensures { (e : Syntax) (o c : Token) → inner ≡ measure e → result ≡ measure (bracket grouped o none (just e) c) }
{
    let nesting = inner.nesting.saturating_add(1);
    chain_profile(nesting, false, true, false, nesting, 0)
}

/// Whether a call of one argument is written as atoms: a blank stands before its parentheses.
fn is_group_behind(callee: Profile, spaced: bool, argument: Profile) -> bool
    ensures { result ≡ ((spaced && argument.plain) && callee.chain) }
{
    (spaced && argument.plain) && callee.chain
}

/// A call of one argument, behind a blank or not.
pub fn single_call_profile(callee: Profile, spaced: bool, argument: Profile) -> Profile
    ensures { (f e : Syntax) (o c : Token) → callee ≡ measure f → argument ≡ measure e → spaced ≡ o.spaced
        → result ≡ measure (bracket (called f) o none (just e) c) }
{
    let chain = is_group_behind(callee, spaced, argument);
    chain_profile(
        callee.nesting.max(argument.nesting).saturating_add(1),
        callee.tight,
        chain,
        true,
        callee.row.max(argument.nesting.saturating_add(1)),
        callee.atoms.saturating_add(1),
    )
}

/// Any other call, whose arguments nest so deep.
pub fn call_profile(callee: Profile, arguments: u8) -> Profile
    ensures { (f : Syntax) (tall : ℕ) → callee ≡ measure f → arguments ≡ height_up_to tall
        → result ≡ capped (flat (1 + max (height f) tall) true (begins_tight f) true) }
{
    flat_profile(
        callee.nesting.max(arguments).saturating_add(1),
        true,
        callee.tight,
        true,
    )
}
