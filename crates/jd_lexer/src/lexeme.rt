//! What stands at one place of a script.
ghost use Rattle.std.specs.Prelude.{◌≡◌, ◌∷◌, take, slice_index, ◌+◌, ◌-◌, ◌≤◌, ◌<◌, ◌*◌, ◌&&◌, [], false, drop, min, length, IfOk, IfSome, IsTrue, option_map};
ghost use Rattle.std.specs.List.{prefix_len};
ghost use Rattle.jd_lexer.specs.Lexical.{is_digit, is_letter, is_word_byte, starts_with, starts_with_digit, name_len, comment_len, escaped, sign, pair_sign, pair_at, sign_at, number_at, number_kind, number_lexeme, wide, text_at, named, macro_at, lexeme_at};
ghost use Rattle.jd_lexer.specs.Words.{word_kind};

use crate::words::word_kind;
use jd_grammar::token::Kind;
use sqlite_items::Items;
use std::alloc::{AllocError, Global};

/// A text of a script, in bytes that are UTF-8.
pub type Text = Items<u8>;

/// A token without its place and number.
#[derive(Drop)]
pub enum Lexeme {
    Plain(Kind),
    /// A text with its escapes read.
    Text(Text),
    /// A name without a meaning of its own.
    Name,
}

fn is_digit(byte: u8) -> bool
    ensures { result ≡ is_digit byte }
{
    byte.is_ascii_digit()
}

/// Whether a name may begin with it.
pub fn is_letter(byte: u8) -> bool
    ensures { result ≡ is_letter byte }
{
    byte.is_ascii_alphabetic() || byte == b'_'
}

fn is_word_byte(byte: u8) -> bool
    ensures { result ≡ is_word_byte byte }
{
    is_letter(byte) || is_digit(byte)
}

pub fn starts_with(bytes: &[u8], at: usize, byte: u8) -> bool
    ensures { result ≡ starts_with byte (drop at bytes.now) }
{
    at < bytes.len() && bytes[at] == byte
}

fn starts_with_digit(bytes: &[u8], at: usize) -> bool
    ensures { result ≡ starts_with_digit (drop at bytes.now) }
{
    at < bytes.len() && is_digit(bytes[at])
}

/// Where the letters, digits and `_` end that stand at a place.
fn word_end(bytes: &[u8], start: usize) -> usize
    requires { start ≤ length bytes.now }
    ensures end { result ≡ start + prefix_len is_word_byte (drop start bytes.now) }
    ensures within { result ≤ length bytes.now }
{
    let mut at = start;
    while at < bytes.len() && is_word_byte(bytes[at]) {
        at += 1;
    }
    at
}

/// Where a name ends whose first byte stands before a place.
pub fn name_end(bytes: &[u8], start: usize) -> usize
    requires { start ≤ length bytes.now }
    ensures end { result ≡ start + name_len (drop start bytes.now) }
    ensures within { result ≤ length bytes.now }
{
    let end = word_end(bytes, start);
    if starts_with(bytes, end, b'!') && !starts_with(bytes, end + 1, b'=') {
        end + 1
    } else {
        end
    }
}

/// Where a line ends that goes on at a place.
pub fn line_end(bytes: &[u8], start: usize) -> usize
    requires { start ≤ length bytes.now }
    ensures end { result ≡ start + comment_len (drop start bytes.now) }
    ensures within { result ≤ length bytes.now }
{
    let mut at = start;
    while at < bytes.len() && bytes[at] != b'\n' {
        at += 1;
    }
    at
}

fn escape(byte: u8) -> Option<u8>
    ensures { result ≡ escaped byte }
{
    match byte {
        b'n' => Some(b'\n'),
        b't' => Some(b'\t'),
        b'\\' | b'"' | b'$' => Some(byte),
        _ => None,
    }
}

#[tactic(auto, unfolding(crate::specs::Lexical::pair_sign))]
fn pair_sign(first: u8, second: u8) -> Option<Kind>
    ensures { result ≡ pair_sign first second }
{
    match (first, second) {
        (b'+', b'=') => Some(Kind::PlusAssign),
        (b'-', b'=') => Some(Kind::MinusAssign),
        (b'*', b'=') => Some(Kind::StarAssign),
        (b'=', b'=') => Some(Kind::Equal),
        (b'!', b'=') => Some(Kind::Unequal),
        (b'<', b'=') => Some(Kind::LessEqual),
        (b'>', b'=') => Some(Kind::GreaterEqual),
        (b'-', b'>') => Some(Kind::Arrow),
        (b'&', b'&') => Some(Kind::AndAlso),
        (b'|', b'|') => Some(Kind::OrElse),
        // `÷`.
        (0xc3, 0xb7) => Some(Kind::Divide),
        _ => None,
    }
}

#[tactic(auto, unfolding(crate::specs::Lexical::sign))]
fn sign(byte: u8) -> Option<Kind>
    ensures { result ≡ sign byte }
{
    match byte {
        b'\n' => Some(Kind::LineEnd),
        b'!' => Some(Kind::Not),
        b'%' => Some(Kind::Percent),
        b'&' => Some(Kind::And),
        b'(' => Some(Kind::OpenParen),
        b')' => Some(Kind::CloseParen),
        b'*' => Some(Kind::Star),
        b'+' => Some(Kind::Plus),
        b',' => Some(Kind::Comma),
        b'-' => Some(Kind::Minus),
        b':' => Some(Kind::Colon),
        b';' => Some(Kind::Semicolon),
        b'<' => Some(Kind::Less),
        b'=' => Some(Kind::Assign),
        b'>' => Some(Kind::Greater),
        b'?' => Some(Kind::Question),
        b'[' => Some(Kind::OpenBracket),
        b']' => Some(Kind::CloseBracket),
        b'{' => Some(Kind::OpenBrace),
        b'|' => Some(Kind::Or),
        b'}' => Some(Kind::CloseBrace),
        b'~' => Some(Kind::Complement),
        _ => None,
    }
}

fn pair_at(bytes: &[u8], next: usize, first: u8) -> Option<Kind>
    ensures { result ≡ pair_at first (drop next bytes.now) }
{
    if next < bytes.len() {
        pair_sign(first, bytes[next])
    } else {
        None
    }
}

/// Whether the last two bytes of `⊻` stand at a place.
#[tactic(auto, using(crate::proofs::Numbers::drop_one))]
fn ends_xor(bytes: &[u8], next: usize) -> bool
    requires { next ≤ length bytes.now }
    ensures ends { let rest = drop next bytes.now in
        result ≡ (starts_with 138 rest && starts_with 187 (drop 1 rest)) }
    ensures within { IsTrue result → next + 2 ≤ length bytes.now }
{
    starts_with(bytes, next, 0x8a) && starts_with(bytes, next + 1, 0xbb)
}

/// The longest sign whose first byte stands before a place, and how many bytes it has there.
fn sign_at(bytes: &[u8], next: usize, first: u8) -> Option<(Kind, usize)>
    requires { next ≤ length bytes.now }
    ensures sign { result ≡ sign_at first (drop next bytes.now) }
    ensures within { IfSome result (λ found. next + found.1 ≤ length bytes.now) }
{
    if first == 0xe2 {
        return if ends_xor(bytes, next) {
            Some((Kind::Xor, 2))
        } else {
            None
        };
    }
    match pair_at(bytes, next, first) {
        Some(kind) => Some((kind, 1)),
        None => sign(first).map(|kind| (kind, 0)),
    }
}

/// A greater value than this counts as this.
const WIDE: u64 = (1 << 63) + 1;

fn with_digit(value: u64, byte: u8) -> u64
    requires { IsTrue (is_digit byte) }
    ensures { result ≡ min (10 * value + (byte - 48)) wide }
{
    value
        .saturating_mul(10)
        .saturating_add(u64::from(byte - b'0'))
        .min(WIDE)
}

fn number_kind(value: u64) -> Kind
    ensures { result ≡ number_kind value }
{
    if value < 1 << 63 {
        Kind::Number(value)
    } else {
        Kind::Wide(value == 1 << 63)
    }
}

/// The number whose first digit stands before a place, and how many bytes it has there.
fn number_at(bytes: &[u8], start: usize, first: u8) -> (Kind, usize)
    requires within { start ≤ length bytes.now }
    requires digit { IsTrue (is_digit first) }
    ensures number { result ≡ number_lexeme (number_at (first - 48) 0 (drop start bytes.now)) }
    ensures inside { start + result.1 ≤ length bytes.now }
{
    let mut value = u64::from(first - b'0');
    let mut at = start;
    while at < bytes.len() {
        let byte = bytes[at];
        if is_digit(byte) {
            value = with_digit(value, byte);
        } else if byte != b'_' || !starts_with_digit(bytes, at + 1) {
            return (number_kind(value), at - start);
        }
        at += 1;
    }
    (number_kind(value), at - start)
}

/// Reads the text whose opening quote stands before a place, with its escapes, and says how many
/// bytes it has there with its closing quote. None where it isn't a text.
fn read_text(text: &mut Text, bytes: &[u8], start: usize) -> Result<Option<usize>, AllocError>
    requires { start ≤ length bytes.now }
    ensures text { IfOk result (λ found. option_map (λ len. (text.new, len)) found ≡ text_at text.old 0 false (drop start bytes.now)) }
    ensures within { IfOk result (λ found. IfSome found (λ len. start + len ≤ length bytes.now)) }
{
    let mut escaping = false;
    let mut at = start;
    while at < bytes.len() {
        let byte = bytes[at];
        at += 1;
        if escaping {
            match escape(byte) {
                Some(read) => text.push(read)?,
                None => return Ok(None),
            }
            escaping = false;
        } else {
            match byte {
                b'"' => return Ok(Some(at - start)),
                b'\\' => escaping = true,
                b'\n' | b'$' => return Ok(None),
                _ => text.push(byte)?,
            }
        }
    }
    Ok(None)
}

/// The text whose opening quote stands before a place, with its escapes read, and how many bytes it
/// has there with its closing quote. None where it isn't a text.
fn text_at(alloc: Global, bytes: &[u8], start: usize) -> Result<Option<(Text, usize)>, AllocError>
    requires { start ≤ length bytes.now }
    ensures text { IfOk result (λ found. found ≡ text_at [] 0 false (drop start bytes.now)) }
    ensures within { IfOk result (λ found. IfSome found (λ x. start + x.1 ≤ length bytes.now)) }
{
    let mut text = Items::new(alloc);
    match read_text(&mut text, bytes, start)? {
        Some(len) => Ok(Some((text, len))),
        None => Ok(None),
    }
}

/// The bytes from one place to another.
#[tactic(auto, using(crate::proofs::Numbers::cut))]
pub fn slice(bytes: &[u8], at: usize, end: usize) -> &[u8]
    requires some { at < end }
    requires within { end ≤ length bytes.now }
    ensures { result.now ≡ take (end - at) (slice_index bytes.now at ∷ drop (at + 1) bytes.now) }
{
    &bytes[at..end]
}

/// The name at a place, and how many bytes it has behind its first.
fn name_at(bytes: &[u8], at: usize) -> (Lexeme, usize)
    requires { at < length bytes.now }
    ensures name { let bytes_from = slice_index bytes.now at ∷ drop (at + 1) bytes.now in
        result.0 ≡ named (word_kind (take (result.1 + 1) bytes_from)) }
    ensures len { result.1 ≡ name_len (drop (at + 1) bytes.now) }
    ensures within { at + 1 + result.1 ≤ length bytes.now }
{
    let end = name_end(bytes, at + 1);
    let lexeme = match word_kind(slice(bytes, at, end)) {
        None => Lexeme::Name,
        Some(kind) => Lexeme::Plain(kind),
    };
    (lexeme, end - at - 1)
}

/// The macro name at a place, and how many bytes it has behind its first. None where there is no
/// such macro.
fn macro_at(bytes: &[u8], at: usize) -> Option<(Lexeme, usize)>
    requires { at < length bytes.now }
    ensures name { result ≡ macro_at (slice_index bytes.now at) (drop (at + 1) bytes.now) }
    ensures within { IfSome result (λ x. at + 1 + x.1 ≤ length bytes.now) }
{
    let end = word_end(bytes, at + 1);
    let kind = word_kind(slice(bytes, at, end))?;
    Some((Lexeme::Plain(kind), end - at - 1))
}

/// The token at a place, and how many bytes it has behind its first. None where no token begins.
#[tactic(auto, unfolding(crate::specs::Lexical::lexeme_at))]
pub fn lexeme_at(
    alloc: Global,
    bytes: &[u8],
    at: usize,
) -> Result<Option<(Lexeme, usize)>, AllocError>
    requires { at < length bytes.now }
    ensures lexeme { IfOk result (λ found. found ≡ lexeme_at (slice_index bytes.now at) (drop (at + 1) bytes.now)) }
    ensures within { IfOk result (λ found. IfSome found (λ x. at + 1 + x.1 ≤ length bytes.now)) }
{
    let first = bytes[at];
    let next = at + 1;
    if is_digit(first) {
        let (kind, len) = number_at(bytes, next, first);
        return Ok(Some((Lexeme::Plain(kind), len)));
    }
    if is_letter(first) {
        return Ok(Some(name_at(bytes, at)));
    }
    match first {
        b'@' => Ok(macro_at(bytes, at)),
        b'"' => match text_at(alloc, bytes, next)? {
            Some((text, len)) => Ok(Some((Lexeme::Text(text), len))),
            None => Ok(None),
        },
        _ => match sign_at(bytes, next, first) {
            Some((kind, len)) => Ok(Some((Lexeme::Plain(kind), len))),
            None => Ok(None),
        },
    }
}
