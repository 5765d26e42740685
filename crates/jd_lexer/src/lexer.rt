//! Cuts a script into tokens.
ghost use Rattle.std.specs.Prelude.{◌≡◌, Some, None, ◌+◌, ◌≤◌, ◌<◌, ◌^◌, ◌||◌, ◌∷◌, take, drop, length, slice_index, IfOk, IfSome, IfNone, OnOk, nat_lt};
ghost use Rattle.std.specs.HashSet.{hash_set_len};
ghost use Rattle.jd_lexer.specs.Lexical.{is_line_end, joins, opened, lexeme_at, gap_at, with_gap, with_token, with_lexeme, start, scan, lexed, IsWithin};
ghost use Rattle.jd_lexer.specs.Lexing.{lexed_of, IsReadTo};
ghost use Rattle.jd_lexer.specs.Names.{texts_of, AreNoWords, known_at};

use crate::lexeme::{Lexeme, Text, is_letter, lexeme_at, line_end, name_end, slice, starts_with};
use crate::names::{known_number, number_of};
use indexmap::IndexSet;
use jd_grammar::token::{Kind, Name, Token};
use sqlite_items::Items;
use std::alloc::{AllocError, Global};

/// What was read of a script so far.
#[derive(Drop)]
pub struct Lexer<'a> {
    pub tokens: Items<Token>,
    pub texts: Items<Text>,
    /// The names without a meaning of their own, in the order in which they first occur.
    pub names: IndexSet<&'a [u8]>,
    /// How many parentheses and brackets are open.
    pub nest: usize,
    /// Whether a line that ends now goes on.
    pub joined: bool,
    /// Whether a blank, the end of a line or a comment was read last.
    pub spaced: bool,
}

fn is_line_end(kind: Kind) -> bool
    ensures { result ≡ is_line_end kind }
{
    matches!(kind, Kind::LineEnd)
}

/// Whether the line that ends behind such a token goes on.
fn joins(kind: Kind) -> bool
    ensures { result ≡ joins kind }
{
    matches!(
        kind,
        Kind::Plus
            | Kind::Minus
            | Kind::Star
            | Kind::Divide
            | Kind::Percent
            | Kind::And
            | Kind::Or
            | Kind::Xor
            | Kind::Equal
            | Kind::Unequal
            | Kind::Less
            | Kind::LessEqual
            | Kind::Greater
            | Kind::GreaterEqual
            | Kind::AndAlso
            | Kind::OrElse
            | Kind::Comma
            | Kind::Arrow
            | Kind::Question
            | Kind::Colon
            | Kind::Assign
    )
}

/// How many parentheses and brackets are open behind a token.
fn opened(kind: Kind, nest: usize) -> usize
    requires { nest + 1 < 2 ^ 64 }
    ensures { result ≡ opened kind nest }
{
    match kind {
        Kind::OpenParen | Kind::OpenBracket => nest + 1,
        Kind::CloseParen | Kind::CloseBracket => nest.saturating_sub(1),
        _ => nest,
    }
}

/// How many bytes the blank or the comment at a place has behind its first. None where there is
/// neither.
fn gap_at(bytes: &[u8], at: usize, blank_end: bool) -> Option<usize>
    requires { at < length bytes.now }
    ensures gap { result ≡ gap_at blank_end (slice_index bytes.now at) (drop (at + 1) bytes.now) }
    ensures within { IfSome result (λ n. at + 1 + n ≤ length bytes.now) }
{
    match bytes[at] {
        b' ' | b'\t' => Some(0),
        b'#' => Some(line_end(bytes, at + 1) - at - 1),
        b'\r' if starts_with(bytes, at + 1, b'\n') => Some(0),
        b'\n' if blank_end => Some(0),
        _ => None,
    }
}

impl<'a> Lexer<'a> {
    fn new(alloc: Global) -> Lexer<'a>
        ensures { lexed_of result ≡ start }
    {
        Lexer {
            tokens: Items::new(alloc),
            texts: Items::new(alloc),
            names: IndexSet::new(alloc),
            nest: 0,
            joined: false,
            spaced: false,
        }
    }

    /// Whether the end of a line is a blank here.
    fn is_end_blank(&self) -> bool
        ensures { result ≡ (nat_lt 0 self.now.nest || self.now.joined) }
    {
        self.nest > 0 || self.joined
    }

    fn add_gap(&mut self)
        ensures { lexed_of self.new ≡ with_gap (lexed_of self.old) }
    {
        self.spaced = true;
    }

    fn add_token(&mut self, kind: Kind, start: usize, end: usize) -> Result<(), AllocError>
        requires starts { start < 2 ^ 32 }
        requires ends { end < 2 ^ 32 }
        requires nest { self.old.nest + 1 < 2 ^ 64 }
        ensures { OnOk result (lexed_of self.new ≡ with_token (lexed_of self.old) kind start end) }
    {
        let spaced = self.spaced;
        self.tokens.push(Token {
            kind,
            start: start as u32,
            end: end as u32,
            spaced,
        })?;
        self.nest = opened(kind, self.nest);
        self.joined = joins(kind);
        self.spaced = is_line_end(kind);
        Ok(())
    }

    /// Adds the text that stands at a place as these bytes.
    fn add_text(&mut self, text: Text, at: usize, bytes: &[u8]) -> Result<(), AllocError>
        requires counts { IsWithin (lexed_of self.old) at }
        requires within { at + length bytes.now < 2 ^ 32 }
        ensures { OnOk result (lexed_of self.new ≡ with_lexeme (lexed_of self.old) (Lexeme.Text text) at bytes.now) }
    {
        let number = self.texts.len() as u32;
        self.texts.push(text)?;
        self.add_token(Kind::Text(number), at, at + bytes.len())
    }

    /// Adds the name that stands at a place as these bytes, and is no word.
    fn add_name(&mut self, at: usize, bytes: &'a [u8]) -> Result<(), AllocError>
        requires counts { IsWithin (lexed_of self.old) at }
        requires within { at + length bytes.now < 2 ^ 32 }
        ensures { OnOk result (lexed_of self.new ≡ with_lexeme (lexed_of self.old) Lexeme.Name at bytes.now) }
    {
        let number = number_of(&mut self.names, bytes)? as u32;
        self.add_token(Kind::Name(Name::Other(number)), at, at + bytes.len())
    }

    /// Adds the token that stands at a place as these bytes.
    fn add(&mut self, lexeme: Lexeme, at: usize, bytes: &'a [u8]) -> Result<(), AllocError>
        requires counts { IsWithin (lexed_of self.old) at }
        requires within { at + length bytes.now < 2 ^ 32 }
        ensures { OnOk result (lexed_of self.new ≡ with_lexeme (lexed_of self.old) lexeme at bytes.now) }
    {
        match lexeme {
            Lexeme::Plain(kind) => self.add_token(kind, at, at + bytes.len()),
            Lexeme::Text(text) => self.add_text(text, at, bytes),
            Lexeme::Name => self.add_name(at, bytes),
        }
    }

    /// Adds the name at a place where it was read before, and says how many bytes it has behind its first. None exactly
    /// where no such name stands. A name that was read before is no word, so that it need not be compared with the words.
    fn add_known(&mut self, bytes: &'a [u8], at: usize) -> Result<Option<usize>, AllocError>
        requires place { at < length bytes.now }
        requires short { length bytes.now < 2 ^ 32 }
        requires counts { IsWithin (lexed_of self.old) at }
        requires names { AreNoWords (lexed_of self.old).names }
        ensures known { IfOk result (λ found. found ≡ known_at (lexed_of self.old).names (slice_index bytes.now at) (drop (at + 1) bytes.now)) }
        ensures lexeme { IfOk result (λ found. IfSome found (λ more.
            Some (Lexeme.Name, more) ≡ lexeme_at (slice_index bytes.now at) (drop (at + 1) bytes.now))) }
        ensures within { IfOk result (λ found. IfSome found (λ more. at + 1 + more ≤ length bytes.now)) }
        ensures added { IfOk result (λ found. IfSome found (λ more.
            lexed_of self.new ≡ with_lexeme (lexed_of self.old) Lexeme.Name at (take (more + 1) (slice_index bytes.now at ∷ drop (at + 1) bytes.now)))) }
        ensures unchanged { IfOk result (λ found. IfNone found (lexed_of self.new ≡ lexed_of self.old)) }
    {
        if !is_letter(bytes[at]) {
            return Ok(None);
        }
        let end = name_end(bytes, at + 1);
        match known_number(&self.names, slice(bytes, at, end)) {
            Some(number) => {
                self.add_token(Kind::Name(Name::Other(number as u32)), at, end)?;
                Ok(Some(end - at - 1))
            }
            None => Ok(None),
        }
    }

    /// Reads the token at a place where no blank and no comment stands, and gives the place behind it. None where no token
    /// begins.
    fn read_token(
        &mut self,
        alloc: Global,
        bytes: &'a [u8],
        at: usize,
    ) -> Result<Option<usize>, AllocError>
        requires place { at < length bytes.now }
        requires short { length bytes.now < 2 ^ 32 }
        requires counts { IsWithin (lexed_of self.old) at }
        requires names { AreNoWords (lexed_of self.old).names }
        requires gap { let s = lexed_of self.old in
            None ≡ gap_at (nat_lt 0 s.nest || s.joined) (slice_index bytes.now at) (drop (at + 1) bytes.now) }
        ensures read { IfOk result (λ found. IfSome found (λ end. IsReadTo bytes.now at end (lexed_of self.old) (lexed_of self.new))) }
        ensures stopped { IfOk result (λ found. IfNone found ((lexed_of self.new, Some at) ≡ scan at 0 (lexed_of self.old) (drop at bytes.now))) }
    {
        match lexeme_at(alloc, bytes, at)? {
            Some((lexeme, more)) => {
                let end = at + 1 + more;
                self.add(lexeme, at, slice(bytes, at, end))?;
                Ok(Some(end))
            }
            None => Ok(None),
        }
    }

    /// Reads the blank, the comment or the token at a place, and gives the place behind it. None where none of them begins.
    fn read_at(
        &mut self,
        alloc: Global,
        bytes: &'a [u8],
        at: usize,
    ) -> Result<Option<usize>, AllocError>
        requires place { at < length bytes.now }
        requires short { length bytes.now < 2 ^ 32 }
        requires counts { IsWithin (lexed_of self.old) at }
        requires names { AreNoWords (lexed_of self.old).names }
        ensures read { IfOk result (λ found. IfSome found (λ end. IsReadTo bytes.now at end (lexed_of self.old) (lexed_of self.new))) }
        ensures stopped { IfOk result (λ found. IfNone found ((lexed_of self.new, Some at) ≡ scan at 0 (lexed_of self.old) (drop at bytes.now))) }
    {
        if let Some(more) = gap_at(bytes, at, self.is_end_blank()) {
            self.add_gap();
            return Ok(Some(at + 1 + more));
        }
        if let Some(more) = self.add_known(bytes, at)? {
            return Ok(Some(at + 1 + more));
        }
        self.read_token(alloc, bytes, at)
    }

    /// Reads a script, and gives the first place where no token begins, if there is one.
    fn read_all(&mut self, alloc: Global, bytes: &'a [u8]) -> Result<Option<usize>, AllocError>
        requires short { length bytes.now < 2 ^ 32 }
        requires unread { lexed_of self.old ≡ start }
        ensures { IfOk result (λ stop. (lexed_of self.new, stop) ≡ lexed bytes.now) }
    {
        let mut at = 0;
        while at < bytes.len() {
            match self.read_at(alloc, bytes, at)? {
                Some(end) => at = end,
                None => return Ok(Some(at)),
            }
        }
        Ok(None)
    }
}

/// What is read of a script, and the first place where no token begins, if there is one. It fails only for want of
/// memory.
pub fn lex<'a>(alloc: Global, bytes: &'a [u8]) -> Result<(Lexer<'a>, Option<usize>), AllocError>
    requires { length bytes.now < 2 ^ 32 }
    ensures read { IfOk result (λ read. (lexed_of read.0, read.1) ≡ lexed bytes.now) }
{
    let mut lexer = Lexer::new(alloc);
    let stop = lexer.read_all(alloc, bytes)?;
    Ok((lexer, stop))
}
