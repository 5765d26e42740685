//! Reads the bytes of a script.
ghost use Rattle.std.specs.Prelude.{◌≡◌, ◌≤◌, ℕ, List, length, IfOk, IfErr};
ghost use Rattle.jd_script.specs.PlainScript.{plain_block};
ghost use Rattle.jd_lexer.specs.Names.{texts_of};
ghost use Rattle.jd_lexer.specs.Lexical.{lexed};
ghost use Rattle.jd_lexer.specs.Lexing.{lexed_of};
ghost use Rattle.jd_syntax.specs.declared.fault.ParseKind as kinds;
ghost use Rattle.jd_syntax.specs.Spelling as spelling;
ghost use Rattle.jd_syntax.specs.Spelling.{max_script, IsText, Spells, IsCut, script_with};
ghost use Rattle.jd_syntax.specs.Refusal.{place_of, IsRefused, line_at};
ghost use Rattle.jd_syntax.specs.Answers.{plain_script, kind_of, refused_at, Reads, ReadsTokens, Parses, Refuses, Tells};

use crate::fault::{ParseFault, ParseKind};
use crate::lines::line_behind;
use crate::script::Script;
use jd_grammar::token::Token;
use jd_lexer::{Lexer, Text, lex};
use jd_reader::{Fault, Refusal};
use jd_script::tree::Block;
use sqlite_items::Items;
use std::alloc::{AllocError, Global};

/// How many bytes a script may have.
pub const MAX_SCRIPT: usize = 1_048_576;

/// Why reading stopped: the bytes are refused at a place, or memory ran out.
#[derive(Drop)]
pub enum Stop {
    Refused { kind: ParseKind, place: usize },
    OutOfMemory,
}

fn owned(alloc: Global, texts: &[&[u8]]) -> Result<Items<Text>, AllocError>
    ensures { IfOk result (λ owned. owned ≡ texts_of texts.now) }
{
    let mut owned = Items::new(alloc);
    for text in texts {
        owned.push(Items::from_slice(alloc, text)?)?;
    }
    Ok(owned)
}

/// Where the token of this number begins; behind the last one stands the end of the script.
fn place_of(tokens: &[Token], number: usize, end: usize) -> usize
    ensures { result ≡ place_of tokens.now number end }
{
    match tokens.get(number) {
        Some(token) => token.start as usize,
        None => end,
    }
}

fn kind_of(refusal: Refusal) -> ParseKind
    ensures { result ≡ kind_of refusal }
{
    match refusal {
        Refusal::Misplaced => ParseKind::Form,
        Refusal::TooDeep => ParseKind::TooDeep,
        Refusal::TooLarge => ParseKind::WideNumber,
    }
}

/// The block that the tokens are written for, or the number of the token that is refused.
fn read_tokens(alloc: Global, tokens: &[Token]) -> Result<Block, Stop>
    ensures { ReadsTokens tokens.now result }
{
    match jd_reader::read(alloc, tokens) {
        Ok(block) => Ok(block),
        Err(Fault::Refused { place, refusal }) => Err(Stop::Refused {
            kind: kind_of(refusal),
            place,
        }),
        Err(Fault::OutOfMemory) => Err(Stop::OutOfMemory),
    }
}

/// The refusal of the token of this number among those before the place where no token begins, if there is one.
fn refused(
    tokens: &[Token],
    kind: ParseKind,
    number: usize,
    stop: Option<usize>,
    end: usize,
) -> Stop
    ensures { result ≡ refused_at tokens.now kind number stop end }
{
    match stop {
        Some(place) if number == tokens.len() => Stop::Refused {
            kind: ParseKind::Token,
            place,
        },
        _ => Stop::Refused {
            kind,
            place: place_of(tokens, number, end),
        },
    }
}

/// The script of a block.
fn script_of(alloc: Global, block: Block, lexer: Lexer) -> Result<Script, AllocError>
    ensures { IfOk result (λ s. plain_script s ≡ script_with (plain_block block) (lexed_of lexer.entry)) }
{
    match owned(alloc, lexer.names.as_slice()) {
        Ok(names) => Ok(Script {
            block,
            texts: lexer.texts,
            names,
        }),
        Err(error) => {
            drop((block, lexer));
            Err(error)
        }
    }
}

/// Reads what was cut from text, and the first place where no token begins, if there is one.
fn read_cut(alloc: Global, lexer: Lexer, stop: Option<usize>, end: usize) -> Result<Script, Stop>
    ensures { (bytes : List ℕ) → IsText bytes → end ≡ length bytes → (lexed_of lexer.entry, stop) ≡ lexed bytes → Reads bytes result }
{
    let block = match read_tokens(alloc, lexer.tokens.as_slice()) {
        Ok(block) => block,
        Err(Stop::Refused { kind, place }) => {
            return Err(refused(lexer.tokens.as_slice(), kind, place, stop, end));
        }
        Err(Stop::OutOfMemory) => return Err(Stop::OutOfMemory),
    };
    match stop {
        Some(place) => {
            drop((block, lexer));
            Err(Stop::Refused {
                kind: ParseKind::Token,
                place,
            })
        }
        None => match script_of(alloc, block, lexer) {
            Ok(script) => Ok(script),
            Err(_) => Err(Stop::OutOfMemory),
        },
    }
}

fn read(alloc: Global, bytes: &[u8]) -> Result<Script, Stop>
    requires { length bytes.now ≤ max_script }
    ensures { Reads bytes.now result }
{
    match str::from_utf8(bytes) {
        Ok(_) => match lex(alloc, bytes) {
            Ok((lexer, stop)) => read_cut(alloc, lexer, stop, bytes.len()),
            Err(_) => Err(Stop::OutOfMemory),
        },
        Err(fault) => Err(Stop::Refused {
            kind: ParseKind::Bytes,
            place: fault.valid_up_to(),
        }),
    }
}

/// The script that the bytes spell, or the line of the first place up to which they are no beginning of one.
///
/// The line is 1 more than there are line feeds before the place; the end of the script may be that place. A script of
/// more than `MAX_SCRIPT` bytes is `TooLong` at line 1; else one that isn't UTF-8 is `Bytes` where that shows; else
/// the kind is the first that holds of `Token`, `WideNumber`, `TooDeep` and `Form`.
pub fn parse(alloc: Global, bytes: &[u8]) -> Result<Script, ParseFault>
    // What is read is spelled so.
    ensures found { IfOk result (λ s. Spells bytes.now (plain_script s)) }
    // What is spelled so is read, unless memory runs out.
    ensures only { (s : spelling.Script) → Spells bytes.now s → Parses result s }
    // Its tokens are cut from the bytes, each as far as its beginning says, and blanks and comments
    // stand between.
    ensures cut { IfOk result (λ s. IsCut bytes.now (plain_script s)) }
    // A refusal is that of its kind, at a place on its line.
    ensures refused { IfErr result (Refuses bytes.now) }
    // Bytes that are refused so are told so, unless memory runs out.
    ensures told { (kind : kinds.ParseKind) (place : ℕ) → IsRefused bytes.now kind place → Tells result kind (line_at bytes.now place) }
{
    if bytes.len() > MAX_SCRIPT {
        return Err(ParseFault::Refused {
            line: 1,
            kind: ParseKind::TooLong,
        });
    }
    match read(alloc, bytes) {
        Ok(script) => Ok(script),
        Err(Stop::OutOfMemory) => Err(ParseFault::OutOfMemory),
        Err(Stop::Refused { kind, place }) => {
            let line = line_behind(&bytes[..place]);
            Err(ParseFault::Refused { line, kind })
        }
    }
}
