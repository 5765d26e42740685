//! The texts of names.
ghost use Rattle.std.specs.Prelude.{◌≡◌, IfOk, option_map, slice_get};
ghost use Rattle.jd_grammar.specs.declared.token.Kind.TheVariants as kind;
ghost use Rattle.jd_lower.specs.Names as names_spec;
ghost use Rattle.jd_lower.specs.Names.{word_text, name_text, name_in};
ghost use Rattle.jd_lower.specs.Steps.{Lowers};

use crate::fault::LowerFault;
use jd_grammar::token::{Kind, Name, Word};
use jd_lexer::Text;
use jd_value::{OutOfMemory, Shared, Txt};
use sqlite_items::{Items, at};
use std::alloc::Global;

#[tactic(auto, unfolding(crate::specs::Names::word_text))]
fn word_text(word: Word) -> &'static [u8]
    ensures { result.now ≡ word_text word }
{
    match word {
        Word::Any => b"Any",
        Word::Channel => b"Channel",
        Word::Distributed => b"Distributed",
        Word::DistributedArrays => b"DistributedArrays",
        Word::Div => b"div",
        Word::Finalize => b"finalize",
        Word::Int => b"Int",
        Word::Max => b"max",
        Word::Min => b"min",
        Word::Mod => b"mod",
        Word::Println => b"println",
        Word::Push => b"push!",
        Word::Rem => b"rem",
        Word::RemoteChannel => b"RemoteChannel",
        Word::Typemax => b"typemax",
        Word::Typemin => b"typemin",
        Word::Xor => b"xor",
    }
}

/// A text with many owners.
fn shared_text(alloc: Global, bytes: &[u8]) -> Result<Shared<Txt>, OutOfMemory>
    ensures { IfOk result (λ text. text ≡ bytes.now) }
{
    Shared::new(alloc, Txt::from_bytes(alloc, bytes)?)
}

/// Each text with many owners, so that its uses share it.
pub fn shared_texts(alloc: Global, texts: &[Text]) -> Result<Items<Shared<Txt>>, OutOfMemory>
    ensures { IfOk result (λ shared. shared ≡ texts.now) }
{
    let mut shared = Items::new(alloc);
    for text in texts {
        shared.push(shared_text(alloc, text.as_slice())?)?;
    }
    Ok(shared)
}

/// The text of a number, empty where there is none.
pub fn shared_at(alloc: Global, texts: &[Shared<Txt>], n: usize) -> Result<Shared<Txt>, OutOfMemory>
    ensures { IfOk result (λ text. text ≡ names_spec.text (slice_get texts.now n)) }
{
    match at(texts, n) {
        Some(text) => text.share(),
        None => shared_text(alloc, &[]),
    }
}

/// How a name is spelled.
pub fn name_text(names: &[Shared<Txt>], name: Name) -> &[u8]
    ensures { result.now ≡ name_text names.now name }
{
    match name {
        Name::Word(word) => word_text(word),
        Name::Other(n) => match at(names, n as usize) {
            Some(name) => name.get().as_bytes(),
            None => &[],
        },
    }
}

/// The name of a variable.
pub fn name_of_variable(
    alloc: Global,
    names: &[Shared<Txt>],
    name: Name,
) -> Result<Shared<Txt>, OutOfMemory>
    ensures { IfOk result (λ text. text ≡ name_text names.now name) }
{
    if let Name::Other(n) = name
        && let Some(name) = at(names, n as usize)
    {
        return name.share();
    }
    shared_text(alloc, name_text(names, name))
}

/// The name of a variable, where the token is a name.
pub fn name_in(alloc: Global, names: &[Shared<Txt>], kind: Kind) -> Result<Shared<Txt>, LowerFault>
    ensures { Lowers (name_in names.now kind) result }
{
    match kind {
        Kind::Name(name) => Ok(name_of_variable(alloc, names, name)?),
        _ => Err(LowerFault::NotBuilt),
    }
}

#[tactic(auto, unfolding(crate::specs::Names::fetch_text))]
pub fn is_fetch(names: &[Shared<Txt>], kind: Kind) -> bool
    ensures { result ≡ names_spec.is_fetch names.now kind }
{
    match kind {
        Kind::Name(name) => name_text(names, name) == b"fetch".as_slice(),
        _ => false,
    }
}

#[tactic(auto, unfolding(crate::specs::Names::remote_call_text))]
pub fn is_remote_call(names: &[Shared<Txt>], kind: Kind) -> bool
    ensures { result ≡ names_spec.is_remote_call names.now kind }
{
    match kind {
        Kind::Name(name) => name_text(names, name) == b"remotecall".as_slice(),
        _ => false,
    }
}
