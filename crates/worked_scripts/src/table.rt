//! A table of scripts, and what `parse` makes of each.
//!
//! Each line of standard input is a script, in which `\n`, `\t` and `\r` stand for those characters, `\x` and two digits
//! for a byte, `\*` a number and `{..}` for a text that is repeated so often, and `\` before another character for that
//! character. It is written again, and below it its tree, or the line and kind of the refusal. Empty lines, and lines
//! that begin with `==`, are headings.

use crate::escape::unescaped;
use crate::statement::show_block;
use jd_source::{Opener, StdSource, read_up_to};
use jd_syntax::{MAX_SCRIPT, ParseFault, Script, parse};
use std::alloc::{AllocError, Global};
use std::io::{BufRead, BufReader};

/// A longer script is told by the number of its separators alone.
const LONGEST_SHOWN: usize = 100;

fn is_heading(line: &[u8]) -> bool {
    match line {
        [] => true,
        [first, second, ..] => *first == b'=' && *second == b'=',
        _ => false,
    }
}

fn shown(alloc: Global, source: &[u8], script: &Script) -> Result<Vec<u8>, AllocError> {
    let mut out = Vec::new(alloc);
    if source.len() <= LONGEST_SHOWN {
        show_block(&mut out, source, &script.block)?;
    } else {
        let text = format!(in alloc; "{} separators at the top", script.block.lines.len())?;
        out.extend_from_slice(text.as_bytes())?;
    }
    Ok(out)
}

/// What is made of a script, in words.
fn answer(alloc: Global, source: &[u8]) -> Result<String, AllocError> {
    match parse(alloc, source) {
        Ok(script) => {
            let tree = shown(alloc, source, &script)?;
            String::from_utf8_lossy(alloc, tree.as_slice())
        }
        Err(ParseFault::Refused { line, kind }) => format!(in alloc; "line {line}: {kind}"),
        Err(ParseFault::OutOfMemory) => format!(in alloc; "out of memory"),
    }
}

fn contents<S: Opener>(alloc: Global, source: &mut S, name: &str) -> Option<Vec<u8>> {
    match source.begin(name) {
        Ok(()) => match read_up_to(alloc, source, MAX_SCRIPT + 1) {
            Ok(bytes) => Some(bytes),
            Err(_) => None,
        },
        Err(_) => None,
    }
}

/// Parses the file of that name, and prints its tree, or how many separators stand at its top level.
pub fn parse_file(rt: &HostRuntime, name: &str) -> anyhow::Result<()> {
    let alloc = rt.alloc();
    match contents(alloc, &mut StdSource::new(rt), name) {
        Some(bytes) => println!(rt; "{}", answer(alloc, bytes.as_slice())?)?,
        None => println!(rt; "the file can't be read")?,
    }
    Ok(())
}

pub fn parse_all(rt: &HostRuntime) -> anyhow::Result<()> {
    let alloc = rt.alloc();
    for line in BufReader::new(alloc, rt.reader())?.lines(alloc) {
        let line = line?;
        println!(rt; "{line}")?;
        if is_heading(line.as_bytes()) {
            continue;
        }
        let source = unescaped(alloc, line.as_bytes())?;
        println!(rt; "    {}", answer(alloc, source.as_slice())?)?;
    }
    Ok(())
}
