//! From a file to a program.
ghost use Rattle.std.specs.Prelude.{◌≡◌, ◌≤◌, ◌+◌, ℕ, List, Some, Err, IfErr, OnOk, length};
ghost use Rattle.jd_source.specs.Counts.{Rose};
ghost use Rattle.jd_source.specs.Content.{content_of, AsksAtMost, TakesAtMost};
ghost use Rattle.jd_syntax.specs.Answers.{plain_script};
ghost use Rattle.jd_engine.specs.Loading.{Loads, IsLoaded, IsLoadEnding, LowersTo};

use crate::status::Ending;
use jd_lower::{LowerFault, lower};
use jd_source::{Opener, ReadFault, read_up_to};
use jd_syntax::{MAX_SCRIPT, ParseFault, ParseKind, Script, parse};
use jd_value::Program;
use std::alloc::Global;

// The program of a script that can be run.
fn lowered(alloc: Global, script: &Script) -> Result<Program, Ending>
    ensures { LowersTo (plain_script script.now) result }
{
    match lower(alloc, script) {
        Ok(program) => Ok(program),
        Err(LowerFault::NotBuilt) => Err(Ending::ScriptRefused {
            line: 0,
            kind: ParseKind::Form,
        }),
        Err(LowerFault::OutOfMemory) => Err(Ending::OutOfMemory),
    }
}

fn parsed(alloc: Global, bytes: &[u8]) -> Result<Program, Ending>
    ensures loads { Loads bytes.now result }
    ensures fails { IfErr result IsLoadEnding }
    ensures short { OnOk result (length bytes.now ≤ MAX_SCRIPT) }
    ensures no_fault { result ≡ Err Ending.ReadFault → ⊥ }
{
    match parse(alloc, bytes) {
        Ok(script) => lowered(alloc, &script),
        Err(ParseFault::Refused { line, kind }) => Err(Ending::ScriptRefused { line, kind }),
        Err(ParseFault::OutOfMemory) => Err(Ending::OutOfMemory),
    }
}

/// The program in the file of a name, which is asked for once. At most one byte more than the longest script is read.
pub fn load<S: Opener>(alloc: Global, name: &str, source: &mut S) -> Result<Program, Ending>
    ensures loads { (kept : List (List ℕ × List ℕ)) (content : List ℕ) → S.files source.old ≡ Some kept → content_of kept name.now ≡ Some content → Loads content result }
    ensures fails { IfErr result IsLoadEnding }
    ensures cause { result ≡ Err Ending.ReadFault → Rose (S.faults source.old) (S.faults source.new) }
    ensures later { S.faults source.old ≤ S.faults source.new }
    ensures whole { OnOk result (Rose (S.ends source.old) (S.ends source.new)) }
    ensures taken { (kept : List (List ℕ × List ℕ)) (content : List ℕ) → S.files source.old ≡ Some kept → content_of kept name.now ≡ Some content → IsLoaded result → TakesAtMost (MAX_SCRIPT + 1) (Some content) (S.left source.new) }
    ensures files { S.files source.new ≡ S.files source.old }
    ensures asked { AsksAtMost (S.asked source.old) (S.asked source.new) (Some name.now) }
{
    match source.begin(name) {
        Ok(()) => {}
        Err(_) => return Err(Ending::ReadFault),
    }
    match read_up_to(alloc, source, MAX_SCRIPT + 1) {
        Ok(bytes) => parsed(alloc, bytes.as_slice()),
        Err(ReadFault::Failed) => Err(Ending::ReadFault),
        Err(ReadFault::OutOfMemory) => Err(Ending::OutOfMemory),
    }
}
