//! Scripts, as programs.
ghost use Rattle.std.specs.Prelude.{◌≡◌, Some, map, IfOk};
ghost use Rattle.jd_script.specs.PlainScript.{plain_block, plain_line};
ghost use Rattle.jd_syntax.specs.Answers.{plain_script};
ghost use Rattle.jd_lower.specs.Steps.{Gives, Lowers, nothing_written};
ghost use Rattle.jd_lower.specs.Lowering.{lines_on, program_of, program_written, block_of, lowered};

use crate::draft::Draft;
use crate::fault::LowerFault;
use crate::lines::lower_place;
use crate::scope::{Scope, scope_of};
use jd_script::tree as syntax;
use jd_syntax::Script;
use jd_value::{Block, Body, OutOfMemory, Program, Shared, Stmt};
use sqlite_items::Items;
use std::alloc::Global;

/// Statements as the body of main.
fn program_of(alloc: Global, stmts: Items<Stmt>) -> Result<Program, OutOfMemory>
    ensures { IfOk result (λ program. program ≡ program_of stmts) }
{
    Ok(Program {
        body: Body {
            number: 0,
            parameters: Shared::new(alloc, Items::new(alloc))?,
            block: Shared::new(alloc, Block { stmts })?,
        },
    })
}

fn lower_lines(
    alloc: Global,
    scope: &Scope,
    lines: &[syntax::Line],
    draft: &mut Draft,
) -> Result<(), LowerFault>
    ensures { Gives (lines_on scope.now (Some (tt, draft.old)) (map plain_line lines.now)) result draft.new }
{
    for line in lines {
        match lower_place(alloc, scope, &line.stmt, draft) {
            Ok(()) => {}
            Err(fault) => return Err(fault),
        }
    }
    Ok(())
}

fn lower_block(
    alloc: Global,
    scope: &Scope,
    block: &syntax::Block,
    draft: &mut Draft,
) -> Result<(), LowerFault>
    ensures { Gives (block_of scope.now (plain_block block.now) draft.old) result draft.new }
{
    match lower_lines(alloc, scope, block.lines.as_slice(), draft) {
        Ok(()) => lower_place(alloc, scope, &block.last, draft),
        Err(fault) => Err(fault),
    }
}

/// The program of a block, from nothing written.
fn lower_main(alloc: Global, scope: &Scope, block: &syntax::Block) -> Result<Program, LowerFault>
    ensures { Lowers (program_written (block_of scope.now (plain_block block.now) nothing_written)) result }
{
    let mut draft = Draft::new(alloc);
    match lower_block(alloc, scope, block, &mut draft) {
        Ok(()) => Ok(program_of(alloc, draft.stmts)?),
        Err(fault) => {
            drop(draft);
            Err(fault)
        }
    }
}

/// The program of a script, in two passes over its lines.
///
/// A script that isn't built yet is `NotBuilt`: one with any line but a call of `println` with expressions and fetches,
/// an assignment of an expression, of `fetch(x)` or of `remotecall(p -> e, w, a)`, and an empty line. Expressions have no
/// effect, and call no function but builtins by their names.
pub fn lower(alloc: Global, script: &Script) -> Result<Program, LowerFault>
    // The program is that of the script, and `NotBuilt` says that it has none.
    ensures { Lowers (lowered (plain_script script.now)) result }
{
    let scope = scope_of(alloc, script)?;
    lower_main(alloc, &scope, &script.block)
}
