//! Parts of scripts that know how deep they nest, up to 255.
ghost use Rattle.std.specs.Prelude.{◌≡◌, map};
ghost use Rattle.jd_grammar.specs.Script.{no_lines, fresh};
ghost use Rattle.jd_grammar.specs.ScriptDepth.{height_opening, height_before, depth_stmt, depth_inner, depth_lines};
ghost use Rattle.jd_tree.specs.Measures.{height_up_to};
ghost use Rattle.jd_script.specs.PlainScript.{plain_opening, plain_stmt, plain_block, plain_line, plain_arm, lines_from, before_from};

use crate::tree::{Arm, Block, Line, Opening, Stmt};
use sqlite_items::Items;

/// A statement.
#[derive(Drop)]
pub struct NestedStmt {
    pub stmt: Stmt,
    pub nesting: u8,
    ghost measured: { nesting ≡ height_up_to (depth_stmt (plain_stmt stmt)) },
}

/// Lines.
#[derive(Drop)]
pub struct Lines {
    pub items: Items<Line>,
    pub nesting: u8,
    ghost measured: { nesting ≡ height_up_to (depth_lines (lines_from no_lines (map plain_line items))) },
}

/// What stands before a block, and how deep its expression nests.
#[derive(Drop)]
pub struct NestedOpening {
    pub opening: Opening,
    pub nesting: u8,
    ghost measured: { nesting ≡ height_up_to (height_opening (plain_opening opening)) },
}

/// A block inside a statement, which is a construct round all its tokens where it has one.
#[derive(Drop)]
pub struct NestedBlock {
    pub block: Block,
    pub nesting: u8,
    ghost measured: { nesting ≡ height_up_to (depth_inner (plain_block block)) },
}

/// Blocks of a statement, each behind its opening.
#[derive(Drop)]
pub struct Arms {
    pub items: Items<Arm>,
    pub nesting: u8,
    ghost measured: { nesting ≡ height_up_to (height_before (before_from fresh (map plain_arm items))) },
}
