//! What no contract says: that lowering succeeds with enough memory.
use crate::building::program;
use jd_value::{Operation, Stmt, Txt};
use std::alloc::Global;
use std::test::Fail;

fn letter(stmt: &Stmt) -> u8 {
    match stmt {
        Stmt::Set(_, _) => b's',
        Stmt::Value(_) => b'v',
        Stmt::Effect(_, Operation::RemoteCall, _, _) => b'r',
        Stmt::Effect(_, Operation::Fetch, _, _) => b'f',
        Stmt::Effect(_, Operation::Print, _, _) => b'p',
        Stmt::If(_, _)
        | Stmt::While(_)
        | Stmt::For(_, _, _)
        | Stmt::Try(_, _, _)
        | Stmt::Break
        | Stmt::Continue
        | Stmt::Push(_, _) => b'n',
    }
}

fn letters(alloc: Global, stmts: &[Stmt]) -> Result<Txt, Fail> {
    let mut letters = Txt::new(alloc);
    for stmt in stmts {
        letters.push_byte(letter(stmt))?;
    }
    Ok(letters)
}

const EACH_FORM: &str =
    "x = remotecall(x -> x + 1, 2, 5)\n\nprintln(\"tea\", x + 1, fetch(x))\nx = fetch(x)\nx = x + 1\n";

#[test]
fn each_form_has_its_statements(rt: HostRuntime) -> Result<(), Fail> {
    let alloc = rt.alloc();
    let program = program(alloc, EACH_FORM)?;
    let letters = letters(alloc, program.body.block.get().stmts.as_slice());
    drop(program);
    let letters = letters?;
    assert!(rt; letters.as_bytes() == b"rfpvfs".as_slice());
    drop(letters);
    Ok(())
}
