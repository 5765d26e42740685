//! What no script shows: sessions over a fabric that tells nothing, and a program that is longer than any script.
ghost use Rattle.std.specs.Prelude.{◌≡◌, None};
ghost use Rattle.jd_node.specs.View.{node_of, id_of};
ghost use Rattle.jd_session.specs.Headline.{IsBegunWith};

use crate::building::{cluster, name, program};
use jd_model::Ending;
use jd_session::{End, Session, Step, run};
use jd_source::MemSink;
use jd_value::{Block, Body, Expr, Operation, Program, Shared, Stmt, Txt};
use jd_world::{Arrival, Fabric, ListFabric};
use sqlite_items::Items;
use std::alloc::Global;
use std::test::Fail;
use test_fabrics::SilentFabric;

fn sink(alloc: Global) -> MemSink {
    MemSink::new(alloc, Vec::new(alloc))
}

fn run_over_lists(alloc: Global, program: &Program, out: &mut MemSink) -> End {
    let start = cluster(alloc, 1);
    let mut fabric = ListFabric::new(alloc);
    let end = run(alloc, program, &start, out, &mut fabric);
    drop(fabric);
    drop(start);
    end
}

/// The square of 12 from the worker, printed twice.
const SQUARE_TWICE: &str =
    "r = remotecall(x -> x * x, 2, 12)\nprintln(fetch(r))\nprintln(fetch(r))\n";

/// Takes the next arrival. False where nothing comes, or it can't be taken.
fn takes_arrival(session: &mut Session, fabric: &mut SilentFabric) -> bool
    requires { (node_of session.old.hub).main_end ≡ None }
    ensures workers { session.new.workers ≡ session.old.workers }
    ensures process { id_of session.new.hub ≡ id_of session.old.hub }
    ensures begun { ⟦<SilentFabric as Fabric>⟧.begun fabric.new ≡ ⟦<SilentFabric as Fabric>⟧.begun fabric.old }
{
    match fabric.receive() {
        Ok(Arrival::Message { from, msg }) => session.arrived(from, msg, fabric).is_ok(),
        _ => false,
    }
}

/// How main ended, in at most a thousand steps.
fn driven(
    alloc: Global,
    session: &mut Session,
    out: &mut MemSink,
    fabric: &mut SilentFabric,
) -> Option<Ending>
    requires begun { IsBegunWith (⟦<SilentFabric as Fabric>⟧.begun fabric.old) session.old.workers }
    requires process { id_of session.old.hub ≡ 1 }
{
    'turns: for _ in 0..1000 {
        match session.step(alloc, out, fabric) {
            Ok(Step::Went) => {}
            Ok(Step::Ended(ending)) => return Some(ending),
            Ok(Step::Needs) => {
                if !takes_arrival(session, fabric) {
                    return None;
                }
            }
            Err(_) => return None,
        }
    }
    None
}

/// How main ended over a fabric that tells nothing.
fn run_silently(alloc: Global, program: &Program, out: &mut MemSink) -> Option<Ending> {
    let start = cluster(alloc, 1);
    let Ok(mut session) = Session::start(alloc, program, &start) else {
        return None;
    };
    let mut fabric = SilentFabric::new(alloc);
    match fabric.begin(&start) {
        Ok(()) => driven(alloc, &mut session, out, &mut fabric),
        Err(_) => None,
    }
}

#[test]
fn a_session_goes_on_over_a_fabric_that_tells_nothing(rt: HostRuntime) -> Result<(), Fail> {
    let alloc = rt.alloc();
    let program = program(alloc, SQUARE_TWICE)?;
    let mut out = sink(alloc);
    let end = run_silently(alloc, &program, &mut out);
    drop(program);
    assert!(rt; matches!(&end, Some(Ending::Normal)));
    drop(end);
    assert!(rt; out.bytes() == b"144\n144\n".as_slice());
    drop(out);
    Ok(())
}

/// `println(number)`
fn line(alloc: Global, number: i64, answer: Shared<Txt>) -> Result<Stmt, Fail> {
    let mut printed = Items::new(alloc);
    printed.push(Expr::Int(number))?;
    Ok(Stmt::Effect(answer, Operation::Print, None, printed))
}

/// Lines with the numbers from 1 on, one statement each.
fn numbered_lines(alloc: Global, count: i64) -> Result<Items<Stmt>, Fail> {
    let answer = name(alloc, b"%1")?;
    let mut stmts = Items::new(alloc);
    for number in 1..=count {
        stmts.push(line(alloc, number, answer.share()?)?)?;
    }
    drop(answer);
    Ok(stmts)
}

/// A script has no room for so many lines.
fn numbered_program(alloc: Global, count: i64) -> Result<Program, Fail> {
    let stmts = numbered_lines(alloc, count)?;
    let block = Shared::new(alloc, Block { stmts })?;
    let parameters = Shared::new(alloc, Items::new(alloc))?;
    Ok(Program {
        body: Body {
            number: 0,
            parameters,
            block,
        },
    })
}

#[test]
fn a_full_record_ends_the_run_between_two_lines(rt: HostRuntime) -> Result<(), Fail> {
    let alloc = rt.alloc();
    let program = numbered_program(alloc, 600_000)?;
    let mut out = sink(alloc);
    let end = run_over_lists(alloc, &program, &mut out);
    drop(program);
    assert!(rt; matches!(&end, End::Limit));
    drop(end);
    // Each line takes two marks, and the record holds 1,000,000.
    let lines = out.bytes().iter().filter(|byte| **byte == b'\n').count();
    assert!(rt; lines == 500_000);
    assert!(rt; out.bytes().ends_with(b"\n500000\n"));
    drop(out);
    Ok(())
}
