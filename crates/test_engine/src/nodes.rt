//! What no contract says: that steps with enough memory succeed, and in what order things come.
use crate::building::{ASKED, CALLED, FETCHED_SEVEN, MAIN, program};
use jd_model::Effect;
use jd_node::Node;
use jd_value::Value;
use std::alloc::Global;
use std::test::Fail;

/// All that the first process has for the second arrives there.
fn pass(from: &mut Node, to: &mut Node) -> Result<(), Fail> {
    for _ in 0..2 {
        if let Some(msg) = from.emit(to.id()) {
            to.deliver(from.id(), msg)?;
        }
    }
    Ok(())
}

/// Main calls, and the task starts on the worker.
fn calls(main: &mut Node, worker: &mut Node) -> Result<bool, Fail> {
    let went = main.ready() && main.go_on()?;
    let ran = main.effects() == [Effect::Ran(MAIN)].as_slice();
    let mail = main.has_mail(2) && main.first_mail() == Some(2);
    pass(main, worker)?;
    let started = worker.effects() == [Effect::Started(CALLED)].as_slice();
    Ok(went && ran && mail && started)
}

/// Main asks for the outcome, which isn't there yet.
fn asks(main: &mut Node, worker: &mut Node) -> Result<bool, Fail> {
    let went = main.go_on()? && !main.ready();
    pass(main, worker)?;
    Ok(went && worker.effects().is_empty())
}

/// The task ends, and main gets the outcome.
fn ends(alloc: Global, main: &mut Node, worker: &mut Node) -> Result<bool, Fail> {
    let done = match worker.run() {
        None => return Ok(false),
        Some(job) => job.evaluate(alloc)?,
    };
    worker.finish(done)?;
    let answered = worker.effects() == [Effect::Ran(CALLED), Effect::Took(ASKED)].as_slice();
    pass(worker, main)?;
    Ok(answered && main.effects() == [Effect::Returned(MAIN)].as_slice())
}

/// Main prints the outcome and ends.
fn prints(main: &mut Node) -> Result<bool, Fail> {
    let went = main.go_on()?;
    let line = matches!(main.main_line(), Some([Value::Int(7)]));
    main.main_answer(Ok(Value::Nothing))?;
    let ended = main.main_end().is_none() && main.go_on()?;
    let end = matches!(main.main_end(), Some(Ok(Value::Nothing)));
    Ok(went && line && ended && end)
}

/// The node of process 1, before anything has happened.
fn main_node(alloc: Global) -> Result<Node, Fail> {
    let program = program(alloc, FETCHED_SEVEN)?;
    let main = Node::with_main(alloc, &program, 1);
    drop(program);
    Ok(main?)
}

/// How many of the steps went as they should: the call, the request, its answer, and the line.
fn steps(alloc: Global, main: &mut Node, worker: &mut Node) -> Result<u32, Fail> {
    if !calls(main, worker)? {
        return Ok(0);
    }
    if !asks(main, worker)? {
        return Ok(1);
    }
    if !ends(alloc, main, worker)? {
        return Ok(2);
    }
    if !prints(main)? {
        return Ok(3);
    }
    Ok(4)
}

#[test]
fn calls_fetches_and_prints(rt: HostRuntime) -> Result<(), Fail> {
    let alloc = rt.alloc();
    let mut main = main_node(alloc)?;
    let mut worker = Node::new(alloc, 2, 1);
    let steps = steps(alloc, &mut main, &mut worker);
    drop(worker);
    drop(main);
    let steps = steps?;
    assert!(rt; steps == 4, "{steps}");
    Ok(())
}
