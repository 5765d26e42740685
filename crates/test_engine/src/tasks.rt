//! What no contract says: that steps with enough memory succeed, and that messages may go to threads.
use crate::building::{FUTURE, MAIN, name, program};
use jd_task::{Closure, Evaluated, Frame, Job, Msg, Op, Place, Turn};
use jd_value::{Outcome, Shared, Value};
use sqlite_items::Items;
use std::alloc::Global;
use std::test::Fail;

fn went_on(alloc: Global, place: Place, answer: Outcome) -> Result<Evaluated, Fail> {
    let job = Job {
        task: MAIN,
        cell: None,
        place,
        answer,
    };
    Ok(job.evaluate(alloc)?)
}

fn number_of(turn: &Turn) -> Option<i64> {
    match turn {
        Turn::Ended(Ok(Value::Int(n))) => Some(*n),
        _ => None,
    }
}

/// The value that a call of the code gives with 5.
fn called(alloc: Global, code: Closure) -> Result<Option<i64>, Fail> {
    let mut args = Items::new(alloc);
    args.push(Value::Int(5))?;
    let place = Place::of_call(alloc, code, args)?;
    let ended = went_on(alloc, place, Ok(Value::Nothing))?;
    let number = number_of(&ended.turn);
    drop(ended);
    Ok(number)
}

/// The code that a message brings is called.
fn called_where_it_came(alloc: Global, msg: Msg) -> Result<Option<i64>, Fail> {
    match msg {
        Msg::Call { code, .. } => called(alloc, code),
        other => {
            drop(other);
            Ok(None)
        }
    }
}

/// What the code gives where it is sent and then called with 5.
fn sent(alloc: Global, code: Closure) -> Result<Option<i64>, Fail> {
    let msg = Msg::Call {
        cell: FUTURE,
        task: MAIN,
        code,
        args: Items::new(alloc),
    };
    let copy = msg.copy(alloc);
    drop(msg);
    called_where_it_came(alloc, copy?)
}

/// What the code of the operation that a task asks for gives, sent and called.
fn asked_sum(alloc: Global, turn: Turn) -> Result<Option<i64>, Fail> {
    match turn {
        Turn::Asks(op) => {
            let Op { body, args, .. } = op;
            drop(args);
            match body {
                Some(code) => sent(alloc, code),
                None => Ok(None),
            }
        }
        Turn::Ended(outcome) => {
            drop(outcome);
            Ok(None)
        }
    }
}

fn future(alloc: Global) -> Result<Value, Fail> {
    Ok(Value::Future(Shared::new(alloc, FUTURE)?))
}

fn is_future(turn: &Turn) -> bool {
    match turn {
        Turn::Ended(Ok(Value::Future(future))) => *future.get() == FUTURE,
        _ => false,
    }
}

/// Main asks for a call.
fn asks_a_call(alloc: Global) -> Result<Evaluated, Fail> {
    let program = program(alloc, "x = 4\nf = remotecall(y -> x + y, 2, 5)\n")?;
    let start = Place::of_main(alloc, &program);
    drop(program);
    went_on(alloc, start?, Ok(Value::Nothing))
}

#[test]
fn a_task_asks_a_call_and_goes_on_with_its_answer(rt: HostRuntime) -> Result<(), Fail> {
    let alloc = rt.alloc();
    let Evaluated { place, turn, .. } = asks_a_call(alloc)?;
    let sum = asked_sum(alloc, turn)?;
    let ended = went_on(alloc, place, Ok(future(alloc)?))?;
    assert!(rt; sum == Some(9));
    assert!(rt; is_future(&ended.turn));
    drop(ended);
    Ok(())
}

fn answers_x(frame: &Frame) -> bool {
    match frame {
        Frame::Answer(name) => name.get().as_bytes() == b"x".as_slice(),
        Frame::Seq(_, _)
        | Frame::Branch(_, _, _)
        | Frame::Condition(_)
        | Frame::Loop(_)
        | Frame::Each(_, _, _, _)
        | Frame::Catch(_, _) => false,
    }
}

#[test]
fn a_frame_is_copied(rt: HostRuntime) -> Result<(), Fail> {
    let frame = Frame::Answer(name(rt.alloc(), b"x")?);
    let copy = frame.copy();
    drop(frame);
    let copy = copy?;
    assert!(rt; answers_x(&copy));
    drop(copy);
    Ok(())
}
