//! What no contract says: that calls with enough memory succeed, and how large a value is.
use crate::building::{exception, list, name, text_of, tuple};
use jd_value::{
    Ask, Block, Body, Fault, Operation, RefId, Shared, Txt, Value, copy_outcome, depth,
    print_value, push_references, words,
};
use sqlite_items::Items;
use std::alloc::Global;
use std::mem::size_of;
use std::test::Fail;

#[test]
fn a_value_has_at_most_16_bytes(rt: HostRuntime) -> Result<(), Fail> {
    assert!(rt; size_of::<Value>() <= 16);
    Ok(())
}

/// A future that process 2 stores.
fn future(alloc: Global, number: u64) -> Result<Value, Fail> {
    let reference = RefId {
        maker: 1,
        number,
        owner: 2,
    };
    Ok(Value::Future(Shared::new(alloc, reference)?))
}

/// A fault with a text of 9 bytes that came through a process.
fn remote(alloc: Global) -> Result<Fault, Fail> {
    let inner = Fault::Error(name(alloc, b"no answer")?);
    Ok(Fault::Remote(2, Shared::new(alloc, inner)?))
}

/// `["twelve bytes", Future, nothing]`
fn inner_list(alloc: Global) -> Result<Value, Fail> {
    let mut items = Items::new(alloc);
    items.push(text_of(alloc, b"twelve bytes")?)?;
    items.push(future(alloc, 8)?)?;
    items.push(Value::Nothing)?;
    list(alloc, items)
}

/// A tuple of a future, a list and an exception.
fn nested(alloc: Global) -> Result<Value, Fail> {
    let mut items = Items::new(alloc);
    items.push(future(alloc, 7)?)?;
    items.push(inner_list(alloc)?)?;
    items.push(exception(alloc, remote(alloc)?)?)?;
    tuple(alloc, items)
}

/// A copy of the value, which is then let go.
fn moved(value: Value) -> Result<Value, Fail> {
    let copy = value.copy();
    drop(value);
    Ok(copy?)
}

/// The numbers of the references in the value.
fn numbers(alloc: Global, value: &Value) -> Result<(u64, u64, usize), Fail> {
    let mut all = Items::new(alloc);
    push_references(value, &mut all)?;
    match all.as_slice() {
        [first, .., last] => Ok((first.number, last.number, all.len())),
        _ => Err(Fail::from("references")),
    }
}

#[test]
fn the_size_and_the_references_of_a_nested_value(rt: HostRuntime) -> Result<(), Fail> {
    let value = moved(nested(rt.alloc())?)?;
    let size = (words(&value), depth(&value));
    let references = numbers(rt.alloc(), &value);
    drop(value);
    assert!(rt; size == (13, 4));
    assert!(rt; references? == (7, 8, 2));
    Ok(())
}

/// How the copy of a fault is printed, as the value that caught it.
fn printed_copy(alloc: Global, fault: Fault) -> Result<Txt, Fail> {
    let outcome = Err(fault);
    let copy = copy_outcome(&outcome);
    drop(outcome);
    let mut out = Txt::from_bytes(alloc, b"> ")?;
    if let Err(fault) = copy? {
        let value = exception(alloc, fault)?;
        let printed = print_value(&value, &mut out);
        drop(value);
        printed?;
    }
    Ok(out)
}

#[test]
fn an_outcome_and_a_text_are_copied(rt: HostRuntime) -> Result<(), Fail> {
    let alloc = rt.alloc();
    let text = printed_copy(alloc, Fault::Remote(2, Shared::new(alloc, Fault::Deep)?))?;
    let copy = text.copy();
    drop(text);
    let copy = copy?;
    let expected = b"> RemoteException(2, StackOverflowError())".as_slice();
    assert!(rt; copy.as_bytes() == expected);
    drop(copy);
    Ok(())
}

fn empty_body(alloc: Global) -> Result<Body, Fail> {
    let parameters = Shared::new(alloc, Items::new(alloc))?;
    let stmts = Items::new(alloc);
    let block = Shared::new(alloc, Block { stmts })?;
    Ok(Body {
        number: 1,
        parameters,
        block,
    })
}

#[test]
fn a_body_is_shared(rt: HostRuntime) -> Result<(), Fail> {
    let body = empty_body(rt.alloc())?;
    let share = body.share();
    drop(body);
    let share = share?;
    assert!(rt; share.number == 1);
    drop(share);
    Ok(())
}

#[test]
fn operations_have_numbers_and_requests_are_compared(rt: HostRuntime) -> Result<(), Fail> {
    assert!(rt; Operation::Print.number() == 14);
    let ask = Ask {
        process: 1,
        number: 1,
    };
    assert!(rt; ask == ask);
    Ok(())
}
