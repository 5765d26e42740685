//! The printed form of each kind of value and of each fault.
use crate::building::{exception, list, name, text_of, tuple};
use jd_value::{Array, Dims, Fault, RefId, Shared, Span, Txt, Value, print_fault, print_value};
use sqlite_items::Items;
use std::alloc::Global;
use std::test::Fail;

/// Adds the printed form of the value and the end of the line.
fn line(value: Value, out: &mut Txt) -> Result<(), Fail> {
    let printed = print_value(&value, out);
    drop(value);
    printed?;
    out.push_byte(b'\n')?;
    Ok(())
}

fn print_plain(alloc: Global, out: &mut Txt) -> Result<(), Fail> {
    line(Value::Int(i64::MIN), out)?;
    line(Value::True, out)?;
    line(Value::False, out)?;
    line(Value::Nothing, out)?;
    line(text_of(alloc, b"say \"$\"")?, out)
}

fn print_shared(alloc: Global, out: &mut Txt) -> Result<(), Fail> {
    line(Value::Range(Shared::new(alloc, Span::between(3, 1))?), out)?;
    let reference = RefId {
        maker: 1,
        number: 7,
        owner: 2,
    };
    line(Value::Future(Shared::new(alloc, reference)?), out)?;
    line(exception(alloc, Fault::Exited(3))?, out)
}

/// `[1, -2]` or `(1, -2)`
fn numbers(alloc: Global) -> Result<Items<Value>, Fail> {
    let mut items = Items::new(alloc);
    items.push(Value::Int(1))?;
    items.push(Value::Int(-2))?;
    Ok(items)
}

/// One item, a text with all bytes that have a `\` before them in quotes.
fn escapes(alloc: Global) -> Result<Items<Value>, Fail> {
    let mut items = Items::new(alloc);
    items.push(text_of(alloc, b"\"\\\n\t$'")?)?;
    Ok(items)
}

fn print_lists(alloc: Global, out: &mut Txt) -> Result<(), Fail> {
    line(list(alloc, Items::new(alloc))?, out)?;
    line(list(alloc, numbers(alloc)?)?, out)?;
    line(list(alloc, escapes(alloc)?)?, out)
}

fn print_tuples(alloc: Global, out: &mut Txt) -> Result<(), Fail> {
    line(tuple(alloc, Items::new(alloc))?, out)?;
    line(tuple(alloc, numbers(alloc)?)?, out)?;
    line(tuple(alloc, escapes(alloc)?)?, out)
}

fn grid(alloc: Global, array: Array) -> Result<Value, Fail> {
    Ok(Value::Grid(Shared::new(alloc, array)?))
}

fn two_by_two(alloc: Global) -> Result<Array, Fail> {
    let dims = Dims::new(&[2, 2]).ok_or("dims")?;
    let cells = Vec::from_slice(alloc, &[1, 3, 2, 4])?;
    if cells.len() != 4 {
        return Err(Fail::from("cells"));
    }
    Ok(Array::new(alloc, dims, cells)?)
}

fn two_slabs(alloc: Global) -> Result<Array, Fail> {
    let dims = Dims::new(&[1, 2, 2]).ok_or("dims")?;
    let cells = Vec::from_slice(alloc, &[1, 2, 3, 4])?;
    if cells.len() != 4 {
        return Err(Fail::from("cells"));
    }
    Ok(Array::new(alloc, dims, cells)?)
}

fn no_rows(alloc: Global) -> Result<Array, Fail> {
    let dims = Dims::new(&[0, 3]).ok_or("dims")?;
    Ok(Array::new(alloc, dims, Vec::new(alloc))?)
}

fn print_grids(alloc: Global, out: &mut Txt) -> Result<(), Fail> {
    line(grid(alloc, two_by_two(alloc)?)?, out)?;
    line(grid(alloc, two_slabs(alloc)?)?, out)?;
    line(grid(alloc, no_rows(alloc)?)?, out)
}

fn print_values(alloc: Global) -> Result<Txt, Fail> {
    let mut out = Txt::new(alloc);
    print_plain(alloc, &mut out)?;
    print_shared(alloc, &mut out)?;
    print_lists(alloc, &mut out)?;
    print_tuples(alloc, &mut out)?;
    print_grids(alloc, &mut out)?;
    Ok(out)
}

#[test]
fn each_kind_of_value_is_printed(rt: HostRuntime) -> Result<(), Fail> {
    let out = print_values(rt.alloc())?;
    let expected = b"-9223372036854775808\n\
        true\n\
        false\n\
        nothing\n\
        say \"$\"\n\
        3:2\n\
        Future(2)\n\
        ProcessExitedException(3)\n\
        Any[]\n\
        [1, -2]\n\
        Any[\"\\\"\\\\\\n\\t\\$'\"]\n\
        ()\n\
        (1, -2)\n\
        (\"\\\"\\\\\\n\\t\\$'\",)\n\
        [1 2; 3 4]\n\
        [1 2;;; 3 4]\n\
        Array(0, 3)\n"
        .as_slice();
    assert!(rt; out.as_bytes() == expected);
    drop(out);
    Ok(())
}

/// Adds the printed form of the fault and the end of the line.
fn fault_line(fault: Fault, out: &mut Txt) -> Result<(), Fail> {
    let printed = print_fault(&fault, out);
    drop(fault);
    printed?;
    out.push_byte(b'\n')?;
    Ok(())
}

fn print_plain_faults(out: &mut Txt) -> Result<(), Fail> {
    fault_line(Fault::Divide, out)?;
    fault_line(Fault::Bounds, out)?;
    fault_line(Fault::BadType, out)?;
    fault_line(Fault::Argument, out)?;
    fault_line(Fault::Invalid, out)?;
    fault_line(Fault::Budget, out)?;
    fault_line(Fault::Deep, out)
}

/// A fault that came through two processes.
fn nested(alloc: Global) -> Result<Fault, Fail> {
    let innermost = Shared::new(alloc, Fault::Undef(name(alloc, b"x")?))?;
    let inner = Shared::new(alloc, Fault::Remote(3, innermost))?;
    Ok(Fault::Remote(2, inner))
}

fn print_faults(alloc: Global) -> Result<Txt, Fail> {
    let mut out = Txt::new(alloc);
    print_plain_faults(&mut out)?;
    fault_line(Fault::Error(name(alloc, b"a \"b\"")?), &mut out)?;
    fault_line(Fault::Exited(2), &mut out)?;
    fault_line(nested(alloc)?, &mut out)?;
    Ok(out)
}

#[test]
fn each_fault_is_printed(rt: HostRuntime) -> Result<(), Fail> {
    let out = print_faults(rt.alloc())?;
    let expected = b"DivideError()\n\
        BoundsError()\n\
        TypeError()\n\
        ArgumentError()\n\
        InvalidStateException()\n\
        BudgetError()\n\
        StackOverflowError()\n\
        ErrorException(\"a \\\"b\\\"\")\n\
        ProcessExitedException(2)\n\
        RemoteException(2, RemoteException(3, UndefVarError(:x)))\n"
        .as_slice();
    assert!(rt; out.as_bytes() == expected);
    drop(out);
    Ok(())
}
