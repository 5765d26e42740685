//! What no contract says: that evaluation with enough memory succeeds.
use crate::building::name;
use jd_expr::{Budget, Env, Stop, Variable, eval, eval_all};
use jd_value::{Builtin, Expr, Fault, Value};
use sqlite_items::Items;
use std::alloc::Global;
use std::test::Fail;

fn two(alloc: Global, x: Expr, y: Expr) -> Result<Items<Expr>, Fail> {
    let mut both = Items::new(alloc);
    both.push(x)?;
    both.push(y)?;
    Ok(both)
}

/// `6 * 7`
fn product(alloc: Global) -> Result<Expr, Fail> {
    let factors = two(alloc, Expr::Int(6), Expr::Int(7))?;
    Ok(Expr::Apply(Builtin::Multiply, factors))
}

fn number(value: &Value) -> Option<i64> {
    match value {
        Value::Int(n) => Some(*n),
        _ => None,
    }
}

/// What came of an expression, as far as the tests ask.
#[derive(Clone, Copy, PartialEq)]
enum Came {
    Number(i64),
    Budget,
    Undef,
    Other,
}

/// `undef` is the name that is looked for in a fault.
fn what_came(outcome: &Result<Value, Stop>, undef: &[u8]) -> Came {
    match outcome {
        Ok(value) => match number(value) {
            Some(n) => Came::Number(n),
            None => Came::Other,
        },
        Err(Stop::Faulted(Fault::Budget)) => Came::Budget,
        Err(Stop::Faulted(Fault::Undef(name))) if name.get().as_bytes() == undef => Came::Undef,
        Err(_) => Came::Other,
    }
}

/// What the name or the product comes to.
fn evaluated(alloc: Global, x: Expr, env: &Env, budget: &mut Budget) -> Came {
    let outcome = eval(alloc, &x, env, budget);
    let came = what_came(&outcome, b"c");
    drop(outcome);
    drop(x);
    came
}

fn evaluated_alone(alloc: Global, x: Expr, budget: &mut Budget) -> Came {
    let env = Env::new(alloc);
    let came = evaluated(alloc, x, &env, budget);
    drop(env);
    came
}

/// How many values the expressions have.
fn count(alloc: Global, all: Items<Expr>, budget: &mut Budget) -> Option<usize> {
    let env = Env::new(alloc);
    let values = eval_all(alloc, all.as_slice(), &env, budget);
    drop(env);
    let count = match &values {
        Ok(values) => Some(values.len()),
        Err(_) => None,
    };
    drop(values);
    drop(all);
    count
}

#[test]
fn each_expression_spends_a_unit(rt: HostRuntime) -> Result<(), Fail> {
    let alloc = rt.alloc();
    let mut budget = Budget::new(3);
    assert!(rt; evaluated_alone(alloc, product(alloc)?, &mut budget) == Came::Number(42));
    assert!(rt; budget.left() == 0);
    assert!(rt; evaluated_alone(alloc, product(alloc)?, &mut budget) == Came::Budget);
    let all = two(alloc, product(alloc)?, Expr::Int(1))?;
    let mut more = Budget::new(10);
    assert!(rt; count(alloc, all, &mut more) == Some(2));
    assert!(rt; more.left() == 6);
    Ok(())
}

fn set(env: &mut Env, alloc: Global, bytes: &[u8], n: i64) -> Result<(), Fail> {
    let name = name(alloc, bytes)?;
    env.set(name.get(), Value::Int(n))?;
    Ok(())
}

/// `a = 1`, `b = 2`, `a = 3`
fn variables(alloc: Global) -> Result<Env, Fail> {
    let mut env = Env::new(alloc);
    set(&mut env, alloc, b"a", 1)?;
    set(&mut env, alloc, b"b", 2)?;
    set(&mut env, alloc, b"a", 3)?;
    Ok(env)
}

fn is_variable(env: &Env, at: usize, bytes: &[u8], n: i64) -> bool {
    match env.variable_at(at) {
        Some((name, value)) => name.as_bytes() == bytes && number(value) == Some(n),
        None => false,
    }
}

/// The number that the variable had.
fn unset(env: &mut Env, alloc: Global, bytes: &[u8]) -> Result<Option<i64>, Fail> {
    let name = name(alloc, bytes)?;
    let old = env.unset(name.get());
    drop(name);
    let n = match &old {
        Some(value) => number(value),
        None => None,
    };
    drop(old);
    Ok(n)
}

#[test]
fn variables_keep_their_places(rt: HostRuntime) -> Result<(), Fail> {
    let mut env = variables(rt.alloc())?;
    assert!(rt; env.len() == 2);
    assert!(rt; is_variable(&env, 0, b"a", 3));
    let old = unset(&mut env, rt.alloc(), b"b")?;
    let left = env.len();
    drop(env);
    assert!(rt; old == Some(2));
    assert!(rt; left == 1);
    Ok(())
}

/// What a name that has a value comes to, and one that has none.
fn named(alloc: Global, env: &Env) -> Result<(Came, Came), Fail> {
    let mut budget = Budget::new(9);
    let x = Expr::Name(name(alloc, b"b")?);
    let there = evaluated(alloc, x, env, &mut budget);
    let x = Expr::Name(name(alloc, b"c")?);
    let missing = evaluated(alloc, x, env, &mut budget);
    Ok((there, missing))
}

#[test]
fn a_name_gives_its_value_or_a_fault(rt: HostRuntime) -> Result<(), Fail> {
    let alloc = rt.alloc();
    let env = variables(alloc)?;
    let (there, missing) = named(alloc, &env)?;
    drop(env);
    assert!(rt; there == Came::Number(2));
    assert!(rt; missing == Came::Undef);
    Ok(())
}

#[test]
fn a_variable_is_copied(rt: HostRuntime) -> Result<(), Fail> {
    let variable = Variable {
        name: name(rt.alloc(), b"a")?,
        value: Value::Int(2),
    };
    let copy = variable.copy()?;
    assert!(rt; number(&copy.value) == Some(2));
    drop(copy);
    drop(variable);
    Ok(())
}
