//! What the builtin functions of whole numbers of 64 bits and of truth values give, and equality.
ghost use Rattle.std.specs.Prelude.{◌≡◌, ◌≢◌, pos, ◌∷◌, []};
ghost use Rattle.jd_expr.specs.Arithmetic as spec;
ghost use Rattle.jd_expr.specs.Arithmetic.{remainder_of, modulo_of};

use crate::comparing::equal;
use jd_value::{Builtin, Fault, Value};

fn remainder(a: i64, b: i64) -> i64
    requires { b ≢ pos 0 }
    ensures { result ≡ remainder_of a b }
{
    if b == -1 { 0 } else { a % b }
}

fn modulo(a: i64, b: i64) -> i64
    requires { b ≢ pos 0 }
    ensures { result ≡ modulo_of a b }
{
    let r = remainder(a, b);
    if r == 0 || (r < 0) == (b < 0) {
        r
    } else {
        r.wrapping_add(b)
    }
}

fn absolute(a: i64) -> i64
    ensures { result ≡ spec.absolute a }
{
    if a < 0 { a.wrapping_neg() } else { a }
}

fn is_even(a: i64) -> bool
    ensures { result ≡ spec.is_even a }
{
    a % 2 == 0
}

/// The truth value.
pub(crate) fn truth(holds: bool) -> Value
    ensures { result ≡ spec.truth holds }
{
    if holds { Value::True } else { Value::False }
}

fn of_number(function: Builtin, a: i64) -> Result<Value, Fault>
    ensures { result ≡ spec.of_number function a }
{
    match function {
        Builtin::Add => Ok(Value::Int(a)),
        Builtin::Negate => Ok(Value::Int(a.wrapping_neg())),
        Builtin::Complement => Ok(Value::Int(!a)),
        Builtin::Abs => Ok(Value::Int(absolute(a))),
        Builtin::IsEven => Ok(truth(is_even(a))),
        Builtin::IsOdd => Ok(truth(!is_even(a))),
        _ => Err(Fault::BadType),
    }
}

fn divided(a: i64, b: i64) -> Result<Value, Fault>
    ensures { result ≡ spec.divided a b }
{
    if b == 0 || (a == i64::MIN && b == -1) {
        return Err(Fault::Divide);
    }
    Ok(Value::Int(a / b))
}

fn remaining(a: i64, b: i64) -> Result<Value, Fault>
    ensures { result ≡ spec.remaining a b }
{
    if b == 0 {
        return Err(Fault::Divide);
    }
    Ok(Value::Int(remainder(a, b)))
}

fn reduced(a: i64, b: i64) -> Result<Value, Fault>
    ensures { result ≡ spec.reduced a b }
{
    if b == 0 {
        return Err(Fault::Divide);
    }
    Ok(Value::Int(modulo(a, b)))
}

fn of_numbers(function: Builtin, a: i64, b: i64) -> Result<Value, Fault>
    ensures { result ≡ spec.of_numbers function a b }
{
    match function {
        Builtin::Add => Ok(Value::Int(a.wrapping_add(b))),
        Builtin::Subtract => Ok(Value::Int(a.wrapping_sub(b))),
        Builtin::Multiply => Ok(Value::Int(a.wrapping_mul(b))),
        Builtin::Divide => divided(a, b),
        Builtin::Remainder => remaining(a, b),
        Builtin::Modulo => reduced(a, b),
        Builtin::And => Ok(Value::Int(a & b)),
        Builtin::Or => Ok(Value::Int(a | b)),
        Builtin::Xor => Ok(Value::Int(a ^ b)),
        Builtin::Less => Ok(truth(a < b)),
        Builtin::AtMost => Ok(truth(a <= b)),
        Builtin::Greater => Ok(truth(a > b)),
        Builtin::AtLeast => Ok(truth(a >= b)),
        Builtin::Min => Ok(Value::Int(a.min(b))),
        Builtin::Max => Ok(Value::Int(a.max(b))),
        _ => Err(Fault::BadType),
    }
}

fn of_truth(function: Builtin, p: bool) -> Result<Value, Fault>
    ensures { result ≡ spec.of_truth function p }
{
    match function {
        Builtin::Not => Ok(truth(!p)),
        _ => Err(Fault::BadType),
    }
}

fn of_truths(function: Builtin, p: bool, q: bool) -> Result<Value, Fault>
    ensures { result ≡ spec.of_truths function p q }
{
    match function {
        Builtin::And => Ok(truth(p && q)),
        Builtin::Or => Ok(truth(p || q)),
        Builtin::Xor => Ok(truth(p != q)),
        _ => Err(Fault::BadType),
    }
}

/// What a plain builtin function gives of one argument.
pub(crate) fn plain_one(function: Builtin, a: &Value) -> Result<Value, Fault>
    ensures { result ≡ spec.plain function (a.now ∷ []) }
{
    match a {
        Value::Int(a) => of_number(function, *a),
        Value::True => of_truth(function, true),
        Value::False => of_truth(function, false),
        Value::Nothing
        | Value::Text(_)
        | Value::Range(_)
        | Value::List(_)
        | Value::Tuple(_)
        | Value::Grid(_)
        | Value::Exception(_)
        | Value::Future(_) => Err(Fault::BadType),
    }
}

fn of_two(function: Builtin, a: &Value, b: &Value) -> Result<Value, Fault>
    ensures { result ≡ spec.of_two function a.now b.now }
{
    match (a, b) {
        (Value::Int(a), Value::Int(b)) => of_numbers(function, *a, *b),
        (Value::True, Value::True) => of_truths(function, true, true),
        (Value::True, Value::False) => of_truths(function, true, false),
        (Value::False, Value::True) => of_truths(function, false, true),
        (Value::False, Value::False) => of_truths(function, false, false),
        _ => Err(Fault::BadType),
    }
}

/// What a plain builtin function gives of two arguments.
pub(crate) fn plain_two(function: Builtin, a: &Value, b: &Value) -> Result<Value, Fault>
    ensures { result ≡ spec.plain function (a.now ∷ b.now ∷ []) }
{
    match function {
        Builtin::Equal => Ok(truth(equal(a, b))),
        Builtin::NotEqual => Ok(truth(!equal(a, b))),
        _ => of_two(function, a, b),
    }
}

/// What a plain builtin function gives of its arguments.
pub(crate) fn plain(function: Builtin, arguments: &[Value]) -> Result<Value, Fault>
    ensures { result ≡ spec.plain function arguments.now }
{
    match arguments {
        [a] => plain_one(function, a),
        [a, b] => plain_two(function, a, b),
        _ => Err(Fault::BadType),
    }
}
