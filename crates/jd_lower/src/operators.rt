//! What operators compute.
ghost use Rattle.std.specs.Prelude.{◌≡◌, ◌∷◌, [], Some, IfOk};
ghost use Rattle.jd_lower.specs.Steps.{Lowers};
ghost use Rattle.jd_lower.specs.Operators as operators;
ghost use Rattle.jd_lower.specs.Operators.{operator, prefix, apply_to};

use crate::fault::LowerFault;
use jd_grammar::token::Kind;
use jd_value::{Builtin, Expr, OutOfMemory};
use sqlite_items::{Boxed, Items};
use std::alloc::Global;

/// The function of an operator before its operand.
fn prefix_of(kind: Kind) -> Option<Builtin>
    ensures { result ≡ prefix kind }
{
    match kind {
        Kind::Plus => Some(Builtin::Add),
        Kind::Minus => Some(Builtin::Negate),
        Kind::Not => Some(Builtin::Not),
        Kind::Complement => Some(Builtin::Complement),
        _ => None,
    }
}

/// The function of an operator between two operands.
fn operator_of(kind: Kind) -> Option<Builtin>
    ensures { result ≡ operator kind }
{
    match kind {
        Kind::Plus => Some(Builtin::Add),
        Kind::Minus => Some(Builtin::Subtract),
        Kind::Star => Some(Builtin::Multiply),
        Kind::Divide => Some(Builtin::Divide),
        Kind::Percent => Some(Builtin::Remainder),
        Kind::And => Some(Builtin::And),
        Kind::Or => Some(Builtin::Or),
        Kind::Xor => Some(Builtin::Xor),
        Kind::Equal => Some(Builtin::Equal),
        Kind::Unequal => Some(Builtin::NotEqual),
        Kind::Less => Some(Builtin::Less),
        Kind::LessEqual => Some(Builtin::AtMost),
        Kind::Greater => Some(Builtin::Greater),
        Kind::GreaterEqual => Some(Builtin::AtLeast),
        Kind::Colon => Some(Builtin::Range),
        _ => None,
    }
}

fn apply_to(function: Option<Builtin>, args: Items<Expr>) -> Result<Expr, LowerFault>
    ensures { Lowers (apply_to function args) result }
{
    match function {
        Some(function) => Ok(Expr::Apply(function, args)),
        None => {
            drop(args);
            Err(LowerFault::NotBuilt)
        }
    }
}

pub fn one_item(alloc: Global, x: Expr) -> Result<Items<Expr>, OutOfMemory>
    ensures { IfOk result (λ items. items ≡ x ∷ []) }
{
    let mut items = Items::new(alloc);
    items.push(x)?;
    Ok(items)
}

/// Two expressions, as the operands of one operation.
pub fn two_items(alloc: Global, x: Expr, y: Expr) -> Result<Items<Expr>, OutOfMemory>
    ensures { IfOk result (λ items. items ≡ x ∷ y ∷ []) }
{
    let mut items = Items::new(alloc);
    match items.push(x) {
        Ok(()) => {
            items.push(y)?;
            Ok(items)
        }
        Err(_) => {
            drop(y);
            Err(OutOfMemory)
        }
    }
}

/// An operator before its operand.
pub fn prefixed(alloc: Global, kind: Kind, x: Expr) -> Result<Expr, LowerFault>
    ensures { Lowers (operators.of_one kind (Some x)) result }
{
    let args = one_item(alloc, x)?;
    apply_to(prefix_of(kind), args)
}

/// Two expressions on the heap.
fn two_boxed(alloc: Global, x: Expr, y: Expr) -> Result<(Boxed<Expr>, Boxed<Expr>), OutOfMemory>
    ensures { IfOk result (λ p. p ≡ (x, y)) }
{
    match Boxed::new(alloc, x) {
        Ok(x) => match Boxed::new(alloc, y) {
            Ok(y) => Ok((x, y)),
            Err(_) => {
                drop(x);
                Err(OutOfMemory)
            }
        },
        Err(_) => {
            drop(y);
            Err(OutOfMemory)
        }
    }
}

/// Two operands and the operator between them.
pub fn joined(alloc: Global, kind: Kind, x: Expr, y: Expr) -> Result<Expr, LowerFault>
    ensures { Lowers (operators.joined kind x y) result }
{
    match kind {
        Kind::AndAlso => {
            let (x, y) = two_boxed(alloc, x, y)?;
            Ok(Expr::And(x, y))
        }
        Kind::OrElse => {
            let (x, y) = two_boxed(alloc, x, y)?;
            Ok(Expr::Or(x, y))
        }
        _ => {
            let args = two_items(alloc, x, y)?;
            apply_to(operator_of(kind), args)
        }
    }
}

/// `condition ? x : y`
pub fn chosen(alloc: Global, condition: Expr, x: Expr, y: Expr) -> Result<Expr, LowerFault>
    ensures { Lowers (operators.chosen (Some condition) (Some x) (Some y)) result }
{
    match two_boxed(alloc, x, y) {
        Ok((x, y)) => match Boxed::new(alloc, condition) {
            Ok(condition) => Ok(Expr::Choose(condition, x, y)),
            Err(_) => {
                drop((x, y));
                Err(LowerFault::OutOfMemory)
            }
        },
        Err(_) => {
            drop(condition);
            Err(LowerFault::OutOfMemory)
        }
    }
}
