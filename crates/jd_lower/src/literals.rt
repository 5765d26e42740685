//! Expressions of one token.
ghost use Rattle.std.specs.Prelude.{◌≡◌, Some, IfOk};
ghost use Rattle.jd_grammar.specs.declared.token.Kind.TheVariants as kind;
ghost use Rattle.jd_lower.specs.Steps.{Lowers};
ghost use Rattle.jd_lower.specs.Literals.{operand};

use crate::fault::LowerFault;
use crate::names::{name_of_variable, shared_at};
use crate::scope::Scope;
use jd_grammar::token::{Kind, Name};
use jd_value::{Expr, OutOfMemory};
use std::alloc::Global;

fn text_of(alloc: Global, scope: &Scope, n: u32) -> Result<Expr, OutOfMemory>
    ensures { IfOk result (λ x. operand scope.now (kind.Text n) ≡ Some x) }
{
    Ok(Expr::Text(shared_at(alloc, scope.texts.as_slice(), n as usize)?))
}

fn variable_of(alloc: Global, scope: &Scope, name: Name) -> Result<Expr, OutOfMemory>
    ensures { IfOk result (λ x. operand scope.now (kind.Name name) ≡ Some x) }
{
    Ok(Expr::Name(name_of_variable(alloc, scope.names.as_slice(), name)?))
}

/// A literal or a variable.
pub fn lower_operand(alloc: Global, scope: &Scope, kind: Kind) -> Result<Expr, LowerFault>
    ensures { Lowers (operand scope.now kind) result }
{
    match kind {
        Kind::Number(n) => Ok(Expr::Int(n.cast_signed())),
        Kind::Wide(true) => Ok(Expr::Int(i64::MIN)),
        Kind::Text(n) => Ok(text_of(alloc, scope, n)?),
        Kind::Name(name) => Ok(variable_of(alloc, scope, name)?),
        Kind::True => Ok(Expr::Truth(true)),
        Kind::False => Ok(Expr::Truth(false)),
        Kind::Nothing => Ok(Expr::Nothing),
        _ => Err(LowerFault::NotBuilt),
    }
}
